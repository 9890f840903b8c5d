//! Laws of the definitions: functions with no work to do, whose contracts are the laws.

ghost use Rattle.std.specs.Prelude.{◌≡◌, [], ℕ, List, map, codes};
ghost use Rattle.std.specs.List.{AllByRecursion, flat_map};
ghost use Rattle.vc_pkt.specs.Line.{LineText, IsLength, IsPart, IsWritable, IsLineList, IsBadAt, spelling};
ghost use Rattle.vc_pkt.specs.Held.{Held};
ghost use Rattle.vc_pkt.specs.Message.{FirstFault, IsSpelledBy};
ghost use Rattle.vc_object.specs.Decoding.{StoredObject};
ghost use Rattle.vc_object.specs.ObjectId.{IsSortedByName};
ghost use Rattle.vc_object.specs.declared.id.ObjectId.{ObjectId};
ghost use Rattle.vc_pkt.specs.Carried.{stored_name, object_named, with_objects};
ghost use Rattle.vc_pkt.specs.ObjectStream.{SpellsObjects};
ghost use Rattle.vc_pkt.specs.Written.{IsWrittenSet, stream_lines};
ghost use Rattle.vc_pkt.specs.declared.fault.PktFault.{PktFault};
ghost use Rattle.vc_pkt.specs.Uses.{Use, LeadsTo, bytes_fed, lines_given};

use crate::message::MessageReader;

/// Bytes are lines and less than a line in one way at most.
pub fn one_list()
    ensures { (bytes : List ℕ) (lines others : List LineText) (rest end : List ℕ) → IsLineList bytes lines rest → IsLineList bytes others end → (lines ≡ others) × (rest ≡ end) }
{}

/// Bytes with a bad length are no lines and less than a line.
pub fn no_list_of_bad()
    ensures { (bytes : List ℕ) (lines : List LineText) (rest : List ℕ) (place : ℕ) → IsLineList bytes lines rest → IsBadAt bytes place → ⊥ }
{}

/// The first bad length stands at one place.
pub fn one_bad_place()
    ensures { (bytes : List ℕ) (place other : ℕ) → IsBadAt bytes place → IsBadAt bytes other → place ≡ other }
{}

/// However a stream is cut into pieces, and whenever its lines are taken: once no whole line is held,
/// the lines that were given are those of all its bytes, and what is held is the rest of them.
pub fn however_cut()
    ensures { (uses : List Use) (held : Held) → LeadsTo uses (record { bytes = []; place = 0 }) held → IsPart held.bytes → IsLineList (bytes_fed uses) (lines_given uses) held.bytes }
{}

/// What is written is read again.
pub fn written_is_read()
    ensures { (lines : List LineText) → AllByRecursion IsWritable lines → IsLineList (flat_map spelling lines) lines [] }
{}

/// A flush has one spelling.
pub fn flush_is_zeros()
    ensures { (digits : List ℕ) → IsLength digits 0 → digits ≡ codes "0000" }
{}

/// Bytes have one first fault.
pub fn one_first_fault<R: MessageReader>()
    ensures { (bytes : List ℕ) (fault other : PktFault) → FirstFault R.step R.start bytes fault → FirstFault R.step R.start bytes other → fault ≡ other }
{}

/// Objects that are written, in order of name, are what is read again.
pub fn written_objects_are_read()
    ensures { (objects : List StoredObject) → IsWrittenSet objects → IsSpelledBy SpellsObjects objects (flat_map spelling (stream_lines objects)) }
{}

/// A set of carried objects is in order of name.
pub fn carried_objects_are_sorted()
    ensures { (objects : List StoredObject) → IsSortedByName (map stored_name (with_objects [] objects)) }
{}

/// It has at each name the first object of that name that came, and no other names.
pub fn carried_objects_count_once()
    ensures { (id : ObjectId) (objects : List StoredObject) → object_named id (with_objects [] objects) ≡ object_named id objects }
{}
