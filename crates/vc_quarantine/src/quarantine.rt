//! The quarantine: where what an open push carries stands until it is stored.
ghost use Rattle.std.specs.Prelude.{◌≡◌, ◌⊎◌, IfOk, IfErr, IfSome, OnOk, OnErr, IsErrAnd, IsErrOf, option_map, string_bytes, true};
ghost use Rattle.std.specs.FinMap.{insert};
ghost use Rattle.vc_files.specs.FileMap.{SameOutside};
ghost use Rattle.vc_files.specs.Failures.{Wears, Writes};
ghost use Rattle.vc_object.specs.Decoding.{stored_object};
ghost use Rattle.vc_object.specs.Object.{object_bytes, object_name};
ghost use Rattle.vc_object.specs.ObjectId.{is_id};
ghost use Rattle.vc_object_map.specs.StoreFault.{IsFault, IsRefused};
ghost use Rattle.vc_quarantine.specs.Clean.{MakesNoneBad};
ghost use Rattle.vc_push_rules.specs.Quarantine.{IsDamagedThere, IsDropped, OnlyLoses, Quarantines, quarantine_folder, quarantine_path, quarantined};

use std::alloc::{AllocError, Global};
use vc_files::{Fault, Files};
use vc_object::{Object, ObjectId, encode, name_of};
use vc_object_map::StoreFault;
use vc_store::{Stored, object_from};

// The folder of a slot's quarantine, with its slash.
fn quarantine_folder(alloc: Global, slot: u8) -> Result<String, AllocError>
    ensures { IfOk result (λ folder. string_bytes folder ≡ quarantine_folder slot) }
{
    format!(in alloc; "quarantine/{slot}/")
}

// The path of an object in a slot's quarantine.
fn quarantine_path(alloc: Global, slot: u8, id: &ObjectId) -> Result<String, AllocError>
    ensures { IfOk result (λ path. string_bytes path ≡ quarantine_path slot id.now.0) }
{
    let folder = quarantine_folder(alloc, slot)?;
    let (first, rest) = id.0.split_at(1);
    let first = hex::encode(alloc, first)?;
    let rest = hex::encode(alloc, rest)?;
    format!(in alloc; "{folder}{first}/{rest}")
}

/// The object with this name in a slot's quarantine, or none where it is not there; 12 where its file is damaged. What is found has
/// the name whatever the device does, so that nobody need name it again.
pub fn find_in_quarantine<F: Files>(
    files: &mut F,
    alloc: Global,
    slot: u8,
    id: &ObjectId,
) -> Result<Option<Stored>, StoreFault>
    ensures found { F.honest → IfOk result (λ found. option_map (λ s. stored_object s.kind s.body.items) found ≡ quarantined (F.content files.old) slot id.now) }
    ensures own { IfOk result (λ found. IfSome found (λ s. object_name s.kind s.body.items ≡ id.now)) }
    ensures damaged { F.honest → IsDamagedThere (F.content files.old) slot id.now → IsErrAnd result (λ e. IsFault e ⊎ (e ≡ StoreFault.Damaged id.now)) }
    ensures refused { IfErr result (IsRefused id.now (F.honest → IsDamagedThere (F.content files.old) slot id.now)) }
    ensures same { F.content files.new ≡ F.content files.old }
    ensures wear { Wears F.failed F.can_fail F.left files.old files.new (IsErrOf result (StoreFault.Fault Fault.Device)) }
{
    let id = &id.named();
    let path = quarantine_path(alloc, slot, id)?;
    let Some(bytes) = files.get(alloc, path.as_str())? else {
        return Ok(None);
    };
    let object = object_from(id, bytes)?;
    Ok(Some(object))
}

/// Writes a file in the place of an object of a slot's quarantine, whatever it holds.
pub(crate) fn put_at<F: Files>(
    files: &mut F,
    alloc: Global,
    slot: u8,
    id: &ObjectId,
    bytes: &[u8],
) -> Result<(), Fault>
    ensures ok { F.honest → OnOk result (F.content files.new ≡ insert (F.content files.old) (quarantine_path slot id.now.0) bytes.now) }
    ensures outside { F.honest → SameOutside (quarantine_folder slot) (F.content files.old) (F.content files.new) }
    ensures err { F.honest → OnErr result (F.content files.new ≡ F.content files.old) }
    ensures wear { Writes F.honest F.content F.failed F.can_fail F.left files.old files.new (IsErrOf result Fault.Device) }
{
    let path = quarantine_path(alloc, slot, id)?;
    files.put(alloc, path.as_str(), bytes)?;
    Ok(())
}

/// Puts an object whose name is known into a slot's quarantine. One write of one file does it. No file becomes bad.
pub(crate) fn put_named<F: Files>(
    files: &mut F,
    alloc: Global,
    slot: u8,
    id: &ObjectId,
    object: &Object<'_>,
) -> Result<(), Fault>
    requires named { id.now ≡ object_name object.now.kind object.now.body.now }
    requires valid { is_id id.now ≡ true }
    ensures ok { F.honest → OnOk result (F.content files.new ≡ insert (F.content files.old) (quarantine_path slot id.now.0) (object_bytes object.now.kind object.now.body.now)) }
    ensures objects { F.honest → OnOk result (Quarantines slot id.now (stored_object object.now.kind object.now.body.now) (F.content files.old) (F.content files.new)) }
    ensures outside { F.honest → SameOutside (quarantine_folder slot) (F.content files.old) (F.content files.new) }
    ensures err { F.honest → OnErr result (F.content files.new ≡ F.content files.old) }
    ensures bad { F.honest → MakesNoneBad (F.content files.old) (F.content files.new) }
    ensures wear { Writes F.honest F.content F.failed F.can_fail F.left files.old files.new (IsErrOf result Fault.Device) }
{
    let bytes = encode(alloc, object)?;
    put_at(files, alloc, slot, id, &bytes)?;
    Ok(())
}

/// Puts an object into a slot's quarantine, and answers its name. One write of one file does it. No file becomes bad.
pub fn put_in_quarantine<F: Files>(
    files: &mut F,
    alloc: Global,
    slot: u8,
    object: &Object<'_>,
) -> Result<ObjectId, Fault>
    ensures name { IfOk result (λ id. id ≡ object_name object.now.kind object.now.body.now) }
    ensures ok { F.honest → IfOk result (λ id. F.content files.new ≡ insert (F.content files.old) (quarantine_path slot id.0) (object_bytes object.now.kind object.now.body.now)) }
    ensures objects { F.honest → IfOk result (λ id. Quarantines slot id (stored_object object.now.kind object.now.body.now) (F.content files.old) (F.content files.new)) }
    ensures outside { F.honest → SameOutside (quarantine_folder slot) (F.content files.old) (F.content files.new) }
    ensures err { F.honest → OnErr result (F.content files.new ≡ F.content files.old) }
    ensures bad { F.honest → MakesNoneBad (F.content files.old) (F.content files.new) }
    ensures wear { Writes F.honest F.content F.failed F.can_fail F.left files.old files.new (IsErrOf result Fault.Device) }
{
    let id = name_of(object.kind, object.body);
    put_named(files, alloc, slot, &id, object)?;
    Ok(id)
}

/// Takes away all that stands in a slot's quarantine. A call that ends early has taken away some of it. No file becomes bad.
pub fn drop_quarantine<F: Files>(files: &mut F, alloc: Global, slot: u8) -> Result<(), Fault>
    ensures dropped { F.honest → OnOk result (IsDropped slot (F.content files.new)) }
    ensures left { F.honest → OnlyLoses (F.content files.old) (F.content files.new) }
    ensures outside { F.honest → SameOutside (quarantine_folder slot) (F.content files.old) (F.content files.new) }
    ensures bad { F.honest → MakesNoneBad (F.content files.old) (F.content files.new) }
    ensures wear { Writes F.honest F.content F.failed F.can_fail F.left files.old files.new (IsErrOf result Fault.Device) }
{
    let folder = quarantine_folder(alloc, slot)?;
    let paths = files.list(alloc, folder.as_str())?;
    for path in &paths {
        files.remove(alloc, path.as_str())?;
    }
    Ok(())
}
