//! Writing object streams.

ghost use Rattle.std.specs.Prelude.{◌≡◌, ◌≤◌, ◌++◌, List, ℕ, length, OnOk, OnErr, IfOk};
ghost use Rattle.std.specs.List.{flat_map};
ghost use Rattle.vc_object.specs.Decoding.{stored_object};
ghost use Rattle.vc_pkt.specs.Line.{spelling, text};
ghost use Rattle.vc_pkt.specs.Written.{data_lines, object_text, object_lines, stream_lines};
ghost use Rattle.vc_pkt.specs.ObjectStreamView.{carried};

use crate::carried::CarriedObjects;
use crate::line::MAX_DATA;
use crate::write::{write_flush, write_line, write_text};
use std::alloc::{AllocError, Global};
use vc_object::Kind;

/// The text of the line that begins an object.
fn object_text(alloc: Global, kind: Kind, body: &[u8]) -> Result<Vec<u8>, AllocError>
    ensures text { IfOk result (λ words. words.items ≡ object_text (stored_object kind body.now)) }
    ensures short { IfOk result (λ words. length words.items ≤ 31) }
{
    let digits = body.len().to_string(alloc)?;
    let mut words = Vec::new(alloc);
    words.extend_from_slice(b"obj ")?;
    words.extend_from_slice(kind.word())?;
    words.push(b' ')?;
    words.extend_from_slice(digits.as_bytes())?;
    Ok(words)
}

/// Writes a body as data lines, or some of them.
fn write_body(out: &mut Vec<u8>, body: &[u8]) -> Result<(), AllocError>
    ensures ok { OnOk result (out.new.items ≡ out.old.items ++ flat_map spelling (data_lines body.now)) }
    ensures grown { (more : List ℕ) × (out.new.items ≡ out.old.items ++ more) }
{
    let mut rest = body;
    'pieces: while !rest.is_empty() {
        let (piece, more) = rest.split_at(MAX_DATA.min(rest.len()));
        write_line(out, piece)?;
        rest = more;
    }
    Ok(())
}

/// Writes an object's line and the lines of its body, or some of these bytes.
fn push_object(out: &mut Vec<u8>, kind: Kind, body: &[u8]) -> Result<(), AllocError>
    ensures ok { OnOk result (out.new.items ≡ out.old.items ++ flat_map spelling (object_lines (stored_object kind body.now))) }
    ensures grown { (more : List ℕ) × (out.new.items ≡ out.old.items ++ more) }
{
    let words = object_text(*out.allocator(), kind, body)?;
    write_text(out, &words)?;
    write_body(out, body)
}

/// Writes an object: its line, and its body cut into data lines that are as long as may be. If memory is
/// short, nothing is written.
pub fn write_object(out: &mut Vec<u8>, kind: Kind, body: &[u8]) -> Result<(), AllocError>
    ensures ok { OnOk result (out.new.items ≡ out.old.items ++ flat_map spelling (object_lines (stored_object kind body.now))) }
    ensures err { OnErr result (out.new.items ≡ out.old.items) }
{
    let before = out.len();
    match push_object(out, kind, body) {
        Ok(()) => Ok(()),
        Err(fault) => {
            out.truncate(before);
            Err(fault)
        }
    }
}

/// Writes objects in order of name and a flush, or some of these bytes.
fn push_objects(out: &mut Vec<u8>, objects: &CarriedObjects) -> Result<(), AllocError>
    ensures ok { OnOk result (out.new.items ≡ out.old.items ++ flat_map spelling (stream_lines (carried objects.now))) }
    ensures grown { (more : List ℕ) × (out.new.items ≡ out.old.items ++ more) }
{
    'objects: for object in objects.by_name.values() {
        write_object(out, object.kind, &object.body)?;
    }
    write_flush(out)
}

/// Writes an object stream: the objects in order of name, and a flush. If memory is short, nothing is
/// written.
pub fn write_objects(out: &mut Vec<u8>, objects: &CarriedObjects) -> Result<(), AllocError>
    ensures ok { OnOk result (out.new.items ≡ out.old.items ++ flat_map spelling (stream_lines (carried objects.now))) }
    ensures err { OnErr result (out.new.items ≡ out.old.items) }
{
    let before = out.len();
    match push_objects(out, objects) {
        Ok(()) => Ok(()),
        Err(fault) => {
            out.truncate(before);
            Err(fault)
        }
    }
}
