//! What a refusal is about, as a person reads it: the path, the object, the file of the store that the refusal itself names.
ghost use Rattle.std.specs.Prelude.{◌≡◌, ◌++◌, IfOk, OnOk, Some};
ghost use Rattle.hex.specs.Hex.{encode_lower};
ghost use Rattle.vc_reading.specs.AtFault.{IsPlace, at_line, named, octal, of_history, of_failure, of_message, of_node, of_ref, of_revision, of_source, of_store, quoted_byte};

use std::alloc::{AllocError, Global};
use vc_cli::Failure;
use vc_history::HistoryFault;
use vc_local::NodeFault;
use vc_object::ObjectId;
use vc_object_map::StoreFault;
use vc_pkt::PktFault;
use vc_refs::RefFault;
use vc_rev::{RevFault, SourceFault};

// The letters by which git writes the bytes 7 to 13.
const LETTERS: [u8; 7] = [b'a', b'b', b't', b'n', b'v', b'f', b'r'];

/// The line that tells what is at fault: `vcs: at "main~9"`. Bytes are written as git writes those of a path with
/// core.quotePath, so each byte of the line but its last is a letter, digit, mark or space of ASCII.
pub fn at_line(alloc: Global, place: &[u8]) -> Result<Vec<u8>, AllocError>
    ensures { IfOk result (λ line. line.items ≡ at_line place.now) }
{
    let mut line = Vec::new(alloc);
    line.extend_from_slice(b"vcs: at \"")?;
    for byte in place {
        push_quoted(&mut line, *byte)?;
    }
    line.extend_from_slice(b"\"\n")?;
    Ok(line)
}

// Adds a byte as git writes it in a path.
fn push_quoted(line: &mut Vec<u8>, byte: u8) -> Result<(), AllocError>
    ensures { OnOk result (line.new.items ≡ line.old.items ++ quoted_byte byte) }
{
    if byte == b'"' || byte == b'\\' {
        line.extend_from_slice(&[b'\\', byte])
    } else if byte < 7 || byte > 126 {
        push_octal(line, byte)
    } else if byte < 14 {
        line.extend_from_slice(&[b'\\', LETTERS[usize::from(byte - 7)]])
    } else if byte < 32 {
        push_octal(line, byte)
    } else {
        line.push(byte)?;
        Ok(())
    }
}

// Adds a byte by three octal digits.
fn push_octal(line: &mut Vec<u8>, byte: u8) -> Result<(), AllocError>
    ensures { OnOk result (line.new.items ≡ line.old.items ++ octal byte) }
{
    line.extend_from_slice(&[
        b'\\',
        b'0' + byte / 64,
        b'0' + byte / 8 % 8,
        b'0' + byte % 8,
    ])
}

/// What the failure itself names, if it names something.
pub fn named_by(alloc: Global, failure: &Failure) -> Result<Option<Vec<u8>>, AllocError>
    ensures { IfOk result (IsPlace (of_failure failure.now)) }
{
    match failure {
        Failure::LocalChange(path) | Failure::InTheWay(path) => bytes_at(alloc, path),
        Failure::BadPath(path) | Failure::NotText(path) => bytes_at(alloc, path),
        Failure::Node(fault) => named_by_node(alloc, fault),
        Failure::Revision(fault) => named_by_revision(alloc, fault),
        Failure::Store(fault) => named_by_store(alloc, fault),
        Failure::History(fault) => named_by_history(alloc, fault),
        Failure::Refs(fault) => named_by_ref(alloc, fault),
        Failure::Unread(fault) => named_by_message(alloc, fault),
        Failure::Incomplete(id) => id_at(alloc, id),
        _ => Ok(None),
    }
}

fn named_by_node(alloc: Global, fault: &NodeFault) -> Result<Option<Vec<u8>>, AllocError>
    ensures { IfOk result (IsPlace (of_node fault.now)) }
{
    match fault {
        NodeFault::Store(fault) => named_by_store(alloc, fault),
        NodeFault::Ref(fault) => named_by_ref(alloc, fault),
        NodeFault::Missing(id) => id_at(alloc, id),
        NodeFault::NotACommit(id) => id_at(alloc, id),
        NodeFault::BadIndex(_) => bytes_at(alloc, b"index"),
        NodeFault::WrongEntry(path) => bytes_at(alloc, path),
        _ => Ok(None),
    }
}

fn named_by_revision(alloc: Global, fault: &RevFault) -> Result<Option<Vec<u8>>, AllocError>
    ensures { IfOk result (IsPlace (of_revision fault.now)) }
{
    match fault {
        RevFault::Refused(_) => Ok(None),
        RevFault::Missing(id) => id_at(alloc, id),
        RevFault::NotACommit(id) => id_at(alloc, id),
        RevFault::Source(fault) => named_by_source(alloc, fault),
    }
}

fn named_by_source(alloc: Global, fault: &SourceFault) -> Result<Option<Vec<u8>>, AllocError>
    ensures { IfOk result (IsPlace (of_source fault.now)) }
{
    match fault {
        SourceFault::Store(fault) => named_by_store(alloc, fault),
        SourceFault::BadRefFile(path) => bytes_at(alloc, path.as_str().as_bytes()),
        SourceFault::HeadLoop => bytes_at(alloc, b"HEAD"),
        SourceFault::BadIndex(_) => bytes_at(alloc, b"index"),
    }
}

fn named_by_store(alloc: Global, fault: &StoreFault) -> Result<Option<Vec<u8>>, AllocError>
    ensures { IfOk result (IsPlace (of_store fault.now)) }
{
    match fault {
        StoreFault::Absent(id) => id_at(alloc, id),
        StoreFault::Damaged(id) => id_at(alloc, id),
        _ => Ok(None),
    }
}

fn named_by_history(alloc: Global, fault: &HistoryFault) -> Result<Option<Vec<u8>>, AllocError>
    ensures { IfOk result (IsPlace (of_history fault.now)) }
{
    match fault {
        HistoryFault::Missing(id) => id_at(alloc, id),
        HistoryFault::NotACommit(id) => id_at(alloc, id),
        HistoryFault::Store(fault) => named_by_store(alloc, fault),
    }
}

fn named_by_ref(alloc: Global, fault: &RefFault) -> Result<Option<Vec<u8>>, AllocError>
    ensures { IfOk result (IsPlace (of_ref fault.now)) }
{
    match fault {
        RefFault::Conflict(name) => bytes_at(alloc, name.as_str().as_bytes()),
        RefFault::BadRefFile(path) => bytes_at(alloc, path.as_str().as_bytes()),
        RefFault::HeadLoop => bytes_at(alloc, b"HEAD"),
        _ => Ok(None),
    }
}

// The byte at which no line begins, and the line that the message has not there, both numbered from 0.
fn named_by_message(alloc: Global, fault: &PktFault) -> Result<Option<Vec<u8>>, AllocError>
    ensures { IfOk result (IsPlace (of_message fault.now)) }
{
    match fault {
        PktFault::BadLength(place) => { Ok(Some(format!(in alloc; "byte {place}")?.into_bytes())) }
        PktFault::BadRecord(line) => Ok(Some(format!(in alloc; "line {line}")?.into_bytes())),
        _ => Ok(None),
    }
}

// These bytes, if there are any: the path of a tree's root is empty, and names nothing.
fn bytes_at(alloc: Global, bytes: &[u8]) -> Result<Option<Vec<u8>>, AllocError>
    ensures { IfOk result (IsPlace (named bytes.now)) }
{
    if bytes.is_empty() {
        return Ok(None);
    }
    let mut copy = Vec::new(alloc);
    copy.extend_from_slice(bytes)?;
    Ok(Some(copy))
}

fn id_at(alloc: Global, id: &ObjectId) -> Result<Option<Vec<u8>>, AllocError>
    ensures { IfOk result (IsPlace (Some (encode_lower id.now.0))) }
{
    let mut digits = Vec::new(alloc);
    digits.extend_from_slice(&id.to_hex())?;
    Ok(Some(digits))
}
