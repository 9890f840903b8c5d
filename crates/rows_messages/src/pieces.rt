//! Rows about messages that are taken object by object.

ghost use Rattle.std.specs.Prelude.{◌<◌};

use crate::ends::{Ends, count_end, push_ends};
use crate::messages::{Telling, push_found, push_object};
use crate::pushes::push_command;
use crate::spelling::spelled;
use crate::taking::{Dripping, Failing};
use std::alloc::{AllocError, Global};
use std::collections::BTreeMap;
use std::fmt::Write;
use std::io::Read;
use vc_message::{
    AnyReader, Fallible, Head, IncomingFault, Source, Taken, next_object, read_head, skip_message,
};

/// Why nothing more comes. Want of memory ends the row.
pub fn push_fault(out: &mut String, fault: IncomingFault) -> Result<(), AllocError> {
    match fault {
        IncomingFault::Memory => Err(AllocError),
        _ => write!(out, "{fault}"),
    }
}

// What comes first of a message.
fn push_head(out: &mut String, head: &Head) -> Result<(), AllocError> {
    match head {
        Head::Message(message) => AnyReader::tell(out, message),
        Head::Push(head) => {
            out.push_str("push")?;
            if head.atomic {
                out.push_str(" atomic")?;
            }
            for command in &head.commands {
                out.push(' ')?;
                push_command(out, command)?;
            }
            Ok(())
        }
        Head::Pack(ack) => {
            out.push_str("pack ")?;
            push_found(out, *ack)
        }
    }
}

// Tells ` | `, the number of its first line and `kind:body` for each object that comes, and why no more come, unless they have
// ended. Whether they have.
fn push_rest<R: Source>(
    out: &mut String,
    alloc: Global,
    reader: &mut R,
    taken: Taken,
    most: usize,
) -> Result<bool, AllocError>
    requires few { taken.lines < taken.bytes }
{
    let mut taken = taken;
    'objects: for _ in 0..=most {
        match next_object(alloc, reader, &mut taken) {
            Ok(Some((line, object))) => {
                write!(out, " | {line} ")?;
                push_object(out, &object)?;
            }
            Ok(None) => return Ok(true),
            Err(fault) => {
                out.push_str(" | ")?;
                push_fault(out, fault)?;
                return Ok(false);
            }
        }
    }
    Ok(false)
}

// A message that begins so, and what comes behind that. Whether it came whole.
fn push_whole<R: Source>(
    out: &mut String,
    alloc: Global,
    reader: &mut R,
    head: &Head,
    taken: Taken,
    most: usize,
) -> Result<bool, AllocError>
    requires few { taken.lines < taken.bytes }
{
    push_head(out, head)?;
    match head {
        Head::Message(_) => Ok(true),
        _ => push_rest(out, alloc, reader, taken, most),
    }
}

// The next message, or why none comes. Whether it came whole.
fn push_next<R: Source>(
    out: &mut String,
    alloc: Global,
    reader: &mut R,
    most: usize,
) -> Result<bool, AllocError> {
    match read_head(alloc, reader) {
        Ok(Some((head, taken))) => push_whole(out, alloc, reader, &head, taken, most),
        Ok(None) => {
            out.push_str("end")?;
            Ok(false)
        }
        Err(fault) => {
            push_fault(out, fault)?;
            Ok(false)
        }
    }
}

/// The messages that the reader gives, `;` behind each, and why no more come.
pub fn told<R: Source>(alloc: Global, reader: &mut R, most: usize) -> Result<String, AllocError> {
    let mut out = String::new(alloc);
    for _ in 0..=most {
        if !push_next(&mut out, alloc, reader, most)? {
            break;
        }
        out.push_str("; ")?;
    }
    Ok(out)
}

// Writes the messages of a reader that gives the bytes one by one, if they are others.
fn push_dripped(
    out: &mut String,
    alloc: Global,
    bytes: &[u8],
    whole: &str,
) -> Result<(), AllocError> {
    let mut dripping = Fallible::new(Dripping {
        rest: bytes,
        is_ready: false,
    });
    let other = told(alloc, &mut dripping, bytes.len())?;
    if other.as_str() == whole {
        return Ok(());
    }
    write!(out, ", but byte by byte {other}")
}

// The same of a reader that gives the bytes in two parts.
fn push_cut(
    out: &mut String,
    alloc: Global,
    parts: (&[u8], &[u8]),
    whole: &str,
) -> Result<(), AllocError> {
    let (front, back) = parts;
    let mut reader = Fallible::new(front.chain(back));
    let other = told(alloc, &mut reader, front.len().saturating_add(back.len()))?;
    if other.as_str() == whole {
        return Ok(());
    }
    write!(out, ", but cut at {} {other}", front.len())
}

// The same of each reader that does not give the bytes at once.
fn push_others(
    out: &mut String,
    alloc: Global,
    bytes: &[u8],
    whole: &str,
) -> Result<(), AllocError> {
    push_dripped(out, alloc, bytes, whole)?;
    for place in 0..bytes.len() {
        push_cut(out, alloc, (&bytes[..place], &bytes[place..]), whole)?;
    }
    Ok(())
}

/// The messages of a reader that gives the bytes at once, each taken object by object; and where one that cuts them at some place,
/// or gives them one by one, gives others, these too.
pub fn pieces(out: &mut String, alloc: Global, text: &str) -> Result<(), AllocError> {
    let bytes = spelled(alloc, text)?;
    let mut reader = bytes.as_slice();
    let whole = told(alloc, &mut reader, bytes.len())?;
    out.push_str(whole.as_str())?;
    push_others(out, alloc, &bytes, whole.as_str())
}

/// Passes over the first message of a reader that gives the bytes one by one: the messages behind it, or why it has no end.
pub fn skip(out: &mut String, alloc: Global, text: &str) -> Result<(), AllocError> {
    let bytes = spelled(alloc, text)?;
    let mut reader = Fallible::new(Dripping {
        rest: &bytes,
        is_ready: false,
    });
    match skip_message(alloc, &mut reader) {
        Ok(Some(_)) => out.push_str(told(alloc, &mut reader, bytes.len())?.as_str()),
        Ok(None) => out.push_str("none"),
        Err(fault) => push_fault(out, fault),
    }
}

// Counts what is told last once more.
fn count_last(alloc: Global, ends: &mut Ends, told: &str) -> Result<(), AllocError> {
    let (_, last) = told.rsplit_once(" | ").unwrap_or(("", told));
    count_end(ends, String::from_str(alloc, last)?)
}

// Counts what is told last of this front of a message, if the reader ends after it, and if it fails there.
fn count_front(alloc: Global, ends: &mut Ends, front: &[u8]) -> Result<(), AllocError> {
    let mut ending = front;
    count_last(alloc, ends, told(alloc, &mut ending, front.len())?.as_str())?;
    let mut failing = Fallible::new(front.chain(Failing));
    count_last(
        alloc,
        ends,
        told(alloc, &mut failing, front.len())?.as_str(),
    )
}

/// Each front of a message, behind which the reader ends, and behind which it fails: what is told last, and how often.
pub fn fronts(out: &mut String, alloc: Global, text: &str) -> Result<(), AllocError> {
    let bytes = spelled(alloc, text)?;
    let mut ends = BTreeMap::new(alloc);
    for place in 0..bytes.len() {
        count_front(alloc, &mut ends, &bytes[..place])?;
    }
    push_ends(out, &ends)
}
