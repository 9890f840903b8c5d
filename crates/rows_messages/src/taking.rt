//! Rows about messages that come one behind another from a reader.

use crate::messages::Telling;
use crate::spelling::{push_bytes, spelled};
use std::alloc::{AllocError, Global};
use std::fmt::Write;
use std::io::{self, ErrorKind, Read};
use vc_message::{AnyReader, Fallible, IncomingFault, Message, read_message};

/// A reader that gives one byte at a time, after a read that is interrupted.
#[derive(Drop)]
pub struct Dripping<'a> {
    pub rest: &'a [u8],
    pub is_ready: bool,
}

impl<'a> Read for Dripping<'a> {
    fn read(&mut self, buffer: &mut [u8]) -> io::Result<usize> {
        self.is_ready = !self.is_ready;
        if self.is_ready {
            return Err(io::Error::from(ErrorKind::Interrupted));
        }
        let most = buffer.len().min(1);
        self.rest.read(&mut buffer[..most])
    }
}

/// A reader that fails.
#[derive(Drop)]
pub struct Failing;

impl Read for Failing {
    fn read(&mut self, _: &mut [u8]) -> io::Result<usize> {
        Err(io::Error::from(ErrorKind::ConnectionReset))
    }
}

// A reader that keeps what it gave.
#[derive(Drop)]
struct Kept<'a, R> {
    reader: &'a mut R,
    given: Vec<u8>,
}

impl<'a, R: Read> Read for Kept<'a, R> {
    fn read(&mut self, buffer: &mut [u8]) -> io::Result<usize> {
        let count = self.reader.read(buffer)?;
        self.given.extend_from_slice(&buffer[..count])?;
        Ok(count)
    }
}

// What a message says.
fn words(alloc: Global, message: &Message) -> Result<String, AllocError> {
    let mut out = String::new(alloc);
    AnyReader::tell(&mut out, message)?;
    Ok(out)
}

// The bytes that were taken for a message; and where they are not read at once as that message, a word more.
fn push_taken(
    out: &mut String,
    alloc: Global,
    bytes: &[u8],
    message: &Message,
) -> Result<(), AllocError> {
    push_bytes(out, bytes, " ")?;
    let at_once = match Message::read(alloc, bytes) {
        Ok(other) => words(alloc, &other)?,
        Err(_) => String::new(alloc),
    };
    if words(alloc, message)?.as_str() != at_once.as_str() {
        out.push_str(" differs")?;
    }
    out.push_str(" | ")
}

// What was read of these bytes. Whether it was a message.
fn push_read(
    out: &mut String,
    alloc: Global,
    given: &[u8],
    read: &Result<Option<Message>, IncomingFault>,
) -> Result<bool, AllocError> {
    match read {
        Ok(Some(message)) => {
            push_taken(out, alloc, given, message)?;
            Ok(true)
        }
        Ok(None) => {
            out.push_str("end")?;
            Ok(false)
        }
        Err(IncomingFault::Memory) => Err(AllocError),
        Err(fault) => {
            write!(out, "{fault}")?;
            Ok(false)
        }
    }
}

// The next message of the reader, `|` after it, or why none comes. Whether one came.
fn push_next<R: Read>(out: &mut String, alloc: Global, reader: &mut R) -> Result<bool, AllocError> {
    let mut kept = Fallible::new(Kept {
        reader: &mut *reader,
        given: Vec::new(alloc),
    });
    let read = read_message(alloc, &mut kept);
    let given = kept.into_inner().given;
    push_read(out, alloc, &given, &read)
}

// The messages that the reader gives, `|` behind each, and why no more come.
fn told<R: Read>(alloc: Global, reader: &mut R, most: usize) -> Result<String, AllocError> {
    let mut out = String::new(alloc);
    for _ in 0..=most {
        if !push_next(&mut out, alloc, reader)? {
            break;
        }
    }
    Ok(out)
}

// Writes the messages of a reader that gives the bytes one by one, if they are others.
fn push_dripped(
    out: &mut String,
    alloc: Global,
    bytes: &[u8],
    whole: &str,
) -> Result<(), AllocError> {
    let mut dripping = Dripping {
        rest: bytes,
        is_ready: false,
    };
    let other = told(alloc, &mut dripping, bytes.len())?;
    if other.as_str() == whole {
        return Ok(());
    }
    write!(out, ", but byte by byte {other}")
}

// The same of a reader that gives the bytes in two parts.
fn push_cut(
    out: &mut String,
    alloc: Global,
    parts: (&[u8], &[u8]),
    whole: &str,
) -> Result<(), AllocError> {
    let (front, back) = parts;
    let mut reader = front.chain(back);
    let other = told(alloc, &mut reader, front.len().saturating_add(back.len()))?;
    if other.as_str() == whole {
        return Ok(());
    }
    write!(out, ", but cut at {} {other}", front.len())
}

// The same of each reader that does not give the bytes at once.
fn push_others(
    out: &mut String,
    alloc: Global,
    bytes: &[u8],
    whole: &str,
) -> Result<(), AllocError> {
    push_dripped(out, alloc, bytes, whole)?;
    for place in 0..bytes.len() {
        push_cut(out, alloc, (&bytes[..place], &bytes[place..]), whole)?;
    }
    Ok(())
}

/// The messages of a reader that gives the bytes at once; and where one that cuts them at some place, or gives them one by one,
/// gives others, these too.
pub fn take(out: &mut String, alloc: Global, text: &str) -> Result<(), AllocError> {
    let bytes = spelled(alloc, text)?;
    let mut reader = bytes.as_slice();
    let whole = told(alloc, &mut reader, bytes.len())?;
    out.push_str(whole.as_str())?;
    push_others(out, alloc, &bytes, whole.as_str())
}

/// The messages of a reader that fails behind the bytes.
pub fn broken(out: &mut String, alloc: Global, text: &str) -> Result<(), AllocError> {
    let bytes = spelled(alloc, text)?;
    let mut reader = bytes.as_slice().chain(Failing);
    let told = told(alloc, &mut reader, bytes.len())?;
    out.push_str(told.as_str())
}
