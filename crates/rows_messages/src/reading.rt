//! Rows about reading messages: whole and in pieces, cut, and with a byte changed.

use crate::messages::Telling;
use crate::spelling::spelled;
use std::alloc::{AllocError, Global};
use std::fmt::Write;
use vc_fetch::{
    Advert, AdvertReader, Error, ErrorReader, List, ListReader, Pack, PackReader, Want, WantReader,
};
use vc_pkt::{Line, ObjectStream, PktError, PktFault, PktReader, Step};
use vc_push::{Push, PushReader, Report, ReportReader};

// Writes what the message says, or why there is none.
fn push_read<R: Telling>(
    out: &mut String,
    read: Result<R::Message, PktError>,
) -> Result<(), AllocError> {
    match read {
        Ok(message) => R::tell(out, &message),
        Err(fault) => write!(out, "{fault}"),
    }
}

// How many bytes a line has.
fn line_len(line: Line<'_>) -> usize {
    match line {
        Line::Flush => 4,
        Line::Data(data) => data.len().saturating_add(4),
    }
}

// The message that comes in pieces of this size.
fn in_pieces<R: Telling>(alloc: Global, bytes: &[u8], size: usize) -> Result<R::Message, PktError> {
    let mut lines = PktReader::new(alloc);
    let mut reader = R::new(alloc);
    let mut number = 0u64;
    let mut used = 0usize;
    for piece in bytes.chunks(size.max(1)) {
        lines.feed(piece)?;
        for _ in 0..=piece.len() {
            let Some(line) = lines.next_line() else {
                break;
            };
            used = used.saturating_add(line_len(line));
            let step = reader.take(alloc, line, number)?;
            number = number.saturating_add(1);
            match step {
                Step::More(next) => reader = next,
                Step::Done(message) => {
                    if used < bytes.len() {
                        return Err(PktError::Refused(PktFault::BadRecord(number)));
                    }
                    return Ok(message);
                }
            }
        }
    }
    Err(PktError::Refused(PktFault::CutMessage))
}

// Whether this is what is read in pieces of this size.
fn is_read_in_pieces<R: Telling>(
    alloc: Global,
    bytes: &[u8],
    size: usize,
    expected: &str,
) -> Result<bool, AllocError> {
    let mut told = String::new(alloc);
    push_read::<R>(&mut told, in_pieces::<R>(alloc, bytes, size))?;
    Ok(told.as_str() == expected)
}

// What was read at once; and where it is not read so in pieces, of one byte and of three, or of more where the text is
// long, a word more.
fn however_cut<R: Telling>(
    alloc: Global,
    bytes: &[u8],
    read: Result<R::Message, PktError>,
) -> Result<String, AllocError> {
    let mut out = String::new(alloc);
    push_read::<R>(&mut out, read)?;
    let size = 1 + bytes.len() / 100_000;
    for size in [size, size.saturating_mul(3)] {
        if !is_read_in_pieces::<R>(alloc, bytes, size, out.as_str())? {
            out.push_str(" differs")?;
        }
    }
    Ok(out)
}

// What the reader of this kind of message answers.
fn answer(alloc: Global, kind: &str, bytes: &[u8]) -> Result<String, AllocError> {
    match kind {
        "advert" => however_cut::<AdvertReader>(alloc, bytes, Advert::read(alloc, bytes)),
        "list" => however_cut::<ListReader>(alloc, bytes, List::read(alloc, bytes)),
        "want" => however_cut::<WantReader>(alloc, bytes, Want::read(alloc, bytes)),
        "pack" => however_cut::<PackReader>(alloc, bytes, Pack::read(alloc, bytes)),
        "error" => however_cut::<ErrorReader>(alloc, bytes, Error::read(alloc, bytes)),
        "push" => however_cut::<PushReader>(alloc, bytes, Push::read(alloc, bytes)),
        "report" => however_cut::<ReportReader>(alloc, bytes, Report::read(alloc, bytes)),
        "objects" => however_cut::<ObjectStream>(alloc, bytes, ObjectStream::read(alloc, bytes)),
        _ => String::from_str(alloc, "no such message"),
    }
}

/// What the message says, or why it is refused.
pub fn read(out: &mut String, alloc: Global, text: &str) -> Result<(), AllocError> {
    let (kind, message) = text.split_once(' ').unwrap_or((text, ""));
    let bytes = spelled(alloc, message)?;
    let told = answer(alloc, kind, &bytes)?;
    out.push_str(told.as_str())
}

/// The same of each front of a message; one answer where all are cut.
pub fn cut(out: &mut String, alloc: Global, text: &str) -> Result<(), AllocError> {
    let (kind, message) = text.split_once(' ').unwrap_or((text, ""));
    let bytes = spelled(alloc, message)?;
    out.push_str("83 CutMessage")?;
    for end in 0..bytes.len() {
        let told = answer(alloc, kind, &bytes[..end])?;
        if told.as_str() != "83 CutMessage" {
            write!(out, ", but {end} bytes {told}")?;
        }
    }
    Ok(())
}

// The same of each text in which the byte at this place is another: one answer a line.
fn push_changed(
    out: &mut String,
    alloc: Global,
    kind: &str,
    bytes: &[u8],
    place: usize,
) -> Result<(), AllocError> {
    for byte in [0, b'0', b'1', b'a', b'g', b' ', b'\n', 255] {
        let mut other = bytes.to_vec(alloc)?;
        if place < other.len() {
            other[place] = byte;
        }
        let told = answer(alloc, kind, &other)?;
        writeln!(out, "{told}")?;
    }
    Ok(())
}

/// The same of each text in which one byte of a message is another.
pub fn changed(out: &mut String, alloc: Global, text: &str) -> Result<(), AllocError> {
    let (kind, message) = text.split_once(' ').unwrap_or((text, ""));
    let bytes = spelled(alloc, message)?;
    for place in 0..bytes.len() {
        push_changed(out, alloc, kind, &bytes, place)?;
    }
    Ok(())
}
