//! Rows about lines: a text whole and in pieces, and pieces as a row parts them.

use crate::spelling::{push_bytes, spelled};
use std::alloc::{AllocError, Global};
use std::fmt::Write;
use vc_pkt::{Line, OwnedLine, PktReader, lines_of};

// Data and a full stop, or a bar for a flush.
fn push_line(out: &mut String, line: Line<'_>) -> Result<(), AllocError> {
    match line {
        Line::Flush => out.push('|'),
        Line::Data(data) => {
            push_bytes(out, data, " ")?;
            out.push('.')
        }
    }
}

// The same of each line; and how many bytes the lines have.
fn push_owned(out: &mut String, lines: &[OwnedLine]) -> Result<usize, AllocError> {
    let mut length = 0usize;
    for line in lines {
        length = length.saturating_add(4);
        match line {
            OwnedLine::Flush => push_line(out, Line::Flush)?,
            OwnedLine::Data(data) => {
                length = length.saturating_add(data.len());
                push_line(out, Line::Data(data))?;
            }
        }
    }
    Ok(length)
}

// The lines of the text at once, and behind a plus how many bytes of an unfinished line are left.
fn push_at_once(out: &mut String, alloc: Global, bytes: &[u8]) -> Result<(), AllocError> {
    match lines_of(alloc, &[bytes.to_vec(alloc)?]) {
        Ok(lines) => {
            let length = push_owned(out, &lines)?;
            write!(out, "+{}", bytes.len().saturating_sub(length))
        }
        Err(fault) => write!(out, "{fault}"),
    }
}

// Feeds a piece, and tells the lines that it completes; or why it is refused, and then the answer is no.
fn feed_piece(out: &mut String, reader: &mut PktReader, piece: &[u8]) -> Result<bool, AllocError> {
    if let Err(fault) = reader.feed(piece) {
        write!(out, "{fault}")?;
        return Ok(false);
    }
    for _ in 0..=piece.len() {
        let Some(line) = reader.next_line() else {
            break;
        };
        push_line(out, line)?;
    }
    Ok(true)
}

// The same as at once, in pieces of this size.
fn in_pieces(alloc: Global, bytes: &[u8], size: usize) -> Result<String, AllocError> {
    let mut reader = PktReader::new(alloc);
    let mut out = String::new(alloc);
    for piece in bytes.chunks(size.max(1)) {
        let mut told = String::new(alloc);
        if !feed_piece(&mut told, &mut reader, piece)? {
            return Ok(told);
        }
        out.push_str(told.as_str())?;
    }
    write!(out, "+{}", reader.rest_len())?;
    Ok(out)
}

/// The lines of a text, which is also fed in pieces: of one byte and of three, or of more where it is long.
pub fn lines(out: &mut String, alloc: Global, text: &str) -> Result<(), AllocError> {
    let bytes = spelled(alloc, text)?;
    push_at_once(out, alloc, &bytes)?;
    let size = 1 + bytes.len() / 100_000;
    for size in [size, size.saturating_mul(3)] {
        let pieces = in_pieces(alloc, &bytes, size)?;
        if pieces.as_str() != out.as_str() {
            out.push_str(" differs")?;
        }
    }
    Ok(())
}

/// What each piece completes, and how many bytes of an unfinished line are then held.
pub fn feed(out: &mut String, alloc: Global, text: &str) -> Result<(), AllocError> {
    let mut reader = PktReader::new(alloc);
    for piece in text.split(' ') {
        if !out.is_empty() {
            out.push_str("; ")?;
        }
        let piece = spelled(alloc, piece)?;
        feed_piece(out, &mut reader, &piece)?;
        write!(out, "+{}", reader.rest_len())?;
    }
    Ok(())
}
