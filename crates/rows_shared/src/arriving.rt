//! Rows about messages that a reader brings to the node.

use crate::recording::Recording;
use crate::telling::push_accepted;
use crate::words::push_bytes;
use bstr::ByteVec;
use std::alloc::{AllocError, Global};
use std::fmt::Write;
use std::io::{self, ErrorKind, Read};
use vc_files::Files;
use vc_message::{Fallible, Source};
use vc_shared::{AcceptFault, Accepted, Shared, SharedFault};

// A reader that gives one byte at a time, after a read that is interrupted.
#[derive(Drop)]
struct Dripping<'a> {
    rest: &'a [u8],
    is_ready: bool,
}

impl<'a> Read for Dripping<'a> {
    fn read(&mut self, buffer: &mut [u8]) -> io::Result<usize> {
        self.is_ready = !self.is_ready;
        if self.is_ready {
            return Err(io::Error::from(ErrorKind::Interrupted));
        }
        let most = buffer.len().min(1);
        Read::read(&mut self.rest, &mut buffer[..most])
    }
}

// A reader that fails.
#[derive(Drop)]
struct Failing;

impl Read for Failing {
    fn read(&mut self, _: &mut [u8]) -> io::Result<usize> {
        Err(io::Error::from(ErrorKind::ConnectionReset))
    }
}

// Writes what came of a message, or that none came.
fn push_told(
    out: &mut String,
    told: &Result<Option<Accepted>, AcceptFault>,
) -> Result<(), AllocError> {
    match told {
        Ok(Some(accepted)) => push_accepted(out, accepted),
        Ok(None) => out.push_str("none"),
        Err(fault) => write!(out, "{fault}"),
    }
}

// Whether the reader stands at the end of a message then: if it failed, its bytes were no message, or the node failed, it is not
// said where it stands.
fn is_after_message(told: &Result<Option<Accepted>, AcceptFault>) -> bool {
    match told {
        Ok(accepted) => accepted.is_some(),
        Err(AcceptFault::ReadFailed) => false,
        Err(AcceptFault::Node(SharedFault::Unread(_))) => false,
        Err(fault) => !fault.is_fault(),
    }
}

// Takes the next message of the reader, and writes what came of it. Whether the reader stands at the end of a message then.
fn take_next<F: Files, R: Source>(
    out: &mut String,
    node: &mut Shared<F>,
    reader: &mut R,
) -> Result<bool, AllocError> {
    let told = node.accept_from(reader);
    push_told(out, &told)?;
    Ok(is_after_message(&told))
}

// The messages of the reader, one after another, and what comes of each.
fn take_all<F: Files, R: Source>(
    out: &mut String,
    node: &mut Shared<F>,
    reader: &mut R,
) -> Result<(), AllocError> {
    for _ in 0..16 {
        if !take_next(out, node, reader)? {
            break;
        }
        out.push_str("; ")?;
    }
    Ok(())
}

// The messages of a reader that gives the bytes in this way.
fn take_by<F: Files>(
    out: &mut String,
    node: &mut Shared<F>,
    way: &str,
    bytes: &[u8],
) -> Result<(), AllocError> {
    let mut rest = bytes;
    let is_ready = false;
    match way {
        "whole" | "end" => take_all(out, node, &mut rest),
        "drip" => take_all(out, node, &mut Fallible::new(Dripping { rest, is_ready })),
        "fail" => take_all(out, node, &mut Fallible::new(rest.chain(Failing))),
        _ => out.push_str("no such reader"),
    }
}

// The bytes that are spelled; after a number, so many of them.
fn bytes_of(alloc: Global, way: &str, text: &str) -> Result<Vec<u8>, AllocError> {
    if way != "fail" && way != "end" {
        return Vec::unescape_bytes(alloc, text);
    }
    let (number, words) = text.split_once(' ').unwrap_or((text, ""));
    let mut bytes = Vec::unescape_bytes(alloc, words)?;
    bytes.truncate(number.parse::<usize>().unwrap_or(0));
    Ok(bytes)
}

/// The messages of a reader that gives the bytes `whole`, or `drip`s them one by one. With a number before them it gives so many of
/// them, after which it `fail`s or is at its `end`.
pub fn take_from<F: Files>(
    out: &mut String,
    alloc: Global,
    node: &mut Shared<F>,
    text: &str,
) -> Result<(), AllocError> {
    let (way, text) = text.split_once(' ').unwrap_or((text, ""));
    let bytes = bytes_of(alloc, way, text)?;
    take_by(out, node, way, &bytes)
}

// One message of a reader that gives the bytes in this way, and how many it has not given then.
fn take_one<F: Files>(
    out: &mut String,
    node: &mut Shared<F>,
    way: &str,
    bytes: &[u8],
) -> Result<usize, AllocError> {
    let mut rest = bytes;
    if way == "whole" {
        take_next(out, node, &mut rest)?;
        return Ok(rest.len());
    }
    let is_ready = false;
    let mut reader = Fallible::new(Dripping { rest, is_ready });
    take_next(out, node, &mut reader)?;
    Ok(reader.into_inner().rest.len())
}

/// One message of a reader that gives the bytes `whole`, or else one by one, and what it still holds then.
pub fn take_first<F: Files>(
    out: &mut String,
    alloc: Global,
    node: &mut Shared<F>,
    text: &str,
) -> Result<(), AllocError> {
    let (way, text) = text.split_once(' ').unwrap_or((text, ""));
    let bytes = Vec::unescape_bytes(alloc, text)?;
    let left = take_one(out, node, way, &bytes)?;
    out.push_str(" | ")?;
    let (_, rest) = bytes.split_at(bytes.len().saturating_sub(left));
    push_bytes(out, rest)
}

/// All messages of a reader at a node of its own, and which of its files were written since there were none, in order.
pub fn recorded(out: &mut String, alloc: Global, text: &str) -> Result<(), AllocError> {
    match Shared::open(alloc, Recording::new(alloc)) {
        Ok(mut node) => {
            let told = take_from(out, alloc, &mut node, text);
            let calls = node.close().into_calls();
            told?;
            out.push_str(calls.as_str())
        }
        Err((_, fault)) => write!(out, "{fault}"),
    }
}
