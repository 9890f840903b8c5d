//! Rows about messages that a reader brings to the shared node, or to a clone.

use crate::clones::push_received;
use crate::shared::push_accepted;
use crate::words::push_bytes;
use bstr::ByteVec;
use std::alloc::{AllocError, Global};
use std::fmt::Write;
use std::io::{self, ErrorKind, Read};
use vc_files::Files;
use vc_message::{Fallible, Source};
use vc_node::CloneNode;
use vc_shared::Shared;

// A reader that gives one byte at a time, after a read that is interrupted.
#[derive(Drop)]
struct Dripping<'a> {
    rest: &'a [u8],
    is_ready: bool,
}

impl<'a> Read for Dripping<'a> {
    fn read(&mut self, buffer: &mut [u8]) -> io::Result<usize> {
        self.is_ready = !self.is_ready;
        if self.is_ready {
            return Err(io::Error::from(ErrorKind::Interrupted));
        }
        let most = buffer.len().min(1);
        Read::read(&mut self.rest, &mut buffer[..most])
    }
}

// A reader that fails.
#[derive(Drop)]
struct Failing;

impl Read for Failing {
    fn read(&mut self, _: &mut [u8]) -> io::Result<usize> {
        Err(io::Error::from(ErrorKind::ConnectionReset))
    }
}

/// A node to which a reader brings messages.
pub trait Receiver {
    /// Takes the next message of the reader, writes what came of it, and keeps what is sent.
    fn take_next<R: Source>(
        &mut self,
        out: &mut String,
        sent: &mut Vec<Vec<u8>>,
        reader: &mut R,
    ) -> Result<(), AllocError>;
}

impl<F: Files> Receiver for Shared<F> {
    fn take_next<R: Source>(
        &mut self,
        out: &mut String,
        sent: &mut Vec<Vec<u8>>,
        reader: &mut R,
    ) -> Result<(), AllocError> {
        match self.accept_from(reader) {
            Ok(Some(accepted)) => push_accepted(out, sent, accepted),
            Ok(None) => out.push_str("none"),
            Err(fault) => write!(out, "{fault}"),
        }
    }
}

impl<F: Files> Receiver for CloneNode<F> {
    fn take_next<R: Source>(
        &mut self,
        out: &mut String,
        sent: &mut Vec<Vec<u8>>,
        reader: &mut R,
    ) -> Result<(), AllocError> {
        match self.receive_from(reader) {
            Ok(Some(received)) => push_received(out, sent, received),
            Ok(None) => out.push_str("none"),
            Err(fault) => write!(out, "{fault}"),
        }
    }
}

/// The first of the bytes that are spelled after a number, which says how many; after them the reader `fail`s or is at its `end`.
pub fn take_from<N: Receiver>(
    out: &mut String,
    alloc: Global,
    sent: &mut Vec<Vec<u8>>,
    node: &mut N,
    text: &str,
) -> Result<(), AllocError> {
    let (way, text) = text.split_once(' ').unwrap_or((text, ""));
    let (number, words) = text.split_once(' ').unwrap_or((text, ""));
    let mut bytes = Vec::unescape_bytes(alloc, words)?;
    bytes.truncate(number.parse::<usize>().unwrap_or(0));
    let mut front = bytes.as_slice();
    match way {
        "fail" => node.take_next(out, sent, &mut Fallible::new(front.chain(Failing))),
        _ => node.take_next(out, sent, &mut front),
    }
}

// One message of a reader that gives the bytes in this way, and how many it has not given then.
fn take_one<N: Receiver>(
    out: &mut String,
    sent: &mut Vec<Vec<u8>>,
    node: &mut N,
    way: &str,
    bytes: &[u8],
) -> Result<usize, AllocError> {
    let mut rest = bytes;
    if way == "whole" {
        node.take_next(out, sent, &mut rest)?;
        return Ok(rest.len());
    }
    let is_ready = false;
    let mut reader = Fallible::new(Dripping { rest, is_ready });
    node.take_next(out, sent, &mut reader)?;
    Ok(reader.into_inner().rest.len())
}

/// One message of a reader that gives the bytes `whole`, or else one by one, and what it still holds then.
pub fn take_first<N: Receiver>(
    out: &mut String,
    alloc: Global,
    sent: &mut Vec<Vec<u8>>,
    node: &mut N,
    text: &str,
) -> Result<(), AllocError> {
    let (way, text) = text.split_once(' ').unwrap_or((text, ""));
    let bytes = Vec::unescape_bytes(alloc, text)?;
    let left = take_one(out, sent, node, way, &bytes)?;
    out.push_str(" | ")?;
    let (_, rest) = bytes.split_at(bytes.len().saturating_sub(left));
    push_bytes(out, rest)
}
