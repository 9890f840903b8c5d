//! Calls of an open shared node.

use crate::arriving;
use crate::site::Device;
use crate::telling::{push_answered, push_served, push_stepped};
use crate::words::{push_bytes, push_done, push_found, push_pruned, push_restarted};
use bstr::ByteVec;
use std::alloc::{AllocError, Global};
use std::fmt::Write;
use vc_expression::parse;
use vc_server::{Served, serve_message};
use vc_shared::Shared;

// A message that comes to the node.
fn accept(
    out: &mut String,
    alloc: Global,
    node: &mut Shared<Device>,
    text: &str,
) -> Result<(), AllocError> {
    let bytes = Vec::unescape_bytes(alloc, text)?;
    push_answered(out, &node.accept(&bytes))
}

// What an expression names at the node.
fn resolve(
    out: &mut String,
    alloc: Global,
    node: &mut Shared<Device>,
    text: &str,
) -> Result<(), AllocError> {
    match parse(alloc, text.as_bytes()) {
        Ok(expr) => push_found(out, &node.resolve(&expr)),
        Err(fault) => write!(out, "{fault}"),
    }
}

// A connection on which these bytes come: turn after turn until it ends, or a message is refused.
fn serve_all(
    out: &mut String,
    alloc: Global,
    node: &mut Shared<Device>,
    bytes: &[u8],
    written: &mut Vec<u8>,
) -> Result<(), AllocError> {
    let mut reader = bytes;
    for _ in 0..8 {
        let served = serve_message(node, alloc, &mut reader, written);
        push_served(out, &served)?;
        if !matches!(served, Ok(Served::Answered)) {
            break;
        }
    }
    Ok(())
}

// Such a connection, and what is written on it.
fn serve(
    out: &mut String,
    alloc: Global,
    node: &mut Shared<Device>,
    text: &str,
) -> Result<(), AllocError> {
    let bytes = Vec::unescape_bytes(alloc, text)?;
    let mut written = Vec::new(alloc);
    serve_all(out, alloc, node, &bytes, &mut written)?;
    push_bytes(out, &written)
}

/// A call of the node: a verb, and what stands after it.
pub fn call(
    out: &mut String,
    alloc: Global,
    node: &mut Shared<Device>,
    verb: &str,
    text: &str,
) -> Result<(), AllocError> {
    match verb {
        "accept" => accept(out, alloc, node, text),
        "step" => push_stepped(out, &node.step(text.parse::<u8>().unwrap_or(255))),
        "from" => arriving::take_from(out, alloc, node, text),
        "next" => arriving::take_first(out, alloc, node, text),
        "serve" => serve(out, alloc, node, text),
        "resolve" => resolve(out, alloc, node, text),
        "restart" => push_restarted(out, &node.restart(), node.is_up()),
        "pack" => push_done(out, &node.pack_refs()),
        "prune" => push_pruned(out, &node.prune()),
        _ => out.push_str("no such verb"),
    }
}
