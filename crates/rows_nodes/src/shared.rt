//! Rows about the shared node.

use crate::arriving;
use crate::site::{Device, Site};
use crate::words::{push_bytes, push_found, push_pruned, push_sent, taken};
use bstr::ByteVec;
use std::alloc::{AllocError, Global};
use std::fmt::Write;
use vc_expression::parse;
use vc_push::Reason;
use vc_server::answer;
use vc_shared::{Accepted, Shared, SharedFault, Stepped};

/// The shared node of the rows.
pub type SharedSite = Site<Shared<Device>>;

/// Writes what came of a message, and keeps what is sent.
pub fn push_accepted(
    out: &mut String,
    sent: &mut Vec<Vec<u8>>,
    accepted: Accepted,
) -> Result<(), AllocError> {
    match accepted {
        Accepted::Reply(bytes) => push_sent(out, sent, "reply ", bytes),
        Accepted::Slot(slot) => write!(out, "slot {slot}"),
    }
}

// Writes the name of a ref that was set, or why it was not.
fn push_update(out: &mut String, name: &[u8], found: &Option<Reason>) -> Result<(), AllocError> {
    match found {
        Some(reason) => write!(out, "{} ", reason.number())?,
        None => out.push_str("ok ")?,
    }
    push_bytes(out, name)
}

// Writes what a step did, and keeps what is sent.
fn push_stepped(
    out: &mut String,
    sent: &mut Vec<Vec<u8>>,
    did: Result<Stepped, SharedFault>,
) -> Result<(), AllocError> {
    match did {
        Ok(Stepped::Checked(passed)) => write!(out, "checked {passed}"),
        Ok(Stepped::Migrated) => out.push_str("migrated"),
        Ok(Stepped::Updated(name, found)) => push_update(out, &name, &found),
        Ok(Stepped::Atomic(refs)) => write!(out, "atomic ok {refs}"),
        Ok(Stepped::AtomicRefused(name, reason)) => {
            write!(out, "atomic {} ", reason.number())?;
            push_bytes(out, &name)
        }
        Ok(Stepped::Finished(bytes)) => push_sent(out, sent, "report ", bytes),
        Err(fault) => write!(out, "{fault}"),
    }
}

// A message that was sent comes to the node.
fn take(
    out: &mut String,
    alloc: Global,
    sent: &mut Vec<Vec<u8>>,
    node: &mut Shared<Device>,
    text: &str,
) -> Result<(), AllocError> {
    let bytes = taken(alloc, sent, text)?;
    match node.accept(&bytes) {
        Ok(accepted) => push_accepted(out, sent, accepted),
        Err(fault) => write!(out, "{fault}"),
    }
}

// A message that comes to the node, and is answered to its end.
fn answer_to(
    out: &mut String,
    alloc: Global,
    node: &mut Shared<Device>,
    text: &str,
) -> Result<(), AllocError> {
    let bytes = Vec::unescape_bytes(alloc, text)?;
    match answer(node, &bytes) {
        Ok(answered) => push_bytes(out, &answered),
        Err(fault) => write!(out, "{fault}"),
    }
}

// What an expression names at the node.
fn resolve(
    out: &mut String,
    alloc: Global,
    node: &mut Shared<Device>,
    text: &str,
) -> Result<(), AllocError> {
    match parse(alloc, text.as_bytes()) {
        Ok(expr) => push_found(out, &node.resolve(&expr)),
        Err(fault) => write!(out, "{fault}"),
    }
}

// A call of the open node.
fn call(
    out: &mut String,
    alloc: Global,
    node: &mut Shared<Device>,
    sent: &mut Vec<Vec<u8>>,
    verb: &str,
    text: &str,
) -> Result<(), AllocError> {
    match verb {
        "answer" => answer_to(out, alloc, node, text),
        "take" => take(out, alloc, sent, node, text),
        "from" => arriving::take_from(out, alloc, sent, node, text),
        "next" => arriving::take_first(out, alloc, sent, node, text),
        "step" => push_stepped(out, sent, node.step(text.parse::<u8>().unwrap_or(255))),
        "resolve" => resolve(out, alloc, node, text),
        "prune" => push_pruned(out, &node.prune()),
        _ => out.push_str("no such verb"),
    }
}

/// A row about the shared node: a verb, and what stands after it.
pub fn row(
    out: &mut String,
    alloc: Global,
    site: &mut SharedSite,
    sent: &mut Vec<Vec<u8>>,
    verb: &str,
    text: &str,
) -> Result<(), AllocError> {
    match verb {
        "open" => site.open(out, text),
        "close" => {
            site.close();
            out.push_str("ok")
        }
        _ => match &mut site.node {
            Some(node) => call(out, alloc, node, sent, verb, text),
            None => out.push_str("closed"),
        },
    }
}
