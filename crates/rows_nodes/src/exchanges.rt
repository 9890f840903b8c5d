//! Rows about a whole exchange of a clone with the shared node.

use crate::clones::{CloneSite, items_of};
use crate::reading::{Coming, Reading};
use crate::shared::SharedSite;
use crate::site::Device;
use crate::words::push_bytes;
use std::alloc::{AllocError, Global};
use std::fmt::Write;
use vc_node::CloneNode;
use vc_push::{Report, Told};
use vc_sending::PushItem;
use vc_shared::{Shared, SharedFault};
use vc_world::{ExchangeEnd, Fetched, exchange_fetch, exchange_push, exchange_push_atomic};

// Writes why an exchange came to no end of its own.
fn push_end(out: &mut String, end: &ExchangeEnd<SharedFault>) -> Result<(), AllocError> {
    match end {
        ExchangeEnd::Clone(fault) => write!(out, "clone {fault}"),
        ExchangeEnd::Shared(fault) => write!(out, "shared {fault}"),
        ExchangeEnd::Stray => out.push_str("stray"),
        ExchangeEnd::Memory => out.push_str("no memory"),
    }
}

// Writes how a command ended, by a word, its name and what comes after it.
fn push_ended(out: &mut String, word: &str, name: &[u8], behind: &[u8]) -> Result<(), AllocError> {
    out.push_str(word)?;
    push_bytes(out, name)?;
    out.push(' ')?;
    push_bytes(out, behind)
}

// Writes what became of a command.
fn push_told(out: &mut String, told: &Told) -> Result<(), AllocError> {
    match &told.outcome {
        Ok(id) => push_ended(out, " ok ", &told.name, &id.to_hex()),
        Err(reason) => push_ended(out, " ng ", &told.name, reason),
    }
}

// Writes a report.
fn push_report(out: &mut String, report: &Report) -> Result<(), AllocError> {
    out.push_str("unpack ")?;
    match &report.unpack {
        None => out.push_str("ok")?,
        Some(words) => push_bytes(out, words)?,
    }
    for told in &report.told {
        push_told(out, told)?;
    }
    Ok(())
}

// Writes what came of a fetch.
fn push_fetched(
    out: &mut String,
    fetched: &Result<Fetched, ExchangeEnd<SharedFault>>,
) -> Result<(), AllocError> {
    match fetched {
        Ok(fetched) => write!(out, "moved {} left {}", fetched.moved, fetched.left),
        Err(end) => push_end(out, end),
    }
}

// A whole fetch, of which the answers come in this way.
fn fetch(
    out: &mut String,
    alloc: Global,
    coming: Coming,
    shared: &mut Shared<Device>,
    clone: &mut CloneNode<Device>,
) -> Result<(), AllocError> {
    let mut peer = Reading {
        alloc,
        coming,
        shared,
    };
    push_fetched(out, &exchange_fetch(&mut peer, clone))
}

// Writes what came of a push.
fn push_pushed(
    out: &mut String,
    pushed: &Result<Report, ExchangeEnd<SharedFault>>,
) -> Result<(), AllocError> {
    match pushed {
        Ok(report) => push_report(out, report),
        Err(end) => push_end(out, end),
    }
}

// A whole push of the items, which may be atomic.
fn push_at_once(
    out: &mut String,
    alloc: Global,
    atomic: bool,
    shared: &mut Shared<Device>,
    clone: &mut CloneNode<Device>,
    items: &[PushItem],
) -> Result<(), AllocError> {
    if items.is_empty() {
        return out.push_str("no items");
    }
    if atomic {
        return push_pushed(out, &exchange_push_atomic(alloc, shared, clone, items));
    }
    push_pushed(out, &exchange_push(alloc, shared, clone, items))
}

// A whole push, of which the answer comes in this way.
fn push(
    out: &mut String,
    alloc: Global,
    coming: Coming,
    shared: &mut Shared<Device>,
    clone: &mut CloneNode<Device>,
    items: &[PushItem],
) -> Result<(), AllocError> {
    if items.is_empty() {
        return out.push_str("no items");
    }
    let mut peer = Reading {
        alloc,
        coming,
        shared,
    };
    push_pushed(out, &exchange_push(alloc, &mut peer, clone, items))
}

// An exchange between open nodes.
fn exchange(
    out: &mut String,
    alloc: Global,
    shared: &mut Shared<Device>,
    clone: &mut CloneNode<Device>,
    verb: &str,
    items: &[PushItem],
) -> Result<(), AllocError> {
    match verb {
        "fetch" => push_fetched(out, &exchange_fetch(shared, clone)),
        "fetch-read" => fetch(out, alloc, Coming::Read, shared, clone),
        "fetch-from" => fetch(out, alloc, Coming::Unread, shared, clone),
        "push" => push_at_once(out, alloc, false, shared, clone, items),
        "push-atomic" => push_at_once(out, alloc, true, shared, clone, items),
        "push-read" => push(out, alloc, Coming::Read, shared, clone, items),
        _ => push(out, alloc, Coming::Unread, shared, clone, items),
    }
}

/// A whole exchange: a fetch, or a push of the items that the text names.
pub fn row(
    out: &mut String,
    alloc: Global,
    shared: &mut SharedSite,
    clone: &mut CloneSite,
    verb: &str,
    text: &str,
) -> Result<(), AllocError> {
    let Some(shared) = &mut shared.node else {
        return out.push_str("closed");
    };
    let Some(clone) = &mut clone.node else {
        return out.push_str("closed");
    };
    let items = items_of(alloc, text)?;
    exchange(out, alloc, shared, clone, verb, &items)
}
