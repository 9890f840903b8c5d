//! Rows about a clone.
ghost use Rattle.std.specs.List.{starts_with};
ghost use Rattle.std.specs.Prelude.{◌≡◌, ◌≢◌, [], IfOk, IfSome, true, nat_eq, codes};

use crate::arriving;
use crate::site::{Device, Site};
use crate::words::{push_done, push_found, push_pruned, push_sent, taken};
use bstr::ByteVec;
use std::alloc::{AllocError, Global};
use std::fmt::Write;
use vc_expression::parse;
use vc_node::{CloneFault, CloneNode, Received};
use vc_object::{Kind, Mode, ObjectId};
use vc_refname::RefName;
use vc_sending::PushItem;

/// A clone of the rows.
pub type CloneSite = Site<CloneNode<Device>>;

// The author and the committer of each commit.
const SIGNATURE: &[u8] = b"a <a> 0 +0000";

// Writes the bytes that are to be sent, and keeps them.
fn push_started(
    out: &mut String,
    sent: &mut Vec<Vec<u8>>,
    started: Result<Vec<u8>, CloneFault>,
) -> Result<(), AllocError> {
    match started {
        Ok(bytes) => push_sent(out, sent, "send ", bytes),
        Err(fault) => write!(out, "{fault}"),
    }
}

fn push_reported(out: &mut String, moved: usize, refused: &[u16]) -> Result<(), AllocError> {
    write!(out, "moved {moved}")?;
    for number in refused {
        write!(out, " refused {number}")?;
    }
    Ok(())
}

/// Writes what came of a message, and keeps what is to be sent.
pub fn push_received(
    out: &mut String,
    sent: &mut Vec<Vec<u8>>,
    received: Received,
) -> Result<(), AllocError> {
    match received {
        Received::Send(bytes) => push_sent(out, sent, "send ", bytes),
        Received::Moved { moved, left } => write!(out, "moved {moved} left {left}"),
        Received::Reported { moved, refused } => push_reported(out, moved, &refused),
    }
}

// The branch of this name.
fn branch_of(alloc: Global, text: &str) -> Option<RefName>
    ensures { IfSome result (λ name. starts_with nat_eq name (codes "refs/heads/") ≡ true) }
{
    match RefName::new(alloc, text) {
        Ok(name) if name.is_branch() => Some(name),
        _ => None,
    }
}

// A path and a text: the file is put into the index.
fn add(
    out: &mut String,
    alloc: Global,
    node: &mut CloneNode<Device>,
    text: &str,
) -> Result<(), AllocError> {
    let (path, words) = text.split_once(' ').unwrap_or((text, ""));
    let bytes = Vec::unescape_bytes(alloc, words)?;
    push_done(out, &node.add(path.as_bytes(), Mode::File, &bytes))
}

// The word of a kind and a body: the object is stored.
fn store(
    out: &mut String,
    alloc: Global,
    node: &mut CloneNode<Device>,
    text: &str,
) -> Result<(), AllocError> {
    let (word, body) = text.split_once(' ').unwrap_or((text, ""));
    let Some(kind) = Kind::from_word(word.as_bytes()) else {
        return out.push_str("no kind");
    };
    let body = Vec::unescape_bytes(alloc, body)?;
    push_found(out, &node.write(kind, &body))
}

// The index becomes that of the tree with this id.
fn load(out: &mut String, node: &mut CloneNode<Device>, digits: &str) -> Result<(), AllocError> {
    match ObjectId::from_hex(digits.as_bytes()) {
        Some(id) => push_done(out, &node.load_tree(&id)),
        None => out.push_str("no id"),
    }
}

// The branch of this name goes.
fn delete(
    out: &mut String,
    alloc: Global,
    node: &mut CloneNode<Device>,
    name: &str,
) -> Result<(), AllocError> {
    match branch_of(alloc, name) {
        Some(name) => push_done(out, &node.delete_branch(&name)),
        None => out.push_str("no branch"),
    }
}

// A branch and an id.
fn branch(
    out: &mut String,
    alloc: Global,
    node: &mut CloneNode<Device>,
    text: &str,
) -> Result<(), AllocError> {
    let (name, digits) = text.split_once(' ').unwrap_or((text, ""));
    let Some(name) = branch_of(alloc, name) else {
        return out.push_str("no branch");
    };
    let Some(id) = ObjectId::from_hex(digits.as_bytes()) else {
        return out.push_str("no id");
    };
    push_done(out, &node.set_branch(&name, &id))
}

// The item of a word: a name, `=`, and the digits of an id, or nothing.
fn item_of(alloc: Global, word: &str) -> Option<PushItem> {
    let (name, digits) = word.split_once('=').unwrap_or((word, ""));
    let Ok(name) = RefName::new(alloc, name) else {
        return None;
    };
    let id = ObjectId::from_hex(digits.as_bytes());
    Some(PushItem { id, name })
}

/// The items of the words, in their order.
pub fn items_of(alloc: Global, text: &str) -> Result<Vec<PushItem>, AllocError> {
    let mut items = Vec::new(alloc);
    for word in text.split_whitespace() {
        if let Some(item) = item_of(alloc, word) {
            items.push(item)?;
        }
    }
    Ok(items)
}

// The start of a push of the items, which may be atomic.
fn push(
    out: &mut String,
    alloc: Global,
    node: &mut CloneNode<Device>,
    sent: &mut Vec<Vec<u8>>,
    atomic: bool,
    text: &str,
) -> Result<(), AllocError> {
    let items = items_of(alloc, text)?;
    if items.is_empty() {
        return out.push_str("no items");
    }
    if atomic {
        return push_started(out, sent, node.start_push_atomic(&items));
    }
    push_started(out, sent, node.start_push(&items))
}

// A message that was sent comes to the clone.
fn take(
    out: &mut String,
    alloc: Global,
    node: &mut CloneNode<Device>,
    sent: &mut Vec<Vec<u8>>,
    text: &str,
) -> Result<(), AllocError> {
    let bytes = taken(alloc, sent, text)?;
    match node.receive(&bytes) {
        Ok(received) => push_received(out, sent, received),
        Err(fault) => write!(out, "{fault}"),
    }
}

// What an expression names at the clone.
fn resolve(
    out: &mut String,
    alloc: Global,
    node: &mut CloneNode<Device>,
    text: &str,
) -> Result<(), AllocError> {
    match parse(alloc, text.as_bytes()) {
        Ok(expr) => push_found(out, &node.resolve(&expr)),
        Err(fault) => write!(out, "{fault}"),
    }
}

// A commit with a message.
fn commit(out: &mut String, node: &mut CloneNode<Device>, text: &str) -> Result<(), AllocError> {
    push_found(
        out,
        &node.commit(&[], SIGNATURE, SIGNATURE, text.as_bytes()),
    )
}

// A call of an open clone.
fn call(
    out: &mut String,
    alloc: Global,
    node: &mut CloneNode<Device>,
    sent: &mut Vec<Vec<u8>>,
    verb: &str,
    text: &str,
) -> Result<(), AllocError> {
    match verb {
        "write" => store(out, alloc, node, text),
        "load" => load(out, node, text),
        "add" => add(out, alloc, node, text),
        "unstage" => push_done(out, &node.unstage(text.as_bytes())),
        "commit" => commit(out, node, text),
        "branch" => branch(out, alloc, node, text),
        "delete" => delete(out, alloc, node, text),
        "fetch" => push_started(out, sent, node.start_fetch()),
        "push" => push(out, alloc, node, sent, false, text),
        "push-atomic" => push(out, alloc, node, sent, true, text),
        "take" => take(out, alloc, node, sent, text),
        "from" => arriving::take_from(out, alloc, sent, node, text),
        "next" => arriving::take_first(out, alloc, sent, node, text),
        "resolve" => resolve(out, alloc, node, text),
        "prune" => push_pruned(out, &node.prune()),
        _ => out.push_str("no such verb"),
    }
}

/// A row about a clone: a verb, and what stands after it.
pub fn row(
    out: &mut String,
    alloc: Global,
    site: &mut CloneSite,
    sent: &mut Vec<Vec<u8>>,
    text: &str,
) -> Result<(), AllocError> {
    let (verb, rest) = text.split_once(' ').unwrap_or((text, ""));
    match verb {
        "open" => site.open(out, rest),
        "new" => {
            site.renew();
            site.open(out, "")
        }
        "close" => {
            site.close();
            out.push_str("ok")
        }
        _ => match &mut site.node {
            Some(node) => call(out, alloc, node, sent, verb, rest),
            None => out.push_str("closed"),
        },
    }
}
