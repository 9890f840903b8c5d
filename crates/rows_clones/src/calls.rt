//! Calls of an open clone.
ghost use Rattle.std.specs.List.{starts_with};
ghost use Rattle.std.specs.Prelude.{◌≡◌, ◌≢◌, [], IfOk, IfSome, true, nat_eq, codes};

use crate::arriving;
use crate::site::Device;
use crate::telling::{push_started, push_taken};
use crate::words::{push_done, push_found, push_pruned, push_restarted};
use bstr::ByteVec;
use std::alloc::{AllocError, Global};
use std::fmt::Write;
use vc_expression::parse;
use vc_node::CloneNode;
use vc_object::{Kind, Mode, ObjectId};
use vc_refname::RefName;
use vc_sending::PushItem;

// The author and the committer of each commit.
const SIGNATURE: &[u8] = b"a <a> 0 +0000";

// The branch of this name.
fn branch_of(alloc: Global, text: &str) -> Option<RefName>
    ensures { IfSome result (λ name. starts_with nat_eq name (codes "refs/heads/") ≡ true) }
{
    match RefName::new(alloc, text) {
        Ok(name) if name.is_branch() => Some(name),
        _ => None,
    }
}

// A path and a text: the file is put into the index.
fn add(
    out: &mut String,
    alloc: Global,
    node: &mut CloneNode<Device>,
    text: &str,
) -> Result<(), AllocError> {
    let (path, words) = text.split_once(' ').unwrap_or((text, ""));
    let bytes = Vec::unescape_bytes(alloc, words)?;
    push_done(out, &node.add(path.as_bytes(), Mode::File, &bytes))
}

// A path and a text: the name of its blob is put into the index as that of a commit of another repository.
fn add_module(
    out: &mut String,
    node: &mut CloneNode<Device>,
    text: &str,
) -> Result<(), AllocError> {
    let (path, words) = text.split_once(' ').unwrap_or((text, ""));
    push_done(
        out,
        &node.add(path.as_bytes(), Mode::Commit, words.as_bytes()),
    )
}

// A branch and an id.
fn branch(
    out: &mut String,
    alloc: Global,
    node: &mut CloneNode<Device>,
    text: &str,
) -> Result<(), AllocError> {
    let (name, digits) = text.split_once(' ').unwrap_or((text, ""));
    let Some(name) = branch_of(alloc, name) else {
        return out.push_str("no branch");
    };
    let Some(id) = ObjectId::from_hex(digits.as_bytes()) else {
        return out.push_str("no id");
    };
    push_done(out, &node.set_branch(&name, &id))
}

// A branch, which is deleted.
fn delete(
    out: &mut String,
    alloc: Global,
    node: &mut CloneNode<Device>,
    name: &str,
) -> Result<(), AllocError> {
    let Some(name) = branch_of(alloc, name) else {
        return out.push_str("no branch");
    };
    push_done(out, &node.delete_branch(&name))
}

// The item of a word: a name, `=`, and the digits of an id, or nothing.
fn item_of(alloc: Global, word: &str) -> Option<PushItem> {
    let (name, digits) = word.split_once('=').unwrap_or((word, ""));
    let Ok(name) = RefName::new(alloc, name) else {
        return None;
    };
    let id = ObjectId::from_hex(digits.as_bytes());
    Some(PushItem { id, name })
}

// The items of the words, in their order.
fn items_of(alloc: Global, text: &str) -> Result<Vec<PushItem>, AllocError> {
    let mut items = Vec::new(alloc);
    for word in text.split_whitespace() {
        if let Some(item) = item_of(alloc, word) {
            items.push(item)?;
        }
    }
    Ok(items)
}

// The start of a push of the items, which may be atomic.
fn push(
    out: &mut String,
    alloc: Global,
    node: &mut CloneNode<Device>,
    atomic: bool,
    text: &str,
) -> Result<(), AllocError> {
    let items = items_of(alloc, text)?;
    if items.is_empty() {
        return out.push_str("no items");
    }
    if atomic {
        return push_started(out, &node.start_push_atomic(&items));
    }
    push_started(out, &node.start_push(&items))
}

// A message that comes to the clone.
fn receive(
    out: &mut String,
    alloc: Global,
    node: &mut CloneNode<Device>,
    text: &str,
) -> Result<(), AllocError> {
    let bytes = Vec::unescape_bytes(alloc, text)?;
    push_taken(out, &node.receive(&bytes))
}

// What an expression names at the clone.
fn resolve(
    out: &mut String,
    alloc: Global,
    node: &mut CloneNode<Device>,
    text: &str,
) -> Result<(), AllocError> {
    match parse(alloc, text.as_bytes()) {
        Ok(expr) => push_found(out, &node.resolve(&expr)),
        Err(fault) => write!(out, "{fault}"),
    }
}

// A commit with a message.
fn commit(out: &mut String, node: &mut CloneNode<Device>, text: &str) -> Result<(), AllocError> {
    push_found(
        out,
        &node.commit(&[], SIGNATURE, SIGNATURE, text.as_bytes()),
    )
}

/// A call of the clone: a verb, and what stands after it.
pub fn call(
    out: &mut String,
    alloc: Global,
    node: &mut CloneNode<Device>,
    verb: &str,
    text: &str,
) -> Result<(), AllocError> {
    match verb {
        "blob" => push_found(out, &node.write(Kind::Blob, text.as_bytes())),
        "add" => add(out, alloc, node, text),
        "module" => add_module(out, node, text),
        "commit" => commit(out, node, text),
        "branch" => branch(out, alloc, node, text),
        "delete" => delete(out, alloc, node, text),
        "fetch" => push_started(out, &node.start_fetch()),
        "push" => push(out, alloc, node, false, text),
        "push-atomic" => push(out, alloc, node, true, text),
        "receive" => receive(out, alloc, node, text),
        "from" => arriving::take_from(out, alloc, node, text),
        "next" => arriving::take_first(out, alloc, node, text),
        "resolve" => resolve(out, alloc, node, text),
        "restart" => push_restarted(out, &node.restart(), node.is_up()),
        "pack" => push_done(out, &node.pack_refs()),
        "prune" => push_pruned(out, &node.prune()),
        _ => out.push_str("no such verb"),
    }
}
