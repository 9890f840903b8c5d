//! Rows of objects: what reads them, and the parts that it gives.

use crate::spelling::{push_ids, push_word, push_words, word_at};
use std::alloc::{AllocError, Global};
use vc_object::{
    Kind, NameHasher, Object, ObjectFault, check, commit_of, decode, encode, links, name_of,
    parents, tag_of, tree_of,
};

/// The object of this kind and body; with another word, the object that the bytes are.
pub(crate) fn object_of<'a>(word: &[u8], bytes: &'a [u8]) -> Result<Object<'a>, ObjectFault> {
    match Kind::from_word(word) {
        Some(kind) => check(kind, bytes),
        None => decode(bytes),
    }
}

/// The name of a kind and a body, and the name again of a body that comes byte by byte.
pub(crate) fn push_names(out: &mut String, bytes: &[u8]) -> Result<(), AllocError> {
    let (word, body) = word_at(bytes);
    let Some(kind) = Kind::from_word(word) else {
        return out.push_str(" none");
    };
    let mut hasher = NameHasher::new(kind, body.len());
    for byte in body {
        hasher.update(&[*byte]);
    }
    push_ids(out, &[name_of(kind, body), hasher.finish()])
}

/// A part of an object, or why the bytes are none.
pub(crate) fn push_read(
    alloc: Global,
    out: &mut String,
    verb: &str,
    bytes: &[u8],
) -> Result<(), AllocError> {
    let (word, rest) = word_at(bytes);
    match object_of(word, rest) {
        Ok(object) => push_part(alloc, out, verb, &object),
        Err(fault) => write!(out, " refused {}: {fault}", fault as u16),
    }
}

fn push_part(
    alloc: Global,
    out: &mut String,
    verb: &str,
    object: &Object<'_>,
) -> Result<(), AllocError> {
    match verb {
        "read" => push_size(out, object),
        "encode" => push_word(out, encode(alloc, object)?.as_slice()),
        "links" => push_ids(out, links(alloc, object)?.as_slice()),
        "parents" => push_parents(alloc, out, object),
        "entries" => push_entries(out, object),
        "commit" => push_commit(out, object),
        "tag" => push_tag(out, object),
        _ => out.push_str(" no such verb"),
    }
}

fn push_size(out: &mut String, object: &Object<'_>) -> Result<(), AllocError> {
    push_word(out, object.kind.word())?;
    write!(out, " of {} bytes", object.body.len())
}

fn push_parents(alloc: Global, out: &mut String, object: &Object<'_>) -> Result<(), AllocError> {
    match parents(alloc, object)? {
        Some(ids) => push_ids(out, ids.as_slice()),
        None => out.push_str(" no commit"),
    }
}

fn push_entries(out: &mut String, object: &Object<'_>) -> Result<(), AllocError> {
    let Some(tree) = tree_of(object) else {
        return out.push_str(" no tree");
    };
    for entry in tree.entries() {
        push_word(out, entry.mode.text())?;
        push_word(out, entry.name)?;
        push_ids(out, &[entry.id])?;
    }
    Ok(())
}

fn push_commit(out: &mut String, object: &Object<'_>) -> Result<(), AllocError> {
    let Some(commit) = commit_of(object) else {
        return out.push_str(" no commit");
    };
    push_ids(out, &[commit.tree])?;
    for id in commit.parents() {
        push_ids(out, &[id])?;
    }
    push_words(out, &[commit.author, commit.committer, commit.rest])
}

fn push_tag(out: &mut String, object: &Object<'_>) -> Result<(), AllocError> {
    let Some(tag) = tag_of(object) else {
        return out.push_str(" no tag");
    };
    push_ids(out, &[tag.object])?;
    push_word(out, tag.kind.word())?;
    push_words(out, &[tag.name, tag.rest])
}
