//! Rows of ids, kinds and modes.

use crate::spelling::{push_ids, push_word, push_words, word_at};
use std::alloc::{AllocError, Global};
use vc_object::{Kind, MAX_BODY, Mode, ObjectId, sorted_by_name};

pub(crate) fn push_id_of(out: &mut String, text: &[u8]) -> Result<(), AllocError> {
    match ObjectId::from_hex(text) {
        Some(id) => push_word(out, id.named().to_hex().as_slice()),
        None => out.push_str(" none"),
    }
}

pub(crate) fn push_kind(out: &mut String, text: &[u8]) -> Result<(), AllocError> {
    match Kind::from_word(text) {
        Some(kind) => push_word(out, kind.word()),
        None => out.push_str(" none"),
    }
}

pub(crate) fn push_mode(out: &mut String, text: &[u8]) -> Result<(), AllocError> {
    match Mode::from_text(text) {
        Some(mode) => push_words(out, &[mode.text(), meaning(mode)]),
        None => out.push_str(" none"),
    }
}

fn meaning(mode: Mode) -> &'static [u8] {
    match mode {
        Mode::Tree => b"folder",
        Mode::File => b"file",
        Mode::SharedFile => b"shared",
        Mode::Executable => b"executable",
        Mode::Link => b"link",
        Mode::Commit => b"commit",
    }
}

/// The limit of a body, and the id that stands for no object.
pub(crate) fn push_constants(out: &mut String) -> Result<(), AllocError> {
    write!(out, " {MAX_BODY}")?;
    push_word(out, ObjectId::ZERO.to_hex().as_slice())
}

/// Two ids that differ, by their bytes.
pub(crate) fn push_sorted(alloc: Global, out: &mut String, bytes: &[u8]) -> Result<(), AllocError> {
    let (first, second) = word_at(bytes);
    match (ObjectId::from_hex(first), ObjectId::from_hex(second)) {
        (Some(a), Some(b)) => push_ids(out, sorted(alloc, a, b)?.as_slice()),
        _ => out.push_str(" none"),
    }
}

fn sorted(alloc: Global, a: ObjectId, b: ObjectId) -> Result<Vec<ObjectId>, AllocError> {
    let mut ids = Vec::new(alloc);
    if a == b {
        return Ok(ids);
    }
    ids.push(a)?;
    ids.push(b)?;
    Ok(sorted_by_name(ids))
}
