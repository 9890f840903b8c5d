//! How rows and answers write bytes.

use bstr::{ByteSlice, ByteVec};
use std::alloc::{AllocError, Global};
use vc_object::ObjectId;

/// The bytes that a text writes: with escapes, `{N*x}` for the byte x so many times, and `{ID}` for an id's bytes.
pub(crate) fn bytes_of(alloc: Global, text: &str) -> Result<Vec<u8>, AllocError> {
    let mut bytes = Vec::new(alloc);
    for part in text.split('{') {
        let (inside, plain) = part.split_once('}').unwrap_or(("", part));
        push_inside(&mut bytes, inside)?;
        let plain: Vec<u8> = Vec::unescape_bytes(alloc, plain)?;
        bytes.extend_from_slice(plain.as_slice())?;
    }
    Ok(bytes)
}

// Adds what stands between braces.
fn push_inside(bytes: &mut Vec<u8>, inside: &str) -> Result<(), AllocError> {
    if let Some(id) = ObjectId::from_hex(inside.as_bytes()) {
        return bytes.extend_from_slice(&id.0);
    }
    let (count, byte) = inside.split_once('*').unwrap_or(("0", ""));
    let more = count.parse::<usize>().unwrap_or(0);
    let byte = byte.as_bytes().first().copied().unwrap_or(0);
    bytes.resize(bytes.len().saturating_add(more), byte)
}

/// What stands before the first space, and what stands behind it.
pub(crate) fn word_at(bytes: &[u8]) -> (&[u8], &[u8]) {
    bytes.split_once_str(b" ").unwrap_or((bytes, &[]))
}

/// Writes a space and bytes, with escapes for all but visible ASCII; no bytes are written `-`.
pub(crate) fn push_word(out: &mut String, bytes: &[u8]) -> Result<(), AllocError> {
    if bytes.is_empty() {
        return out.push_str(" -");
    }
    write!(out, " {}", bytes.escape_bytes())
}

pub(crate) fn push_words(out: &mut String, words: &[&[u8]]) -> Result<(), AllocError> {
    for word in words {
        push_word(out, *word)?;
    }
    Ok(())
}

pub(crate) fn push_ids(out: &mut String, ids: &[ObjectId]) -> Result<(), AllocError> {
    for id in ids {
        push_word(out, id.to_hex().as_slice())?;
    }
    Ok(())
}
