//! How rows are spelled: words, bytes, modes and names of objects; and how answers are.
ghost use Rattle.std.specs.Prelude.{◌≢◌, IfOk};
ghost use Rattle.vc_object.specs.declared.mode.Mode.TheVariants.{Tree};

use anyhow::{Context, Result, bail};
use bstr::{ByteSlice, ByteVec};
use std::alloc::{AllocError, Global};
use std::collections::BTreeMap;
use vc_object::{Mode, ObjectId};

/// The names that rows gave to objects.
pub type Names = BTreeMap<String, ObjectId>;

/// The first word, and what follows the space behind it.
pub fn cut(text: &str) -> (&str, &str) {
    text.split_once(' ').unwrap_or((text, ""))
}

/// The bytes that a text spells: with escapes as `escape_bytes` writes them, and once with `{x*N}` for N times x.
pub fn bytes(alloc: Global, text: &str) -> Result<Vec<u8>> {
    let Some((front, rest)) = text.split_once('{') else {
        return Ok(Vec::unescape_bytes(alloc, text)?);
    };
    let (repeated, back) = rest.split_once('}').context("no }")?;
    let (unit, count) = repeated.split_once('*').context("no *")?;
    let mut all = Vec::unescape_bytes(alloc, front)?;
    for _ in 0..count.parse::<u32>()? {
        all.extend_from_slice(unit.as_bytes())?;
    }
    all.extend_from_slice(&Vec::unescape_bytes(alloc, back)?)?;
    Ok(all)
}

/// The bytes as a row spells them: a space stands for itself.
pub fn escaped(alloc: Global, bytes: &[u8]) -> Result<String, AllocError> {
    let text = bytes.escape_bytes().to_string(alloc)?;
    text.as_str().replace(alloc, "\\x20", " ")
}

/// The object that a word names: by a name that an earlier row gave it, or by forty digits.
pub fn id_of(names: &Names, word: &str) -> Result<ObjectId> {
    match names.get(word) {
        Some(id) => Ok(*id),
        None => ObjectId::from_hex(word.as_bytes()).context("no object has this name"),
    }
}

/// The forty digits of a name.
pub fn digits(alloc: Global, id: ObjectId) -> Result<String, AllocError> {
    hex::encode(alloc, id.0.as_slice())
}

/// The mode that a file of an index may have.
pub fn file_mode(word: &str) -> Result<Mode>
    ensures { IfOk result (λ mode. mode ≢ Tree) }
{
    match Mode::from_text(word.as_bytes()) {
        Some(mode) if mode != Mode::Tree => Ok(mode),
        _ => bail!("no mode of a file"),
    }
}

/// Writes an item behind those of a list.
pub fn push_item(list: &mut String, mark: &str, item: &str) -> Result<(), AllocError> {
    if !list.is_empty() {
        list.push_str(mark)?;
    }
    list.push_str(item)
}

/// The list, or this word where it has no items.
pub fn or_word(mut list: String, word: &str) -> Result<String, AllocError> {
    if list.is_empty() {
        list.push_str(word)?;
    }
    Ok(list)
}
