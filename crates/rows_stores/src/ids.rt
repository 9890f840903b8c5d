//! How rows write ids: as forty hex digits, as `#` and a number, or as letters, each of which is an id.
use bstr::ByteVec;
use std::alloc::{AllocError, Global};
use std::fmt;
use vc_object::ObjectId;

/// The first word of a text, and what follows the space after it.
pub fn two(text: &str) -> (&str, &str) {
    text.split_once(' ').unwrap_or((text, ""))
}

/// The bytes that a text writes, with its escapes.
pub fn bytes_of(alloc: Global, text: &str) -> Result<Vec<u8>, AllocError> {
    Vec::unescape_bytes(alloc, text)
}

/// The id of a number, whose first four bytes are the number.
pub fn numbered(number: u32) -> ObjectId {
    let [a, b, c, d] = number.to_be_bytes();
    ObjectId([a, b, c, d, 0, 0, 0, 0, 0, 0, 0, 0, 0, 0, 0, 0, 0, 0, 0, 0])
}

/// The id of a letter, which is the letter twenty times.
pub fn lettered(letter: u8) -> ObjectId {
    ObjectId([letter; 20])
}

/// The ids that words write.
pub fn ids_of(alloc: Global, text: &str) -> anyhow::Result<Vec<ObjectId>> {
    let mut ids = Vec::new(alloc);
    for word in text.split(' ') {
        push_ids(&mut ids, word)?;
    }
    Ok(ids)
}

fn push_ids(ids: &mut Vec<ObjectId>, word: &str) -> anyhow::Result<()> {
    if let Some(id) = ObjectId::from_hex(word.as_bytes()) {
        ids.push(id)?;
    } else if let Some(number) = word.strip_prefix("#") {
        ids.push(numbered(number.parse()?))?;
    } else {
        for letter in word.as_bytes() {
            ids.push(lettered(*letter))?;
        }
    }
    Ok(())
}

/// The first of the ids that a text writes; `-` and the empty text stand for none.
pub fn id_in(alloc: Global, text: &str) -> anyhow::Result<Option<ObjectId>> {
    if text == "-" {
        return Ok(None);
    }
    Ok(ids_of(alloc, text)?.first().copied())
}

/// The first of the ids that a text writes.
pub fn id_of(alloc: Global, text: &str) -> anyhow::Result<ObjectId> {
    match id_in(alloc, text)? {
        Some(id) => Ok(id),
        None => anyhow::bail!("no id"),
    }
}

/// An id, which is printed as rows write it.
#[derive(Drop)]
pub struct Shown(pub ObjectId);

impl fmt::Display for Shown {
    fn fmt<W: fmt::Write>(&self, f: &mut fmt::Formatter<W>) -> fmt::Result {
        let first = self.0.0[0];
        if self.0 == lettered(first) && first.is_ascii_graphic() {
            return f.write_char(char::from(first));
        }
        let [a, b, c, d, ..] = self.0.0;
        let number = u32::from_be_bytes([a, b, c, d]);
        if self.0 == numbered(number) {
            return write!(f, "#{number}");
        }
        for digit in self.0.to_hex() {
            f.write_char(char::from(digit))?;
        }
        Ok(())
    }
}
