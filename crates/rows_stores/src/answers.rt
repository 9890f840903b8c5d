//! How answers are printed.
use crate::ids::Shown;
use anyhow::anyhow;
use bstr::ByteSlice;
use std::alloc::{AllocError, Global};
use std::fmt::{Display, Write};
use vc_object::ObjectId;

/// What is printed after a row, or why there is no answer.
pub type Answer = anyhow::Result<String>;

pub fn word(alloc: Global, text: &str) -> Answer {
    Ok(String::from_str(alloc, text)?)
}

pub fn done(alloc: Global) -> Answer {
    word(alloc, "done")
}

pub fn yes_or_no(alloc: Global, yes: bool) -> Answer {
    word(alloc, if yes { "yes" } else { "no" })
}

/// A value as it is displayed.
pub fn displayed<T: Display>(alloc: Global, value: &T) -> Answer {
    Ok(format!(in alloc; "{value}")?)
}

/// A refusal with what it blames.
pub fn blaming<F: Display, T: Display>(fault: &F, what: &T) -> anyhow::Error {
    anyhow!("{fault} {what}")
}

pub fn quoted(alloc: Global, bytes: &[u8]) -> Answer {
    let escaped = bytes.escape_bytes();
    Ok(format!(in alloc; "\"{escaped}\"")?)
}

pub fn id_or_none(alloc: Global, id: Option<ObjectId>) -> Answer {
    match id {
        Some(id) => displayed(alloc, &Shown(id)),
        None => word(alloc, "none"),
    }
}

/// Writes an item after those of a list.
pub fn push_item<T: Display>(list: &mut String, mark: &str, item: &T) -> Result<(), AllocError> {
    if !list.is_empty() {
        list.push_str(mark)?;
    }
    write!(list, "{item}")
}

/// The list, or a word if it has no items.
pub fn or_nothing(mut list: String) -> Answer {
    if list.is_empty() {
        list.push_str("nothing")?;
    }
    Ok(list)
}

/// The ids, or of many their number alone.
pub fn listed(alloc: Global, ids: &[ObjectId]) -> Answer {
    if ids.len() > 20 {
        return Ok(format!(in alloc; "{} ids", ids.len())?);
    }
    let mut list = String::new(alloc);
    for id in ids {
        push_item(&mut list, " ", &Shown(*id))?;
    }
    or_nothing(list)
}

pub fn joined(alloc: Global, texts: &[String], between: &str) -> Answer {
    let mut all = String::new(alloc);
    for text in texts {
        push_item(&mut all, between, text)?;
    }
    or_nothing(all)
}
