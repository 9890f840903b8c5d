//! Rows about messages that are taken as bytes, and about those that may have so much and no more.

use crate::pieces::{push_fault, told};
use crate::spelling::{push_bytes, spelled};
use crate::taking::Dripping;
use std::alloc::{AllocError, Global};
use vc_message::{Bound, Fallible, keep_message, skip_within};

// The number that begins a text, and what stands behind it.
fn number_of(text: &str) -> (u64, &str) {
    let (word, rest) = text.split_once(' ').unwrap_or((text, ""));
    (word.parse::<u64>().unwrap_or(0), rest)
}

/// The bytes of the first message, within a limit, of a reader that gives them one by one, and the messages behind it.
pub fn keep(out: &mut String, alloc: Global, text: &str) -> Result<(), AllocError> {
    let (limit, text) = number_of(text);
    let bytes = spelled(alloc, text)?;
    let dripping = Fallible::new(Dripping {
        rest: &bytes,
        is_ready: false,
    });
    let (mut reader, kept) = keep_message(alloc, dripping, limit);
    match kept {
        Ok(Some(kept)) => {
            push_bytes(out, &kept, " ")?;
            out.push_str(" | ")?;
            out.push_str(told(alloc, &mut reader, bytes.len())?.as_str())
        }
        Ok(None) => out.push_str("none"),
        Err(fault) => push_fault(out, fault),
    }
}

/// Passes over the first message, which may have so many bytes and lines before its objects: the messages behind it, or why it has no
/// end.
pub fn within(out: &mut String, alloc: Global, text: &str) -> Result<(), AllocError> {
    let (most, text) = number_of(text);
    let (lines, text) = number_of(text);
    let bytes = spelled(alloc, text)?;
    let mut reader = bytes.as_slice();
    match skip_within(alloc, &mut reader, Bound { bytes: most, lines }) {
        Ok(Some(_)) => out.push_str(told(alloc, &mut reader, bytes.len())?.as_str()),
        Ok(None) => out.push_str("none"),
        Err(fault) => push_fault(out, fault),
    }
}
