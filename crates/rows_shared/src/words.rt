//! How bytes, ids and ends of calls are written.

use bstr::ByteSlice;
use std::alloc::AllocError;
use std::fmt::{Display, Write};
use vc_object::ObjectId;

/// Writes bytes by escapes, and a space as it is.
pub fn push_bytes(out: &mut String, bytes: &[u8]) -> Result<(), AllocError> {
    for byte in bytes {
        match *byte {
            b' ' => out.push(' ')?,
            byte => write!(out, "{}", [byte].as_slice().escape_bytes())?,
        }
    }
    Ok(())
}

/// Writes an id, or why there is none.
pub fn push_found<E: Display>(
    out: &mut String,
    found: &Result<ObjectId, E>,
) -> Result<(), AllocError> {
    match found {
        Ok(id) => push_bytes(out, &id.to_hex()),
        Err(fault) => write!(out, "{fault}"),
    }
}

/// Writes that a call was done, or why it was not.
pub fn push_done<E: Display>(out: &mut String, done: &Result<(), E>) -> Result<(), AllocError> {
    match done {
        Ok(()) => out.push_str("ok"),
        Err(fault) => write!(out, "{fault}"),
    }
}

/// Writes how many objects a prune took away, or why it ended early.
pub fn push_pruned<E: Display>(
    out: &mut String,
    pruned: &Result<u64, E>,
) -> Result<(), AllocError> {
    match pruned {
        Ok(removed) => write!(out, "pruned {removed}"),
        Err(fault) => write!(out, "{fault}"),
    }
}

/// Writes what came of a restart, and whether the node is up then.
pub fn push_restarted<E: Display>(
    out: &mut String,
    restarted: &Result<(), E>,
    is_up: bool,
) -> Result<(), AllocError> {
    push_done(out, restarted)?;
    out.push_str(if is_up { " up" } else { " down" })
}
