//! What a clone answered, as rows write it.

use crate::words::push_bytes;
use std::alloc::AllocError;
use std::fmt::Write;
use vc_node::{CloneFault, Received};

fn push_sent(out: &mut String, bytes: &[u8]) -> Result<(), AllocError> {
    out.push_str("send ")?;
    push_bytes(out, bytes)
}

/// Writes the bytes that are to be sent, or why there are none.
pub fn push_started(
    out: &mut String,
    started: &Result<Vec<u8>, CloneFault>,
) -> Result<(), AllocError> {
    match started {
        Ok(bytes) => push_sent(out, bytes),
        Err(fault) => write!(out, "{fault}"),
    }
}

fn push_reported(out: &mut String, moved: usize, refused: &[u16]) -> Result<(), AllocError> {
    write!(out, "moved {moved}")?;
    for number in refused {
        write!(out, " refused {number}")?;
    }
    Ok(())
}

/// Writes what came of a message.
pub fn push_received(out: &mut String, received: &Received) -> Result<(), AllocError> {
    match received {
        Received::Send(bytes) => push_sent(out, bytes),
        Received::Moved { moved, left } => write!(out, "moved {moved} left {left}"),
        Received::Reported { moved, refused } => push_reported(out, *moved, refused),
    }
}

/// Writes what came of a message, or why it was refused.
pub fn push_taken(
    out: &mut String,
    taken: &Result<Received, CloneFault>,
) -> Result<(), AllocError> {
    match taken {
        Ok(received) => push_received(out, received),
        Err(fault) => write!(out, "{fault}"),
    }
}
