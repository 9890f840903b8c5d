//! What the shared node answered, as rows write it.

use crate::words::push_bytes;
use std::alloc::AllocError;
use std::fmt::{Display, Write};
use vc_push::Reason;
use vc_server::{ServeFault, Served};
use vc_shared::{Accepted, SharedFault, Stepped};

/// Writes what came of a message.
pub fn push_accepted(out: &mut String, accepted: &Accepted) -> Result<(), AllocError> {
    match accepted {
        Accepted::Reply(bytes) => push_after(out, "reply ", bytes),
        Accepted::Slot(slot) => write!(out, "slot {slot}"),
    }
}

/// Writes what came of a message, or why it was refused.
pub fn push_answered<E: Display>(
    out: &mut String,
    answered: &Result<Accepted, E>,
) -> Result<(), AllocError> {
    match answered {
        Ok(accepted) => push_accepted(out, accepted),
        Err(fault) => write!(out, "{fault}"),
    }
}

fn push_after(out: &mut String, words: &str, bytes: &[u8]) -> Result<(), AllocError> {
    out.push_str(words)?;
    push_bytes(out, bytes)
}

// Writes the name of a ref that was set, or why it was not.
fn push_update(out: &mut String, name: &[u8], found: &Option<Reason>) -> Result<(), AllocError> {
    match found {
        Some(reason) => write!(out, "{} ", reason.number())?,
        None => out.push_str("ok ")?,
    }
    push_bytes(out, name)
}

/// Writes what a step did.
pub fn push_stepped(
    out: &mut String,
    did: &Result<Stepped, SharedFault>,
) -> Result<(), AllocError> {
    match did {
        Ok(Stepped::Checked(passed)) => write!(out, "checked {passed}"),
        Ok(Stepped::Migrated) => out.push_str("migrated"),
        Ok(Stepped::Updated(name, found)) => push_update(out, name, found),
        Ok(Stepped::Atomic(refs)) => write!(out, "atomic ok {refs}"),
        Ok(Stepped::AtomicRefused(name, reason)) => {
            write!(out, "atomic {} ", reason.number())?;
            push_bytes(out, name)
        }
        Ok(Stepped::Finished(bytes)) => push_after(out, "report ", bytes),
        Err(fault) => write!(out, "{fault}"),
    }
}

/// Writes how a turn at a connection ended.
pub fn push_served(
    out: &mut String,
    served: &Result<Served, ServeFault>,
) -> Result<(), AllocError> {
    match served {
        Ok(Served::Answered) => out.push_str("answered "),
        Ok(Served::Refused(number)) => write!(out, "refused {number} "),
        Ok(Served::End) => out.push_str("end "),
        Err(fault) => write!(out, "{fault} "),
    }
}
