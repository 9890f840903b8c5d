//! Rows of the names of refs.

use std::alloc::{AllocError, Global};
use vc_refname::RefName;

fn text_of(bytes: &[u8]) -> &str {
    str::from_utf8(bytes).unwrap_or("")
}

/// The rule that a text breaks.
pub(crate) fn push_check(out: &mut String, bytes: &[u8]) -> Result<(), AllocError> {
    match RefName::check(text_of(bytes)) {
        Ok(()) => out.push_str(" ok"),
        Err(fault) => write!(out, " {fault}"),
    }
}

/// Where a name lies; of a branch the name of the ref that follows it.
pub(crate) fn push_name(alloc: Global, out: &mut String, bytes: &[u8]) -> Result<(), AllocError> {
    match RefName::new(alloc, text_of(bytes)) {
        Ok(name) => push_places(alloc, out, &name),
        Err(error) => write!(out, " {error}"),
    }
}

fn push_places(alloc: Global, out: &mut String, name: &RefName) -> Result<(), AllocError> {
    let copy = name.clone()?;
    write!(
        out,
        " {copy} in refs:{} tag:{}",
        name.in_refs(),
        name.is_tag()
    )?;
    if name.is_branch() && name.as_str().len() <= 246 {
        let tracking = name.tracking(alloc)?;
        write!(out, " branch, followed by {tracking}")?;
    }
    Ok(())
}
