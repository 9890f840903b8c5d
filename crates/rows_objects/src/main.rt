//! Reads rows and prints each with its answer: objects, their parts and names, ids, and the names of refs.
//!
//! A row is a verb and its arguments. Comments and blank lines are copied.
#![tactic(auto)]

mod ids;
mod objects;
mod refs;
mod spelling;
mod sweeps;

use crate::spelling::bytes_of;
use std::alloc::{AllocError, Global};
use std::io;

fn main(rt: HostRuntime) -> io::Result<()> {
    for line in rt.lines(rt.alloc()) {
        let text = answered(rt.alloc(), line?.as_str())?;
        println!(rt; "{text}")?;
    }
    Ok(())
}

// The row, and behind it what it asks for.
fn answered(alloc: Global, row: &str) -> Result<String, AllocError> {
    let mut out = String::from_str(alloc, row)?;
    if row.is_empty() || row.starts_with('#') {
        return Ok(out);
    }
    let (verb, rest) = row.split_once(' ').unwrap_or((row, ""));
    let bytes = bytes_of(alloc, rest)?;
    out.push_str(" =")?;
    push_answer(alloc, &mut out, verb, bytes.as_slice())?;
    Ok(out)
}

fn push_answer(
    alloc: Global,
    out: &mut String,
    verb: &str,
    bytes: &[u8],
) -> Result<(), AllocError> {
    match verb {
        "id" => ids::push_id_of(out, bytes),
        "kind" => ids::push_kind(out, bytes),
        "mode" => ids::push_mode(out, bytes),
        "sort" => ids::push_sorted(alloc, out, bytes),
        "constants" => ids::push_constants(out),
        "check" => refs::push_check(out, bytes),
        "ref" => refs::push_name(alloc, out, bytes),
        "name" => objects::push_names(out, bytes),
        "fronts" => sweeps::push_fronts(out, bytes),
        "changes" => sweeps::push_changes(alloc, out, bytes),
        _ => objects::push_read(alloc, out, verb, bytes),
    }
}
