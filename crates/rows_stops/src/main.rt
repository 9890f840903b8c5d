//! Plays scripts of worlds with trouble at a node, at each moment in turn, and looks at the files of all nodes after each line.
//!
//! The rows from a row `world N` on are a script. A row `try` plays it again and again: `stops NODE` with a stop after each number of
//! writes, `stops-twice NODE` with a second one in the restart or in what follows, and `fails NODE` with each call of the disk failing
//! alone. `held` is its answer if each run kept what it has to:
//!
//! - After each line all that a ref, HEAD or the index reaches is there, each branch of the shared node has its last value or one that descends from it,
//!   and what a clone knows as a branch's value was its value. The refs that a row `together` names have one value, or none has one.
//! - Each answer before the first fault is that of the run without trouble, and the call or the write that fails is told as a fault.
//! - The node is down then, until it is restarted. It can be restarted, and its files can be opened as another process finds them.
#![tactic(auto)]

mod disk;
mod laws;
mod run;
mod script;
mod trials;

use crate::script::Script;
use anyhow::Result;
use std::alloc::Global;
use std::io::{BufRead, BufReader, Read};

// A row, and what it comes to.
fn answered(alloc: Global, script: &mut Script, row: &str) -> Result<String> {
    if row.is_empty() || row.starts_with('#') {
        return Ok(String::from_str(alloc, row)?);
    }
    if let Some(text) = row.strip_prefix("try ") {
        let answer = trials::row(alloc, script, text)?;
        return Ok(format!(in alloc; "{row} = {answer}")?);
    }
    script.add(alloc, row)?;
    Ok(String::from_str(alloc, row)?)
}

fn answer_all<R: Print + AllocGlobal, I: Read + Drop>(rt: &R, input: I) -> Result<()> {
    let alloc = rt.alloc();
    let mut script = Script::empty(alloc);
    for row in BufReader::new(alloc, input)?.lines(alloc) {
        let text = answered(alloc, &mut script, row?.as_str())?;
        println!(rt; "{text}")?;
    }
    Ok(())
}

fn main(rt: HostRuntime) -> Result<()> {
    answer_all(&rt, rt.reader())
}
