//! Reads rows, one a line, about two clones, and prints each with what the clone answers. A row about a clone begins
//! with its name, `c0` or `c1`. The row `alike` tells whether both hold the same files, for which it closes them.
//!
//! A row that is misspelled ends nothing: it gets an answer that nobody expects.
#![tactic(auto)]

mod arriving;
mod calls;
mod pair;
mod recording;
mod site;
mod telling;
mod words;

use crate::pair::Pair;
use std::alloc::{AllocError, Global};
use std::io;
use std::io::{BufRead, BufReader};

// The row with its answer; a comment and a blank line as they are.
fn answered(alloc: Global, pair: &mut Pair, row: &str) -> Result<String, AllocError> {
    let mut line = String::from_str(alloc, row)?;
    if row.is_empty() || row.starts_with('#') {
        return Ok(line);
    }
    line.push_str(" = ")?;
    pair.row(&mut line, row)?;
    Ok(line)
}

// Answers the rows of the input in their order.
fn answer_all(rt: &HostRuntime, pair: &mut Pair) -> io::Result<()> {
    let alloc = rt.alloc();
    for row in BufReader::new(alloc, rt.reader())?.lines(alloc) {
        let line = answered(alloc, pair, row?.as_str())?;
        rt.println(line)?;
    }
    Ok(())
}

fn main(rt: HostRuntime) -> io::Result<()> {
    let mut pair = Pair::empty(rt.alloc());
    answer_all(&rt, &mut pair)
}
