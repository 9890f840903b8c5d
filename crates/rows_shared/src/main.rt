//! Reads rows, one a line, about a shared node, and prints each with what the node answers.
//!
//! A row that is misspelled ends nothing: it gets an answer that nobody expects.
#![tactic(auto)]

mod arriving;
mod calls;
mod recording;
mod site;
mod telling;
mod words;

use crate::site::Site;
use std::alloc::{AllocError, Global};
use std::io;
use std::io::{BufRead, BufReader};

// The row with its answer; a comment and a blank line as they are.
fn answered(alloc: Global, site: &mut Site, row: &str) -> Result<String, AllocError> {
    let mut line = String::from_str(alloc, row)?;
    if row.is_empty() || row.starts_with('#') {
        return Ok(line);
    }
    line.push_str(" = ")?;
    site.row(&mut line, row)?;
    Ok(line)
}

// Answers the rows of the input in their order.
fn answer_all(rt: &HostRuntime, site: &mut Site) -> io::Result<()> {
    let alloc = rt.alloc();
    for row in BufReader::new(alloc, rt.reader())?.lines(alloc) {
        let line = answered(alloc, site, row?.as_str())?;
        rt.println(line)?;
    }
    Ok(())
}

fn main(rt: HostRuntime) -> io::Result<()> {
    let mut site = Site::empty(rt.alloc());
    answer_all(&rt, &mut site)
}
