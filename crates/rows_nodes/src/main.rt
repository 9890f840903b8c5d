//! Reads rows, one a line, about the shared node and two clones, and prints each with what the nodes answer. A row about a clone
//! begins with its name, `c0` or `c1`. The verb `take` brings a node a message that any node sent, by its number, or the last one.
//! Other rows are of whole exchanges, and those that begin with `try` play one exchange many times.
//!
//! A row that is misspelled ends nothing: it gets an answer that nobody expects.
#![tactic(auto)]

mod arriving;
mod clones;
mod exchanges;
mod reading;
mod scene;
mod shared;
mod site;
mod trials;
mod words;

use crate::scene::Scene;
use std::alloc::{AllocError, Global};
use std::io;
use std::io::{BufRead, BufReader};

// The row with its answer; a comment and a blank line as they are.
fn answered(
    alloc: Global,
    scene: &mut Scene,
    beside: &mut Scene,
    row: &str,
) -> Result<String, AllocError> {
    let mut line = String::from_str(alloc, row)?;
    if row.is_empty() || row.starts_with('#') {
        return Ok(line);
    }
    line.push_str(" = ")?;
    match row.strip_prefix("try ") {
        Some(text) => trials::row(&mut line, alloc, scene, beside, text)?,
        None => scene.row(&mut line, row)?,
    }
    Ok(line)
}

// Answers the rows of the input in their order.
fn answer_all(rt: &HostRuntime, scene: &mut Scene, beside: &mut Scene) -> io::Result<()> {
    let alloc = rt.alloc();
    for row in BufReader::new(alloc, rt.reader())?.lines(alloc) {
        let line = answered(alloc, scene, beside, row?.as_str())?;
        rt.println(line)?;
    }
    Ok(())
}

fn main(rt: HostRuntime) -> io::Result<()> {
    let alloc = rt.alloc();
    let mut scene = Scene::empty(alloc);
    let mut beside = Scene::empty(alloc);
    answer_all(&rt, &mut scene, &mut beside)
}
