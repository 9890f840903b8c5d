//! Reads rows, one a line, about connections that are served at once, and prints each with what comes of it.
//!
//! ```text
//! new            a new shared node over files in memory, and no connection
//! connect bytes  one connection more, on which these bytes come and no more
//! serve          the connections are served at once, and the node is closed; each is held after its second entry until the first two
//!                connections have two
//! pool n         the same by n workers, of which each takes the next connection when it is free
//! ```
//!
//! Of what was served it tells the entries of the log, how many of the first four are of each of the first two connections, and for each
//! connection how it ended, its receipts and what it was told of `main`, in the order of these words: which of two pushes comes first is
//! not known. Of a pool it tells how many entries there were, whether each has a place of its own, and the same of each connection. Bytes
//! are escaped, as `\n` and `\xFF`. A row that is misspelled ends nothing: it gets an answer that nobody expects.
#![tactic(auto)]

mod site;
mod telling;
mod turnstile;
mod waiting;

use crate::site::Site;
use std::alloc::{AllocError, Global};
use std::io::{self, BufRead, BufReader};
use std::sync::Wait;
use std::thread::Threads;

// The row with its answer; a comment and a blank line as they are.
fn answered<T: Threads + Wait + Clone + Drop + Send + Sync>(
    rt: &T,
    alloc: Global,
    site: &mut Site,
    row: &str,
) -> Result<String, AllocError> {
    let mut line = String::from_str(alloc, row)?;
    if row.is_empty() || row.starts_with('#') {
        return Ok(line);
    }
    line.push_str(" = ")?;
    let (verb, text) = row.split_once(' ').unwrap_or((row, ""));
    match verb {
        "new" => site.renew(&mut line)?,
        "connect" => site.connect(&mut line, text)?,
        "serve" => site.serve(rt, &mut line)?,
        "pool" => site.pool(rt, &mut line, text)?,
        _ => line.push_str("no such verb")?,
    }
    Ok(line)
}

fn main(rt: HostRuntime) -> io::Result<()> {
    let alloc = rt.alloc();
    let mut site = Site::empty(alloc);
    for row in BufReader::new(alloc, rt.reader())?.lines(alloc) {
        let line = answered(&rt, alloc, &mut site, row?.as_str())?;
        rt.println(line)?;
    }
    Ok(())
}
