//! Rows on revision expressions: how each is read, and what it names in a repository that other rows make.
//!
//! Each row is printed, and behind it its answer. A row is blank, a comment behind `#`, or one of these:
//!
//! ```text
//! parse EXPR          its tokens, each with its place, or where the text goes wrong
//! parse-set SET       the same of a set, term by term
//! object KIND BODY    stores an object, and tells its name
//! file PATH BYTES     writes a file of the repository
//! replace ID OTHER    from now on the repository reads the first name as the second
//! fail N              from now on so many calls of the files pass, the next one fails, and later ones pass
//! resolve EXPR        the object that it names
//! select SET          the commits that it selects
//! repeat N TEXT ROW   the row, in which TEXT stands so often in place of `*`
//! ```
//!
//! The last word of a row is escaped, as `\n` and `\xFF`, and may hold spaces.
#![tactic(auto)]

mod lying;
mod tokens;
mod world;

use std::alloc::{AllocError, Global};
use std::io;
use world::World;

fn main(rt: HostRuntime) -> io::Result<()> {
    let mut world = World::new(rt.alloc());
    for line in rt.lines(rt.alloc()) {
        let line = line?;
        let answer = answer(rt.alloc(), &mut world, line.as_str())?;
        println!(rt; "{line}{answer}")?;
    }
    Ok(())
}

// What stands behind a line.
fn answer(alloc: Global, world: &mut World, line: &str) -> Result<String, AllocError> {
    let row = expanded(alloc, line)?;
    world.answer(row.as_str())
}

// The row that a line stands for.
fn expanded(alloc: Global, line: &str) -> Result<String, AllocError> {
    match repeated(line) {
        Some((count, text, front, back)) => {
            let mut row = String::from_str(alloc, front)?;
            for _ in 0..count {
                row.push_str(text)?;
            }
            row.push_str(back)?;
            Ok(row)
        }
        None => String::from_str(alloc, line),
    }
}

// What a line says of a row in which a text is repeated: how often, the text, and what stands before and behind.
fn repeated(line: &str) -> Option<(u32, &str, &str, &str)> {
    let (count, words) = line.strip_prefix("repeat ")?.split_once(' ')?;
    let (text, row) = words.split_once(' ')?;
    let (front, back) = row.split_once('*')?;
    Some((count.parse().ok()?, text, front, back))
}
