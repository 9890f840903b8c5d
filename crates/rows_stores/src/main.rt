//! Does what rows of standard input say with files, objects, refs and graphs, and prints each row with its answer.
#![tactic(auto)]

mod answers;
mod change_rows;
mod devices;
mod file_rows;
mod generation_rows;
mod graph_rows;
mod ids;
mod lock_rows;
mod object_rows;
mod packed_rows;
mod random;
mod random_refs;
mod raw;
mod recorder;
mod ref_rows;
mod tables;
mod verdict_rows;

use crate::answers::{Answer, word};
use crate::devices::{Device, Host};
use crate::ids::two;
use std::io::{BufRead, BufReader, Read};
use vc_folder::{FolderLock, FolderShare};

// What the rows so far have opened and locked.
#[derive(Drop)]
struct Held<R: Host> {
    devices: Vec<Device<R>>,
    locks: Vec<FolderLock<R>>,
    shares: Vec<FolderShare>,
}

fn main(rt: HostRuntime) -> anyhow::Result<()> {
    let mut held = Held {
        devices: Vec::new(rt.alloc()),
        locks: Vec::new(rt.alloc()),
        shares: Vec::new(rt.alloc()),
    };
    print_all(&rt, rt.reader(), &mut held)
}

fn print_all<R: Host, I: Read + Drop>(rt: &R, input: I, held: &mut Held<R>) -> anyhow::Result<()> {
    for line in BufReader::new(rt.alloc(), input)?.lines(rt.alloc()) {
        let text = printed(rt, held, line?.as_str())?;
        println!(rt; "{text}")?;
    }
    Ok(())
}

// What is printed for a line: comments and blank lines as they are.
fn printed<R: Host>(rt: &R, held: &mut Held<R>, row: &str) -> Answer {
    if row.is_empty() || row.starts_with("#") {
        return word(rt.alloc(), row);
    }
    let answer = obey(rt, held, row)?;
    Ok(format!(in rt.alloc(); "{row} = {answer}")?)
}

fn obey<R: Host>(rt: &R, held: &mut Held<R>, row: &str) -> Answer {
    let (verb, rest) = two(row);
    match verb {
        "files" => devices::open_all(rt, &mut held.devices, rest),
        "packed" | "packed-text" => packed_rows::obey(rt.alloc(), verb, rest),
        "packed-conflict" => packed_rows::conflict(rt.alloc(), rest),
        "random-refs" => random_refs::agreements(rt.alloc(), rest),
        "random" | "random-numbered" => random::agreements(rt.alloc(), verb, rest),
        "lock" | "try-lock" | "unlock" => lock_rows::obey(rt, &mut held.locks, verb, rest),
        "share" | "unshare" => lock_rows::obey_share(rt, &mut held.shares, verb, rest),
        _ if verb.starts_with("raw-") => raw::obey(rt, verb, rest),
        _ => devices::obey_all(rt.alloc(), &mut held.devices, verb, rest),
    }
}
