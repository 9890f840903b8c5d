//! What came of connections that were served at once, in words.

use crate::waiting::Waiting;
use bstr::ByteSlice;
use std::alloc::{AllocError, Global};
use std::fmt::Write;
use std::mem;
use vc_desk::{All, End, Ended, Entry, NotServed};
use vc_files::MemoryFiles;

/// What came of the connections.
pub type Served<R> = Result<All<MemoryFiles, Vec<u8>>, NotServed<MemoryFiles, R, Vec<u8>>>;

// How many of the entries are of a connection.
fn count_of(entries: &[Entry], connection: u64) -> usize {
    let own = entries
        .iter()
        .filter(|entry| entry.connection == connection);
    own.count()
}

// How a connection ended.
fn push_ended(out: &mut String, ended: Ended) -> Result<(), AllocError> {
    match ended {
        Ended::End => out.push_str("end"),
        Ended::Refused(number) => write!(out, "refused {number}"),
        Ended::ReadFailed => out.push_str("115"),
        Ended::WriteFailed => out.push_str("116"),
        Ended::Fault(fault) => write!(out, "{fault}"),
    }
}

// What a connection was told of the branch `main`.
fn told_of_main(end: &End<Vec<u8>>) -> &'static str {
    let told = end.writer.as_slice();
    if told.contains_str(b"ok refs/heads/main".as_slice()) {
        return "ok";
    }
    if told.contains_str(b"ng refs/heads/main stale".as_slice()) {
        return "stale";
    }
    "no report"
}

fn push_end(out: &mut String, end: &End<Vec<u8>>) -> Result<(), AllocError> {
    write!(
        out,
        "; {}, {} receipts, ",
        told_of_main(end),
        end.receipts.len()
    )?;
    push_ended(out, end.ended)
}

/// The entries, those of the first two connections among the first four, and each connection: first those that were told `ok`.
pub fn push_served<R>(out: &mut String, served: &Served<R>) -> Result<(), AllocError> {
    let all = match served {
        Ok(all) => all,
        Err(NotServed::LogDiffers(_, _)) => return out.push_str("118"),
        Err(NotServed::Before(_, _, fault)) => return write!(out, "{fault}"),
    };
    let entries = all.kept.entries();
    let first = &entries[..entries.len().min(4)];
    write!(out, "{} entries, ", entries.len())?;
    write!(
        out,
        "{} and {} of the first",
        count_of(first, 0),
        count_of(first, 1)
    )?;
    for is_ok in [true, false] {
        for end in &all.ends {
            if (told_of_main(end) == "ok") == is_ok {
                push_end(out, end)?;
            }
        }
    }
    Ok(())
}

// Whether each of so many entries has a place of its own below their count.
fn have_places<T>(alloc: Global, count: usize, ports: &[Waiting<T>]) -> Result<bool, AllocError> {
    let mut taken = Vec::new(alloc);
    for _ in 0..count {
        taken.push(false)?;
    }
    for port in ports {
        for (_name, end) in &port.ends {
            for receipt in &end.receipts {
                let Some(place) = taken.get_mut(receipt.place as usize) else {
                    return Ok(false);
                };
                if mem::replace(place, true) {
                    return Ok(false);
                }
            }
        }
    }
    Ok(true)
}

// How many entries the connections had.
fn entries_of<T>(ports: &[Waiting<T>]) -> usize {
    let mut count: usize = 0;
    for port in ports {
        for (_name, end) in &port.ends {
            count = count.saturating_add(end.receipts.len());
        }
    }
    count
}

/// How many entries there were and whether each has a place of its own, and each of so many connections: first those that were told
/// `ok`.
pub fn push_pooled<T>(
    alloc: Global,
    out: &mut String,
    connections: usize,
    ports: &[Waiting<T>],
) -> Result<(), AllocError> {
    let count = entries_of(ports);
    write!(out, "{count} entries")?;
    if !have_places(alloc, count, ports)? {
        out.push_str(", not each at its own place")?;
    }
    for is_ok in [true, false] {
        for name in 0..connections {
            push_named(out, name as u64, is_ok, ports)?;
        }
    }
    Ok(())
}

// The ends of the connection of this name, if it was told `ok`, or if it was not.
fn push_named<T>(
    out: &mut String,
    name: u64,
    is_ok: bool,
    ports: &[Waiting<T>],
) -> Result<(), AllocError> {
    for port in ports {
        for (ended, end) in &port.ends {
            if *ended == name && (told_of_main(end) == "ok") == is_ok {
                push_end(out, end)?;
            }
        }
    }
    Ok(())
}
