//! Reads rows, one a line, about the lines and messages of Git's protocol, about the answers of a node and about its open
//! pushes, and prints each with what the libraries answer.
//!
//! A row that is misspelled ends nothing: it gets an answer that nobody expects.
#![tactic(auto)]

mod answers;
mod ends;
mod keeping;
mod lines;
mod messages;
mod pieces;
mod pushes;
mod reading;
mod sessions;
mod spelling;
mod taking;
mod writing;

use crate::sessions::OpenPushes;
use std::alloc::{AllocError, Global};
use std::io;
use std::io::{BufRead, BufReader};
use vc_files::MemoryFiles;

// What a verb answers to what stands behind it in the row.
fn answer(
    out: &mut String,
    alloc: Global,
    files: &mut MemoryFiles,
    pushes: &mut OpenPushes,
    verb: &str,
    text: &str,
) -> Result<(), AllocError> {
    match verb {
        "lines" => lines::lines(out, alloc, text),
        "feed" => lines::feed(out, alloc, text),
        "read" => reading::read(out, alloc, text),
        "cut" => reading::cut(out, alloc, text),
        "changed" => reading::changed(out, alloc, text),
        "take" => taking::take(out, alloc, text),
        "broken" => taking::broken(out, alloc, text),
        "pieces" => pieces::pieces(out, alloc, text),
        "skip" => pieces::skip(out, alloc, text),
        "fronts" => pieces::fronts(out, alloc, text),
        "keep" => keeping::keep(out, alloc, text),
        "within" => keeping::within(out, alloc, text),
        "write" => writing::write(out, alloc, text),
        "empty" => answers::empty(out, alloc, files),
        "put" => answers::put(out, alloc, files, text),
        "file" => answers::file(out, alloc, files, text),
        "answer" => answers::answer(out, alloc, files, text),
        "judge" => answers::judge(out, alloc, files, text),
        "beyond" => answers::beyond(out, alloc, files, text),
        "open" => sessions::open_push(out, alloc, files, pushes, text),
        "arrive" => sessions::arrive(out, alloc, files, pushes, text),
        "step" => sessions::step(out, alloc, files, pushes, text),
        "learn" => sessions::learn(out, alloc, files, pushes, text),
        "run" => sessions::run(out, alloc, files, text),
        "orders" => sessions::orders(out, alloc, files, text),
        "refs" => sessions::refs(out, alloc, files),
        "count" => sessions::count(out, alloc, files, text),
        _ => out.push_str("no such verb"),
    }
}

// The row and its answer; a comment and a blank line as they are.
fn answered(
    alloc: Global,
    files: &mut MemoryFiles,
    pushes: &mut OpenPushes,
    row: &str,
) -> Result<String, AllocError> {
    let mut line = String::from_str(alloc, row)?;
    if row.is_empty() || row.starts_with('#') {
        return Ok(line);
    }
    let (verb, text) = row.split_once(' ').unwrap_or((row, ""));
    let mut told = String::new(alloc);
    answer(&mut told, alloc, files, pushes, verb, text)?;
    line.push_str(" = ")?;
    spelling::push_short(&mut line, told.as_str())?;
    Ok(line)
}

fn main(rt: HostRuntime) -> io::Result<()> {
    let alloc = rt.alloc();
    let mut files = MemoryFiles::new(alloc);
    let mut pushes = OpenPushes::new(alloc);
    for row in BufReader::new(alloc, rt.reader())?.lines(alloc) {
        rt.println(answered(alloc, &mut files, &mut pushes, row?.as_str())?)?;
    }
    Ok(())
}
