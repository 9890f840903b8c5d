//! Does what each row of standard input says to an index, a store, a work tree and a clone, and prints its answer.
#![tactic(auto)]

mod bench;
mod disk;
mod index;
mod node;
mod revision;
mod scene;
mod store;
mod words;
mod work;

use crate::bench::{Bench, Host};
use crate::scene::Scene;
use anyhow::{Result, bail};
use std::alloc::{AllocError, Global};
use std::io::{self, BufRead, BufReader, Read};

fn main(rt: HostRuntime) -> io::Result<()> {
    let host = rt.clone()?;
    let mut bench = Bench::new(host, Scene::new(&rt)?);
    print_all(&rt, rt.reader(), &mut bench)
}

fn print_all<R: Host + Print, I: Read + Drop>(
    rt: &R,
    input: I,
    bench: &mut Bench<R>,
) -> io::Result<()> {
    for line in BufReader::new(rt.alloc(), input)?.lines(rt.alloc()) {
        let text = transcript(rt.alloc(), bench, line?.as_str())?;
        println!(rt; "{text}")?;
    }
    Ok(())
}

// A row and its answers; a comment and an empty line stay as they are.
fn transcript<R: Host>(
    alloc: Global,
    bench: &mut Bench<R>,
    row: &str,
) -> Result<String, AllocError> {
    if row.is_empty() || row.starts_with('#') {
        return String::from_str(alloc, row);
    }
    let answers = answers(alloc, bench, row)?;
    format!(in alloc; "{row} = {answers}")
}

// What the steps of a row answer, but for those that have nothing to tell.
fn answers<R: Host>(alloc: Global, bench: &mut Bench<R>, row: &str) -> Result<String, AllocError> {
    let mut list = String::new(alloc);
    for step in row.split(" ; ") {
        push_answer(&mut list, alloc, obey(alloc, bench, step))?;
    }
    words::or_word(list, "done")
}

// Writes an answer after others, or why there is none.
fn push_answer(list: &mut String, alloc: Global, answer: Result<String>) -> Result<(), AllocError> {
    let answer = match answer {
        Ok(answer) => answer,
        Err(refusal) => format!(in alloc; "{refusal}")?,
    };
    if answer.is_empty() {
        return Ok(());
    }
    words::push_item(list, " ; ", answer.as_str())
}

fn obey<R: Host>(alloc: Global, bench: &mut Bench<R>, step: &str) -> Result<String> {
    let (group, rest) = words::cut(step);
    match group {
        "index" => index::row(&mut bench.repository, &mut bench.index, rest),
        "store" => store::row(&mut bench.repository, rest),
        "work" => work::row(bench, rest),
        "disk" => disk::row(&bench.rt, alloc, rest),
        "node" => node::row(&mut bench.clone, &mut bench.repository, rest),
        "value" => revision::value(alloc, &mut bench.repository.files, rest),
        "set" => revision::set(alloc, &mut bench.repository.files, rest),
        _ => bail!("no such row"),
    }
}
