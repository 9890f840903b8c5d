//! Rows on the verdict on a command of a push.
use crate::answers::{Answer, word};
use crate::ids::{bytes_of, id_in, two};
use bstr::ByteSlice;
use std::alloc::Global;
use vc_history::Generations;
use vc_object::ObjectId;
use vc_object_map::Commits;
use vc_push::{Command, Reason};
use vc_quarantine::Known;
use vc_session::judge;

/// A row has the old id, the new one and the name; `-` stands for no value. The answer is the number of the reason for which
/// the command is refused, and its text, or that it passes.
pub fn obey<C: Commits>(
    commits: &mut C,
    alloc: Global,
    rest: &str,
    generations: &Generations,
) -> Answer {
    let command = command(alloc, rest)?;
    let mut known = Known::nothing(alloc);
    match judge(alloc, commits, &mut known, &command, generations) {
        Ok(Some(reason)) => told(alloc, reason),
        Ok(None) => word(alloc, "passes"),
        Err(fault) => Err(fault.into()),
    }
}

fn command(alloc: Global, rest: &str) -> anyhow::Result<Command> {
    let (old, rest) = two(rest);
    let (new, name) = two(rest);
    Ok(Command {
        old: id_in(alloc, old)?.unwrap_or(ObjectId::ZERO),
        new: id_in(alloc, new)?.unwrap_or(ObjectId::ZERO),
        name: bytes_of(alloc, name)?,
    })
}

fn told(alloc: Global, reason: Reason) -> Answer {
    let text = reason.text().as_bstr();
    Ok(format!(in alloc; "{} {text}", reason.number())?)
}
