//! Rows about the messages of a push: how each is told, and how rows spell what is written.
//!
//! A push is `old..new=name` for each command, `|`, and the objects; or `|` and why the first body at fault is refused,
//! and where that is written, `!` and the object. A report is `-` where all was taken, or the text that says what was not,
//! and `name=id` or `name!text` for each command, with the number of the text where it is told.

ghost use Rattle.std.specs.Prelude.{IfOk};
ghost use Rattle.std.specs.List.{All};
ghost use Rattle.vc_push.specs.Push.{IsShort};
ghost use Rattle.vc_push.specs.PushView.{command_of};
ghost use Rattle.vc_push.specs.Report.{IsShortTold, IsShortUnpack};
ghost use Rattle.vc_push.specs.ReportView.{bytes_of, told_of};

use crate::messages::{Telling, object_of, objects_of, push_objects};
use crate::spelling::{push_bytes, push_id, spelled};
use std::alloc::{AllocError, Global};
use std::fmt::Write;
use vc_object::ObjectId;
use vc_pkt::{CarriedObjects, StreamObject};
use vc_push::{Command, Push, PushReader, Reason, Report, ReportReader, Told};

/// Tells a command.
pub fn push_command(out: &mut String, command: &Command) -> Result<(), AllocError> {
    push_id(out, command.old)?;
    out.push_str("..")?;
    push_id(out, command.new)?;
    out.push('=')?;
    push_bytes(out, &command.name, "\\x20")
}

impl Telling for PushReader {
    fn tell(out: &mut String, push: &Push) -> Result<(), AllocError> {
        if push.atomic {
            out.push_str("atomic ")?;
        }
        for command in &push.commands {
            push_command(out, command)?;
            out.push(' ')?;
        }
        out.push('|')?;
        if let Some(fault) = push.fault() {
            return write!(out, " {fault}");
        }
        match &push.carried {
            Ok(objects) => push_objects(out, objects),
            Err(_) => out.push_str(" refused for nothing"),
        }
    }
}

// What became of a command.
fn push_told(out: &mut String, told: &Told) -> Result<(), AllocError> {
    out.push(' ')?;
    push_bytes(out, &told.name, "\\x20")?;
    match &told.outcome {
        Ok(id) => {
            out.push('=')?;
            push_id(out, *id)
        }
        Err(reason) => {
            write!(out, "!{}:", Reason::number_of_text(reason))?;
            push_bytes(out, reason, "\\x20")
        }
    }
}

impl Telling for ReportReader {
    fn tell(out: &mut String, report: &Report) -> Result<(), AllocError> {
        match &report.unpack {
            Some(text) => push_bytes(out, text, "\\x20")?,
            None => out.push('-')?,
        }
        for told in &report.told {
            push_told(out, told)?;
        }
        Ok(())
    }
}

// The command that `old..new=name` spells. Its line isn't too long.
fn command(alloc: Global, word: &str) -> Result<Command, AllocError>
    ensures { IfOk result (λ c. IsShort (command_of c)) }
{
    let (ids, name) = word.split_once('=').unwrap_or((word, ""));
    let (old, new) = ids.split_once("..").unwrap_or((ids, ""));
    let old = ObjectId::from_hex(old.as_bytes()).unwrap_or(ObjectId::ZERO);
    let new = ObjectId::from_hex(new.as_bytes()).unwrap_or(ObjectId::ZERO);
    let mut name = spelled(alloc, name)?;
    name.truncate(65_409);
    Ok(Command { old, new, name })
}

// What is carried: objects, or one that is at fault.
fn carried(alloc: Global, words: &str) -> Result<Result<CarriedObjects, StreamObject>, AllocError> {
    match words.strip_prefix('!') {
        Some(word) => Ok(Err(object_of(alloc, word)?)),
        None => Ok(Ok(objects_of(alloc, words)?)),
    }
}

/// The push of these words, of which the first may be `atomic`, as it is written.
pub fn push(alloc: Global, words: &str) -> Result<Vec<u8>, AllocError> {
    let (atomic, words) = match words.strip_prefix("atomic ") {
        Some(others) => (true, others),
        None => (false, words),
    };
    let (asked, objects) = words.split_once(" | ").unwrap_or((words, ""));
    let mut commands = Vec::new(alloc);
    'words: for word in asked.split(' ') {
        commands.push(command(alloc, word)?)?;
    }
    let carried = carried(alloc, objects)?;
    Push {
        atomic,
        commands,
        carried,
    }
    .write(alloc)
}

// What became of the command that `name=id` or `name!text` spells. Its line isn't too long.
fn outcome(alloc: Global, word: &str) -> Result<Told, AllocError>
    ensures { IfOk result (λ told. IsShortTold (told_of told)) }
{
    if let Some((name, text)) = word.split_once('!') {
        let mut name = spelled(alloc, name)?;
        name.truncate(60_000);
        let mut reason = spelled(alloc, text)?;
        reason.truncate(5511);
        let outcome = Err(reason);
        return Ok(Told { name, outcome });
    }
    let (name, id) = word.split_once('=').unwrap_or((word, ""));
    let mut name = spelled(alloc, name)?;
    name.truncate(65_512);
    let outcome = Ok(ObjectId::from_hex(id.as_bytes()).unwrap_or(ObjectId::ZERO));
    Ok(Told { name, outcome })
}

// What the first line says; it isn't too long.
fn unpack(alloc: Global, word: &str) -> Result<Option<Vec<u8>>, AllocError>
    ensures { IfOk result (λ text. IsShortUnpack (bytes_of text)) }
{
    if word == "-" {
        return Ok(None);
    }
    let mut text = spelled(alloc, word)?;
    text.truncate(65_508);
    Ok(Some(text))
}

/// The report of these words, as it is written.
pub fn report(alloc: Global, words: &str) -> Result<Vec<u8>, AllocError> {
    let (first, others) = words.split_once(' ').unwrap_or((words, ""));
    let mut told = Vec::new(alloc);
    'words: for word in others.split(' ') {
        if !word.is_empty() {
            told.push(outcome(alloc, word)?)?;
        }
    }
    let unpack = unpack(alloc, first)?;
    Report { unpack, told }.write(alloc)
}
