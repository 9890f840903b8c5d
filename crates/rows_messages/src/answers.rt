//! Rows about a node: files that rows set up, the answer to a want, and the judgement of a pack.
ghost use Rattle.std.specs.Prelude.{◌≡◌};
ghost use Rattle.vc_known.specs.Known.{Agrees};
ghost use Rattle.vc_object_map.specs.Store.{objects};

use crate::messages::object_of;
use crate::spelling::{ids_of, push_bytes, push_id, spelled};
use indexmap::IndexSet;
use std::alloc::{AllocError, Global};
use std::fmt::Write;
use vc_fetch::{Pack, Want};
use vc_files::{Files, MemoryFiles};
use vc_graph::GraphFault;
use vc_known::Known;
use vc_object::ObjectId;
use vc_pack::{AnswerFault, answer_want, judge_pack};
use vc_store::Store;

/// From here on there are no files.
pub fn empty(out: &mut String, alloc: Global, files: &mut MemoryFiles) -> Result<(), AllocError> {
    *files = MemoryFiles::new(alloc);
    out.push_str("ok")
}

/// Stores an object, `kind:body`. The answer is its name.
pub fn put(
    out: &mut String,
    alloc: Global,
    files: &mut MemoryFiles,
    text: &str,
) -> Result<(), AllocError> {
    let object = object_of(alloc, text)?;
    match Store::new(alloc, files).put(object.kind, &object.body) {
        Ok(id) => push_id(out, id),
        Err(fault) => write!(out, "{fault}"),
    }
}

/// Stores a file, a path and bytes.
pub fn file(
    out: &mut String,
    alloc: Global,
    files: &mut MemoryFiles,
    text: &str,
) -> Result<(), AllocError> {
    let (path, bytes) = text.split_once(' ').unwrap_or((text, ""));
    let bytes = spelled(alloc, bytes)?;
    match files.put(alloc, path, &bytes) {
        Ok(()) => out.push_str("ok"),
        Err(fault) => write!(out, "{fault}"),
    }
}

// The object that a refusal names.
fn blamed(fault: &AnswerFault) -> Option<ObjectId> {
    match fault {
        AnswerFault::NotOurs(id) => Some(*id),
        AnswerFault::Incomplete(id) => Some(*id),
        AnswerFault::Graph(GraphFault::Missing(id)) => Some(*id),
        _ => None,
    }
}

fn push_refusal(out: &mut String, fault: &AnswerFault) -> Result<(), AllocError> {
    write!(out, "{fault}")?;
    if let Some(id) = blamed(fault) {
        out.push(' ')?;
        push_id(out, id)?;
    }
    Ok(())
}

fn push_pack(out: &mut String, alloc: Global, pack: &Pack) -> Result<(), AllocError> {
    let bytes = pack.write(alloc)?;
    push_bytes(out, &bytes, " ")
}

// What a want is answered, as it is written.
fn told<F: Files>(
    alloc: Global,
    files: &mut F,
    known: &mut Known,
    learns: bool,
    want: &Want,
) -> Result<String, AllocError>
    requires agrees { F.honest → Agrees (objects (F.content files.old)) known.old }
    ensures known { F.honest → Agrees (objects (F.content files.old)) known.new }
    ensures same { F.content files.new ≡ F.content files.old }
{
    let mut out = String::new(alloc);
    match answer_want(alloc, files, known, learns, want) {
        Ok(pack) => push_pack(&mut out, alloc, &pack)?,
        Err(fault) => push_refusal(&mut out, &fault)?,
    }
    Ok(out)
}

// The same if nothing is known; and what is answered otherwise if that is learnt from, and after it was.
fn push_answers<F: Files>(
    out: &mut String,
    alloc: Global,
    files: &mut F,
    want: &Want,
) -> Result<(), AllocError> {
    let first = told(alloc, files, &mut Known::new(alloc), false, want)?;
    let mut known = Known::new(alloc);
    let learning = told(alloc, files, &mut known, true, want)?;
    let again = told(alloc, files, &mut known, true, want)?;
    out.push_str(first.as_str())?;
    for other in [learning.as_str(), again.as_str()] {
        if other != first.as_str() {
            out.push_str(" otherwise ")?;
            out.push_str(other)?;
        }
    }
    Ok(())
}

/// The pack that answers wants and haves, as it is written. The same is asked twice of what learns from it.
pub fn answer(
    out: &mut String,
    alloc: Global,
    files: &mut MemoryFiles,
    text: &str,
) -> Result<(), AllocError> {
    let (wants, haves) = text.split_once(' ').unwrap_or((text, "-"));
    let wants = ids_of(alloc, wants)?;
    let haves = ids_of(alloc, haves)?;
    push_answers(out, alloc, files, &Want { wants, haves })
}

fn push_verdict(
    out: &mut String,
    alloc: Global,
    files: &mut MemoryFiles,
    known: &[ObjectId],
    wants: &[ObjectId],
    pack: &Pack,
) -> Result<(), AllocError> {
    let mut whole = IndexSet::new(alloc);
    for id in known {
        whole.insert(*id)?;
    }
    match judge_pack(alloc, files, whole, wants, pack) {
        Ok(_) => out.push_str("ok"),
        Err(fault) => push_refusal(out, &fault),
    }
}

// The same beyond the known names.
fn judge_beyond(
    out: &mut String,
    alloc: Global,
    files: &mut MemoryFiles,
    known: &[ObjectId],
    text: &str,
) -> Result<(), AllocError> {
    let (wants, pack) = text.split_once(' ').unwrap_or((text, ""));
    let wants = ids_of(alloc, wants)?;
    let pack = spelled(alloc, pack)?;
    match Pack::read(alloc, &pack) {
        Ok(pack) => push_verdict(out, alloc, files, known, &wants, &pack),
        Err(fault) => write!(out, "{fault}"),
    }
}

/// Whether the files and the pack together have all that the wants reach, where nothing is known.
pub fn judge(
    out: &mut String,
    alloc: Global,
    files: &mut MemoryFiles,
    text: &str,
) -> Result<(), AllocError> {
    judge_beyond(out, alloc, files, &[], text)
}

/// The same beyond names that are known to be whole, which the row gives first.
pub fn beyond(
    out: &mut String,
    alloc: Global,
    files: &mut MemoryFiles,
    text: &str,
) -> Result<(), AllocError> {
    let (known, text) = text.split_once(' ').unwrap_or((text, ""));
    let known = ids_of(alloc, known)?;
    judge_beyond(out, alloc, files, &known, text)
}
