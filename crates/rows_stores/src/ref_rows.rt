//! Rows on refs and HEAD.
ghost use Rattle.std.specs.Prelude.{IfOk};
ghost use Rattle.vc_refs.specs.Head.{IsHeadInRefs};
ghost use Rattle.vc_refs.specs.RefMap.{IsInRefs};

use crate::answers::{Answer, blaming, done, id_or_none, or_nothing, push_item, word};
use crate::ids::{Shown, id_in, id_of, two};
use crate::{change_rows, graph_rows, packed_rows};
use anyhow::{anyhow, bail};
use std::alloc::{AllocError, Global};
use std::fmt::Write;
use vc_files::Files;
use vc_history::Generations;
use vc_object::ObjectId;
use vc_refname::RefName;
use vc_refs::{Head, RefFault, Refs, read_all};
use vc_store::Store;

pub fn obey<F: Files>(files: &mut F, alloc: Global, verb: &str, rest: &str) -> Answer {
    let mut refs = Refs::new(alloc, files);
    let answer = match verb {
        "refs" => return listed(alloc, &told(refs.list())?),
        "read-refs" => return packed_rows::listed(alloc, &told(read_all(files, alloc))?),
        "head" => return head_text(alloc, told(refs.head())?),
        "resolve-head" => return id_or_none(alloc, told(refs.resolve_head())?),
        "set-head" => refs.set_head(&head_of(alloc, rest)?),
        "pack-refs" => refs.pack(),
        "set-all" => return change_rows::obey(&mut refs, alloc, rest),
        "ref" | "conflict" | "set" | "delete" => return obey_named(&mut refs, alloc, verb, rest),
        _ => return obey_commits(files, alloc, verb, rest),
    };
    told(answer)?;
    done(alloc)
}

fn obey_commits<F: Files>(files: &mut F, alloc: Global, verb: &str, rest: &str) -> Answer {
    let none = Generations::new(alloc);
    graph_rows::obey_commits(&mut Store::new(alloc, files), alloc, verb, rest, &none)
}

// Rows with a ref's name, and some with its old id and its new one.
fn obey_named<F: Files>(refs: &mut Refs<'_, F>, alloc: Global, verb: &str, rest: &str) -> Answer {
    let (name, ids) = two(rest);
    let name = name_of(alloc, name)?;
    let (old, new) = two(ids);
    let old = id_in(alloc, old)?;
    let answer = match verb {
        "ref" => return id_or_none(alloc, told(refs.get(&name))?),
        "conflict" => refs.refuse_conflict(&name),
        "delete" => refs.remove(&name, old),
        _ => refs.set(&name, old, id_of(alloc, new)?),
    };
    told(answer)?;
    done(alloc)
}

// What a call gave, or its refusal with what it tells.
fn told<T>(answer: Result<T, RefFault>) -> anyhow::Result<T> {
    match answer {
        Ok(value) => Ok(value),
        Err(fault) => Err(refusal(&fault)),
    }
}

/// A refusal with what it tells.
pub fn refusal(fault: &RefFault) -> anyhow::Error {
    match fault {
        RefFault::Stale(Some(id)) => blaming(fault, &Shown(*id)),
        RefFault::Stale(None) => blaming(fault, &"none"),
        RefFault::Conflict(name) => blaming(fault, name),
        RefFault::BadRefFile(path) => blaming(fault, path),
        RefFault::HeadLoop | RefFault::Fault(_) => anyhow!("{fault}"),
    }
}

/// The name of a ref.
pub fn name_of(alloc: Global, text: &str) -> anyhow::Result<RefName>
    ensures { IfOk result (λ name. IsInRefs name) }
{
    let name = RefName::new(alloc, text)?;
    if !name.in_refs() {
        bail!("outside refs/");
    }
    Ok(name)
}

fn head_of(alloc: Global, text: &str) -> anyhow::Result<Head>
    ensures { IfOk result (λ head. IsHeadInRefs head) }
{
    if let Some(id) = ObjectId::from_hex(text.as_bytes()) {
        return Ok(Head::Id(id));
    }
    let name = name_of(alloc, text)?;
    Ok(Head::Branch(name))
}

fn head_text(alloc: Global, head: Option<Head>) -> Answer {
    match head {
        Some(Head::Branch(name)) => word(alloc, name.as_str()),
        Some(Head::Id(id)) => id_or_none(alloc, Some(id)),
        None => word(alloc, "none"),
    }
}

fn listed(alloc: Global, refs: &[(RefName, ObjectId)]) -> Answer {
    let mut list = String::new(alloc);
    for (name, id) in refs {
        push_ref(&mut list, name, *id)?;
    }
    or_nothing(list)
}

/// Writes a ref after those of a list.
pub fn push_ref(list: &mut String, name: &RefName, id: ObjectId) -> Result<(), AllocError> {
    push_item(list, ", ", name)?;
    write!(list, " {}", Shown(id))
}
