//! Rows on what objects reach, and on ancestry.
use crate::answers::{Answer, blaming, id_or_none, listed, yes_or_no};
use crate::ids::{Shown, ids_of};
use crate::{generation_rows, verdict_rows};
use anyhow::bail;
use indexmap::IndexSet;
use std::alloc::{AllocError, Global};
use vc_graph::{
    GraphFault, closure, difference, first_incomplete, is_complete, is_complete_beyond,
    learn_links, present,
};
use vc_history::{Generations, HistoryFault, is_ancestor, is_history, is_history_beyond};
use vc_object::ObjectId;
use vc_object_map::{Commits, Objects};
use vc_selection::{commits, common_ancestors, merge_bases};

// The ids of a row, and after the word `without` those that are excluded.
#[derive(Drop)]
struct Sides {
    include: Vec<ObjectId>,
    exclude: Vec<ObjectId>,
}

impl Sides {
    fn new(alloc: Global, text: &str) -> anyhow::Result<Sides> {
        let (include, exclude) = text.split_once("without ").unwrap_or((text, ""));
        Ok(Sides {
            include: ids_of(alloc, include)?,
            exclude: ids_of(alloc, exclude)?,
        })
    }

    // The id at a place, or zeros.
    fn at(&self, place: usize) -> ObjectId {
        self.include.get(place).copied().unwrap_or(ObjectId::ZERO)
    }
}

/// A row on commits, where the generations of some may be known.
pub fn obey_commits<C: Commits>(
    source: &mut C,
    alloc: Global,
    verb: &str,
    rest: &str,
    generations: &Generations,
) -> Answer {
    match verb {
        "verdict" => verdict_rows::obey(source, alloc, rest, generations),
        "generations" => generation_rows::obey(source, alloc, rest),
        _ => ask_commits(source, alloc, verb, &Sides::new(alloc, rest)?, generations),
    }
}

fn ask_commits<C: Commits>(
    source: &mut C,
    alloc: Global,
    verb: &str,
    sides: &Sides,
    generations: &Generations,
) -> Answer {
    let (a, b) = (sides.at(0), sides.at(1));
    let found = match verb {
        "ancestor" => {
            let yes = is_ancestor(alloc, source, &a, &b, generations);
            return yes_or_no(alloc, told_base(yes)?);
        }
        "history" => return yes_or_no(alloc, is_history(alloc, source, &a)?),
        "history-beyond" => return history_beyond(source, alloc, &a, &sides.exclude),
        "bases" => merge_bases(alloc, source, &a, &b, generations),
        "common" => common_ancestors(alloc, source, &a, &b),
        "commits" => commits(alloc, source, &sides.include, &sides.exclude, generations),
        _ => return ask(source, alloc, verb, sides),
    };
    listed(alloc, &told_base(found)?)
}

fn history_beyond<C: Commits>(
    source: &mut C,
    alloc: Global,
    root: &ObjectId,
    known: &[ObjectId],
) -> Answer {
    let mut known = set_of(alloc, known)?;
    let whole = is_history_beyond(source, &mut known, root)?;
    beyond(alloc, whole, &known)
}

fn ask<O: Objects>(source: &mut O, alloc: Global, verb: &str, sides: &Sides) -> Answer {
    let found = match verb {
        "closure" => closure(alloc, source, &sides.include),
        "difference" => difference(alloc, source, &sides.include, &sides.exclude),
        "present" => return listed(alloc, &present(alloc, source, &sides.include)?),
        "complete" => return yes_or_no(alloc, is_complete(alloc, source, &sides.at(0))?),
        "complete-beyond" => {
            return complete_beyond(source, alloc, &sides.at(0), &sides.exclude);
        }
        "learn" => return learn(source, alloc, sides),
        "incomplete" => {
            return id_or_none(alloc, first_incomplete(alloc, source, &sides.include)?);
        }
        _ => bail!("no such verb"),
    };
    listed(alloc, &told(found)?)
}

fn complete_beyond<O: Objects>(
    source: &mut O,
    alloc: Global,
    root: &ObjectId,
    known: &[ObjectId],
) -> Answer {
    let mut known = set_of(alloc, known)?;
    let whole = is_complete_beyond(source, &mut known, root)?;
    beyond(alloc, whole, &known)
}

fn learn<O: Objects>(source: &mut O, alloc: Global, sides: &Sides) -> Answer {
    let mut known = set_of(alloc, &sides.exclude)?;
    learn_links(source, &mut known, &sides.include)?;
    listed(alloc, known.as_slice())
}

// Names that a row says are known.
fn set_of(alloc: Global, ids: &[ObjectId]) -> Result<IndexSet<ObjectId>, AllocError> {
    let mut set = IndexSet::new(alloc);
    set.extend(ids)?;
    Ok(set)
}

// Whether a walk beyond known names found all, and what is known then.
fn beyond(alloc: Global, whole: bool, known: &IndexSet<ObjectId>) -> Answer {
    let names = listed(alloc, known.as_slice())?;
    let yes = if whole { "yes" } else { "no" };
    Ok(format!(in alloc; "{yes}, {names}")?)
}

fn told<T>(answer: Result<T, GraphFault>) -> anyhow::Result<T> {
    match answer {
        Ok(value) => Ok(value),
        Err(fault) => Err(match &fault {
            GraphFault::Missing(id) => blaming(&fault, &Shown(*id)),
            GraphFault::Store(_) => fault.into(),
        }),
    }
}

pub fn told_base<T>(answer: Result<T, HistoryFault>) -> anyhow::Result<T> {
    match answer {
        Ok(value) => Ok(value),
        Err(fault) => Err(match &fault {
            HistoryFault::Missing(id) | HistoryFault::NotACommit(id) => {
                blaming(&fault, &Shown(*id))
            }
            HistoryFault::Store(_) => fault.into(),
        }),
    }
}
