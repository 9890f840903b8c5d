//! Rows that set several refs at once.
ghost use Rattle.std.specs.Prelude.{IfOk};
ghost use Rattle.vc_refs.specs.RefMap.{IsInRefs};
ghost use Rattle.vc_refs.specs.SetAll.{AreNamedInRefs};

use crate::answers::{Answer, done};
use crate::ids::{id_in, two};
use crate::ref_rows::{name_of, refusal};
use anyhow::anyhow;
use std::alloc::Global;
use vc_files::Files;
use vc_refs::{RefChange, Refs, SetAllFault};

/// A row has changes, parted by `, `, or none at all: each has a name, the id that it should have, and the one that it is to have,
/// where `-` is none. The answer to a change that is refused has its place.
pub fn obey<F: Files>(refs: &mut Refs<'_, F>, alloc: Global, text: &str) -> Answer {
    let changes = changes_of(alloc, text)?;
    match refs.set_all(&changes) {
        Ok(()) => done(alloc),
        Err(SetAllFault::At(place, fault)) => {
            let told = refusal(&fault);
            Err(anyhow!("{told} at {place}"))
        }
        Err(SetAllFault::Whole(fault)) => Err(refusal(&fault)),
    }
}

fn changes_of(alloc: Global, text: &str) -> anyhow::Result<Vec<RefChange>>
    ensures { IfOk result (λ changes. AreNamedInRefs changes.items) }
{
    let mut changes = Vec::new(alloc);
    if text.is_empty() {
        return Ok(changes);
    }
    for part in text.split(", ") {
        let change = change_of(alloc, part)?;
        changes.push(change)?;
    }
    Ok(changes)
}

fn change_of(alloc: Global, text: &str) -> anyhow::Result<RefChange>
    ensures { IfOk result (λ change. IsInRefs change.name) }
{
    let (name, ids) = two(text);
    let name = name_of(alloc, name)?;
    let (old, new) = two(ids);
    let expected = id_in(alloc, old)?;
    let new = id_in(alloc, new)?;
    Ok(RefChange {
        name,
        expected,
        new,
    })
}
