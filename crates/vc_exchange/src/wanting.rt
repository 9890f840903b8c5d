//! What a clone asks for: the ids of which not all is there, beside those that it says that it has.
ghost use Rattle.std.specs.Prelude.{◌≡◌, ◌≢◌, ◌≤◌, [], IfOk, IfErr, OnOk, IsErrOf, length, take};
ghost use Rattle.std.specs.List.{AllByRecursion};
ghost use Rattle.vc_tracking.specs.Faults.{BlamesFiles};
ghost use Rattle.vc_tracking.specs.Moving.{told_in};
ghost use Rattle.vc_exchange.specs.Wanting.{AddsOpen, AreHaves, AsksFor, BlamesWanting, WantsOpen};
ghost use Rattle.vc_files.specs.Failures.{Wears};
ghost use Rattle.vc_object_map.specs.Complete.{AreComplete, AreCompleteBeyond};
ghost use Rattle.vc_object.specs.Lines.{IsId};
ghost use Rattle.vc_object_map.specs.Store.{objects};
ghost use Rattle.vc_fetch.specs.Want.{max_ids};

use indexmap::IndexSet;
use std::alloc::{AllocError, Global};
use vc_fetch::{MAX_IDS, Want};
use vc_files::{Fault, Files};
use vc_graph::is_complete_beyond;
use vc_object::ObjectId;
use vc_refs::{list, resolve_head};
use vc_store::Store;
use vc_tracking::ExchangeFault;

// Adds an id to those that are wanted, where not all is there that it reaches, and it is not wanted yet.
fn add_open<F: Files>(
    files: &mut F,
    alloc: Global,
    known: &mut IndexSet<ObjectId>,
    wanted: &mut IndexSet<ObjectId>,
    id: &ObjectId,
) -> Result<(), ExchangeFault>
    ensures added { F.honest → AreComplete (objects (F.content files.old)) known.old.keys → OnOk result (AddsOpen (objects (F.content files.old)) wanted.old.keys wanted.new.keys id.now) }
    ensures known { F.honest → AreCompleteBeyond (objects (F.content files.old)) known.old.keys known.new.keys }
    ensures refused { F.honest → IfErr result (BlamesFiles (F.content files.old)) }
    ensures same { F.content files.new ≡ F.content files.old }
    ensures wear { Wears F.failed F.can_fail F.left files.old files.new (IsErrOf result (ExchangeFault.Fault Fault.Device)) }
{
    if wanted.contains(id) {
        return Ok(());
    }
    let mut store = Store::new(alloc, files);
    if is_complete_beyond(&mut store, known, id)? {
        return Ok(());
    }
    wanted.insert(*id)?;
    Ok(())
}

/// The told ids of which not all is there that they reach, each once, in the order in which they are told: what a clone
/// wants. Each object is read once for all of them, and none of which it is known that all is there that it reaches; more is
/// known after the call.
pub(crate) fn open_ids<F: Files>(
    files: &mut F,
    alloc: Global,
    known: &mut IndexSet<ObjectId>,
    told: &[(Vec<u8>, ObjectId)],
) -> Result<Vec<ObjectId>, ExchangeFault>
    ensures wanted { F.honest → AreComplete (objects (F.content files.old)) known.old.keys → WantsOpen (F.content files.old) (told_in told.now) result }
    ensures known { F.honest → AreCompleteBeyond (objects (F.content files.old)) known.old.keys known.new.keys }
    ensures refused { F.honest → IfErr result (BlamesFiles (F.content files.old)) }
    ensures same { F.content files.new ≡ F.content files.old }
    ensures wear { Wears F.failed F.can_fail F.left files.old files.new (IsErrOf result (ExchangeFault.Fault Fault.Device)) }
{
    let mut wanted = IndexSet::new(alloc);
    for (_, id) in told {
        add_open(files, alloc, known, &mut wanted, id)?;
    }
    let ids = wanted.as_slice().to_vec(alloc)?;
    Ok(ids)
}

/// The first of the ids, as many as a message may name. The caller learns that each is twenty bytes.
pub(crate) fn first_ids(alloc: Global, ids: &[ObjectId]) -> Result<Vec<ObjectId>, AllocError>
    ensures first { IfOk result (λ first. first.items ≡ take max_ids ids.now) }
    ensures ids { IfOk result (λ first. AllByRecursion IsId first.items) }
{
    let count = ids.len().min(MAX_IDS);
    let mut first = Vec::new(alloc);
    for id in &ids[..count] {
        first.push(id.named())?;
    }
    Ok(first)
}

// The values of the refs in order of their names, then HEAD's, each once, the first 256.
fn haves<F: Files>(files: &mut F, alloc: Global) -> Result<Vec<ObjectId>, ExchangeFault>
    ensures haves { F.honest → IfOk result (λ ids. AreHaves (F.content files.old) ids.items) }
    ensures few { IfOk result (λ ids. length ids.items ≤ max_ids) }
    ensures ids { IfOk result (λ ids. AllByRecursion IsId ids.items) }
    ensures refused { F.honest → IfErr result (BlamesWanting (F.content files.old)) }
    ensures same { F.content files.new ≡ F.content files.old }
    ensures wear { Wears F.failed F.can_fail F.left files.old files.new (IsErrOf result (ExchangeFault.Fault Fault.Device)) }
{
    let mut ids = IndexSet::new(alloc);
    for (_, id) in &list(files, alloc)? {
        ids.insert(*id)?;
    }
    if let Some(id) = resolve_head(files, alloc)? {
        ids.insert(id)?;
    }
    let first = first_ids(alloc, ids.as_slice())?;
    Ok(first)
}

/// The message that asks for these ids, at least one and at most 256, and tells what the clone has: the values of its refs in
/// order of their names, then HEAD's, each once, the first 256.
pub(crate) fn want_message<F: Files>(
    files: &mut F,
    alloc: Global,
    wants: &[ObjectId],
) -> Result<Vec<u8>, ExchangeFault>
    requires some { wants.now ≢ [] }
    requires few { length wants.now ≤ max_ids }
    ensures written { F.honest → AsksFor (F.content files.old) wants.now result }
    ensures refused { F.honest → IfErr result (BlamesWanting (F.content files.old)) }
    ensures same { F.content files.new ≡ F.content files.old }
    ensures wear { Wears F.failed F.can_fail F.left files.old files.new (IsErrOf result (ExchangeFault.Fault Fault.Device)) }
{
    let haves = haves(files, alloc)?;
    let wants = first_ids(alloc, wants)?;
    let bytes = Want { wants, haves }.write(alloc)?;
    Ok(bytes)
}
