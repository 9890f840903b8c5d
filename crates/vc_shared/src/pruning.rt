//! A prune of the shared node: the stored objects go that nothing needs, whatever pushes are open.
ghost use Rattle.std.specs.Prelude.{◌≡◌, IfErr, IfOk, OnOk};
ghost use Rattle.vc_files.specs.Failures.{Wears, Writes};
ghost use Rattle.vc_local.specs.NodeFault.{TellsDevice};
ghost use Rattle.vc_object.specs.ObjectId.{IsSortedByName};
ghost use Rattle.vc_shared.specs.Pruning.{AddsBySlots, AddsInSlot, BlamesNeeds, BlamesSlot, BlamesSlots, EndsPrune, KeepsNeeded, PrunesAll};

use std::alloc::Global;
use vc_files::Files;
use vc_local::NodeFault;
use vc_object::ObjectId;
use vc_object_map::{add_names, sorted_from};
use vc_pruning::{KeptNames, needed, remove_others};
use vc_session::PushSession;

// Adds the names that the push in a slot needs, or none if it is free.
fn add_in_slot<F: Files>(
    alloc: Global,
    files: &mut F,
    slot: &Option<PushSession>,
    kept: &mut KeptNames,
) -> Result<(), NodeFault>
    ensures added { F.honest → OnOk result (AddsInSlot (F.content files.old) slot.now kept.old.keys kept.new.keys) }
    ensures refused { F.honest → IfErr result (BlamesSlot (F.content files.old) slot.now) }
    ensures same { F.content files.new ≡ F.content files.old }
    ensures wear { Wears F.failed F.can_fail F.left files.old files.new (TellsDevice result) }
{
    let Some(push) = slot else {
        return Ok(());
    };
    let names = push.names_needed(files, alloc)?;
    add_names(kept, &names)?;
    Ok(())
}

// The same of all slots.
fn add_by_slots<F: Files>(
    alloc: Global,
    files: &mut F,
    slots: &[Option<PushSession>; 8],
    kept: &mut KeptNames,
) -> Result<(), NodeFault>
    ensures added { F.honest → OnOk result (AddsBySlots (F.content files.old) slots.now kept.old.keys kept.new.keys) }
    ensures refused { F.honest → IfErr result (BlamesSlots (F.content files.old) slots.now) }
    ensures same { F.content files.new ≡ F.content files.old }
    ensures wear { Wears F.failed F.can_fail F.left files.old files.new (TellsDevice result) }
{
    for i in 0..slots.len() {
        add_in_slot(alloc, files, &slots[i], kept)?;
    }
    Ok(())
}

// The names that are kept, sorted: those that the repository's own roots need, and those that the open pushes need.
fn needed_names<F: Files>(
    alloc: Global,
    files: &mut F,
    slots: &[Option<PushSession>; 8],
) -> Result<Vec<ObjectId>, NodeFault>
    ensures needed { F.honest → IfOk result (λ ids. KeepsNeeded (F.content files.old) slots.now ids.items) }
    ensures sorted { IfOk result (λ ids. IsSortedByName ids.items) }
    ensures refused { F.honest → IfErr result (BlamesNeeds (F.content files.old) slots.now) }
    ensures same { F.content files.new ≡ F.content files.old }
    ensures wear { Wears F.failed F.can_fail F.left files.old files.new (TellsDevice result) }
{
    let rooted = needed(alloc, files)?;
    let mut kept = KeptNames::new(alloc);
    add_names(&mut kept, &rooted)?;
    add_by_slots(alloc, files, slots, &mut kept)?;
    let names = sorted_from(alloc, &kept, 0)?;
    Ok(names)
}

/// Takes away each stored object that neither the roots of the repository nor an open push need, and returns how many these were.
pub(crate) fn prune<F: Files>(
    alloc: Global,
    files: &mut F,
    slots: &[Option<PushSession>; 8],
) -> Result<u64, NodeFault>
    ensures pruned { F.honest → IfOk result (PrunesAll (F.content files.old) slots.now (F.content files.new)) }
    ensures early { F.honest → IfErr result (EndsPrune (F.content files.old) slots.now (F.content files.new)) }
    ensures refused { F.honest → IfErr result (BlamesNeeds (F.content files.old) slots.now) }
    ensures wear { Writes F.honest F.content F.failed F.can_fail F.left files.old files.new (TellsDevice result) }
{
    let kept = needed_names(alloc, files, slots)?;
    let removed = remove_others(alloc, files, &kept)?;
    Ok(removed)
}
