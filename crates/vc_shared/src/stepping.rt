//! A step of the push in a slot.
ghost use Rattle.std.specs.Prelude.{◌≡◌, ◌<◌, IfOk, IfErr, OnErr, Err, None, Some, false, length, slice_set};
ghost use Rattle.vc_history.specs.Stored.{AgreesIn};
ghost use Rattle.vc_files.specs.Failures.{Wears, Writes};
ghost use Rattle.vc_quarantine.specs.Learning.{learnt_in};
ghost use Rattle.vc_shared.specs.Faults.{TellsDevice, is_fault, up_after};
ghost use Rattle.vc_shared.specs.Slots.{AreTellable, AreToldInOne, slot_of};
ghost use Rattle.vc_shared.specs.Stepping.{EndsSlotEarly, HasShortReport, IsEnd, IsHeldThere, IsRefusedIn, MayStepOr, StepsPush, StepsSlot, StepsWell, Tells, left_in};

use crate::SharedFault;
use std::alloc::{AllocError, Global};
use vc_files::Files;
use vc_history::Generations;
use vc_object::ObjectId;
use vc_push::Reason;
use vc_push_rules::Stepped as SessionStep;
use vc_session::{PushSession, SessionFault};

/// What a step did.
#[derive(Drop)]
pub enum Stepped {
    /// The commands were checked, and so many passed.
    Checked(u64),
    /// What the push carries was stored.
    Migrated,
    /// The ref of this name was set, or why it was not.
    Updated(Vec<u8>, Option<Reason>),
    /// The refs of all commands of an atomic push were set, so many.
    Atomic(u64),
    /// No ref of an atomic push was set: the name of the first command that has a cause of its own, and that cause.
    AtomicRefused(Vec<u8>, Reason),
    /// The slot is free, and these bytes are the report.
    Finished(Vec<u8>),
}

// The step of a session, as the node tells it: a report by its bytes.
fn told(alloc: Global, did: SessionStep) -> Result<Stepped, AllocError>
    requires short { HasShortReport did }
    ensures told { IfOk result (Tells did) }
    ensures fault { OnErr result (IsEnd did) }
{
    match did {
        SessionStep::Checked(passed) => Ok(Stepped::Checked(passed)),
        SessionStep::Migrated => Ok(Stepped::Migrated),
        SessionStep::Updated(name, found) => Ok(Stepped::Updated(name, found)),
        SessionStep::Atomic(refs) => Ok(Stepped::Atomic(refs)),
        SessionStep::AtomicRefused(name, reason) => Ok(Stepped::AtomicRefused(name, reason)),
        SessionStep::Finished(report) => Ok(Stepped::Finished(report.write(alloc)?)),
    }
}

// The next step of a push. Before it the node learns what is due, or what will be due is noted.
fn step_push<F: Files>(
    alloc: Global,
    files: &mut F,
    push: &mut PushSession,
    due: &mut Vec<ObjectId>,
    generations: &mut Generations,
) -> Result<Stepped, SharedFault>
    requires tellable { AreToldInOne push.old }
    requires agrees { F.honest → AgreesIn (F.content files.old) generations.old }
    ensures tellable { AreToldInOne push.new }
    ensures good { F.honest → StepsWell (F.content files.old) (F.content files.new) (Some push.old) (learnt_in generations.old due.old) (learnt_in generations.new due.new) (up_after result) }
    ensures steps { F.honest → IsHeldThere (F.content files.old) (Some push.old) → IfOk result (StepsPush (F.content files.old) (F.content files.new) push.old push.new) }
    ensures unchanged { IfErr result (λ e. is_fault e ≡ false → push.new ≡ push.old) }
    ensures early { F.honest → IsHeldThere (F.content files.old) (Some push.old) → OnErr result (EndsSlotEarly (F.content files.old) (F.content files.new) (Some push.old)) }
    ensures refused { F.honest → IfErr result (IsRefusedIn (F.content files.old) (Some push.old)) }
    ensures wear { Writes F.honest F.content F.failed F.can_fail F.left files.old files.new (TellsDevice result) }
    ensures looks { F.honest → MayStepOr (F.content files.old) (Some push.old) (Wears F.failed F.can_fail F.left files.old files.new (TellsDevice result)) }
{
    if let Err(fault) = push.learn(files, alloc, due, generations) {
        return Err(SharedFault::from(SessionFault::Fault(fault)));
    }
    let did = push.step(files, alloc, generations)?;
    Ok(told(alloc, did)?)
}

// The push in this slot is taken out of it.
fn take(slots: &mut [Option<PushSession>; 8], slot: u8) -> Option<PushSession>
    ensures push { result ≡ slot_of slots.old slot }
    ensures left { slots.new ≡ slice_set slots.old slot None }
{
    let place = usize::from(slot);
    if place < slots.len() {
        slots[place].take()
    } else {
        None
    }
}

// The slot has this in it.
fn put(slots: &mut [Option<PushSession>; 8], slot: u8, push: Option<PushSession>)
    requires { slot < length slots.old }
    ensures { slots.new ≡ slice_set slots.old slot push }
{
    slots[usize::from(slot)] = push;
}

// A push that was told its report leaves its slot.
fn left(did: &Result<Stepped, SharedFault>, push: PushSession) -> Option<PushSession>
    ensures { result ≡ left_in did.now push }
{
    match did {
        Ok(Stepped::Finished(_)) => None,
        _ => Some(push),
    }
}

/// The next step of the push in this slot, which is free after its last.
pub(crate) fn step<F: Files>(
    alloc: Global,
    files: &mut F,
    slots: &mut [Option<PushSession>; 8],
    slot: u8,
    due: &mut Vec<ObjectId>,
    generations: &mut Generations,
) -> Result<Stepped, SharedFault>
    requires tellable { AreTellable slots.old }
    requires agrees { F.honest → AgreesIn (F.content files.old) generations.old }
    ensures tellable { AreTellable slots.new }
    ensures good { F.honest → StepsWell (F.content files.old) (F.content files.new) (slot_of slots.old slot) (learnt_in generations.old due.old) (learnt_in generations.new due.new) (up_after result) }
    ensures steps { F.honest → IsHeldThere (F.content files.old) (slot_of slots.old slot) → IfOk result (StepsSlot (F.content files.old) (F.content files.new) slots.old slots.new slot) }
    ensures unchanged { IfErr result (λ e. is_fault e ≡ false → slots.new ≡ slots.old) }
    ensures early { F.honest → IsHeldThere (F.content files.old) (slot_of slots.old slot) → OnErr result (EndsSlotEarly (F.content files.old) (F.content files.new) (slot_of slots.old slot)) }
    ensures refused { F.honest → IfErr result (IsRefusedIn (F.content files.old) (slot_of slots.old slot)) }
    ensures wear { Writes F.honest F.content F.failed F.can_fail F.left files.old files.new (TellsDevice result) }
    ensures looks { F.honest → MayStepOr (F.content files.old) (slot_of slots.old slot) (Wears F.failed F.can_fail F.left files.old files.new (TellsDevice result)) }
{
    let Some(mut push) = take(slots, slot) else {
        return Err(SharedFault::NoSuchSlot);
    };
    let did = step_push(alloc, files, &mut push, due, generations);
    let left = left(&did, push);
    put(slots, slot, left);
    did
}
