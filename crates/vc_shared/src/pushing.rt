//! A push that comes to the shared node is opened in the lowest free slot.
ghost use Rattle.std.specs.Prelude.{◌≡◌, IfOk, IfErr, OnErr};
ghost use Rattle.vc_files.specs.Failures.{Writes};
ghost use Rattle.vc_push.specs.PushView.{push_text};
ghost use Rattle.vc_shared.specs.Faults.{TellsDevice};
ghost use Rattle.vc_shared.specs.Holding.{KeepsGood};
ghost use Rattle.vc_shared.specs.Pushing.{AreTellableInOne, ChangesFree, FindsFree, IsRefusedPush, OpensSlot, PushAnswers, ReadsTellable};
ghost use Rattle.vc_shared.specs.Slots.{AreTellable};

use crate::SharedFault;
use std::alloc::Global;
use vc_files::Files;
use vc_push::Push;
use vc_session::{PushSession, SessionFault};

/// The lowest slot in which no push is open.
pub(crate) fn lowest_free(slots: &[Option<PushSession>; 8]) -> Option<u8>
    ensures { FindsFree slots.now result }
{
    for slot in 0u8..8 {
        if slots[usize::from(slot)].is_none() {
            return Some(slot);
        }
    }
    None
}

/// Opens a push in the lowest free slot, which is told; 110 where a push is open in each of the eight. After a fault that
/// slot's quarantine may hold some of what the push carries.
pub(crate) fn open_push<F: Files>(
    alloc: Global,
    files: &mut F,
    slots: &mut [Option<PushSession>; 8],
    push: Push,
) -> Result<u8, SharedFault>
    requires told { AreTellableInOne (push_text push).commands }
    requires tellable { AreTellable slots.old }
    ensures tellable { AreTellable slots.new }
    ensures opened { F.honest → IfOk result (OpensSlot (F.content files.new) slots.old slots.new (push_text push)) }
    ensures unchanged { OnErr result (slots.new ≡ slots.old) }
    ensures refused { IfErr result (IsRefusedPush slots.old) }
    ensures outside { F.honest → ChangesFree (F.content files.old) (F.content files.new) slots.old }
    ensures good { F.honest → KeepsGood (F.content files.old) (F.content files.new) }
    ensures wear { Writes F.honest F.content F.failed F.can_fail F.left files.old files.new (TellsDevice result) }
{
    let Some(slot) = lowest_free(slots) else {
        return Err(SharedFault::Busy);
    };
    match PushSession::new(files, alloc, slot, push) {
        Ok(session) => {
            slots[usize::from(slot)] = Some(session);
            Ok(slot)
        }
        Err(fault) => Err(SharedFault::from(SessionFault::Fault(fault))),
    }
}

/// A message that is read as a push can be told of, and its opening is the machine's: at a node that is up it is open in the
/// lowest free slot with all that it carries, or refused (110) where none is free; a fault leaves the repository as it was,
/// and the node down.
pub fn a_push_is_opened_as_the_machine_does()
    ensures told { ReadsTellable }
    ensures answers { PushAnswers }
{}
