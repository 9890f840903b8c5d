//! A message that a reader brings to the shared node, whose objects go into the quarantine as they come.
ghost use Rattle.std.specs.Prelude.{◌≡◌, ◌<◌, Bool, IfOk, IfErr, IfNone, IsErrOf, OnErr, OnOk};
ghost use Rattle.vc_files.specs.FileMap.{SameOutside};
ghost use Rattle.vc_files.specs.Failures.{Writes};
ghost use Rattle.vc_known.specs.Known.{Agrees};
ghost use Rattle.vc_message.specs.Source.{TellsFailures};
ghost use Rattle.vc_object_map.specs.Store.{objects};
ghost use Rattle.vc_push.specs.PushView.{commands_of, head_text};
ghost use Rattle.vc_quarantine.specs.Clean.{IsQuarantineClean, MakesNoneBad};
ghost use Rattle.vc_push_rules.specs.Quarantine.{quarantine_folder};
ghost use Rattle.vc_push_rules.specs.Session.{IsSession};
ghost use Rattle.vc_shared.specs.AcceptFault.{TellsDevice};
ghost use Rattle.vc_shared.specs.Arriving.{AcceptsUp, ArrivesIn, FromHead, IsCleared, IsStopped, KeepsAtLoss, KeepsHeld, OpensIn, RefusesPush, down_told, message_told, slot_told};
ghost use Rattle.vc_shared.specs.Holding.{KeepsGood};
ghost use Rattle.vc_shared.specs.Pushing.{AreTellableInOne, ChangesFree};
ghost use Rattle.vc_shared.specs.Slots.{AreTellable};
ghost use Rattle.vc_shared.specs.declared.accept_fault.AcceptFault.TheVariants.{ReadFailed};

use crate::accept_fault::AcceptFault;
use crate::accepting::{self, Accepted};
use crate::fault::SharedFault;
use crate::pushing::lowest_free;
use std::alloc::Global;
use vc_files::{Fault, Files};
use vc_known::Known;
use vc_local::NodeFault;
use vc_message::{
    Head, IncomingFault, Source, Taken, next_object, read_head, skip_pack, skip_push,
};
use vc_push::PushHead;
use vc_quarantine::{Arriving, drop_quarantine};
use vc_session::PushSession;

// The push that comes into this slot, once all of it has come. Where it doesn't, some of what it carries may be left in the slot's
// quarantine. After a body at fault the rest is read, and nothing is put there.
fn arrive<F: Files, R: Source>(
    alloc: Global,
    files: &mut F,
    slot: u8,
    reader: &mut R,
    mut taken: Taken,
    head: PushHead,
) -> Result<PushSession, AcceptFault>
    requires few { taken.lines < taken.bytes }
    ensures arrived { IfOk result (λ s. FromHead (R.remaining reader.old) taken (head_text head) (ArrivesIn F.honest (R.remaining reader.new) (F.content files.new) slot s)) }
    ensures session { IfOk result (λ s. IsSession s × (s.commands ≡ commands_of head.commands.items)) }
    ensures clean { F.honest → OnOk result (IsQuarantineClean (F.content files.new) slot) }
    ensures stopped { IfErr result (λ e. FromHead (R.remaining reader.old) taken (head_text head) (λ before. IsStopped before (R.remaining reader.new) e)) }
    ensures outside { F.honest → SameOutside (quarantine_folder slot) (F.content files.old) (F.content files.new) }
    ensures bad { F.honest → MakesNoneBad (F.content files.old) (F.content files.new) }
    ensures wear { Writes F.honest F.content F.failed F.can_fail F.left files.old files.new (TellsDevice result) }
    ensures failures { TellsFailures R.failed R.can_fail reader.old reader.new (IsErrOf result ReadFailed) }
{
    let mut arriving = Arriving::begin(files, alloc, slot)?;
    'objects: loop {
        let Some(found) = next_object(alloc, reader, &mut taken)? else {
            let PushHead { atomic, commands } = head;
            let session = PushSession::arrived(alloc, arriving, atomic, commands)?;
            return Ok(session);
        };
        arriving.take(files, alloc, &found.1)?;
    }
}

/// Takes the objects of a push from the reader, of which what stands before them was taken, and opens it in the lowest free slot,
/// which is told, once all of it has come. 110 where a push is open in each of the eight: then it is read to its end, and nothing
/// is put anywhere. After a refusal nothing of it is left; after a fault some may be, in that slot's quarantine.
pub(crate) fn take_push<F: Files, R: Source>(
    alloc: Global,
    files: &mut F,
    slots: &mut [Option<PushSession>; 8],
    reader: &mut R,
    taken: Taken,
    head: PushHead,
) -> Result<u8, AcceptFault>
    requires few { taken.lines < taken.bytes }
    requires told { AreTellableInOne (commands_of head.commands.items) }
    requires tellable { AreTellable slots.old }
    ensures tellable { AreTellable slots.new }
    ensures opened { IfOk result (λ k. FromHead (R.remaining reader.old) taken (head_text head) (OpensIn F.honest (R.remaining reader.new) (F.content files.new) slots.old slots.new k)) }
    ensures unchanged { OnErr result (slots.new ≡ slots.old) }
    ensures refused { RefusesPush R.remaining R.failed R.can_fail reader.old reader.new taken (head_text head) slots.old result }
    ensures cleared { F.honest → IfErr result (IsCleared (F.content files.new) slots.old) }
    ensures outside { F.honest → ChangesFree (F.content files.old) (F.content files.new) slots.old }
    ensures good { F.honest → KeepsGood (F.content files.old) (F.content files.new) }
    ensures wear { Writes F.honest F.content F.failed F.can_fail F.left files.old files.new (TellsDevice result) }
{
    let Some(slot) = lowest_free(slots) else {
        skip_push(alloc, reader, taken)?;
        return Err(AcceptFault::Node(SharedFault::Busy));
    };
    match arrive(alloc, files, slot, reader, taken, head) {
        Ok(session) => {
            slots[usize::from(slot)] = Some(session);
            Ok(slot)
        }
        Err(fault) => {
            if fault.is_fault() {
                return Err(fault);
            }
            drop_quarantine(files, alloc, slot)?;
            Err(fault)
        }
    }
}

fn told(accepted: Result<Accepted, SharedFault>) -> Result<Option<Accepted>, AcceptFault>
    ensures { result ≡ message_told accepted }
{
    match accepted {
        Ok(accepted) => Ok(Some(accepted)),
        Err(fault) => Err(AcceptFault::Node(fault)),
    }
}

fn opened(slot: Result<u8, AcceptFault>) -> Result<Option<Accepted>, AcceptFault>
    ensures { result ≡ slot_told slot }
{
    match slot {
        Ok(slot) => Ok(Some(Accepted::Slot(slot))),
        Err(fault) => Err(fault),
    }
}

/// Takes the next message of the reader, and no byte behind it; none where the reader is at its end before the first byte. Only a
/// list, a want and a push are for the shared node: any other message is read to its end all the same.
pub(crate) fn take_next<F: Files, R: Source>(
    alloc: Global,
    files: &mut F,
    slots: &mut [Option<PushSession>; 8],
    known: &mut Known,
    reader: &mut R,
) -> Result<Option<Accepted>, AcceptFault>
    requires tellable { AreTellable slots.old }
    requires agrees { F.honest → Agrees (objects (F.content files.old)) known.old }
    ensures tellable { AreTellable slots.new }
    ensures known { F.honest → Agrees (objects (F.content files.new)) known.new }
    ensures accepts { AcceptsUp F.honest (R.remaining reader.old) (R.remaining reader.new) (F.content files.old) (F.content files.new) slots.old slots.new result }
    ensures none { IfOk result (λ found. IfNone found ((files.new ≡ files.old) × (slots.new ≡ slots.old))) }
    ensures unchanged { OnErr result (slots.new ≡ slots.old) }
    ensures lost { KeepsAtLoss R.failed R.can_fail reader.old reader.new F.honest result ((is_up : Bool) → KeepsHeld (F.content files.old) (F.content files.new) slots.old slots.new is_up is_up) }
    ensures outside { F.honest → ChangesFree (F.content files.old) (F.content files.new) slots.old }
    ensures good { F.honest → KeepsGood (F.content files.old) (F.content files.new) }
    ensures wear { Writes F.honest F.content F.failed F.can_fail F.left files.old files.new (TellsDevice result) }
{
    let Some(found) = read_head(alloc, reader)? else {
        return Ok(None);
    };
    let (head, taken) = found;
    match head {
        Head::Message(message) => told(accepting::take(alloc, files, slots, known, message)),
        Head::Push(asked) => opened(take_push(alloc, files, slots, reader, taken, asked)),
        Head::Pack(_) => {
            skip_pack(alloc, reader, taken)?;
            Err(AcceptFault::Node(SharedFault::Unexpected))
        }
    }
}

/// What a node that is down tells of the next message of a reader, which was read to its end.
pub(crate) fn refuse_down(
    skipped: Result<Option<()>, IncomingFault>,
) -> Result<Option<Accepted>, AcceptFault>
    ensures { result ≡ down_told skipped }
{
    match skipped {
        Ok(Some(_)) => Err(AcceptFault::Node(SharedFault::Node(NodeFault::Down))),
        Ok(None) => Ok(None),
        Err(IncomingFault::Failed) => Err(AcceptFault::ReadFailed),
        Err(IncomingFault::Memory) => Err(AcceptFault::from(Fault::Memory)),
        Err(IncomingFault::Unread(_)) => Err(AcceptFault::Node(SharedFault::Node(NodeFault::Down))),
    }
}
