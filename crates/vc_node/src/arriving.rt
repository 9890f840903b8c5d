// A message that a reader brings to a clone, whose objects go into the quarantine as they come.
ghost use Rattle.std.specs.Prelude.{◌≡◌, ◌<◌, Err, IfErr, IfOk, IsErrOf, OnOk, true};
ghost use Rattle.vc_exchange.specs.Quarantined.{KeepsOthers};
ghost use Rattle.vc_tracking.specs.Storing.{KeepsGood};
ghost use Rattle.vc_files.specs.FileMap.{SameOutside};
ghost use Rattle.vc_files.specs.Failures.{Writes};
ghost use Rattle.vc_history.specs.Stored.{AgreesIn};
ghost use Rattle.vc_message.specs.Source.{TellsFailures, TellsLoss};
ghost use Rattle.vc_quarantine.specs.Clean.{MakesNoneBad};
ghost use Rattle.vc_quarantine.specs.Learning.{learnt_in};
ghost use Rattle.vc_push_rules.specs.Quarantine.{IsDropped, quarantine_folder};
ghost use Rattle.vc_node.specs.Arriving.{Arrives, Comes, FromPack, FromStart, IsStopped, KeepsAtLoss, KeepsHeld, LeavesPack, ReceivesUp, TakesPack, down_told, some_told};
ghost use Rattle.vc_node.specs.Awaited.{awaited_text};
ghost use Rattle.vc_node.specs.Learning.{IfNothing, KeepsAll, LearnsPack, LeavesCome, LeavesNext};
ghost use Rattle.vc_node.specs.ReceiveFault.{TellsDevice, UnlessFault, ends_in_fault};

use crate::CloneFault;
use crate::awaited::Awaited;
use crate::exchanging::{Received, take};
use crate::receive_fault::ReceiveFault;
use std::alloc::Global;
use vc_exchange::{Moves, receive_quarantined};
use vc_files::{Fault, Files};
use vc_history::Generations;
use vc_local::NodeFault;
use vc_message::{
    Head, IncomingFault, Source, Taken, next_object, read_head, skip_pack, skip_push,
};
use vc_object::ObjectId;
use vc_pkt::PktFault;
use vc_quarantine::{Arriving, drop_quarantine};

// The objects of a pack, each of which stands in the quarantine once all of the pack has come. If it doesn't, some may be left
// there. A body out of its kind's grammar is a fault of the pack, and nothing after it is read.
fn arrive<F: Files, R: Source>(
    alloc: Global,
    files: &mut F,
    reader: &mut R,
    mut taken: Taken,
) -> Result<Arriving, ReceiveFault>
    requires few { taken.lines < taken.bytes }
    ensures arrived { IfOk result (λ arrived. FromPack (R.remaining reader.old) taken (λ before. Arrives F.honest before (R.remaining reader.new) (F.content files.new) arrived.names.keys)) }
    ensures stopped { IfErr result (λ e. FromPack (R.remaining reader.old) taken (λ before. IsStopped before (R.remaining reader.new) e)) }
    ensures outside { F.honest → SameOutside (quarantine_folder 0) (F.content files.old) (F.content files.new) }
    ensures bad { F.honest → MakesNoneBad (F.content files.old) (F.content files.new) }
    ensures wear { Writes F.honest F.content F.failed F.can_fail F.left files.old files.new (TellsDevice result) }
    ensures failures { TellsFailures R.failed R.can_fail reader.old reader.new (IsErrOf result ReceiveFault.ReadFailed) }
{
    let mut arriving = Arriving::begin(files, alloc, 0)?;
    'objects: loop {
        let Some(found) = next_object(alloc, reader, &mut taken)? else {
            return Ok(arriving);
        };
        arriving.take(files, alloc, &found.1)?;
        if arriving.fault.is_some() {
            let fault = PktFault::BadRecord(found.0);
            return Err(ReceiveFault::Node(CloneFault::Unread(fault)));
        }
    }
}

// Takes the objects of the pack that brings these wants, of which what stands before them was taken: once all of it has come it is
// judged, stored and followed, and the quarantine emptied. If that isn't done, some may be left there.
fn take_awaited<F: Files, R: Source>(
    alloc: Global,
    files: &mut F,
    wants: &[ObjectId],
    told: &[(Vec<u8>, ObjectId)],
    due: &mut Vec<ObjectId>,
    generations: &mut Generations,
    reader: &mut R,
    taken: Taken,
) -> Result<Moves, ReceiveFault>
    requires few { taken.lines < taken.bytes }
    requires agrees { F.honest → AgreesIn (F.content files.old) generations.old }
    ensures taken { IfOk result (λ moves. FromPack (R.remaining reader.old) taken (TakesPack F.honest F.content (R.remaining reader.new) files.old files.new wants.now told.now moves)) }
    ensures left { IfErr result (λ e. FromPack (R.remaining reader.old) taken (LeavesPack F.honest F.content (R.remaining reader.new) files.old files.new wants.now told.now e)) }
    ensures learns { F.honest → LearnsPack F.content result files.old files.new (learnt_in generations.old due.old) (learnt_in generations.new due.new) }
    ensures dropped { F.honest → OnOk result (IsDropped 0 (F.content files.new)) }
    ensures beside { F.honest → KeepsOthers (F.content files.old) (F.content files.new) }
    ensures good { F.honest → KeepsGood (F.content files.old) (F.content files.new) }
    ensures wear { Writes F.honest F.content F.failed F.can_fail F.left files.old files.new (TellsDevice result) }
    ensures failures { TellsFailures R.failed R.can_fail reader.old reader.new (IsErrOf result ReceiveFault.ReadFailed) }
{
    let arrived = arrive(alloc, files, reader, taken)?;
    let moves = receive_quarantined(
        files,
        alloc,
        wants,
        told,
        arrived.names.as_slice(),
        due,
        generations,
    )?;
    Ok(moves)
}

// The same of a clone, whatever it awaits: a pack that isn't awaited is read to its end, and nothing of it is put anywhere (91).
// After a refusal nothing of it is left; after a fault some may be, in the quarantine.
fn take_pack<F: Files, R: Source>(
    alloc: Global,
    files: &mut F,
    awaited: &mut Awaited,
    due: &mut Vec<ObjectId>,
    generations: &mut Generations,
    reader: &mut R,
    taken: Taken,
) -> Result<Received, ReceiveFault>
    requires few { taken.lines < taken.bytes }
    requires agrees { F.honest → AgreesIn (F.content files.old) generations.old }
    ensures comes { FromPack (R.remaining reader.old) taken (Comes F.honest F.content (R.remaining reader.new) files.old files.new awaited.old awaited.new result) }
    ensures leaves { LeavesCome F.honest F.content result files.old files.new awaited.old awaited.new (learnt_in generations.old due.old) (learnt_in generations.new due.new) }
    ensures cleared { F.honest → UnlessFault result (IsDropped 0 (F.content files.old) → IsDropped 0 (F.content files.new)) }
    ensures beside { F.honest → KeepsOthers (F.content files.old) (F.content files.new) }
    ensures good { F.honest → KeepsGood (F.content files.old) (F.content files.new) }
    ensures wear { Writes F.honest F.content F.failed F.can_fail F.left files.old files.new (TellsDevice result) }
    ensures failures { TellsLoss R.failed R.can_fail reader.old reader.new (IsErrOf result ReceiveFault.ReadFailed) (ends_in_fault result ≡ true) }
{
    let Awaited::Pack(wants, refs) = awaited else {
        skip_pack(alloc, reader, taken)?;
        return Err(ReceiveFault::Node(CloneFault::Unexpected));
    };
    match take_awaited(alloc, files, wants, refs, due, generations, reader, taken) {
        Ok(moves) => {
            *awaited = Awaited::Nothing;
            Ok(Received::Moved {
                moved: moves.moved,
                left: moves.left,
            })
        }
        Err(fault) => {
            if fault.is_fault() {
                return Err(fault);
            }
            drop_quarantine(files, alloc, 0)?;
            Err(fault)
        }
    }
}

/// Takes the rest of a message from the reader, of which this came: all of it, or what stands before its objects. What it takes is
/// awaited no longer; a refusal leaves it awaited, and nothing in the quarantine. A push is none for a clone, and is read to its end.
pub(crate) fn take_rest<F: Files, R: Source>(
    alloc: Global,
    files: &mut F,
    awaited: &mut Awaited,
    due: &mut Vec<ObjectId>,
    generations: &mut Generations,
    reader: &mut R,
    head: Head,
    taken: Taken,
) -> Result<Received, ReceiveFault>
    requires few { taken.lines < taken.bytes }
    requires agrees { F.honest → AgreesIn (F.content files.old) generations.old }
    ensures comes { FromStart (R.remaining reader.old) head taken (Comes F.honest F.content (R.remaining reader.new) files.old files.new awaited.old awaited.new result) }
    ensures leaves { LeavesCome F.honest F.content result files.old files.new awaited.old awaited.new (learnt_in generations.old due.old) (learnt_in generations.new due.new) }
    ensures cleared { F.honest → UnlessFault result (IsDropped 0 (F.content files.old) → IsDropped 0 (F.content files.new)) }
    ensures beside { F.honest → KeepsOthers (F.content files.old) (F.content files.new) }
    ensures good { F.honest → KeepsGood (F.content files.old) (F.content files.new) }
    ensures wear { Writes F.honest F.content F.failed F.can_fail F.left files.old files.new (TellsDevice result) }
    ensures failures { TellsLoss R.failed R.can_fail reader.old reader.new (IsErrOf result ReceiveFault.ReadFailed) (ends_in_fault result ≡ true) }
{
    match head {
        Head::Message(message) => {
            let received = take(alloc, files, awaited, due, generations, message)?;
            Ok(received)
        }
        Head::Push(_) => {
            skip_push(alloc, reader, taken)?;
            Err(ReceiveFault::Node(CloneFault::Unexpected))
        }
        Head::Pack(_) => take_pack(alloc, files, awaited, due, generations, reader, taken),
    }
}

// What is told of a message of which some came.
fn told(received: Result<Received, ReceiveFault>) -> Result<Option<Received>, ReceiveFault>
    ensures { result ≡ some_told received }
{
    match received {
        Ok(received) => Ok(Some(received)),
        Err(fault) => Err(fault),
    }
}

/// Takes the next message of the reader, by a clone that is up. What it takes is awaited no longer; a refusal leaves it awaited, and
/// nothing in the quarantine.
pub(crate) fn take_next<F: Files, R: Source>(
    alloc: Global,
    files: &mut F,
    awaited: &mut Awaited,
    due: &mut Vec<ObjectId>,
    generations: &mut Generations,
    reader: &mut R,
) -> Result<Option<Received>, ReceiveFault>
    requires agrees { F.honest → AgreesIn (F.content files.old) generations.old }
    ensures receives { ReceivesUp F.honest (R.remaining reader.old) (R.remaining reader.new) (F.content files.old) (F.content files.new) (awaited_text awaited.old) (awaited_text awaited.new) result }
    ensures none { IfNothing result (KeepsAll files.old files.new awaited.old awaited.new (learnt_in generations.old due.old) (learnt_in generations.new due.new)) }
    ensures lost { KeepsAtLoss R.failed R.can_fail reader.old reader.new F.honest result (KeepsHeld (F.content files.old) (F.content files.new) (awaited_text awaited.old) (awaited_text awaited.new) true true) }
    ensures leaves { LeavesNext F.honest F.content result files.old files.new awaited.old awaited.new (learnt_in generations.old due.old) (learnt_in generations.new due.new) }
    ensures cleared { F.honest → UnlessFault result (IsDropped 0 (F.content files.old) → IsDropped 0 (F.content files.new)) }
    ensures beside { F.honest → KeepsOthers (F.content files.old) (F.content files.new) }
    ensures good { F.honest → KeepsGood (F.content files.old) (F.content files.new) }
    ensures wear { Writes F.honest F.content F.failed F.can_fail F.left files.old files.new (TellsDevice result) }
{
    let Some(found) = read_head(alloc, reader)? else {
        return Ok(None);
    };
    let (head, taken) = found;
    let received = take_rest(alloc, files, awaited, due, generations, reader, head, taken);
    told(received)
}

/// What a clone that is down tells of a message that was read to its end, and of why none was.
pub(crate) fn refuse_down(
    skipped: Result<Option<()>, IncomingFault>,
) -> Result<Option<Received>, ReceiveFault>
    ensures { result ≡ down_told skipped }
{
    match skipped {
        Ok(Some(_)) => Err(ReceiveFault::Node(CloneFault::Node(NodeFault::Down))),
        Ok(None) => Ok(None),
        Err(IncomingFault::Failed) => Err(ReceiveFault::ReadFailed),
        Err(IncomingFault::Memory) => Err(ReceiveFault::from(Fault::Memory)),
        Err(IncomingFault::Unread(_)) => Err(ReceiveFault::Node(CloneFault::Node(NodeFault::Down))),
    }
}
