//! One message to the shared node, answered in full.
ghost use Rattle.std.specs.Prelude.{◌≡◌, ℕ, Err, IfErr, IfNone, IfOk, false, true};
ghost use Rattle.vc_files.specs.Failures.{Writes};
ghost use Rattle.vc_message.specs.Machine.{IsUnread, Reads};
ghost use Rattle.vc_model.specs.Message.{Message as Sent};
ghost use Rattle.vc_model.specs.Question.Question.{Unread};
ghost use Rattle.vc_model.specs.SharedCall.SharedCall.{Accept, Asks};
ghost use Rattle.vc_local.specs.Clean.{StaysClean};
ghost use Rattle.vc_local.specs.declared.fault.NodeFault.TheVariants.{Down};
ghost use Rattle.vc_server.specs.Coming.{ServesCall, ServesFirst, ServesNext};
ghost use Rattle.vc_server.specs.Refusals.{IsRefusedAnswer, IsRefusedOnTheWay};
ghost use Rattle.vc_server.specs.Replies.{IsReplyOf, IsReplyToBytes};
ghost use Rattle.vc_server.specs.Serving.{RepliesTo, StepsToEnd, report_of};
ghost use Rattle.vc_shared.specs.AcceptFault.{TellsDevice as TellsAcceptDevice, up_after as accept_up_after};
ghost use Rattle.vc_shared.specs.Faults.{TellsDevice, up_after};
ghost use Rattle.vc_shared.specs.Arriving.{KeepsAtLoss};
ghost use Rattle.vc_shared.specs.Node.{KeepsNode};
ghost use Rattle.vc_shared.specs.Slots.{AreTellable};
ghost use Rattle.vc_shared.specs.declared.fault.SharedFault.TheVariants.{Node};

use vc_files::Files;
use vc_message::Source;
use vc_push::MAX_COMMANDS;
use vc_shared::{AcceptFault, Accepted, Shared, SharedFault, Stepped};

// The steps that a push takes at most: its check, the storing of what it carries, an update of each command, and its report.
const MAX_STEPS: usize = MAX_COMMANDS + 3;

// The report, where the step was the last.
fn report_of(stepped: Stepped) -> Option<Vec<u8>>
    ensures { result ≡ report_of stepped }
{
    match stepped {
        Stepped::Finished(report) => Some(report),
        _ => None,
    }
}

// The report of the push that is open in this slot: it is stepped until that is there, or a step refuses.
fn finish<F: Files>(shared: &mut Shared<F>, slot: u8) -> Result<Vec<u8>, SharedFault>
    requires up { shared.old.is_up ≡ true }
    requires tellable { AreTellable shared.old.slots }
    ensures steps { F.honest → StepsToEnd slot result (F.content shared.old.files) (F.content shared.new.files) shared.old.slots shared.new.slots shared.new.is_up }
    ensures bad_file { F.honest → IfErr result (IsRefusedOnTheWay (F.content shared.old.files)) }
    ensures up { shared.new.is_up ≡ up_after result }
    ensures clean { F.honest → StaysClean (F.content shared.old.files) (F.content shared.new.files) }
    ensures wear { Writes F.honest F.content F.failed F.can_fail F.left shared.old.files shared.new.files (TellsDevice result) }
{
    'steps: for _ in 0..MAX_STEPS {
        let stepped = shared.step(slot)?;
        if let Some(report) = report_of(stepped) {
            return Ok(report);
        }
    }
    // Over honest files no push comes here.
    Err(SharedFault::NoSuchSlot)
}

// The reply to what was taken: its bytes, or the report of the push that was opened.
fn reply_to<F: Files>(shared: &mut Shared<F>, accepted: Accepted) -> Result<Vec<u8>, SharedFault>
    requires up { shared.old.is_up ≡ true }
    requires tellable { AreTellable shared.old.slots }
    ensures replies { F.honest → RepliesTo accepted result (F.content shared.old.files) (F.content shared.new.files) shared.old.slots shared.new.slots shared.new.is_up }
    ensures replied { IfOk result (IsReplyOf accepted) }
    ensures bad_file { F.honest → IfErr result (IsRefusedOnTheWay (F.content shared.old.files)) }
    ensures up { shared.new.is_up ≡ up_after result }
    ensures clean { F.honest → StaysClean (F.content shared.old.files) (F.content shared.new.files) }
    ensures wear { Writes F.honest F.content F.failed F.can_fail F.left shared.old.files shared.new.files (TellsDevice result) }
{
    match accepted {
        Accepted::Reply(reply) => Ok(reply),
        Accepted::Slot(slot) => finish(shared, slot),
    }
}

/// Takes the message that is all of the bytes, and answers with the bytes of the reply: a list is answered by the refs, a want by a
/// pack, and a push by its report, after all its steps. Refused are bytes that are no message (80 to 84, or 3), a message that a
/// clone takes (91), a want of what no ref reaches (90), and a push where eight are open (110). After a fault, and after 11, 12 and 33,
/// the node is down, and refuses (112).
pub fn answer<F: Files>(shared: &mut Shared<F>, bytes: &[u8]) -> Result<Vec<u8>, SharedFault>
    ensures answers { F.honest → (m : Sent) → Reads bytes.now m → ServesCall F.content (Accept m) result shared.old shared.new }
    ensures unread { F.honest → (n : ℕ) → IsUnread bytes.now n → ServesCall F.content (Asks (Unread n)) result shared.old shared.new }
    ensures replied { F.honest → IfOk result (IsReplyToBytes (F.content shared.old.files) bytes.now) }
    ensures bad_file { F.honest → IfErr result (IsRefusedAnswer (F.content shared.old.files) shared.old.slots bytes.now) }
    ensures down { shared.old.is_up ≡ false → result ≡ Err (Node Down) }
    ensures up { shared.old.is_up ≡ true → shared.new.is_up ≡ up_after result }
    ensures clean { F.honest → StaysClean (F.content shared.old.files) (F.content shared.new.files) }
    ensures wear { Writes F.honest F.content F.failed F.can_fail F.left shared.old.files shared.new.files (TellsDevice result) }
{
    let accepted = shared.accept(bytes)?;
    reply_to(shared, accepted)
}

/// Takes the next message of the reader, and no byte behind it, and answers with the bytes of the reply, as [`answer`] does with all of
/// the bytes; none where the reader is at its end before the first byte. A message that is refused is read to its end, bytes that are
/// none as far as their first fault, and a reader that fails is 115, which changes nothing. Of a push no more is held than its commands,
/// one line and one object's body. Want of memory takes the node down, as a device that fails does, and as a bad file of its own does.
pub fn answer_from<F: Files, R: Source>(
    shared: &mut Shared<F>,
    reader: &mut R,
) -> Result<Option<Vec<u8>>, AcceptFault>
    ensures serves { ServesNext F.honest F.content (R.remaining reader.old) (R.remaining reader.new) shared.old shared.new result }
    ensures known { ServesFirst F.honest F.content (R.remaining reader.old) (R.remaining reader.new) shared.old shared.new result }
    ensures none { IfOk result (λ found. IfNone found (shared.new ≡ shared.old)) }
    ensures lost { KeepsAtLoss R.failed R.can_fail reader.old reader.new F.honest result (KeepsNode F.content shared.old shared.new) }
    ensures down { shared.old.is_up ≡ false → shared.new ≡ shared.old }
    ensures up { shared.old.is_up ≡ true → shared.new.is_up ≡ accept_up_after result }
    ensures clean { F.honest → StaysClean (F.content shared.old.files) (F.content shared.new.files) }
    ensures wear { Writes F.honest F.content F.failed F.can_fail F.left shared.old.files shared.new.files (TellsAcceptDevice result) }
{
    let Some(accepted) = shared.accept_from(reader)? else {
        return Ok(None);
    };
    let reply = reply_to(shared, accepted)?;
    Ok(Some(reply))
}
