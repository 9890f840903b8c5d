//! A message that comes to the shared node.
ghost use Rattle.std.specs.Prelude.{◌≡◌, ◌⊎◌, ℕ, IfErr, IfOk, OnErr};
ghost use Rattle.vc_files.specs.Failures.{Wears, Writes};
ghost use Rattle.vc_known.specs.Known.{Agrees};
ghost use Rattle.vc_message.specs.AnyView.{message_text};
ghost use Rattle.vc_message.specs.Machine.{IsUnread, Reads, TextOf};
ghost use Rattle.vc_message.specs.Read.{WasRead};
ghost use Rattle.vc_model.specs.Message.{Message as Sent};
ghost use Rattle.vc_model.specs.Question.Question.{Unread};
ghost use Rattle.vc_model.specs.SharedCall.SharedCall.{Accept, Asks};
ghost use Rattle.vc_object_map.specs.Store.{objects};
ghost use Rattle.vc_shared.specs.Accepting.{AnswersUp, IsAnsweredBytes, IsAnsweredMessage, IsRefusedBytes, IsRefusedMessage, IsToWrite};
ghost use Rattle.vc_shared.specs.Faults.{TellsDevice};
ghost use Rattle.vc_shared.specs.Holding.{KeepsGood};
ghost use Rattle.vc_shared.specs.Pushing.{ChangesFree, slot_reply};
ghost use Rattle.vc_shared.specs.Serving.{reply_of};
ghost use Rattle.vc_shared.specs.Slots.{AreTellable};

use crate::SharedFault;
use crate::pushing::open_push;
use crate::serving::{answer, list};
use std::alloc::Global;
use vc_files::Files;
use vc_known::Known;
use vc_message::Message;
use vc_session::PushSession;

/// What came of a message that was taken.
#[derive(Drop)]
pub enum Accepted {
    /// A list or a want is answered by these bytes.
    Reply(Vec<u8>),
    /// A push is open in this slot, 0 to 7.
    Slot(u8),
}

fn replied(answered: Result<Vec<u8>, SharedFault>) -> Result<Accepted, SharedFault>
    ensures { result ≡ reply_of answered }
{
    match answered {
        Ok(bytes) => Ok(Accepted::Reply(bytes)),
        Err(fault) => Err(fault),
    }
}

fn opened(slot: Result<u8, SharedFault>) -> Result<Accepted, SharedFault>
    ensures { result ≡ slot_reply slot }
{
    match slot {
        Ok(slot) => Ok(Accepted::Slot(slot)),
        Err(fault) => Err(fault),
    }
}

/// A message that was read. Only a list, a want and a push are for the shared node.
pub(crate) fn take<F: Files>(
    alloc: Global,
    files: &mut F,
    slots: &mut [Option<PushSession>; 8],
    known: &mut Known,
    message: Message,
) -> Result<Accepted, SharedFault>
    requires read { WasRead (message_text message) }
    requires tellable { AreTellable slots.old }
    requires agrees { F.honest → Agrees (objects (F.content files.old)) known.old }
    ensures tellable { AreTellable slots.new }
    ensures known { F.honest → Agrees (objects (F.content files.new)) known.new }
    ensures answers { F.honest → (m : Sent) → TextOf m (message_text message) → AnswersUp (Accept m) result (F.content files.old) (F.content files.new) slots.old slots.new }
    ensures answered { F.honest → IfOk result (IsAnsweredMessage (F.content files.old) (F.content files.new) slots.old slots.new (message_text message)) }
    ensures unchanged { OnErr result (slots.new ≡ slots.old) }
    ensures refused { F.honest → IfErr result (IsRefusedMessage (F.content files.old) slots.old (message_text message)) }
    ensures outside { F.honest → ChangesFree (F.content files.old) (F.content files.new) slots.old }
    ensures good { F.honest → KeepsGood (F.content files.old) (F.content files.new) }
    ensures wear { Writes F.honest F.content F.failed F.can_fail F.left files.old files.new (TellsDevice result) }
    ensures looks { (m : Sent) → TextOf m (message_text message) → IsToWrite m ⊎ Wears F.failed F.can_fail F.left files.old files.new (TellsDevice result) }
{
    match message {
        Message::List(_) => replied(list(alloc, files)),
        Message::Want(want) => replied(answer(alloc, files, known, &want)),
        Message::Push(push) => opened(open_push(alloc, files, slots, push)),
        Message::Advert(_) => Err(SharedFault::Unexpected),
        Message::Pack(_) => Err(SharedFault::Unexpected),
        Message::Report(_) => Err(SharedFault::Unexpected),
        Message::Error(_) => Err(SharedFault::Unexpected),
    }
}

/// Takes the message that is all of the bytes: a list and a want are answered, a push is opened in the lowest free slot.
pub(crate) fn accept<F: Files>(
    alloc: Global,
    files: &mut F,
    slots: &mut [Option<PushSession>; 8],
    known: &mut Known,
    bytes: &[u8],
) -> Result<Accepted, SharedFault>
    requires tellable { AreTellable slots.old }
    requires agrees { F.honest → Agrees (objects (F.content files.old)) known.old }
    ensures tellable { AreTellable slots.new }
    ensures known { F.honest → Agrees (objects (F.content files.new)) known.new }
    ensures answers { F.honest → (m : Sent) → Reads bytes.now m → AnswersUp (Accept m) result (F.content files.old) (F.content files.new) slots.old slots.new }
    ensures unread { F.honest → (n : ℕ) → IsUnread bytes.now n → AnswersUp (Asks (Unread n)) result (F.content files.old) (F.content files.new) slots.old slots.new }
    ensures answered { F.honest → IfOk result (IsAnsweredBytes (F.content files.old) (F.content files.new) slots.old slots.new bytes.now) }
    ensures unchanged { OnErr result (slots.new ≡ slots.old) }
    ensures refused { F.honest → IfErr result (IsRefusedBytes (F.content files.old) slots.old bytes.now) }
    ensures outside { F.honest → ChangesFree (F.content files.old) (F.content files.new) slots.old }
    ensures good { F.honest → KeepsGood (F.content files.old) (F.content files.new) }
    ensures wear { Writes F.honest F.content F.failed F.can_fail F.left files.old files.new (TellsDevice result) }
    ensures looks { (m : Sent) → Reads bytes.now m → IsToWrite m ⊎ Wears F.failed F.can_fail F.left files.old files.new (TellsDevice result) }
{
    let message = Message::read(alloc, bytes)?;
    take(alloc, files, slots, known, message)
}
