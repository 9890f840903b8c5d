//! One turn of the shared node at a connection.
ghost use Rattle.std.specs.Prelude.{◌≡◌, ◌++◌, List, ℕ, IsErrOf, Some, true};
ghost use Rattle.vc_files.specs.Failures.{Writes};
ghost use Rattle.vc_message.specs.Machine.{Reads};
ghost use Rattle.vc_model.specs.Message.{Message};
ghost use Rattle.vc_message.specs.Source.{TellsLoss};
ghost use Rattle.vc_local.specs.Clean.{StaysClean};
ghost use Rattle.vc_server.specs.Turn.{IsUpThen, LeavesRest, TakesTurn, ends_in_fault};

use crate::answering::answer_from;
use crate::serve_fault::ServeFault;
use crate::telling::{Served, tell};
use std::alloc::Global;
use std::io::Write;
use vc_files::{Fault, Files};
use vc_message::Source;
use vc_shared::Shared;

/// Takes the next message of the reader, and no byte behind it, and writes the reply, and flushes it. Where the message is refused,
/// or the bytes that came are none, what is written is an Error: `ERR not our ref <id>` for a wanted id that no ref reaches (90),
/// and `ERR refused <number>` for whatever else. The answer is the same however the reader cuts the bytes. Of a push no more is held
/// than its commands, one line and one object's body.
pub fn serve_message<F: Files, R: Source, W: Write>(
    shared: &mut Shared<F>,
    alloc: Global,
    reader: &mut R,
    writer: &mut W,
) -> Result<Served, ServeFault>
    ensures turn { TakesTurn F.honest F.content R.remaining W.contents shared.old shared.new reader.old reader.new writer.old writer.new result }
    ensures known { (m : Message) (bytes rest : List ℕ) → R.remaining reader.old ≡ Some (bytes ++ rest) → Reads bytes m → LeavesRest rest (R.remaining reader.new) result }
    ensures up { shared.old.is_up ≡ true → IsUpThen shared.new.is_up result }
    ensures clean { F.honest → StaysClean (F.content shared.old.files) (F.content shared.new.files) }
    ensures lost { TellsLoss R.failed R.can_fail reader.old reader.new (IsErrOf result ServeFault.ReadFailed) (ends_in_fault result ≡ true) }
    ensures wear { Writes F.honest F.content F.failed F.can_fail F.left shared.old.files shared.new.files (IsErrOf result (ServeFault.Fault Fault.Device)) }
{
    let answered = answer_from(shared, reader);
    tell(alloc, writer, &answered)
}
