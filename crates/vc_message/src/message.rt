//! A message of any kind.

ghost use Rattle.std.specs.Prelude.{◌≡◌, Ok, IfOk, IfErr};
ghost use Rattle.std.specs.List.{flat_map};
ghost use Rattle.vc_pkt.specs.Line.{spelling};
ghost use Rattle.vc_pkt.specs.Message.{IsSpelledBy, Refuses};
ghost use Rattle.vc_pkt.specs.StepView.{Gives};
ghost use Rattle.vc_message.specs.AnyMessage.{MessageText, SpellsMessage, any_step, beginning, message_lines};
ghost use Rattle.vc_message.specs.AnyView.{HasShortLines, message_text};

use crate::reader::AnyReader;
use std::alloc::{AllocError, Global};
use vc_fetch::{Advert, Error, List, Pack, Want};
use vc_pkt::{PktError, read_message};
use vc_push::{Push, Report};

/// What is printed where a message of this kind isn't awaited.
pub const NOTHING_AWAITED: &str = "91 NothingAwaited";

/// What is printed where a message didn't go out.
pub const WRITE_FAILED: &str = "116 WriteFailed";

/// A message. own: git has no first line that tells the kind, since the place in the conversation does; here each kind's first
/// line is no other's.
#[derive(Drop)]
pub enum Message {
    /// It asks for all refs.
    List(List),
    /// It tells the refs of a node.
    Advert(Advert),
    /// It asks for objects.
    Want(Want),
    /// It brings objects.
    Pack(Pack),
    /// It asks for refs to be changed.
    Push(Push),
    /// It answers a push.
    Report(Report),
    /// It refuses.
    Error(Error),
}

impl Message {
    /// The message that is all of the bytes, or their first fault, with 81 the number of its line from 0. A first line that no
    /// kind has is 81 at line 0, as each kind by itself says of it.
    pub fn read(alloc: Global, bytes: &[u8]) -> Result<Message, PktError>
        ensures spelled { IfOk result (λ message. IsSpelledBy SpellsMessage (message_text message) bytes.now) }
        ensures read { (message : MessageText) → IsSpelledBy SpellsMessage message bytes.now → Gives message_text result (Ok message) }
        ensures refused { IfErr result (Refuses any_step beginning bytes.now) }
    {
        read_message::<AnyReader>(alloc, bytes)
    }

    /// The message as it is written, each kind as it is by itself. Its names and texts fit in their lines.
    pub fn write(&self, alloc: Global) -> Result<Vec<u8>, AllocError>
        requires short { HasShortLines self.now }
        ensures { IfOk result (λ bytes. bytes.items ≡ flat_map spelling (message_lines (message_text self.now))) }
    {
        match self {
            Message::List(list) => list.write(alloc),
            Message::Advert(advert) => advert.write(alloc),
            Message::Want(want) => want.write(alloc),
            Message::Pack(pack) => pack.write(alloc),
            Message::Push(push) => push.write(alloc),
            Message::Report(report) => report.write(alloc),
            Message::Error(error) => error.write(alloc),
        }
    }
}
