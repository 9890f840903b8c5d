// Whom a clone asks.
ghost use Rattle.std.specs.Prelude.{ℕ, IfOk, IsErrAnd};
ghost use Rattle.vc_files.specs.Failures.{Wears, unstopped};
ghost use Rattle.vc_message.specs.Machine.{Reads};
ghost use Rattle.vc_model.specs.Message.{Message as Sent};
ghost use Rattle.vc_model.specs.Node.{Answer};
ghost use Rattle.vc_model.specs.Shared.{SharedNode};
ghost use Rattle.vc_world.specs.Alone.{Saying, WasSpelled};
ghost use Rattle.vc_world.specs.Devices.{IsToRead};
ghost use Rattle.vc_world.specs.Exchanging.{AnswersPeer};

use vc_message::{Message, Source};

/// An answer: as bytes, read already, or still to be read.
#[derive(Drop)]
pub enum Reply<A> {
    /// The message that is all of the bytes.
    Bytes(Vec<u8>),
    /// The message that was read.
    Message(Message),
    /// The message that is first of what the reader has.
    Reader(A),
}

/// The shared node as a clone meets it: it is sent a message, and answers with one.
pub trait Peer {
    /// Why there is no message.
    type Refusal: Drop;

    /// What an answer that is long is read from.
    type Answer: Source + Drop;

    /// Whether it is a shared node. What stands at the other end of a connection may be none.
    ghost honest: { Type 0 };

    /// The nodes of the machine that it may be.
    ghost holds: { Self → SharedNode → Type 0 };

    /// What the machine's node answered where it refused.
    ghost told: { Self.Refusal → Answer };

    /// How often its device has failed.
    ghost failed: { Self → ℕ };

    /// Whether its device can fail.
    ghost can_fail: { Self → Type 0 };

    /// Whether it refused since its device failed.
    ghost is_device: { Self.Refusal → Type 0 };

    /// Whether an answer may be lost on its way, as on a connection.
    ghost loses: { Type 0 };

    /// What it says when it is asked, whoever it is. Nothing is known of this but that its answers are so: who asks can only have an
    /// answer from it.
    ghost says: { Saying Self Self.Refusal Self.Answer };

    /// Sends the message that is all of the bytes, and gives the one that comes back.
    fn ask(&mut self, bytes: &[u8]) -> Result<Reply<Self::Answer>, Self::Refusal>
        ensures answers { honest → (m : Sent) → Reads bytes.now m → AnswersPeer holds told Self.Answer.remaining m result self.old self.new }
        ensures whole { IfOk result (λ reply. IsToRead reply → loses) }
        ensures said { says self.old bytes.now result self.new }
        ensures read { IfOk result WasSpelled }
        ensures wear { Wears failed can_fail unstopped self.old self.new (IsErrAnd result is_device) };
}
