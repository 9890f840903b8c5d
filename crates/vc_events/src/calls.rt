// The calls of the nodes.
ghost use Rattle.std.specs.Prelude.{ℕ};
ghost use Rattle.vc_message.specs.Machine.{IsUnread, Reads};
ghost use Rattle.vc_model.specs.Clone.{CloneNode};
ghost use Rattle.vc_model.specs.CloneCall.CloneCall.{Asks, Open, Prune, Receive};
ghost use Rattle.vc_model.specs.Message.{Message};
ghost use Rattle.vc_model.specs.Question.Question.{Compare, PackRefs, Unread};
ghost use Rattle.vc_model.specs.Shared.{SharedNode};
ghost use Rattle.vc_model.specs.SharedCall.SharedCall.{Accept, Asks as AsksShared, Open as OpenShared, Prune as PruneShared, StepOf};
ghost use Rattle.vc_events.specs.Answers.{Shows};
ghost use Rattle.vc_events.specs.Calls.{CloneCalled, Seen, SharedCalled, StopsNode, IsOrdered, IsOnly};
ghost use Rattle.vc_events.specs.Events.{IsInOrder};

use crate::{Ended, Order, Told};
use std::alloc::Global;

/// The shared node.
pub trait SharedCalls {
    /// Whether its device keeps what is stored.
    ghost honest: { Type 0 };

    /// The machine's nodes that it may be, and the writes left there.
    ghost seen: { Seen Self SharedNode };

    /// Bytes come. They are a message, or they are none and are refused by their first fault.
    fn deliver(&mut self, bytes: &[u8]) -> Result<Told, Ended>
        ensures answers { honest → (m : Message) → Reads bytes.now m → SharedCalled seen (Accept m) (Shows result) self.old self.new }
        ensures unread { honest → (k : ℕ) → IsUnread bytes.now k → SharedCalled seen (AsksShared (Unread k)) (Shows result) self.old self.new };

    /// A step of the push in a slot.
    fn advance(&mut self, slot: usize) -> Result<Told, Ended>
        ensures answers { honest → SharedCalled seen (StepOf slot) (Shows result) self.old self.new };

    /// Whether two expressions have one value.
    fn compare(&mut self, alloc: Global, first: &[u8], second: &[u8]) -> Result<Told, Ended>
        ensures answers { honest → SharedCalled seen (AsksShared (Compare first.now second.now)) (Shows result) self.old self.new };

    /// It puts its refs into one file.
    fn pack(&mut self) -> Result<Told, Ended>
        ensures answers { honest → SharedCalled seen (AsksShared PackRefs) (Shows result) self.old self.new };

    /// It removes the objects that nothing needs.
    fn prune(&mut self) -> Result<Told, Ended>
        ensures answers { honest → SharedCalled seen PruneShared (Shows result) self.old self.new };

    /// It starts anew over what it has stored.
    fn reopen(&mut self) -> Result<Told, Ended>
        ensures answers { honest → SharedCalled seen OpenShared (Shows result) self.old self.new };

    /// A stop is set: so many more writes pass, and the next one fails. A node that is down may keep the stop that it has.
    fn stop(&mut self, writes: u64)
        ensures stops { honest → StopsNode seen writes self.old self.new };
}

/// A clone.
pub trait CloneCalls {
    /// Whether its device keeps what is stored.
    ghost honest: { Type 0 };

    /// The machine's nodes that it may be, and the writes left there.
    ghost seen: { Seen Self CloneNode };

    /// It does what it is told.
    fn obey(&mut self, alloc: Global, order: &Order) -> Result<Told, Ended>
        requires { IsInOrder order.now }
        ensures answers { honest → CloneCalled seen (IsOrdered order.now) (Shows result) self.old self.new };

    /// Bytes come. They are a message, or they are none and are refused by their first fault.
    fn deliver(&mut self, bytes: &[u8]) -> Result<Told, Ended>
        ensures answers { honest → (m : Message) → Reads bytes.now m → CloneCalled seen (IsOnly (Receive m)) (Shows result) self.old self.new }
        ensures unread { honest → (k : ℕ) → IsUnread bytes.now k → CloneCalled seen (IsOnly (Asks (Unread k))) (Shows result) self.old self.new };

    /// Whether two expressions have one value.
    fn compare(&mut self, alloc: Global, first: &[u8], second: &[u8]) -> Result<Told, Ended>
        ensures answers { honest → CloneCalled seen (IsOnly (Asks (Compare first.now second.now))) (Shows result) self.old self.new };

    /// It puts its refs into one file.
    fn pack(&mut self) -> Result<Told, Ended>
        ensures answers { honest → CloneCalled seen (IsOnly (Asks PackRefs)) (Shows result) self.old self.new };

    /// It removes the objects that nothing needs.
    fn prune(&mut self) -> Result<Told, Ended>
        ensures answers { honest → CloneCalled seen (IsOnly Prune) (Shows result) self.old self.new };

    /// It starts anew over what it has stored.
    fn reopen(&mut self) -> Result<Told, Ended>
        ensures answers { honest → CloneCalled seen (IsOnly Open) (Shows result) self.old self.new };

    /// A stop is set: so many more writes pass, and the next one fails. A node that is down may keep the stop that it has.
    fn stop(&mut self, writes: u64)
        ensures stops { honest → StopsNode seen writes self.old self.new };
}
