// Why a call was not answered, and what was told, in the world's words.
ghost use Rattle.std.specs.Prelude.{◌≡◌, Err, IfErr, IfOk, Ok};
ghost use Rattle.vc_events.specs.Answers.{answer_of};
ghost use Rattle.vc_node.specs.CloneCalls.{ReceivedAs, SentAs};
ghost use Rattle.vc_node.specs.CloneFaults.{TellsDevice as CloneTellsDevice, fault_answer as clone_answer};
ghost use Rattle.vc_local.specs.Machine.{done_answer, fault_answer as node_answer, made_answer};
ghost use Rattle.vc_local.specs.NodeFault.{TellsDevice as NodeTellsDevice};
ghost use Rattle.vc_local.specs.Told.{FoundAs, RestartedAs};
ghost use Rattle.vc_pruning.specs.Pruning.{PrunedAs};
ghost use Rattle.vc_simulation.specs.Nodes.{IsRetold};
ghost use Rattle.vc_server.specs.Telling.{ended_by};
ghost use Rattle.vc_shared.specs.Calls.{AcceptedAs, SteppedAs};
ghost use Rattle.vc_shared.specs.Faults.{TellsDevice, fault_answer};
ghost use Rattle.vc_rules.specs.Told.{Quietly};

use vc_events::{Deed, Ended, Told};
use vc_files::Fault;
use vc_local::NodeFault;
use vc_node::{CloneFault, Received};
use vc_object::ObjectId;
use vc_server::{node_ending, shared_ending, unread_number, value_number};
use vc_shared::{Accepted, SharedFault, Stepped};

/// The number of a node that is down.
pub(crate) const DOWN: u16 = 112;
/// The number of a text that is no expression.
pub(crate) const NO_EXPRESSION: u16 = 50;
/// The number of a value that is not all there.
pub(crate) const MISSING: u16 = 40;
/// The number of a push of too many items.
pub(crate) const TOO_MANY: u16 = 84;
/// The number of a message that nobody awaits.
const UNEXPECTED: u16 = 91;
/// The number of a pack that lacks an object.
const INCOMPLETE: u16 = 92;

fn end(ending: Result<u16, Fault>) -> Ended
    ensures { answer_of result ≡ ended_by ending }
{
    match ending {
        Ok(number) => Ended::Refused(number),
        Err(fault) => Ended::Fault(fault),
    }
}

/// Why the shared node didn't answer.
pub(crate) fn shared_end(fault: &SharedFault) -> Ended
    ensures { answer_of result ≡ fault_answer fault.now }
{
    end(shared_ending(fault))
}

/// Why a node didn't answer.
pub(crate) fn node_end(fault: &NodeFault) -> Ended
    ensures { answer_of result ≡ node_answer fault.now }
{
    end(node_ending(fault))
}

/// Why a clone didn't answer.
pub(crate) fn clone_end(fault: &CloneFault) -> Ended
    ensures { answer_of result ≡ clone_answer fault.now }
{
    match fault {
        CloneFault::Unread(fault) => Ended::Refused(unread_number(fault)),
        CloneFault::Unexpected => Ended::Refused(UNEXPECTED),
        CloneFault::TooMany => Ended::Refused(TOO_MANY),
        CloneFault::Incomplete(_) => Ended::Refused(INCOMPLETE),
        CloneFault::NoValue(refusal) => Ended::Refused(value_number(refusal)),
        CloneFault::Node(fault) => node_end(fault),
    }
}

/// What the shared node said of a message.
pub(crate) fn accepted(called: Result<Accepted, SharedFault>) -> Result<Told, Ended>
    ensures { IsRetold (AcceptedAs called) (TellsDevice called) result }
{
    match called {
        Ok(Accepted::Reply(bytes)) => Ok(Told::Sends(bytes)),
        Ok(Accepted::Slot(slot)) => Ok(Told::Did(Deed::Opened(slot))),
        Err(fault) => Err(shared_end(&fault)),
    }
}

/// What it said of a step.
pub(crate) fn stepped(called: Result<Stepped, SharedFault>) -> Result<Told, Ended>
    ensures { IsRetold (SteppedAs called) (TellsDevice called) result }
{
    match called {
        Ok(Stepped::Checked(passed)) => Ok(Told::Did(Deed::Passed(passed))),
        Ok(Stepped::Migrated) => Ok(Told::Did(Deed::Migrated)),
        Ok(Stepped::Updated(name, found)) => Ok(Told::Did(Deed::Updated(name, found))),
        Ok(Stepped::Atomic(refs)) => Ok(Told::Did(Deed::Atomic(refs))),
        Ok(Stepped::AtomicRefused(name, reason)) => {
            Ok(Told::Did(Deed::AtomicRefused(name, reason)))
        }
        Ok(Stepped::Finished(bytes)) => Ok(Told::Sends(bytes)),
        Err(fault) => Err(shared_end(&fault)),
    }
}

/// What it said of an expression.
pub(crate) fn shared_value(called: Result<ObjectId, SharedFault>) -> Result<ObjectId, Ended>
    ensures ok { IfOk result (λ id. called ≡ Ok id) }
    ensures err { IfErr result (λ e. IsRetold (FoundAs fault_answer called) (TellsDevice called) (Err e)) }
{
    match called {
        Ok(id) => Ok(id),
        Err(fault) => Err(shared_end(&fault)),
    }
}

/// What a node said of its restart, or of packing its refs.
pub(crate) fn restarted(called: Result<(), NodeFault>) -> Result<Told, Ended>
    ensures { IsRetold (RestartedAs called) (NodeTellsDevice called) result }
{
    match called {
        Ok(()) => Ok(Told::Did(Deed::Stored)),
        Err(fault) => Err(node_end(&fault)),
    }
}

/// What a node said of a prune.
pub(crate) fn pruned(called: Result<u64, NodeFault>) -> Result<Told, Ended>
    ensures { IsRetold (PrunedAs called) (NodeTellsDevice called) result }
{
    match called {
        Ok(removed) => Ok(Told::Did(Deed::Removed(removed))),
        Err(fault) => Err(node_end(&fault)),
    }
}

/// What a clone said of an expression.
pub(crate) fn clone_value(called: Result<ObjectId, CloneFault>) -> Result<ObjectId, Ended>
    ensures ok { IfOk result (λ id. called ≡ Ok id) }
    ensures err { IfErr result (λ e. IsRetold (FoundAs clone_answer called) (CloneTellsDevice called) (Err e)) }
{
    match called {
        Ok(id) => Ok(id),
        Err(fault) => Err(clone_end(&fault)),
    }
}

/// What it said of a command that makes an object.
pub(crate) fn made(called: Result<ObjectId, NodeFault>) -> Result<Told, Ended>
    ensures { IsRetold (Quietly (made_answer called)) (NodeTellsDevice called) result }
{
    match called {
        Ok(id) => Ok(Told::Did(Deed::Made(id))),
        Err(fault) => Err(node_end(&fault)),
    }
}

/// What it said of another command.
pub(crate) fn done(called: Result<(), NodeFault>) -> Result<Told, Ended>
    ensures { IsRetold (Quietly (done_answer called)) (NodeTellsDevice called) result }
{
    match called {
        Ok(()) => Ok(Told::Did(Deed::Stored)),
        Err(fault) => Err(node_end(&fault)),
    }
}

/// What it said of the start of an exchange.
pub(crate) fn sent(called: Result<Vec<u8>, CloneFault>) -> Result<Told, Ended>
    ensures { IsRetold (SentAs called) (CloneTellsDevice called) result }
{
    match called {
        Ok(bytes) => Ok(Told::Sends(bytes)),
        Err(fault) => Err(clone_end(&fault)),
    }
}

/// What it said of a message.
pub(crate) fn received(called: Result<Received, CloneFault>) -> Result<Told, Ended>
    ensures { IsRetold (ReceivedAs called) (CloneTellsDevice called) result }
{
    match called {
        Ok(Received::Send(bytes)) => Ok(Told::Sends(bytes)),
        Ok(Received::Moved { moved, left }) => Ok(Told::Did(Deed::Moved(moved, left))),
        Ok(Received::Reported { moved, refused }) => Ok(Told::Did(Deed::Reported(moved, refused))),
        Err(fault) => Err(clone_end(&fault)),
    }
}
