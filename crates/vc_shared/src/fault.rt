// Why a call of the shared node gives no answer.
ghost use Rattle.std.specs.Prelude.{◌≡◌};
ghost use Rattle.vc_shared.specs.declared.fault.SharedFault.TheVariants.{Node};
ghost use Rattle.vc_shared.specs.Faults.{is_fault, of_answer, of_device, of_pkt, of_rev, of_session, takes_down};

use std::alloc::AllocError;
use std::error::Error;
use std::fmt;
use vc_files::Fault;
use vc_local::NodeFault;
use vc_message::NOTHING_AWAITED;
use vc_object::ObjectId;
use vc_object_map::StoreFault;
use vc_pack::AnswerFault;
use vc_pkt::{PktError, PktFault};
use vc_rev::{Refusal, RevFault};
use vc_session::SessionFault;

/// What refuses a call of the shared node, by number, or the fault that ended it. After a fault the node is down, and so it is after 11,
/// 12 and 33.
#[derive(Debug, Drop)]
pub enum SharedFault {
    /// 80 to 84, or 3: the bytes are no message.
    Unread(PktFault),
    /// 90: no ref of the node reaches this wanted id.
    NotOurs(ObjectId),
    /// 91: a message of this kind is none that the shared node takes.
    Unexpected,
    /// 110: a push is open in each of the eight slots.
    Busy,
    /// 111: no push is open in this slot.
    NoSuchSlot,
    /// 51 to 56: the expression has no value.
    NoValue(Refusal),
    /// 11, 12 and 33: a file of the node is at fault; 112: the node was taken down before, and was not opened again. Or a fault.
    Node(NodeFault),
}

impl fmt::Display for SharedFault {
    fn fmt<W: fmt::Write>(&self, f: &mut fmt::Formatter<W>) -> fmt::Result {
        match self {
            SharedFault::Unread(fault) => fmt::Display::fmt(fault, f),
            SharedFault::NotOurs(id) => fmt::Display::fmt(&AnswerFault::NotOurs(*id), f),
            SharedFault::Unexpected => f.write_str(NOTHING_AWAITED),
            SharedFault::Busy => f.write_str("110 Busy"),
            SharedFault::NoSuchSlot => f.write_str("111 NoSuchSlot"),
            SharedFault::NoValue(refusal) => fmt::Display::fmt(refusal, f),
            SharedFault::Node(fault) => fmt::Display::fmt(fault, f),
        }
    }
}

impl Error for SharedFault {}

impl SharedFault {
    /// Whether it is want of memory or a device that failed, and no refusal.
    pub fn is_fault(&self) -> bool
        ensures { result ≡ is_fault self.now }
    {
        match self {
            SharedFault::Node(fault) => fault.is_fault(),
            _ => false,
        }
    }

    /// Whether the node is down after it: see [`NodeFault::takes_down`].
    pub fn takes_down(&self) -> bool
        ensures { result ≡ takes_down self.now }
    {
        match self {
            SharedFault::Node(fault) => fault.takes_down(),
            _ => false,
        }
    }
}

impl From<NodeFault> for SharedFault {
    ghost from_gives = { λ fault e. e ≡ Node fault };

    fn from(fault: NodeFault) -> Self {
        SharedFault::Node(fault)
    }
}

// Want of memory, or a device that failed.
fn from_device(fault: Fault) -> SharedFault
    ensures { result ≡ of_device fault }
{
    SharedFault::Node(NodeFault::Store(StoreFault::Fault(fault)))
}

impl From<SessionFault> for SharedFault {
    ghost from_gives = { λ fault e. e ≡ of_session fault };

    fn from(fault: SessionFault) -> Self {
        match fault {
            SessionFault::Store(fault) => SharedFault::Node(NodeFault::refused_by_store(fault)),
            SessionFault::Refs(fault) => SharedFault::Node(NodeFault::refused_by_refs(fault)),
            SessionFault::Fault(fault) => from_device(fault),
        }
    }
}

impl From<AnswerFault> for SharedFault {
    ghost from_gives = { λ fault e. e ≡ of_answer fault };

    fn from(fault: AnswerFault) -> Self {
        match fault {
            AnswerFault::NotOurs(id) => SharedFault::NotOurs(id),
            // Only a pack can be incomplete, and here none is judged.
            AnswerFault::Incomplete(id) => SharedFault::Node(NodeFault::Missing(id)),
            AnswerFault::Refs(fault) => SharedFault::Node(NodeFault::refused_by_refs(fault)),
            AnswerFault::Graph(fault) => SharedFault::Node(NodeFault::refused_by_graph(fault)),
            AnswerFault::Fault(fault) => from_device(fault),
        }
    }
}

impl From<RevFault> for SharedFault {
    ghost from_gives = { λ fault e. e ≡ of_rev fault };

    fn from(fault: RevFault) -> Self {
        match fault {
            RevFault::Refused(refusal) => SharedFault::NoValue(refusal),
            RevFault::Missing(id) => SharedFault::Node(NodeFault::Missing(id)),
            RevFault::NotACommit(id) => SharedFault::Node(NodeFault::NotACommit(id)),
            RevFault::Source(fault) => SharedFault::Node(NodeFault::from(fault)),
        }
    }
}

impl From<PktError> for SharedFault {
    ghost from_gives = { λ error e. e ≡ of_pkt error };

    fn from(error: PktError) -> Self {
        match error {
            PktError::Refused(fault) => SharedFault::Unread(fault),
            PktError::Memory => from_device(Fault::Memory),
        }
    }
}

impl From<AllocError> for SharedFault {
    ghost use Rattle.vc_files.specs.declared.faults.Fault.TheVariants.{Memory};

    ghost from_gives = { λ _ e. e ≡ of_device Memory };

    fn from(_: AllocError) -> Self {
        from_device(Fault::Memory)
    }
}
