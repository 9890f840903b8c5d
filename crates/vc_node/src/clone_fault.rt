// Why a call of a clone that sends or takes messages, or asks for a value, gives no answer.
ghost use Rattle.std.specs.Prelude.{◌≡◌};
ghost use Rattle.vc_node.specs.CloneFaults.{is_fault, of_device, of_exchange, of_pkt, of_rev, of_send, takes_down};
ghost use Rattle.vc_node.specs.declared.clone_fault.CloneFault.TheVariants.{Node};
ghost use Rattle.vc_files.specs.declared.faults.Fault.TheVariants.{Memory};

use std::alloc::AllocError;
use std::error::Error;
use std::fmt;
use vc_files::Fault;
use vc_local::NodeFault;
use vc_message::NOTHING_AWAITED;
use vc_object::ObjectId;
use vc_object_map::StoreFault;
use vc_pkt::{PktError, PktFault};
use vc_rev::{Refusal, RevFault};
use vc_sending::SendFault;
use vc_tracking::ExchangeFault;

/// What refuses such a call of a clone, by number, or the fault that ended it. After a fault the node is down, and so it is after 11, 12
/// and 33.
#[derive(Debug, Drop)]
pub enum CloneFault {
    /// 80 to 84, or 3: the bytes are no message.
    Unread(PktFault),
    /// 91: a message of this kind isn't awaited.
    Unexpected,
    /// 84: a push of more than 256 items.
    TooMany,
    /// 92: with the pack, not all is there that this wanted id reaches.
    Incomplete(ObjectId),
    /// 51 to 56: the expression has no value.
    NoValue(Refusal),
    /// 11, 12, 33, 34 and 62: a file of the node is at fault; 40: what this id reaches is not all there; 112: the node was taken down
    /// before, and was not opened again. Or a fault.
    Node(NodeFault),
}

impl fmt::Display for CloneFault {
    fn fmt<W: fmt::Write>(&self, f: &mut fmt::Formatter<W>) -> fmt::Result {
        match self {
            CloneFault::Unread(fault) => fmt::Display::fmt(fault, f),
            CloneFault::Unexpected => f.write_str(NOTHING_AWAITED),
            CloneFault::TooMany => fmt::Display::fmt(&PktFault::TooMany, f),
            CloneFault::Incomplete(id) => fmt::Display::fmt(&ExchangeFault::Incomplete(*id), f),
            CloneFault::NoValue(refusal) => fmt::Display::fmt(refusal, f),
            CloneFault::Node(fault) => fmt::Display::fmt(fault, f),
        }
    }
}

impl Error for CloneFault {}

impl CloneFault {
    /// Whether it is want of memory or a device that failed, and no refusal.
    pub fn is_fault(&self) -> bool
        ensures { result ≡ is_fault self.now }
    {
        match self {
            CloneFault::Node(fault) => fault.is_fault(),
            _ => false,
        }
    }

    /// Whether the node is down after it: see [`NodeFault::takes_down`].
    pub fn takes_down(&self) -> bool
        ensures { result ≡ takes_down self.now }
    {
        match self {
            CloneFault::Node(fault) => fault.takes_down(),
            _ => false,
        }
    }
}

impl From<NodeFault> for CloneFault {
    ghost from_gives = { λ fault e. e ≡ Node fault };

    fn from(fault: NodeFault) -> Self {
        CloneFault::Node(fault)
    }
}

// Want of memory, or a device that failed.
fn from_device(fault: Fault) -> CloneFault
    ensures { result ≡ of_device fault }
{
    CloneFault::Node(NodeFault::Store(StoreFault::Fault(fault)))
}

impl From<PktError> for CloneFault {
    ghost from_gives = { λ fault e. e ≡ of_pkt fault };

    fn from(fault: PktError) -> Self {
        match fault {
            PktError::Refused(fault) => CloneFault::Unread(fault),
            PktError::Memory => from_device(Fault::Memory),
        }
    }
}

impl From<ExchangeFault> for CloneFault {
    ghost from_gives = { λ fault e. e ≡ of_exchange fault };

    fn from(fault: ExchangeFault) -> Self {
        match fault {
            ExchangeFault::Store(fault) => CloneFault::Node(NodeFault::refused_by_store(fault)),
            ExchangeFault::Refs(fault) => CloneFault::Node(NodeFault::refused_by_refs(fault)),
            ExchangeFault::Incomplete(id) => CloneFault::Incomplete(id),
            ExchangeFault::Fault(fault) => from_device(fault),
        }
    }
}

impl From<SendFault> for CloneFault {
    ghost from_gives = { λ fault e. e ≡ of_send fault };

    fn from(fault: SendFault) -> Self {
        match fault {
            SendFault::TooMany => CloneFault::TooMany,
            SendFault::Missing(id) => CloneFault::Node(NodeFault::Missing(id)),
            SendFault::Refs(fault) => CloneFault::Node(NodeFault::refused_by_refs(fault)),
            SendFault::Graph(fault) => CloneFault::Node(NodeFault::refused_by_graph(fault)),
            SendFault::Fault(fault) => from_device(fault),
        }
    }
}

impl From<RevFault> for CloneFault {
    ghost from_gives = { λ fault e. e ≡ of_rev fault };

    fn from(fault: RevFault) -> Self {
        match fault {
            RevFault::Refused(refusal) => CloneFault::NoValue(refusal),
            RevFault::Missing(id) => CloneFault::Node(NodeFault::Missing(id)),
            RevFault::NotACommit(id) => CloneFault::Node(NodeFault::NotACommit(id)),
            RevFault::Source(fault) => CloneFault::Node(NodeFault::from(fault)),
        }
    }
}

impl From<AllocError> for CloneFault {
    ghost from_gives = { λ _ e. e ≡ of_device Memory };

    fn from(_: AllocError) -> Self {
        from_device(Fault::Memory)
    }
}
