// Why nothing was taken from a reader.
ghost use Rattle.std.specs.Prelude.{◌≡◌};
ghost use Rattle.vc_files.specs.declared.faults.Fault.TheVariants.{Memory};
ghost use Rattle.vc_node.specs.CloneFaults.{of_device, of_exchange};
ghost use Rattle.vc_node.specs.ReceiveFault.{is_fault, of_incoming, takes_down};
ghost use Rattle.vc_node.specs.declared.receive_fault.ReceiveFault.TheVariants.{Node};

use crate::clone_fault::CloneFault;
use std::alloc::AllocError;
use std::error::Error;
use std::fmt;
use vc_files::Fault;
use vc_local::NodeFault;
use vc_message::IncomingFault;
use vc_object_map::StoreFault;
use vc_tracking::ExchangeFault;

/// What ends the taking of a message from a reader without an answer.
#[derive(Debug, Drop)]
pub enum ReceiveFault {
    /// 115: the reader failed. The node is as it was.
    ReadFailed,
    /// What refuses the message, or the bytes that are none, by number, or the fault that ended it. After a fault the node is down, and
    /// so it is after 11, 12 and 33.
    Node(CloneFault),
}

impl fmt::Display for ReceiveFault {
    fn fmt<W: fmt::Write>(&self, f: &mut fmt::Formatter<W>) -> fmt::Result {
        match self {
            ReceiveFault::ReadFailed => fmt::Display::fmt(&IncomingFault::Failed, f),
            ReceiveFault::Node(fault) => fmt::Display::fmt(fault, f),
        }
    }
}

impl Error for ReceiveFault {}

impl ReceiveFault {
    /// Whether it is want of memory or a device that failed, and no refusal.
    pub fn is_fault(&self) -> bool
        ensures { result ≡ is_fault self.now }
    {
        match self {
            ReceiveFault::ReadFailed => false,
            ReceiveFault::Node(fault) => fault.is_fault(),
        }
    }

    /// Whether the node is down after it: see [`NodeFault::takes_down`].
    pub fn takes_down(&self) -> bool
        ensures { result ≡ takes_down self.now }
    {
        match self {
            ReceiveFault::ReadFailed => false,
            ReceiveFault::Node(fault) => fault.takes_down(),
        }
    }
}

impl From<CloneFault> for ReceiveFault {
    ghost from_gives = { λ fault e. e ≡ Node fault };

    fn from(fault: CloneFault) -> Self {
        ReceiveFault::Node(fault)
    }
}

impl From<Fault> for ReceiveFault {
    ghost from_gives = { λ fault e. e ≡ Node (of_device fault) };

    fn from(fault: Fault) -> Self {
        ReceiveFault::Node(CloneFault::Node(NodeFault::Store(StoreFault::Fault(fault))))
    }
}

impl From<AllocError> for ReceiveFault {
    ghost from_gives = { λ _ e. e ≡ Node (of_device Memory) };

    fn from(error: AllocError) -> Self {
        ReceiveFault::Node(CloneFault::from(error))
    }
}

impl From<ExchangeFault> for ReceiveFault {
    ghost from_gives = { λ fault e. e ≡ Node (of_exchange fault) };

    fn from(fault: ExchangeFault) -> Self {
        ReceiveFault::Node(CloneFault::from(fault))
    }
}

impl From<IncomingFault> for ReceiveFault {
    ghost from_gives = { λ fault e. e ≡ of_incoming fault };

    fn from(fault: IncomingFault) -> Self {
        match fault {
            IncomingFault::Memory => ReceiveFault::from(Fault::Memory),
            IncomingFault::Failed => ReceiveFault::ReadFailed,
            IncomingFault::Unread(fault) => ReceiveFault::Node(CloneFault::Unread(fault)),
        }
    }
}
