// Why nothing was taken from a reader.
ghost use Rattle.std.specs.Prelude.{◌≡◌};
ghost use Rattle.vc_files.specs.declared.faults.Fault.TheVariants.{Memory};
ghost use Rattle.vc_shared.specs.AcceptFault.{is_fault, of_incoming, takes_down};
ghost use Rattle.vc_shared.specs.Faults.{of_device};
ghost use Rattle.vc_shared.specs.declared.accept_fault.AcceptFault.TheVariants.{Node};

use crate::fault::SharedFault;
use std::alloc::AllocError;
use std::error::Error;
use std::fmt;
use vc_files::Fault;
use vc_message::IncomingFault;
use vc_session::SessionFault;

/// What ends the taking of a message from a reader without an answer.
#[derive(Debug, Drop)]
pub enum AcceptFault {
    /// 115: the reader failed. The node is as it was.
    ReadFailed,
    /// What refuses the message, or the bytes that are none, by number, or the fault that ended it. After a fault the node is down, and
    /// so it is after 11, 12 and 33.
    Node(SharedFault),
}

impl fmt::Display for AcceptFault {
    fn fmt<W: fmt::Write>(&self, f: &mut fmt::Formatter<W>) -> fmt::Result {
        match self {
            AcceptFault::ReadFailed => fmt::Display::fmt(&IncomingFault::Failed, f),
            AcceptFault::Node(fault) => fmt::Display::fmt(fault, f),
        }
    }
}

impl Error for AcceptFault {}

impl AcceptFault {
    /// Whether it is want of memory or a device that failed, and no refusal.
    pub fn is_fault(&self) -> bool
        ensures { result ≡ is_fault self.now }
    {
        match self {
            AcceptFault::ReadFailed => false,
            AcceptFault::Node(fault) => fault.is_fault(),
        }
    }

    /// Whether the node is down after it: see [`SharedFault::takes_down`].
    pub fn takes_down(&self) -> bool
        ensures { result ≡ takes_down self.now }
    {
        match self {
            AcceptFault::ReadFailed => false,
            AcceptFault::Node(fault) => fault.takes_down(),
        }
    }
}

impl From<SharedFault> for AcceptFault {
    ghost from_gives = { λ fault e. e ≡ Node fault };

    fn from(fault: SharedFault) -> Self {
        AcceptFault::Node(fault)
    }
}

impl From<Fault> for AcceptFault {
    ghost from_gives = { λ fault e. e ≡ Node (of_device fault) };

    fn from(fault: Fault) -> Self {
        AcceptFault::Node(SharedFault::from(SessionFault::Fault(fault)))
    }
}

impl From<AllocError> for AcceptFault {
    ghost from_gives = { λ _ e. e ≡ Node (of_device Memory) };

    fn from(error: AllocError) -> Self {
        AcceptFault::Node(SharedFault::from(error))
    }
}

impl From<IncomingFault> for AcceptFault {
    ghost from_gives = { λ fault e. e ≡ of_incoming fault };

    fn from(fault: IncomingFault) -> Self {
        match fault {
            IncomingFault::Memory => AcceptFault::from(Fault::Memory),
            IncomingFault::Failed => AcceptFault::ReadFailed,
            IncomingFault::Unread(fault) => AcceptFault::Node(SharedFault::Unread(fault)),
        }
    }
}
