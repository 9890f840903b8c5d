//! Why no message came from a reader.

ghost use Rattle.std.specs.Prelude.{◌≡◌, Some};
ghost use Rattle.vc_message.specs.Printed.{incoming_fault_text};
ghost use Rattle.vc_message.specs.declared.incoming_fault.IncomingFault.TheVariants.{Failed, Memory, Unread};
ghost use Rattle.vc_message.specs.IncomingFault.{of_pkt};

use crate::source::ReadFailed;
use std::alloc::AllocError;
use std::error::Error;
use std::fmt;
use vc_pkt::{PktError, PktFault};

/// Why no message came from a reader. What was read of it is lost.
#[derive(Clone, Copy, Debug)]
pub enum IncomingFault {
    /// A growth was refused, or 2^64 bytes have come and the message has no end yet.
    Memory,
    /// 115: the reader failed.
    Failed,
    /// 80 to 84, or 3: the bytes that came are no message. This is their first fault.
    Unread(PktFault),
}

impl fmt::Display for IncomingFault {
    ghost output = { λ fault. Some (incoming_fault_text fault) };

    fn fmt<W: fmt::Write>(&self, f: &mut fmt::Formatter<W>) -> fmt::Result {
        match self {
            IncomingFault::Memory => f.write_str("memory"),
            IncomingFault::Failed => f.write_str("115 ReadFailed"),
            IncomingFault::Unread(fault) => fmt::Display::fmt(fault, f),
        }
    }
}

impl Error for IncomingFault {}

impl From<PktFault> for IncomingFault {
    ghost from_gives = { λ fault e. e ≡ Unread fault };

    fn from(fault: PktFault) -> IncomingFault {
        IncomingFault::Unread(fault)
    }
}

impl From<PktError> for IncomingFault {
    ghost from_gives = { λ error e. e ≡ of_pkt error };

    fn from(error: PktError) -> IncomingFault {
        match error {
            PktError::Memory => IncomingFault::Memory,
            PktError::Refused(fault) => IncomingFault::Unread(fault),
        }
    }
}

impl From<AllocError> for IncomingFault {
    ghost from_gives = { λ _ e. e ≡ Memory };

    fn from(_: AllocError) -> IncomingFault {
        IncomingFault::Memory
    }
}

impl From<ReadFailed> for IncomingFault {
    ghost from_gives = { λ _ e. e ≡ Failed };

    fn from(_: ReadFailed) -> IncomingFault {
        IncomingFault::Failed
    }
}
