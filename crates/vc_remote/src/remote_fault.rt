//! Why an exchange with the shared node ended early.

ghost use Rattle.std.specs.Prelude.{◌≡◌};
ghost use Rattle.vc_files.specs.declared.faults.Fault.TheVariants.{Memory};
ghost use Rattle.vc_remote.specs.Ends.{of_end, of_incoming};
ghost use Rattle.vc_remote.specs.declared.remote_fault.RemoteFault.TheVariants.{Fault};

use std::alloc::AllocError;
use vc_files::Fault;
use vc_message::IncomingFault;
use vc_node::CloneFault;
use vc_pkt::PktFault;
use vc_world::ExchangeEnd;

/// Why an exchange with the shared node ended early.
#[derive(Debug, Drop)]
pub enum RemoteFault {
    /// The shared node refused a message, with this text: any bytes, as it sent them.
    Refused(Vec<u8>),
    /// 115: no answer came, since the connection ended or failed.
    ReadFailed,
    /// 116: the message didn't go out, or there is no connection.
    WriteFailed,
    /// 80 to 84, or 3: what came is no message.
    Unread(PktFault),
    /// What refused a call of the clone, or ended it with a fault.
    Clone(CloneFault),
    /// Want of memory, or a device that failed.
    Fault(Fault),
}

impl From<Fault> for RemoteFault {
    ghost from_gives = { λ fault e. e ≡ Fault fault };

    fn from(fault: Fault) -> Self {
        RemoteFault::Fault(fault)
    }
}

impl From<AllocError> for RemoteFault {
    ghost from_gives = { λ _ e. e ≡ Fault Memory };

    fn from(_: AllocError) -> Self {
        RemoteFault::Fault(Fault::Memory)
    }
}

impl From<IncomingFault> for RemoteFault {
    ghost from_gives = { λ fault e. e ≡ of_incoming fault };

    fn from(fault: IncomingFault) -> Self {
        match fault {
            IncomingFault::Memory => RemoteFault::Fault(Fault::Memory),
            IncomingFault::Failed => RemoteFault::ReadFailed,
            IncomingFault::Unread(fault) => RemoteFault::Unread(fault),
        }
    }
}

impl From<ExchangeEnd<RemoteFault>> for RemoteFault {
    ghost from_gives = { λ end e. e ≡ of_end end };

    fn from(end: ExchangeEnd<RemoteFault>) -> Self {
        match end {
            ExchangeEnd::Clone(fault) => RemoteFault::Clone(fault),
            ExchangeEnd::Shared(fault) => fault,
            ExchangeEnd::Stray => RemoteFault::Clone(CloneFault::Unexpected),
            ExchangeEnd::Memory => RemoteFault::Fault(Fault::Memory),
        }
    }
}
