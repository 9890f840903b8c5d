// Why a message was not served to its end.
ghost use Rattle.std.specs.Prelude.{◌≡◌};
ghost use Rattle.vc_server.specs.declared.serve_fault.ServeFault.TheVariants.{Memory};

use std::alloc::AllocError;
use std::error::Error;
use std::fmt;
use vc_files::Fault;
use vc_message::{IncomingFault, WRITE_FAILED};

/// Why a message was not served to its end.
#[derive(Clone, Copy, Debug)]
pub enum ServeFault {
    /// 115: the reader failed. The node is as it was, and nothing was written.
    ReadFailed,
    /// 116: the writer failed. The node stands as after the message; how much of the answer went out isn't told.
    WriteFailed,
    /// There was no memory for the line of an Error. Nothing was written, and the node isn't down.
    Memory,
    /// A fault of the node, which is down. Nothing was written.
    Fault(Fault),
}

impl fmt::Display for ServeFault {
    fn fmt<W: fmt::Write>(&self, f: &mut fmt::Formatter<W>) -> fmt::Result {
        match self {
            ServeFault::ReadFailed => fmt::Display::fmt(&IncomingFault::Failed, f),
            ServeFault::WriteFailed => f.write_str(WRITE_FAILED),
            ServeFault::Memory => f.write_str("memory"),
            ServeFault::Fault(fault) => fmt::Display::fmt(fault, f),
        }
    }
}

impl Error for ServeFault {}

impl From<AllocError> for ServeFault {
    ghost from_gives = { λ _ e. e ≡ Memory };

    fn from(_: AllocError) -> Self {
        ServeFault::Memory
    }
}
