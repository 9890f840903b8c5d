//! What refuses a push before it is sent.
ghost use Rattle.std.specs.Prelude.{◌≡◌};
ghost use Rattle.vc_sending.specs.SendFault.{from_graph, from_refs, from_store};
ghost use Rattle.vc_sending.specs.declared.send_fault.SendFault.TheVariants.{Fault};
ghost use Rattle.vc_files.specs.declared.faults.Fault.TheVariants.{Memory};

use std::alloc::AllocError;
use std::error::Error;
use std::fmt;
use vc_files::Fault;
use vc_graph::GraphFault;
use vc_object::ObjectId;
use vc_object_map::{MISSING, StoreFault};
use vc_pkt::PktFault;
use vc_refs::RefFault;

/// Why a push is not sent.
#[derive(Debug, Drop)]
pub enum SendFault {
    /// 84: there are more than 256 items.
    TooMany,
    /// 40: not all is there that this id of an item reaches.
    Missing(ObjectId),
    /// 33: a file in `refs/` stands for no ref.
    Refs(RefFault),
    /// 12: the file of an object is damaged; 40: a tracking ref reaches an object that is absent.
    Graph(GraphFault),
    /// Want of memory, or a device that failed. It stands here alone, and in none of the variants above.
    Fault(Fault),
}

impl fmt::Display for SendFault {
    fn fmt<W: fmt::Write>(&self, f: &mut fmt::Formatter<W>) -> fmt::Result {
        match self {
            SendFault::TooMany => fmt::Display::fmt(&PktFault::TooMany, f),
            SendFault::Missing(_) => f.write_str(MISSING),
            SendFault::Refs(fault) => fmt::Display::fmt(fault, f),
            SendFault::Graph(fault) => fmt::Display::fmt(fault, f),
            SendFault::Fault(fault) => fmt::Display::fmt(fault, f),
        }
    }
}

impl Error for SendFault {}

impl From<StoreFault> for SendFault {
    ghost from_gives = { λ fault e. e ≡ from_store fault };

    fn from(fault: StoreFault) -> Self {
        match fault {
            StoreFault::Fault(fault) => SendFault::Fault(fault),
            StoreFault::BadObject(_) => SendFault::Graph(GraphFault::Store(fault)),
            StoreFault::Absent(_) => SendFault::Graph(GraphFault::Store(fault)),
            StoreFault::Damaged(_) => SendFault::Graph(GraphFault::Store(fault)),
        }
    }
}

impl From<GraphFault> for SendFault {
    ghost from_gives = { λ fault e. e ≡ from_graph fault };

    fn from(fault: GraphFault) -> Self {
        match fault {
            GraphFault::Missing(_) => SendFault::Graph(fault),
            GraphFault::Store(fault) => SendFault::from(fault),
        }
    }
}

impl From<RefFault> for SendFault {
    ghost from_gives = { λ fault e. e ≡ from_refs fault };

    fn from(fault: RefFault) -> Self {
        match fault {
            RefFault::Stale(current) => SendFault::Refs(RefFault::Stale(current)),
            RefFault::Conflict(name) => SendFault::Refs(RefFault::Conflict(name)),
            RefFault::BadRefFile(path) => SendFault::Refs(RefFault::BadRefFile(path)),
            RefFault::HeadLoop => SendFault::Refs(RefFault::HeadLoop),
            RefFault::Fault(fault) => SendFault::Fault(fault),
        }
    }
}

impl From<AllocError> for SendFault {
    ghost from_gives = { λ _ e. e ≡ Fault Memory };

    fn from(_: AllocError) -> Self {
        SendFault::Fault(Fault::Memory)
    }
}
