//! What refuses an exchange.
ghost use Rattle.std.specs.Prelude.{◌≡◌};
ghost use Rattle.vc_tracking.specs.Faults.{from_graph};

use std::alloc::{AllocError, AllocFailed};
use std::error::Error;
use std::fmt;
use vc_files::Fault;
use vc_graph::GraphFault;
use vc_object::ObjectId;
use vc_object_map::StoreFault;
use vc_pack::AnswerFault;
use vc_refs::RefFault;

/// Why a clone does not do what a message asks: files of the clone are at fault, or the device or memory is.
#[derive(Debug, Drop)]
pub enum ExchangeFault {
    /// 12: the file of an object is damaged.
    Store(StoreFault),
    /// 33: a file in `refs/` stands for no ref.
    Refs(RefFault),
    /// 92: with the pack, not all is there that this wanted id reaches.
    Incomplete(ObjectId),
    /// Want of memory, or a device that failed. It stands here alone, and in neither of the variants above.
    Fault(Fault),
}

impl fmt::Display for ExchangeFault {
    fn fmt<W: fmt::Write>(&self, f: &mut fmt::Formatter<W>) -> fmt::Result {
        match self {
            ExchangeFault::Store(fault) => fmt::Display::fmt(fault, f),
            ExchangeFault::Refs(fault) => fmt::Display::fmt(fault, f),
            ExchangeFault::Incomplete(id) => fmt::Display::fmt(&AnswerFault::Incomplete(*id), f),
            ExchangeFault::Fault(fault) => fmt::Display::fmt(fault, f),
        }
    }
}

impl Error for ExchangeFault {}

impl From<StoreFault> for ExchangeFault {
    ghost use Rattle.vc_tracking.specs.Faults.{from_store};

    ghost from_gives = { λ fault e. e ≡ from_store fault };

    fn from(fault: StoreFault) -> ExchangeFault {
        match fault {
            StoreFault::Fault(fault) => ExchangeFault::Fault(fault),
            StoreFault::BadObject(_) => ExchangeFault::Store(fault),
            StoreFault::Absent(_) => ExchangeFault::Store(fault),
            StoreFault::Damaged(_) => ExchangeFault::Store(fault),
        }
    }
}

impl From<RefFault> for ExchangeFault {
    ghost use Rattle.vc_tracking.specs.Faults.{from_refs};

    ghost from_gives = { λ fault e. e ≡ from_refs fault };

    fn from(fault: RefFault) -> ExchangeFault {
        match fault {
            RefFault::Fault(fault) => ExchangeFault::Fault(fault),
            RefFault::Stale(current) => ExchangeFault::Refs(RefFault::Stale(current)),
            RefFault::Conflict(name) => ExchangeFault::Refs(RefFault::Conflict(name)),
            RefFault::BadRefFile(path) => ExchangeFault::Refs(RefFault::BadRefFile(path)),
            RefFault::HeadLoop => ExchangeFault::Refs(RefFault::HeadLoop),
        }
    }
}

fn from_graph(fault: GraphFault) -> ExchangeFault
    ensures { result ≡ from_graph fault }
{
    match fault {
        GraphFault::Missing(id) => ExchangeFault::Incomplete(id),
        GraphFault::Store(fault) => ExchangeFault::Store(fault),
    }
}

impl From<AnswerFault> for ExchangeFault {
    ghost use Rattle.vc_tracking.specs.Faults.{from_answer};

    ghost from_gives = { λ fault e. e ≡ from_answer fault };

    // A pack is judged by what it should bring alone: of an answer's other refusals none comes. What is told of files stays as it
    // is: an answer tells a fault of the device in its own variant alone.
    fn from(fault: AnswerFault) -> ExchangeFault {
        match fault {
            AnswerFault::NotOurs(id) => ExchangeFault::Incomplete(id),
            AnswerFault::Incomplete(id) => ExchangeFault::Incomplete(id),
            AnswerFault::Refs(fault) => ExchangeFault::Refs(fault),
            AnswerFault::Graph(fault) => from_graph(fault),
            AnswerFault::Fault(fault) => ExchangeFault::Fault(fault),
        }
    }
}

impl From<Fault> for ExchangeFault {
    ghost use Rattle.vc_tracking.specs.declared.fault.ExchangeFault.TheVariants.{Fault as OfDevice};

    ghost from_gives = { λ fault e. e ≡ OfDevice fault };

    fn from(fault: Fault) -> ExchangeFault {
        ExchangeFault::Fault(fault)
    }
}

impl From<AllocError> for ExchangeFault {
    ghost use Rattle.vc_tracking.specs.declared.fault.ExchangeFault.TheVariants.{Fault as OfDevice};
    ghost use Rattle.vc_files.specs.declared.faults.Fault.TheVariants.{Memory};

    ghost from_gives = { λ _ e. e ≡ OfDevice Memory };

    fn from(_: AllocError) -> ExchangeFault {
        ExchangeFault::Fault(Fault::Memory)
    }
}

impl<T: Drop> From<AllocFailed<T>> for ExchangeFault {
    ghost use Rattle.vc_tracking.specs.declared.fault.ExchangeFault.TheVariants.{Fault as OfDevice};
    ghost use Rattle.vc_files.specs.declared.faults.Fault.TheVariants.{Memory};

    ghost from_gives = { λ _ e. e ≡ OfDevice Memory };

    fn from(_: AllocFailed<T>) -> ExchangeFault {
        ExchangeFault::Fault(Fault::Memory)
    }
}
