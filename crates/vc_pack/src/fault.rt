//! The refusals of this crate.
ghost use Rattle.std.specs.Prelude.{◌≡◌, Some};
ghost use Rattle.vc_pack.specs.Printed.{answer_fault_text};
ghost use Rattle.vc_pack.specs.AnswerFault.{from_store, from_graph, from_refs};
ghost use Rattle.vc_pack.specs.declared.fault.AnswerFault.TheVariants.{Fault};
ghost use Rattle.vc_files.specs.declared.faults.Fault.TheVariants.{Memory};

use std::alloc::AllocError;
use std::error::Error;
use std::fmt;
use vc_files::Fault;
use vc_graph::GraphFault;
use vc_object::ObjectId;
use vc_object_map::StoreFault;
use vc_refs::RefFault;

/// Why wants have no answer, or a pack is not taken.
#[derive(Debug, Drop)]
pub enum AnswerFault {
    /// 90: no ref of the node reaches this wanted id.
    NotOurs(ObjectId),
    /// 92: this wanted id reaches one that neither the store nor the pack has.
    Incomplete(ObjectId),
    /// 33 or 34: the files of the refs or of HEAD.
    Refs(RefFault),
    /// 40 or 12: an object that is reached is absent, or its file is damaged.
    Graph(GraphFault),
    /// Want of memory, or a device that failed. It stands here alone, and in none of the variants above.
    Fault(Fault),
}

impl fmt::Display for AnswerFault {
    ghost output = { λ fault. Some (answer_fault_text fault) };

    fn fmt<W: fmt::Write>(&self, f: &mut fmt::Formatter<W>) -> fmt::Result {
        match self {
            AnswerFault::NotOurs(_) => f.write_str("90 NotOurs"),
            AnswerFault::Incomplete(_) => f.write_str("92 Incomplete"),
            AnswerFault::Refs(fault) => fmt::Display::fmt(fault, f),
            AnswerFault::Graph(fault) => fmt::Display::fmt(fault, f),
            AnswerFault::Fault(fault) => fmt::Display::fmt(fault, f),
        }
    }
}

impl Error for AnswerFault {}

impl From<StoreFault> for AnswerFault {
    ghost from_gives = { λ fault e. e ≡ from_store fault };

    fn from(fault: StoreFault) -> Self {
        match fault {
            StoreFault::Fault(fault) => AnswerFault::Fault(fault),
            StoreFault::BadObject(_) => AnswerFault::Graph(GraphFault::Store(fault)),
            StoreFault::Absent(_) => AnswerFault::Graph(GraphFault::Store(fault)),
            StoreFault::Damaged(_) => AnswerFault::Graph(GraphFault::Store(fault)),
        }
    }
}

impl From<GraphFault> for AnswerFault {
    ghost from_gives = { λ fault e. e ≡ from_graph fault };

    fn from(fault: GraphFault) -> Self {
        match fault {
            GraphFault::Missing(_) => AnswerFault::Graph(fault),
            GraphFault::Store(fault) => AnswerFault::from(fault),
        }
    }
}

impl From<RefFault> for AnswerFault {
    ghost from_gives = { λ fault e. e ≡ from_refs fault };

    fn from(fault: RefFault) -> Self {
        match fault {
            RefFault::Stale(current) => AnswerFault::Refs(RefFault::Stale(current)),
            RefFault::Conflict(name) => AnswerFault::Refs(RefFault::Conflict(name)),
            RefFault::BadRefFile(path) => AnswerFault::Refs(RefFault::BadRefFile(path)),
            RefFault::HeadLoop => AnswerFault::Refs(RefFault::HeadLoop),
            RefFault::Fault(fault) => AnswerFault::Fault(fault),
        }
    }
}

impl From<Fault> for AnswerFault {
    ghost from_gives = { λ fault e. e ≡ Fault fault };

    fn from(fault: Fault) -> Self {
        AnswerFault::Fault(fault)
    }
}

impl From<AllocError> for AnswerFault {
    ghost from_gives = { λ _ e. e ≡ Fault Memory };

    fn from(_: AllocError) -> Self {
        AnswerFault::Fault(Fault::Memory)
    }
}
