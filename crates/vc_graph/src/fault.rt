//! The refusals of this crate.
ghost use Rattle.std.specs.Prelude.{◌≡◌, Some};
ghost use Rattle.vc_graph.specs.Printed.{graph_fault_text};

use std::alloc::AllocError;
use std::error::Error;
use std::fmt;
use vc_files::Fault;
use vc_object::ObjectId;
use vc_object_map::{MISSING, StoreFault};

/// Why a question about a graph has no answer.
#[derive(Clone, Copy, Debug)]
pub enum GraphFault {
    /// 40: a name that is reached from a root is absent.
    Missing(ObjectId),
    /// The store gave none.
    Store(StoreFault),
}

impl fmt::Display for GraphFault {
    ghost output = { λ fault. Some (graph_fault_text fault) };

    fn fmt<W: fmt::Write>(&self, f: &mut fmt::Formatter<W>) -> fmt::Result {
        match self {
            GraphFault::Missing(_) => f.write_str(MISSING),
            GraphFault::Store(fault) => fmt::Display::fmt(fault, f),
        }
    }
}

impl Error for GraphFault {}

impl From<StoreFault> for GraphFault {
    ghost use Rattle.vc_graph.specs.declared.fault.GraphFault.TheVariants.{Store};

    ghost from_gives = { λ fault e. e ≡ Store fault };

    fn from(fault: StoreFault) -> GraphFault {
        GraphFault::Store(fault)
    }
}

impl From<AllocError> for GraphFault {
    ghost use Rattle.vc_graph.specs.declared.fault.GraphFault.TheVariants.{Store};
    ghost use Rattle.vc_files.specs.declared.faults.Fault.TheVariants.{Memory};
    ghost use Rattle.vc_object_map.specs.declared.faults.StoreFault.TheVariants.{Fault};

    ghost from_gives = { λ _ e. e ≡ Store (Fault Memory) };

    fn from(_: AllocError) -> GraphFault {
        GraphFault::Store(StoreFault::Fault(Fault::Memory))
    }
}
