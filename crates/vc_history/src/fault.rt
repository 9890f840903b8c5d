//! The refusals of this crate.
ghost use Rattle.std.specs.Prelude.{◌≡◌, Some};
ghost use Rattle.vc_history.specs.Printed.{history_fault_text};
ghost use Rattle.vc_history.specs.declared.fault.HistoryFault.TheVariants.{Store};
ghost use Rattle.vc_files.specs.declared.faults.Fault.TheVariants.{Memory};
ghost use Rattle.vc_object_map.specs.declared.faults.StoreFault.TheVariants.{Fault};

use std::alloc::{AllocError, AllocFailed};
use std::error::Error;
use std::fmt;
use vc_files::Fault;
use vc_object::ObjectId;
use vc_object_map::{MISSING, StoreFault};

/// What is printed where an object that should be a commit is of another kind.
pub const NOT_A_COMMIT: &str = "41 NotACommit";

/// Why a question about a history has no answer.
#[derive(Clone, Copy, Debug)]
pub enum HistoryFault {
    /// 40: a root, or a name that parent links lead to, is absent.
    Missing(ObjectId),
    /// 41: a root, or what parent links lead to, is an object of another kind.
    NotACommit(ObjectId),
    /// The layers below gave no answer: 12, or want of memory or a device.
    Store(StoreFault),
}

impl fmt::Display for HistoryFault {
    ghost output = { λ fault. Some (history_fault_text fault) };

    fn fmt<W: fmt::Write>(&self, f: &mut fmt::Formatter<W>) -> fmt::Result {
        match self {
            HistoryFault::Missing(_) => f.write_str(MISSING),
            HistoryFault::NotACommit(_) => f.write_str(NOT_A_COMMIT),
            HistoryFault::Store(fault) => fmt::Display::fmt(fault, f),
        }
    }
}

impl Error for HistoryFault {}

impl From<StoreFault> for HistoryFault {
    ghost from_gives = { λ fault e. e ≡ Store fault };

    fn from(fault: StoreFault) -> HistoryFault {
        HistoryFault::Store(fault)
    }
}

impl From<AllocError> for HistoryFault {
    ghost from_gives = { λ _ e. e ≡ Store (Fault Memory) };

    fn from(_: AllocError) -> HistoryFault {
        HistoryFault::Store(StoreFault::Fault(Fault::Memory))
    }
}

impl<T: Drop> From<AllocFailed<T>> for HistoryFault {
    ghost from_gives = { λ _ e. e ≡ Store (Fault Memory) };

    fn from(_: AllocFailed<T>) -> HistoryFault {
        HistoryFault::Store(StoreFault::Fault(Fault::Memory))
    }
}
