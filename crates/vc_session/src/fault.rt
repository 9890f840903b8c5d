//! The refusals of a step.
ghost use Rattle.std.specs.Prelude.{◌≡◌};

use std::alloc::AllocError;
use std::error::Error;
use std::fmt;
use vc_files::Fault;
use vc_object_map::StoreFault;
use vc_refs::{RefFault, SetAllFault};

/// Why a step of a push is not done: files of the node are at fault, or the device or memory is.
#[derive(Debug, Drop)]
pub enum SessionFault {
    /// 12: the file of an object is damaged, in the store or in the quarantine; 11: a carried object is gone from there.
    Store(StoreFault),
    /// 33: a file in `refs/` stands for no ref, or the packed file can't be read.
    Refs(RefFault),
    /// Want of memory, or a device that failed. It stands here alone, and in neither of the variants above.
    Fault(Fault),
}

impl fmt::Display for SessionFault {
    fn fmt<W: fmt::Write>(&self, f: &mut fmt::Formatter<W>) -> fmt::Result {
        match self {
            SessionFault::Store(fault) => fmt::Display::fmt(fault, f),
            SessionFault::Refs(fault) => fmt::Display::fmt(fault, f),
            SessionFault::Fault(fault) => fmt::Display::fmt(fault, f),
        }
    }
}

impl Error for SessionFault {}

impl From<StoreFault> for SessionFault {
    ghost use Rattle.vc_session.specs.SessionFault.{from_store};

    ghost from_gives = { λ fault e. e ≡ from_store fault };

    fn from(fault: StoreFault) -> SessionFault {
        match fault {
            StoreFault::Fault(fault) => SessionFault::Fault(fault),
            StoreFault::BadObject(_) => SessionFault::Store(fault),
            StoreFault::Absent(_) => SessionFault::Store(fault),
            StoreFault::Damaged(_) => SessionFault::Store(fault),
        }
    }
}

impl From<RefFault> for SessionFault {
    ghost use Rattle.vc_session.specs.SessionFault.{from_refs};

    ghost from_gives = { λ fault e. e ≡ from_refs fault };

    fn from(fault: RefFault) -> SessionFault {
        match fault {
            RefFault::Fault(fault) => SessionFault::Fault(fault),
            RefFault::Stale(current) => SessionFault::Refs(RefFault::Stale(current)),
            RefFault::Conflict(name) => SessionFault::Refs(RefFault::Conflict(name)),
            RefFault::BadRefFile(path) => SessionFault::Refs(RefFault::BadRefFile(path)),
            RefFault::HeadLoop => SessionFault::Refs(RefFault::HeadLoop),
        }
    }
}

impl From<SetAllFault> for SessionFault {
    ghost use Rattle.vc_session.specs.SessionFault.{from_set};

    ghost from_gives = { λ fault e. e ≡ from_set fault };

    fn from(fault: SetAllFault) -> SessionFault {
        match fault {
            SetAllFault::At(_, fault) => SessionFault::Refs(fault),
            SetAllFault::Whole(fault) => SessionFault::from(fault),
        }
    }
}

impl From<Fault> for SessionFault {
    ghost use Rattle.vc_session.specs.declared.fault.SessionFault.TheVariants.{Fault as OfDevice};

    ghost from_gives = { λ fault e. e ≡ OfDevice fault };

    fn from(fault: Fault) -> SessionFault {
        SessionFault::Fault(fault)
    }
}

impl From<AllocError> for SessionFault {
    ghost use Rattle.vc_session.specs.declared.fault.SessionFault.TheVariants.{Fault as OfDevice};
    ghost use Rattle.vc_files.specs.declared.faults.Fault.TheVariants.{Memory};

    ghost from_gives = { λ _ e. e ≡ OfDevice Memory };

    fn from(_: AllocError) -> SessionFault {
        SessionFault::Fault(Fault::Memory)
    }
}
