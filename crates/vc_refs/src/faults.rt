// Why a call on refs gives no answer.
ghost use Rattle.std.specs.Prelude.{◌≡◌, Some};
ghost use Rattle.vc_refs.specs.Printed.{ref_fault_text};
ghost use Rattle.vc_files.specs.declared.faults.Fault.TheVariants.{Memory};
ghost use Rattle.vc_refs.specs.declared.faults.RefFault.TheVariants.{Fault};

use std::alloc::{AllocError, AllocFailed};
use std::error::Error;
use std::fmt;
use vc_files::Fault;
use vc_object::ObjectId;
use vc_refname::{BAD_REF_FILE, HEAD_LOOP, RefName};

/// What refuses a call on refs, by number, or the fault that ended it.
#[derive(Debug, Drop)]
pub enum RefFault {
    /// 31: the ref has this value, and not the expected one; none if it isn't there.
    Stale(Option<ObjectId>),
    /// 32: this ref is there, and one of the two names is a folder of the other. It is the first such ref by the
    /// bytes of its name. Of all refs, which are to be packed, it is the first that is a folder of another.
    Conflict(RefName),
    /// 33: the file at this path stands for no ref, or, at `HEAD`, for no HEAD.
    BadRefFile(String),
    /// 34: HEAD names HEAD.
    HeadLoop,
    /// Want of memory, or a device that failed.
    Fault(Fault),
}

impl fmt::Display for RefFault {
    ghost output = { λ fault. Some (ref_fault_text fault) };

    fn fmt<W: fmt::Write>(&self, f: &mut fmt::Formatter<W>) -> fmt::Result {
        match self {
            RefFault::Stale(_) => f.write_str("31 Stale"),
            RefFault::Conflict(_) => f.write_str("32 Conflict"),
            RefFault::BadRefFile(_) => f.write_str(BAD_REF_FILE),
            RefFault::HeadLoop => f.write_str(HEAD_LOOP),
            RefFault::Fault(fault) => fmt::Display::fmt(fault, f),
        }
    }
}

impl Error for RefFault {}

impl From<Fault> for RefFault {
    ghost from_gives = { λ fault e. e ≡ Fault fault };

    fn from(fault: Fault) -> Self {
        RefFault::Fault(fault)
    }
}

impl From<AllocError> for RefFault {
    ghost from_gives = { λ _ e. e ≡ Fault Memory };

    fn from(_: AllocError) -> Self {
        RefFault::Fault(Fault::Memory)
    }
}

impl<T: Drop> From<AllocFailed<T>> for RefFault {
    ghost from_gives = { λ _ e. e ≡ Fault Memory };

    fn from(_: AllocFailed<T>) -> Self {
        RefFault::Fault(Fault::Memory)
    }
}
