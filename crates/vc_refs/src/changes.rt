// What is asked of each ref when several are set at once, and what refuses it.
ghost use Rattle.std.specs.Prelude.{◌≡◌};
ghost use Rattle.vc_files.specs.declared.faults.Fault.TheVariants.{Memory};
ghost use Rattle.vc_refs.specs.declared.changes.SetAllFault.TheVariants.{Whole};
ghost use Rattle.vc_refs.specs.declared.faults.RefFault.TheVariants.{Fault};

use crate::RefFault;
use std::alloc::{AllocError, AllocFailed};
use std::error::Error;
use std::fmt;
use vc_files::Fault;
use vc_object::ObjectId;
use vc_refname::RefName;

/// A ref, the value that it is expected to have, and the one that it is to have.
#[derive(Drop)]
pub struct RefChange {
    /// The ref's name, in `refs/`.
    pub name: RefName,
    /// Its value before, or none if it isn't there.
    pub expected: Option<ObjectId>,
    /// Its value after, or none if it is to be removed.
    pub new: Option<ObjectId>,
}

/// What refuses several changes at once, by number, or the fault that ended them.
#[derive(Debug, Drop)]
pub enum SetAllFault {
    /// The first change that can't be made has this place in the list, and this is why: 31, 32, or 33 for a ref's own file.
    At(usize, RefFault),
    /// 33 for the packed file, out of memory, or a device that failed.
    Whole(RefFault),
}

impl fmt::Display for SetAllFault {
    fn fmt<W: fmt::Write>(&self, f: &mut fmt::Formatter<W>) -> fmt::Result {
        match self {
            SetAllFault::At(_, fault) => fmt::Display::fmt(fault, f),
            SetAllFault::Whole(fault) => fmt::Display::fmt(fault, f),
        }
    }
}

impl Error for SetAllFault {}

impl From<RefFault> for SetAllFault {
    ghost from_gives = { λ fault e. e ≡ Whole fault };

    fn from(fault: RefFault) -> Self {
        SetAllFault::Whole(fault)
    }
}

impl From<Fault> for SetAllFault {
    ghost from_gives = { λ fault e. e ≡ Whole (Fault fault) };

    fn from(fault: Fault) -> Self {
        SetAllFault::Whole(RefFault::Fault(fault))
    }
}

impl From<AllocError> for SetAllFault {
    ghost from_gives = { λ _ e. e ≡ Whole (Fault Memory) };

    fn from(_: AllocError) -> Self {
        SetAllFault::Whole(RefFault::Fault(Fault::Memory))
    }
}

impl<T: Drop> From<AllocFailed<T>> for SetAllFault {
    ghost from_gives = { λ _ e. e ≡ Whole (Fault Memory) };

    fn from(_: AllocFailed<T>) -> Self {
        SetAllFault::Whole(RefFault::Fault(Fault::Memory))
    }
}
