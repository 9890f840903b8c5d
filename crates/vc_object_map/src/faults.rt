// What a store answers where it can't answer what is asked.
ghost use Rattle.std.specs.Prelude.{◌≡◌, Some};
ghost use Rattle.vc_object_map.specs.Printed.{store_fault_text};
ghost use Rattle.vc_files.specs.declared.faults.Fault.TheVariants.{Memory};
ghost use Rattle.vc_object_map.specs.declared.faults.StoreFault.TheVariants.{BadObject, Fault};

use std::alloc::{AllocError, AllocFailed};
use std::error::Error;
use std::fmt;
use vc_files::Fault;
use vc_object::{ObjectFault, ObjectId};

/// What is printed where a name that is reached is absent.
pub const MISSING: &str = "40 Missing";

/// Why a store gives no answer.
#[derive(Clone, Copy, Debug)]
pub enum StoreFault {
    /// 1 to 10: the body is too large, or out of its kind's grammar.
    BadObject(ObjectFault),
    /// 11: there is no object with the name.
    Absent(ObjectId),
    /// 12: the file is no object with the name.
    Damaged(ObjectId),
    /// Want of memory, or a device that failed.
    Fault(Fault),
}

impl fmt::Display for StoreFault {
    ghost output = { λ fault. Some (store_fault_text fault) };

    fn fmt<W: fmt::Write>(&self, f: &mut fmt::Formatter<W>) -> fmt::Result {
        match self {
            StoreFault::BadObject(fault) => fmt::Display::fmt(fault, f),
            StoreFault::Absent(_) => f.write_str("11 Absent"),
            StoreFault::Damaged(_) => f.write_str("12 Damaged"),
            StoreFault::Fault(fault) => fmt::Display::fmt(fault, f),
        }
    }
}

impl Error for StoreFault {}

impl From<ObjectFault> for StoreFault {
    ghost from_gives = { λ fault e. e ≡ BadObject fault };

    fn from(fault: ObjectFault) -> Self {
        StoreFault::BadObject(fault)
    }
}

impl From<Fault> for StoreFault {
    ghost from_gives = { λ fault e. e ≡ Fault fault };

    fn from(fault: Fault) -> Self {
        StoreFault::Fault(fault)
    }
}

impl From<AllocError> for StoreFault {
    ghost from_gives = { λ _ e. e ≡ Fault Memory };

    fn from(_: AllocError) -> Self {
        StoreFault::Fault(Fault::Memory)
    }
}

impl<T: Drop> From<AllocFailed<T>> for StoreFault {
    ghost from_gives = { λ _ e. e ≡ Fault Memory };

    fn from(_: AllocFailed<T>) -> Self {
        StoreFault::Fault(Fault::Memory)
    }
}
