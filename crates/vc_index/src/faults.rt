// Why a call on an index gives no answer.
ghost use Rattle.std.specs.Prelude.{◌≡◌};
ghost use Rattle.vc_files.specs.declared.faults.Fault.TheVariants.{Memory};
ghost use Rattle.vc_object_map.specs.declared.faults.StoreFault.TheVariants.{Fault};
ghost use Rattle.vc_index.specs.declared.faults.IndexFault.TheVariants.{Store};

use std::alloc::{AllocError, AllocFailed};
use vc_files::Fault;
use vc_object::ObjectId;
use vc_object_map::StoreFault;

/// Why a call on an index gives no answer.
#[derive(Drop)]
pub enum IndexFault {
    /// 60: the path is empty, longer than 4,096 bytes, or has a part that may not stand in a tree.
    BadPath,
    /// 61: a file's path is the folder of another's.
    PathConflict,
    /// 62: the bytes are no index text; the entry at this offset is the first at fault.
    BadIndex(usize),
    /// 63: what a tree has at this path is of another kind than its mode says. The root's path is empty.
    WrongEntry(Vec<u8>),
    /// 40: what a tree names is absent.
    Missing(ObjectId),
    /// What the store answered, 3 and 12 among it, and every fault.
    Store(StoreFault),
}

impl From<StoreFault> for IndexFault {
    ghost from_gives = { λ fault e. e ≡ Store fault };

    fn from(fault: StoreFault) -> Self {
        IndexFault::Store(fault)
    }
}

impl From<AllocError> for IndexFault {
    ghost from_gives = { λ _ e. e ≡ Store (Fault Memory) };

    fn from(_: AllocError) -> Self {
        IndexFault::Store(StoreFault::Fault(Fault::Memory))
    }
}

impl<T: Drop> From<AllocFailed<T>> for IndexFault {
    ghost from_gives = { λ _ e. e ≡ Store (Fault Memory) };

    fn from(_: AllocFailed<T>) -> Self {
        IndexFault::Store(StoreFault::Fault(Fault::Memory))
    }
}
