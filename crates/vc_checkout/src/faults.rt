// Why a work tree was not changed, or not compared.
ghost use Rattle.std.specs.Prelude.{◌≡◌};
ghost use Rattle.vc_files.specs.declared.faults.Fault.TheVariants.{Memory};
ghost use Rattle.vc_object_map.specs.declared.faults.StoreFault.TheVariants.{Fault};
ghost use Rattle.vc_index.specs.declared.faults.IndexFault.TheVariants.{Store};
ghost use Rattle.vc_checkout.specs.declared.faults.CheckoutFault.TheVariants.{Index};

use std::alloc::{AllocError, AllocFailed};
use vc_files::Fault;
use vc_index::IndexFault;
use vc_object_map::StoreFault;

/// Why a work tree was not changed, or not compared.
#[derive(Drop)]
pub enum CheckoutFault {
    /// 70: the file with this path was changed and not staged, and the change would be lost.
    LocalChange(Vec<u8>),
    /// 71: a file that the index lacks, or that lies where it has a commit of another repository, stands where the file
    /// with this path is to be written.
    InTheWay(Vec<u8>),
    /// 60: the work tree can't hold what is due at this path.
    BadPath(Vec<u8>),
    /// 72: a file with this path, which is not UTF-8, can't be written.
    NotText(Vec<u8>),
    /// What the reading of the tree answered, and every fault.
    Index(IndexFault),
}

impl From<IndexFault> for CheckoutFault {
    ghost from_gives = { λ fault e. e ≡ Index fault };

    fn from(fault: IndexFault) -> Self {
        CheckoutFault::Index(fault)
    }
}

impl From<StoreFault> for CheckoutFault {
    ghost from_gives = { λ fault e. e ≡ Index (Store fault) };

    fn from(fault: StoreFault) -> Self {
        CheckoutFault::Index(IndexFault::Store(fault))
    }
}

impl From<Fault> for CheckoutFault {
    ghost from_gives = { λ fault e. e ≡ Index (Store (Fault fault)) };

    fn from(fault: Fault) -> Self {
        CheckoutFault::Index(IndexFault::Store(StoreFault::Fault(fault)))
    }
}

impl From<AllocError> for CheckoutFault {
    ghost from_gives = { λ _ e. e ≡ Index (Store (Fault Memory)) };

    fn from(_: AllocError) -> Self {
        CheckoutFault::Index(IndexFault::Store(StoreFault::Fault(Fault::Memory)))
    }
}

impl<T: Drop> From<AllocFailed<T>> for CheckoutFault {
    ghost from_gives = { λ _ e. e ≡ Index (Store (Fault Memory)) };

    fn from(_: AllocFailed<T>) -> Self {
        CheckoutFault::Index(IndexFault::Store(StoreFault::Fault(Fault::Memory)))
    }
}
