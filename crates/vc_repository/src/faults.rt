//! The faults of refs, as faults of a repository.
ghost use Rattle.std.specs.Prelude.{◌≡◌};
ghost use Rattle.vc_repository.specs.Faults.{of_refs};

use vc_files::Fault;
use vc_object_map::StoreFault;
use vc_refs::RefFault;
use vc_rev::SourceFault;

/// The fault of a repository that a look at a ref gives. No look answers that a ref is stale or in conflict: these two would
/// be told as want of memory.
pub(crate) fn refs_fault(fault: RefFault) -> SourceFault
    ensures { result ≡ of_refs fault }
{
    match fault {
        RefFault::Stale(_) => SourceFault::Store(StoreFault::Fault(Fault::Memory)),
        RefFault::Conflict(_) => SourceFault::Store(StoreFault::Fault(Fault::Memory)),
        RefFault::BadRefFile(path) => SourceFault::BadRefFile(path),
        RefFault::HeadLoop => SourceFault::HeadLoop,
        RefFault::Fault(fault) => SourceFault::Store(StoreFault::Fault(fault)),
    }
}
