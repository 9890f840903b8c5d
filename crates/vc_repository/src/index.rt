//! The index that files hold.
ghost use Rattle.std.specs.Prelude.{◌≡◌, IfOk, IfErr, IsErrOf};
ghost use Rattle.vc_files.specs.Failures.{Wears};
ghost use Rattle.vc_index.specs.IndexMap.{IsIndex};
ghost use Rattle.vc_index.specs.IndexText.{index_text};
ghost use Rattle.vc_repository.specs.IndexFile.{IsIndexOf, IsOfText, IsOfIndexFile, of_index};

use std::alloc::Global;
use vc_files::{Fault, Files};
use vc_index::{Index, IndexFault};
use vc_object_map::StoreFault;
use vc_rev::SourceFault;

/// The path of the file that holds the index.
pub const INDEX: &str = "index";

// The fault of a repository that a look at the index gives: 62, or a fault. Reading a text answers none of the others.
fn index_fault(fault: IndexFault) -> SourceFault
    ensures { result ≡ of_index fault }
{
    match fault {
        IndexFault::BadIndex(place) => SourceFault::BadIndex(place),
        IndexFault::Store(fault) => SourceFault::Store(fault),
        IndexFault::BadPath => SourceFault::Store(StoreFault::Fault(Fault::Memory)),
        IndexFault::PathConflict => SourceFault::Store(StoreFault::Fault(Fault::Memory)),
        IndexFault::WrongEntry(_) => SourceFault::Store(StoreFault::Fault(Fault::Memory)),
        IndexFault::Missing(_) => SourceFault::Store(StoreFault::Fault(Fault::Memory)),
    }
}

// The index that a text spells.
fn spelled(alloc: Global, bytes: &[u8]) -> Result<Index, SourceFault>
    ensures ok { IfOk result (λ index. bytes.now ≡ index_text index) }
    ensures index { IfOk result IsIndex }
    ensures refused { IfErr result (IsOfText bytes.now) }
{
    match Index::read(alloc, bytes) {
        Ok(index) => Ok(index),
        Err(fault) => Err(index_fault(fault)),
    }
}

/// The index in the file `index`; without that file it is empty. A text that is none is 62, with the place in it.
pub fn read_index<F: Files>(alloc: Global, files: &mut F) -> Result<Index, SourceFault>
    ensures found { F.honest → IfOk result (IsIndexOf (F.content files.old)) }
    ensures refused { F.honest → IfErr result (IsOfIndexFile (F.content files.old)) }
    ensures same { F.content files.new ≡ F.content files.old }
    ensures wear { Wears F.failed F.can_fail F.left files.old files.new (IsErrOf result (SourceFault.Store (StoreFault.Fault Fault.Device))) }
{
    let found = match files.get(alloc, INDEX) {
        Ok(found) => found,
        Err(fault) => return Err(SourceFault::Store(StoreFault::Fault(fault))),
    };
    match found {
        Some(bytes) => spelled(alloc, &bytes),
        None => Ok(Index::new(alloc)),
    }
}
