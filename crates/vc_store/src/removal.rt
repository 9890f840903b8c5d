// Taking objects away.
ghost use Rattle.std.specs.Prelude.{◌⊎◌, IsErrOf};
ghost use Rattle.vc_files.specs.Failures.{Wears, Writes};
ghost use Rattle.vc_store.specs.Removing.{IsThere, Removes};

use crate::paths::object_path;
use crate::reading::has;
use std::alloc::Global;
use vc_files::{Fault, Files};
use vc_object::ObjectId;
use vc_object_map::StoreFault;

/// Takes the object with this name away, and answers whether there was one. Its file is read first: where there is none, nothing is
/// written, and a damaged one stays (12). No other file is touched.
pub fn remove<F: Files>(files: &mut F, alloc: Global, id: &ObjectId) -> Result<bool, StoreFault>
    ensures removes { Removes F.honest F.content id.now files.old files.new result }
    ensures wear { Writes F.honest F.content F.failed F.can_fail F.left files.old files.new (IsErrOf result (StoreFault.Fault Fault.Device)) }
    ensures looks { IsThere F.honest F.content id.now files.old ⊎ Wears F.failed F.can_fail F.left files.old files.new (IsErrOf result (StoreFault.Fault Fault.Device)) }
{
    let id = &id.named();
    let there = has(files, alloc, id)?;
    if there {
        let file = object_path(alloc, id)?;
        files.remove(alloc, file.as_str())?;
    }
    Ok(there)
}
