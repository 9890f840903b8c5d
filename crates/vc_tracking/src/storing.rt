//! Storing what a pack brings.
ghost use Rattle.std.specs.Prelude.{IfErr, OnOk, OnErr, IsErrOf, codes};
ghost use Rattle.vc_tracking.specs.Faults.{BlamesObjects};
ghost use Rattle.vc_tracking.specs.Storing.{AreSomeStored, AreStored};
ghost use Rattle.vc_files.specs.Failures.{Writes};
ghost use Rattle.vc_files.specs.FileMap.{SameOutside};
ghost use Rattle.vc_pkt.specs.ObjectStreamView.{carried};
ghost use Rattle.vc_quarantine.specs.Clean.{MakesNoneBad};

use std::alloc::Global;
use vc_files::{Fault, Files};
use vc_object::check;
use vc_object_map::StoreFault;
use vc_pkt::CarriedObjects;
use vc_store::put_named;

/// Stores the objects, in order of their names. One that is stored already stays as it is, and a body out of its kind's grammar
/// counts for nothing. 12 where a file stands in an object's place and isn't it. A call that ends early has stored some. No file
/// becomes bad.
pub fn store_all<F: Files>(
    files: &mut F,
    alloc: Global,
    objects: &CarriedObjects,
) -> Result<(), StoreFault>
    ensures stored { F.honest → OnOk result (AreStored (F.content files.old) (F.content files.new) (carried objects.now)) }
    ensures left { F.honest → OnErr result (AreSomeStored (F.content files.old) (F.content files.new) (carried objects.now)) }
    ensures refused { F.honest → IfErr result (BlamesObjects (F.content files.old)) }
    ensures outside { F.honest → SameOutside (codes "objects/") (F.content files.old) (F.content files.new) }
    ensures bad { F.honest → MakesNoneBad (F.content files.old) (F.content files.new) }
    ensures wear { Writes F.honest F.content F.failed F.can_fail F.left files.old files.new (IsErrOf result (StoreFault.Fault Fault.Device)) }
{
    for (id, object) in objects.by_name.iter() {
        if let Ok(object) = check(object.kind, &object.body) {
            put_named(files, alloc, id, &object)?;
        }
    }
    Ok(())
}
