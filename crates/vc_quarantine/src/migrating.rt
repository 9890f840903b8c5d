//! Storing what a push carries.
ghost use Rattle.std.specs.Prelude.{◌≡◌, ◌≢◌, ◌⊎◌, ◌∷◌, [], codes, IfErr, OnErr, OnOk, IsErrOf};
ghost use Rattle.vc_files.specs.FileMap.{SameOutside};
ghost use Rattle.vc_files.specs.Failures.{Wears, Writes};
ghost use Rattle.vc_object.specs.declared.id.ObjectId.{ObjectId as Id};
ghost use Rattle.vc_object_map.specs.Store.{IsDamaged, objects};
ghost use Rattle.vc_quarantine.specs.Clean.{MakesNoneBad};
ghost use Rattle.vc_quarantine.specs.Migrating.{IsFrontMigrated, migrated};
ghost use Rattle.vc_quarantine.specs.Blames.{BlamesMigration};

use crate::quarantine::find_in_quarantine;
use std::alloc::Global;
use vc_files::{Fault, Files};
use vc_object::ObjectId;
use vc_object_map::StoreFault;
use vc_store::put_named;

// Stores the object of a slot's quarantine that has this name.
fn migrate_one<F: Files>(
    files: &mut F,
    alloc: Global,
    slot: u8,
    id: &ObjectId,
) -> Result<(), StoreFault>
    ensures stored { F.honest → OnOk result ((q : Id) → objects (F.content files.new) q ≡ migrated (F.content files.old) slot (id.now ∷ []) q) }
    ensures outside { F.honest → SameOutside (codes "objects/") (F.content files.old) (F.content files.new) }
    ensures refused { F.honest → IfErr result (BlamesMigration (F.content files.old) slot (id.now ∷ [])) }
    ensures undamaged { F.honest → (q : Id) → IsDamaged (F.content files.new) q → IsDamaged (F.content files.old) q }
    ensures err { F.honest → OnErr result (F.content files.new ≡ F.content files.old) }
    ensures wear { Writes F.honest F.content F.failed F.can_fail F.left files.old files.new (IsErrOf result (StoreFault.Fault Fault.Device)) }
{
    let Some(carried) = find_in_quarantine(files, alloc, slot, id)? else {
        return Err(StoreFault::Absent(*id));
    };
    put_named(files, alloc, id, &carried.object())?;
    Ok(())
}

/// Stores the objects of a slot's quarantine that have these names, in their order. One that is stored already stays as it
/// is; 11 where the quarantine lacks one, 12 where a file is damaged. A call that ends early has stored those before. No
/// file becomes bad.
pub fn migrate<F: Files>(
    files: &mut F,
    alloc: Global,
    slot: u8,
    names: &[ObjectId],
) -> Result<(), StoreFault>
    ensures stored { F.honest → OnOk result ((q : Id) → objects (F.content files.new) q ≡ migrated (F.content files.old) slot names.now q) }
    ensures outside { F.honest → SameOutside (codes "objects/") (F.content files.old) (F.content files.new) }
    ensures refused { F.honest → IfErr result (BlamesMigration (F.content files.old) slot names.now) }
    ensures left { F.honest → OnErr result (IsFrontMigrated (F.content files.old) slot names.now (F.content files.new)) }
    ensures bad { F.honest → MakesNoneBad (F.content files.old) (F.content files.new) }
    ensures wear { Writes F.honest F.content F.failed F.can_fail F.left files.old files.new (IsErrOf result (StoreFault.Fault Fault.Device)) }
    ensures looks { (names.now ≢ []) ⊎ Wears F.failed F.can_fail F.left files.old files.new (IsErrOf result (StoreFault.Fault Fault.Device)) }
{
    for id in names {
        migrate_one(files, alloc, slot, id)?;
    }
    Ok(())
}
