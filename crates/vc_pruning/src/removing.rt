// Taking away all objects but those of some names.
ghost use Rattle.std.specs.Prelude.{◌≡◌, ◌≤◌, IfErr, IfOk, IsErrOf, OnErr, OnOk, Contains};
ghost use Rattle.vc_files.specs.Failures.{Writes};
ghost use Rattle.vc_object.specs.ObjectId.{IsSortedByName};
ghost use Rattle.vc_object_map.specs.Store.{IsDamaged};
ghost use Rattle.vc_object_map.specs.StoreFault.{IsMet};
ghost use Rattle.vc_pruning.specs.Removing.{SparesFiles, TakesAll, TakesOne, TakesSome};

use indexmap::IndexSet;
use std::alloc::Global;
use vc_files::{Fault, Files};
use vc_object::ObjectId;
use vc_object_map::StoreFault;
use vc_pack::is_among;
use vc_store::{names, remove};

/// The names of objects that stay, as they are put together from several lists.
pub type KeptNames = IndexSet<ObjectId>;

// Takes an object away unless its name is one of those, which are sorted. How many objects that is: a name that has no object is none.
fn remove_unless_kept<F: Files>(
    alloc: Global,
    files: &mut F,
    kept: &[ObjectId],
    id: &ObjectId,
) -> Result<u64, StoreFault>
    requires { IsSortedByName kept.now }
    ensures takes { F.honest → IfOk result (TakesOne kept.now id.now (F.content files.old) (F.content files.new)) }
    ensures few { IfOk result (λ n. n ≤ 1) }
    ensures spares { F.honest → SparesFiles (F.content files.old) (F.content files.new) }
    ensures whole { F.honest → OnOk result (IsDamaged (F.content files.old) id.now → Contains kept.now id.now) }
    ensures err { F.honest → OnErr result (F.content files.new ≡ F.content files.old) }
    ensures refused { F.honest → IfErr result (IsMet (λ q. ¬ Contains kept.now q) (IsDamaged (F.content files.old))) }
    ensures wear { Writes F.honest F.content F.failed F.can_fail F.left files.old files.new (IsErrOf result (StoreFault.Fault Fault.Device)) }
{
    let id = &id.named();
    if is_among(kept, id) {
        return Ok(0);
    }
    let there = remove(files, alloc, id)?;
    if there {
        return Ok(1);
    }
    Ok(0)
}

/// Takes away each object whose name is none of those, which are sorted, and answers how many these were. A damaged file in the place
/// of such an object stays, and is 12. A call that ends early has taken away some of them, and nothing else.
pub fn remove_others<F: Files>(
    alloc: Global,
    files: &mut F,
    kept: &[ObjectId],
) -> Result<u64, StoreFault>
    requires { IsSortedByName kept.now }
    ensures all { F.honest → IfOk result (TakesAll kept.now (F.content files.old) (F.content files.new)) }
    ensures some { F.honest → TakesSome kept.now (F.content files.old) (F.content files.new) }
    ensures refused { F.honest → IfErr result (IsMet (λ q. ¬ Contains kept.now q) (IsDamaged (F.content files.old))) }
    ensures wear { Writes F.honest F.content F.failed F.can_fail F.left files.old files.new (IsErrOf result (StoreFault.Fault Fault.Device)) }
{
    let listed = names(files, alloc)?;
    let mut removed = 0;
    for name in &listed {
        removed += remove_unless_kept(alloc, files, kept, name)?;
    }
    Ok(removed)
}
