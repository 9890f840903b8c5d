//! Which of the wants and the haves the refs reach.
ghost use Rattle.std.specs.Prelude.{◌≡◌, ◌++◌, IfOk, IfErr, IsErrOf, IsTrue, OnOk, filter, is_some};
ghost use Rattle.vc_pack.specs.Answer.{AreThoseReached};
ghost use Rattle.vc_files.specs.Failures.{Wears};
ghost use Rattle.vc_graph.specs.GraphFault.{IsTold};
ghost use Rattle.vc_known.specs.Known.{Agrees, ReachesLast, layer_in};
ghost use Rattle.vc_object.specs.ObjectId.{IsSortedByName};
ghost use Rattle.vc_object_map.specs.Store.{objects, IsDamaged};
ghost use Rattle.vc_object_map.specs.StoreFault.{IsMetFrom};

use crate::counting::are_among;
use crate::values::sorted_names;
use std::alloc::{AllocError, Global};
use vc_fetch::Want;
use vc_files::{Fault, Files};
use vc_graph::{GraphFault, closure};
use vc_known::Known;
use vc_object::ObjectId;
use vc_object_map::StoreFault;
use vc_store::Store;

// Adds those of the names that are known.
fn add_known(ids: &mut Vec<ObjectId>, known: &Known, names: &[ObjectId]) -> Result<(), AllocError>
    ensures { OnOk result (ids.new.items ≡ ids.old.items ++ filter (λ id. is_some (layer_in known.now id)) names.now) }
{
    for name in names {
        if known.is_known(name) {
            ids.push(*name)?;
        }
    }
    Ok(())
}

// Whether something is known, and the roots are found to reach all of it.
fn reach_known<F: Files>(
    alloc: Global,
    files: &mut F,
    known: &Known,
    roots: &[ObjectId],
) -> Result<bool, StoreFault>
    ensures reach { F.honest → IfOk result (λ answer. IsTrue answer → ReachesLast (objects (F.content files.old)) known.now roots.now) }
    ensures refused { F.honest → IfErr result (IsMetFrom (objects (F.content files.old)) (IsDamaged (F.content files.old)) roots.now) }
    ensures same { F.content files.new ≡ F.content files.old }
    ensures wear { Wears F.failed F.can_fail F.left files.old files.new (IsErrOf result (StoreFault.Fault Fault.Device)) }
{
    let count = known.moments();
    if count == 0 {
        return Ok(false);
    }
    let reached = known.last_reached(alloc, &mut Store::new(alloc, files), roots)?;
    Ok(reached == count)
}

// What the roots reach above all that is known, and those of the wants and the haves that are known, sorted by name.
fn names_above<F: Files>(
    alloc: Global,
    files: &mut F,
    known: &Known,
    roots: &[ObjectId],
    want: &Want,
) -> Result<Vec<ObjectId>, GraphFault>
    ensures names { F.honest → Agrees (objects (F.content files.old)) known.now → ReachesLast (objects (F.content files.old)) known.now roots.now → IfOk result (λ ids. AreThoseReached (objects (F.content files.old)) roots.now want.now ids.items) }
    ensures sorted { IfOk result (λ ids. IsSortedByName ids.items) }
    ensures refused { F.honest → IfErr result (IsTold (objects (F.content files.old)) (IsDamaged (F.content files.old)) roots.now) }
    ensures same { F.content files.new ≡ F.content files.old }
    ensures wear { Wears F.failed F.can_fail F.left files.old files.new (IsErrOf result (GraphFault.Store (StoreFault.Fault Fault.Device))) }
{
    let count = known.moments();
    let mut ids = known.reached_above(alloc, &mut Store::new(alloc, files), count, roots)?;
    add_known(&mut ids, known, &want.wants)?;
    add_known(&mut ids, known, &want.haves)?;
    let names = sorted_names(alloc, &ids)?;
    Ok(names)
}

// Names among which are those of the wants and the haves that the values of the refs reach, and of these no others, sorted by name: the
// values if all wants and haves are such values; else those that are known and what lies above, if the values are found to reach all
// that is known; else all that they reach.
pub(crate) fn our_names<F: Files>(
    alloc: Global,
    files: &mut F,
    known: &Known,
    values: &[ObjectId],
    want: &Want,
) -> Result<Vec<ObjectId>, GraphFault>
    ensures names { F.honest → Agrees (objects (F.content files.old)) known.now → IfOk result (λ ids. AreThoseReached (objects (F.content files.old)) values.now want.now ids.items) }
    ensures sorted { IfOk result (λ ids. IsSortedByName ids.items) }
    ensures refused { F.honest → IfErr result (IsTold (objects (F.content files.old)) (IsDamaged (F.content files.old)) values.now) }
    ensures same { F.content files.new ≡ F.content files.old }
    ensures wear { Wears F.failed F.can_fail F.left files.old files.new (IsErrOf result (GraphFault.Store (StoreFault.Fault Fault.Device))) }
{
    let sorted = sorted_names(alloc, values)?;
    if are_among(&sorted, want) {
        return Ok(sorted);
    }
    if reach_known(alloc, files, known, values)? {
        let names = names_above(alloc, files, known, values, want)?;
        return Ok(names);
    }
    let names = closure(alloc, &mut Store::new(alloc, files), values)?;
    Ok(names)
}
