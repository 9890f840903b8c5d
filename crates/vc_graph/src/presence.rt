//! What is there of all that roots reach.
ghost use Rattle.std.specs.Prelude.{◌≡◌, IfOk, IfErr, IsErrOf};
ghost use Rattle.vc_files.specs.Failures.{Wears};
ghost use Rattle.vc_object_map.specs.Graph.{AreExactly};
ghost use Rattle.vc_object_map.specs.Present.{IsPresentFrom};
ghost use Rattle.vc_object_map.specs.StoreFault.{IsMetFrom};
ghost use Rattle.vc_object.specs.ObjectId.{IsSortedByName};

use crate::walking::walk_on;
use indexmap::IndexSet;
use std::alloc::Global;
use vc_files::Fault;
use vc_object::ObjectId;
use vc_object_map::{Objects, StoreFault, sorted_difference};

/// Every name that is reached from the roots and is there, sorted by name: the roots too, where they are. A name that is absent is
/// passed over, so none is missing. Each object is read once.
pub fn present<O: Objects>(
    alloc: Global,
    objects: &mut O,
    roots: &[ObjectId],
) -> Result<Vec<ObjectId>, StoreFault>
    ensures reached { IfOk result (λ ids. O.is_honest → AreExactly (IsPresentFrom (O.objects (O.state_of objects.old)) roots.now) ids.items) }
    ensures sorted { IfOk result (λ ids. IsSortedByName ids.items) }
    ensures refused { IfErr result (λ e. O.is_honest → IsMetFrom (O.objects (O.state_of objects.old)) (O.damaged (O.state_of objects.old)) roots.now e) }

    ensures kept { O.state_of objects.new ≡ O.state_of objects.old }
    ensures wear { Wears O.failed O.can_fail O.left objects.old objects.new (IsErrOf result (StoreFault.Fault Fault.Device)) }
{
    let mut met = IndexSet::new(alloc);
    let mut absent = IndexSet::new(alloc);
    met.extend(roots)?;
    let mut next = 0;
    while let Some(place) = walk_on(objects, &mut met, next)? {
        absent.insert(met[place])?;
        next = place + 1;
    }
    Ok(sorted_difference(alloc, &met, &absent)?)
}
