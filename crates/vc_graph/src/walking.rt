//! The steps of the walk: names are read in the order in which they were met.
ghost use Rattle.std.specs.Prelude.{◌≡◌, ◌≤◌, ◌<◌, ◌^◌, ◌++◌, List, length, IfErr, IfOk, IfSome, IsErrOf, OnOk};
ghost use Rattle.vc_files.specs.Failures.{Wears};
ghost use Rattle.vc_graph.specs.Walking.{GoesTo};
ghost use Rattle.vc_object_map.specs.StoreFault.{IsMetFrom};
ghost use Rattle.vc_object.specs.ObjectMap.{links_in};
ghost use Rattle.vc_object.specs.declared.id.ObjectId.{ObjectId as Id};

use indexmap::IndexSet;
use vc_files::Fault;
use vc_object::ObjectId;
use vc_object_map::{Objects, StoreFault};

// Reads the names that were met, from a place on, and adds what they link to. The place of the first of them that is absent, at which it
// ends, or none where each is there.
pub(crate) fn walk_on<O: Objects>(
    objects: &mut O,
    met: &mut IndexSet<ObjectId>,
    place: usize,
) -> Result<Option<usize>, StoreFault>
    ensures went { IfOk result (λ absent. O.is_honest → GoesTo (links_in (O.objects (O.state_of objects.old))) met.old.keys place met.new.keys absent) }
    ensures within { IfOk result (λ absent. IfSome absent (λ at. (place ≤ at) × (at < length met.new.keys) × (at < 2 ^ 63))) }
    ensures grown { OnOk result ((more : List Id) × (met.new.keys ≡ met.old.keys ++ more)) }
    ensures refused { IfErr result (λ e. O.is_honest → IsMetFrom (O.objects (O.state_of objects.old)) (O.damaged (O.state_of objects.old)) met.old.keys e) }

    ensures kept { O.state_of objects.new ≡ O.state_of objects.old }
    ensures wear { Wears O.failed O.can_fail O.left objects.old objects.new (IsErrOf result (StoreFault.Fault Fault.Device)) }
{
    let mut next = place;
    while next < met.len() {
        let id = met[next];
        let Some(links) = objects.links(&id)? else {
            return Ok(Some(next));
        };
        met.extend(links)?;
        next += 1;
    }
    Ok(None)
}
