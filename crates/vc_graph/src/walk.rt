//! The walk over links. One set is both what was met and what is still to be read, so each object is read once.
ghost use Rattle.std.specs.Prelude.{◌≡◌, ◌++◌, length, take, IfErr, IsErrOf, OnOk};
ghost use Rattle.vc_files.specs.Failures.{Wears};
ghost use Rattle.vc_object_map.specs.Graph.{AreExactly, IsFollowed, ReachedFrom};
ghost use Rattle.vc_graph.specs.GraphFault.{IsTold};
ghost use Rattle.vc_object.specs.ObjectMap.{links_in};

use crate::GraphFault;
use crate::walking::walk_on;
use indexmap::IndexSet;
use vc_files::Fault;
use vc_object::ObjectId;
use vc_object_map::{Objects, StoreFault};

// Adds to the names that were met the roots and all that they reach. What was met before is not read again.
pub(crate) fn walk<O: Objects>(
    objects: &mut O,
    roots: &[ObjectId],
    met: &mut IndexSet<ObjectId>,
) -> Result<(), GraphFault>
    requires { O.is_honest → IsFollowed (links_in (O.objects (O.state_of objects.old))) met.old.keys }
    ensures reached { OnOk result (O.is_honest → AreExactly (ReachedFrom (links_in (O.objects (O.state_of objects.old))) (met.old.keys ++ roots.now)) met.new.keys) }
    ensures followed { OnOk result (O.is_honest → IsFollowed (links_in (O.objects (O.state_of objects.old))) met.new.keys) }
    ensures first { OnOk result (take (length met.old.keys) met.new.keys ≡ met.old.keys) }
    ensures refused { IfErr result (λ e. O.is_honest → IsTold (O.objects (O.state_of objects.old)) (O.damaged (O.state_of objects.old)) (met.old.keys ++ roots.now) e) }

    ensures kept { O.state_of objects.new ≡ O.state_of objects.old }
    ensures wear { Wears O.failed O.can_fail O.left objects.old objects.new (IsErrOf result (GraphFault.Store (StoreFault.Fault Fault.Device))) }
{
    let place = met.len();
    met.extend(roots)?;
    match walk_on(objects, met, place)? {
        None => Ok(()),
        Some(absent) => Err(GraphFault::Missing(met[absent])),
    }
}
