//! Which of several roots is the first that reaches a name that is absent.
ghost use Rattle.std.specs.Prelude.{◌≡◌, IfOk, IfErr, IsErrOf};
ghost use Rattle.vc_files.specs.Failures.{Wears};
ghost use Rattle.vc_object_map.specs.StoreFault.{IsMetFrom};
ghost use Rattle.vc_graph.specs.Incomplete.{IsAnswerOfFirst};
ghost use Rattle.vc_object.specs.ObjectMap.{links_in};

use crate::GraphFault;
use crate::walk::walk;
use indexmap::IndexSet;
use std::alloc::Global;
use vc_files::Fault;
use vc_object::ObjectId;
use vc_object_map::{Objects, StoreFault};

/// The first of the roots that reaches an absent name, or none where all that they reach is there. Each object is read
/// once, also one that several roots reach.
pub fn first_incomplete<O: Objects>(
    alloc: Global,
    objects: &mut O,
    roots: &[ObjectId],
) -> Result<Option<ObjectId>, StoreFault>
    ensures first { IfOk result (λ found. O.is_honest → IsAnswerOfFirst (links_in (O.objects (O.state_of objects.old))) roots.now found) }
    ensures refused { IfErr result (λ e. O.is_honest → IsMetFrom (O.objects (O.state_of objects.old)) (O.damaged (O.state_of objects.old)) roots.now e) }

    ensures kept { O.state_of objects.new ≡ O.state_of objects.old }
    ensures wear { Wears O.failed O.can_fail O.left objects.old objects.new (IsErrOf result (StoreFault.Fault Fault.Device)) }
{
    let mut met = IndexSet::new(alloc);
    for root in roots {
        match walk(objects, &[*root], &mut met) {
            Ok(()) => {}
            Err(GraphFault::Missing(_)) => return Ok(Some(*root)),
            Err(GraphFault::Store(fault)) => return Err(fault),
        }
    }
    Ok(None)
}
