//! The objects of a store that are sent.
ghost use Rattle.std.specs.Prelude.{◌≡◌, ◌++◌, ◌∷◌, [], map, IfOk, IfErr, IsErrOf, List, OnOk, Some};
ghost use Rattle.vc_pack.specs.Sent.{AreSentBeyond, IsSentUnlessReached, links_beyond};
ghost use Rattle.vc_files.specs.Failures.{Wears};
ghost use Rattle.vc_object_map.specs.Complete.{AreComplete};
ghost use Rattle.vc_graph.specs.GraphFault.{IsTold};
ghost use Rattle.vc_known.specs.Reach.{IsReachOf, has_in};
ghost use Rattle.vc_object.specs.Decoding.{StoredObject};
ghost use Rattle.vc_object.specs.ObjectId.{IsSortedByName};
ghost use Rattle.vc_object.specs.ObjectMap.{links_in};
ghost use Rattle.vc_object.specs.declared.id.ObjectId.{ObjectId as Id};
ghost use Rattle.vc_pkt.specs.Carried.{stored_name, with_object};
ghost use Rattle.vc_pkt.specs.ObjectStreamView.{carried};
ghost use Rattle.vc_object_map.specs.Store.{objects, IsDamaged};

use indexmap::IndexSet;
use std::alloc::Global;
use vc_files::{Fault, Files};
use vc_graph::GraphFault;
use vc_known::Reach;
use vc_object::{ObjectId, links};
use vc_object_map::{StoreFault, add_names};
use vc_pkt::{CarriedObjects, StreamObject};
use vc_store::find_named;

// Adds the stored object with this name to those that are sent. The answer is what it links to.
fn send<F: Files>(
    alloc: Global,
    files: &mut F,
    sent: &mut CarriedObjects,
    id: &ObjectId,
) -> Result<Vec<ObjectId>, GraphFault>
    ensures links { F.honest → IfOk result (λ ids. links_in (objects (F.content files.old)) id.now ≡ Some ids.items) }
    ensures sent { F.honest → OnOk result ((o : StoredObject) × (objects (F.content files.old) id.now ≡ Some o) × (carried sent.new ≡ with_object o (carried sent.old))) }
    ensures refused { F.honest → IfErr result (IsTold (objects (F.content files.old)) (IsDamaged (F.content files.old)) (id.now ∷ [])) }
    ensures same { F.content files.new ≡ F.content files.old }
    ensures wear { Wears F.failed F.can_fail F.left files.old files.new (IsErrOf result (GraphFault.Store (StoreFault.Fault Fault.Device))) }
{
    let Some(stored) = find_named(files, alloc, id)? else {
        return Err(GraphFault::Missing(*id));
    };
    let ids = links(alloc, &stored.object())?;
    let object = StreamObject {
        kind: stored.kind,
        body: stored.body,
    };
    sent.add_named(*id, object)?;
    Ok(ids)
}

// Adds the stored object with this name to those that are sent, unless the name is reached already. The answer is what it links to;
// nothing if it is reached already, and then it isn't read.
fn send_unless_reached<F: Files>(
    alloc: Global,
    files: &mut F,
    reach: &Reach<'_>,
    sent: &mut CarriedObjects,
    id: &ObjectId,
) -> Result<Vec<ObjectId>, GraphFault>
    ensures links { F.honest → IfOk result (λ ids. links_beyond (links_in (objects (F.content files.old))) (has_in reach.now) id.now ≡ Some ids.items) }
    ensures sent { F.honest → OnOk result (IsSentUnlessReached (F.content files.old) (has_in reach.now) id.now (carried sent.old) (carried sent.new)) }
    ensures refused { F.honest → IfErr result (IsTold (objects (F.content files.old)) (IsDamaged (F.content files.old)) (id.now ∷ [])) }
    ensures same { F.content files.new ≡ F.content files.old }
    ensures wear { Wears F.failed F.can_fail F.left files.old files.new (IsErrOf result (GraphFault.Store (StoreFault.Fault Fault.Device))) }
{
    if reach.has(id) {
        return Ok(Vec::new(alloc));
    }
    let ids = send(alloc, files, sent, id)?;
    Ok(ids)
}

/// The stored objects that the wants reach and the roots of the reach do not, each taken by its name. What the wants reach is read down
/// to the names that are reached already, which are not read; nothing of it may be absent.
pub fn sent_beyond<F: Files>(
    alloc: Global,
    files: &mut F,
    reach: &Reach<'_>,
    wants: &[ObjectId],
) -> Result<CarriedObjects, GraphFault>
    ensures sent { F.honest → (roots : List Id) → IsReachOf (objects (F.content files.old)) reach.now roots → IfOk result (λ sent. AreSentBeyond (F.content files.old) roots wants.now (carried sent)) }
    ensures sorted { F.honest → IfOk result (λ sent. IsSortedByName (map stored_name (carried sent))) }
    ensures closed { F.honest → (roots : List Id) → IsReachOf (objects (F.content files.old)) reach.now roots → OnOk result (AreComplete (objects (F.content files.old)) (wants.now ++ roots)) }
    ensures refused { F.honest → IfErr result (IsTold (objects (F.content files.old)) (IsDamaged (F.content files.old)) wants.now) }
    ensures same { F.content files.new ≡ F.content files.old }
    ensures wear { Wears F.failed F.can_fail F.left files.old files.new (IsErrOf result (GraphFault.Store (StoreFault.Fault Fault.Device))) }
{
    let mut met = IndexSet::new(alloc);
    add_names(&mut met, wants)?;
    let mut sent = CarriedObjects::new(alloc);
    let mut next = 0;
    while next < met.len() {
        let id = met[next];
        let ids = send_unless_reached(alloc, files, reach, &mut sent, &id)?;
        add_names(&mut met, &ids)?;
        next += 1;
    }
    Ok(sent)
}
