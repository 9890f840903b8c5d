//! The walk down to layers: it passes over the names that these have, and so sees only what came later.
ghost use Rattle.std.specs.Prelude.{◌≡◌, ◌++◌, [], ℕ, length, take, IfErr, IsErrOf, OnOk, Some};
ghost use Rattle.indexmap.specs.IndexMap.{Updates};
ghost use Rattle.indexmap.specs.IndexSet.{insert_all};
ghost use Rattle.vc_files.specs.Failures.{Wears};
ghost use Rattle.vc_graph.specs.GraphFault.{IsTold};
ghost use Rattle.vc_known.specs.Known.{layer_in};
ghost use Rattle.vc_known.specs.Layers.{above};
ghost use Rattle.vc_known.specs.Walked.{IsWhole, links_down_to};
ghost use Rattle.vc_known.specs.declared.known.Known.{Known as Of};
ghost use Rattle.vc_object.specs.ObjectId.{id_eq};
ghost use Rattle.vc_object.specs.ObjectMap.{ObjectMap};
ghost use Rattle.vc_object_map.specs.Graph.{AreExactly, ReachedFrom};

use crate::known::Known;
use crate::seen::Kinds;
use indexmap::{IndexMap, IndexSet};
use std::alloc::{AllocError, Global};
use vc_files::Fault;
use vc_graph::GraphFault;
use vc_object::{Kind, ObjectId};
use vc_object_map::StoreFault;

// The names that a walk has met, in order, and the kinds of those that were read.
#[derive(Drop)]
pub(crate) struct Walked {
    pub(crate) met: IndexSet<ObjectId>,
    pub(crate) kinds: IndexMap<ObjectId, Kind>,
}

impl Walked {
    // A walk that has met nothing.
    pub(crate) fn new(alloc: Global) -> Walked
        ensures met { result.met.keys ≡ [] }
        ensures whole { (objects : ObjectMap) (known : Of) (count : ℕ) → IsWhole objects known count result }
    {
        Walked {
            met: IndexSet::new(alloc),
            kinds: IndexMap::new(alloc),
        }
    }
}

// Adds those of the names that are in none of the first `count` layers.
fn add_above(
    met: &mut IndexSet<ObjectId>,
    known: &Known,
    count: usize,
    names: &[ObjectId],
) -> Result<(), AllocError>
    ensures { OnOk result (met.new.keys ≡ insert_all id_eq met.old.keys (above (layer_in known.now) count names.now)) }
{
    for name in names {
        if !known.is_within(name, count) {
            met.insert(*name)?;
        }
    }
    Ok(())
}

// Keeps the kind of a name that was read.
fn add_kind(
    kinds: &mut IndexMap<ObjectId, Kind>,
    id: ObjectId,
    kind: Kind,
) -> Result<(), AllocError>
    ensures { OnOk result (Updates id_eq kinds.old kinds.new id (Some kind)) }
{
    kinds.insert(id, kind)?;
    Ok(())
}

// Adds to what was met the roots and all that they reach, down to the first `count` layers. What was met before is not read again.
pub(crate) fn walk_down<K: Kinds>(
    known: &Known,
    objects: &mut K,
    count: usize,
    roots: &[ObjectId],
    walked: &mut Walked,
) -> Result<(), GraphFault>
    requires { K.is_honest → IsWhole (K.objects (K.state_of objects.old)) known.now count walked.old }
    ensures reached { OnOk result (K.is_honest → AreExactly (ReachedFrom (links_down_to (K.objects (K.state_of objects.old)) known.now count) (walked.old.met.keys ++ above (layer_in known.now) count roots.now)) walked.new.met.keys) }
    ensures whole { OnOk result (K.is_honest → IsWhole (K.objects (K.state_of objects.old)) known.now count walked.new) }
    ensures first { OnOk result (take (length walked.old.met.keys) walked.new.met.keys ≡ walked.old.met.keys) }
    ensures refused { IfErr result (λ e. K.is_honest → IsTold (K.objects (K.state_of objects.old)) (K.damaged (K.state_of objects.old)) (walked.old.met.keys ++ roots.now) e) }

    ensures kept { K.state_of objects.new ≡ K.state_of objects.old }
    ensures wear { Wears K.failed K.can_fail K.left objects.old objects.new (IsErrOf result (GraphFault.Store (StoreFault.Fault Fault.Device))) }
{
    let mut next = walked.met.len();
    add_above(&mut walked.met, known, count, roots)?;
    while next < walked.met.len() {
        let id = walked.met[next];
        let Some(seen) = objects.look(&id)? else {
            return Err(GraphFault::Missing(id));
        };
        add_above(&mut walked.met, known, count, &seen.links)?;
        add_kind(&mut walked.kinds, id, seen.kind)?;
        next += 1;
    }
    Ok(())
}
