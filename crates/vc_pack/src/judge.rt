//! Whether a pack brings all that was asked for.
ghost use Rattle.std.specs.Prelude.{◌≡◌, length, take, IfOk, IfErr, IsErrOf, OnOk};
ghost use Rattle.vc_pack.specs.AnswerFault.{IsRefusedPack};
ghost use Rattle.vc_pack.specs.Brought.{AreCompleteWith, with_pack};
ghost use Rattle.vc_fetch.specs.PackObjects.{objects_in};
ghost use Rattle.vc_files.specs.Failures.{Wears};
ghost use Rattle.vc_object_map.specs.Complete.{AreComplete, AreCompleteBeyond};
ghost use Rattle.vc_object_map.specs.StoreFault.{IsMetFrom};
ghost use Rattle.vc_graph.specs.Incomplete.{IsFirstIncomplete};
ghost use Rattle.vc_object.specs.ObjectMap.{links_in};
ghost use Rattle.vc_pkt.specs.ObjectStreamView.{carried as carried_objects};
ghost use Rattle.vc_object_map.specs.Store.{objects, IsDamaged};

use crate::{AnswerFault, PackObjects};
use indexmap::IndexSet;
use std::alloc::Global;
use vc_fetch::Pack;
use vc_files::{Fault, Files};
use vc_graph::{Overlay, first_incomplete, is_complete_beyond};
use vc_object::ObjectId;
use vc_object_map::{Objects, StoreFault};
use vc_store::Store;

/// The known names and what the wants reach beyond them, where all of it is there; or the first want of which that isn't so, and
/// that whatever is known. Each object that is met is read once, and what the wants reach once more where one is told.
pub fn names_reached<O: Objects>(
    alloc: Global,
    objects: &mut O,
    known: IndexSet<ObjectId>,
    wants: &[ObjectId],
) -> Result<Result<IndexSet<ObjectId>, ObjectId>, StoreFault>
    ensures complete { IfOk result (λ found. IfOk found (λ met. O.is_honest → AreCompleteBeyond (O.objects (O.state_of objects.old)) known.keys wants.now)) }
    ensures met { IfOk result (λ found. IfOk found (λ met. O.is_honest → AreCompleteBeyond (O.objects (O.state_of objects.old)) known.keys met.keys)) }
    ensures front { IfOk result (λ found. IfOk found (λ met. take (length known.keys) met.keys ≡ known.keys)) }
    ensures first { IfOk result (λ found. IfErr found (λ id. O.is_honest → IsFirstIncomplete (links_in (O.objects (O.state_of objects.old))) wants.now id)) }
    ensures refused { IfErr result (λ e. O.is_honest → IsMetFrom (O.objects (O.state_of objects.old)) (O.damaged (O.state_of objects.old)) wants.now e) }
    ensures kept { O.state_of objects.new ≡ O.state_of objects.old }
    ensures wear { Wears O.failed O.can_fail O.left objects.old objects.new (IsErrOf result (StoreFault.Fault Fault.Device)) }
{
    let mut met = known;
    for id in wants {
        if !is_complete_beyond(objects, &mut met, id)? {
            // A walk of its own, for which nothing is known, finds what is lacking.
            let first = first_incomplete(alloc, objects, wants)?;
            return match first {
                Some(id) => Ok(Err(id)),
                None => Ok(Ok(met)),
            };
        }
    }
    Ok(Ok(met))
}

// The same over what is stored and what is carried.
fn names_met<O: Objects>(
    alloc: Global,
    stored: &mut O,
    carried: &PackObjects<'_>,
    known: IndexSet<ObjectId>,
    wants: &[ObjectId],
) -> Result<Result<IndexSet<ObjectId>, ObjectId>, StoreFault>
    ensures complete { IfOk result (λ found. IfOk found (λ met. O.is_honest → AreCompleteBeyond (with_pack (O.objects (O.state_of stored.old)) carried.now.objects.now) known.keys wants.now)) }
    ensures met { IfOk result (λ found. IfOk found (λ met. O.is_honest → AreCompleteBeyond (with_pack (O.objects (O.state_of stored.old)) carried.now.objects.now) known.keys met.keys)) }
    ensures front { IfOk result (λ found. IfOk found (λ met. take (length known.keys) met.keys ≡ known.keys)) }
    ensures first { IfOk result (λ found. IfErr found (λ id. O.is_honest → IsFirstIncomplete (links_in (with_pack (O.objects (O.state_of stored.old)) carried.now.objects.now)) wants.now id)) }
    ensures refused { IfErr result (λ e. O.is_honest → IsMetFrom (with_pack (O.objects (O.state_of stored.old)) carried.now.objects.now) (O.damaged (O.state_of stored.old)) wants.now e) }
    ensures kept { O.state_of stored.new ≡ O.state_of stored.old }
    ensures wear { Wears O.failed O.can_fail O.left stored.old stored.new (IsErrOf result (StoreFault.Fault Fault.Device)) }
{
    let mut objects = Overlay {
        stored,
        carried,
        alloc,
    };
    let found = names_reached(alloc, &mut objects, known, wants)?;
    Ok(found)
}

// The same over the objects of files.
fn names_met_in_files<F: Files>(
    alloc: Global,
    files: &mut F,
    carried: &PackObjects<'_>,
    known: IndexSet<ObjectId>,
    wants: &[ObjectId],
) -> Result<Result<IndexSet<ObjectId>, ObjectId>, StoreFault>
    ensures complete { F.honest → AreComplete (objects (F.content files.old)) known.keys → IfOk result (λ found. OnOk found (AreCompleteWith (F.content files.old) carried.now.objects.now wants.now)) }
    ensures met { F.honest → AreComplete (objects (F.content files.old)) known.keys → IfOk result (λ found. IfOk found (λ met. AreCompleteWith (F.content files.old) carried.now.objects.now met.keys)) }
    ensures front { IfOk result (λ found. IfOk found (λ met. take (length known.keys) met.keys ≡ known.keys)) }
    ensures first { F.honest → IfOk result (λ found. IfErr found (IsFirstIncomplete (links_in (with_pack (objects (F.content files.old)) carried.now.objects.now)) wants.now)) }
    ensures refused { F.honest → IfErr result (IsMetFrom (with_pack (objects (F.content files.old)) carried.now.objects.now) (IsDamaged (F.content files.old)) wants.now) }
    ensures same { F.content files.new ≡ F.content files.old }
    ensures wear { Wears F.failed F.can_fail F.left files.old files.new (IsErrOf result (StoreFault.Fault Fault.Device)) }
{
    let found = names_met(alloc, &mut Store::new(alloc, files), carried, known, wants)?;
    Ok(found)
}

/// Whether the store and the pack together have all that the wants reach, where all that the known names reach is stored: neither
/// they nor what lies below them is read. The answer is the known names and those that were met beyond them, of all of which so the
/// same is known. The first want of which it isn't so is refused, and that whatever is known: a walk for which nothing is known
/// finds it. A stored object counts before a carried one of its name, and a carried body out of its kind's grammar counts for
/// nothing. Each object that is met is read once, and what the wants reach once more where one is refused; nothing is stored.
pub fn judge_pack<F: Files>(
    alloc: Global,
    files: &mut F,
    known: IndexSet<ObjectId>,
    wants: &[ObjectId],
    pack: &Pack,
) -> Result<IndexSet<ObjectId>, AnswerFault>
    ensures complete { F.honest → AreComplete (objects (F.content files.old)) known.keys → OnOk result (AreCompleteWith (F.content files.old) pack.now.objects wants.now) }
    ensures met { F.honest → AreComplete (objects (F.content files.old)) known.keys → IfOk result (λ met. AreCompleteWith (F.content files.old) pack.now.objects met.keys) }
    ensures front { IfOk result (λ met. take (length known.keys) met.keys ≡ known.keys) }
    ensures refused { F.honest → IfErr result (IsRefusedPack (F.content files.old) (objects_in (carried_objects pack.now.objects)) wants.now) }

    ensures same { F.content files.new ≡ F.content files.old }
    ensures wear { Wears F.failed F.can_fail F.left files.old files.new (IsErrOf result (AnswerFault.Fault Fault.Device)) }
{
    let carried = PackObjects {
        objects: &pack.objects,
    };
    let found = names_met_in_files(alloc, files, &carried, known, wants)?;
    match found {
        Ok(met) => Ok(met),
        Err(id) => Err(AnswerFault::Incomplete(id)),
    }
}
