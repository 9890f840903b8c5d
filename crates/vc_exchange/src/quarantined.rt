//! A pack whose objects stand in the clone's quarantine, the first slot's, until it is judged.
ghost use Rattle.std.specs.Prelude.{◌≡◌, IfErr, IfOk, IsErrOf, OnOk};
ghost use Rattle.vc_exchange.specs.Learning.{LearnsWhereRight};
ghost use Rattle.vc_tracking.specs.Moving.{told_in};
ghost use Rattle.vc_exchange.specs.Quarantined.{BlamesSeen, KeepsHeld};
ghost use Rattle.vc_exchange.specs.Taking.{CutsHeldPack, ReceivesHeldPack, RefusesHeldPack};
ghost use Rattle.vc_files.specs.Failures.{Wears, Writes};
ghost use Rattle.vc_object_map.specs.Complete.{AreComplete};
ghost use Rattle.vc_object_map.specs.StoreFault.{IsMetFrom};
ghost use Rattle.vc_graph.specs.Incomplete.{IsFirstIncomplete};
ghost use Rattle.vc_history.specs.Stored.{AgreesIn};
ghost use Rattle.vc_object.specs.ObjectMap.{links_in};
ghost use Rattle.vc_object.specs.declared.id.ObjectId.{ObjectId as Name};
ghost use Rattle.vc_quarantine.specs.Learning.{learnt_in};
ghost use Rattle.vc_quarantine.specs.PushState.{IsDamagedSeen};
ghost use Rattle.vc_push_rules.specs.Quarantine.{IsDropped, objects_seen};
ghost use Rattle.vc_object_map.specs.Store.{objects};

use crate::receiving::Moves;
use crate::wanting::open_ids;
use indexmap::IndexSet;
use std::alloc::Global;
use vc_files::{Fault, Files};
use vc_history::Generations;
use vc_object::ObjectId;
use vc_object_map::StoreFault;
use vc_pack::names_reached;
use vc_quarantine::{Known, PushObjects, drop_quarantine, migrate};
use vc_tracking::{ExchangeFault, Followed, learn_known, move_refs};

// The known names and what the wants reach beyond them, where all of it is stored or stands in the quarantine; or the first want
// of which that isn't so.
fn names_seen<F: Files>(
    files: &mut F,
    alloc: Global,
    known: IndexSet<ObjectId>,
    wants: &[ObjectId],
) -> Result<Result<IndexSet<ObjectId>, ObjectId>, StoreFault>
    ensures complete { F.honest → AreComplete (objects (F.content files.old)) known.keys → IfOk result (λ found. OnOk found (AreComplete (objects_seen (F.content files.old) 0) wants.now)) }
    ensures met { F.honest → AreComplete (objects (F.content files.old)) known.keys → IfOk result (λ found. IfOk found (λ met. AreComplete (objects_seen (F.content files.old) 0) met.keys)) }
    ensures first { F.honest → IfOk result (λ found. IfErr found (IsFirstIncomplete (links_in (objects_seen (F.content files.old) 0)) wants.now)) }
    ensures refused { F.honest → IfErr result (IsMetFrom (objects_seen (F.content files.old) 0) (IsDamagedSeen (F.content files.old) 0) wants.now) }
    ensures same { F.content files.new ≡ F.content files.old }
    ensures wear { Wears F.failed F.can_fail F.left files.old files.new (IsErrOf result (StoreFault.Fault Fault.Device)) }
{
    let mut seen = PushObjects {
        files,
        slot: 0,
        alloc,
    };
    let found = names_reached(alloc, &mut seen, known, wants)?;
    Ok(found)
}

// Whether store and quarantine together have all that the wants reach, where all that the known names reach is stored: then the
// known names and those that were met beyond them, of all of which the same is so. The first want of which it isn't so is refused.
fn judge_quarantined<F: Files>(
    files: &mut F,
    alloc: Global,
    known: IndexSet<ObjectId>,
    wants: &[ObjectId],
) -> Result<IndexSet<ObjectId>, ExchangeFault>
    ensures complete { F.honest → AreComplete (objects (F.content files.old)) known.keys → OnOk result (AreComplete (objects_seen (F.content files.old) 0) wants.now) }
    ensures met { F.honest → AreComplete (objects (F.content files.old)) known.keys → IfOk result (λ met. AreComplete (objects_seen (F.content files.old) 0) met.keys) }
    ensures refused { F.honest → IfErr result (BlamesSeen (F.content files.old) wants.now) }
    ensures same { F.content files.new ≡ F.content files.old }
    ensures wear { Wears F.failed F.can_fail F.left files.old files.new (IsErrOf result (ExchangeFault.Fault Fault.Device)) }
{
    let found = names_seen(files, alloc, known, wants)?;
    match found {
        Ok(met) => Ok(met),
        Err(id) => Err(ExchangeFault::Incomplete(id)),
    }
}

/// Takes the pack that brings these wants, which were asked for when these refs were advertised, where its objects stand in the
/// quarantine under these names: they are stored, then the refs follow, and then the quarantine is emptied. With them all must be
/// there that the wants reach (92), and nothing is stored before that is seen. What the clone's own refs reach is taken as there,
/// as it is in a sound repository, and not read, unless a want is refused. A call that ends early has stored some objects, or all
/// of them and moved some first refs, and emptied the quarantine in part or not at all. No file becomes bad, only objects, refs
/// and the quarantine change, and each object that was stored stays.
pub fn receive_quarantined<F: Files>(
    files: &mut F,
    alloc: Global,
    wants: &[ObjectId],
    told: &[(Vec<u8>, ObjectId)],
    names: &[ObjectId],
    due: &mut Vec<ObjectId>,
    generations: &mut Generations,
) -> Result<Moves, ExchangeFault>
    ensures taken { F.honest → AgreesIn (F.content files.old) generations.old → ReceivesHeldPack (F.content files.old) (F.content files.new) names.now wants.now (told_in told.now) result }
    ensures cut { F.honest → AgreesIn (F.content files.old) generations.old → CutsHeldPack (F.content files.old) (F.content files.new) names.now wants.now (told_in told.now) result }
    ensures refused { F.honest → AgreesIn (F.content files.old) generations.old → RefusesHeldPack (F.content files.old) names.now wants.now result }
    ensures unchanged { F.honest → AgreesIn (F.content files.old) generations.old → IfErr result (λ e. (id : Name) → e ≡ ExchangeFault.Incomplete id → F.content files.new ≡ F.content files.old) }
    ensures dropped { F.honest → OnOk result (IsDropped 0 (F.content files.new)) }
    ensures learns { F.honest → LearnsWhereRight (F.content files.old) (F.content files.new) (learnt_in generations.old due.old) (learnt_in generations.new due.new) result }
    ensures kept { F.honest → KeepsHeld (F.content files.old) (F.content files.new) }
    ensures wear { Writes F.honest F.content F.failed F.can_fail F.left files.old files.new (IsErrOf result (ExchangeFault.Fault Fault.Device)) }
{
    let known = learn_known(files, alloc, due, generations)?;
    let objects = judge_quarantined(files, alloc, known.objects, wants)?;
    let mut known = Known {
        objects,
        histories: known.histories,
    };
    migrate(files, alloc, 0, names)?;
    let open = open_ids(files, alloc, &mut known.objects, told)?;
    let moved = move_refs(
        files,
        alloc,
        &mut known,
        Followed::All,
        told,
        due,
        generations,
    )?;
    drop_quarantine(files, alloc, 0)?;
    Ok(Moves {
        moved,
        left: open.len(),
    })
}
