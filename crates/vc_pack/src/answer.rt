//! The answer to a want.
ghost use Rattle.std.specs.Prelude.{◌≡◌, ◌++◌, map, IfOk, IfErr, IsErrOf, OnOk, IsSome, Contains};
ghost use Rattle.vc_pack.specs.Answer.{IsOurs, IsSent, IsFirstCounted};
ghost use Rattle.vc_pack.specs.AnswerFault.{IsRefusedAnswer};
ghost use Rattle.vc_pack.specs.Sent.{AreSentBeyond, ListsStored};
ghost use Rattle.vc_files.specs.Failures.{Wears};
ghost use Rattle.vc_graph.specs.GraphFault.{IsTold};
ghost use Rattle.vc_known.specs.Known.{Agrees};
ghost use Rattle.vc_known.specs.Reach.{IsReachOf};
ghost use Rattle.vc_object.specs.ObjectId.{IsSortedByName};
ghost use Rattle.vc_object.specs.declared.id.ObjectId.{ObjectId as Id};
ghost use Rattle.vc_object_map.specs.Complete.{AreComplete};
ghost use Rattle.vc_pkt.specs.Carried.{stored_name};
ghost use Rattle.vc_pkt.specs.ObjectStreamView.{carried};
ghost use Rattle.vc_object_map.specs.Store.{objects, IsDamaged};

use crate::AnswerFault;
use crate::counting::{counted, first_other};
use crate::ours::our_names;
use crate::reading::sent_beyond;
use crate::values::ref_values;
use std::alloc::Global;
use vc_fetch::{Pack, Want};
use vc_files::{Fault, Files};
use vc_graph::GraphFault;
use vc_known::{Known, Reach};
use vc_object::ObjectId;
use vc_object_map::StoreFault;
use vc_pkt::CarriedObjects;
use vc_store::Store;

// All that the roots reach among the objects of files.
fn reach_in_files<'a, F: Files>(
    alloc: Global,
    files: &mut F,
    known: &'a Known,
    roots: &[ObjectId],
) -> Result<Reach<'a>, GraphFault>
    ensures reach { F.honest → Agrees (objects (F.content files.old)) known.now → IfOk result (λ reach. IsReachOf (objects (F.content files.old)) reach roots.now) }
    ensures refused { F.honest → IfErr result (IsTold (objects (F.content files.old)) (IsDamaged (F.content files.old)) roots.now) }
    ensures same { F.content files.new ≡ F.content files.old }
    ensures wear { Wears F.failed F.can_fail F.left files.old files.new (IsErrOf result (GraphFault.Store (StoreFault.Fault Fault.Device))) }
{
    let reach = known.reach_of(alloc, &mut Store::new(alloc, files), roots)?;
    Ok(reach)
}

// The stored objects that the wants reach and the counted haves do not, and how many names were read for them.
fn sent_objects<F: Files>(
    alloc: Global,
    files: &mut F,
    known: &Known,
    wants: &[ObjectId],
    counted: &[ObjectId],
) -> Result<(CarriedObjects, usize), GraphFault>
    ensures sent { F.honest → Agrees (objects (F.content files.old)) known.now → IfOk result (λ found. AreSentBeyond (F.content files.old) counted.now wants.now (carried found.0)) }
    ensures sorted { F.honest → IfOk result (λ found. IsSortedByName (map stored_name (carried found.0))) }
    ensures closed { F.honest → Agrees (objects (F.content files.old)) known.now → OnOk result (AreComplete (objects (F.content files.old)) (wants.now ++ counted.now)) }
    ensures refused { F.honest → IfErr result (IsTold (objects (F.content files.old)) (IsDamaged (F.content files.old)) (wants.now ++ counted.now)) }
    ensures same { F.content files.new ≡ F.content files.old }
    ensures wear { Wears F.failed F.can_fail F.left files.old files.new (IsErrOf result (GraphFault.Store (StoreFault.Fault Fault.Device))) }
{
    let lacked = reach_in_files(alloc, files, known, counted)?;
    let sent = sent_beyond(alloc, files, &lacked, wants)?;
    let read = lacked.read().saturating_add(sent.by_name.len());
    Ok((sent, read))
}

// Keeps what the roots reach. What is known stays as it is if something of that is absent or damaged.
fn learn<F: Files>(
    alloc: Global,
    files: &mut F,
    known: &mut Known,
    roots: &[ObjectId],
) -> Result<(), Fault>
    ensures known { F.honest → Agrees (objects (F.content files.old)) known.old → Agrees (objects (F.content files.old)) known.new }
    ensures same { F.content files.new ≡ F.content files.old }
    ensures wear { Wears F.failed F.can_fail F.left files.old files.new (IsErrOf result Fault.Device) }
{
    match known.renew(alloc, &mut Store::new(alloc, files), roots) {
        Ok(()) => Ok(()),
        Err(refused) => match refused {
            GraphFault::Missing(_) => Ok(()),
            GraphFault::Store(refused) => match refused {
                StoreFault::Fault(fault) => Err(fault),
                StoreFault::BadObject(_) => Ok(()),
                StoreFault::Absent(_) => Ok(()),
                StoreFault::Damaged(_) => Ok(()),
            },
        },
    }
}

/// The pack that answers a want: the objects that the wants reach and no counted have reaches. A have counts if a ref
/// of the node reaches it, and others are passed over; the pack acknowledges the first that counts. A want that no ref
/// reaches is refused, the first of them, though the object may be stored.
///
/// What is sent is read once, as is what the counted haves reach; of the latter nothing that the first moments have which are known, as
/// many as the haves are [found to reach](Known::last_reached). Only if a want or a have is no ref's value, what the refs reach is walked
/// before, down to all that is known if they are found to reach that. An absent or damaged object that is met is told as it is by
/// [`closure`](vc_graph::closure).
///
/// With `learns`, what the refs reach is kept for the next want, once as many names were read for an answer as there are refs: so what
/// is kept of roots never outgrows what is kept of names. If something of it is absent or damaged, nothing is kept, and what was asked is
/// answered all the same.
pub fn answer_want<F: Files>(
    alloc: Global,
    files: &mut F,
    known: &mut Known,
    learns: bool,
    want: &Want,
) -> Result<Pack, AnswerFault>
    requires agrees { F.honest → Agrees (objects (F.content files.old)) known.old }
    ensures objects { F.honest → IfOk result (λ pack. ListsStored (F.content files.old) (IsSent (F.content files.old) want.now.wants.items want.now.haves.items) (carried pack.objects)) }
    ensures there { F.honest → OnOk result ((id : Id) → IsSent (F.content files.old) want.now.wants.items want.now.haves.items id → IsSome (objects (F.content files.old) id)) }
    ensures sorted { F.honest → IfOk result (λ pack. IsSortedByName (map stored_name (carried pack.objects))) }
    ensures ack { F.honest → IfOk result (λ pack. IsFirstCounted (F.content files.old) want.now.haves.items pack.ack) }
    ensures ours { F.honest → OnOk result ((id : Id) → Contains want.now.wants.items id → IsOurs (F.content files.old) id) }
    ensures refused { F.honest → IfErr result (IsRefusedAnswer (F.content files.old) want.now.wants.items) }
    ensures known { F.honest → Agrees (objects (F.content files.old)) known.new }

    ensures same { F.content files.new ≡ F.content files.old }
    ensures wear { Wears F.failed F.can_fail F.left files.old files.new (IsErrOf result (AnswerFault.Fault Fault.Device)) }
{
    let values = ref_values(alloc, files)?;
    let ours = our_names(alloc, files, known, &values, want)?;
    if let Some(id) = first_other(&ours, &want.wants) {
        return Err(AnswerFault::NotOurs(id));
    }
    let counted = counted(alloc, &ours, &want.haves)?;
    let (objects, read) = sent_objects(alloc, files, known, &want.wants, &counted)?;
    if learns && read >= values.len() {
        learn(alloc, files, known, &values)?;
    }
    let ack = counted.first().copied();
    Ok(Pack { ack, objects })
}
