//! The two messages by which a clone begins: the list of a fetch, and a push.
ghost use Rattle.std.specs.Prelude.{◌≡◌, ◌≢◌, [], ◌↔◌, nat_eq, codes, Contains, IfOk, IfErr, IsErrOf, OnOk, filter_map, map};
ghost use Rattle.std.specs.List.{All, starts_with};
ghost use Rattle.vc_graph.specs.GraphFault.{IsTold};
ghost use Rattle.vc_known.specs.Known.{Agrees, count_in, moments_in};
ghost use Rattle.vc_known.specs.Layers.{last_roots};
ghost use Rattle.vc_sending.specs.SendFault.{BlamesRefFile, IsRefusedPush, IsRefusedSend};
ghost use Rattle.vc_sending.specs.Sending.{AreSent, IsPushOf, IsTracked, command_for, item_ids, known_value, tracked_in};
ghost use Rattle.vc_sending.specs.SentPush.{DeclinesPush, SendsPush};
ghost use Rattle.vc_files.specs.Failures.{Wears};
ghost use Rattle.vc_object_map.specs.Complete.{AreComplete};
ghost use Rattle.vc_message.specs.Machine.{IsWritten};
ghost use Rattle.vc_model.specs.Message.Message.{ListRefs};
ghost use Rattle.vc_object.specs.ObjectId.{IsSortedByName};
ghost use Rattle.vc_object.specs.declared.id.ObjectId.{ObjectId as Id};
ghost use Rattle.vc_pkt.specs.Carried.{stored_name};
ghost use Rattle.vc_pkt.specs.ObjectStreamView.{carried};
ghost use Rattle.vc_push.specs.PushView.{command_of, commands_of, push_text};
ghost use Rattle.vc_refname.specs.RefName.{IsRefName};
ghost use Rattle.vc_object_map.specs.Store.{IsDamaged, objects};

use crate::{PushItem, SendFault};
use std::alloc::{AllocError, Global};
use vc_fetch::List;
use vc_files::{Fault, Files};
use vc_graph::{GraphFault, first_incomplete};
use vc_known::Known;
use vc_object::ObjectId;
use vc_object_map::StoreFault;
use vc_pack::sent_beyond;
use vc_pkt::CarriedObjects;
use vc_push::{Command, MAX_COMMANDS, Push};
use vc_refname::{MAX_BRANCH, RefName};
use vc_refs::{RefFault, get, list};
use vc_store::Store;

// What the clone knows of a ref of the shared node: the value of the tracking ref of a branch, and zero of any other ref.
fn known_value<F: Files>(alloc: Global, files: &mut F, name: &RefName) -> Result<ObjectId, RefFault>
    ensures known { F.honest → IfOk result (λ id. id ≡ known_value (F.content files.old) name.now) }
    ensures refused { F.honest → IfErr result (BlamesRefFile (F.content files.old)) }
    ensures same { F.content files.new ≡ F.content files.old }
    ensures wear { Wears F.failed F.can_fail F.left files.old files.new (IsErrOf result (RefFault.Fault Fault.Device)) }
{
    if !name.is_branch() {
        return Ok(ObjectId::ZERO);
    }
    if name.as_str().len() > MAX_BRANCH {
        return Ok(ObjectId::ZERO);
    }
    let tracking = name.tracking(alloc)?;
    match get(files, alloc, &tracking)? {
        Some(id) => Ok(id),
        None => Ok(ObjectId::ZERO),
    }
}

// The command that an item asks for.
fn command_for<F: Files>(alloc: Global, files: &mut F, item: &PushItem) -> Result<Command, RefFault>
    ensures command { F.honest → IfOk result (λ command. command_of command ≡ command_for (F.content files.old) item.now) }
    ensures legal { IfOk result (λ command. IsRefName command.name.items) }
    ensures refused { F.honest → IfErr result (BlamesRefFile (F.content files.old)) }
    ensures same { F.content files.new ≡ F.content files.old }
    ensures wear { Wears F.failed F.can_fail F.left files.old files.new (IsErrOf result (RefFault.Fault Fault.Device)) }
{
    let old = known_value(alloc, files, &item.name)?;
    let new = item.id.unwrap_or(ObjectId::ZERO);
    let name = item.name.as_str().as_bytes().to_vec(alloc)?;
    Ok(Command { old, new, name })
}

// The commands that the items ask for, in their order.
fn commands_for<F: Files>(
    alloc: Global,
    files: &mut F,
    items: &[PushItem],
) -> Result<Vec<Command>, RefFault>
    ensures commands { F.honest → IfOk result (λ commands. commands_of commands.items ≡ map (command_for (F.content files.old)) items.now) }
    ensures legal { IfOk result (λ commands. All (λ command. IsRefName command.name.items) commands.items) }
    ensures refused { F.honest → IfErr result (BlamesRefFile (F.content files.old)) }
    ensures same { F.content files.new ≡ F.content files.old }
    ensures wear { Wears F.failed F.can_fail F.left files.old files.new (IsErrOf result (RefFault.Fault Fault.Device)) }
{
    let mut commands = Vec::new(alloc);
    for item in items {
        let command = command_for(alloc, files, item)?;
        commands.push(command)?;
    }
    Ok(commands)
}

// The ids that the items give.
fn item_ids(alloc: Global, items: &[PushItem]) -> Result<Vec<ObjectId>, AllocError>
    ensures { IfOk result (λ ids. ids.items ≡ item_ids items.now) }
{
    let mut ids = Vec::new(alloc);
    for item in items {
        if let Some(id) = item.id {
            ids.push(id)?;
        }
    }
    Ok(ids)
}

// Whether it is the name of a tracking ref.
fn is_tracking(name: &RefName) -> bool
    ensures { result ≡ starts_with nat_eq name.now (codes "refs/remotes/origin/") }
{
    name.as_str()
        .as_bytes()
        .starts_with(b"refs/remotes/origin/")
}

// The values of those of the listed refs that are tracking refs.
fn tracked_among(alloc: Global, listed: &[(RefName, ObjectId)]) -> Result<Vec<ObjectId>, AllocError>
    ensures { IfOk result (λ ids. ids.items ≡ filter_map tracked_in listed.now) }
{
    let mut ids = Vec::new(alloc);
    for (name, id) in listed {
        if is_tracking(name) {
            ids.push(*id)?;
        }
    }
    Ok(ids)
}

// The values of the tracking refs.
fn tracked_values<F: Files>(alloc: Global, files: &mut F) -> Result<Vec<ObjectId>, RefFault>
    ensures tracked { F.honest → IfOk result (λ ids. (id : Id) → Contains ids.items id ↔ IsTracked (F.content files.old) id) }
    ensures refused { F.honest → IfErr result (BlamesRefFile (F.content files.old)) }
    ensures same { F.content files.new ≡ F.content files.old }
    ensures wear { Wears F.failed F.can_fail F.left files.old files.new (IsErrOf result (RefFault.Fault Fault.Device)) }
{
    let listed = list(files, alloc)?;
    let ids = tracked_among(alloc, &listed)?;
    Ok(ids)
}

// Refuses the first of the ids that reaches a name that is absent.
fn refuse_incomplete<F: Files>(
    alloc: Global,
    files: &mut F,
    ids: &[ObjectId],
) -> Result<(), SendFault>
    ensures complete { F.honest → OnOk result (AreComplete (objects (F.content files.old)) ids.now) }
    ensures refused { F.honest → IfErr result (IsRefusedSend (F.content files.old) ids.now) }
    ensures same { F.content files.new ≡ F.content files.old }
    ensures wear { Wears F.failed F.can_fail F.left files.old files.new (IsErrOf result (SendFault.Fault Fault.Device)) }
{
    match first_incomplete(alloc, &mut Store::new(alloc, files), ids)? {
        Some(id) => Err(SendFault::Missing(id)),
        None => Ok(()),
    }
}

// Makes the values of the tracking refs the roots of the last moment that is known.
fn renew<F: Files>(
    alloc: Global,
    files: &mut F,
    known: &mut Known,
    tracked: &[ObjectId],
) -> Result<(), GraphFault>
    ensures agrees { F.honest → Agrees (objects (F.content files.old)) known.old → Agrees (objects (F.content files.old)) known.new }
    ensures last { OnOk result (last_roots (moments_in known.new) (count_in known.new) ≡ tracked.now) }
    ensures refused { F.honest → IfErr result (IsTold (objects (F.content files.old)) (IsDamaged (F.content files.old)) tracked.now) }
    ensures same { F.content files.new ≡ F.content files.old }
    ensures wear { Wears F.failed F.can_fail F.left files.old files.new (IsErrOf result (GraphFault.Store (StoreFault.Fault Fault.Device))) }
{
    known.renew(alloc, &mut Store::new(alloc, files), tracked)
}

// The objects that the ids reach and the tracking refs do not. What is known is renewed for the tracking refs, and each object is read
// that lies beyond it.
fn untracked_objects<F: Files>(
    alloc: Global,
    files: &mut F,
    known: &mut Known,
    ids: &[ObjectId],
) -> Result<CarriedObjects, SendFault>
    ensures sent { F.honest → Agrees (objects (F.content files.old)) known.old → IfOk result (λ sent. AreSent (F.content files.old) ids.now (carried sent)) }
    ensures sorted { F.honest → IfOk result (λ sent. IsSortedByName (map stored_name (carried sent))) }
    ensures complete { F.honest → Agrees (objects (F.content files.old)) known.old → OnOk result (AreComplete (objects (F.content files.old)) ids.now) }
    ensures agrees { F.honest → Agrees (objects (F.content files.old)) known.old → Agrees (objects (F.content files.old)) known.new }
    ensures refused { F.honest → AreComplete (objects (F.content files.old)) ids.now → IfErr result (IsRefusedSend (F.content files.old) ids.now) }
    ensures same { F.content files.new ≡ F.content files.old }
    ensures wear { Wears F.failed F.can_fail F.left files.old files.new (IsErrOf result (SendFault.Fault Fault.Device)) }
{
    let tracked = tracked_values(alloc, files)?;
    renew(alloc, files, known, &tracked)?;
    let objects = sent_beyond(alloc, files, &known.reach_of_last(alloc), ids)?;
    Ok(objects)
}

// The same; where there are no ids, nothing is walked. Of what refuses it, the first id of which not all is there is told before
// all else: a walk of its own looks for it, unless memory or the device gave out.
fn objects_for<F: Files>(
    alloc: Global,
    files: &mut F,
    known: &mut Known,
    ids: &[ObjectId],
) -> Result<CarriedObjects, SendFault>
    ensures sent { F.honest → Agrees (objects (F.content files.old)) known.old → IfOk result (λ sent. AreSent (F.content files.old) ids.now (carried sent)) }
    ensures sorted { F.honest → IfOk result (λ sent. IsSortedByName (map stored_name (carried sent))) }
    ensures complete { F.honest → Agrees (objects (F.content files.old)) known.old → OnOk result (AreComplete (objects (F.content files.old)) ids.now) }
    ensures agrees { F.honest → Agrees (objects (F.content files.old)) known.old → Agrees (objects (F.content files.old)) known.new }
    ensures refused { F.honest → IfErr result (IsRefusedSend (F.content files.old) ids.now) }
    ensures same { F.content files.new ≡ F.content files.old }
    ensures wear { Wears F.failed F.can_fail F.left files.old files.new (IsErrOf result (SendFault.Fault Fault.Device)) }
{
    if ids.is_empty() {
        return Ok(CarriedObjects::new(alloc));
    }
    match untracked_objects(alloc, files, known, ids) {
        Ok(objects) => Ok(objects),
        Err(SendFault::Fault(fault)) => Err(SendFault::Fault(fault)),
        Err(fault) => {
            refuse_incomplete(alloc, files, ids)?;
            Err(fault)
        }
    }
}

// The push of the items, which may be atomic.
fn push_for<F: Files>(
    alloc: Global,
    files: &mut F,
    known: &mut Known,
    atomic: bool,
    items: &[PushItem],
) -> Result<Push, SendFault>
    ensures push { F.honest → Agrees (objects (F.content files.old)) known.old → IfOk result (λ push. IsPushOf (F.content files.old) items.now (push_text push)) }
    ensures atomic { IfOk result (λ push. push.atomic ≡ atomic) }
    ensures legal { IfOk result (λ push. All (λ command. IsRefName command.name.items) push.commands.items) }
    ensures agrees { F.honest → Agrees (objects (F.content files.old)) known.old → Agrees (objects (F.content files.old)) known.new }
    ensures refused { F.honest → IfErr result (IsRefusedSend (F.content files.old) (item_ids items.now)) }
    ensures same { F.content files.new ≡ F.content files.old }
    ensures wear { Wears F.failed F.can_fail F.left files.old files.new (IsErrOf result (SendFault.Fault Fault.Device)) }
{
    let ids = item_ids(alloc, items)?;
    let objects = objects_for(alloc, files, known, &ids)?;
    let commands = commands_for(alloc, files, items)?;
    Ok(Push {
        atomic,
        commands,
        carried: Ok(objects),
    })
}

/// The message by which a clone asks the shared node for its refs.
pub fn list_message(alloc: Global) -> Result<Vec<u8>, AllocError>
    ensures { IfOk result (λ bytes. IsWritten ListRefs bytes.items) }
{
    let bytes = List.write(alloc)?;
    Ok(bytes)
}

/// The message by which a clone asks the shared node to change refs: a command for each item, from what the clone's tracking
/// ref says of a branch to the id of the item, and the objects that the ids reach and no tracking ref does, in order of
/// name. There is at least one item. In an atomic push all refs are to be set, or none.
///
/// More than 256 items are refused (84), and then the first id of which not all is there (40). The clone's files stay as
/// they are.
///
/// What the tracking refs reach is kept from one push to the next, as one moment more. It agrees with what is stored if it did before.
/// Each object is read once that lies beyond it. Only if that is refused are the ids walked by themselves, to find the first of which not
/// all is there.
pub fn push_message<F: Files>(
    alloc: Global,
    files: &mut F,
    known: &mut Known,
    atomic: bool,
    items: &[PushItem],
) -> Result<Vec<u8>, SendFault>
    requires some { items.now ≢ [] }
    ensures sent { F.honest → Agrees (objects (F.content files.old)) known.old → IfOk result (λ bytes. SendsPush (F.content files.old) atomic items.now bytes.items) }
    ensures refused { F.honest → IfErr result (IsRefusedPush (F.content files.old) items.now) }
    ensures declined { F.honest → IfErr result (DeclinesPush (F.content files.old) items.now) }
    ensures agrees { F.honest → Agrees (objects (F.content files.old)) known.old → Agrees (objects (F.content files.old)) known.new }
    ensures same { F.content files.new ≡ F.content files.old }
    ensures wear { Wears F.failed F.can_fail F.left files.old files.new (IsErrOf result (SendFault.Fault Fault.Device)) }
{
    if items.len() > MAX_COMMANDS {
        return Err(SendFault::TooMany);
    }
    let push = push_for(alloc, files, known, atomic, items)?;
    let bytes = push.write(alloc)?;
    Ok(bytes)
}
