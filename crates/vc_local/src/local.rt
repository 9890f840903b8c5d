// What the local commands do to files: each looks for what refuses it before it writes, and writes an object before what
// names it.
ghost use Rattle.std.specs.Prelude.{◌≡◌, ◌≢◌, ◌⊎◌, IfOk, IfErr, OnOk, OnErr, IsOk, true};
ghost use Rattle.std.specs.FinMap as paths;
ghost use Rattle.vc_files.specs.Failures.{Wears, Writes};
ghost use Rattle.vc_index.specs.IndexMap.{IndexMap};
ghost use Rattle.vc_object.specs.Decoding.{stored_object};
ghost use Rattle.vc_object.specs.Object.{object_name, IsObject};
ghost use Rattle.vc_refs.specs.RefMap.{IsInRefs, is_ref, with_ref, without_ref};
ghost use Rattle.vc_refs.specs.Refs.{refs};
ghost use Rattle.vc_refs.specs.Obstacle.{IsFree};
ghost use Rattle.vc_object_map.specs.Store.{objects};
ghost use Rattle.vc_object.specs.declared.kind.Kind.TheVariants.{Blob};
ghost use Rattle.vc_refs.specs.Head.{IsHeadInRefs, IsLegalHead};
ghost use Rattle.vc_refs.specs.Packing.{IsPackedFrom};
ghost use Rattle.vc_local.specs.Adding.{IsAdded, LeftByAdd, StoresBlob};
ghost use Rattle.vc_local.specs.Blames.{BlamesAdd, BlamesBranch, BlamesHead, BlamesLoad, BlamesPacking, BlamesPut, BlamesRemoved, BlamesWrite, MayBranch, MayHead, MayLoad, MayStage, TellsDamage};
ghost use Rattle.vc_local.specs.Clean.{KeepsCleanBut, PacksOnly, Spares, StoresOnly};
ghost use Rattle.vc_local.specs.GoodCommit.{IsGoodBeyondRefs};
ghost use Rattle.vc_local.specs.IndexFile.{SpellsIndex, BlamesIndex};
ghost use Rattle.vc_local.specs.NodeFault.{is_fault, TellsDevice};
ghost use Rattle.vc_local.specs.Reads.{IsAtName, IsBelow, IsItsFile, IsReached, IsReachedByHead, NoneRead, TellsRead};
ghost use Rattle.vc_local.specs.Shown.{HasIndex, HasObject, IsLoaded, shown, with_head_shown, with_refs_shown};

use crate::NodeFault;
use crate::checks::refuse_bad_commit;
use crate::index_file::{read_index, write_index};
use std::alloc::Global;
use vc_files::Files;
use vc_index::Index;
use vc_object::{Kind, Mode, ObjectId};
use vc_refname::RefName;
use vc_refs::{Head, refuse_conflict};

/// Stores an object.
pub fn write<F: Files>(
    alloc: Global,
    files: &mut F,
    kind: Kind,
    body: &[u8],
) -> Result<ObjectId, NodeFault>
    ensures name { IfOk result (λ id. id ≡ object_name kind body.now) }
    ensures legal { IsOk result → IsObject kind body.now }
    ensures stored { F.honest → IfOk result (λ id. HasObject (F.content files.old) id (stored_object kind body.now) (F.content files.new)) }
    ensures refused { F.honest → IfErr result (BlamesWrite (F.content files.old) kind body.now) }
    ensures kept { F.honest → StoresOnly kind body.now result (F.content files.old) (F.content files.new) }
    ensures file { IfErr result (TellsRead (λ id. id ≡ object_name kind body.now) NoneRead) }
    ensures wear { Writes F.honest F.content F.failed F.can_fail F.left files.old files.new (TellsDevice result) }
    ensures looks { IsObject kind body.now ⊎ Wears F.failed F.can_fail F.left files.old files.new (TellsDevice result) }
{
    let id = vc_store::put(files, alloc, kind, body)?;
    Ok(id)
}

/// Takes a path away from the index.
pub fn unstage<F: Files>(alloc: Global, files: &mut F, path: &[u8]) -> Result<(), NodeFault>
    ensures removed { F.honest → (m : IndexMap) → SpellsIndex (F.content files.old) m → OnOk result (HasIndex (F.content files.old) (paths.remove m path.now) (F.content files.new)) }
    ensures refused { F.honest → IfErr result (BlamesIndex (F.content files.old)) }
    ensures kept { F.honest → Spares result (F.content files.old) (F.content files.new) }
    ensures objects { F.honest → OnOk result (objects (F.content files.new) ≡ objects (F.content files.old)) }
    ensures file { IfErr result (TellsRead NoneRead NoneRead) }
    ensures wear { Writes F.honest F.content F.failed F.can_fail F.left files.old files.new (TellsDevice result) }
{
    let mut index = read_index(alloc, files)?;
    index.remove(path);
    write_index(alloc, files, &index)?;
    Ok(())
}

/// Stores the blob of a file and puts the file into the index.
pub fn add<F: Files>(
    alloc: Global,
    files: &mut F,
    path: &[u8],
    mode: Mode,
    bytes: &[u8],
) -> Result<(), NodeFault>
    requires { mode ≢ Mode.Tree }
    ensures added { F.honest → (m : IndexMap) → SpellsIndex (F.content files.old) m → OnOk result (IsAdded (F.content files.old) m path.now mode bytes.now (F.content files.new)) }
    ensures refused { F.honest → (m : IndexMap) → SpellsIndex (F.content files.old) m → IfErr result (BlamesAdd (F.content files.old) m path.now bytes.now) }
    ensures damaged { F.honest → IfErr result (TellsDamage (F.content files.old)) }
    ensures left { F.honest → (m : IndexMap) → SpellsIndex (F.content files.old) m → IfErr result (λ e. LeftByAdd (F.content files.old) m path.now bytes.now e (F.content files.new)) }
    ensures stores { F.honest → StoresBlob (F.content files.old) bytes.now (F.content files.new) }
    ensures file { IfErr result (TellsRead (λ id. id ≡ object_name Blob bytes.now) NoneRead) }
    ensures wear { Writes F.honest F.content F.failed F.can_fail F.left files.old files.new (TellsDevice result) }
    ensures looks { F.honest → (m : IndexMap) → SpellsIndex (F.content files.old) m → MayStage m path.now bytes.now ⊎ Wears F.failed F.can_fail F.left files.old files.new (TellsDevice result) }
{
    let mut index = read_index(alloc, files)?;
    let name = vc_object::name_of(Kind::Blob, bytes);
    index.add(alloc, path, mode, name)?;
    vc_store::put(files, alloc, Kind::Blob, bytes)?;
    write_index(alloc, files, &index)?;
    Ok(())
}

/// Makes the index that of a tree's files.
pub fn load_tree<F: Files>(alloc: Global, files: &mut F, id: &ObjectId) -> Result<(), NodeFault>
    ensures loaded { F.honest → OnOk result (IsLoaded (F.content files.old) id.now (F.content files.new)) }
    ensures refused { F.honest → IfErr result (BlamesLoad (F.content files.old) id.now) }
    ensures kept { F.honest → Spares result (F.content files.old) (F.content files.new) }
    ensures file { F.honest → IfErr result (TellsRead (IsBelow (F.content files.old) id.now) NoneRead) }
    ensures wear { Writes F.honest F.content F.failed F.can_fail F.left files.old files.new (TellsDevice result) }
    ensures looks { F.honest → MayLoad (F.content files.old) id.now ⊎ Wears F.failed F.can_fail F.left files.old files.new (TellsDevice result) }
{
    let index = Index::from_tree(alloc, files, id)?;
    write_index(alloc, files, &index)?;
    Ok(())
}

/// Makes HEAD a branch, or the id of a good commit.
pub fn set_head<F: Files>(alloc: Global, files: &mut F, head: &Head) -> Result<(), NodeFault>
    requires { IsHeadInRefs head.now }
    ensures set { F.honest → OnOk result (shown (F.content files.new) ≡ with_head_shown (shown (F.content files.old)) head.now) }
    ensures may { F.honest → OnOk result (MayHead (F.content files.old) head.now) }
    ensures refused { F.honest → IfErr result (BlamesHead (F.content files.old) head.now) }
    ensures kept { F.honest → Spares result (F.content files.old) (F.content files.new) }
    ensures file { F.honest → IfErr result (TellsRead (IsReachedByHead (F.content files.old) head.now) NoneRead) }
    ensures wear { Writes F.honest F.content F.failed F.can_fail F.left files.old files.new (TellsDevice result) }
    ensures looks { F.honest → (IsLegalHead head.now × MayHead (F.content files.old) head.now) ⊎ Wears F.failed F.can_fail F.left files.old files.new (TellsDevice result) }
{
    if let Head::Id(id) = head {
        refuse_bad_commit(alloc, files, id)?;
    }
    vc_refs::set_head(files, alloc, head)?;
    Ok(())
}

/// Sets a ref, whatever it is.
pub(crate) fn put_ref<F: Files>(
    alloc: Global,
    files: &mut F,
    name: &RefName,
    id: ObjectId,
) -> Result<(), NodeFault>
    requires { IsInRefs name.now }
    ensures set { F.honest → OnOk result (shown (F.content files.new) ≡ with_refs_shown (shown (F.content files.old)) (with_ref (refs (F.content files.old)) name.now id)) }
    ensures free { F.honest → OnOk result (IsFree (F.content files.old) name.now) }
    ensures refused { F.honest → IfErr result (BlamesPut (F.content files.old) name.now) }
    ensures kept { F.honest → Spares result (F.content files.old) (F.content files.new) }
    ensures file { F.honest → IfErr result (TellsRead NoneRead (IsAtName (F.content files.old) name.now)) }
    ensures wear { Writes F.honest F.content F.failed F.can_fail F.left files.old files.new (TellsDevice result) }
    ensures looks { F.honest → ((is_ref name.now ≡ true) × IsFree (F.content files.old) name.now) ⊎ Wears F.failed F.can_fail F.left files.old files.new (TellsDevice result) }
{
    let current = vc_refs::get(files, alloc, name)?;
    vc_refs::set(files, alloc, name, current, id)?;
    Ok(())
}

/// Sets a branch to a good commit, whatever it is.
pub fn set_branch<F: Files>(
    alloc: Global,
    files: &mut F,
    branch: &RefName,
    id: &ObjectId,
) -> Result<(), NodeFault>
    requires { IsInRefs branch.now }
    ensures set { F.honest → OnOk result (shown (F.content files.new) ≡ with_refs_shown (shown (F.content files.old)) (with_ref (refs (F.content files.old)) branch.now id.now)) }
    ensures free { F.honest → OnOk result (IsFree (F.content files.old) branch.now) }
    ensures good { F.honest → OnOk result (IsGoodBeyondRefs (F.content files.old) id.now) }
    ensures refused { F.honest → IfErr result (BlamesBranch (F.content files.old) branch.now id.now) }
    ensures kept { F.honest → Spares result (F.content files.old) (F.content files.new) }
    ensures file { F.honest → IfErr result (TellsRead (IsReached (F.content files.old) id.now) (IsAtName (F.content files.old) branch.now)) }
    ensures wear { Writes F.honest F.content F.failed F.can_fail F.left files.old files.new (TellsDevice result) }
    ensures looks { F.honest → MayBranch (F.content files.old) branch.now id.now ⊎ Wears F.failed F.can_fail F.left files.old files.new (TellsDevice result) }
{
    refuse_conflict(files, alloc, branch)?;
    refuse_bad_commit(alloc, files, id)?;
    put_ref(alloc, files, branch, id.named())?;
    Ok(())
}

/// Removes a ref, whatever it is. Where it ends early, a line of the packed file may be gone, and each ref is as before.
pub fn remove_ref<F: Files>(alloc: Global, files: &mut F, name: &RefName) -> Result<(), NodeFault>
    requires { IsInRefs name.now }
    ensures removed { F.honest → OnOk result (shown (F.content files.new) ≡ with_refs_shown (shown (F.content files.old)) (without_ref (refs (F.content files.old)) name.now)) }
    ensures refused { F.honest → IfErr result (BlamesRemoved (F.content files.old)) }
    ensures err { F.honest → OnErr result (shown (F.content files.new) ≡ shown (F.content files.old)) }
    ensures clean { F.honest → KeepsCleanBut name.now (F.content files.old) (F.content files.new) }
    ensures file { F.honest → IfErr result (TellsRead NoneRead (IsItsFile name.now)) }
    ensures wear { Writes F.honest F.content F.failed F.can_fail F.left files.old files.new (TellsDevice result) }
{
    let current = vc_refs::get(files, alloc, name)?;
    vc_refs::remove(files, alloc, name, current)?;
    Ok(())
}

/// Puts all refs into the packed file. Nothing that is shown changes, wherever it stops, and a refusal writes nothing.
pub fn pack_refs<F: Files>(alloc: Global, files: &mut F) -> Result<(), NodeFault>
    ensures packed { F.honest → OnOk result (IsPackedFrom (F.content files.old) (F.content files.new)) }
    ensures kept { F.honest → PacksOnly (F.content files.old) (F.content files.new) }
    ensures refused { F.honest → IfErr result (BlamesPacking (F.content files.old)) }
    ensures err { F.honest → IfErr result (λ e. (is_fault e ≡ true) ⊎ (F.content files.new ≡ F.content files.old)) }
    ensures wear { Writes F.honest F.content F.failed F.can_fail F.left files.old files.new (TellsDevice result) }
{
    vc_refs::pack(files, alloc)?;
    Ok(())
}
