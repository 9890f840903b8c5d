// Refs as a view of files.
ghost use Rattle.std.specs.Prelude.{◌≡◌, ◌⊎◌, [], Ok, IfOk, IfErr, IfSome, OnOk};
ghost use Rattle.vc_files.specs.Failures.{Wears, Writes};
ghost use Rattle.vc_refs.specs.RefMap.{IsInRefs, IsListOf};
ghost use Rattle.vc_refs.specs.Refs.{deciding_file, refs, IsBadRef, SpellsRefs};
ghost use Rattle.vc_refs.specs.Head.{head_of, head_value, IsHeadInRefs, IsLegalHead};
ghost use Rattle.vc_refs.specs.Packing.{HasLoose};
ghost use Rattle.vc_refs.specs.Obstacle.{IsFree};
ghost use Rattle.vc_refs.specs.RefCalls.{PacksRefs, RemovesRef, SetsHead, SetsRef};
ghost use Rattle.vc_refs.specs.SetAll.{AreNamedInRefs, BlamesSetAll, MayChangeAll, SetsAll, TellsDeviceOfAll};
ghost use Rattle.vc_refs.specs.RefFault.{BlamesRef, BlamesRemove, BlamesSet, BlamesObstacle, BlamesList, BlamesPacking, BlamesHead, BlamesHeadValue, HasExpected, MaySet, IsGoodHead, IsGoodHeadValue, IsFault, MayWriteRef, MayRemoveRef, TellsDevice};

use crate::{Head, RefChange, RefFault, SetAllFault, head_file, layered};
use std::alloc::Global;
use vc_files::Files;
use vc_object::ObjectId;
use vc_refname::RefName;

/// A view of files as refs and HEAD.
#[derive(Drop)]
pub struct Refs<'a, F> {
    files: &'a mut F,
    alloc: Global,
}

impl<'a, F: Files> Refs<'a, F> {
    /// The refs of these files.
    pub fn new(alloc: Global, files: &'a mut F) -> Refs<'a, F>
        ensures same_files { result.files.ghost_name ≡ files.entry.ghost_name }
        ensures files { result.files.now ≡ files.old }
    {
        Refs { files, alloc }
    }

    /// The id that the ref stands for, or none if there is no such ref. See [`get`](crate::get).
    pub fn get(&mut self, name: &RefName) -> Result<Option<ObjectId>, RefFault>
        requires { IsInRefs name.now }
        ensures same_files { self.new.files.ghost_name ≡ self.old.files.ghost_name }
        ensures found { F.honest → IfOk result (λ id. id ≡ refs (F.content self.old.files.now) name.now) }
        ensures good { F.honest → OnOk result (IsBadRef (F.content self.old.files.now) (deciding_file (F.content self.old.files.now) name.now) → ⊥) }
        ensures refused { F.honest → IfErr result (BlamesRef (F.content self.old.files.now) name.now) }
        ensures same { F.content self.new.files.now ≡ F.content self.old.files.now }
        ensures wear { Wears F.failed F.can_fail F.left self.old.files.now self.new.files.now (TellsDevice result) }
    {
        layered::get(self.files, self.alloc, name)
    }

    /// Sets the ref, if its value is the expected one. See [`set`](crate::set).
    pub fn set(
        &mut self,
        name: &RefName,
        expected: Option<ObjectId>,
        new: ObjectId,
    ) -> Result<(), RefFault>
        requires { IsInRefs name.now }
        ensures same_files { self.new.files.ghost_name ≡ self.old.files.ghost_name }
        ensures sets { SetsRef F.honest F.content name.now new self.old.files.now self.new.files.now result }
        ensures allowed { F.honest → OnOk result (MaySet (F.content self.old.files.now) name.now expected) }
        ensures refused { F.honest → IfErr result (BlamesSet (F.content self.old.files.now) name.now expected) }
        ensures wear { Writes F.honest F.content F.failed F.can_fail F.left self.old.files.now self.new.files.now (TellsDevice result) }
        ensures looks { F.honest → MayWriteRef (F.content self.old.files.now) name.now expected ⊎ Wears F.failed F.can_fail F.left self.old.files.now self.new.files.now (TellsDevice result) }
    {
        layered::set(self.files, self.alloc, name, expected, new)
    }

    /// Refuses a name that no ref may have beside those that are there. See
    /// [`refuse_conflict`](crate::refuse_conflict).
    pub fn refuse_conflict(&mut self, name: &RefName) -> Result<(), RefFault>
        requires { IsInRefs name.now }
        ensures same_files { self.new.files.ghost_name ≡ self.old.files.ghost_name }
        ensures free { F.honest → OnOk result (IsFree (F.content self.old.files.now) name.now) }
        ensures refused { F.honest → IfErr result (BlamesObstacle (F.content self.old.files.now) name.now) }
        ensures same { F.content self.new.files.now ≡ F.content self.old.files.now }
        ensures wear { Wears F.failed F.can_fail F.left self.old.files.now self.new.files.now (TellsDevice result) }
    {
        layered::refuse_conflict(self.files, self.alloc, name)
    }

    /// Removes the ref, if its value is the expected one. See [`remove`](crate::remove).
    pub fn remove(&mut self, name: &RefName, expected: Option<ObjectId>) -> Result<(), RefFault>
        requires { IsInRefs name.now }
        ensures same_files { self.new.files.ghost_name ≡ self.old.files.ghost_name }
        ensures removes { RemovesRef F.honest F.content name.now self.old.files.now self.new.files.now result }
        ensures allowed { F.honest → OnOk result (HasExpected (F.content self.old.files.now) name.now expected) }
        ensures refused { F.honest → IfErr result (BlamesRemove (F.content self.old.files.now) name.now expected) }
        ensures wear { Writes F.honest F.content F.failed F.can_fail F.left self.old.files.now self.new.files.now (TellsDevice result) }
        ensures looks { F.honest → MayRemoveRef (F.content self.old.files.now) name.now expected ⊎ Wears F.failed F.can_fail F.left self.old.files.now self.new.files.now (TellsDevice result) }
    {
        layered::remove(self.files, self.alloc, name, expected)
    }

    /// Puts all refs into the packed file. See [`pack`](crate::pack).
    pub fn pack(&mut self) -> Result<(), RefFault>
        ensures same_files { self.new.files.ghost_name ≡ self.old.files.ghost_name }
        ensures packs { PacksRefs F.honest F.content self.old.files.now self.new.files.now result }
        ensures good { F.honest → OnOk result (SpellsRefs (F.content self.old.files.now)) }
        ensures refused { F.honest → IfErr result (BlamesPacking (F.content self.old.files.now)) }
        ensures wear { Writes F.honest F.content F.failed F.can_fail F.left self.old.files.now self.new.files.now (TellsDevice result) }
        ensures looks { F.honest → HasLoose (F.content self.old.files.now) ⊎ Wears F.failed F.can_fail F.left self.old.files.now self.new.files.now (TellsDevice result) }
    {
        layered::pack(self.files, self.alloc)
    }

    /// The refs with their ids, in the order of the names' bytes. See [`list`](crate::list).
    pub fn list(&mut self) -> Result<Vec<(RefName, ObjectId)>, RefFault>
        ensures same_files { self.new.files.ghost_name ≡ self.old.files.ghost_name }
        ensures listed { F.honest → IfOk result (λ listed. IsListOf (refs (F.content self.old.files.now)) listed.items) }
        ensures good { F.honest → OnOk result (SpellsRefs (F.content self.old.files.now)) }
        ensures refused { F.honest → IfErr result (BlamesList (F.content self.old.files.now)) }
        ensures same { F.content self.new.files.now ≡ F.content self.old.files.now }
        ensures wear { Wears F.failed F.can_fail F.left self.old.files.now self.new.files.now (TellsDevice result) }
    {
        layered::list(self.files, self.alloc)
    }

    /// What HEAD is, or none if it isn't there. See [`head`](crate::head).
    pub fn head(&mut self) -> Result<Option<Head>, RefFault>
        ensures same_files { self.new.files.ghost_name ≡ self.old.files.ghost_name }
        ensures found { F.honest → IfOk result (λ head. head ≡ head_of (F.content self.old.files.now)) }
        ensures inside { IfOk result (λ head. IfSome head IsHeadInRefs) }
        ensures good { F.honest → OnOk result (IsGoodHead (F.content self.old.files.now)) }
        ensures refused { F.honest → IfErr result (BlamesHead (F.content self.old.files.now)) }
        ensures same { F.content self.new.files.now ≡ F.content self.old.files.now }
        ensures wear { Wears F.failed F.can_fail F.left self.old.files.now self.new.files.now (TellsDevice result) }
    {
        head_file::head(self.files, self.alloc)
    }

    /// The id that HEAD leads to, or none. See [`resolve_head`](crate::resolve_head).
    pub fn resolve_head(&mut self) -> Result<Option<ObjectId>, RefFault>
        ensures same_files { self.new.files.ghost_name ≡ self.old.files.ghost_name }
        ensures found { F.honest → IfOk result (λ id. id ≡ head_value (refs (F.content self.old.files.now)) (head_of (F.content self.old.files.now))) }
        ensures good { F.honest → OnOk result (IsGoodHeadValue (F.content self.old.files.now)) }
        ensures refused { F.honest → IfErr result (BlamesHeadValue (F.content self.old.files.now)) }
        ensures same { F.content self.new.files.now ≡ F.content self.old.files.now }
        ensures wear { Wears F.failed F.can_fail F.left self.old.files.now self.new.files.now (TellsDevice result) }
    {
        layered::resolve_head(self.files, self.alloc)
    }

    /// Makes HEAD this ref or this id. See [`set_head`](crate::set_head).
    pub fn set_head(&mut self, head: &Head) -> Result<(), RefFault>
        requires { IsHeadInRefs head.now }
        ensures same_files { self.new.files.ghost_name ≡ self.old.files.ghost_name }
        ensures sets { SetsHead F.honest F.content head.now self.old.files.now self.new.files.now result }
        ensures refused { IfErr result IsFault }
        ensures wear { Writes F.honest F.content F.failed F.can_fail F.left self.old.files.now self.new.files.now (TellsDevice result) }
        ensures looks { IsLegalHead head.now ⊎ Wears F.failed F.can_fail F.left self.old.files.now self.new.files.now (TellsDevice result) }
    {
        head_file::set_head(self.files, self.alloc, head)
    }

    /// Makes all of these changes, or none. See [`set_all`](crate::set_all).
    pub fn set_all(&mut self, changes: &[RefChange]) -> Result<(), SetAllFault>
        requires { AreNamedInRefs changes.now }
        ensures same_files { self.new.files.ghost_name ≡ self.old.files.ghost_name }
        ensures sets { SetsAll F.honest F.content changes.now self.old.files.now self.new.files.now result }
        ensures allowed { F.honest → OnOk result ((changes.now ≡ []) ⊎ MayChangeAll (F.content self.old.files.now) changes.now) }
        ensures refused { F.honest → IfErr result (BlamesSetAll (F.content self.old.files.now) changes.now) }
        ensures none { changes.now ≡ [] → (result ≡ Ok tt) × (self.new.files.now ≡ self.old.files.now) }
        ensures wear { Writes F.honest F.content F.failed F.can_fail F.left self.old.files.now self.new.files.now (TellsDeviceOfAll result) }
        ensures looks { F.honest → MayChangeAll (F.content self.old.files.now) changes.now ⊎ Wears F.failed F.can_fail F.left self.old.files.now self.new.files.now (TellsDeviceOfAll result) }
    {
        layered::set_all(self.files, self.alloc, changes)
    }
}
