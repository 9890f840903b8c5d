//! What a stored object holds, as expressions read it.

ghost use Rattle.std.specs.Prelude.{◌≡◌, ◌≢◌, option_map, IfOk, IfErr};
ghost use Rattle.vc_object.specs.CommitView.{commit_view};
ghost use Rattle.vc_object.specs.Decoding.{stored_object};
ghost use Rattle.vc_rev.specs.Meaning.{commit_in, target_in, entries_in, entry_named, nth_parent, parent_in, of_kind, pick};
ghost use Rattle.vc_object.specs.Entries.{entries_of};
ghost use Rattle.vc_object.specs.EntryView.{entry_view};
ghost use Rattle.vc_object.specs.Links.{parents_of};
ghost use Rattle.vc_rev.specs.Answer.{IsToldAlone};

use crate::refusal::{Refusal, RevFault, SourceFault};
use std::alloc::Global;
use vc_expression::Step;
use vc_files::Fault;
use vc_object::{Commit, Kind, ObjectId, Tree, TreeEntry, commit_of, tag_of, tree_of};
use vc_object_map::StoreFault;
use vc_store::Stored;

/// The commit that an object is.
fn read_commit(object: &Stored) -> Option<Commit<'_>>
    ensures { option_map commit_view result ≡ commit_in (stored_object object.now.kind object.now.body.items) }
{
    commit_of(&object.object())
}

/// What the tag that an object is names.
pub(crate) fn target(object: &Stored) -> Option<ObjectId>
    ensures { result ≡ target_in (stored_object object.now.kind object.now.body.items) }
{
    match tag_of(&object.object()) {
        Some(tag) => Some(tag.object),
        None => None,
    }
}

/// The n-th parent of a commit, and for 0 the commit itself.
fn nth_parent(id: ObjectId, parents: &[ObjectId], n: u32) -> Result<ObjectId, Refusal>
    ensures { result ≡ nth_parent id parents.now n }
{
    if n == 0 {
        return Ok(id);
    }
    match parents.get(n as usize - 1) {
        Some(parent) => Ok(*parent),
        None => Err(Refusal::NoSuchParent),
    }
}

/// The n-th parent of the commit that an object is.
fn parent(alloc: Global, id: ObjectId, object: &Stored, n: u32) -> Result<ObjectId, RevFault>
    ensures ok { IfOk result (λ found. parent_in id (parents_of object.now.kind object.now.body.items) n ≡ Ok found) }
    ensures refused { IfErr result (IsToldAlone (λ answer. answer ≡ parent_in id (parents_of object.now.kind object.now.body.items) n)) }
    ensures memory { IfErr result (λ e. e ≢ RevFault.Source (SourceFault.Store (StoreFault.Fault Fault.Device))) }
{
    let found = vc_object::parents(alloc, &object.object())?;
    let Some(parents) = found else {
        return Err(RevFault::Refused(Refusal::WrongKind));
    };
    let id = nth_parent(id, &parents, n)?;
    Ok(id)
}

/// An object of that kind, or for a tree the tree of a commit.
pub(crate) fn of_kind(kind: Kind, id: ObjectId, object: &Stored) -> Result<ObjectId, Refusal>
    ensures { result ≡ of_kind kind id (stored_object object.now.kind object.now.body.items) }
{
    if object.kind == kind {
        return Ok(id);
    }
    if kind != Kind::Tree {
        return Err(Refusal::WrongKind);
    }
    match read_commit(object) {
        Some(commit) => Ok(commit.tree),
        None => Err(Refusal::WrongKind),
    }
}

/// What a step gives from an object that is no tag.
pub(crate) fn pick(
    alloc: Global,
    step: Step,
    id: ObjectId,
    object: &Stored,
) -> Result<ObjectId, RevFault>
    ensures ok { IfOk result (λ found. pick step (id, stored_object object.now.kind object.now.body.items) ≡ Ok found) }
    ensures refused { IfErr result (IsToldAlone (λ answer. answer ≡ pick step (id, stored_object object.now.kind object.now.body.items))) }
    ensures memory { IfErr result (λ e. e ≢ RevFault.Source (SourceFault.Store (StoreFault.Fault Fault.Device))) }
{
    match step {
        Step::Parent(n) => parent(alloc, id, object, n),
        Step::Ancestor(_) => Err(RevFault::Refused(Refusal::WrongKind)),
        Step::Peel => Ok(id),
        Step::PeelTo(kind) => Ok(of_kind(kind, id, object)?),
    }
}

/// The entry of this name in a tree.
fn find_entry<'a>(tree: Tree<'a>, name: &[u8]) -> Option<TreeEntry<'a>>
    ensures { option_map entry_view result ≡ entry_named name.now (entries_of tree.entry.body.now) }
{
    for entry in tree.entries() {
        if entry.name == name {
            return Some(entry);
        }
    }
    None
}

/// The entry of this name in the tree that an object is.
pub(crate) fn entry_named<'a>(object: &'a Stored, name: &[u8]) -> Option<TreeEntry<'a>>
    ensures { option_map entry_view result ≡ entry_named name.now (entries_in (stored_object object.now.kind object.now.body.items)) }
{
    match tree_of(&object.object()) {
        Some(tree) => find_entry(tree, name),
        None => None,
    }
}
