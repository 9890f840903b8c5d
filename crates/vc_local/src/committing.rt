// What a commit does to files: it looks for what refuses it, writes the trees and the commit, and then moves HEAD.
ghost use Rattle.std.specs.Prelude.{◌≡◌, ◌⊎◌, ◌++◌, IfOk, IfErr, IfSome, OnOk, OnErr, Contains, codes};
ghost use Rattle.std.specs.List.{AllByRecursion};
ghost use Rattle.vc_files.specs.Failures.{Wears, Writes};
ghost use Rattle.vc_files.specs.FileMap.{SameOutside};
ghost use Rattle.vc_object.specs.Lines.{id_line, line};
ghost use Rattle.vc_refs.specs.Head.{IsHeadInRefs, head_of};
ghost use Rattle.vc_object_map.specs.Store.{objects};
ghost use Rattle.vc_local.specs.Clean.{KeepsClean};
ghost use Rattle.vc_local.specs.Commit.{IsGoodParent, IsFreeHead, IsCommitted, made_body, moved, parents_of_commit};
ghost use Rattle.vc_local.specs.IndexFile.{SpellsIndex};
ghost use Rattle.vc_local.specs.Making.{AreLines, BlamesFreeHead, BlamesLines, BlamesLook, BlamesMaking, BlamesMoving, BlamesObjects, BlamesParents, LeavesSaid, MayMakeSaid, StoresTrees, WritesSaid};
ghost use Rattle.vc_local.specs.NodeFault.{TellsDevice};
ghost use Rattle.vc_local.specs.Reads.{IsAtBranch, IsAtHead, IsMade, IsOfSaid, IsReachedByOne, NoneRead, TellsRead};
ghost use Rattle.vc_local.specs.Shown.{shown};

use crate::NodeFault;
use crate::checks::refuse_beyond;
use crate::index_file::kept_or_read;
use crate::local::put_ref;
use std::alloc::{AllocError, Global};
use vc_files::{Files, MemoryFiles};
use vc_index::Index;
use vc_object::{Kind, ObjectFault, ObjectId};
use vc_object_map::StoreFault;
use vc_quarantine::Known;
use vc_refs::{Head, RefFault, refuse_conflict};

/// What a commit says beside its tree and its parents.
#[derive(Clone, Copy)]
pub struct Words<'a> {
    pub author: &'a [u8],
    pub committer: &'a [u8],
    pub message: &'a [u8],
}

// Refuses an author or a committer of more than one line.
fn refuse_lines(words: Words<'_>) -> Result<(), NodeFault>
    ensures author { OnOk result (¬ (Contains words.entry.author.now 10)) }
    ensures committer { OnOk result (¬ (Contains words.entry.committer.now 10)) }
    ensures refused { IfErr result (BlamesLines words.entry.author.now words.entry.committer.now) }
{
    if words.author.contains(&b'\n') || words.committer.contains(&b'\n') {
        return Err(NodeFault::Store(StoreFault::BadObject(ObjectFault::BadCommit)));
    }
    Ok(())
}

// HEAD, where a commit may move it: no ref conflicts with the branch that it names.
fn free_head<F: Files>(alloc: Global, files: &mut F) -> Result<Head, NodeFault>
    ensures found { F.honest → IfOk result (λ head. head_of (F.content files.old) ≡ Some head) }
    ensures inside { IfOk result IsHeadInRefs }
    ensures free { F.honest → IfOk result (IsFreeHead (F.content files.old)) }
    ensures refused { F.honest → IfErr result (BlamesFreeHead (F.content files.old)) }
    ensures same { F.content files.new ≡ F.content files.old }
    ensures file { F.honest → IfErr result (TellsRead NoneRead (IsAtHead (F.content files.old))) }
    ensures wear { Wears F.failed F.can_fail F.left files.old files.new (TellsDevice result) }
{
    let Some(head) = vc_refs::head(files, alloc)? else {
        return Err(NodeFault::Ref(RefFault::BadRefFile(String::from_str(alloc, "HEAD")?)));
    };
    if let Head::Branch(name) = &head {
        refuse_conflict(files, alloc, name)?;
    }
    Ok(head)
}

// Refuses the first of some parents that is no complete commit. What the values of refs reach is taken to be there.
fn refuse_bad_parents<F: Files>(
    alloc: Global,
    files: &mut F,
    parents: &[ObjectId],
) -> Result<(), NodeFault>
    ensures good { F.honest → OnOk result (AllByRecursion (IsGoodParent (F.content files.old)) parents.now) }
    ensures refused { F.honest → IfErr result (BlamesParents (F.content files.old) parents.now) }
    ensures same { F.content files.new ≡ F.content files.old }
    ensures file { F.honest → IfErr result (TellsRead (IsReachedByOne (F.content files.old) parents.now) NoneRead) }
    ensures wear { Wears F.failed F.can_fail F.left files.old files.new (TellsDevice result) }
{
    if parents.is_empty() {
        return Ok(());
    }
    let mut known = Known::by_good_refs(files, alloc)?;
    for parent in parents {
        refuse_beyond(alloc, files, &mut known, parent)?;
    }
    Ok(())
}

// HEAD's commit, if there is one, and then the extra parents.
fn parents_with<F: Files>(
    alloc: Global,
    files: &mut F,
    extra: &[ObjectId],
) -> Result<Vec<ObjectId>, NodeFault>
    ensures parents { F.honest → IfOk result (λ ids. ids.items ≡ parents_of_commit (F.content files.old) extra.now) }
    ensures refused { F.honest → IfErr result (BlamesLook (F.content files.old)) }
    ensures same { F.content files.new ≡ F.content files.old }
    ensures file { F.honest → IfErr result (TellsRead NoneRead (IsAtHead (F.content files.old))) }
    ensures wear { Wears F.failed F.can_fail F.left files.old files.new (TellsDevice result) }
{
    let mut parents = Vec::new(alloc);
    if let Some(id) = vc_refs::resolve_head(files, alloc)? {
        parents.push(id)?;
    }
    parents.extend_from_slice(extra)?;
    Ok(parents)
}

// A line that names an object.
fn push_id_line(body: &mut Vec<u8>, word: &[u8], id: ObjectId) -> Result<(), AllocError>
    ensures { OnOk result (body.new.items ≡ body.old.items ++ id_line word.now id) }
{
    body.extend_from_slice(word)?;
    body.extend_from_slice(&id.to_hex())?;
    body.push(b'\n')?;
    Ok(())
}

// A line of a commit's author or committer.
fn push_line(body: &mut Vec<u8>, word: &[u8], text: &[u8]) -> Result<(), AllocError>
    ensures { OnOk result (body.new.items ≡ body.old.items ++ line word.now text.now) }
{
    body.extend_from_slice(word)?;
    body.extend_from_slice(text)?;
    body.push(b'\n')?;
    Ok(())
}

// The body of a commit.
fn commit_body(
    alloc: Global,
    tree: ObjectId,
    parents: &[ObjectId],
    words: Words<'_>,
) -> Result<Vec<u8>, AllocError>
    ensures { IfOk result (λ body. body.items ≡ made_body tree parents.now words.entry.author.now words.entry.committer.now words.entry.message.now) }
{
    let mut body = Vec::new(alloc);
    push_id_line(&mut body, b"tree ", tree)?;
    for parent in parents {
        push_id_line(&mut body, b"parent ", *parent)?;
    }
    push_line(&mut body, b"author ", words.author)?;
    push_line(&mut body, b"committer ", words.committer)?;
    push_line(&mut body, b"\n", words.message)?;
    Ok(body)
}

// Stores the trees of the index and the commit of the root's tree, and answers the commit's name.
fn write_objects<F: Files>(
    alloc: Global,
    files: &mut F,
    index: &Index,
    parents: &[ObjectId],
    words: Words<'_>,
) -> Result<ObjectId, NodeFault>
    ensures refused { IfErr result (BlamesObjects F.honest (F.content files.old) index.now parents.now words.entry.author.now words.entry.committer.now words.entry.message.now) }
    ensures left { OnErr result (StoresTrees F.honest index.now (objects (F.content files.old)) (objects (F.content files.new))) }
    ensures written { IfOk result (WritesSaid F.honest index.now parents.now words.entry (objects (F.content files.old)) (objects (F.content files.new))) }
    ensures outside { F.honest → SameOutside (codes "objects/") (F.content files.old) (F.content files.new) }
    ensures clean { F.honest → KeepsClean (F.content files.old) (F.content files.new) }
    ensures file { IfErr result (TellsRead (IsMade index.now parents.now words.entry.author.now words.entry.committer.now words.entry.message.now) NoneRead) }
    ensures wear { Writes F.honest F.content F.failed F.can_fail F.left files.old files.new (TellsDevice result) }
{
    let tree = index.write_tree(alloc, files)?;
    let body = commit_body(alloc, tree, parents, words)?;
    let id = vc_store::put(files, alloc, Kind::Commit, &body)?;
    Ok(id)
}

// Moves HEAD's branch, or a detached HEAD.
fn move_head<F: Files>(
    alloc: Global,
    files: &mut F,
    head: &Head,
    id: ObjectId,
) -> Result<(), NodeFault>
    requires { IsHeadInRefs head.now }
    ensures moved { F.honest → OnOk result (shown (F.content files.new) ≡ moved head.now id (shown (F.content files.old))) }
    ensures refused { F.honest → IfErr result (BlamesMoving (F.content files.old) head.now) }
    ensures err { F.honest → OnErr result (F.content files.new ≡ F.content files.old) }
    ensures clean { F.honest → OnOk result (KeepsClean (F.content files.old) (F.content files.new)) }
    ensures file { F.honest → IfErr result (TellsRead NoneRead (IsAtBranch (F.content files.old) head.now)) }
    ensures wear { Writes F.honest F.content F.failed F.can_fail F.left files.old files.new (TellsDevice result) }
{
    match head {
        Head::Branch(name) => {
            put_ref(alloc, files, name, id)?;
            Ok(())
        }
        Head::Id(_) => {
            vc_refs::set_head(files, alloc, &Head::Id(id))?;
            Ok(())
        }
    }
}

/// Commits the index, which is read from its file where none is kept: its trees and the commit are stored, and then HEAD is
/// moved. The objects are first written to files in memory, so that what refuses one of them is found before anything is written
/// here.
pub fn commit<F: Files>(
    alloc: Global,
    files: &mut F,
    kept: Option<Index>,
    extra: &[ObjectId],
    words: Words<'_>,
) -> Result<ObjectId, NodeFault>
    requires { F.honest → IfSome kept (SpellsIndex (F.content files.old)) }
    ensures committed { F.honest → IfOk result (λ id. IsCommitted (F.content files.old) extra.now words.entry.author.now words.entry.committer.now words.entry.message.now id (F.content files.new)) }
    ensures lines { OnOk result (AreLines words.entry.author.now words.entry.committer.now) }
    ensures refused { F.honest → IfErr result (BlamesMaking (F.content files.old) extra.now words.entry.author.now words.entry.committer.now words.entry.message.now) }
    ensures left { F.honest → OnErr result (LeavesSaid (F.content files.old) extra.now words.entry (F.content files.new)) }
    ensures clean { F.honest → KeepsClean (F.content files.old) (F.content files.new) }
    ensures file { F.honest → IfErr result (TellsRead (IsOfSaid (F.content files.old) extra.now words.entry) (IsAtHead (F.content files.old))) }
    ensures wear { Writes F.honest F.content F.failed F.can_fail F.left files.old files.new (TellsDevice result) }
    ensures looks { F.honest → MayMakeSaid (F.content files.old) extra.now words.entry ⊎ Wears F.failed F.can_fail F.left files.old files.new (TellsDevice result) }
{
    refuse_lines(words)?;
    let head = free_head(alloc, files)?;
    refuse_bad_parents(alloc, files, extra)?;
    let parents = parents_with(alloc, files, extra)?;
    let index = kept_or_read(alloc, files, kept)?;
    let mut memory = MemoryFiles::new(alloc);
    write_objects(alloc, &mut memory, &index, &parents, words)?;
    let id = write_objects(alloc, files, &index, &parents, words)?;
    move_head(alloc, files, &head, id)?;
    Ok(id)
}
