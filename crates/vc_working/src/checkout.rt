//! What `checkout` does to files and to a work tree: it looks at all that it needs before it writes.
ghost use Rattle.std.specs.Prelude.{◌≡◌, ◌⊎◌, ℕ, List, Some, None, Ok, IfOk, IfErr, OnOk, IsSome, MatchOption, true, false};
ghost use Rattle.std.specs.FinMap as maps;
ghost use Rattle.vc_local.specs.Blames.{IsLocalHead, MayHead};
ghost use Rattle.vc_refs.specs.Refs.{refs};
ghost use Rattle.vc_index.specs.TreeReading.{ListsAs};
ghost use Rattle.vc_object_map.specs.Store.{objects};
ghost use Rattle.vc_work_folder.specs.Own.{meets_own};
ghost use Rattle.vc_working.specs.Checkout.{ChecksOut, IsApart, IsCommitTree, IsOfCommit, IsOfNewHead, IsOfOwn, IsOfRef, IsOfTarget, IsOfTreeList, IsReadable, IsTarget, LeavesOrFails, MayBring, RefusesCheckout, RefusesLook, peeled};
ghost use Rattle.vc_working.specs.CloneWords.{branch_ref};
ghost use Rattle.vc_working.specs.Devices.{WritesEither};
ghost use Rattle.vc_cli.specs.Failure.{TellsDevice};
ghost use Rattle.vc_cli.specs.Revisions.{Denoted, IsOfRevision};
ghost use Rattle.vc_files.specs.Failures.{Wears, unstopped};

use crate::begun::end;
use crate::branch_name::branch_of;
use crate::mending::{bring_noted, ready};
use std::alloc::{AllocError, Global};
use vc_cli::{Failure, resolve, resolve_bytes};
use vc_files::Files;
use vc_index::Index;
use vc_local::{NodeFault, read_index, refuse_bad_commit, write_index};
use vc_object::{Kind, ObjectId};
use vc_refname::RefName;
use vc_refs::Head;
use vc_work_folder::meets_own;
use vc_work_tree::WorkTree;

// The text of an id, peeled to a kind.
fn peel_text(alloc: Global, id: &ObjectId, kind: Kind) -> Result<Vec<u8>, AllocError>
    ensures { IfOk result (λ text. text.items ≡ peeled id.now kind) }
{
    let mut text = Vec::new(alloc);
    text.extend_from_slice(&id.to_hex())?;
    text.extend_from_slice(b"^{")?;
    text.extend_from_slice(kind.word())?;
    text.push(b'}')?;
    Ok(text)
}

/// The object of this name, peeled to a kind.
pub fn peel<F: Files>(
    alloc: Global,
    files: &mut F,
    id: &ObjectId,
    kind: Kind,
) -> Result<ObjectId, Failure>
    ensures value { F.honest → IfOk result (λ found. Denoted (F.content files.old) (peeled id.now kind) (Ok found)) }
    ensures refused { F.honest → IfErr result (IsOfRevision (F.content files.old) (peeled id.now kind)) }
    ensures same { F.content files.new ≡ F.content files.old }
    ensures wear { Wears F.failed F.can_fail F.left files.old files.new (TellsDevice result) }
{
    let text = peel_text(alloc, id, kind)?;
    resolve_bytes(alloc, files, &text)
}

// The commit of an object, and the tree of that commit.
fn commit_tree<F: Files>(
    alloc: Global,
    files: &mut F,
    id: &ObjectId,
) -> Result<(ObjectId, ObjectId), Failure>
    ensures tree { F.honest → IfOk result (λ found. IsCommitTree (F.content files.old) id.now found.0 found.1) }
    ensures refused { F.honest → IfErr result (IsOfCommit (F.content files.old) id.now) }
    ensures same { F.content files.new ≡ F.content files.old }
    ensures wear { Wears F.failed F.can_fail F.left files.old files.new (TellsDevice result) }
{
    let commit = peel(alloc, files, id, Kind::Commit)?;
    let tree = peel(alloc, files, &commit, Kind::Tree)?;
    Ok((commit, tree))
}

// The branch of this name and its value, if there is one.
fn branch_at<F: Files>(
    alloc: Global,
    files: &mut F,
    name: &str,
) -> Result<Option<(RefName, ObjectId)>, Failure>
    ensures found { F.honest → IfOk result (λ found. MatchOption found (refs (F.content files.old) (branch_ref name.now) ≡ None) (λ b. refs (F.content files.old) (branch_ref name.now) ≡ Some b.1)) }
    ensures name { IfOk result (λ found. MatchOption found (Unit {0}) (λ b. b.0 ≡ branch_ref name.now)) }
    ensures good { F.honest → OnOk result (IsReadable (F.content files.old) (branch_ref name.now)) }
    ensures refused { F.honest → IfErr result (IsOfRef (F.content files.old) (branch_ref name.now)) }
    ensures same { F.content files.new ≡ F.content files.old }
    ensures wear { Wears F.failed F.can_fail F.left files.old files.new (TellsDevice result) }
{
    let branch = match branch_of(alloc, name) {
        Ok(branch) => branch,
        Err(Failure::Name(_)) => return Ok(None),
        Err(fault) => return Err(fault),
    };
    let Some(id) = vc_refs::get(files, alloc, &branch)? else {
        return Ok(None);
    };
    Ok(Some((branch, id)))
}

// The HEAD that a checkout of the revision leaves, and the tree that it brings. A branch of that name comes before a tag.
fn target<F: Files>(
    alloc: Global,
    files: &mut F,
    revision: &str,
) -> Result<(Head, ObjectId), Failure>
    ensures target { F.honest → IfOk result (λ found. IsTarget (F.content files.old) revision.now found.0 found.1) }
    ensures local { IfOk result (λ found. IsLocalHead found.0) }
    ensures refused { F.honest → IfErr result (IsOfTarget (F.content files.old) revision.now) }
    ensures same { F.content files.new ≡ F.content files.old }
    ensures wear { Wears F.failed F.can_fail F.left files.old files.new (TellsDevice result) }
{
    let Some((branch, id)) = branch_at(alloc, files, revision)? else {
        let named = resolve(alloc, files, revision)?;
        let (commit, tree) = commit_tree(alloc, files, &named)?;
        return Ok((Head::Id(commit), tree));
    };
    let (_, tree) = commit_tree(alloc, files, &id)?;
    Ok((Head::Branch(branch), tree))
}

// Refuses a HEAD that is the id of no complete commit.
fn refuse_bad_head<F: Files>(alloc: Global, files: &mut F, head: &Head) -> Result<(), Failure>
    ensures may { F.honest → OnOk result (MayHead (F.content files.old) head.now) }
    ensures refused { F.honest → IfErr result (IsOfNewHead (F.content files.old) head.now) }
    ensures same { F.content files.new ≡ F.content files.old }
    ensures wear { Wears F.failed F.can_fail F.left files.old files.new (TellsDevice result) }
{
    if let Head::Id(id) = head {
        refuse_bad_commit(alloc, files, id)?;
    }
    Ok(())
}

// Whether the index has a file in the store's own folder, or in the place of one above it.
fn has_own(index: &Index, own: &[u8]) -> bool
    ensures apart { result ≡ false → (path : List ℕ) → IsSome (maps.get index.now path) → meets_own own.now path ≡ false }
    ensures found { result ≡ true → (path : List ℕ) × IsSome (maps.get index.now path) × (meets_own own.now path ≡ true) }
{
    for (path, _) in index.iter() {
        if meets_own(own, path) {
            return true;
        }
    }
    false
}

// The files that the tree lists, where none is in the store's own folder or in the place of one above it.
fn list_apart<F: Files>(
    alloc: Global,
    files: &mut F,
    own: &[u8],
    root: &ObjectId,
) -> Result<Index, Failure>
    ensures lists { F.honest → IfOk result (λ tree. ListsAs (objects (F.content files.old)) root.now (Ok tree)) }
    ensures apart { F.honest → OnOk result (IsApart (objects (F.content files.old)) root.now own.now) }
    ensures refused { F.honest → IfErr result (λ e. IsOfTreeList (F.content files.old) root.now e ⊎ IsOfOwn (F.content files.old) root.now own.now e) }
    ensures same { F.content files.new ≡ F.content files.old }
    ensures wear { Wears F.failed F.can_fail F.left files.old files.new (TellsDevice result) }
{
    let tree = match Index::list_tree(alloc, files, root) {
        Ok(tree) => tree,
        Err(fault) => return Err(Failure::Node(NodeFault::from(fault))),
    };
    if has_own(&tree, own) {
        return Err(Failure::Node(NodeFault::BadPath));
    }
    Ok(tree)
}

// What a checkout needs: the index, the HEAD that it leaves and the files of the tree that it brings. Nothing is written.
fn look<F: Files>(
    alloc: Global,
    files: &mut F,
    own: &[u8],
    revision: &str,
) -> Result<(Index, Head, ObjectId, Index), Failure>
    ensures may { F.honest → IfOk result (λ found. MayBring own.now revision.now (F.content files.old) found.0 found.1 found.2 found.3) }
    ensures local { IfOk result (λ found. IsLocalHead found.1) }
    ensures refused { F.honest → IfErr result (RefusesLook own.now revision.now (F.content files.old)) }
    ensures same { F.content files.new ≡ F.content files.old }
    ensures wear { Wears F.failed F.can_fail F.left files.old files.new (TellsDevice result) }
{
    let index = read_index(alloc, files)?;
    vc_refs::head(files, alloc)?;
    let (aim, root) = target(alloc, files, revision)?;
    refuse_bad_head(alloc, files, &aim)?;
    let tree = list_apart(alloc, files, own, &root)?;
    Ok((index, aim, root, tree))
}

/// Brings the work tree, the index and HEAD, in this order, to the commit that the revision names: where there is a branch
/// of that name, to the branch. `own` is the path of the store's folder in the work tree, empty where it lies elsewhere.
///
/// Before the first write these are looked at, and the first that is at fault is told: the file of the index (62), HEAD's
/// (33, 34), that of the branch of that name (33), the revision (50 to 56), what it names as a commit and its tree (51, 55),
/// all that a commit reaches which HEAD is to be (40), and the commits along its parent links (41), the tree and those below it
/// (40, 60, 63), its paths, none of which may be own (60), the paths that the index has otherwise or not at all, which the work
/// tree must be able to hold (60), their blobs (40, 63), and the work tree, where nothing may be lost that is not stored (70, 71, 72). Of the tree's other blobs none is opened for that.
///
/// Before its first write of the work tree it notes the tree, and the note goes last. Where a checkout to another tree was cut
/// short, by a stop or a fault, this one starts from the index of what the work tree has (`vc_checkout::settle`): what that one wrote is
/// written over, and what it took away comes again, whatever this one brings; a file that is neither's is a person's.
///
/// A fault may leave part of the work tree brought, or all of it, and then the index, and then HEAD; the note is there as long as the
/// work tree may be neither what it was nor all that was to be brought.
pub fn check_out<F: Files, W: WorkTree>(
    alloc: Global,
    files: &mut F,
    work: &mut W,
    own: &[u8],
    revision: &str,
) -> Result<(), Failure>
    ensures done { W.honest → F.honest → OnOk result (ChecksOut W.content W.folders W.can_hold own.now revision.now (F.content files.old) (F.content files.new) work.old work.new) }
    ensures refused { F.honest → IfErr result (RefusesCheckout W.honest (W.can_hold work.old) own.now revision.now (F.content files.old) (W.content work.old)) }
    ensures begun { F.honest → IfErr result (LeavesOrFails W.honest W.content W.folders W.left W.can_hold own.now revision.now (F.content files.old) (F.content files.new) work.old work.new) }
    ensures wear { WritesEither W.failed W.can_fail unstopped F.honest F.content F.failed F.can_fail F.left work.old work.new files.old files.new (TellsDevice result) }
{
    let (index, aim, root, tree) = look(alloc, files, own, revision)?;
    let (is_cut, start) = ready(alloc, files, work, index, &root, &tree)?;
    bring_noted(alloc, files, work, is_cut, &start, &root, &tree)?;
    write_index(alloc, files, &tree)?;
    vc_refs::set_head(files, alloc, &aim)?;
    end(alloc, files)?;
    Ok(())
}
