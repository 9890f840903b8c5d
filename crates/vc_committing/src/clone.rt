//! What the subcommands on a clone's index, branches and HEAD do to its files: each is one call of a node.
ghost use Rattle.std.specs.Prelude.{◌≡◌, ◌⊎◌, Ok, IfOk, IfErr, OnErr, OnOk, true, nat_eq, codes, map};
ghost use Rattle.std.specs.List.{starts_with};
ghost use Rattle.vc_files.specs.FileMap.{SameOutside};
ghost use Rattle.vc_index.specs.Damage.{KeepsDamage};
ghost use Rattle.vc_model.specs.Clone.Task.{Unstage, SetBranch, DeleteBranch};
ghost use Rattle.vc_refname.specs.RefName.{IsRefName};
ghost use Rattle.vc_refs.specs.Refs.{refs};
ghost use Rattle.vc_working.specs.CloneWords.{IsOfBranch, branch_ref};
ghost use Rattle.vc_cli.specs.Revisions.{Denoted};
ghost use Rattle.vc_committing.specs.Steps.{AreDenoted, CommitsSaid, CommitsSaidOn, IsOfDeleting, IsOfRevisions, IsOfSaid, IsOfSaidOn, IsOfSetting, IsOfStep, IsOfTarget, IsOfTree, LeavesTrees, SetsBranch, StepsTo, WritesTree};
ghost use Rattle.vc_committing.specs.Told.{IsOfReplacing, IsOfTaking};
ghost use Rattle.vc_files.specs.Failures.{Wears, Writes};
ghost use Rattle.vc_cli.specs.Failure.{IsFault, TellsDevice, TellsOfFiles};

use std::alloc::Global;
use std::io::Write;
use vc_arguments::Words;
use vc_cli::{Failure, print_id, resolve};
use vc_files::Files;
use vc_local::NodeFault;
use vc_node::CloneNode;
use vc_object::ObjectId;
use vc_refname::RefName;
use vc_refs::{RefFault, Refs};
use vc_repository::read_index;
use vc_rev::RevFault;
use vc_working::branch_of;

/// Takes a path out of the index. Where nothing stands, nothing changes. The files are handed back.
pub fn unstage_path<F: Files>(alloc: Global, files: F, path: &[u8]) -> (F, Result<(), Failure>)
    ensures unstaged { F.honest → OnOk result.1 (StepsTo (Unstage path.now) (Ok tt) (F.content files) (F.content result.0)) }
    ensures refused { F.honest → IfErr result.1 (IsOfStep (Unstage path.now) (F.content files) (F.content result.0)) }
    ensures wear { Writes F.honest F.content F.failed F.can_fail F.left files result.0 (TellsDevice result.1) }
{
    let mut node = match CloneNode::open(alloc, files) {
        Ok(node) => node,
        Err((files, fault)) => return (files, Err(Failure::Node(fault))),
    };
    match node.unstage(path) {
        Ok(()) => (node.close(), Ok(())),
        Err(fault) => (node.close(), Err(Failure::Node(fault))),
    }
}

/// Stores the trees of the index, and answers the name of the root's.
pub fn write_index<F: Files>(alloc: Global, files: &mut F) -> Result<ObjectId, Failure>
    ensures written { F.honest → IfOk result (WritesTree F.honest (F.content files.old) (F.content files.new)) }
    ensures refused { F.honest → IfErr result (IsOfTree (F.content files.old)) }
    ensures begun { F.honest → OnErr result (LeavesTrees F.honest (F.content files.old) (F.content files.new)) }
    ensures undamaged { F.honest → KeepsDamage (F.content files.old) (F.content files.new) }
    ensures outside { F.honest → SameOutside (codes "objects/") (F.content files.old) (F.content files.new) }
    ensures wear { Writes F.honest F.content F.failed F.can_fail F.left files.old files.new (TellsDevice result) }
{
    let index = match read_index(alloc, files) {
        Ok(index) => index,
        Err(fault) => return Err(Failure::Revision(RevFault::Source(fault))),
    };
    match index.write_tree(alloc, files) {
        Ok(id) => Ok(id),
        Err(fault) => Err(Failure::Node(NodeFault::from(fault))),
    }
}

/// Commits the index, with what these revisions name as extra parents, and prints the name of the commit. The files are
/// handed back. A revision without a value is refused before anything is written; what else refuses the commit leaves the
/// files as opening leaves them, but for objects. Where the name can't be printed, that is a fault, and the commit is made.
pub fn commit_index<F: Files, O: Write>(
    alloc: Global,
    mut files: F,
    words: Words<'_>,
    revisions: &[&str],
    output: &mut O,
) -> (F, Result<(), Failure>)
    ensures committed { F.honest → OnOk result.1 (CommitsSaid (F.content files) (map (λ revision. revision.now) revisions.now) words.entry (F.content result.0) (O.contents output.old) (O.contents output.new)) }
    ensures refused { F.honest → IfErr result.1 (IsOfSaid (F.content files) (map (λ revision. revision.now) revisions.now) words.entry (F.content result.0) (O.contents output.old) (O.contents output.new)) }
    ensures wear { Writes F.honest F.content F.failed F.can_fail F.left files result.0 (TellsOfFiles result.1) }
{
    match parents_named(alloc, &mut files, revisions) {
        Ok(parents) => commit_on(alloc, files, words, &parents, output),
        Err(failure) => (files, Err(failure)),
    }
}

// Commits the index with these extra parents, and prints the name of the commit.
fn commit_on<F: Files, O: Write>(
    alloc: Global,
    files: F,
    words: Words<'_>,
    parents: &[ObjectId],
    output: &mut O,
) -> (F, Result<(), Failure>)
    ensures committed { F.honest → OnOk result.1 (CommitsSaidOn (F.content files) parents.now words.entry (F.content result.0) (O.contents output.old) (O.contents output.new)) }
    ensures refused { F.honest → IfErr result.1 (IsOfSaidOn (F.content files) parents.now words.entry (F.content result.0) (O.contents output.old) (O.contents output.new)) }
    ensures wear { Writes F.honest F.content F.failed F.can_fail F.left files result.0 (TellsOfFiles result.1) }
{
    let mut node = match CloneNode::open(alloc, files) {
        Ok(node) => node,
        Err((files, fault)) => return (files, Err(Failure::Node(fault))),
    };
    let Words {
        author,
        committer,
        message,
    } = words;
    match node.commit(parents, author, committer, message) {
        Ok(id) => (node.close(), print_id(&id, output)),
        Err(refusal) => (node.close(), Err(Failure::Node(refusal))),
    }
}

// What the revisions name, in their order.
fn parents_named<F: Files>(
    alloc: Global,
    files: &mut F,
    revisions: &[&str],
) -> Result<Vec<ObjectId>, Failure>
    ensures named { F.honest → IfOk result (λ ids. AreDenoted (F.content files.old) (map (λ revision. revision.now) revisions.now) ids.items) }
    ensures refused { F.honest → IfErr result (IsOfRevisions (F.content files.old) (map (λ revision. revision.now) revisions.now)) }
    ensures same { F.content files.new ≡ F.content files.old }
    ensures wear { Wears F.failed F.can_fail F.left files.old files.new (TellsDevice result) }
{
    let mut parents = Vec::new(alloc);
    for revision in revisions {
        let id = resolve(alloc, files, revision)?;
        parents.push(id)?;
    }
    Ok(parents)
}

/// Sets a branch to the commit that a revision names, whatever it was: a name that no branch may have is refused before a
/// revision without a value. The files are handed back, and where the branch isn't set, they are as they were, or as opening
/// leaves them.
pub fn set_branch<F: Files>(
    alloc: Global,
    mut files: F,
    name: &str,
    revision: &str,
) -> (F, Result<(), Failure>)
    ensures set { F.honest → OnOk result.1 (SetsBranch (F.content files) name.now revision.now (F.content result.0)) }
    ensures refused { F.honest → IfErr result.1 (IsOfSetting (F.content files) name.now revision.now (F.content result.0)) }
    ensures wear { Writes F.honest F.content F.failed F.can_fail F.left files result.0 (TellsDevice result.1) }
{
    match branch_target(alloc, &mut files, name, revision) {
        Ok((branch, id)) => set_branch_to(alloc, files, &branch, &id),
        Err(failure) => (files, Err(failure)),
    }
}

// The ref that the branch of this name is, and the commit that the revision names.
fn branch_target<F: Files>(
    alloc: Global,
    files: &mut F,
    name: &str,
    revision: &str,
) -> Result<(RefName, ObjectId), Failure>
    ensures name { IfOk result (λ found. found.0 ≡ branch_ref name.now) }
    ensures branch { IfOk result (λ found. starts_with nat_eq found.0 (codes "refs/heads/") ≡ true) }
    ensures id { F.honest → IfOk result (λ found. Denoted (F.content files.old) revision.now (Ok found.1)) }
    ensures legal { OnOk result (IsRefName (branch_ref name.now)) }
    ensures refused { F.honest → IfErr result (IsOfTarget (F.content files.old) name.now revision.now) }
    ensures same { F.content files.new ≡ F.content files.old }
    ensures wear { Wears F.failed F.can_fail F.left files.old files.new (TellsDevice result) }
{
    let branch = branch_of(alloc, name)?;
    let commit = resolve(alloc, files, revision)?;
    Ok((branch, commit))
}

// Sets a branch to a commit.
fn set_branch_to<F: Files>(
    alloc: Global,
    files: F,
    branch: &RefName,
    id: &ObjectId,
) -> (F, Result<(), Failure>)
    requires { starts_with nat_eq branch.now (codes "refs/heads/") ≡ true }
    ensures set { F.honest → OnOk result.1 (StepsTo (SetBranch branch.now id.now.0) (Ok tt) (F.content files) (F.content result.0)) }
    ensures refused { F.honest → IfErr result.1 (IsOfStep (SetBranch branch.now id.now.0) (F.content files) (F.content result.0)) }
    ensures wear { Writes F.honest F.content F.failed F.can_fail F.left files result.0 (TellsDevice result.1) }
{
    let mut node = match CloneNode::open(alloc, files) {
        Ok(node) => node,
        Err((files, fault)) => return (files, Err(Failure::Node(fault))),
    };
    match node.set_branch(branch, id) {
        Ok(()) => (node.close(), Ok(())),
        Err(fault) => (node.close(), Err(Failure::Node(fault))),
    }
}

/// Removes a branch. Where there is none, nothing changes. The files are handed back.
pub fn delete_branch<F: Files>(alloc: Global, files: F, name: &str) -> (F, Result<(), Failure>)
    ensures deleted { F.honest → OnOk result.1 (StepsTo (DeleteBranch (branch_ref name.now)) (Ok tt) (F.content files) (F.content result.0)) }
    ensures refused { F.honest → IfErr result.1 (IsOfDeleting name.now (F.content files) (F.content result.0)) }
    ensures wear { Writes F.honest F.content F.failed F.can_fail F.left files result.0 (TellsDevice result.1) }
{
    let branch = match branch_of(alloc, name) {
        Ok(branch) => branch,
        Err(failure) => return (files, Err(failure)),
    };
    let mut node = match CloneNode::open(alloc, files) {
        Ok(node) => node,
        Err((files, fault)) => return (files, Err(Failure::Node(fault))),
    };
    match node.delete_branch(&branch) {
        Ok(()) => (node.close(), Ok(())),
        Err(fault) => (node.close(), Err(Failure::Node(fault))),
    }
}

// What a branch is now, to be told later. One that has a file that can't be read has no value.
fn branch_value<F: Files>(
    alloc: Global,
    files: &mut F,
    name: &str,
) -> Result<Option<ObjectId>, Failure>
    ensures value { F.honest → IfOk result (λ found. found ≡ refs (F.content files.old) (branch_ref name.now)) }
    ensures refused { IfErr result (λ e. IsOfBranch name.now e ⊎ IsFault e) }
    ensures same { F.content files.new ≡ F.content files.old }
    ensures wear { Wears F.failed F.can_fail F.left files.old files.new (TellsDevice result) }
{
    let full_name = branch_of(alloc, name)?;
    let fault = match Refs::new(alloc, files).get(&full_name) {
        Ok(found) => return Ok(found),
        Err(fault) => fault,
    };
    match fault {
        RefFault::Fault(fault) => Err(Failure::Fault(fault)),
        RefFault::BadRefFile(_) => Ok(None),
        RefFault::Stale(_) => Ok(None),
        RefFault::Conflict(_) => Ok(None),
        RefFault::HeadLoop => Ok(None),
    }
}

/// Sets a branch as [`set_branch`] does, and returns what it was. The files are handed back.
pub fn replace_branch<F: Files>(
    alloc: Global,
    mut files: F,
    name: &str,
    revision: &str,
) -> (F, Result<Option<ObjectId>, Failure>)
    ensures set { F.honest → OnOk result.1 (SetsBranch (F.content files) name.now revision.now (F.content result.0)) }
    ensures was { F.honest → IfOk result.1 (λ was. was ≡ refs (F.content files) (branch_ref name.now)) }
    ensures refused { F.honest → IfErr result.1 (IsOfReplacing (F.content files) name.now revision.now (F.content result.0)) }
    ensures wear { Writes F.honest F.content F.failed F.can_fail F.left files result.0 (TellsDevice result.1) }
{
    let was = match branch_value(alloc, &mut files, name) {
        Ok(was) => was,
        Err(failure) => return (files, Err(failure)),
    };
    let (files, done) = set_branch(alloc, files, name, revision);
    match done {
        Ok(()) => (files, Ok(was)),
        Err(failure) => (files, Err(failure)),
    }
}

/// Removes a branch as [`delete_branch`] does, and returns what it was. The files are handed back.
pub fn take_branch<F: Files>(
    alloc: Global,
    mut files: F,
    name: &str,
) -> (F, Result<Option<ObjectId>, Failure>)
    ensures taken { F.honest → OnOk result.1 (StepsTo (DeleteBranch (branch_ref name.now)) (Ok tt) (F.content files) (F.content result.0)) }
    ensures was { F.honest → IfOk result.1 (λ was. was ≡ refs (F.content files) (branch_ref name.now)) }
    ensures refused { F.honest → IfErr result.1 (IsOfTaking name.now (F.content files) (F.content result.0)) }
    ensures wear { Writes F.honest F.content F.failed F.can_fail F.left files result.0 (TellsDevice result.1) }
{
    let was = match branch_value(alloc, &mut files, name) {
        Ok(was) => was,
        Err(failure) => return (files, Err(failure)),
    };
    let (files, done) = delete_branch(alloc, files, name);
    match done {
        Ok(()) => (files, Ok(was)),
        Err(failure) => (files, Err(failure)),
    }
}
