//! The subcommands on the index, the branches and HEAD of a clone in a store: each has the store's files under its lock, and hands them back.
ghost use Rattle.std.specs.Prelude.{◌≡◌, Ok, IfErr, OnOk, codes, map, false};
ghost use Rattle.std.specs.Io.KnownBytes.{Appends, Keeps};
ghost use Rattle.vc_files.specs.FileMap.{SameOutside};
ghost use Rattle.vc_index.specs.Damage.{KeepsDamage};
ghost use Rattle.vc_model.specs.Clone.Task.{Unstage, DeleteBranch};
ghost use Rattle.vc_refs.specs.Refs.{refs};
ghost use Rattle.vc_working.specs.CloneWords.{branch_ref};
ghost use Rattle.vc_cli.specs.Stores.{IsUnopenedOr, IsUntoldOr, OthersStay};
ghost use Rattle.vc_committing.specs.Steps.{CommitsSaid, IsOfSaid, IsOfStep, SetsBranch, StepsTo};
ghost use Rattle.vc_committing.specs.Told.{IsOfOldTold, IsOfPrintedTree, IsOfReplacing, IsOfTaking, IsUntoldOnTerminal, PrintsTree, told_before};

use crate::clone::{commit_index, replace_branch, take_branch, unstage_path, write_index};
use std::alloc::Global;
use std::io::Write;
use vc_arguments::Words;
use vc_cli::{Failure, Faults, Stores, print_id};
use vc_object::ObjectId;

/// Takes a path out of the index.
pub fn unstage<S: Stores>(
    alloc: Global,
    stores: &mut S,
    lock: &S::Lock,
    path: &str,
) -> Result<(), Failure>
    ensures unstaged { S.Files.honest → OnOk result (StepsTo (Unstage path.now) (Ok tt) (S.content stores.old (S.of lock.now)) (S.content stores.new (S.of lock.now))) }
    ensures refused { S.Files.honest → IfErr result (IsUnopenedOr (S.content stores.old) (S.content stores.new) (IsOfStep (Unstage path.now) (S.content stores.old (S.of lock.now)) (S.content stores.new (S.of lock.now)))) }
    ensures others { OthersStay (S.of lock.now) (S.content stores.old) (S.content stores.new) }
{
    let files = stores.open_locked(lock)?;
    let (files, done) = unstage_path(alloc, files, path.as_bytes());
    stores.close_locked(lock, files);
    done
}

/// Stores the trees of the index, and prints the name of the root's when they are durable.
pub fn write_tree<S: Stores, O: Write>(
    alloc: Global,
    stores: &mut S,
    lock: &S::Lock,
    output: &mut O,
) -> Result<(), Failure>
    ensures printed { S.Files.honest → OnOk result (PrintsTree S.Files.honest S.Files.content S.is_durable (S.content stores.old (S.of lock.now)) (S.content stores.new (S.of lock.now)) (O.contents output.old) (O.contents output.new)) }
    ensures refused { S.Files.honest → IfErr result (IsUntoldOr (S.content stores.old) (S.content stores.new) (O.contents output.old) (O.contents output.new) (IsOfPrintedTree S.Files.honest S.Files.content S.is_durable (S.content stores.old (S.of lock.now)) (S.content stores.new (S.of lock.now)) (O.contents output.old) (O.contents output.new))) }
    ensures undamaged { S.Files.honest → KeepsDamage (S.content stores.old (S.of lock.now)) (S.content stores.new (S.of lock.now)) }
    ensures outside { S.Files.honest → SameOutside (codes "objects/") (S.content stores.old (S.of lock.now)) (S.content stores.new (S.of lock.now)) }
    ensures others { OthersStay (S.of lock.now) (S.content stores.old) (S.content stores.new) }
{
    let mut files = stores.open_locked(lock)?;
    let done = print_tree(alloc, stores, &mut files, output);
    stores.close_locked(lock, files);
    done
}

// The same, of files that were opened.
fn print_tree<S: Stores, O: Write>(
    alloc: Global,
    stores: &mut S,
    files: &mut S::Files,
    output: &mut O,
) -> Result<(), Failure>
    ensures printed { S.Files.honest → OnOk result (PrintsTree S.Files.honest S.Files.content S.is_durable (S.Files.content files.old) (S.Files.content files.new) (O.contents output.old) (O.contents output.new)) }
    ensures refused { S.Files.honest → IfErr result (IsOfPrintedTree S.Files.honest S.Files.content S.is_durable (S.Files.content files.old) (S.Files.content files.new) (O.contents output.old) (O.contents output.new)) }
    ensures undamaged { S.Files.honest → KeepsDamage (S.Files.content files.old) (S.Files.content files.new) }
    ensures outside { S.Files.honest → SameOutside (codes "objects/") (S.Files.content files.old) (S.Files.content files.new) }
    ensures same { S.content stores.new ≡ S.content stores.old }
{
    let id = write_index(alloc, files)?;
    stores.settle(files)?;
    print_id(&id, output)?;
    Ok(())
}

/// Commits the index, and prints the name of the commit.
pub fn commit<S: Stores, O: Write>(
    alloc: Global,
    stores: &mut S,
    lock: &S::Lock,
    words: Words<'_>,
    revisions: &[&str],
    output: &mut O,
) -> Result<(), Failure>
    ensures committed { S.Files.honest → OnOk result (CommitsSaid (S.content stores.old (S.of lock.now)) (map (λ revision. revision.now) revisions.now) words.entry (S.content stores.new (S.of lock.now)) (O.contents output.old) (O.contents output.new)) }
    ensures refused { S.Files.honest → IfErr result (IsUntoldOr (S.content stores.old) (S.content stores.new) (O.contents output.old) (O.contents output.new) (IsOfSaid (S.content stores.old (S.of lock.now)) (map (λ revision. revision.now) revisions.now) words.entry (S.content stores.new (S.of lock.now)) (O.contents output.old) (O.contents output.new))) }
    ensures others { OthersStay (S.of lock.now) (S.content stores.old) (S.content stores.new) }
{
    let files = stores.open_locked(lock)?;
    let (files, done) = commit_index(alloc, files, words, revisions, output);
    stores.close_locked(lock, files);
    done
}

/// Sets a branch. A person is told what it was.
pub fn branch<S: Stores, E: Write>(
    alloc: Global,
    stores: &mut S,
    lock: &S::Lock,
    name: &str,
    revision: &str,
    faults: &mut Faults<E>,
) -> Result<(), Failure>
    ensures set { S.Files.honest → OnOk result (SetsBranch (S.content stores.old (S.of lock.now)) name.now revision.now (S.content stores.new (S.of lock.now))) }
    ensures told { S.Files.honest → OnOk result (Appends (E.contents faults.old.stream) (E.contents faults.new.stream) (told_before faults.old.is_terminal name.now (refs (S.content stores.old (S.of lock.now)) (branch_ref name.now)))) }
    ensures refused { S.Files.honest → IfErr result (IsUntoldOr (S.content stores.old) (S.content stores.new) (E.contents faults.old.stream) (E.contents faults.new.stream) (IsOfOldTold (IsOfReplacing (S.content stores.old (S.of lock.now)) name.now revision.now (S.content stores.new (S.of lock.now))) (SetsBranch (S.content stores.old (S.of lock.now)) name.now revision.now (S.content stores.new (S.of lock.now))) faults.old.is_terminal (E.contents faults.old.stream) (E.contents faults.new.stream))) }
    ensures silent { faults.old.is_terminal ≡ false → Keeps (E.contents faults.old.stream) (E.contents faults.new.stream) }
    ensures others { OthersStay (S.of lock.now) (S.content stores.old) (S.content stores.new) }
{
    let files = stores.open_locked(lock)?;
    let (files, was) = replace_branch(alloc, files, name, revision);
    stores.close_locked(lock, files);
    let was = was?;
    tell_old(name, was, faults)
}

/// Removes a branch. A person is told what it was.
pub fn branch_delete<S: Stores, E: Write>(
    alloc: Global,
    stores: &mut S,
    lock: &S::Lock,
    name: &str,
    faults: &mut Faults<E>,
) -> Result<(), Failure>
    ensures deleted { S.Files.honest → OnOk result (StepsTo (DeleteBranch (branch_ref name.now)) (Ok tt) (S.content stores.old (S.of lock.now)) (S.content stores.new (S.of lock.now))) }
    ensures told { S.Files.honest → OnOk result (Appends (E.contents faults.old.stream) (E.contents faults.new.stream) (told_before faults.old.is_terminal name.now (refs (S.content stores.old (S.of lock.now)) (branch_ref name.now)))) }
    ensures refused { S.Files.honest → IfErr result (IsUntoldOr (S.content stores.old) (S.content stores.new) (E.contents faults.old.stream) (E.contents faults.new.stream) (IsOfOldTold (IsOfTaking name.now (S.content stores.old (S.of lock.now)) (S.content stores.new (S.of lock.now))) (StepsTo (DeleteBranch (branch_ref name.now)) (Ok tt) (S.content stores.old (S.of lock.now)) (S.content stores.new (S.of lock.now))) faults.old.is_terminal (E.contents faults.old.stream) (E.contents faults.new.stream))) }
    ensures silent { faults.old.is_terminal ≡ false → Keeps (E.contents faults.old.stream) (E.contents faults.new.stream) }
    ensures others { OthersStay (S.of lock.now) (S.content stores.old) (S.content stores.new) }
{
    let files = stores.open_locked(lock)?;
    let (files, was) = take_branch(alloc, files, name);
    stores.close_locked(lock, files);
    let was = was?;
    tell_old(name, was, faults)
}

// Tells a person what a branch was, if there was one.
fn tell_old<E: Write>(
    name: &str,
    was: Option<ObjectId>,
    faults: &mut Faults<E>,
) -> Result<(), Failure>
    ensures told { OnOk result (Appends (E.contents faults.old.stream) (E.contents faults.new.stream) (told_before faults.old.is_terminal name.now was)) }
    ensures fault { IfErr result (IsUntoldOnTerminal faults.old.is_terminal) }
    ensures silent { faults.old.is_terminal ≡ false → Keeps (E.contents faults.old.stream) (E.contents faults.new.stream) }
{
    match was {
        Some(id) => faults.tell_old_branch(name, &id),
        None => Ok(()),
    }
}
