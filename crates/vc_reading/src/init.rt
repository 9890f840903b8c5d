//! The subcommand `init`: a store whose HEAD names the first branch.
ghost use Rattle.std.specs.Prelude.{◌≡◌, Some, None, IsSome, IfErr, OnErr, OnOk, codes};
ghost use Rattle.vc_refs.specs.Head.{head_of};
ghost use Rattle.vc_refs.specs.Refs.{refs, ChangesOnly};
ghost use Rattle.vc_reading.specs.Shown.{IsOfHead};
ghost use Rattle.vc_refs.specs.declared.heads.Head.TheVariants as head;
ghost use Rattle.vc_files.specs.Failures.{Writes};
ghost use Rattle.vc_cli.specs.Failure.{TellsDevice};
ghost use Rattle.vc_cli.specs.Stores.{OrUnopened, OthersStay};

use std::alloc::Global;
use vc_cli::{Failure, Stores};
use vc_files::{Fault, Files};
use vc_refname::{NewNameError, RefName};
use vc_refs::{Head, Refs};

/// The branch that HEAD names in a new store.
const FIRST_BRANCH: &str = "refs/heads/main";

/// Makes the store of this lock, if there is none.
pub fn init<S: Stores>(alloc: Global, stores: &mut S, lock: &S::Lock) -> Result<(), Failure>
    ensures made { S.Files.honest → OnOk result (head_of (S.content stores.old (S.of lock.now)) ≡ None → head_of (S.content stores.new (S.of lock.now)) ≡ Some (head.Branch (codes "refs/heads/main"))) }
    ensures stays { S.Files.honest → IsSome (head_of (S.content stores.old (S.of lock.now))) → S.content stores.new (S.of lock.now) ≡ S.content stores.old (S.of lock.now) }
    ensures refs { S.Files.honest → refs (S.content stores.new (S.of lock.now)) ≡ refs (S.content stores.old (S.of lock.now)) }
    ensures only { S.Files.honest → ChangesOnly (codes "HEAD") (S.content stores.old (S.of lock.now)) (S.content stores.new (S.of lock.now)) }
    ensures refused { S.Files.honest → IfErr result (OrUnopened (IsOfHead (S.content stores.old (S.of lock.now)))) }
    ensures err { S.Files.honest → OnErr result (S.content stores.new (S.of lock.now) ≡ S.content stores.old (S.of lock.now)) }
    ensures others { OthersStay (S.of lock.now) (S.content stores.old) (S.content stores.new) }
{
    let mut files = stores.open_locked(lock)?;
    let made = make_head(alloc, &mut files);
    stores.close_locked(lock, files);
    made
}

/// Makes HEAD name the first branch where there is no HEAD. One that is there stays as it is, and nothing is written.
pub fn make_head<F: Files>(alloc: Global, files: &mut F) -> Result<(), Failure>
    ensures made { F.honest → OnOk result (head_of (F.content files.old) ≡ None → head_of (F.content files.new) ≡ Some (head.Branch (codes "refs/heads/main"))) }
    ensures stays { F.honest → IsSome (head_of (F.content files.old)) → F.content files.new ≡ F.content files.old }
    ensures refs { F.honest → refs (F.content files.new) ≡ refs (F.content files.old) }
    ensures only { F.honest → ChangesOnly (codes "HEAD") (F.content files.old) (F.content files.new) }
    ensures refused { F.honest → IfErr result (IsOfHead (F.content files.old)) }
    ensures err { F.honest → OnErr result (F.content files.new ≡ F.content files.old) }
    ensures wear { Writes F.honest F.content F.failed F.can_fail F.left files.old files.new (TellsDevice result) }
{
    match vc_refs::head(files, alloc) {
        Ok(Some(_)) => Ok(()),
        Ok(None) => name_first_branch(alloc, files),
        Err(fault) => Err(Failure::Refs(fault)),
    }
}

// Makes HEAD name the first branch.
fn name_first_branch<F: Files>(alloc: Global, files: &mut F) -> Result<(), Failure>
    ensures made { F.honest → OnOk result (head_of (F.content files.new) ≡ Some (head.Branch (codes "refs/heads/main"))) }
    ensures refs { F.honest → refs (F.content files.new) ≡ refs (F.content files.old) }
    ensures only { F.honest → ChangesOnly (codes "HEAD") (F.content files.old) (F.content files.new) }
    ensures refused { F.honest → IfErr result (IsOfHead (F.content files.old)) }
    ensures err { F.honest → OnErr result (F.content files.new ≡ F.content files.old) }
    ensures wear { Writes F.honest F.content F.failed F.can_fail F.left files.old files.new (TellsDevice result) }
{
    let branch = match RefName::new(alloc, FIRST_BRANCH) {
        Ok(branch) => branch,
        Err(NewNameError::Refused(fault)) => return Err(Failure::Name(fault)),
        Err(NewNameError::Memory) => return Err(Failure::Fault(Fault::Memory)),
    };
    vc_refs::set_head(files, alloc, &Head::Branch(branch))?;
    Ok(())
}
