//! The subcommand `add`: from a work tree into the index of a clone in a store.
ghost use Rattle.std.specs.Prelude.{IfErr, OnOk, map};
ghost use Rattle.vc_arguments.specs.Modes.{mode_of};
ghost use Rattle.vc_checkout.specs.Steps.{IsUntouched};
ghost use Rattle.vc_cli.specs.Stores.{IsUnopenedOr, OthersStay};
ghost use Rattle.vc_committing.specs.Adding.{AddsTo, IsOfAdding};
ghost use Rattle.vc_working.specs.Trees.{TreeStays};

use crate::add::add_to;
use std::alloc::Global;
use vc_arguments::FileMode;
use vc_cli::{Failure, Stores};
use vc_work_tree::WorkTree;
use vc_working::WorkTrees;

/// Puts the files of the work tree that the paths name into the index.
pub fn add<S: Stores, T: WorkTrees>(
    alloc: Global,
    stores: &mut S,
    trees: &mut T,
    lock: &S::Lock,
    store: &str,
    work: &str,
    mode: FileMode,
    paths: &[&str],
) -> Result<(), Failure>
    ensures added { T.Tree.honest → S.Files.honest → OnOk result (AddsTo (T.trees trees.old store.now work.now).files (T.own trees.old store.now work.now) (mode_of mode) (map (λ path. path.now) paths.now) (S.content stores.old (S.of lock.now)) (S.content stores.new (S.of lock.now))) }
    ensures refused { T.Tree.honest → S.Files.honest → IfErr result (IsUnopenedOr (S.content stores.old) (S.content stores.new) (IsOfAdding (T.trees trees.old store.now work.now).files (T.own trees.old store.now work.now) (mode_of mode) (map (λ path. path.now) paths.now) (S.content stores.old (S.of lock.now)) (S.content stores.new (S.of lock.now)))) }
    ensures others { OthersStay (S.of lock.now) (S.content stores.old) (S.content stores.new) }
    ensures trees { TreeStays store.now work.now (T.trees trees.old) (T.trees trees.new) }
{
    let (own, mut tree) = trees.open(store, work)?;
    let own_path = own.as_str().as_bytes();
    let done = add_from(alloc, stores, lock, &mut tree, own_path, mode, paths);
    trees.close(store, work, tree);
    done
}

// The same, of a work tree that was opened.
fn add_from<S: Stores, W: WorkTree>(
    alloc: Global,
    stores: &mut S,
    lock: &S::Lock,
    work: &mut W,
    own: &[u8],
    mode: FileMode,
    paths: &[&str],
) -> Result<(), Failure>
    ensures added { W.honest → S.Files.honest → OnOk result (AddsTo (W.content work.old) own.now (mode_of mode) (map (λ path. path.now) paths.now) (S.content stores.old (S.of lock.now)) (S.content stores.new (S.of lock.now))) }
    ensures refused { W.honest → S.Files.honest → IfErr result (IsUnopenedOr (S.content stores.old) (S.content stores.new) (IsOfAdding (W.content work.old) own.now (mode_of mode) (map (λ path. path.now) paths.now) (S.content stores.old (S.of lock.now)) (S.content stores.new (S.of lock.now)))) }
    ensures others { OthersStay (S.of lock.now) (S.content stores.old) (S.content stores.new) }
    ensures untouched { IsUntouched W.content W.folders work.old work.new }
{
    let files = stores.open_locked(lock)?;
    let (files, done) = add_to(alloc, files, work, own, mode, paths);
    stores.close_locked(lock, files);
    done
}
