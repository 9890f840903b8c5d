// Sets of paths.
ghost use Rattle.std.specs.Prelude.{◌≡◌, ◌↔◌, ◌++◌, ◌||◌, ℕ, map, List, IfOk, IfErr, OnOk, IsSome, IsTrue, is_some, MatchOption};
ghost use Rattle.std.specs.FinMap as maps;
ghost use Rattle.vc_files.specs.Failures.{Wears};
ghost use Rattle.vc_index.specs.Path.{IsAbove};
ghost use Rattle.vc_checkout.specs.CheckoutFault.{IsFault, TellsDevice};
ghost use Rattle.vc_work_tree.specs.Folders.{IsLowestAbove};
ghost use Rattle.vc_checkout.specs.Steps.{IsUntouched};
ghost use Rattle.vc_checkout.specs.WorkTree.{has_path, HasTextPaths, IsUnkept, IsUntracked, KeepsNone};
ghost use Rattle.vc_work_tree.specs.Paths.{is_listed};

use crate::CheckoutFault;
use std::alloc::{AllocError, Global};
use std::collections::BTreeSet;
use vc_index::{Index, IndexCursor, IndexEntry};
use vc_object::Mode;
use vc_work_tree::WorkTree;

// Adds the paths of an index to a list.
fn push_paths(alloc: Global, paths: &mut Vec<Vec<u8>>, index: &Index) -> Result<(), AllocError>
    ensures { OnOk result (map (λ p. p.items) paths.new.items ≡ map (λ p. p.items) paths.old.items ++ maps.keys index.now) }
{
    for (path, _) in index.iter() {
        paths.push(path.as_slice().to_vec(alloc)?)?;
    }
    Ok(())
}

// The paths of a list as a set.
fn path_set(alloc: Global, paths: Vec<Vec<u8>>) -> Result<BTreeSet<Vec<u8>>, AllocError>
    ensures { IfOk result (λ set. (path : List ℕ) → has_path set path ≡ is_listed path (map (λ p. p.items) paths.items)) }
{
    let set = paths.into_iter().collect(alloc)?;
    Ok(set)
}

/// The paths of a set and of two indexes.
pub(crate) fn all_paths(
    alloc: Global,
    others: &BTreeSet<Vec<u8>>,
    index: &Index,
    tree: &Index,
) -> Result<BTreeSet<Vec<u8>>, AllocError>
    ensures { IfOk result (λ all. (path : List ℕ) → has_path all path ≡ ((has_path others.now path || is_some (maps.get index.now path)) || is_some (maps.get tree.now path))) }
{
    let mut paths = Vec::new(alloc);
    for path in others {
        paths.push(path.as_slice().to_vec(alloc)?)?;
    }
    push_paths(alloc, &mut paths, index)?;
    push_paths(alloc, &mut paths, tree)?;
    let all = path_set(alloc, paths)?;
    Ok(all)
}

/// The paths of the files of the work tree that the index lacks.
pub(crate) fn untracked_paths<T: WorkTree>(
    alloc: Global,
    work: &mut T,
    index: &Index,
) -> Result<BTreeSet<Vec<u8>>, CheckoutFault>
    ensures untracked { T.honest → IfOk result (λ found. (path : List ℕ) → IsTrue (has_path found path) ↔ IsUntracked index.now (T.content work.old) path) }
    ensures texts { T.honest → OnOk result (HasTextPaths (T.content work.old)) }
    ensures fault { IfErr result IsFault }
    ensures untouched { IsUntouched T.content T.folders work.old work.new }
    ensures holds { T.can_hold work.new ≡ T.can_hold work.old }
    ensures wear { Wears T.failed T.can_fail T.left work.old work.new (TellsDevice result) }
{
    let listed = work.list(alloc)?;
    let mut found = BTreeSet::new(alloc);
    let mut known = IndexCursor::new(index);
    for path in &listed {
        let path = path.as_bytes();
        if known.get(path).is_none() {
            found.insert(path.to_vec(alloc)?)?;
        }
    }
    Ok(found)
}

/// The paths of the files of the work tree.
pub(crate) fn file_paths<T: WorkTree>(
    alloc: Global,
    work: &mut T,
) -> Result<BTreeSet<Vec<u8>>, CheckoutFault>
    ensures files { T.honest → IfOk result (λ found. (path : List ℕ) → IsTrue (has_path found path) ↔ IsSome (maps.get (T.content work.old) path)) }
    ensures texts { T.honest → OnOk result (HasTextPaths (T.content work.old)) }
    ensures fault { IfErr result IsFault }
    ensures untouched { IsUntouched T.content T.folders work.old work.new }
    ensures holds { T.can_hold work.new ≡ T.can_hold work.old }
    ensures wear { Wears T.failed T.can_fail T.left work.old work.new (TellsDevice result) }
{
    let found = untracked_paths(alloc, work, &Index::new(alloc))?;
    Ok(found)
}

// Whether the index keeps no file there: it has no entry, or that of a commit of another repository.
fn keeps_none(entry: Option<IndexEntry>) -> bool
    ensures { IsTrue result ↔ KeepsNone entry }
{
    match entry {
        Some(entry) => entry.mode == Mode::Commit,
        None => true,
    }
}

/// The paths of the files of the work tree that the index doesn't keep.
pub(crate) fn unkept_paths<T: WorkTree>(
    alloc: Global,
    work: &mut T,
    index: &Index,
) -> Result<BTreeSet<Vec<u8>>, CheckoutFault>
    ensures unkept { T.honest → IfOk result (λ found. (path : List ℕ) → IsTrue (has_path found path) ↔ IsUnkept index.now (T.content work.old) path) }
    ensures texts { T.honest → OnOk result (HasTextPaths (T.content work.old)) }
    ensures fault { IfErr result IsFault }
    ensures untouched { IsUntouched T.content T.folders work.old work.new }
    ensures wear { Wears T.failed T.can_fail T.left work.old work.new (TellsDevice result) }
{
    let listed = work.list(alloc)?;
    let mut found = BTreeSet::new(alloc);
    let mut known = IndexCursor::new(index);
    for path in &listed {
        let path = path.as_bytes();
        if keeps_none(known.get(path)) {
            found.insert(path.to_vec(alloc)?)?;
        }
    }
    Ok(found)
}
