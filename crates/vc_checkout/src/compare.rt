// What differs between a tree, the index and the work tree.
ghost use Rattle.std.specs.Prelude.{◌≡◌, ◌↔◌, Option, Some, None, IfOk, IfErr, IsTrue, is_some, map, option_map};
ghost use Rattle.std.specs.FinMap as maps;
ghost use Rattle.vc_files.specs.Failures.{Wears};
ghost use Rattle.vc_object.specs.declared.id.ObjectId.{ObjectId as Id};
ghost use Rattle.vc_object_map.specs.Store.{objects};
ghost use Rattle.vc_checkout.specs.CheckoutFault.{IsFault, IsOfStatus, TellsDevice, TellsFirstListed};
ghost use Rattle.vc_checkout.specs.Devices.{WearsEither};
ghost use Rattle.vc_checkout.specs.Heads.{IsIndexOfHead};
ghost use Rattle.vc_checkout.specs.Status.{IsWorkChange, IsChangeAt, IsStatus, IsStatusOf, seen};
ghost use Rattle.vc_checkout.specs.Steps.{IsUntouched};
ghost use Rattle.vc_checkout.specs.WorkTree.{HasTextPaths, IsUntracked, has_path};
ghost use Rattle.vc_work_tree.specs.Paths.{blob_name};

use crate::change::index_change;
use crate::paths::{all_paths, untracked_paths};
use crate::{Change, CheckoutFault, IndexChange, WorkChange};
use std::alloc::Global;
use std::collections::BTreeSet;
use std::str;
use vc_files::Files;
use vc_index::{Index, IndexCursor, IndexEntry};
use vc_object::{Mode, ObjectId};
use vc_work_tree::WorkTree;

/// The name that the content of the file at a path has as a blob, or none where there is no file.
pub(crate) fn file_name<T: WorkTree>(
    alloc: Global,
    work: &mut T,
    path: &[u8],
) -> Result<Option<ObjectId>, CheckoutFault>
    requires { T.honest → HasTextPaths (T.content work.old) }
    ensures name { T.honest → IfOk result (λ name. name ≡ option_map blob_name (maps.get (T.content work.old) path.now)) }
    ensures fault { IfErr result IsFault }
    ensures untouched { IsUntouched T.content T.folders work.old work.new }
    ensures holds { T.can_hold work.new ≡ T.can_hold work.old }
    ensures wear { Wears T.failed T.can_fail T.left work.old work.new (TellsDevice result) }
{
    let Ok(text) = str::from_utf8(path) else {
        return Ok(None);
    };
    let name = work.name(alloc, text)?;
    Ok(name)
}

// How the file at a path differs from what the index has there. Only a file that the index has is read.
fn work_change<T: WorkTree>(
    alloc: Global,
    work: &mut T,
    untracked: &BTreeSet<Vec<u8>>,
    path: &[u8],
    entry: Option<IndexEntry>,
) -> Result<WorkChange, CheckoutFault>
    requires texts { T.honest → HasTextPaths (T.content work.old) }
    requires untracked { T.honest → entry ≡ None → is_some (maps.get (T.content work.old) path.now) ≡ has_path untracked.now path.now }
    ensures change { T.honest → IfOk result (IsWorkChange entry (maps.get (T.content work.old) path.now)) }
    ensures fault { IfErr result IsFault }
    ensures untouched { IsUntouched T.content T.folders work.old work.new }
    ensures wear { Wears T.failed T.can_fail T.left work.old work.new (TellsDevice result) }
{
    let Some(entry) = entry else {
        if untracked.contains(path) {
            return Ok(WorkChange::Untracked);
        }
        return Ok(WorkChange::Same);
    };
    if entry.mode == Mode::Commit {
        return Ok(WorkChange::Same);
    }
    let Some(name) = file_name(alloc, work, path)? else {
        return Ok(WorkChange::Gone);
    };
    if name == entry.id {
        return Ok(WorkChange::Same);
    }
    Ok(WorkChange::Changed)
}

// How a path differs, or none where it doesn't.
fn change_at<T: WorkTree>(
    alloc: Global,
    work: &mut T,
    untracked: &BTreeSet<Vec<u8>>,
    index: &mut IndexCursor<'_>,
    tree: &mut IndexCursor<'_>,
    path: &[u8],
) -> Result<Option<Change>, CheckoutFault>
    requires texts { T.honest → HasTextPaths (T.content work.old) }
    requires untracked { T.honest → IsTrue (has_path untracked.now path.now) ↔ IsUntracked index.old (T.content work.old) path.now }
    ensures change { T.honest → IfOk result (IsChangeAt tree.old index.old (T.content work.old) path.now) }
    ensures cursors { (index.new ≡ index.old) × (tree.new ≡ tree.old) }
    ensures fault { IfErr result IsFault }
    ensures untouched { IsUntouched T.content T.folders work.old work.new }
    ensures wear { Wears T.failed T.can_fail T.left work.old work.new (TellsDevice result) }
{
    let entry = index.get(path);
    let staged = index_change(tree.get(path), entry);
    let unstaged = work_change(alloc, work, untracked, path, entry)?;
    if staged == IndexChange::Same && unstaged == WorkChange::Same {
        return Ok(None);
    }
    let path = path.to_vec(alloc)?;
    Ok(Some(Change {
        path,
        index: staged,
        work: unstaged,
    }))
}

// The changes of all paths at which something differs.
fn changes<T: WorkTree>(
    alloc: Global,
    work: &mut T,
    index: &Index,
    tree: &Index,
) -> Result<Vec<Change>, CheckoutFault>
    ensures status { T.honest → IfOk result (λ changes. IsStatus tree.now index.now (T.content work.old) (map seen changes.items)) }
    ensures fault { IfErr result IsFault }
    ensures untouched { IsUntouched T.content T.folders work.old work.new }
    ensures wear { Wears T.failed T.can_fail T.left work.old work.new (TellsDevice result) }
{
    let untracked = untracked_paths(alloc, work, index)?;
    let paths = all_paths(alloc, &untracked, index, tree)?;
    let mut changes = Vec::new(alloc);
    let (mut staged, mut listed) = (IndexCursor::new(index), IndexCursor::new(tree));
    for path in &paths {
        let Some(change) = change_at(alloc, work, &untracked, &mut staged, &mut listed, path)?
        else {
            continue;
        };
        changes.push(change)?;
    }
    Ok(changes)
}

// The index of the files that a tree lists, or one with no files where there is no tree.
fn head_index<F: Files>(
    alloc: Global,
    files: &mut F,
    tree: Option<ObjectId>,
) -> Result<Index, CheckoutFault>
    ensures index { F.honest → IfOk result (IsIndexOfHead (objects (F.content files.old)) tree) }
    ensures refused { IfErr result (IsOfStatus F.honest (F.content files.old) tree) }
    ensures tree { F.honest → IfErr result (λ e. (root : Id) → tree ≡ Some root → TellsFirstListed (objects (F.content files.old)) root e) }
    ensures same { F.content files.new ≡ F.content files.old }
    ensures wear { Wears F.failed F.can_fail F.left files.old files.new (TellsDevice result) }
{
    let Some(id) = tree else {
        return Ok(Index::new(alloc));
    };
    match Index::list_tree(alloc, files, &id) {
        Ok(index) => Ok(index),
        Err(fault) => Err(CheckoutFault::Index(fault)),
    }
}

/// How the index differs from a tree, and the work tree from the index: the paths at which something differs, in
/// the order of their bytes. Without a tree every path of the index is added. Of what the tree's entries name the trees
/// alone are read: a file of the tree is compared by its id, and whether its blob is there is not asked. Files that the
/// index lacks are listed and not read; an executable bit is not compared, since none is set.
pub fn status<T: WorkTree, F: Files>(
    alloc: Global,
    work: &mut T,
    files: &mut F,
    index: &Index,
    tree: Option<ObjectId>,
) -> Result<Vec<Change>, CheckoutFault>
    ensures status { T.honest → F.honest → IfOk result (λ changes. IsStatusOf (objects (F.content files.old)) tree index.now (T.content work.old) (map seen changes.items)) }
    ensures refused { IfErr result (IsOfStatus F.honest (F.content files.old) tree) }
    ensures tree { F.honest → IfErr result (λ e. (root : Id) → tree ≡ Some root → TellsFirstListed (objects (F.content files.old)) root e) }
    ensures untouched { IsUntouched T.content T.folders work.old work.new }
    ensures files { F.content files.new ≡ F.content files.old }
    ensures wear { WearsEither T.failed T.can_fail T.left F.failed F.can_fail F.left work.old work.new files.old files.new (TellsDevice result) }
{
    let head = head_index(alloc, files, tree)?;
    let changes = changes(alloc, work, index, &head)?;
    Ok(changes)
}
