// Whether anything is against a checkout, before the first write.
ghost use Rattle.std.specs.Prelude.{◌≡◌, ◌≢◌, ◌⊎◌, ◌↔◌, ℕ, List, Some, IfOk, IfErr, OnOk, IsTrue, IsUtf8};
ghost use Rattle.std.specs.FinMap as maps;
ghost use Rattle.vc_files.specs.Failures.{Wears};
ghost use Rattle.vc_checkout.specs.CheckoutFault.{IsAgainst, IsFault, TellsDevice};
ghost use Rattle.vc_checkout.specs.Refusal.{HasLocalChange, IsClear, IsDue, IsOther, IsRefused, RefusedAt};
ghost use Rattle.vc_checkout.specs.Steps.{IsUntouched};
ghost use Rattle.vc_checkout.specs.WorkTree.{HasTextPaths, IsUnkept, has_path};

use crate::CheckoutFault;
use crate::compare::file_name;
use crate::hindrance::is_hindered;
use crate::paths::{all_paths, unkept_paths};
use std::alloc::Global;
use std::collections::BTreeSet;
use std::str;
use vc_index::{Index, IndexCursor, IndexEntry};
use vc_object::{Mode, ObjectId};
use vc_work_tree::WorkTree;

// Whether the name is not that of what stands there.
fn is_other(entry: Option<IndexEntry>, name: ObjectId) -> bool
    ensures { IsTrue result ↔ IsOther entry name }
{
    match entry {
        Some(entry) => name != entry.id,
        None => true,
    }
}

// Whether a change of the file at a path would be lost, where what the index has there goes or changes.
fn has_local_change<T: WorkTree>(
    alloc: Global,
    work: &mut T,
    path: &[u8],
    old: Option<IndexEntry>,
    new: Option<IndexEntry>,
) -> Result<bool, CheckoutFault>
    requires texts { T.honest → HasTextPaths (T.content work.old) }
    requires changes { old ≢ new }
    ensures change { T.honest → IfOk result (λ lost. IsTrue lost ↔ HasLocalChange old new (maps.get (T.content work.old) path.now)) }
    ensures fault { IfErr result IsFault }
    ensures untouched { IsUntouched T.content T.folders work.old work.new }
    ensures wear { Wears T.failed T.can_fail T.left work.old work.new (TellsDevice result) }
{
    let Some(entry) = old else {
        return Ok(false);
    };
    if entry.mode == Mode::Commit {
        return Ok(false);
    }
    let Some(name) = file_name(alloc, work, path)? else {
        return Ok(false);
    };
    if name == entry.id {
        return Ok(false);
    }
    Ok(is_other(new, name))
}

// Refuses the checkout for what is against it at one path.
fn check_path<T: WorkTree>(
    alloc: Global,
    work: &mut T,
    unkept: &BTreeSet<Vec<u8>>,
    index: &mut IndexCursor<'_>,
    tree: &mut IndexCursor<'_>,
    path: &[u8],
) -> Result<(), CheckoutFault>
    requires texts { T.honest → HasTextPaths (T.content work.old) }
    requires unkept { T.honest → (other : List ℕ) → IsTrue (has_path unkept.now other) ↔ IsUnkept index.old (T.content work.old) other }
    ensures clear { T.honest → OnOk result (IsClear index.old tree.old (T.content work.old) path.now) }
    ensures refused { T.honest → IfErr result (λ e. IsFault e ⊎ RefusedAt index.old tree.old (T.content work.old) path.now e) }
    ensures kind { IfErr result (λ e. IsFault e ⊎ IsAgainst e) }
    ensures text { OnOk result (IsDue (maps.get index.old path.now) (maps.get tree.old path.now) → IsUtf8 path.now) }
    ensures cursors { (index.new ≡ index.old) × (tree.new ≡ tree.old) }
    ensures untouched { IsUntouched T.content T.folders work.old work.new }
    ensures wear { Wears T.failed T.can_fail T.left work.old work.new (TellsDevice result) }
{
    let old = index.get(path);
    let new = tree.get(path);
    if old == new {
        return Ok(());
    }
    if new.is_some() && str::from_utf8(path).is_err() {
        return Err(CheckoutFault::NotText(path.to_vec(alloc)?));
    }
    if has_local_change(alloc, work, path, old, new)? {
        return Err(CheckoutFault::LocalChange(path.to_vec(alloc)?));
    }
    let Some(entry) = new else {
        return Ok(());
    };
    if is_hindered(alloc, work, unkept, path, entry)? {
        return Err(CheckoutFault::InTheWay(path.to_vec(alloc)?));
    }
    Ok(())
}

/// Refuses the checkout for the first cause at the first path that has one.
pub(crate) fn check_all<T: WorkTree>(
    alloc: Global,
    work: &mut T,
    index: &Index,
    tree: &Index,
) -> Result<(), CheckoutFault>
    ensures clear { T.honest → OnOk result ((path : List ℕ) → IsClear index.now tree.now (T.content work.old) path) }
    ensures refused { T.honest → IfErr result (λ e. IsFault e ⊎ IsRefused index.now tree.now (T.content work.old) e) }
    ensures kind { IfErr result (λ e. IsFault e ⊎ IsAgainst e) }
    ensures text { OnOk result ((path : List ℕ) → IsDue (maps.get index.now path) (maps.get tree.now path) → IsUtf8 path) }
    ensures texts { T.honest → OnOk result (HasTextPaths (T.content work.old)) }
    ensures untouched { IsUntouched T.content T.folders work.old work.new }
    ensures wear { Wears T.failed T.can_fail T.left work.old work.new (TellsDevice result) }
{
    let unkept = unkept_paths(alloc, work, index)?;
    let paths = all_paths(alloc, &BTreeSet::new(alloc), index, tree)?;
    let (mut old, mut new) = (IndexCursor::new(index), IndexCursor::new(tree));
    for path in &paths {
        check_path(alloc, work, &unkept, &mut old, &mut new, path)?;
    }
    Ok(())
}
