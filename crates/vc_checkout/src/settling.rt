// What the work tree has where a checkout was cut short.
ghost use Rattle.std.specs.Prelude.{◌≡◌, ◌⊎◌, ◌↔◌, ℕ, List, IfErr, IfOk, IfSome, IsSome, IsTrue, OnOk, option_map};
ghost use Rattle.std.specs.FinMap as maps;
ghost use Rattle.vc_files.specs.Failures.{Wears};
ghost use Rattle.vc_index.specs.IndexMap.{HasConflict, IsFile};
ghost use Rattle.vc_checkout.specs.CheckoutFault.{IsFault, IsMemory, TellsDevice};
ghost use Rattle.vc_checkout.specs.Settling.{AreSettled, IsNamed, IsSettled, Puts, Settles, SettlesPath};
ghost use Rattle.vc_checkout.specs.Steps.{IsUnwritten};
ghost use Rattle.vc_checkout.specs.WorkTree.{AreApart, HasTextPaths, has_path};
ghost use Rattle.vc_work_tree.specs.Paths.{blob_name};

use crate::CheckoutFault;
use crate::compare::file_name;
use crate::paths::{all_paths, file_paths};
use std::alloc::Global;
use std::collections::BTreeSet;
use vc_index::{Index, IndexEntry, IndexFault};
use vc_object::{Mode, ObjectId};
use vc_work_tree::WorkTree;

// Whether the entry is that of a file or a link with this name.
fn is_named(entry: Option<IndexEntry>, name: ObjectId) -> bool
    ensures { IsTrue result ↔ IsNamed entry name }
{
    match entry {
        Some(entry) => entry.mode != Mode::Commit && entry.id == name,
        None => false,
    }
}

// The entry that tells what is at a path where a checkout from the old entry to the new one was cut short. `files` has the path
// if a file is there; one that differs in neither is not read.
fn settled_entry<T: WorkTree>(
    alloc: Global,
    work: &mut T,
    files: &BTreeSet<Vec<u8>>,
    path: &[u8],
    old: Option<IndexEntry>,
    new: Option<IndexEntry>,
) -> Result<Option<IndexEntry>, CheckoutFault>
    requires texts { T.honest → HasTextPaths (T.content work.old) }
    requires files { T.honest → IsTrue (has_path files.now path.now) ↔ IsSome (maps.get (T.content work.old) path.now) }
    requires old { IfSome old (IsFile path.now) }
    requires new { IfSome new (IsFile path.now) }
    ensures settled { T.honest → IfOk result (IsSettled old new (option_map blob_name (maps.get (T.content work.old) path.now))) }
    ensures file { IfOk result (λ now. IfSome now (IsFile path.now)) }
    ensures fault { IfErr result IsFault }
    ensures unwritten { IsUnwritten T.content T.folders T.left work.old work.new }
    ensures holds { T.can_hold work.new ≡ T.can_hold work.old }
    ensures wear { Wears T.failed T.can_fail T.left work.old work.new (TellsDevice result) }
{
    if old == new {
        return Ok(old);
    }
    if !files.contains(path) {
        return Ok(None);
    }
    let Some(name) = file_name(alloc, work, path)? else {
        return Ok(None);
    };
    if !is_named(old, name) && is_named(new, name) {
        return Ok(new);
    }
    Ok(old)
}

// Puts an entry into the index, if there is one and nothing of the index lies above it or below it.
fn put(
    alloc: Global,
    settled: &mut Index,
    path: &[u8],
    entry: Option<IndexEntry>,
) -> Result<(), CheckoutFault>
    requires { IfSome entry (IsFile path.now) }
    ensures puts { OnOk result (Puts entry path.now settled.old settled.new ⊎ ((settled.new ≡ settled.old) × IsSome entry × HasConflict settled.old path.now)) }
    ensures fault { IfErr result IsMemory }
{
    let Some(entry) = entry else {
        return Ok(());
    };
    match settled.add(alloc, path, entry.mode, entry.id) {
        Ok(()) => Ok(()),
        Err(fault) => match fault {
            IndexFault::PathConflict => Ok(()),
            fault => Err(CheckoutFault::from(fault)),
        },
    }
}

// Puts the entry that tells what is at a path into the index.
fn settle_path<T: WorkTree>(
    alloc: Global,
    work: &mut T,
    files: &BTreeSet<Vec<u8>>,
    index: &Index,
    tree: &Index,
    settled: &mut Index,
    path: &[u8],
) -> Result<(), CheckoutFault>
    requires texts { T.honest → HasTextPaths (T.content work.old) }
    requires files { T.honest → (other : List ℕ) → IsTrue (has_path files.now other) ↔ IsSome (maps.get (T.content work.old) other) }
    requires so_far { T.honest → AreSettled index.now tree.now (T.content work.old) settled.old }
    ensures settles { T.honest → AreApart (T.content work.old) → OnOk result (SettlesPath index.now tree.now (T.content work.old) path.now settled.old settled.new) }
    ensures so_far { T.honest → OnOk result (AreSettled index.now tree.now (T.content work.old) settled.new) }
    ensures fault { IfErr result IsFault }
    ensures unwritten { IsUnwritten T.content T.folders T.left work.old work.new }
    ensures holds { T.can_hold work.new ≡ T.can_hold work.old }
    ensures wear { Wears T.failed T.can_fail T.left work.old work.new (TellsDevice result) }
{
    let (old, new) = (index.get(path), tree.get(path));
    let entry = settled_entry(alloc, work, files, path, old, new)?;
    put(alloc, settled, path, entry)?;
    Ok(())
}

/// The index of what the work tree has, where a checkout from the files of an index to those of another one may have been cut
/// short. At each path at which the two differ, a file with the content of the new entry, and not of the old one, has the
/// new entry; where no file is, there is no entry; any other file is a person's change of what the old entry names. So a
/// checkout from this index, to whatever tree, writes over what was brought, brings again what was taken away, and
/// loses no other content.
///
/// The entries are those of one index where no file of the work tree lies below another one, as on any disk.
pub fn settle<T: WorkTree>(
    alloc: Global,
    work: &mut T,
    index: &Index,
    tree: &Index,
) -> Result<Index, CheckoutFault>
    ensures settled { T.honest → AreApart (T.content work.old) → IfOk result (Settles index.now tree.now (T.content work.old)) }
    ensures fault { IfErr result IsFault }
    ensures unwritten { IsUnwritten T.content T.folders T.left work.old work.new }
    ensures holds { T.can_hold work.new ≡ T.can_hold work.old }
    ensures wear { Wears T.failed T.can_fail T.left work.old work.new (TellsDevice result) }
{
    let files = file_paths(alloc, work)?;
    let paths = all_paths(alloc, &BTreeSet::new(alloc), index, tree)?;
    let mut settled = Index::new(alloc);
    for path in &paths {
        settle_path(alloc, work, &files, index, tree, &mut settled, path)?;
    }
    Ok(settled)
}
