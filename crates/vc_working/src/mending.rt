//! How a checkout mends one that was cut short: the index that it starts from, and the note that it makes.
ghost use Rattle.std.specs.Prelude.{◌≡◌, ◌⊎◌, ℕ, List, IfErr, IfOk, IsErrOf, IsUtf8, MatchOption, OnErr, OnOk, Some};
ghost use Rattle.std.specs.FinMap as maps;
ghost use Rattle.vc_checkout.specs.Blobs.{HasDueBlobs};
ghost use Rattle.vc_checkout.specs.Devices.{WearsEither};
ghost use Rattle.vc_checkout.specs.Refusal.{IsClear, IsDue};
ghost use Rattle.vc_checkout.specs.Steps.{Begins, Brings, IsUnwritten};
ghost use Rattle.vc_checkout.specs.WorkTree.{HasTextPaths};
ghost use Rattle.vc_cli.specs.Failure.{TellsDevice, status_of};
ghost use Rattle.vc_files.specs.Failures.{Wears, Writes, unstopped};
ghost use Rattle.vc_object_map.specs.Store.{objects};
ghost use Rattle.vc_working.specs.Begun.{begun_in};
ghost use Rattle.vc_working.specs.Checkout.{IsCut, IsOfStart, IsStart, IsWhole, MayWrite, StopsHalfway, noted, with_start};
ghost use Rattle.vc_working.specs.Devices.{WritesEither};

use crate::begun::{begin, begun};
use std::alloc::Global;
use vc_cli::Failure;
use vc_files::{Fault, Files};
use vc_index::Index;
use vc_local::{NodeFault, write_index};
use vc_object::ObjectId;
use vc_work_tree::WorkTree;

// The files of the tree to which a checkout was cut short. There are none if it is the tree that is brought now, where going on
// needs nothing, or if it can't be listed, as after it was cleaned away.
fn cut_tree<F: Files>(
    alloc: Global,
    files: &mut F,
    root: &ObjectId,
) -> Result<Option<Index>, Failure>
    ensures cut { F.honest → IfOk result (λ cut. MatchOption cut (IsWhole (F.content files.old) root.now) (IsCut (F.content files.old) root.now)) }
    ensures fault { IfErr result (λ e. status_of e ≡ 3) }
    ensures same { F.content files.new ≡ F.content files.old }
    ensures wear { Wears F.failed F.can_fail F.left files.old files.new (TellsDevice result) }
{
    let Some(other) = begun(alloc, files)? else {
        return Ok(None);
    };
    if other == *root {
        return Ok(None);
    }
    let fault = match Index::list_tree(alloc, files, &other) {
        Ok(cut) => return Ok(Some(cut)),
        Err(fault) => Failure::Node(NodeFault::from(fault)),
    };
    if fault.is_fault() {
        return Err(fault);
    }
    Ok(None)
}

// The index that a checkout to the tree of this id starts from, and whether it is another than that of the files, because one to
// another tree was cut short.
fn start_index<F: Files, W: WorkTree>(
    alloc: Global,
    files: &mut F,
    work: &mut W,
    index: Index,
    root: &ObjectId,
) -> Result<(bool, Index), Failure>
    ensures starts { F.honest → IfOk result (λ found. IsStart W.honest (F.content files.old) (W.content work.old) root.now index found.0 found.1) }
    ensures fault { IfErr result (λ e. status_of e ≡ 3) }
    ensures same { F.content files.new ≡ F.content files.old }
    ensures unwritten { IsUnwritten W.content W.folders W.left work.old work.new }
    ensures holds { W.can_hold work.new ≡ W.can_hold work.old }
    ensures wear { WearsEither W.failed W.can_fail W.left F.failed F.can_fail F.left work.old work.new files.old files.new (TellsDevice result) }
{
    let Some(cut) = cut_tree(alloc, files, root)? else {
        return Ok((false, index));
    };
    let start = vc_checkout::settle(alloc, work, &index, &cut)?;
    Ok((true, start))
}

/// The index that a checkout to a tree starts from, and whether it is another than that of the files, where nothing is against the
/// checkout.
pub fn ready<F: Files, W: WorkTree>(
    alloc: Global,
    files: &mut F,
    work: &mut W,
    index: Index,
    root: &ObjectId,
    tree: &Index,
) -> Result<(bool, Index), Failure>
    ensures starts { F.honest → IfOk result (λ found. IsStart W.honest (F.content files.old) (W.content work.old) root.now index found.0 found.1) }
    ensures may { F.honest → IfOk result (λ found. MayWrite W.honest (W.can_hold work.old) (F.content files.old) (W.content work.old) found.1 tree.now) }
    ensures clear { W.honest → IfOk result (λ found. (path : List ℕ) → IsClear found.1 tree.now (W.content work.old) path) }
    ensures text { IfOk result (λ found. (path : List ℕ) → IsDue (maps.get found.1 path) (maps.get tree.now path) → IsUtf8 path) }
    ensures texts { W.honest → OnOk result (HasTextPaths (W.content work.old)) }
    ensures refused { F.honest → IfErr result (λ e. (status_of e ≡ 3) ⊎ IsOfStart W.honest (W.can_hold work.old) (F.content files.old) (W.content work.old) root.now index tree.now e) }
    ensures same { F.content files.new ≡ F.content files.old }
    ensures unwritten { IsUnwritten W.content W.folders W.left work.old work.new }
    ensures wear { WearsEither W.failed W.can_fail W.left F.failed F.can_fail F.left work.old work.new files.old files.new (TellsDevice result) }
{
    let (is_cut, start) = start_index(alloc, files, work, index, root)?;
    vc_checkout::check(alloc, work, files, &start, tree)?;
    Ok((is_cut, start))
}

// Writes the index that the checkout starts from, if it is another than that of the files, and then the note. So the work tree's
// files are at any time those of the index or of the tree that is noted, or a person's.
fn begin_from<F: Files>(
    alloc: Global,
    files: &mut F,
    is_cut: bool,
    start: &Index,
    root: &ObjectId,
) -> Result<(), Fault>
    ensures noted { F.honest → OnOk result (F.content files.new ≡ noted (F.content files.old) is_cut start.now root.now) }
    ensures says { F.honest → OnOk result (begun_in (F.content files.new) ≡ Some root.now) }
    ensures err { F.honest → OnErr result ((F.content files.new ≡ F.content files.old) ⊎ (F.content files.new ≡ with_start (F.content files.old) is_cut start.now)) }
    ensures wear { Writes F.honest F.content F.failed F.can_fail F.left files.old files.new (IsErrOf result Fault.Device) }
{
    if is_cut {
        write_index(alloc, files, start)?;
    }
    begin(alloc, files, root)?;
    Ok(())
}

/// Does a checkout that [`ready`] has allowed: notes the tree, and brings the work tree to its files.
pub fn bring_noted<F: Files, W: WorkTree>(
    alloc: Global,
    files: &mut F,
    work: &mut W,
    is_cut: bool,
    start: &Index,
    root: &ObjectId,
    tree: &Index,
) -> Result<(), Failure>
    requires clear { W.honest → (path : List ℕ) → IsClear start.now tree.now (W.content work.old) path }
    requires blobs { F.honest → HasDueBlobs (objects (F.content files.old)) start.now tree.now }
    requires text { (path : List ℕ) → IsDue (maps.get start.now path) (maps.get tree.now path) → IsUtf8 path }
    requires texts { W.honest → HasTextPaths (W.content work.old) }
    ensures brought { W.honest → F.honest → OnOk result (Brings W.content W.folders (objects (F.content files.old)) start.now tree.now work.old work.new) }
    ensures noted { F.honest → OnOk result (F.content files.new ≡ noted (F.content files.old) is_cut start.now root.now) }
    ensures says { F.honest → OnOk result (begun_in (F.content files.new) ≡ Some root.now) }
    ensures stopped { F.honest → IfErr result (λ e. (status_of e ≡ 3) × StopsHalfway W.content W.folders W.left (F.content files.old) (F.content files.new) is_cut start.now root.now work.old work.new (W.honest → Begins W.content W.folders (objects (F.content files.old)) start.now tree.now work.old work.new)) }
    ensures wear { WritesEither W.failed W.can_fail unstopped F.honest F.content F.failed F.can_fail F.left work.old work.new files.old files.new (TellsDevice result) }
{
    begin_from(alloc, files, is_cut, start, root)?;
    vc_checkout::bring(alloc, work, files, start, tree)?;
    Ok(())
}
