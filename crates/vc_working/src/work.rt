//! The subcommands that look at the work tree of a store: `checkout` and `status`.
ghost use Rattle.std.specs.Prelude.{◌≡◌, ◌⊎◌, IfErr, OnErr, OnOk, false};
ghost use Rattle.std.specs.Io.KnownBytes.{Appends, Keeps};
ghost use Rattle.vc_checkout.specs.Steps.{IsUntouched};
ghost use Rattle.vc_cli.specs.Failure.{status_of};
ghost use Rattle.vc_cli.specs.Printed.{PrintsFront};
ghost use Rattle.vc_cli.specs.Stores.{IsUnopened, OthersStay, StoresStay};
ghost use Rattle.vc_working.specs.Begun.{begun_in};
ghost use Rattle.vc_working.specs.Checkout.{ChecksOut, LeavesOrFails, RefusesCheckout};
ghost use Rattle.vc_working.specs.StatusLines.{PrintsStatus, RefusesStatus, TellsStatus};
ghost use Rattle.vc_working.specs.Trees.{ChecksOutTree, IsOfStatus, LeavesTree, OtherTreesStay, RefusesCheckoutTree, TreeStays, told_cut};

use crate::begun::{CUT_SHORT, begun};
use crate::checkout::check_out;
use crate::status::print_status;
use crate::work_trees::WorkTrees;
use std::alloc::Global;
use std::io::Write;
use vc_cli::{Failure, Faults, Stores};
use vc_files::Files;
use vc_work_tree::WorkTree;

/// Brings the work tree, the index and HEAD, in this order, to the commit that the revision names. Nothing is written
/// where a change that is not stored would be lost.
pub fn checkout<S: Stores, T: WorkTrees>(
    alloc: Global,
    stores: &mut S,
    trees: &mut T,
    lock: &S::Lock,
    store: &str,
    work: &str,
    revision: &str,
) -> Result<(), Failure>
    ensures done { T.Tree.honest → S.Files.honest → OnOk result (ChecksOutTree (T.can_hold trees.old store.now work.now) (T.own trees.old store.now work.now) revision.now (S.content stores.old (S.of lock.now)) (S.content stores.new (S.of lock.now)) (T.trees trees.old store.now work.now) (T.trees trees.new store.now work.now)) }
    ensures refused { T.Tree.honest → S.Files.honest → IfErr result (RefusesCheckoutTree T.Tree.honest (T.can_hold trees.old store.now work.now) (T.own trees.old store.now work.now) revision.now (S.content stores.old (S.of lock.now)) (T.trees trees.old store.now work.now)) }
    ensures begun { T.Tree.honest → S.Files.honest → IfErr result (LeavesTree T.Tree.honest (T.can_hold trees.old store.now work.now) (T.own trees.old store.now work.now) revision.now (S.content stores.old (S.of lock.now)) (S.content stores.new (S.of lock.now)) (T.trees trees.old store.now work.now) (T.trees trees.new store.now work.now)) }
    ensures others { OthersStay (S.of lock.now) (S.content stores.old) (S.content stores.new) }
    ensures trees { OtherTreesStay work.now (T.trees trees.old) (T.trees trees.new) }
{
    let (own, mut tree) = trees.open(store, work)?;
    let done = checkout_into(
        alloc,
        stores,
        lock,
        &mut tree,
        own.as_str().as_bytes(),
        revision,
    );
    trees.close(store, work, tree);
    done
}

// The same, of a work tree that was opened.
fn checkout_into<S: Stores, W: WorkTree>(
    alloc: Global,
    stores: &mut S,
    lock: &S::Lock,
    work: &mut W,
    own: &[u8],
    revision: &str,
) -> Result<(), Failure>
    ensures done { W.honest → S.Files.honest → OnOk result (ChecksOut W.content W.folders W.can_hold own.now revision.now (S.content stores.old (S.of lock.now)) (S.content stores.new (S.of lock.now)) work.old work.new) }
    ensures refused { S.Files.honest → IfErr result (λ e. IsUnopened e ⊎ RefusesCheckout W.honest (W.can_hold work.old) own.now revision.now (S.content stores.old (S.of lock.now)) (W.content work.old) e) }
    ensures begun { S.Files.honest → IfErr result (LeavesOrFails W.honest W.content W.folders W.left W.can_hold own.now revision.now (S.content stores.old (S.of lock.now)) (S.content stores.new (S.of lock.now)) work.old work.new) }
    ensures others { OthersStay (S.of lock.now) (S.content stores.old) (S.content stores.new) }
{
    let mut files = stores.open_locked(lock)?;
    let done = check_out(alloc, &mut files, work, own, revision);
    stores.close_locked(lock, files);
    done
}

/// Prints a line for each path at which HEAD's tree, the index and the work tree differ, in the order of the paths. A person is
/// told if a checkout was cut short.
pub fn status<S: Stores, T: WorkTrees, O: Write, E: Write>(
    alloc: Global,
    stores: &mut S,
    trees: &mut T,
    store: &str,
    work: &str,
    output: &mut O,
    faults: &mut Faults<E>,
) -> Result<(), Failure>
    ensures printed { T.Tree.honest → S.Files.honest → OnOk result (PrintsStatus (S.content stores.old store.now) (T.trees trees.old store.now work.now).files (T.own trees.old store.now work.now) (O.contents output.old) (O.contents output.new)) }
    ensures told { S.Files.honest → OnOk result (Appends (E.contents faults.old.stream) (E.contents faults.new.stream) (told_cut faults.old.is_terminal (begun_in (S.content stores.old store.now)))) }
    ensures refused { S.Files.honest → IfErr result (IsOfStatus (S.content stores.old store.now)) }
    ensures front { T.Tree.honest → S.Files.honest → OnErr result (PrintsFront (TellsStatus (S.content stores.old store.now) (T.trees trees.old store.now work.now).files (T.own trees.old store.now work.now)) (O.contents output.old) (O.contents output.new)) }
    ensures nothing_printed { IfErr result (λ e. (status_of e ≡ 3) ⊎ Keeps (O.contents output.old) (O.contents output.new)) }
    ensures silent { faults.old.is_terminal ≡ false → Keeps (E.contents faults.old.stream) (E.contents faults.new.stream) }
    ensures stores { StoresStay (S.content stores.old) (S.content stores.new) }
    ensures trees { TreeStays store.now work.now (T.trees trees.old) (T.trees trees.new) }
{
    let (own, mut work_tree) = trees.open(store, work)?;
    let done = status_of_store(
        alloc,
        stores,
        store,
        &mut work_tree,
        own.as_str().as_bytes(),
        output,
        faults,
    );
    trees.close(store, work, work_tree);
    done
}

// The same, of a work tree that was opened.
fn status_of_store<S: Stores, W: WorkTree, O: Write, E: Write>(
    alloc: Global,
    stores: &mut S,
    store: &str,
    work: &mut W,
    own: &[u8],
    output: &mut O,
    faults: &mut Faults<E>,
) -> Result<(), Failure>
    ensures printed { W.honest → S.Files.honest → OnOk result (PrintsStatus (S.content stores.old store.now) (W.content work.old) own.now (O.contents output.old) (O.contents output.new)) }
    ensures told { S.Files.honest → OnOk result (Appends (E.contents faults.old.stream) (E.contents faults.new.stream) (told_cut faults.old.is_terminal (begun_in (S.content stores.old store.now)))) }
    ensures refused { S.Files.honest → IfErr result (IsOfStatus (S.content stores.old store.now)) }
    ensures front { W.honest → S.Files.honest → OnErr result (PrintsFront (TellsStatus (S.content stores.old store.now) (W.content work.old) own.now) (O.contents output.old) (O.contents output.new)) }
    ensures nothing_printed { IfErr result (λ e. (status_of e ≡ 3) ⊎ Keeps (O.contents output.old) (O.contents output.new)) }
    ensures silent { faults.old.is_terminal ≡ false → Keeps (E.contents faults.old.stream) (E.contents faults.new.stream) }
    ensures stores { StoresStay (S.content stores.old) (S.content stores.new) }
    ensures untouched { IsUntouched W.content W.folders work.old work.new }
{
    let mut files = stores.open(store)?;
    let done = show_status(alloc, &mut files, work, own, output, faults);
    stores.close(store, files);
    done
}

// The same, of files that were opened.
fn show_status<F: Files, W: WorkTree, O: Write, E: Write>(
    alloc: Global,
    files: &mut F,
    work: &mut W,
    own: &[u8],
    output: &mut O,
    faults: &mut Faults<E>,
) -> Result<(), Failure>
    ensures printed { W.honest → F.honest → OnOk result (PrintsStatus (F.content files.old) (W.content work.old) own.now (O.contents output.old) (O.contents output.new)) }
    ensures told { F.honest → OnOk result (Appends (E.contents faults.old.stream) (E.contents faults.new.stream) (told_cut faults.old.is_terminal (begun_in (F.content files.old)))) }
    ensures refused { F.honest → IfErr result (RefusesStatus (F.content files.old)) }
    ensures front { W.honest → F.honest → OnErr result (PrintsFront (TellsStatus (F.content files.old) (W.content work.old) own.now) (O.contents output.old) (O.contents output.new)) }
    ensures nothing_printed { IfErr result (λ e. (status_of e ≡ 3) ⊎ Keeps (O.contents output.old) (O.contents output.new)) }
    ensures silent { faults.old.is_terminal ≡ false → Keeps (E.contents faults.old.stream) (E.contents faults.new.stream) }
    ensures files { F.content files.new ≡ F.content files.old }
    ensures untouched { IsUntouched W.content W.folders work.old work.new }
{
    print_status(alloc, files, work, own, output)?;
    if begun(alloc, files)?.is_none() {
        return Ok(());
    }
    faults.tell(CUT_SHORT)?;
    Ok(())
}
