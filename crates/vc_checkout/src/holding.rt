// Whether the work tree can hold what a checkout writes.
ghost use Rattle.std.specs.Prelude.{◌≡◌, ◌⊎◌, IfErr, OnOk};
ghost use Rattle.vc_checkout.specs.CheckoutFault.{IsMemory, TellsDevice};
ghost use Rattle.vc_checkout.specs.Holding.{BlamesPath, BlamesPathAt, HoldsDue, HoldsDueAt};

use crate::CheckoutFault;
use std::alloc::Global;
use vc_index::{Index, IndexCursor};
use vc_work_tree::WorkTree;

// Refuses the checkout where something is due at the path and can't be held there.
fn check_due<T: WorkTree>(
    alloc: Global,
    work: &T,
    index: &mut IndexCursor<'_>,
    tree: &mut IndexCursor<'_>,
    path: &[u8],
) -> Result<(), CheckoutFault>
    ensures held { OnOk result (HoldsDueAt (T.can_hold work.now) index.old tree.old path.now) }
    ensures refused { IfErr result (λ e. IsMemory e ⊎ BlamesPathAt (T.can_hold work.now) index.old tree.old path.now e) }
    ensures cursors { (index.new ≡ index.old) × (tree.new ≡ tree.old) }
{
    let Some(new) = tree.get(path) else {
        return Ok(());
    };
    if index.get(path) == Some(new) {
        return Ok(());
    }
    if work.holds(path) {
        return Ok(());
    }
    Err(CheckoutFault::BadPath(path.to_vec(alloc)?))
}

/// Refuses the checkout for the first path, by its bytes, at which something is due and can't be held.
pub(crate) fn check_held<T: WorkTree>(
    alloc: Global,
    work: &T,
    index: &Index,
    tree: &Index,
) -> Result<(), CheckoutFault>
    ensures held { OnOk result (HoldsDue (T.can_hold work.now) index.now tree.now) }
    ensures refused { IfErr result (λ e. IsMemory e ⊎ BlamesPath (T.can_hold work.now) index.now tree.now e) }
    ensures calm { TellsDevice result → ⊥ }
{
    let (mut old, mut new) = (IndexCursor::new(index), IndexCursor::new(tree));
    for (path, _) in tree.iter() {
        check_due(alloc, work, &mut old, &mut new, path)?;
    }
    Ok(())
}
