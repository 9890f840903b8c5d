// What stands where a file is to be written.
ghost use Rattle.std.specs.Prelude.{◌↔◌, ℕ, List, IfOk, IfErr, IsTrue};
ghost use Rattle.vc_files.specs.Failures.{Wears};
ghost use Rattle.vc_index.specs.Path.{IsAbove};
ghost use Rattle.vc_checkout.specs.CheckoutFault.{IsFault, TellsDevice};
ghost use Rattle.vc_checkout.specs.Refusal.{IsHindered};
ghost use Rattle.vc_checkout.specs.Steps.{IsUntouched};
ghost use Rattle.vc_checkout.specs.WorkTree.{HasTextPaths, has_path};

use crate::CheckoutFault;
use crate::compare::file_name;
use std::alloc::{AllocError, Global};
use std::collections::BTreeSet;
use std::ops::Bound;
use vc_index::IndexEntry;
use vc_object::Mode;
use vc_work_tree::WorkTree;

// Whether a path of the set is that of a folder above the path.
fn has_above(paths: &BTreeSet<Vec<u8>>, path: &[u8]) -> bool
    ensures { IsTrue result ↔ ((other : List ℕ) × IsTrue (has_path paths.now other) × IsAbove other path.now) }
{
    for (i, byte) in path.iter().enumerate() {
        if *byte == b'/' && paths.contains(&path[..i]) {
            return true;
        }
    }
    false
}

// Whether a path of the set lies in the path as a folder.
fn has_below(alloc: Global, paths: &BTreeSet<Vec<u8>>, path: &[u8]) -> Result<bool, AllocError>
    ensures { IfOk result (λ below. IsTrue below ↔ ((other : List ℕ) × IsTrue (has_path paths.now other) × IsAbove path.now other)) }
{
    let mut folder = path.to_vec(alloc)?;
    folder.push(b'/')?;
    match paths
        .range((Bound::Included(&folder), Bound::Unbounded))
        .next()
    {
        Some(first) => Ok(first.as_slice().starts_with(&folder)),
        None => Ok(false),
    }
}

/// Whether one of these files of the work tree stands where the entry is to be written.
pub(crate) fn is_hindered<T: WorkTree>(
    alloc: Global,
    work: &mut T,
    others: &BTreeSet<Vec<u8>>,
    path: &[u8],
    entry: IndexEntry,
) -> Result<bool, CheckoutFault>
    requires { T.honest → HasTextPaths (T.content work.old) }
    ensures hindered { T.honest → IfOk result (λ yes. IsTrue yes ↔ IsHindered (λ other. IsTrue (has_path others.now other)) (T.content work.old) path.now entry) }
    ensures fault { IfErr result IsFault }
    ensures untouched { IsUntouched T.content T.folders work.old work.new }
    ensures wear { Wears T.failed T.can_fail T.left work.old work.new (TellsDevice result) }
{
    if has_above(others, path) {
        return Ok(true);
    }
    if has_below(alloc, others, path)? {
        return Ok(true);
    }
    if !others.contains(path) {
        return Ok(false);
    }
    if entry.mode == Mode::Commit {
        return Ok(true);
    }
    let Some(name) = file_name(alloc, work, path)? else {
        return Ok(false);
    };
    Ok(name != entry.id)
}
