// A prune of what refs, HEAD and the index do not need.
ghost use Rattle.std.specs.Prelude.{◌≡◌, ◌⊎◌, IfErr, IfOk, OnOk};
ghost use Rattle.vc_files.specs.Failures.{Wears, Writes};
ghost use Rattle.vc_local.specs.NodeFault.{TellsDevice};
ghost use Rattle.vc_model.specs.Clone.{IsReached};
ghost use Rattle.vc_object.specs.ObjectId.{IsSortedByName};
ghost use Rattle.vc_pruning.specs.Pruning.{Prunes, PrunesSome};
ghost use Rattle.vc_pruning.specs.Roots.{AreNeeded, AreWhole, BlamesNeeded, BlamesPrune, EndsRemoval, IsReadable};
ghost use Rattle.vc_rules.specs.Git.{git};

use crate::removing::remove_others;
use crate::rooting::roots;
use std::alloc::Global;
use vc_files::Files;
use vc_graph::present;
use vc_local::NodeFault;
use vc_object::ObjectId;
use vc_store::Store;

/// The names of the objects that are there and that a ref, a detached HEAD or a file of the index reaches, sorted. 33 and 34 for a file
/// of the refs or of HEAD that stands for none, 62 for a bad index, 12 for an object that is reached and whose file is damaged.
pub fn needed<F: Files>(alloc: Global, files: &mut F) -> Result<Vec<ObjectId>, NodeFault>
    ensures needed { F.honest → IfOk result (λ ids. AreNeeded (F.content files.old) ids.items) }
    ensures sorted { IfOk result (λ ids. IsSortedByName ids.items) }
    ensures refused { F.honest → IfErr result (BlamesNeeded (F.content files.old)) }
    ensures same { F.content files.new ≡ F.content files.old }
    ensures wear { Wears F.failed F.can_fail F.left files.old files.new (TellsDevice result) }
{
    let roots = roots(alloc, files)?;
    let mut store = Store::new(alloc, files);
    let ids = present(alloc, &mut store, &roots)?;
    Ok(ids)
}

/// Takes away each object that neither a ref, nor HEAD, nor a file of the index reaches, and answers how many these were. What they
/// reach is found before the first is taken away. A call that ends early has taken away some of them, and nothing else. It is refused as
/// `needed` is, and with 12 for a damaged file in the place of an object that would go.
pub fn prune<F: Files>(alloc: Global, files: &mut F) -> Result<u64, NodeFault>
    ensures pruned { F.honest → IfOk result (Prunes (IsReached git) (F.content files.old) (F.content files.new)) }
    ensures some { F.honest → PrunesSome (IsReached git) (F.content files.old) (F.content files.new) }
    ensures read { F.honest → OnOk result (IsReadable (F.content files.old) × AreWhole (F.content files.old)) }
    ensures refused { F.honest → IfErr result (BlamesPrune (F.content files.old)) }
    ensures err { F.honest → IfErr result (λ e. EndsRemoval e ⊎ (F.content files.new ≡ F.content files.old)) }
    ensures wear { Writes F.honest F.content F.failed F.can_fail F.left files.old files.new (TellsDevice result) }
{
    let kept = needed(alloc, files)?;
    let removed = remove_others(alloc, files, &kept)?;
    Ok(removed)
}
