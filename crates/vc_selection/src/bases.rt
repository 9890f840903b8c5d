//! The common ancestors of two commits, and the best of them.
ghost use Rattle.std.specs.Prelude.{◌≡◌, ◌∷◌, [], filter, not, IfSome, OnSome, IfOk, IfErr, IsErrOf, OnOk};
ghost use Rattle.indexmap.specs.IndexSet.{insert_all};
ghost use Rattle.vc_history.specs.HistoryFault.{IsTold};
ghost use Rattle.vc_object_map.specs.History.{IsCommonAncestor, IsBestCommonAncestor};
ghost use Rattle.vc_selection.specs.Part.{IsSettledBelow};
ghost use Rattle.vc_selection.specs.Passed.{IsPassed};
ghost use Rattle.vc_history.specs.Right.{TellsWhereRight, WhereRight};
ghost use Rattle.vc_history.specs.Walk.{graph_of, read_by};
ghost use Rattle.vc_history.specs.Whole.{AreWhole};
ghost use Rattle.vc_files.specs.Failures.{Wears};
ghost use Rattle.vc_object_map.specs.Graph.{AreExactly, IsClosedUnder};
ghost use Rattle.vc_object.specs.ObjectId.{id_eq, IsSortedByName};
ghost use Rattle.vc_object.specs.ObjectMap.{parents_in};

use crate::part::{Floor, each_is_among, first_floor, lower_floor};
use indexmap::IndexSet;
use std::alloc::{AllocError, Global};
use vc_files::Fault;
use vc_history::{Generations, HistoryFault, NoLimit, Walk, read_history};
use vc_object::ObjectId;
use vc_object_map::{Commits, StoreFault, sorted_difference, sorted_from};

/// The common ancestors of `a` and `b` that are ancestors of no other one, sorted by name. There may be several, or none. The
/// history of both is read down to a floor, which is lowered until each name that was met and not read lies below a common
/// ancestor: a commit whose number is not above the floor is not read.
pub fn merge_bases<C: Commits>(
    alloc: Global,
    commits: &mut C,
    a: &ObjectId,
    b: &ObjectId,
    generations: &Generations,
) -> Result<Vec<ObjectId>, HistoryFault>
    ensures best { IfOk result (λ ids. C.is_honest → WhereRight (C.objects (C.state_of commits.old)) generations.now (λ parents. AreExactly (IsBestCommonAncestor parents a.now b.now) ids.items)) }
    ensures sorted { IfOk result (λ ids. IsSortedByName ids.items) }
    ensures closed { OnOk result (C.is_honest → WhereRight (C.objects (C.state_of commits.old)) generations.now (λ parents. IsClosedUnder parents (a.now ∷ b.now ∷ []))) }
    ensures refused { IfErr result (λ e. C.is_honest → TellsWhereRight C.objects C.damaged (C.state_of commits.old) generations.now (a.now ∷ b.now ∷ []) e) }

    ensures kept { C.state_of commits.new ≡ C.state_of commits.old }
    ensures wear { Wears C.failed C.can_fail C.left commits.old commits.new (IsErrOf result (HistoryFault.Store (StoreFault.Fault Fault.Device))) }
{
    let mut floor = first_floor(generations, &[*a, *b]);
    let mut step: u64 = 1;
    'lowering: while floor > 0 {
        let walk = read_history(alloc, commits, &[*a, *b], &Floor { generations, floor })?;
        if let Some(bases) = settled_best(alloc, &walk, a, b)? {
            return Ok(bases);
        }
        floor = lower_floor(&walk, generations, floor, step);
        step = step.saturating_mul(2);
    }
    let walk = read_history(alloc, commits, &[*a, *b], &NoLimit)?;
    let bases = best_common(alloc, &walk, a, b)?;
    Ok(bases)
}

/// The commits that are ancestors of both `a` and `b`, sorted by name: what gitrevisions excludes from `a...b`. A commit is
/// its own ancestor. The history of both is read, each commit once, and all that they have in common is answered, so the
/// answer may be as long as a history.
pub fn common_ancestors<C: Commits>(
    alloc: Global,
    commits: &mut C,
    a: &ObjectId,
    b: &ObjectId,
) -> Result<Vec<ObjectId>, HistoryFault>
    ensures common { IfOk result (λ ids. C.is_honest → AreExactly (IsCommonAncestor (parents_in (C.objects (C.state_of commits.old))) a.now b.now) ids.items) }
    ensures sorted { IfOk result (λ ids. IsSortedByName ids.items) }
    ensures closed { OnOk result (C.is_honest → AreWhole (C.objects (C.state_of commits.old)) (a.now ∷ b.now ∷ [])) }
    ensures refused { IfErr result (λ e. C.is_honest → IsTold (C.objects (C.state_of commits.old)) (C.damaged (C.state_of commits.old)) (a.now ∷ b.now ∷ []) e) }

    ensures kept { C.state_of commits.new ≡ C.state_of commits.old }
    ensures wear { Wears C.failed C.can_fail C.left commits.old commits.new (IsErrOf result (HistoryFault.Store (StoreFault.Fault Fault.Device))) }
{
    let walk = read_history(alloc, commits, &[*a, *b], &NoLimit)?;
    let common = common_in_history(alloc, &walk, a, b)?;
    Ok(sorted_from(alloc, &common, 0)?)
}

// The best common ancestors in a part of a history, where each name that was met and not read lies below a common ancestor:
// then they are those of the whole.
fn settled_best(
    alloc: Global,
    walk: &Walk,
    a: &ObjectId,
    b: &ObjectId,
) -> Result<Option<Vec<ObjectId>>, AllocError>
    ensures best { IfOk result (λ found. IfSome found (λ ids. AreExactly (IsBestCommonAncestor (graph_of walk.now) a.now b.now) ids.items)) }
    ensures sorted { IfOk result (λ found. IfSome found (λ ids. IsSortedByName ids.items)) }
    ensures settled { IfOk result (λ found. OnSome found (IsSettledBelow walk.now.met.keys (read_by walk.now) a.now b.now)) }
{
    let common = common_in_history(alloc, walk, a, b)?;
    let passed = parents_of_all(alloc, walk, common.as_slice())?;
    let below = walk.ancestors(alloc, passed.as_slice())?;
    let reached = walk.ancestors(alloc, &[*a, *b])?;
    if !each_is_among(reached.as_slice(), &walk.met, &below) {
        return Ok(None);
    }
    let bases = sorted_difference(alloc, &common, &passed)?;
    Ok(Some(bases))
}

// The best common ancestors in a history that was read.
fn best_common(
    alloc: Global,
    walk: &Walk,
    a: &ObjectId,
    b: &ObjectId,
) -> Result<Vec<ObjectId>, AllocError>
    ensures best { IfOk result (λ ids. AreExactly (IsBestCommonAncestor (graph_of walk.now) a.now b.now) ids.items) }
    ensures sorted { IfOk result (λ ids. IsSortedByName ids.items) }
{
    let common = common_in_history(alloc, walk, a, b)?;
    let passed = parents_of_all(alloc, walk, common.as_slice())?;
    let bases = sorted_difference(alloc, &common, &passed)?;
    Ok(bases)
}

// The common ancestors in a history that was read.
fn common_in_history(
    alloc: Global,
    walk: &Walk,
    a: &ObjectId,
    b: &ObjectId,
) -> Result<IndexSet<ObjectId>, AllocError>
    ensures { IfOk result (λ common. AreExactly (IsCommonAncestor (graph_of walk.now) a.now b.now) common.keys) }
{
    let of_a = walk.ancestors(alloc, &[*a])?;
    let of_b = walk.ancestors(alloc, &[*b])?;
    let common: IndexSet<ObjectId> = of_a.intersection(&of_b).copied().collect(alloc)?;
    Ok(common)
}

// The names that another of some commits has as a parent: among all common ancestors, these are not the best.
fn parents_of_all(
    alloc: Global,
    walk: &Walk,
    ids: &[ObjectId],
) -> Result<IndexSet<ObjectId>, AllocError>
    ensures { IfOk result (λ passed. AreExactly (IsPassed (graph_of walk.now) ids.now) passed.keys) }
{
    let mut passed = IndexSet::new(alloc);
    for id in ids {
        add_others(&mut passed, walk.parents_of(id), id)?;
    }
    Ok(passed)
}

// Adds the names other than the given one.
fn add_others(
    passed: &mut IndexSet<ObjectId>,
    names: &[ObjectId],
    id: &ObjectId,
) -> Result<(), AllocError>
    ensures { OnOk result (passed.new.keys ≡ insert_all id_eq passed.old.keys (filter (λ x. not (id_eq x id.now)) names.now)) }
{
    for name in names {
        if name != id {
            passed.insert(*name)?;
        }
    }
    Ok(())
}
