//! Sets of commits, by commits that are included with their ancestors and commits that are excluded with theirs.
ghost use Rattle.std.specs.Prelude.{◌≡◌, ◌↔◌, ◌<◌, ◌++◌, ℕ, Some, IfSome, OnSome, IfOk, IfErr, IsErrOf, OnOk, Contains};
ghost use Rattle.vc_object_map.specs.History.{IsSelected};
ghost use Rattle.vc_history.specs.Numbering.{numbers};
ghost use Rattle.vc_selection.specs.Part.{IsSettledOutside};
ghost use Rattle.vc_history.specs.Right.{TellsWhereRight, WhereRight};
ghost use Rattle.vc_history.specs.Walk.{graph_of, read_by};
ghost use Rattle.vc_files.specs.Failures.{Wears};
ghost use Rattle.vc_object_map.specs.Graph.{AreExactly, IsClosedUnder, ReachedFrom};
ghost use Rattle.vc_object.specs.ObjectId.{IsSortedByName};
ghost use Rattle.vc_object.specs.declared.id.ObjectId.{ObjectId as Id};

use crate::part::{Floor, each_is_among, first_floor, lower_floor};
use std::alloc::{AllocError, Global};
use vc_files::Fault;
use vc_history::{Generations, HistoryFault, NoLimit, Walk, read_history};
use vc_object::ObjectId;
use vc_object_map::{Commits, StoreFault, sorted_difference};

/// The ancestors of an included commit that are ancestors of no excluded one, sorted by name: the set that gitrevisions
/// writes `^exclude include`. The history of all of them is read down to a floor, which is lowered until each name that was
/// met and not read is an ancestor of an excluded one: a commit whose number is not above the floor is not read. Where
/// nothing is excluded, all is read at once.
pub fn commits<C: Commits>(
    alloc: Global,
    commits: &mut C,
    include: &[ObjectId],
    exclude: &[ObjectId],
    generations: &Generations,
) -> Result<Vec<ObjectId>, HistoryFault>
    ensures selected { IfOk result (λ ids. C.is_honest → WhereRight (C.objects (C.state_of commits.old)) generations.now (λ parents. AreExactly (IsSelected parents include.now exclude.now) ids.items)) }
    ensures sorted { IfOk result (λ ids. IsSortedByName ids.items) }
    ensures closed { OnOk result (C.is_honest → WhereRight (C.objects (C.state_of commits.old)) generations.now (λ parents. IsClosedUnder parents (include.now ++ exclude.now))) }
    ensures refused { IfErr result (λ e. C.is_honest → TellsWhereRight C.objects C.damaged (C.state_of commits.old) generations.now (include.now ++ exclude.now) e) }

    ensures kept { C.state_of commits.new ≡ C.state_of commits.old }
    ensures wear { Wears C.failed C.can_fail C.left commits.old commits.new (IsErrOf result (HistoryFault.Store (StoreFault.Fault Fault.Device))) }
{
    let roots = joined(alloc, include, exclude)?;
    let mut floor = floor_of_selection(generations, &roots, exclude);
    let mut step: u64 = 1;
    'lowering: while floor > 0 {
        let walk = read_history(alloc, commits, &roots, &Floor { generations, floor })?;
        if let Some(found) = settled_selection(alloc, &walk, include, exclude)? {
            return Ok(found);
        }
        floor = lower_floor(&walk, generations, floor, step);
        step = step.saturating_mul(2);
    }
    let walk = read_history(alloc, commits, &roots, &NoLimit)?;
    let found = outside(alloc, &walk, exclude)?;
    Ok(found)
}

// A floor below each root that has a number. Where nothing is excluded, all that is met must be read.
fn floor_of_selection(generations: &Generations, roots: &[ObjectId], exclude: &[ObjectId]) -> u64
    ensures below { (r : Id) (n : ℕ) → Contains roots.now r → numbers generations.now r ≡ Some n → 0 < n → result < n }
{
    if exclude.is_empty() {
        return 0;
    }
    first_floor(generations, roots)
}

// The selected commits, if each name that an included one reaches, and that was met and not read, is an ancestor of an
// excluded one: then they are those of the whole.
fn settled_selection(
    alloc: Global,
    walk: &Walk,
    include: &[ObjectId],
    exclude: &[ObjectId],
) -> Result<Option<Vec<ObjectId>>, AllocError>
    ensures outside { IfOk result (λ found. IfSome found (λ ids. (id : Id) → Contains ids.items id ↔ (Contains walk.now.met.keys id × ¬ ReachedFrom (graph_of walk.now) exclude.now id))) }
    ensures sorted { IfOk result (λ found. IfSome found (λ ids. IsSortedByName ids.items)) }
    ensures settled { IfOk result (λ found. OnSome found (IsSettledOutside walk.now.met.keys (read_by walk.now) include.now exclude.now)) }
{
    let included = walk.ancestors(alloc, include)?;
    let below = walk.ancestors(alloc, exclude)?;
    if !each_is_among(included.as_slice(), &walk.met, &below) {
        return Ok(None);
    }
    let ids = sorted_difference(alloc, &walk.met, &below)?;
    Ok(Some(ids))
}

// What was met that no excluded commit reaches by what was read.
fn outside(alloc: Global, walk: &Walk, exclude: &[ObjectId]) -> Result<Vec<ObjectId>, AllocError>
    ensures outside { IfOk result (λ ids. (id : Id) → Contains ids.items id ↔ (Contains walk.now.met.keys id × ¬ ReachedFrom (graph_of walk.now) exclude.now id)) }
    ensures sorted { IfOk result (λ ids. IsSortedByName ids.items) }
{
    let excluded = walk.ancestors(alloc, exclude)?;
    let ids = sorted_difference(alloc, &walk.met, &excluded)?;
    Ok(ids)
}

// The names of the first list, and then those of the second.
fn joined(
    alloc: Global,
    first: &[ObjectId],
    second: &[ObjectId],
) -> Result<Vec<ObjectId>, AllocError>
    ensures { IfOk result (λ ids. ids.items ≡ first.now ++ second.now) }
{
    first.iter().chain(second.iter()).copied().collect(alloc)
}
