//! Whether one commit descends from another, and whether a history is one of commits alone.
ghost use Rattle.std.specs.Prelude.{◌≡◌, ◌↔◌, ◌∷◌, [], IsSome, IsTrue, IfOk, IfErr, IsErrOf, not};
ghost use Rattle.vc_history.specs.HistoryFault.{IsMetInHistory};
ghost use Rattle.vc_object_map.specs.History.{IsAncestor};
ghost use Rattle.vc_history.specs.Right.{TellsWhereRight, WhereRight};
ghost use Rattle.vc_history.specs.Whole.{IsWhole};
ghost use Rattle.vc_files.specs.Failures.{Wears};
ghost use Rattle.vc_object_map.specs.Graph.{IsClosed};

use crate::toward::Toward;
use crate::walk::{Limit, NoLimit, Walk, read_history};
use crate::{Generations, HistoryFault};
use std::alloc::Global;
use vc_files::Fault;
use vc_object::ObjectId;
use vc_object_map::{Commits, StoreFault};

/// Whether `a` is an ancestor of `b`. A commit is its own ancestor. The walk goes from `b` and ends where it reads `a`. It
/// passes over each numbered commit other than `a` where `a` has no number, or one that is not less. What lies beyond may be
/// absent, or no commit; a `no` is answered only where the whole history of `b` is known to be there. An `a` that no parent
/// leads to is not looked for.
pub fn is_ancestor<C: Commits>(
    alloc: Global,
    commits: &mut C,
    a: &ObjectId,
    b: &ObjectId,
    generations: &Generations,
) -> Result<bool, HistoryFault>
    ensures answer { IfOk result (λ yes. C.is_honest → WhereRight (C.objects (C.state_of commits.old)) generations.now (λ parents. IsTrue yes ↔ IsAncestor parents a.now b.now)) }
    ensures commit { IfOk result (λ yes. C.is_honest → WhereRight (C.objects (C.state_of commits.old)) generations.now (λ parents. IsTrue yes → IsSome (parents a.now))) }
    ensures whole { IfOk result (λ yes. C.is_honest → WhereRight (C.objects (C.state_of commits.old)) generations.now (λ parents. IsTrue (not yes) → IsClosed parents b.now)) }
    ensures refused { IfErr result (λ e. C.is_honest → TellsWhereRight C.objects C.damaged (C.state_of commits.old) generations.now (b.now ∷ []) e) }

    ensures kept { C.state_of commits.new ≡ C.state_of commits.old }
    ensures wear { Wears C.failed C.can_fail C.left commits.old commits.new (IsErrOf result (HistoryFault.Store (StoreFault.Fault Fault.Device))) }
{
    let limit = Toward {
        sought: a,
        generations,
    };
    if limit.is_beyond(b) {
        return Ok(false);
    }
    let mut walk = Walk::from_roots(alloc, &[*b])?;
    'reading: while walk.parents.len() < walk.met.len() {
        let id = walk.read_next(alloc, commits, &limit)?;
        if id == *a && walk.other.is_none() {
            return Ok(true);
        }
    }
    match walk.other {
        Some(id) => Err(HistoryFault::NotACommit(id)),
        None => Ok(false),
    }
}

/// Whether the root is a commit that is there, and every name that parent links lead to from it is one. The whole history
/// is read, each commit once.
pub fn is_history<C: Commits>(
    alloc: Global,
    commits: &mut C,
    root: &ObjectId,
) -> Result<bool, StoreFault>
    ensures history { IfOk result (λ yes. C.is_honest → IsTrue yes ↔ IsWhole (C.objects (C.state_of commits.old)) root.now) }
    ensures refused { IfErr result (λ e. C.is_honest → IsMetInHistory (C.objects (C.state_of commits.old)) (C.damaged (C.state_of commits.old)) (root.now ∷ []) e) }

    ensures kept { C.state_of commits.new ≡ C.state_of commits.old }
    ensures wear { Wears C.failed C.can_fail C.left commits.old commits.new (IsErrOf result (StoreFault.Fault Fault.Device)) }
{
    let Err(told) = read_history(alloc, commits, &[*root], &NoLimit) else {
        return Ok(true);
    };
    match told {
        HistoryFault::Missing(_) => Ok(false),
        HistoryFault::NotACommit(_) => Ok(false),
        HistoryFault::Store(fault) => Err(fault),
    }
}
