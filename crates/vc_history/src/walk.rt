//! The walk over a history, down to a limit. It reads each commit once, and keeps what it has read for the questions that
//! follow.
ghost use Rattle.std.specs.Prelude.{◌≡◌, ◌↔◌, ◌+◌, ◌<◌, [], ℕ, None, Option, length, is_some, IfOk, IfErr, IsErrOf, OnOk, Contains};
ghost use Rattle.indexmap.specs.IndexSet.{insert_all};
ghost use Rattle.vc_history.specs.HistoryFault.{IsOfNext, IsToldWhereRight};
ghost use Rattle.vc_history.specs.Walk.{IsNext, IsReadOf, WalkGathers, WalkReads, graph_of, parents_read, read_by, unnumbered};
ghost use Rattle.vc_files.specs.Failures.{Wears};
ghost use Rattle.vc_object_map.specs.Graph.{ReachedFrom};
ghost use Rattle.vc_object.specs.ObjectId.{id_eq};
ghost use Rattle.vc_object.specs.declared.id.ObjectId.{ObjectId as Id};

use crate::HistoryFault;
use indexmap::IndexSet;
use std::alloc::{AllocError, Global};
use vc_files::Fault;
use vc_object::ObjectId;
use vc_object_map::{Commits, Parents, StoreFault};

/// How far a walk goes: it reads its roots, and does not go on to what lies beyond the limit. A name beyond it has a number,
/// and so have its ancestors.
pub trait Limit {
    /// The numbers of the names that lie beyond it.
    ghost beyond: { Self → Id → Option ℕ };

    /// Whether the name lies beyond it.
    fn is_beyond(&self, id: &ObjectId) -> bool
        ensures { result ≡ is_some (beyond self.now id.now) };
}

/// No limit: all that the roots reach is read.
pub struct NoLimit;

impl Limit for NoLimit {
    ghost beyond = { λ _ _. None };

    fn is_beyond(&self, _: &ObjectId) -> bool {
        false
    }
}

/// What a walk over a history has met, and what it has read of it.
#[derive(Drop)]
pub struct Walk {
    /// The names that were met, in order: those that were read, then those that are still to be read.
    pub met: IndexSet<ObjectId>,
    /// The parents of those that were read, in the same order. An object that is no commit has none.
    pub parents: Vec<Vec<ObjectId>>,
    /// One of those that were read that is no commit, if there is one.
    pub other: Option<ObjectId>,
}

impl Walk {
    // A walk that has met the roots and has read nothing.
    pub(crate) fn from_roots(alloc: Global, roots: &[ObjectId]) -> Result<Walk, AllocError>
        ensures met { IfOk result (λ w. w.met.keys ≡ insert_all id_eq [] roots.now) }
        ensures parents { IfOk result (λ w. w.parents.items ≡ []) }
        ensures other { IfOk result (λ w. w.other ≡ None) }
    {
        let mut met = IndexSet::new(alloc);
        met.extend(roots)?;
        Ok(Walk {
            met,
            parents: Vec::new(alloc),
            other: None,
        })
    }

    // Reads the next of the names that were met, meets those of its parents that are within the limit, and answers the name.
    pub(crate) fn read_next<C: Commits, L: Limit>(
        &mut self,
        alloc: Global,
        commits: &mut C,
        limit: &L,
    ) -> Result<ObjectId, HistoryFault>
        requires { length self.old.parents.items < length self.old.met.keys }
        ensures reads { IfOk result (λ id. C.is_honest → WalkReads (C.objects (C.state_of commits.old)) (L.beyond limit.now) self.old self.new id) }
        ensures more { OnOk result (length self.new.parents.items ≡ length self.old.parents.items + 1) }
        ensures refused { IfErr result (λ e. C.is_honest → IsOfNext (C.objects (C.state_of commits.old)) (C.damaged (C.state_of commits.old)) (IsNext self.old) e) }

        ensures kept { C.state_of commits.new ≡ C.state_of commits.old }
        ensures wear { Wears C.failed C.can_fail C.left commits.old commits.new (IsErrOf result (HistoryFault.Store (StoreFault.Fault Fault.Device))) }
    {
        let id = self.met[self.parents.len()];
        let parents = parents_of_commit(alloc, commits, &id, &mut self.other)?;
        add_within(&mut self.met, limit, &parents)?;
        self.parents.push(parents)?;
        Ok(id)
    }

    /// The parents that were read of a name: none of one that was not met.
    pub fn parents_of(&self, id: &ObjectId) -> &[ObjectId]
        ensures { result.now ≡ parents_read self.now.met.keys (read_by self.now) id.now }
    {
        let Some(place) = self.met.get_index_of(id) else {
            return &[];
        };
        match self.parents.get(place) {
            Some(parents) => parents,
            None => &[],
        }
    }

    /// What the roots reach by the parents that were read.
    pub fn ancestors(
        &self,
        alloc: Global,
        roots: &[ObjectId],
    ) -> Result<IndexSet<ObjectId>, AllocError>
        ensures { IfOk result (λ found. (id : Id) → Contains found.keys id ↔ ReachedFrom (graph_of self.now) roots.now id) }
    {
        let mut found = IndexSet::new(alloc);
        found.extend(roots)?;
        let mut next = 0;
        while next < found.len() {
            let id = found[next];
            found.extend(self.parents_of(&id))?;
            next += 1;
        }
        Ok(found)
    }
}

/// Reads the history of some roots down to the limit. All that is read must be commits.
pub fn read_history<C: Commits, L: Limit>(
    alloc: Global,
    commits: &mut C,
    roots: &[ObjectId],
    limit: &L,
) -> Result<Walk, HistoryFault>
    ensures gathered { IfOk result (λ w. C.is_honest → WalkGathers (C.objects (C.state_of commits.old)) (L.beyond limit.now) roots.now w) }
    ensures refused { IfErr result (λ e. C.is_honest → IsToldWhereRight (C.objects (C.state_of commits.old)) (C.damaged (C.state_of commits.old)) (L.beyond limit.now) roots.now e) }

    ensures kept { C.state_of commits.new ≡ C.state_of commits.old }
    ensures wear { Wears C.failed C.can_fail C.left commits.old commits.new (IsErrOf result (HistoryFault.Store (StoreFault.Fault Fault.Device))) }
{
    let mut walk = Walk::from_roots(alloc, roots)?;
    'reading: while walk.parents.len() < walk.met.len() {
        walk.read_next(alloc, commits, limit)?;
    }
    match walk.other {
        Some(id) => Err(HistoryFault::NotACommit(id)),
        None => Ok(walk),
    }
}

// The parents of a commit. An object that is no commit has none, and is kept in mind.
fn parents_of_commit<C: Commits>(
    alloc: Global,
    commits: &mut C,
    id: &ObjectId,
    other: &mut Option<ObjectId>,
) -> Result<Vec<ObjectId>, HistoryFault>
    ensures read { IfOk result (λ own. C.is_honest → IsReadOf (C.objects (C.state_of commits.old)) id.now own.items other.old other.new) }
    ensures refused { IfErr result (λ e. C.is_honest → IsOfNext (C.objects (C.state_of commits.old)) (C.damaged (C.state_of commits.old)) (λ x. x ≡ id.now) e) }

    ensures kept { C.state_of commits.new ≡ C.state_of commits.old }
    ensures wear { Wears C.failed C.can_fail C.left commits.old commits.new (IsErrOf result (HistoryFault.Store (StoreFault.Fault Fault.Device))) }
{
    let Some(found) = commits.parents(id)? else {
        return Err(HistoryFault::Missing(*id));
    };
    match found {
        Parents::Of(parents) => Ok(parents),
        Parents::NotCommit => {
            *other = Some(*id);
            Ok(Vec::new(alloc))
        }
    }
}

// Adds the names that are within the limit.
fn add_within<L: Limit>(
    met: &mut IndexSet<ObjectId>,
    limit: &L,
    names: &[ObjectId],
) -> Result<(), AllocError>
    ensures { OnOk result (met.new.keys ≡ insert_all id_eq met.old.keys (unnumbered (L.beyond limit.now) names.now)) }
{
    for name in names {
        if !limit.is_beyond(name) {
            met.insert(*name)?;
        }
    }
    Ok(())
}
