//! Steps from an object to another.

ghost use Rattle.std.specs.Prelude.{◌≡◌, Some, Ok, Result, IfOk, IsErrOf};
ghost use Rattle.vc_files.specs.Failures.{Wears};
ghost use Rattle.vc_object.specs.Decoding.{stored_object};
ghost use Rattle.vc_rev.specs.Answer.{Refuses};
ghost use Rattle.vc_rev.specs.Asking.{AncestorAsks, PeelAsks, PeelingAsks, StepAsks, StepsAsk};
ghost use Rattle.vc_rev.specs.Meaning.{PeelsTo, PicksFrom, AncestorGives, PeelGives, StepGives, StepsGive};
ghost use Rattle.vc_expression.specs.Views.{steps_of};

use crate::object::{of_kind, pick, target};
use crate::refusal::{Refusal, RevFault, SourceFault};
use crate::repository::Repository;
use indexmap::IndexSet;
use std::alloc::Global;
use vc_expression::{Step, StepToken};
use vc_files::Fault;
use vc_object::{Kind, ObjectId};
use vc_object_map::StoreFault;
use vc_store::Stored;

/// The object behind the tags that a name leads to. Tags may lead back, so each is looked at once.
pub fn peel<R: Repository>(
    alloc: Global,
    repo: &mut R,
    id: ObjectId,
) -> Result<(ObjectId, Stored), RevFault>
    ensures ok { IfOk result (λ found. R.is_honest → PeelsTo (R.source (R.view_of repo.old)) id (Ok (found.0, stored_object found.1.kind found.1.body.items))) }
    ensures refused { Refuses R.is_honest R.source R.blames (R.view_of repo.old) (λ s. PeelingAsks s id) (λ s. PeelsTo s id) result }

    ensures kept { R.state_of repo.new ≡ R.state_of repo.old }
    ensures seen { R.view_of repo.new ≡ R.view_of repo.old }
    ensures wear { Wears R.failed R.can_fail R.left repo.old repo.new (IsErrOf result (RevFault.Source (SourceFault.Store (StoreFault.Fault Fault.Device)))) }
{
    let mut seen = IndexSet::new(alloc);
    seen.insert(id)?;
    let mut next = 0;
    while next < seen.len() {
        let at = seen[next];
        let Some(object) = repo.find(&at)? else {
            return Err(RevFault::Refused(Refusal::Unknown));
        };
        let Some(named) = target(&object) else {
            return Ok((at, object));
        };
        seen.insert(named)?;
        next += 1;
    }
    Err(RevFault::Refused(Refusal::WrongKind))
}

/// A step from what is behind tags.
pub(crate) fn pick_from<R: Repository>(
    alloc: Global,
    repo: &mut R,
    step: Step,
    id: ObjectId,
) -> Result<ObjectId, RevFault>
    ensures ok { IfOk result (λ found. R.is_honest → PicksFrom (R.source (R.view_of repo.old)) step id (Ok found)) }
    ensures refused { Refuses R.is_honest R.source R.blames (R.view_of repo.old) (λ s. PeelingAsks s id) (λ s. PicksFrom s step id) result }

    ensures kept { R.state_of repo.new ≡ R.state_of repo.old }
    ensures seen { R.view_of repo.new ≡ R.view_of repo.old }
    ensures wear { Wears R.failed R.can_fail R.left repo.old repo.new (IsErrOf result (RevFault.Source (SourceFault.Store (StoreFault.Fault Fault.Device)))) }
{
    let (at, object) = peel(alloc, repo, id)?;
    pick(alloc, step, at, &object)
}

/// The n-th of the first parents, and for 0 the commit itself.
fn ancestor<R: Repository>(
    alloc: Global,
    repo: &mut R,
    id: ObjectId,
    n: u32,
) -> Result<ObjectId, RevFault>
    ensures ok { IfOk result (λ found. R.is_honest → AncestorGives (R.source (R.view_of repo.old)) n id (Ok found)) }
    ensures refused { Refuses R.is_honest R.source R.blames (R.view_of repo.old) (λ s. AncestorAsks s n id) (λ s. AncestorGives s n id) result }

    ensures kept { R.state_of repo.new ≡ R.state_of repo.old }
    ensures seen { R.view_of repo.new ≡ R.view_of repo.old }
    ensures wear { Wears R.failed R.can_fail R.left repo.old repo.new (IsErrOf result (RevFault.Source (SourceFault.Store (StoreFault.Fault Fault.Device)))) }
{
    if n == 0 {
        return pick_from(alloc, repo, Step::Parent(0), id);
    }
    let mut at = id;
    let mut left = n;
    'parents: while left > 0 {
        at = pick_from(alloc, repo, Step::Parent(1), at)?;
        left -= 1;
    }
    Ok(at)
}

/// The object itself, if it is a tag.
fn tag_itself<R: Repository>(repo: &mut R, id: ObjectId) -> Result<ObjectId, RevFault>
    ensures ok { IfOk result (λ found. R.is_honest → PeelGives (R.source (R.view_of repo.old)) Kind.Tag id (Ok found)) }
    ensures refused { Refuses R.is_honest R.source R.blames (R.view_of repo.old) (λ s. PeelAsks s Kind.Tag id) (λ s. PeelGives s Kind.Tag id) result }

    ensures kept { R.state_of repo.new ≡ R.state_of repo.old }
    ensures seen { R.view_of repo.new ≡ R.view_of repo.old }
    ensures wear { Wears R.failed R.can_fail R.left repo.old repo.new (IsErrOf result (RevFault.Source (SourceFault.Store (StoreFault.Fault Fault.Device)))) }
{
    let Some(object) = repo.find(&id)? else {
        return Err(RevFault::Refused(Refusal::Unknown));
    };
    match of_kind(Kind::Tag, id, &object) {
        Ok(id) => Ok(id),
        Err(refusal) => Err(RevFault::Refused(refusal)),
    }
}

/// The object of that kind that a name leads to.
fn peel_to<R: Repository>(
    alloc: Global,
    repo: &mut R,
    kind: Kind,
    id: ObjectId,
) -> Result<ObjectId, RevFault>
    ensures ok { IfOk result (λ found. R.is_honest → PeelGives (R.source (R.view_of repo.old)) kind id (Ok found)) }
    ensures refused { Refuses R.is_honest R.source R.blames (R.view_of repo.old) (λ s. PeelAsks s kind id) (λ s. PeelGives s kind id) result }

    ensures kept { R.state_of repo.new ≡ R.state_of repo.old }
    ensures seen { R.view_of repo.new ≡ R.view_of repo.old }
    ensures wear { Wears R.failed R.can_fail R.left repo.old repo.new (IsErrOf result (RevFault.Source (SourceFault.Store (StoreFault.Fault Fault.Device)))) }
{
    match kind {
        Kind::Tag => tag_itself(repo, id),
        Kind::Commit => pick_from(alloc, repo, Step::PeelTo(Kind::Commit), id),
        Kind::Tree => pick_from(alloc, repo, Step::PeelTo(Kind::Tree), id),
        Kind::Blob => pick_from(alloc, repo, Step::PeelTo(Kind::Blob), id),
    }
}

/// What a step gives.
fn step_value<R: Repository>(
    alloc: Global,
    repo: &mut R,
    step: Step,
    id: ObjectId,
) -> Result<ObjectId, RevFault>
    ensures ok { IfOk result (λ found. R.is_honest → StepGives (R.source (R.view_of repo.old)) step id (Ok found)) }
    ensures refused { Refuses R.is_honest R.source R.blames (R.view_of repo.old) (λ s. StepAsks s step id) (λ s. StepGives s step id) result }

    ensures kept { R.state_of repo.new ≡ R.state_of repo.old }
    ensures seen { R.view_of repo.new ≡ R.view_of repo.old }
    ensures wear { Wears R.failed R.can_fail R.left repo.old repo.new (IsErrOf result (RevFault.Source (SourceFault.Store (StoreFault.Fault Fault.Device)))) }
{
    match step {
        Step::Parent(n) => pick_from(alloc, repo, Step::Parent(n), id),
        Step::Ancestor(n) => ancestor(alloc, repo, id, n),
        Step::Peel => pick_from(alloc, repo, Step::Peel, id),
        Step::PeelTo(kind) => peel_to(alloc, repo, kind, id),
    }
}

/// What steps give, one after another.
pub(crate) fn steps_value<R: Repository>(
    alloc: Global,
    repo: &mut R,
    steps: &[StepToken<'_>],
    id: ObjectId,
) -> Result<ObjectId, RevFault>
    ensures ok { IfOk result (λ found. R.is_honest → StepsGive (R.source (R.view_of repo.old)) (steps_of steps.now) id (Ok found)) }
    ensures refused { Refuses R.is_honest R.source R.blames (R.view_of repo.old) (λ s. StepsAsk s (steps_of steps.now) id) (λ s. StepsGive s (steps_of steps.now) id) result }

    ensures kept { R.state_of repo.new ≡ R.state_of repo.old }
    ensures seen { R.view_of repo.new ≡ R.view_of repo.old }
    ensures wear { Wears R.failed R.can_fail R.left repo.old repo.new (IsErrOf result (RevFault.Source (SourceFault.Store (StoreFault.Fault Fault.Device)))) }
{
    let mut at = id;
    'steps: for token in steps {
        at = step_value(alloc, repo, token.step, at)?;
    }
    Ok(at)
}
