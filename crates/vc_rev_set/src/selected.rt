//! The commits that a set selects.

ghost use Rattle.std.specs.Prelude.{◌≡◌, ◌↔◌, Err, MatchResult, Contains, IfOk, IfErr, OnOk, IsErrOf};
ghost use Rattle.vc_files.specs.Failures.{Wears};
ghost use Rattle.vc_object.specs.ObjectId.{IsSortedByName};
ghost use Rattle.vc_object.specs.declared.id.ObjectId.{ObjectId as Id};
ghost use Rattle.vc_rev_set.specs.RootsView.{roots_view};
ghost use Rattle.vc_rev_set.specs.Selection.{AreCommon, ArePairsWalked, IsMetBy, IsMetByPairs, IsOfWalk, IsSelectedBy, IsSetRefused, IsToldOfSet, IsWalked, Selects, SetGives};
ghost use Rattle.vc_expression.specs.SetViews.{terms_view};
ghost use Rattle.vc_rev.specs.declared.refusal.Refusal.{Refusal};

use crate::roots::Roots;
use crate::terms::set_roots;
use std::alloc::Global;
use vc_expression::SetExpr;
use vc_files::Fault;
use vc_history::Generations;
use vc_object::ObjectId;
use vc_object_map::StoreFault;
use vc_rev::{Repository, RevFault, SourceFault};
use vc_selection::{commits, common_ancestors};

/// The common ancestors of each of the pairs.
fn common_of_pairs<R: Repository>(
    alloc: Global,
    repo: &mut R,
    pairs: &[(ObjectId, ObjectId)],
) -> Result<Vec<ObjectId>, RevFault>
    ensures common { IfOk result (λ ids. R.is_honest → AreCommon (R.objects (R.state_of repo.old)) pairs.now ids.items) }
    ensures closed { OnOk result (R.is_honest → ArePairsWalked (R.objects (R.state_of repo.old)) pairs.now) }
    ensures refused { IfErr result (λ e. R.is_honest → IsOfWalk (R.objects (R.state_of repo.old)) (IsMetByPairs (R.objects (R.state_of repo.old)) pairs.now) (R.damaged (R.state_of repo.old)) e) }

    ensures kept { R.state_of repo.new ≡ R.state_of repo.old }
    ensures seen { R.view_of repo.new ≡ R.view_of repo.old }
    ensures wear { Wears R.failed R.can_fail R.left repo.old repo.new (IsErrOf result (RevFault.Source (SourceFault.Store (StoreFault.Fault Fault.Device)))) }
{
    let mut found = Vec::new(alloc);
    for pair in pairs {
        let common = common_ancestors(alloc, repo, &pair.0, &pair.1)?;
        found.extend_from_slice(&common)?;
    }
    Ok(found)
}

/// The commits that included ones reach and excluded ones don't.
fn selected<R: Repository>(
    alloc: Global,
    repo: &mut R,
    roots: &Roots,
) -> Result<Vec<ObjectId>, RevFault>
    ensures selected { IfOk result (λ ids. R.is_honest → (id : Id) → Contains ids.items id ↔ IsSelectedBy (R.objects (R.state_of repo.old)) (roots_view roots.now) id) }
    ensures sorted { IfOk result (λ ids. IsSortedByName ids.items) }
    ensures closed { OnOk result (R.is_honest → IsWalked (R.objects (R.state_of repo.old)) (roots_view roots.now)) }
    ensures refused { IfErr result (λ e. R.is_honest → IsOfWalk (R.objects (R.state_of repo.old)) (IsMetBy (R.objects (R.state_of repo.old)) (roots_view roots.now)) (R.damaged (R.state_of repo.old)) e) }

    ensures kept { R.state_of repo.new ≡ R.state_of repo.old }
    ensures seen { R.view_of repo.new ≡ R.view_of repo.old }
    ensures wear { Wears R.failed R.can_fail R.left repo.old repo.new (IsErrOf result (RevFault.Source (SourceFault.Store (StoreFault.Fault Fault.Device)))) }
{
    let mut exclude = common_of_pairs(alloc, repo, &roots.apart)?;
    exclude.extend_from_slice(&roots.exclude)?;
    let generations = Generations::new(alloc);
    let found = commits(alloc, repo, &roots.include, &exclude, &generations)?;
    Ok(found)
}

/// The commits of a set, sorted by name, as `git rev-list` lists them without an order of its own.
///
/// First each base and its steps are resolved, in the order of the terms, each to the commit that `^{commit}` gives; the
/// first that is refused decides, with 51 to 56. Then the walk reads the history of all of them, and answers 40 for a name
/// that is absent and 41 for an object of another kind. The whole history is read once, and for each `a...b` that of both
/// ends once more.
pub fn resolve_set<R: Repository>(
    alloc: Global,
    repo: &mut R,
    set: &SetExpr<'_>,
) -> Result<Vec<ObjectId>, RevFault>
    ensures ok { IfOk result (λ ids. R.is_honest → Selects (R.source (R.view_of repo.old)) (terms_view set.now) ids.items) }
    ensures sorted { IfOk result (λ ids. IsSortedByName ids.items) }
    ensures refused { IfErr result (λ e. R.is_honest → IsToldOfSet (R.source (R.view_of repo.old)) (R.blames (R.view_of repo.old)) (R.damaged (R.state_of repo.old)) (terms_view set.now) e) }

    // A set of which a term is refused is refused so, unless the repository gives no answer.
    ensures only { R.is_honest → (refusal : Refusal) → SetGives (R.source (R.view_of repo.old)) (terms_view set.now) (Err refusal) → MatchResult result (λ _. ⊥) (IsSetRefused refusal) }

    ensures kept { R.state_of repo.new ≡ R.state_of repo.old }
    ensures seen { R.view_of repo.new ≡ R.view_of repo.old }
    ensures wear { Wears R.failed R.can_fail R.left repo.old repo.new (IsErrOf result (RevFault.Source (SourceFault.Store (StoreFault.Fault Fault.Device)))) }
{
    let roots = set_roots(alloc, repo, &set.terms)?;
    selected(alloc, repo, &roots)
}
