//! What the terms of a set include and exclude.

ghost use Rattle.std.specs.Prelude.{◌≡◌, ◌≢◌, Ok, map, IfErr, IfOk, IsErrOf};
ghost use Rattle.vc_files.specs.Failures.{Wears};
ghost use Rattle.vc_object.specs.Decoding.{stored_object};
ghost use Rattle.vc_rev.specs.Answer.{IsToldAlone, Refuses};
ghost use Rattle.vc_rev_set.specs.RootsView.{roots_view};
ghost use Rattle.vc_rev_set.specs.Selection.{BothAsk, BothGive, CommitAsks, CommitGives, EndsAsk, EndsGive, Makes, SetGives, TermAsks, TermGives, TermsAsk, commit_at, head_rev, nth_of};
ghost use Rattle.vc_expression.specs.SetGrammar.{Range, Since, Symmetric};
ghost use Rattle.vc_expression.specs.SetViews.{ends_view, term_view};
ghost use Rattle.vc_rev_set.specs.Uses.{used};
ghost use Rattle.vc_expression.specs.Views.{rev_view};

use crate::roots::Roots;
use std::alloc::{AllocError, Global};
use vc_expression::{BaseToken, Ends, Rev, Step, StepToken, Term};
use vc_files::Fault;
use vc_object::ObjectId;
use vc_object_map::StoreFault;
use vc_rev::{Refusal, Repository, RevFault, SourceFault, peel, rev_value};
use vc_store::Stored;

/// How a term takes a commit.
#[derive(Clone, Copy)]
pub(crate) enum Use {
    Included,
    Excluded,
    ParentsIncluded,
    ParentsExcluded,
    /// The commit without its parents.
    Only,
}

// The commit that an object is: its name, and its parents.
fn commit_at(
    alloc: Global,
    id: ObjectId,
    object: &Stored,
) -> Result<(ObjectId, Vec<ObjectId>), RevFault>
    ensures ok { IfOk result (λ found. commit_at (id, stored_object object.now.kind object.now.body.items) ≡ Ok (found.0, found.1.items)) }
    ensures refused { IfErr result (IsToldAlone (λ answer. answer ≡ commit_at (id, stored_object object.now.kind object.now.body.items))) }
    ensures memory { IfErr result (λ e. e ≢ RevFault.Source (SourceFault.Store (StoreFault.Fault Fault.Device))) }
{
    let found = vc_object::parents(alloc, &object.object())?;
    match found {
        Some(parents) => Ok((id, parents)),
        None => Err(RevFault::Refused(Refusal::WrongKind)),
    }
}

/// The commit that a base and its steps lead to behind tags, and its parents.
fn commit_value<R: Repository>(
    alloc: Global,
    repo: &mut R,
    rev: &Rev<'_>,
) -> Result<(ObjectId, Vec<ObjectId>), RevFault>
    ensures ok { IfOk result (λ found. R.is_honest → CommitGives (R.source (R.view_of repo.old)) (rev_view rev.now) (Ok (found.0, found.1.items))) }
    ensures refused { Refuses R.is_honest R.source R.blames (R.view_of repo.old) (λ s. CommitAsks s (rev_view rev.now)) (λ s. CommitGives s (rev_view rev.now)) result }

    ensures kept { R.state_of repo.new ≡ R.state_of repo.old }
    ensures seen { R.view_of repo.new ≡ R.view_of repo.old }
    ensures wear { Wears R.failed R.can_fail R.left repo.old repo.new (IsErrOf result (RevFault.Source (SourceFault.Store (StoreFault.Fault Fault.Device)))) }
{
    let id = rev_value(alloc, repo, rev)?;
    let (at, object) = peel(alloc, repo, id)?;
    commit_at(alloc, at, &object)
}

/// What a term that takes a commit so includes and excludes.
fn used(alloc: Global, way: Use, id: ObjectId, parents: Vec<ObjectId>) -> Result<Roots, AllocError>
    ensures { IfOk result (λ roots. roots_view roots ≡ used way (id, parents.items)) }
{
    let none = Vec::new(alloc);
    match way {
        Use::Included => Ok(Roots::of(alloc, vec![in alloc; id]?, none)),
        Use::Excluded => Ok(Roots::of(alloc, none, vec![in alloc; id]?)),
        Use::ParentsIncluded => Ok(Roots::of(alloc, parents, none)),
        Use::ParentsExcluded => Ok(Roots::of(alloc, none, parents)),
        Use::Only => Ok(Roots::of(alloc, vec![in alloc; id]?, parents)),
    }
}

/// What a term of one commit includes and excludes.
fn single<R: Repository>(
    alloc: Global,
    repo: &mut R,
    rev: &Rev<'_>,
    way: Use,
) -> Result<Roots, RevFault>
    ensures ok { IfOk result (λ found. R.is_honest → Makes (R.source (R.view_of repo.old)) (used way) (rev_view rev.now) (Ok (roots_view found))) }
    ensures refused { Refuses R.is_honest R.source R.blames (R.view_of repo.old) (λ s. CommitAsks s (rev_view rev.now)) (λ s. Makes s (used way) (rev_view rev.now)) result }

    ensures kept { R.state_of repo.new ≡ R.state_of repo.old }
    ensures seen { R.view_of repo.new ≡ R.view_of repo.old }
    ensures wear { Wears R.failed R.can_fail R.left repo.old repo.new (IsErrOf result (RevFault.Source (SourceFault.Store (StoreFault.Fault Fault.Device)))) }
{
    let (id, parents) = commit_value(alloc, repo, rev)?;
    Ok(used(alloc, way, id, parents)?)
}

/// The commits that two bases and their steps lead to.
fn both<R: Repository>(
    alloc: Global,
    repo: &mut R,
    from: &Rev<'_>,
    to: &Rev<'_>,
) -> Result<(ObjectId, ObjectId), RevFault>
    ensures ok { IfOk result (λ found. R.is_honest → BothGive (R.source (R.view_of repo.old)) (rev_view from.now) (rev_view to.now) (Ok found)) }
    ensures refused { Refuses R.is_honest R.source R.blames (R.view_of repo.old) (λ s. BothAsk s (rev_view from.now) (rev_view to.now)) (λ s. BothGive s (rev_view from.now) (rev_view to.now)) result }

    ensures kept { R.state_of repo.new ≡ R.state_of repo.old }
    ensures seen { R.view_of repo.new ≡ R.view_of repo.old }
    ensures wear { Wears R.failed R.can_fail R.left repo.old repo.new (IsErrOf result (RevFault.Source (SourceFault.Store (StoreFault.Fault Fault.Device)))) }
{
    let (first, _) = commit_value(alloc, repo, from)?;
    let (second, _) = commit_value(alloc, repo, to)?;
    Ok((first, second))
}

/// HEAD, for an end of a range that is left out.
fn head<'a>(alloc: Global) -> Rev<'a>
    ensures { rev_view result ≡ head_rev }
{
    Rev {
        base: BaseToken {
            start: 0,
            text: b"@",
        },
        steps: Vec::new(alloc),
    }
}

/// The commits at the ends of a range.
fn ends_value<R: Repository>(
    alloc: Global,
    repo: &mut R,
    ends: &Ends<'_>,
) -> Result<(ObjectId, ObjectId), RevFault>
    ensures ok { IfOk result (λ found. R.is_honest → EndsGive (R.source (R.view_of repo.old)) (ends_view ends.now) (Ok found)) }
    ensures refused { Refuses R.is_honest R.source R.blames (R.view_of repo.old) (λ s. EndsAsk s (ends_view ends.now)) (λ s. EndsGive s (ends_view ends.now)) result }

    ensures kept { R.state_of repo.new ≡ R.state_of repo.old }
    ensures seen { R.view_of repo.new ≡ R.view_of repo.old }
    ensures wear { Wears R.failed R.can_fail R.left repo.old repo.new (IsErrOf result (RevFault.Source (SourceFault.Store (StoreFault.Fault Fault.Device)))) }
{
    match ends {
        Ends::Both(first, second) => both(alloc, repo, first, second),
        Ends::From(first) => both(alloc, repo, first, &head(alloc)),
        Ends::To(second) => both(alloc, repo, &head(alloc), second),
    }
}

/// A base, its steps, and one more to the n-th parent. That step stands nowhere in the source.
fn nth_of<'a>(alloc: Global, rev: &Rev<'a>, n: u32) -> Result<Rev<'a>, AllocError>
    ensures { IfOk result (λ found. rev_view found ≡ nth_of (rev_view rev.now) n) }
{
    let mut steps = rev.steps.as_slice().to_vec(alloc)?;
    steps.push(StepToken {
        step: Step::Parent(n),
        start: 0,
        text: b"",
    })?;
    Ok(Rev {
        base: rev.base,
        steps,
    })
}

/// What is between the n-th parent of a commit and the commit.
fn since<R: Repository>(
    alloc: Global,
    repo: &mut R,
    rev: &Rev<'_>,
    n: u32,
) -> Result<Roots, RevFault>
    ensures ok { IfOk result (λ found. R.is_honest → TermGives (R.source (R.view_of repo.old)) (Since (rev_view rev.now) n) (Ok (roots_view found))) }
    ensures refused { Refuses R.is_honest R.source R.blames (R.view_of repo.old) (λ s. TermAsks s (Since (rev_view rev.now) n)) (λ s. TermGives s (Since (rev_view rev.now) n)) result }

    ensures kept { R.state_of repo.new ≡ R.state_of repo.old }
    ensures seen { R.view_of repo.new ≡ R.view_of repo.old }
    ensures wear { Wears R.failed R.can_fail R.left repo.old repo.new (IsErrOf result (RevFault.Source (SourceFault.Store (StoreFault.Fault Fault.Device)))) }
{
    let parent = nth_of(alloc, rev, n)?;
    let (first, second) = both(alloc, repo, &parent, rev)?;
    Ok(Roots::between(alloc, first, second)?)
}

/// What is between the ends of a range.
fn range<R: Repository>(alloc: Global, repo: &mut R, ends: &Ends<'_>) -> Result<Roots, RevFault>
    ensures ok { IfOk result (λ found. R.is_honest → TermGives (R.source (R.view_of repo.old)) (Range (ends_view ends.now)) (Ok (roots_view found))) }
    ensures refused { Refuses R.is_honest R.source R.blames (R.view_of repo.old) (λ s. TermAsks s (Range (ends_view ends.now))) (λ s. TermGives s (Range (ends_view ends.now))) result }

    ensures kept { R.state_of repo.new ≡ R.state_of repo.old }
    ensures seen { R.view_of repo.new ≡ R.view_of repo.old }
    ensures wear { Wears R.failed R.can_fail R.left repo.old repo.new (IsErrOf result (RevFault.Source (SourceFault.Store (StoreFault.Fault Fault.Device)))) }
{
    let (first, second) = ends_value(alloc, repo, ends)?;
    Ok(Roots::between(alloc, first, second)?)
}

/// What the ends of a range don't have in common.
fn symmetric<R: Repository>(alloc: Global, repo: &mut R, ends: &Ends<'_>) -> Result<Roots, RevFault>
    ensures ok { IfOk result (λ found. R.is_honest → TermGives (R.source (R.view_of repo.old)) (Symmetric (ends_view ends.now)) (Ok (roots_view found))) }
    ensures refused { Refuses R.is_honest R.source R.blames (R.view_of repo.old) (λ s. TermAsks s (Symmetric (ends_view ends.now))) (λ s. TermGives s (Symmetric (ends_view ends.now))) result }

    ensures kept { R.state_of repo.new ≡ R.state_of repo.old }
    ensures seen { R.view_of repo.new ≡ R.view_of repo.old }
    ensures wear { Wears R.failed R.can_fail R.left repo.old repo.new (IsErrOf result (RevFault.Source (SourceFault.Store (StoreFault.Fault Fault.Device)))) }
{
    let (first, second) = ends_value(alloc, repo, ends)?;
    Ok(Roots::apart(alloc, first, second)?)
}

/// What a term includes and excludes.
fn term_roots<R: Repository>(
    alloc: Global,
    repo: &mut R,
    term: &Term<'_>,
) -> Result<Roots, RevFault>
    ensures ok { IfOk result (λ found. R.is_honest → TermGives (R.source (R.view_of repo.old)) (term_view term.now) (Ok (roots_view found))) }
    ensures refused { Refuses R.is_honest R.source R.blames (R.view_of repo.old) (λ s. TermAsks s (term_view term.now)) (λ s. TermGives s (term_view term.now)) result }

    ensures kept { R.state_of repo.new ≡ R.state_of repo.old }
    ensures seen { R.view_of repo.new ≡ R.view_of repo.old }
    ensures wear { Wears R.failed R.can_fail R.left repo.old repo.new (IsErrOf result (RevFault.Source (SourceFault.Store (StoreFault.Fault Fault.Device)))) }
{
    match term {
        Term::Include(rev) => single(alloc, repo, rev, Use::Included),
        Term::Exclude(rev) => single(alloc, repo, rev, Use::Excluded),
        Term::Parents(rev) => single(alloc, repo, rev, Use::ParentsIncluded),
        Term::ExcludeParents(rev) => single(alloc, repo, rev, Use::ParentsExcluded),
        Term::Only(rev) => single(alloc, repo, rev, Use::Only),
        Term::Since(rev, n) => since(alloc, repo, rev, *n),
        Term::Range(ends) => range(alloc, repo, ends),
        Term::Symmetric(ends) => symmetric(alloc, repo, ends),
    }
}

/// What the terms of a set include and exclude, one after another.
pub(crate) fn set_roots<R: Repository>(
    alloc: Global,
    repo: &mut R,
    terms: &[Term<'_>],
) -> Result<Roots, RevFault>
    ensures ok { IfOk result (λ found. R.is_honest → SetGives (R.source (R.view_of repo.old)) (map term_view terms.now) (Ok (roots_view found))) }
    ensures refused { Refuses R.is_honest R.source R.blames (R.view_of repo.old) (λ s. TermsAsk s (map term_view terms.now)) (λ s. SetGives s (map term_view terms.now)) result }

    ensures kept { R.state_of repo.new ≡ R.state_of repo.old }
    ensures seen { R.view_of repo.new ≡ R.view_of repo.old }
    ensures wear { Wears R.failed R.can_fail R.left repo.old repo.new (IsErrOf result (RevFault.Source (SourceFault.Store (StoreFault.Fault Fault.Device)))) }
{
    let mut roots = Roots::none(alloc);
    'terms: for term in terms {
        let more = term_roots(alloc, repo, term)?;
        roots.append(&more)?;
    }
    Ok(roots)
}
