//! The values of expressions.

ghost use Rattle.std.specs.Prelude.{◌≡◌, ◌==◌, Ok, MatchResult, IfOk, IsErrOf};
ghost use Rattle.vc_files.specs.Failures.{Wears};
ghost use Rattle.vc_rev.specs.Answer.{IsAnswered, Refuses};
ghost use Rattle.vc_rev.specs.Asking.{ChildAsks, EntryAsks, ExprAsks, IndexAsks, PathAsks, RevAsks};
ghost use Rattle.vc_rev.specs.Meaning.{Answer, child_at, EntryGives, PathGives, IndexGives, RevGives, Denotes, components, is_folder};
ghost use Rattle.vc_expression.specs.Views.{rev_view, expr_view, parts_of};
ghost use Rattle.vc_expression.specs.Grammar.{InTree};
ghost use Rattle.vc_object.specs.declared.mode.Mode.TheVariants as modes;
ghost use Rattle.std.specs.List.{slice_split};

use crate::names::name_value;
use crate::object::entry_named;
use crate::refusal::{Refusal, RevFault, SourceFault};
use crate::repository::Repository;
use crate::steps::{pick_from, steps_value};
use std::alloc::{AllocError, Global};
use vc_expression::{Expr, Rev, Step};
use vc_files::Fault;
use vc_object::{Kind, Mode, ObjectId};
use vc_object_map::StoreFault;

/// What stands between the slashes of a path.
fn parts<'a>(alloc: Global, path: &'a [u8]) -> Result<Vec<&'a [u8]>, AllocError>
    ensures { IfOk result (λ parts. parts_of parts.items ≡ slice_split (λ byte. byte == 47) path.now) }
{
    path.split(|byte| *byte == b'/').collect(alloc)
}

/// The components of a path; the empty path has none.
fn components<'a>(alloc: Global, path: &'a [u8]) -> Result<Vec<&'a [u8]>, AllocError>
    ensures { IfOk result (λ parts. parts_of parts.items ≡ components path.now) }
{
    if path.is_empty() {
        return Ok(Vec::new(alloc));
    }
    let found = parts(alloc, path)?;
    Ok(found)
}

/// Whether the mode is a folder's.
fn is_folder(mode: Mode) -> bool
    ensures { result ≡ is_folder mode }
{
    match mode {
        Mode::Tree => true,
        _ => false,
    }
}

/// The mode and the id of the entry of this name.
fn child<R: Repository>(
    repo: &mut R,
    name: &[u8],
    mode: Mode,
    id: ObjectId,
) -> Result<(Mode, ObjectId), RevFault>
    ensures ok { IfOk result (λ found. R.is_honest → child_at (R.source (R.view_of repo.old)) name.now mode id ≡ Ok found) }
    ensures refused { Refuses R.is_honest R.source R.blames (R.view_of repo.old) (λ _. ChildAsks mode id) (λ s answer. answer ≡ child_at s name.now mode id) result }

    ensures kept { R.state_of repo.new ≡ R.state_of repo.old }
    ensures seen { R.view_of repo.new ≡ R.view_of repo.old }
    ensures wear { Wears R.failed R.can_fail R.left repo.old repo.new (IsErrOf result (RevFault.Source (SourceFault.Store (StoreFault.Fault Fault.Device)))) }
{
    if !is_folder(mode) {
        return Err(RevFault::Refused(Refusal::NoSuchPath));
    }
    let Some(object) = repo.find(&id)? else {
        return Err(RevFault::Refused(Refusal::Unknown));
    };
    match entry_named(&object, name) {
        Some(entry) => Ok((entry.mode, entry.id)),
        None => Err(RevFault::Refused(Refusal::NoSuchPath)),
    }
}

/// The entry at the end of some components, from a tree.
fn entry_value<R: Repository>(
    repo: &mut R,
    parts: &[&[u8]],
    tree: ObjectId,
) -> Result<ObjectId, RevFault>
    ensures ok { IfOk result (λ found. R.is_honest → EntryGives (R.source (R.view_of repo.old)) (parts_of parts.now) modes.Tree tree (Ok found)) }
    ensures refused { Refuses R.is_honest R.source R.blames (R.view_of repo.old) (λ s. EntryAsks s (parts_of parts.now) modes.Tree tree) (λ s. EntryGives s (parts_of parts.now) modes.Tree tree) result }

    ensures kept { R.state_of repo.new ≡ R.state_of repo.old }
    ensures seen { R.view_of repo.new ≡ R.view_of repo.old }
    ensures wear { Wears R.failed R.can_fail R.left repo.old repo.new (IsErrOf result (RevFault.Source (SourceFault.Store (StoreFault.Fault Fault.Device)))) }
{
    let mut mode = Mode::Tree;
    let mut at = tree;
    for part in parts {
        let found = child(repo, part, mode, at)?;
        mode = found.0;
        at = found.1;
    }
    Ok(at)
}

/// The entry at a path in the tree of an object.
fn path_value<R: Repository>(
    alloc: Global,
    repo: &mut R,
    id: ObjectId,
    path: &[u8],
) -> Result<ObjectId, RevFault>
    ensures ok { IfOk result (λ found. R.is_honest → PathGives (R.source (R.view_of repo.old)) path.now id (Ok found)) }
    ensures refused { Refuses R.is_honest R.source R.blames (R.view_of repo.old) (λ s. PathAsks s path.now id) (λ s. PathGives s path.now id) result }

    ensures kept { R.state_of repo.new ≡ R.state_of repo.old }
    ensures seen { R.view_of repo.new ≡ R.view_of repo.old }
    ensures wear { Wears R.failed R.can_fail R.left repo.old repo.new (IsErrOf result (RevFault.Source (SourceFault.Store (StoreFault.Fault Fault.Device)))) }
{
    let tree = pick_from(alloc, repo, Step::PeelTo(Kind::Tree), id)?;
    let parts = components(alloc, path)?;
    entry_value(repo, &parts, tree)
}

/// The value of a base and its steps.
pub fn rev_value<R: Repository>(
    alloc: Global,
    repo: &mut R,
    rev: &Rev<'_>,
) -> Result<ObjectId, RevFault>
    ensures ok { IfOk result (λ found. R.is_honest → RevGives (R.source (R.view_of repo.old)) (rev_view rev.now) (Ok found)) }
    ensures refused { Refuses R.is_honest R.source R.blames (R.view_of repo.old) (λ s. RevAsks s (rev_view rev.now)) (λ s. RevGives s (rev_view rev.now)) result }

    ensures kept { R.state_of repo.new ≡ R.state_of repo.old }
    ensures seen { R.view_of repo.new ≡ R.view_of repo.old }
    ensures wear { Wears R.failed R.can_fail R.left repo.old repo.new (IsErrOf result (RevFault.Source (SourceFault.Store (StoreFault.Fault Fault.Device)))) }
{
    let id = name_value(alloc, repo, rev.base.text)?;
    steps_value(alloc, repo, &rev.steps, id)
}

/// The id at a path of the index.
fn index_value<R: Repository>(repo: &mut R, path: &[u8]) -> Result<ObjectId, RevFault>
    ensures ok { IfOk result (λ found. R.is_honest → IndexGives (R.source (R.view_of repo.old)) path.now (Ok found)) }
    ensures refused { Refuses R.is_honest R.source R.blames (R.view_of repo.old) (λ _. IndexAsks path.now) (λ s. IndexGives s path.now) result }

    ensures kept { R.state_of repo.new ≡ R.state_of repo.old }
    ensures seen { R.view_of repo.new ≡ R.view_of repo.old }
    ensures wear { Wears R.failed R.can_fail R.left repo.old repo.new (IsErrOf result (RevFault.Source (SourceFault.Store (StoreFault.Fault Fault.Device)))) }
{
    let found = repo.index_entry(path)?;
    match found {
        Some(id) => Ok(id),
        None => Err(RevFault::Refused(Refusal::NoSuchPath)),
    }
}

/// The entry at a path in the tree of a base and its steps.
fn in_tree<R: Repository>(
    alloc: Global,
    repo: &mut R,
    rev: &Rev<'_>,
    path: &[u8],
) -> Result<ObjectId, RevFault>
    ensures ok { IfOk result (λ found. R.is_honest → Denotes (R.source (R.view_of repo.old)) (InTree (rev_view rev.now) path.now) (Ok found)) }
    ensures refused { Refuses R.is_honest R.source R.blames (R.view_of repo.old) (λ s. ExprAsks s (InTree (rev_view rev.now) path.now)) (λ s. Denotes s (InTree (rev_view rev.now) path.now)) result }

    ensures kept { R.state_of repo.new ≡ R.state_of repo.old }
    ensures seen { R.view_of repo.new ≡ R.view_of repo.old }
    ensures wear { Wears R.failed R.can_fail R.left repo.old repo.new (IsErrOf result (RevFault.Source (SourceFault.Store (StoreFault.Fault Fault.Device)))) }
{
    let id = rev_value(alloc, repo, rev)?;
    path_value(alloc, repo, id, path)
}

/// The value of an expression, or a refusal that it has.
fn expr_value<R: Repository>(
    alloc: Global,
    repo: &mut R,
    expr: &Expr<'_>,
) -> Result<ObjectId, RevFault>
    ensures ok { IfOk result (λ found. R.is_honest → Denotes (R.source (R.view_of repo.old)) (expr_view expr.now) (Ok found)) }
    ensures refused { Refuses R.is_honest R.source R.blames (R.view_of repo.old) (λ s. ExprAsks s (expr_view expr.now)) (λ s. Denotes s (expr_view expr.now)) result }

    ensures kept { R.state_of repo.new ≡ R.state_of repo.old }
    ensures seen { R.view_of repo.new ≡ R.view_of repo.old }
    ensures wear { Wears R.failed R.can_fail R.left repo.old repo.new (IsErrOf result (RevFault.Source (SourceFault.Store (StoreFault.Fault Fault.Device)))) }
{
    match expr {
        Expr::Object(rev) => rev_value(alloc, repo, rev),
        Expr::InTree(rev, path) => in_tree(alloc, repo, rev, path.text),
        Expr::InIndex(path) => index_value(repo, path.text),
    }
}

/// The value of an expression over refs, objects and an index.
///
/// A name is looked up as gitrevisions says: HEAD, forty digits, the refs, the beginning of an id. Each object is read when
/// a step needs it, and one that only stands at the end of the expression need not be stored. The refusals are 51 to 56; a
/// fault of the repository comes before what would be refused behind it.
pub fn resolve<R: Repository>(
    alloc: Global,
    repo: &mut R,
    expr: &Expr<'_>,
) -> Result<ObjectId, RevFault>
    ensures ok { IfOk result (λ found. R.is_honest → Denotes (R.source (R.view_of repo.old)) (expr_view expr.now) (Ok found)) }
    ensures refused { Refuses R.is_honest R.source R.blames (R.view_of repo.old) (λ s. ExprAsks s (expr_view expr.now)) (λ s. Denotes s (expr_view expr.now)) result }

    // What an expression denotes is answered, value or refusal, unless the repository gives no answer.
    ensures only { R.is_honest → (answer : Answer) → Denotes (R.source (R.view_of repo.old)) (expr_view expr.now) answer → MatchResult result (λ found. answer ≡ Ok found) (IsAnswered answer) }

    ensures kept { R.state_of repo.new ≡ R.state_of repo.old }
    ensures seen { R.view_of repo.new ≡ R.view_of repo.old }
    ensures wear { Wears R.failed R.can_fail R.left repo.old repo.new (IsErrOf result (RevFault.Source (SourceFault.Store (StoreFault.Fault Fault.Device)))) }
{
    expr_value(alloc, repo, expr)
}
