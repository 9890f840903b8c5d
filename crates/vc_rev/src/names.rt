//! The values of names: refs and ids.

ghost use Rattle.std.specs.Prelude.{◌≡◌, ◌++◌, Ok, MatchOption, IfOk, IfErr, IsErrOf, map};
ghost use Rattle.std.specs.Char.{is_ascii_hexdigit};
ghost use Rattle.std.specs.List.{list_all};
ghost use Rattle.vc_files.specs.Failures.{Wears};
ghost use Rattle.vc_rev.specs.Answer.{IsNoAnswer, Refuses};
ghost use Rattle.vc_rev.specs.Asking.{DigitsAsk, FirstValueAsks, HeadAsks, NameAsks, RefAsks, ShortAsks};
ghost use Rattle.vc_rev.specs.Meaning.{IsFullName, RefGives, FirstValue, DigitsGive, ShortGives, HeadGives, NameGives, id_of, is_head, is_prefix, places, the_one};

use crate::refusal::{Refusal, RevFault, SourceFault};
use crate::repository::Repository;
use std::alloc::{AllocError, Global};
use std::str;
use vc_files::Fault;
use vc_object::ObjectId;
use vc_object_map::StoreFault;
use vc_refname::RefName;

/// The whole name of a ref that the text is.
pub(crate) fn full_name(alloc: Global, text: &[u8]) -> Result<Option<RefName>, RevFault>
    ensures ok { IfOk result (λ found. MatchOption found (IsFullName text.now → ⊥) (λ name. (name ≡ text.now) × IsFullName text.now)) }
    ensures fault { IfErr result (λ e. e ≡ RevFault.Source (SourceFault.Store (StoreFault.Fault Fault.Memory))) }
{
    let Ok(text) = str::from_utf8(text) else {
        return Ok(None);
    };
    if !text.as_bytes().starts_with(b"refs/") {
        return Ok(None);
    }
    if RefName::check(text).is_err() {
        return Ok(None);
    }
    match RefName::new(alloc, text) {
        Ok(name) => Ok(Some(name)),
        Err(_) => Err(RevFault::Source(SourceFault::Store(StoreFault::Fault(Fault::Memory)))),
    }
}

/// One text behind another.
pub(crate) fn joined(alloc: Global, front: &[u8], text: &[u8]) -> Result<Vec<u8>, AllocError>
    ensures { IfOk result (λ all. all.items ≡ front.now ++ text.now) }
{
    let mut all = front.to_vec(alloc)?;
    all.extend_from_slice(text)?;
    Ok(all)
}

/// Whether the text is hex digits alone.
fn all_digits(text: &[u8]) -> bool
    ensures { result ≡ list_all is_ascii_hexdigit text.now }
{
    text.iter().all(|byte| byte.is_ascii_hexdigit())
}

/// Whether the text is 1 to 39 hex digits.
pub(crate) fn is_prefix(text: &[u8]) -> bool
    ensures { result ≡ is_prefix text.now }
{
    if text.is_empty() {
        return false;
    }
    if text.len() >= 40 {
        return false;
    }
    all_digits(text)
}

/// The one name of a list.
pub(crate) fn the_one(ids: &[ObjectId]) -> Result<ObjectId, Refusal>
    ensures { result ≡ the_one ids.now }
{
    match ids {
        [] => Err(Refusal::Unknown),
        [id] => Ok(*id),
        _ => Err(Refusal::Ambiguous),
    }
}

/// The value of the ref whose whole name the text is.
pub(crate) fn ref_value<R: Repository>(
    alloc: Global,
    repo: &mut R,
    text: &[u8],
) -> Result<Option<ObjectId>, RevFault>
    ensures ok { IfOk result (λ found. R.is_honest → RefGives (R.source (R.view_of repo.old)) text.now found) }
    ensures refused { Refuses R.is_honest R.source R.blames (R.view_of repo.old) (λ _. RefAsks text.now) (λ _. IsNoAnswer) result }

    ensures kept { R.state_of repo.new ≡ R.state_of repo.old }
    ensures seen { R.view_of repo.new ≡ R.view_of repo.old }
    ensures wear { Wears R.failed R.can_fail R.left repo.old repo.new (IsErrOf result (RevFault.Source (SourceFault.Store (StoreFault.Fault Fault.Device)))) }
{
    let Some(name) = full_name(alloc, text)? else {
        return Ok(None);
    };
    let value = repo.ref_value(&name)?;
    Ok(value)
}

/// The one object whose name begins with these digits.
pub(crate) fn digits_value<R: Repository>(repo: &mut R, name: &[u8]) -> Result<ObjectId, RevFault>
    ensures ok { IfOk result (λ found. R.is_honest → DigitsGive (R.source (R.view_of repo.old)) name.now (Ok found)) }
    ensures refused { Refuses R.is_honest R.source R.blames (R.view_of repo.old) (λ _. DigitsAsk name.now) (λ s. DigitsGive s name.now) result }

    ensures kept { R.state_of repo.new ≡ R.state_of repo.old }
    ensures seen { R.view_of repo.new ≡ R.view_of repo.old }
    ensures wear { Wears R.failed R.can_fail R.left repo.old repo.new (IsErrOf result (RevFault.Source (SourceFault.Store (StoreFault.Fault Fault.Device)))) }
{
    if !is_prefix(name) {
        return Err(RevFault::Refused(Refusal::Unknown));
    }
    if name.len() < 4 {
        return Err(RevFault::Refused(Refusal::TooShort));
    }
    let ids = repo.by_prefix(name)?;
    match the_one(&ids) {
        Ok(id) => Ok(id),
        Err(refusal) => Err(RevFault::Refused(refusal)),
    }
}

/// The value of the first of the refs that has one.
fn first_value<R: Repository>(
    alloc: Global,
    repo: &mut R,
    names: &[Vec<u8>],
) -> Result<Option<ObjectId>, RevFault>
    ensures ok { IfOk result (λ found. R.is_honest → FirstValue (R.source (R.view_of repo.old)) (map (λ name. name.items) names.now) found) }
    ensures refused { Refuses R.is_honest R.source R.blames (R.view_of repo.old) (λ s. FirstValueAsks s (map (λ name. name.items) names.now)) (λ _. IsNoAnswer) result }

    ensures kept { R.state_of repo.new ≡ R.state_of repo.old }
    ensures seen { R.view_of repo.new ≡ R.view_of repo.old }
    ensures wear { Wears R.failed R.can_fail R.left repo.old repo.new (IsErrOf result (RevFault.Source (SourceFault.Store (StoreFault.Fault Fault.Device)))) }
{
    for name in names {
        if let Some(id) = ref_value(alloc, repo, name)? {
            return Ok(Some(id));
        }
    }
    Ok(None)
}

/// The value of the first ref that a short name stands for.
fn short_value<R: Repository>(
    alloc: Global,
    repo: &mut R,
    name: &[u8],
) -> Result<Option<ObjectId>, RevFault>
    ensures ok { IfOk result (λ found. R.is_honest → FirstValue (R.source (R.view_of repo.old)) (places name.now) found) }
    ensures refused { Refuses R.is_honest R.source R.blames (R.view_of repo.old) (λ s. FirstValueAsks s (places name.now)) (λ _. IsNoAnswer) result }

    ensures kept { R.state_of repo.new ≡ R.state_of repo.old }
    ensures seen { R.view_of repo.new ≡ R.view_of repo.old }
    ensures wear { Wears R.failed R.can_fail R.left repo.old repo.new (IsErrOf result (RevFault.Source (SourceFault.Store (StoreFault.Fault Fault.Device)))) }
{
    let whole = joined(alloc, b"", name)?;
    let below = joined(alloc, b"refs/", name)?;
    let tag = joined(alloc, b"refs/tags/", name)?;
    let branch = joined(alloc, b"refs/heads/", name)?;
    let remote = joined(alloc, b"refs/remotes/", name)?;
    let head = joined(alloc, name, b"/HEAD")?;
    let remote_head = joined(alloc, b"refs/remotes/", &head)?;
    let names = [whole, below, tag, branch, remote, remote_head];
    let value = first_value(alloc, repo, &names)?;
    Ok(value)
}

/// What a name gives by a ref, or else by the digits that it is.
fn short_or_digits<R: Repository>(
    alloc: Global,
    repo: &mut R,
    name: &[u8],
) -> Result<ObjectId, RevFault>
    ensures ok { IfOk result (λ found. R.is_honest → ShortGives (R.source (R.view_of repo.old)) name.now (Ok found)) }
    ensures refused { Refuses R.is_honest R.source R.blames (R.view_of repo.old) (λ s. ShortAsks s name.now) (λ s. ShortGives s name.now) result }

    ensures kept { R.state_of repo.new ≡ R.state_of repo.old }
    ensures seen { R.view_of repo.new ≡ R.view_of repo.old }
    ensures wear { Wears R.failed R.can_fail R.left repo.old repo.new (IsErrOf result (RevFault.Source (SourceFault.Store (StoreFault.Fault Fault.Device)))) }
{
    let found = short_value(alloc, repo, name)?;
    match found {
        Some(id) => Ok(id),
        None => digits_value(repo, name),
    }
}

/// The value of HEAD.
fn head_value<R: Repository>(repo: &mut R) -> Result<ObjectId, RevFault>
    ensures ok { IfOk result (λ found. R.is_honest → HeadGives (R.source (R.view_of repo.old)) (Ok found)) }
    ensures refused { Refuses R.is_honest R.source R.blames (R.view_of repo.old) (λ _. HeadAsks) (λ s. HeadGives s) result }

    ensures kept { R.state_of repo.new ≡ R.state_of repo.old }
    ensures seen { R.view_of repo.new ≡ R.view_of repo.old }
    ensures wear { Wears R.failed R.can_fail R.left repo.old repo.new (IsErrOf result (RevFault.Source (SourceFault.Store (StoreFault.Fault Fault.Device)))) }
{
    let head = repo.head()?;
    match head {
        Some(id) => Ok(id),
        None => Err(RevFault::Refused(Refusal::Unknown)),
    }
}

/// Whether the name is HEAD's.
fn is_head(name: &[u8]) -> bool
    ensures { result ≡ is_head name.now }
{
    name == b"@".as_slice() || name == b"HEAD".as_slice()
}

/// The id that forty digits write.
fn id_of(name: &[u8]) -> Option<ObjectId>
    ensures { result ≡ id_of name.now }
{
    ObjectId::from_hex(name)
}

/// What a name gives: HEAD, an id, a ref, or the beginning of an id, in this order.
pub(crate) fn name_value<R: Repository>(
    alloc: Global,
    repo: &mut R,
    name: &[u8],
) -> Result<ObjectId, RevFault>
    ensures ok { IfOk result (λ found. R.is_honest → NameGives (R.source (R.view_of repo.old)) name.now (Ok found)) }
    ensures refused { Refuses R.is_honest R.source R.blames (R.view_of repo.old) (λ s. NameAsks s name.now) (λ s. NameGives s name.now) result }

    ensures kept { R.state_of repo.new ≡ R.state_of repo.old }
    ensures seen { R.view_of repo.new ≡ R.view_of repo.old }
    ensures wear { Wears R.failed R.can_fail R.left repo.old repo.new (IsErrOf result (RevFault.Source (SourceFault.Store (StoreFault.Fault Fault.Device)))) }
{
    if is_head(name) {
        return head_value(repo);
    }
    match id_of(name) {
        Some(id) => Ok(id),
        None => short_or_digits(alloc, repo, name),
    }
}
