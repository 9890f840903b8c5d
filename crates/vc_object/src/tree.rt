//! Whether a body is a tree's.

ghost use Rattle.std.specs.Prelude.{◌≡◌, ◌↔◌, ◌≤◌, ◌++◌, ◌∷◌, List, ℕ, length, Some, IsTrue, IsOk, IfErr, MatchResult};
ghost use Rattle.std.specs.Ordering.{nat_cmp};
ghost use Rattle.std.specs.Cmp.Lexicographic.{slice_cmp};
ghost use Rattle.std.specs.declared.cmp.Ordering.TheVariants.{Less};
ghost use Rattle.vc_object.specs.Bytes.{Without};
ghost use Rattle.vc_object.specs.Tree.{IsName, IsTreeBody, HasName, key, mode_text};
ghost use Rattle.vc_object.specs.TreeFault.{ModeFault, NameFault, EntryFault, TreeFault, NextEntry, Judged};
ghost use Rattle.vc_object.specs.Following.{BehindTree, CoversNext};
ghost use Rattle.vc_object.specs.Entries.{entries_of};
ghost use Rattle.vc_object.specs.EntryView.{entry_view};
ghost use Rattle.vc_object.specs.declared.fault.ObjectFault.{ObjectFault};

use crate::bytes::cut_at;
use crate::entries::{TreeEntries, TreeEntry};
use crate::fault::ObjectFault;
use crate::id::ObjectId;
use crate::lengths::Lengths;
use crate::mode::Mode;
use std::cmp::Ordering;

/// Whether a text without a NUL may be a name.
fn is_name(text: &[u8]) -> bool
    requires { Without 0 text.now }
    ensures { IsTrue result ↔ IsName text.now }
{
    if text.is_empty() || text.contains(&b'/') {
        return false;
    }
    match text {
        b"." | b".." => false,
        _ => !text.eq_ignore_ascii_case(b".git"),
    }
}

/// The mode at the front, and what follows its space.
fn mode_at(bytes: &[u8]) -> Result<(Mode, &[u8]), ObjectFault>
    ensures { MatchResult result (λ found. bytes.now ≡ mode_text found.0 ++ 32 ∷ found.1.now) (ModeFault bytes.now) }
{
    let Some((text, rest)) = cut_at(bytes, b' ') else {
        return Err(ObjectFault::Cut);
    };
    match Mode::from_text(text) {
        Some(mode) => Ok((mode, rest)),
        None => Err(ObjectFault::BadMode),
    }
}

/// The name at the front, and what follows its NUL.
fn name_at(bytes: &[u8]) -> Result<(&[u8], &[u8]), ObjectFault>
    ensures { MatchResult result (λ found. IsName found.0.now × (bytes.now ≡ found.0.now ++ 0 ∷ found.1.now)) (NameFault bytes.now) }
{
    let Some((name, rest)) = cut_at(bytes, 0) else {
        return Err(ObjectFault::Cut);
    };
    if is_name(name) {
        Ok((name, rest))
    } else {
        Err(ObjectFault::BadName)
    }
}

/// Whether an entry of the bytes has the name.
fn has_name(bytes: &[u8], name: &[u8]) -> bool
    ensures { IsTrue result ↔ HasName (entries_of bytes.now) name.now }
{
    for entry in (TreeEntries { rest: bytes }) {
        if entry.name == name {
            return true;
        }
    }
    false
}

/// How an entry stands to one of this mode and name.
fn compare(entry: TreeEntry<'_>, mode: Mode, name: &[u8]) -> Ordering
    ensures { result ≡ slice_cmp nat_cmp (key entry.entry.mode entry.entry.name.now) (key mode name.now) }
{
    let left = entry.name.iter().chain(entry.mode.tail().iter());
    let right = name.iter().chain(mode.tail().iter());
    left.cmp(right)
}

/// Whether an entry of this mode and name may follow those of the bytes, of which `last` is the last.
fn judge(
    before: &[u8],
    last: Option<TreeEntry<'_>>,
    lengths: &Lengths,
    mode: Mode,
    name: &[u8],
) -> Result<(), ObjectFault>
    ensures { BehindTree before.now last.entry lengths.now (λ entries. IsName name.now → Judged entries mode name.now result) }
{
    let Some(last) = last else {
        return Ok(());
    };
    match compare(last, mode, name) {
        Ordering::Less => {}
        _ if has_name(before, name) => return Err(ObjectFault::DuplicateName),
        _ => return Err(ObjectFault::NotSorted),
    }
    // Between a file and a folder of its name stand only names that begin with it.
    if !last.name.starts_with(name) {
        return Ok(());
    }
    if name.len() < last.name.len() && !lengths.may_have(name.len()) {
        return Ok(());
    }
    if has_name(before, name) {
        return Err(ObjectFault::DuplicateName);
    }
    Ok(())
}

/// The entry at the front, which follows those of `before`, and what follows it.
fn next_entry<'a>(
    before: &[u8],
    last: Option<TreeEntry<'_>>,
    lengths: &Lengths,
    bytes: &'a [u8],
) -> Result<(TreeEntry<'a>, &'a [u8]), ObjectFault>
    ensures { BehindTree before.now last.entry lengths.now (λ entries. MatchResult result (λ found. NextEntry entries bytes.now (entry_view found.0) found.1.now) (EntryFault entries bytes.now)) }
{
    let (mode, rest) = mode_at(bytes)?;
    let (name, rest) = name_at(rest)?;
    judge(before, last, lengths, mode, name)?;
    let Some((id, rest)) = rest.split_at_checked(20) else {
        return Err(ObjectFault::Cut);
    };
    let mut raw = [0; 20];
    raw.copy_from_slice(id);
    Ok((
        TreeEntry {
            mode,
            name,
            id: ObjectId(raw),
        },
        rest,
    ))
}

/// How many bytes two texts share at their fronts, or more.
fn shared(left: &[u8], right: &[u8]) -> usize
    ensures { (front s t : List ℕ) → left.now ≡ front ++ s → right.now ≡ front ++ t → length front ≤ result }
{
    let mut n = 0;
    while n < left.len() && n < right.len() && left[n] == right[n] {
        n += 1;
    }
    n
}

/// Makes the lengths those of the next entry, which has this name.
fn follow(lengths: &mut Lengths, last: Option<TreeEntry<'_>>, name: &[u8])
    ensures { CoversNext last.entry name.now lengths.old lengths.new }
{
    let Some(last) = last else {
        return;
    };
    if name.starts_with(last.name) {
        lengths.add(last.name.len());
        return;
    }
    if !lengths.is_empty() {
        lengths.keep(shared(last.name, name));
    }
}

/// Whether the body is a tree's.
fn walk(body: &[u8]) -> Result<(), ObjectFault>
    ensures exact { IsOk result ↔ IsTreeBody body.now }
    ensures fault { IfErr result (TreeFault body.now) }
{
    let mut rest = body;
    let mut last = None;
    let mut lengths = Lengths::new();
    while !rest.is_empty() {
        let before = &body[..body.len() - rest.len()];
        let (entry, after) = next_entry(before, last, &lengths, rest)?;
        follow(&mut lengths, last, entry.name);
        last = Some(entry);
        rest = after;
    }
    Ok(())
}

/// Whether the body is a tree's, or which fault it has: the first one.
pub(crate) fn check_tree(body: &[u8]) -> Result<(), ObjectFault>
    ensures exact { IsOk result ↔ IsTreeBody body.now }
    ensures fault { IfErr result (TreeFault body.now) }
    ensures only { (e : ObjectFault) → TreeFault body.now e → result ≡ Err e }
{
    walk(body)
}
