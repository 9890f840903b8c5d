// The text of an index, read and written.
ghost use Rattle.std.specs.Prelude.{◌≡◌, ◌++◌, true, OnOk, IfSome, option_map};
ghost use Rattle.vc_object.specs.ObjectId.{is_id};
ghost use Rattle.vc_index.specs.IndexText.{entry_text, mode_at, id_at, entry_at};

use crate::IndexEntry;
use std::alloc::AllocError;
use vc_object::{Mode, ObjectId, cut_at};

// The mode at the front, and what follows its space.
#[tactic(auto, unfolding(crate::specs::IndexText::mode_at))]
fn mode_at(bytes: &[u8]) -> Option<(Mode, &[u8])>
    ensures { option_map (λ found. (found.0, found.1.now)) result ≡ mode_at bytes.now }
{
    let (digits, rest) = bytes.split_at_checked(6)?;
    let mode = Mode::from_text(digits)?;
    let rest = rest.strip_prefix(b" ")?;
    Some((mode, rest))
}

// The id at the front, and what follows its stage and TAB.
#[tactic(auto, unfolding(crate::specs::IndexText::id_at))]
fn id_at(bytes: &[u8]) -> Option<(ObjectId, &[u8])>
    ensures value { option_map (λ found. (found.0, found.1.now)) result ≡ id_at bytes.now }
    ensures valid { IfSome result (λ found. is_id found.0 ≡ true) }
{
    let (digits, rest) = bytes.split_at_checked(40)?;
    let id = ObjectId::from_lower_hex(digits)?;
    let rest = rest.strip_prefix(b" 0\t")?;
    Some((id, rest))
}

/// The entry at the front, and what follows it.
#[tactic(auto, unfolding(crate::specs::IndexText::entry_at))]
pub(crate) fn entry_at(bytes: &[u8]) -> Option<(&[u8], IndexEntry, &[u8])>
    ensures value { option_map (λ found. (found.0.now, found.1, found.2.now)) result ≡ entry_at bytes.now }
    ensures valid { IfSome result (λ found. is_id found.1.id ≡ true) }
{
    let (mode, rest) = mode_at(bytes)?;
    let (id, rest) = id_at(rest)?;
    let (path, rest) = cut_at(rest, 0)?;
    Some((path, IndexEntry { mode, id }, rest))
}

/// Writes an entry behind the text.
pub(crate) fn push_entry(
    text: &mut Vec<u8>,
    path: &[u8],
    entry: IndexEntry,
) -> Result<(), AllocError>
    ensures { OnOk result (text.new.items ≡ text.old.items ++ entry_text path.now entry) }
{
    text.extend_from_slice(entry.mode.text())?;
    text.push(b' ')?;
    text.extend_from_slice(&entry.id.to_hex())?;
    text.extend_from_slice(b" 0\t")?;
    text.extend_from_slice(path)?;
    text.push(0)?;
    Ok(())
}
