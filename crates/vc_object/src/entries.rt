//! The entries of a tree.

ghost use Rattle.std.specs.Prelude.{◌≡◌};
ghost use Rattle.std.specs.Option.{option_map};
ghost use Rattle.vc_object.specs.Entries.{entry_at};
ghost use Rattle.vc_object.specs.EntryView.{entry_view};

use crate::bytes::cut_at;
use crate::id::ObjectId;
use crate::mode::Mode;

/// An entry of a tree. Its name is a slice of the tree's body, and lives as long as that.
#[derive(Clone, Copy)]
pub struct TreeEntry<'a> {
    pub mode: Mode,
    pub name: &'a [u8],
    pub id: ObjectId,
}

/// The entries of a tree, in the order of its body. Reading them takes no memory.
#[derive(Clone, Copy)]
pub struct TreeEntries<'a> {
    pub(crate) rest: &'a [u8],
}

/// The entry at the front, and what follows it.
#[tactic(auto, unfolding(crate::specs::Entries::entry_at))]
fn entry_at(bytes: &[u8]) -> Option<(TreeEntry<'_>, &[u8])>
    ensures { option_map (λ found. (entry_view found.0, found.1.now)) result ≡ entry_at bytes.now }
{
    let (text, rest) = cut_at(bytes, b' ')?;
    let mode = Mode::from_text(text)?;
    let (name, rest) = cut_at(rest, 0)?;
    let (id, rest) = rest.split_at_checked(20)?;
    let mut raw = [0; 20];
    raw.copy_from_slice(id);
    Some((
        TreeEntry {
            mode,
            name,
            id: ObjectId(raw),
        },
        rest,
    ))
}

impl<'a> Iterator for TreeEntries<'a> {
    ghost use Rattle.std.specs.Iterator.{YieldsFirstBy, item_count};
    ghost use Rattle.vc_object.specs.EntryView.{entry_view, entries_left};

    type Item = TreeEntry<'a>;

    ghost next_gives = { YieldsFirstBy entry_view entries_left };

    ghost remaining = { item_count entries_left };

    fn next(&mut self) -> Option<TreeEntry<'a>> {
        let (entry, rest) = entry_at(self.rest)?;
        self.rest = rest;
        Some(entry)
    }
}
