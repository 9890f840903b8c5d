//! What a commit holds.

ghost use Rattle.std.specs.Prelude.{◌≡◌, IfSome};
ghost use Rattle.std.specs.Option.{option_map};
ghost use Rattle.vc_object.specs.Items.{after_items};
ghost use Rattle.vc_object.specs.CommitReading.{parent_at, commit_of};
ghost use Rattle.vc_object.specs.Commit.{CommitText, IsCommit, commit_bytes};
ghost use Rattle.vc_object.specs.CommitView.{commit_view, parents_left};

use crate::id::ObjectId;
use crate::lines::{id_line_at, line_at};

/// A commit. Its texts are slices of its body, and live as long as that.
#[derive(Clone, Copy)]
pub struct Commit<'a> {
    pub tree: ObjectId,
    // The lines of the parents, and what follows them.
    pub(crate) parents: &'a [u8],
    /// The text of the author's line, which holds no LF and may be empty.
    pub author: &'a [u8],
    pub committer: &'a [u8],
    /// What follows the committer's line: usually further headers, a blank line and the message. It may be any bytes.
    pub rest: &'a [u8],
}

impl<'a> Commit<'a> {
    /// The parents, in the order of their lines. Reading them takes no memory.
    pub fn parents(&self) -> Parents<'a>
        ensures { parents_left result ≡ (commit_view self.now).parents }
    {
        Parents { rest: self.parents }
    }
}

/// The parents of a commit, in the order of their lines.
#[derive(Clone, Copy)]
pub struct Parents<'a> {
    pub(crate) rest: &'a [u8],
}

impl<'a> Iterator for Parents<'a> {
    ghost use Rattle.std.specs.Iterator.{YieldsFirst, item_count};
    ghost use Rattle.vc_object.specs.CommitView.{parents_left};

    type Item = ObjectId;

    ghost next_gives = { YieldsFirst parents_left };

    ghost remaining = { item_count parents_left };

    fn next(&mut self) -> Option<ObjectId> {
        let (id, rest) = id_line_at(self.rest, b"parent ")?;
        self.rest = rest;
        Some(id)
    }
}

/// What stands behind the parent lines.
fn after_parents(bytes: &[u8]) -> &[u8]
    ensures { result.now ≡ after_items parent_at bytes.now }
{
    let mut rest = bytes;
    while let Some((_, after)) = id_line_at(rest, b"parent ") {
        rest = after;
    }
    rest
}

/// Reads a commit from the front.
#[tactic(auto, unfolding(crate::specs::CommitReading::commit_of))]
fn commit_at(body: &[u8]) -> Option<Commit<'_>>
    ensures { option_map commit_view result ≡ commit_of body.now }
{
    let (tree, parents) = id_line_at(body, b"tree ")?;
    let (author, rest) = line_at(after_parents(parents), b"author ")?;
    let (committer, rest) = line_at(rest, b"committer ")?;
    Some(Commit {
        tree,
        parents,
        author,
        committer,
        rest,
    })
}

/// Reads a commit's body.
pub(crate) fn read_commit(body: &[u8]) -> Option<Commit<'_>>
    ensures value { option_map commit_view result ≡ commit_of body.now }
    ensures only { (c : CommitText) → IsCommit c → body.now ≡ commit_bytes c → option_map commit_view result ≡ Some c }
    ensures read { IfSome result (λ c. IsCommit (commit_view c) × (body.now ≡ commit_bytes (commit_view c))) }
{
    commit_at(body)
}
