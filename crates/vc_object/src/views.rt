//! An object as a tree, a commit or a tag.

ghost use Rattle.std.specs.Prelude.{◌≡◌, ◌≤◌, ◌↔◌, length, IsSome, IfSome, option_map};
ghost use Rattle.vc_object.specs.Tree.{IsTreeBody, IsTree, spelling};
ghost use Rattle.vc_object.specs.Entries.{entries_of};
ghost use Rattle.vc_object.specs.EntryView.{entries_left};
ghost use Rattle.vc_object.specs.Commit.{IsCommit, commit_bytes};
ghost use Rattle.vc_object.specs.Tag.{IsTag, tag_bytes};
ghost use Rattle.vc_object.specs.CommitView.{commit_view, tag_view};
ghost use Rattle.vc_object.specs.Links.{parents_of};

use crate::commit::{Commit, read_commit};
use crate::entries::TreeEntries;
use crate::kind::Kind;
use crate::object::Object;
use crate::tag::{Tag, read_tag};

/// A tree: a body that spells one.
#[derive(Clone, Copy)]
pub struct Tree<'a> {
    pub body: &'a [u8],
    pub ghost sound: { ∥ IsTreeBody body.now ∥₁ },
}

impl<'a> Tree<'a> {
    /// The entries, in the order of the body.
    pub fn entries(&self) -> TreeEntries<'a>
        ensures value { entries_left result ≡ entries_of self.now.body.now }
        ensures spelled { spelling (entries_left result) ≡ self.now.body.now }
        ensures tree { ∥ IsTree (entries_left result) ∥₁ }
        ensures few { length (entries_left result) ≤ length self.now.body.now }
    {
        TreeEntries { rest: self.body }
    }
}

/// The tree that the object is; none for another kind. Takes no memory.
pub fn tree_of<'a>(object: &Object<'a>) -> Option<Tree<'a>>
    ensures found { IsSome result ↔ (object.now.kind ≡ Kind.Tree) }
    ensures body { IfSome result (λ tree. tree.body.now ≡ object.now.body.now) }
{
    match object.kind {
        Kind::Tree => Some(Tree { body: object.body }),
        _ => None,
    }
}

/// The commit that the object is; none for another kind. Takes no memory.
pub fn commit_of<'a>(object: &Object<'a>) -> Option<Commit<'a>>
    ensures found { IsSome result ↔ (object.now.kind ≡ Kind.Commit) }
    ensures parents { option_map (λ c. (commit_view c).parents) result ≡ parents_of object.now.kind object.now.body.now }
    ensures read { IfSome result (λ c. IsCommit (commit_view c) × (object.now.body.now ≡ commit_bytes (commit_view c))) }
{
    match object.kind {
        Kind::Commit => read_commit(object.body),
        _ => None,
    }
}

/// The tag that the object is; none for another kind. Takes no memory.
pub fn tag_of<'a>(object: &Object<'a>) -> Option<Tag<'a>>
    ensures found { IsSome result ↔ (object.now.kind ≡ Kind.Tag) }
    ensures read { IfSome result (λ t. IsTag (tag_view t) × (object.now.body.now ≡ tag_bytes (tag_view t))) }
{
    match object.kind {
        Kind::Tag => read_tag(object.body),
        _ => None,
    }
}
