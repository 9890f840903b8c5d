//! What an object links to.

ghost use Rattle.std.specs.Prelude.{◌≡◌, ◌++◌, IfOk, OnOk, option_map};
ghost use Rattle.vc_object.specs.Entries.{entries_of};
ghost use Rattle.vc_object.specs.CommitView.{commit_view};
ghost use Rattle.vc_object.specs.CommitReading.{commit_of, tag_of};
ghost use Rattle.vc_object.specs.Links.{AreLinks, entry_links, commit_links, tag_links, links_of, parents_of};

use crate::commit::{Commit, read_commit};
use crate::entries::TreeEntries;
use crate::id::ObjectId;
use crate::kind::Kind;
use crate::mode::Mode;
use crate::object::Object;
use crate::tag::read_tag;
use crate::views::commit_of;
use std::alloc::{AllocError, Global};

fn tree_links(alloc: Global, body: &[u8]) -> Result<Vec<ObjectId>, AllocError>
    ensures { IfOk result (λ ids. ids.items ≡ entry_links (entries_of body.now)) }
{
    let mut ids = Vec::new(alloc);
    for entry in (TreeEntries { rest: body }) {
        match entry.mode {
            Mode::Commit => {}
            _ => ids.push(entry.id)?,
        }
    }
    Ok(ids)
}

// Adds the parents to the ids.
fn push_parents(ids: &mut Vec<ObjectId>, commit: &Commit<'_>) -> Result<(), AllocError>
    ensures { OnOk result (ids.new.items ≡ ids.old.items ++ (commit_view commit.now).parents) }
{
    for parent in commit.parents() {
        ids.push(parent)?;
    }
    Ok(())
}

fn commit_links(alloc: Global, body: &[u8]) -> Result<Vec<ObjectId>, AllocError>
    ensures { IfOk result (λ ids. ids.items ≡ commit_links (commit_of body.now)) }
{
    let mut ids = Vec::new(alloc);
    if let Some(commit) = read_commit(body) {
        ids.push(commit.tree)?;
        push_parents(&mut ids, &commit)?;
    }
    Ok(ids)
}

fn tag_links(alloc: Global, body: &[u8]) -> Result<Vec<ObjectId>, AllocError>
    ensures { IfOk result (λ ids. ids.items ≡ tag_links (tag_of body.now)) }
{
    let mut ids = Vec::new(alloc);
    if let Some(tag) = read_tag(body) {
        ids.push(tag.object)?;
    }
    Ok(ids)
}

fn read_links(alloc: Global, kind: Kind, body: &[u8]) -> Result<Vec<ObjectId>, AllocError>
    ensures { IfOk result (λ ids. ids.items ≡ links_of kind body.now) }
{
    match kind {
        Kind::Blob => Ok(Vec::new(alloc)),
        Kind::Tree => tree_links(alloc, body),
        Kind::Commit => commit_links(alloc, body),
        Kind::Tag => tag_links(alloc, body),
    }
}

/// The ids that the object links to, in the order of its body: of a tree its entries' ids but for those of mode
/// `160000`, of a commit its tree and its parents, of a tag its object. An id that stands twice is given twice.
pub fn links(alloc: Global, object: &Object<'_>) -> Result<Vec<ObjectId>, AllocError>
    ensures value { IfOk result (λ ids. ids.items ≡ links_of object.now.kind object.now.body.now) }
    ensures links { IfOk result (λ ids. AreLinks object.now.kind object.now.body.now ids.items) }
{
    let ids = read_links(alloc, object.kind, object.body)?;
    Ok(ids)
}

/// The parents of a commit, in the order of its lines, and none for an object of another kind.
pub fn parents(alloc: Global, object: &Object<'_>) -> Result<Option<Vec<ObjectId>>, AllocError>
    ensures { IfOk result (λ found. option_map (λ ids. ids.items) found ≡ parents_of object.now.kind object.now.body.now) }
{
    let Some(commit) = commit_of(object) else {
        return Ok(None);
    };
    let mut ids = Vec::new(alloc);
    push_parents(&mut ids, &commit)?;
    Ok(Some(ids))
}
