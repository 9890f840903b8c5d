//! Rows about a clone's node. While it is open it holds the files.
ghost use Rattle.std.specs.Prelude.{◌≡◌, IfOk, true, nat_eq, codes};
ghost use Rattle.std.specs.List.{starts_with};
ghost use Rattle.vc_local.specs.Blames.{IsLocalHead};

use crate::bench::{Device, LocalClone, Repository, no_files};
use crate::store::kind_of;
use crate::words::{Names, bytes, cut, digits, file_mode, id_of};
use anyhow::{Context, Result, bail};
use std::alloc::Global;
use std::mem;
use vc_local::Staged;
use vc_node::CloneNode;
use vc_object::ObjectId;
use vc_refname::RefName;
use vc_refs::Head;

pub fn row(clone: &mut LocalClone, repository: &mut Repository, row: &str) -> Result<String> {
    let alloc = repository.alloc;
    let (verb, rest) = cut(row);
    match verb {
        "open" => open(clone, repository)?,
        "close" => close(clone, &mut repository.files)?,
        "author" => clone.author = bytes(alloc, rest)?,
        "committer" => clone.committer = bytes(alloc, rest)?,
        "commit" => return commit(clone, alloc, &repository.names, rest),
        _ => return call(clone, alloc, &repository.names, verb, rest),
    }
    Ok(String::new(alloc))
}

fn open(clone: &mut LocalClone, repository: &mut Repository) -> Result<()> {
    let alloc = repository.alloc;
    let files = mem::replace(&mut repository.files, no_files(alloc));
    match CloneNode::open(alloc, files) {
        Ok(node) => {
            clone.node = Some(node);
            Ok(())
        }
        Err((files, fault)) => {
            repository.files = files;
            Err(fault.into())
        }
    }
}

fn close(clone: &mut LocalClone, files: &mut Device) -> Result<()> {
    let Some(node) = clone.node.take() else {
        bail!("no node is open");
    };
    *files = node.close();
    Ok(())
}

// A call of the node, but for a commit.
fn call(
    clone: &mut LocalClone,
    alloc: Global,
    names: &Names,
    verb: &str,
    rest: &str,
) -> Result<String> {
    let Some(node) = &mut clone.node else {
        bail!("no node is open");
    };
    match verb {
        "write" => return write(alloc, node, rest),
        "add" => add(alloc, node, rest)?,
        "stage" => stage(alloc, node, names, rest)?,
        "unstage" => node.unstage(&bytes(alloc, rest)?)?,
        "load" => node.load_tree(&id_of(names, rest)?)?,
        "head" => node.set_head(&head_of(alloc, names, rest)?)?,
        "branch" => set_branch(alloc, node, names, rest)?,
        "delete" => node.delete_branch(&branch_of(alloc, rest)?)?,
        _ => bail!("no such row"),
    }
    Ok(String::new(alloc))
}

// Stores an object.
fn write(alloc: Global, node: &mut CloneNode<Device>, rest: &str) -> Result<String> {
    let (kind, body) = cut(rest);
    let body = bytes(alloc, body)?;
    let id = node.write(kind_of(kind)?, &body)?;
    Ok(digits(alloc, id)?)
}

// Puts a file with a mode, a path and a content into the index.
fn add(alloc: Global, node: &mut CloneNode<Device>, rest: &str) -> Result<()> {
    let (mode, rest) = cut(rest);
    let (path, text) = cut(rest);
    let (path, text) = (bytes(alloc, path)?, bytes(alloc, text)?);
    node.add(&path, file_mode(mode)?, &text)?;
    Ok(())
}

// Puts files into the index at once, with one mode: of each stands its path, `=` and the id of its blob.
fn stage(alloc: Global, node: &mut CloneNode<Device>, names: &Names, rest: &str) -> Result<()> {
    let (mode, words) = cut(rest);
    let mode = file_mode(mode)?;
    let mut files = Vec::new(alloc);
    for word in words.split_whitespace() {
        let (path, id) = word.split_once('=').context("no id of a blob")?;
        let (path, id) = (bytes(alloc, path)?, id_of(names, id)?);
        files.push(Staged { path, mode, id })?;
    }
    node.stage_all(&files)?;
    Ok(())
}

// The objects that the words name.
fn ids_of(alloc: Global, names: &Names, words: &str) -> Result<Vec<ObjectId>> {
    let mut ids = Vec::new(alloc);
    for word in words.split_whitespace() {
        ids.push(id_of(names, word)?)?;
    }
    Ok(ids)
}

// Commits the index with a message, and further parents behind HEAD's commit.
fn commit(clone: &mut LocalClone, alloc: Global, names: &Names, rest: &str) -> Result<String> {
    let (message, words) = cut(rest);
    let message = bytes(alloc, message)?;
    let parents = ids_of(alloc, names, words)?;
    let Some(node) = &mut clone.node else {
        bail!("no node is open");
    };
    match node.commit(&parents, &clone.author, &clone.committer, &message) {
        Ok(id) => Ok(digits(alloc, id)?),
        Err(fault) => Err(fault.into()),
    }
}

// The branch of this name.
fn branch_of(alloc: Global, text: &str) -> Result<RefName>
    ensures { IfOk result (λ name. starts_with nat_eq name (codes "refs/heads/") ≡ true) }
{
    match RefName::new(alloc, text) {
        Ok(name) if name.is_branch() => Ok(name),
        _ => bail!("no branch"),
    }
}

// The branch of this name, or else the object that the word names.
fn head_of(alloc: Global, names: &Names, word: &str) -> Result<Head>
    ensures { IfOk result IsLocalHead }
{
    match branch_of(alloc, word) {
        Ok(branch) => Ok(Head::Branch(branch)),
        Err(_) => Ok(Head::Id(id_of(names, word)?)),
    }
}

fn set_branch(
    alloc: Global,
    node: &mut CloneNode<Device>,
    names: &Names,
    rest: &str,
) -> Result<()> {
    let (name, id) = cut(rest);
    node.set_branch(&branch_of(alloc, name)?, &id_of(names, id)?)?;
    Ok(())
}
