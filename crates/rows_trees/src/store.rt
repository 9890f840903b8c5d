//! Rows about the files of a store: its objects, its refs and HEAD, and files as such.
use crate::bench::{Device, Repository, no_files};
use crate::words::{bytes, cut, digits, id_of, or_word, push_item};
use anyhow::{Context, Result, bail};
use std::alloc::{AllocError, Global};
use std::mem;
use vc_files::{Files, FusedFiles};
use vc_graph::is_complete;
use vc_object::{Kind, ObjectId};
use vc_refname::RefName;
use vc_refs::Head;
use vc_store::Store;

pub fn row(repository: &mut Repository, row: &str) -> Result<String> {
    let alloc = repository.alloc;
    let (verb, rest) = cut(row);
    let (name, text) = cut(rest);
    match verb {
        "new" => repository.files = no_files(alloc),
        "stop-after" => repository.files.stop_after(rest.parse::<u64>()?),
        "restart" => restart(alloc, &mut repository.files),
        "file" => file(alloc, &mut repository.files, name, text)?,
        "put" => return put(repository, name, text),
        "tree" => return tree(repository, name, text),
        "nest" => return nest(repository, name, text),
        "refs" => return refs(alloc, &mut repository.files),
        "head" => return head(alloc, &mut repository.files),
        _ => bail!("no such row"),
    }
    Ok(String::new(alloc))
}

// Opens the files again, after a stop.
fn restart(alloc: Global, files: &mut Device) {
    let stopped = mem::replace(files, no_files(alloc));
    *files = FusedFiles::new(stopped.into_inner());
}

fn file(alloc: Global, files: &mut Device, path: &str, text: &str) -> Result<()> {
    let bytes = bytes(alloc, text)?;
    files.put(alloc, path, &bytes)?;
    Ok(())
}

/// The kind of objects that a word names.
pub fn kind_of(word: &str) -> Result<Kind> {
    Kind::from_word(word.as_bytes()).context("no kind")
}

// Stores an object, and gives it a name.
fn call(repository: &mut Repository, name: &str, kind: Kind, body: &[u8]) -> Result<String> {
    let id = vc_store::put(&mut repository.files, repository.alloc, kind, body)?;
    Ok(repository.call(name, id)?)
}

// Stores an object of a kind and a body, and gives it a name.
fn put(repository: &mut Repository, name: &str, text: &str) -> Result<String> {
    let (kind, body) = cut(text);
    let body = bytes(repository.alloc, body)?;
    call(repository, name, kind_of(kind)?, &body)
}

// Writes an entry of a tree behind others.
fn push_entry(body: &mut Vec<u8>, mode: &str, name: &[u8], id: ObjectId) -> Result<(), AllocError> {
    body.extend_from_slice(mode.as_bytes())?;
    body.push(b' ')?;
    body.extend_from_slice(name)?;
    body.push(0)?;
    body.extend_from_slice(&id.0)
}

// The same of an entry that a row spells: a mode, a name and a name of an object.
fn push_spelled(body: &mut Vec<u8>, repository: &Repository, entry: &str) -> Result<()> {
    let (mode, rest) = cut(entry);
    let (name, id) = cut(rest);
    let name = bytes(repository.alloc, name)?;
    push_entry(body, mode, &name, id_of(&repository.names, id)?)?;
    Ok(())
}

// Stores a tree of some entries, and gives it a name.
fn tree(repository: &mut Repository, name: &str, entries: &str) -> Result<String> {
    let mut body = Vec::new(repository.alloc);
    for entry in entries.split(" | ") {
        push_spelled(&mut body, repository, entry)?;
    }
    call(repository, name, Kind::Tree, &body)
}

// Stores a tree of one folder.
fn put_folder(repository: &mut Repository, id: ObjectId) -> Result<ObjectId> {
    let mut body = Vec::new(repository.alloc);
    push_entry(&mut body, "40000", b"d", id)?;
    Ok(vc_store::put(&mut repository.files, repository.alloc, Kind::Tree, &body)?)
}

// Lays a tree into a tree as the folder `d`, that one into another, and so on so often.
fn nest(repository: &mut Repository, name: &str, rest: &str) -> Result<String> {
    let (count, inner) = cut(rest);
    let mut id = id_of(&repository.names, inner)?;
    for _ in 0..count.parse::<u32>()? {
        id = put_folder(repository, id)?;
    }
    Ok(repository.call(name, id)?)
}

// The refs, their values, and whether all is there that each reaches.
fn refs(alloc: Global, files: &mut Device) -> Result<String> {
    let mut list = String::new(alloc);
    for (name, id) in &vc_refs::list(files, alloc)? {
        push_ref(&mut list, alloc, files, name, *id)?;
    }
    Ok(or_word(list, "none")?)
}

fn push_ref(
    list: &mut String,
    alloc: Global,
    files: &mut Device,
    name: &RefName,
    id: ObjectId,
) -> Result<()> {
    let whole = match is_complete(alloc, &mut Store::new(alloc, files), &id)? {
        true => "complete",
        false => "incomplete",
    };
    let digits = digits(alloc, id)?;
    let item = format!(in alloc; "{name} {digits} {whole}")?;
    push_item(list, " | ", item.as_str())?;
    Ok(())
}

fn head(alloc: Global, files: &mut Device) -> Result<String> {
    match vc_refs::head(files, alloc)? {
        None => bail!("none"),
        Some(Head::Branch(name)) => Ok(String::from_str(alloc, name.as_str())?),
        Some(Head::Id(id)) => Ok(digits(alloc, id)?),
    }
}
