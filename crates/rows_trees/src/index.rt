//! Rows about an index: its files, its text and its trees.
use crate::bench::{Device, Repository};
use crate::words::{Names, bytes, cut, digits, escaped, file_mode, id_of, or_word, push_item};
use anyhow::{Error, Result, anyhow, bail};
use std::alloc::{AllocError, Global};
use std::collections::BTreeMap;
use vc_index::{Index, IndexCursor, IndexFault};
use vc_local::NodeFault;
use vc_object::{Mode, ObjectId};

pub fn row(repository: &mut Repository, index: &mut Index, row: &str) -> Result<String> {
    let alloc = repository.alloc;
    let (verb, rest) = cut(row);
    match verb {
        "of" => *index = index_of(alloc, &repository.names, rest)?,
        "add" => add(alloc, &repository.names, index, rest)?,
        "remove" => index.remove(&bytes(alloc, rest)?),
        "fill" => fill(alloc, &repository.names, index, rest)?,
        "load" => load(repository, index, rest)?,
        "list" => list(repository, index, rest)?,
        "text" => return Ok(text(alloc, index)?),
        "tree" => return tree(repository, rest),
        "write" => return write(alloc, &mut repository.files, index),
        "read" => return read(repository, index, rest),
        "seek" => return seek(alloc, index, rest),
        "cuts" => return cuts(alloc, rest),
        "change" => return change(alloc, rest),
        _ => bail!("no such row"),
    }
    Ok(String::new(alloc))
}

/// The words of what refused a call on an index, with the place or the path.
pub fn refusal(alloc: Global, fault: IndexFault) -> Error {
    match fault {
        IndexFault::BadIndex(place) => anyhow!("62 BadIndex at {place}"),
        IndexFault::WrongEntry(path) => wrong_entry(alloc, &path),
        fault => NodeFault::from(fault).into(),
    }
}

fn wrong_entry(alloc: Global, path: &[u8]) -> Error {
    match escaped(alloc, path) {
        Ok(path) => anyhow!("63 WrongEntry \"{path}\""),
        Err(fault) => fault.into(),
    }
}

// What a call on an index gave, or else the words of what refused it.
fn given<T>(alloc: Global, done: Result<T, IndexFault>) -> Result<T> {
    match done {
        Ok(value) => Ok(value),
        Err(fault) => Err(refusal(alloc, fault)),
    }
}

// Puts an item, a mode, a path and a name of an object, into an index.
fn add(alloc: Global, names: &Names, index: &mut Index, item: &str) -> Result<()> {
    let (mode, rest) = cut(item);
    let (path, id) = cut(rest);
    let (mode, path, id) = (file_mode(mode)?, bytes(alloc, path)?, id_of(names, id)?);
    given(alloc, index.add(alloc, &path, mode, id))
}

fn add_all(alloc: Global, names: &Names, index: &mut Index, items: &str) -> Result<()> {
    for item in items.split(" | ") {
        if !item.is_empty() {
            add(alloc, names, index, item)?;
        }
    }
    Ok(())
}

// The index of some items.
fn index_of(alloc: Global, names: &Names, items: &str) -> Result<Index> {
    let mut index = Index::new(alloc);
    match add_all(alloc, names, &mut index, items) {
        Ok(()) => Ok(index),
        Err(fault) => Err(fault),
    }
}

// Adds so many files, whose paths are the first numbers with four digits, and 4,092 times `a`.
fn fill(alloc: Global, names: &Names, index: &mut Index, rest: &str) -> Result<()> {
    let (count, id) = cut(rest);
    let id = id_of(names, id)?;
    let long = bytes(alloc, "{a*4092}")?;
    for number in 0..count.parse::<u32>()? {
        add_long(alloc, index, number, &long, id)?;
    }
    Ok(())
}

fn add_long(
    alloc: Global,
    index: &mut Index,
    number: u32,
    long: &[u8],
    id: ObjectId,
) -> Result<()> {
    let mut path = format!(in alloc; "{number:04}")?.into_bytes();
    path.extend_from_slice(long)?;
    given(alloc, index.add(alloc, &path, Mode::File, id))
}

fn load(repository: &mut Repository, index: &mut Index, root: &str) -> Result<()> {
    let root = id_of(&repository.names, root)?;
    let loaded = Index::from_tree(repository.alloc, &mut repository.files, &root);
    *index = given(repository.alloc, loaded)?;
    Ok(())
}

// Makes the index that of the files that a tree lists, whether they are there or not.
fn list(repository: &mut Repository, index: &mut Index, root: &str) -> Result<()> {
    let root = id_of(&repository.names, root)?;
    let listed = Index::list_tree(repository.alloc, &mut repository.files, &root);
    *index = given(repository.alloc, listed)?;
    Ok(())
}

fn text(alloc: Global, index: &Index) -> Result<String, AllocError> {
    let text = index.write(alloc)?;
    escaped(alloc, &text)
}

// Writes the trees of an index of some items alone, and gives the root's a name.
fn tree(repository: &mut Repository, rest: &str) -> Result<String> {
    let (name, items) = cut(rest);
    let index = index_of(repository.alloc, &repository.names, items)?;
    let written = index.write_tree(repository.alloc, &mut repository.files);
    match written {
        Ok(id) => Ok(repository.call(name, id)?),
        Err(fault) => Err(refusal(repository.alloc, fault)),
    }
}

// Writes the trees of the index.
fn write(alloc: Global, files: &mut Device, index: &Index) -> Result<String> {
    let id = given(alloc, index.write_tree(alloc, files))?;
    Ok(digits(alloc, id)?)
}

// Makes the index that of a text, and answers the tree that stands for it.
fn read(repository: &mut Repository, index: &mut Index, text: &str) -> Result<String> {
    let text = bytes(repository.alloc, text)?;
    *index = given(repository.alloc, Index::read(repository.alloc, &text))?;
    write(repository.alloc, &mut repository.files, index)
}

// What stands at each of the paths, looked up one after the other.
fn seek(alloc: Global, index: &Index, paths: &str) -> Result<String> {
    let mut cursor = IndexCursor::new(index);
    let mut list = String::new(alloc);
    for path in paths.split(" | ") {
        let path = bytes(alloc, path)?;
        push_found(&mut list, alloc, &mut cursor, &path)?;
    }
    Ok(list)
}

fn push_found(
    list: &mut String,
    alloc: Global,
    cursor: &mut IndexCursor<'_>,
    path: &[u8],
) -> Result<(), AllocError> {
    match cursor.get(path) {
        Some(entry) => push_item(list, " | ", digits(alloc, entry.id)?.as_str()),
        None => push_item(list, " | ", "none"),
    }
}

// Which texts were read, and where others are at fault.
type Places = BTreeMap<Option<usize>, u32>;

// Counts where a text is at fault.
fn count(alloc: Global, places: &mut Places, text: &[u8]) -> Result<()> {
    let place = match Index::read(alloc, text) {
        Ok(_) => None,
        Err(IndexFault::BadIndex(place)) => Some(place),
        Err(fault) => return Err(refusal(alloc, fault)),
    };
    let count = places.entry(place)?.or_insert(0);
    *count = count.saturating_add(1);
    Ok(())
}

fn told(alloc: Global, places: &Places) -> Result<String, AllocError> {
    let mut list = String::new(alloc);
    for (place, count) in places {
        let item = match place {
            None => format!(in alloc; "{count} read")?,
            Some(place) => format!(in alloc; "{count} at fault at {place}")?,
        };
        push_item(&mut list, ", ", item.as_str())?;
    }
    or_word(list, "none")
}

// Cuts a text at each of its bytes.
fn cuts(alloc: Global, text: &str) -> Result<String> {
    let text = bytes(alloc, text)?;
    let mut places = BTreeMap::new(alloc);
    for end in 0..text.len() {
        count(alloc, &mut places, &text[..end])?;
    }
    Ok(told(alloc, &places)?)
}

// Puts a byte in place of each other byte behind so many of a text.
fn change(alloc: Global, rest: &str) -> Result<String> {
    let (byte, rest) = cut(rest);
    let (front, text) = cut(rest);
    let (byte, front) = (u8::from_str_radix(byte, 16)?, front.parse::<usize>()?);
    let text = bytes(alloc, text)?;
    let mut places = BTreeMap::new(alloc);
    for at in front..text.len() {
        count_changed(alloc, &mut places, &text, at, byte)?;
    }
    Ok(told(alloc, &places)?)
}

// Puts this byte at a place of a text and counts at which place that is at fault, unless it stands there already.
fn count_changed(
    alloc: Global,
    places: &mut Places,
    text: &[u8],
    at: usize,
    byte: u8,
) -> Result<()> {
    let mut changed = text.to_vec(alloc)?;
    match changed.get_mut(at) {
        Some(old) if *old != byte => *old = byte,
        _ => return Ok(()),
    }
    count(alloc, places, &changed)
}
