//! Rows about writing: lines, objects and messages, from words to bytes.

ghost use Rattle.vc_fetch.specs.Advert.{HasShortNames};
ghost use Rattle.vc_fetch.specs.AdvertView.{advert_text};

use crate::messages::{object_of, objects_of};
use crate::pushes;
use crate::spelling::{ids_of, push_bytes, spelled};
use std::alloc::{AllocError, Global};
use vc_fetch::{Advert, Error, List, Pack, Want};
use vc_object::ObjectId;
use vc_pkt::{MAX_DATA, write_flush, write_line, write_object, write_objects, write_text};

// A line of these data.
fn line(alloc: Global, words: &str) -> Result<Vec<u8>, AllocError> {
    let body = spelled(alloc, words)?;
    let mut out = Vec::new(alloc);
    if !body.is_empty() && body.len() <= MAX_DATA {
        write_line(&mut out, &body)?;
    }
    Ok(out)
}

// A line of this text.
fn text_line(alloc: Global, words: &str) -> Result<Vec<u8>, AllocError> {
    let text = spelled(alloc, words)?;
    let mut out = Vec::new(alloc);
    if text.len() < MAX_DATA {
        write_text(&mut out, &text)?;
    }
    Ok(out)
}

fn flush(alloc: Global) -> Result<Vec<u8>, AllocError> {
    let mut out = Vec::new(alloc);
    write_flush(&mut out)?;
    Ok(out)
}

fn object(alloc: Global, words: &str) -> Result<Vec<u8>, AllocError> {
    let object = object_of(alloc, words)?;
    let mut out = Vec::new(alloc);
    write_object(&mut out, object.kind, &object.body)?;
    Ok(out)
}

fn objects(alloc: Global, words: &str) -> Result<Vec<u8>, AllocError> {
    let objects = objects_of(alloc, words)?;
    let mut out = Vec::new(alloc);
    write_objects(&mut out, &objects)?;
    Ok(out)
}

fn want(alloc: Global, words: &str) -> Result<Vec<u8>, AllocError> {
    let (wants, haves) = words.split_once(' ').unwrap_or((words, "-"));
    let wants = ids_of(alloc, wants)?;
    let haves = ids_of(alloc, haves)?;
    Want { wants, haves }.write(alloc)
}

// The id, or none for `-`.
fn id_of(alloc: Global, text: &str) -> Result<Option<ObjectId>, AllocError> {
    let ids = ids_of(alloc, text)?;
    Ok(ids.first().copied())
}

fn pack(alloc: Global, words: &str) -> Result<Vec<u8>, AllocError> {
    let (ack, objects) = words.split_once(' ').unwrap_or((words, ""));
    let ack = id_of(alloc, ack)?;
    let objects = objects_of(alloc, objects)?;
    Pack { ack, objects }.write(alloc)
}

// Sets the ref that `id:name` spells.
fn set_ref(advert: &mut Advert, alloc: Global, word: &str) -> Result<(), AllocError>
    ensures { HasShortNames (advert_text advert.old) → HasShortNames (advert_text advert.new) }
{
    let (id, name) = word.split_once(':').unwrap_or((word, ""));
    if name.is_empty() || name.len() > 65_450 {
        return Ok(());
    }
    let id = ObjectId::from_hex(id.as_bytes()).unwrap_or(ObjectId::ZERO);
    advert.set(alloc, name.as_bytes(), id)
}

// HEAD's id, and the refs in the order in which they are set.
fn advert(alloc: Global, words: &str) -> Result<Vec<u8>, AllocError> {
    let (head, refs) = words.split_once(' ').unwrap_or((words, ""));
    let mut advert = Advert::new(alloc);
    advert.head = id_of(alloc, head)?;
    'refs: for word in refs.split(' ') {
        set_ref(&mut advert, alloc, word)?;
    }
    advert.write(alloc)
}

fn error(alloc: Global, words: &str) -> Result<Vec<u8>, AllocError> {
    let mut text = spelled(alloc, words)?;
    text.truncate(65_511);
    Error { text }.write(alloc)
}

// What is written.
fn written(alloc: Global, kind: &str, words: &str) -> Result<Vec<u8>, AllocError> {
    match kind {
        "line" => line(alloc, words),
        "text" => text_line(alloc, words),
        "flush" => flush(alloc),
        "object" => object(alloc, words),
        "objects" => objects(alloc, words),
        "list" => List.write(alloc),
        "want" => want(alloc, words),
        "pack" => pack(alloc, words),
        "advert" => advert(alloc, words),
        "error" => error(alloc, words),
        "push" => pushes::push(alloc, words),
        "report" => pushes::report(alloc, words),
        _ => Ok(Vec::new(alloc)),
    }
}

/// The bytes that are written.
pub fn write(out: &mut String, alloc: Global, text: &str) -> Result<(), AllocError> {
    let (kind, words) = text.split_once(' ').unwrap_or((text, ""));
    let bytes = written(alloc, kind, words)?;
    push_bytes(out, &bytes, " ")
}
