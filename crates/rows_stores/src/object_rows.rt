//! Rows on objects by name.
use crate::answers::{Answer, id_or_none, listed, word, yes_or_no};
use crate::ids::{bytes_of, id_of, two};
use crate::ref_rows;
use anyhow::bail;
use bstr::ByteSlice;
use std::alloc::Global;
use vc_files::Files;
use vc_object::{Kind, ObjectId};
use vc_store::{Store, Stored};

pub fn obey<F: Files>(files: &mut F, alloc: Global, verb: &str, rest: &str) -> Answer {
    let mut store = Store::new(alloc, files);
    match verb {
        "store" => id_or_none(alloc, Some(put(&mut store, alloc, rest)?)),
        "store-zeros" => put_zeros(&mut store, alloc, rest),
        "object" | "find" | "has" => look(&mut store, alloc, verb, &id_of(alloc, rest)?),
        "remove-object" => yes_or_no(alloc, store.remove(&id_of(alloc, rest)?)?),
        "names" => listed(alloc, &store.names()?),
        "by-prefix" => listed(alloc, &store.by_prefix(&bytes_of(alloc, rest)?)?),
        _ => ref_rows::obey(files, alloc, verb, rest),
    }
}

fn look<F: Files>(store: &mut Store<'_, F>, alloc: Global, verb: &str, id: &ObjectId) -> Answer {
    let found = match verb {
        "has" => return yes_or_no(alloc, store.has(id)?),
        "find" => store.find(id)?,
        _ => Some(store.get(id)?),
    };
    match found {
        Some(object) => shown(alloc, &object),
        None => word(alloc, "none"),
    }
}

fn shown(alloc: Global, object: &Stored) -> Answer {
    let kind = object.kind.word().escape_bytes();
    let body = object.body.as_slice().escape_bytes();
    Ok(format!(in alloc; "{kind} \"{body}\"")?)
}

// Stores an object, of which the text writes the kind and then the body.
fn put<F: Files>(store: &mut Store<'_, F>, alloc: Global, text: &str) -> anyhow::Result<ObjectId> {
    let (kind, body) = two(text);
    let Some(kind) = Kind::from_word(kind.as_bytes()) else {
        bail!("no kind");
    };
    let body = bytes_of(alloc, body)?;
    Ok(store.put(kind, &body)?)
}

fn put_zeros<F: Files>(store: &mut Store<'_, F>, alloc: Global, rest: &str) -> Answer {
    let body = vec![in alloc; 0; rest.parse()?]?;
    id_or_none(alloc, Some(store.put(Kind::Blob, &body)?))
}
