//! Messages as words of a row: how each is told, and how objects are spelled.

use crate::spelling::{push_bytes, push_id, push_ids, spelled};
use std::alloc::{AllocError, Global};
use vc_fetch::{
    Advert, AdvertReader, Error, ErrorReader, List, ListReader, Pack, PackReader, Want, WantReader,
};
use vc_message::{AnyReader, Message};
use vc_object::{Kind, ObjectId};
use vc_pkt::{CarriedObjects, MessageReader, ObjectStream, StreamObject};
use vc_push::{PushReader, ReportReader};

/// A reader whose messages can be told.
pub trait Telling: MessageReader {
    /// Tells what the message says.
    fn tell(out: &mut String, message: &Self::Message) -> Result<(), AllocError>;
}

impl Telling for ListReader {
    fn tell(out: &mut String, _: &List) -> Result<(), AllocError> {
        out.push_str("list")
    }
}

impl Telling for ErrorReader {
    fn tell(out: &mut String, error: &Error) -> Result<(), AllocError> {
        push_bytes(out, &error.text, " ")
    }
}

impl Telling for WantReader {
    fn tell(out: &mut String, want: &Want) -> Result<(), AllocError> {
        push_ids(out, &want.wants)?;
        out.push(' ')?;
        push_ids(out, &want.haves)
    }
}

impl Telling for AdvertReader {
    fn tell(out: &mut String, advert: &Advert) -> Result<(), AllocError> {
        push_found(out, advert.head)?;
        for (name, id) in &advert.refs {
            out.push(' ')?;
            push_id(out, *id)?;
            out.push(':')?;
            push_bytes(out, name, "\\x20")?;
        }
        Ok(())
    }
}

impl Telling for PackReader {
    fn tell(out: &mut String, pack: &Pack) -> Result<(), AllocError> {
        push_found(out, pack.ack)?;
        push_objects(out, &pack.objects)
    }
}

impl Telling for ObjectStream {
    fn tell(out: &mut String, objects: &CarriedObjects) -> Result<(), AllocError> {
        out.push('-')?;
        push_objects(out, objects)
    }
}

impl Telling for AnyReader {
    fn tell(out: &mut String, message: &Message) -> Result<(), AllocError> {
        match message {
            Message::List(list) => ListReader::tell(out, list),
            Message::Advert(advert) => AdvertReader::tell(out, advert),
            Message::Want(want) => WantReader::tell(out, want),
            Message::Pack(pack) => PackReader::tell(out, pack),
            Message::Push(push) => PushReader::tell(out, push),
            Message::Report(report) => ReportReader::tell(out, report),
            Message::Error(error) => ErrorReader::tell(out, error),
        }
    }
}

/// Tells an id that may be absent.
pub fn push_found(out: &mut String, id: Option<ObjectId>) -> Result<(), AllocError> {
    match id {
        Some(id) => push_id(out, id),
        None => out.push('-'),
    }
}

/// Tells `kind:body` of an object.
pub fn push_object(out: &mut String, object: &StreamObject) -> Result<(), AllocError> {
    push_bytes(out, object.kind.word(), "")?;
    out.push(':')?;
    push_bytes(out, &object.body, "\\x20")
}

/// Tells a space and `kind:body` for each object.
pub fn push_objects(out: &mut String, objects: &CarriedObjects) -> Result<(), AllocError> {
    for object in objects.by_name.values() {
        out.push(' ')?;
        push_object(out, object)?;
    }
    Ok(())
}

/// The object that `kind:body` spells.
pub fn object_of(alloc: Global, text: &str) -> Result<StreamObject, AllocError> {
    let (kind, body) = text.split_once(':').unwrap_or(("", text));
    let kind = Kind::from_word(kind.as_bytes()).unwrap_or(Kind::Blob);
    let body = spelled(alloc, body)?;
    Ok(StreamObject { kind, body })
}

/// The objects that the words spell.
pub fn objects_of(alloc: Global, text: &str) -> Result<CarriedObjects, AllocError> {
    let mut objects = CarriedObjects::new(alloc);
    for word in text.split(' ') {
        if !word.is_empty() {
            objects.add(object_of(alloc, word)?)?;
        }
    }
    Ok(objects)
}
