//! The message that brings objects: which have was counted, and an object stream.

ghost use Rattle.std.specs.Prelude.{◌≡◌, ◌≤◌, Ok, length, IfOk, IfErr};
ghost use Rattle.std.specs.List.{flat_map};
ghost use Rattle.vc_object.specs.Decoding.{stored_object};
ghost use Rattle.vc_pkt.specs.Line.{spelling};
ghost use Rattle.vc_pkt.specs.Message.{IsSpelledBy, Refuses};
ghost use Rattle.vc_pkt.specs.StepView.{Gives};
ghost use Rattle.vc_fetch.specs.Pack.{PackText, PackState, starting, is_object, SpellsPack, ack_line, ack_text, pack_step, pack_step_own, pack_lines};
ghost use Rattle.vc_fetch.specs.PackView.{pack_text, pack_state};

use crate::ids::id_line;
use std::alloc::{AllocError, Global};
use vc_object::{Kind, ObjectId, check};
use vc_pkt::{
    CarriedObjects, IncomingObjects, Line, MessageReader, ObjectStep, ObjectStream, PktError,
    PktFault, Step, StreamProgress, read_message, take_object_line, without_lf, write_objects,
    write_text,
};

/// The message that brings objects.
#[derive(Drop)]
pub struct Pack {
    /// The first have that was counted, if any was.
    pub ack: Option<ObjectId>,
    /// Each with its body in the grammar of its kind, where the message was read.
    pub objects: CarriedObjects,
}

/// Reads a pack line by line.
#[derive(Drop)]
pub enum PackReader {
    Start,
    /// The first line has come, and some of the objects. What that line said is boxed, so that the lines
    /// behind it move one pointer and not 21 bytes.
    Objects(Box<Option<ObjectId>>, ObjectStream),
}

/// Whether the body is in the grammar of the kind, and not over the limit.
pub fn is_object(kind: Kind, body: &[u8]) -> bool
    ensures { result ≡ is_object (stored_object kind body.now) }
{
    match check(kind, body) {
        Ok(_) => true,
        Err(_) => false,
    }
}

/// What the first line says.
fn ack_line(line: &[u8]) -> Option<Option<ObjectId>>
    ensures { result ≡ ack_line line.now }
{
    if without_lf(line) == b"NAK".as_slice() {
        return Some(None);
    }
    match id_line(b"ACK ", line) {
        Some(id) => Some(Some(id)),
        None => None,
    }
}

impl MessageReader for PackReader {
    type Message = Pack;

    ghost State = { PackState };

    ghost Text = { PackText };

    ghost state_of = { pack_state };

    ghost text_of = { pack_text };

    ghost start = { starting };

    ghost step = { pack_step };

    fn new(_: Global) -> PackReader {
        PackReader::Start
    }

    fn take(
        self,
        alloc: Global,
        line: Line<'_>,
        number: u64,
    ) -> Result<Step<PackReader, Pack>, PktError> {
        match self {
            PackReader::Start => {
                let Line::Data(data) = line else {
                    return Err(PktError::Refused(PktFault::BadRecord(number)));
                };
                let Some(ack) = ack_line(data) else {
                    return Err(PktError::Refused(PktFault::BadRecord(number)));
                };
                let ack = Box::new(alloc, ack)?;
                let objects = IncomingObjects::new(alloc);
                let progress = StreamProgress::Between;
                let stream = ObjectStream { objects, progress };
                Ok(Step::More(PackReader::Objects(ack, stream)))
            }
            PackReader::Objects(ack, stream) => {
                let ObjectStream { objects, progress } = stream;
                match take_object_line(alloc, progress, line, number)? {
                    ObjectStep::More(progress) => {
                        let stream = ObjectStream { objects, progress };
                        Ok(Step::More(PackReader::Objects(ack, stream)))
                    }
                    ObjectStep::Object(first, object) => {
                        if !is_object(object.kind, &object.body) {
                            return Err(PktError::Refused(PktFault::BadRecord(first)));
                        }
                        let objects = objects.add(alloc, object)?;
                        let progress = StreamProgress::Between;
                        let stream = ObjectStream { objects, progress };
                        Ok(Step::More(PackReader::Objects(ack, stream)))
                    }
                    ObjectStep::End => {
                        let ack = *ack;
                        let objects = objects.finish(alloc)?;
                        Ok(Step::Done(Pack { ack, objects }))
                    }
                }
            }
        }
    }

    ghost line_faults = { pack_step_own };
}

/// The text of the first line.
fn ack_text(alloc: Global, ack: Option<ObjectId>) -> Result<Vec<u8>, AllocError>
    ensures text { IfOk result (λ words. words.items ≡ ack_text ack) }
    ensures short { IfOk result (λ words. length words.items ≤ 44) }
{
    let mut words = Vec::new(alloc);
    match ack {
        Some(id) => {
            words.extend_from_slice(b"ACK ")?;
            words.extend_from_slice(&id.to_hex())?;
        }
        None => words.extend_from_slice(b"NAK")?,
    }
    Ok(words)
}

impl Pack {
    /// The message that is all of the bytes, or their first fault. A body that is out of its kind's grammar
    /// is a fault of its object's line, found when the body is full.
    pub fn read(alloc: Global, bytes: &[u8]) -> Result<Pack, PktError>
        ensures spelled { IfOk result (λ pack. IsSpelledBy SpellsPack (pack_text pack) bytes.now) }
        ensures read { (pack : PackText) → IsSpelledBy SpellsPack pack bytes.now → Gives pack_text result (Ok pack) }
        ensures refused { IfErr result (Refuses pack_step starting bytes.now) }
    {
        read_message::<PackReader>(alloc, bytes)
    }

    /// The message as it is written, its objects in order of name.
    pub fn write(&self, alloc: Global) -> Result<Vec<u8>, AllocError>
        ensures { IfOk result (λ bytes. bytes.items ≡ flat_map spelling (pack_lines (pack_text self.now))) }
    {
        let words = ack_text(alloc, self.ack)?;
        let mut bytes = Vec::new(alloc);
        write_text(&mut bytes, &words)?;
        write_objects(&mut bytes, &self.objects)?;
        Ok(bytes)
    }
}
