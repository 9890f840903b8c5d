//! The message by which a clone asks for objects: the ids that it wants, and those that it has.

ghost use Rattle.std.specs.Prelude.{◌≡◌, ◌≤◌, ◌++◌, [], List, length, map, Ok, Err, OnOk, IfOk, IfErr};
ghost use Rattle.std.specs.List.{flat_map};
ghost use Rattle.vc_object.specs.declared.id.ObjectId.{ObjectId as Id};
ghost use Rattle.vc_pkt.specs.Line.{spelling};
ghost use Rattle.vc_pkt.specs.Message.{onward, IsSpelledBy, Refuses};
ghost use Rattle.vc_pkt.specs.StepView.{Gives};
ghost use Rattle.vc_fetch.specs.Want.{WantText, WantState, wanting, SpellsWant, want_step, want_step_own, want_lines, written_id, one_more, want_id};
ghost use Rattle.vc_fetch.specs.WantView.{want_text, want_state};

use crate::ids::{first_id_line, id_line};
use std::alloc::{AllocError, Global};
use vc_object::ObjectId;
use vc_pkt::{
    Line, MessageReader, PktError, PktFault, Step, read_message, without_lf, write_flush,
    write_text,
};

/// The ids that are wanted or held, at most, in one message.
pub const MAX_IDS: usize = 256;

/// The message that asks for objects.
#[derive(Drop)]
pub struct Want {
    /// At least one, at most 256.
    pub wants: Vec<ObjectId>,
    /// At most 256.
    pub haves: Vec<ObjectId>,
}

/// Reads a want message line by line.
#[derive(Drop)]
pub enum WantReader {
    /// The flush has not come yet.
    Wanting(Vec<ObjectId>),
    /// The wants, and the haves so far.
    Having(Vec<ObjectId>, Vec<ObjectId>),
}

/// Adds an id, if the line has one and there is room.
fn push_id(ids: &mut Vec<ObjectId>, found: Option<ObjectId>, number: u64) -> Result<(), PktError>
    ensures { (next : List Id → WantState) → Gives (λ _. onward (next ids.new.items)) result (one_more number ids.old.items found next) }
{
    let Some(id) = found else {
        return Err(PktError::Refused(PktFault::BadRecord(number)));
    };
    if ids.len() >= MAX_IDS {
        return Err(PktError::Refused(PktFault::TooMany));
    }
    ids.push(id)?;
    Ok(())
}

/// The id of a want's line, which is the first if no id came before.
fn want_id(before: &[ObjectId], line: &[u8]) -> Option<ObjectId>
    ensures { result ≡ want_id before.now line.now }
{
    if before.is_empty() {
        first_id_line(b"want ", line)
    } else {
        id_line(b"want ", line)
    }
}

/// Writes a line of the word and the id.
fn write_id(out: &mut Vec<u8>, word: &[u8], id: ObjectId) -> Result<(), AllocError>
    requires short { length word.now ≤ 5 }
    ensures { OnOk result (out.new.items ≡ out.old.items ++ spelling (written_id word.now id)) }
{
    let mut words = Vec::new(*out.allocator());
    words.extend_from_slice(word)?;
    words.extend_from_slice(&id.to_hex())?;
    write_text(out, &words)
}

/// Writes such a line for each id.
fn write_ids(out: &mut Vec<u8>, word: &[u8], ids: &[ObjectId]) -> Result<(), AllocError>
    requires short { length word.now ≤ 5 }
    ensures { OnOk result (out.new.items ≡ out.old.items ++ flat_map spelling (map (written_id word.now) ids.now)) }
{
    'ids: for id in ids {
        write_id(out, word, *id)?;
    }
    Ok(())
}

impl MessageReader for WantReader {
    type Message = Want;

    ghost State = { WantState };

    ghost Text = { WantText };

    ghost state_of = { want_state };

    ghost text_of = { want_text };

    ghost start = { wanting [] };

    ghost step = { want_step };

    fn new(alloc: Global) -> WantReader {
        WantReader::Wanting(Vec::new(alloc))
    }

    fn take(
        self,
        alloc: Global,
        line: Line<'_>,
        number: u64,
    ) -> Result<Step<WantReader, Want>, PktError> {
        match self {
            WantReader::Wanting(wants) => {
                let mut wants = wants;
                let Line::Data(data) = line else {
                    if wants.is_empty() {
                        return Err(PktError::Refused(PktFault::BadRecord(number)));
                    }
                    return Ok(Step::More(WantReader::Having(wants, Vec::new(alloc))));
                };
                let found = want_id(&wants, data);
                push_id(&mut wants, found, number)?;
                Ok(Step::More(WantReader::Wanting(wants)))
            }
            WantReader::Having(wants, haves) => {
                let mut haves = haves;
                let Line::Data(data) = line else {
                    return Err(PktError::Refused(PktFault::BadRecord(number)));
                };
                if without_lf(data) == b"done".as_slice() {
                    return Ok(Step::Done(Want { wants, haves }));
                }
                push_id(&mut haves, id_line(b"have ", data), number)?;
                Ok(Step::More(WantReader::Having(wants, haves)))
            }
        }
    }

    ghost line_faults = { want_step_own };
}

impl Want {
    /// The message that is all of the bytes, or their first fault.
    pub fn read(alloc: Global, bytes: &[u8]) -> Result<Want, PktError>
        ensures spelled { IfOk result (λ want. IsSpelledBy SpellsWant (want_text want) bytes.now) }
        ensures read { (want : WantText) → IsSpelledBy SpellsWant want bytes.now → Gives want_text result (Ok want) }
        ensures refused { IfErr result (Refuses want_step (wanting []) bytes.now) }
    {
        read_message::<WantReader>(alloc, bytes)
    }

    /// The message as it is written.
    pub fn write(&self, alloc: Global) -> Result<Vec<u8>, AllocError>
        ensures { IfOk result (λ bytes. bytes.items ≡ flat_map spelling (want_lines (want_text self.now))) }
    {
        let mut bytes = Vec::new(alloc);
        write_ids(&mut bytes, b"want ", &self.wants)?;
        write_flush(&mut bytes)?;
        write_ids(&mut bytes, b"have ", &self.haves)?;
        write_text(&mut bytes, b"done")?;
        Ok(bytes)
    }
}
