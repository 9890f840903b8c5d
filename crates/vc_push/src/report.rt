//! The message by which the shared node answers a push.

ghost use Rattle.std.specs.Prelude.{◌≡◌, ◌≤◌, ◌+◌, ◌++◌, length, Ok, OnOk, IfOk, IfErr, map};
ghost use Rattle.std.specs.List.{All, flat_map};
ghost use Rattle.vc_pkt.specs.Line.{spelling};
ghost use Rattle.vc_pkt.specs.Message.{IsSpelledBy, Refuses};
ghost use Rattle.vc_pkt.specs.StepView.{Gives};
ghost use Rattle.vc_push.specs.Report.{IsShortTold, IsShortUnpack, ReportText, SpellsReport, new_id_text, ng_text, ok_text, outcome_lines, report_lines, report_step, text_line, told_lines, unpack_text, unpacking, max_accepted, max_refused};
ghost use Rattle.vc_push.specs.ReportView.{bytes_of, report_text, told_of};

use crate::report_reader::ReportReader;
use std::alloc::{AllocError, Global};
use vc_object::ObjectId;
use vc_pkt::{PktError, read_message, write_flush, write_text};

/// What became of a command.
#[derive(Drop)]
pub struct Told {
    /// The name of the command's ref.
    pub name: Vec<u8>,
    /// Its new id, where the command was accepted: [`ObjectId::ZERO`] where a report that was read gave none. Else the text
    /// of the reason, any bytes; [`Reason::number_of_text`](crate::Reason::number_of_text) has its number.
    pub outcome: Result<ObjectId, Vec<u8>>,
}

/// The message that answers a push.
#[derive(Drop)]
pub struct Report {
    /// None where all that was carried was taken (`unpack ok`); else the text after `unpack `, as `error 8`.
    pub unpack: Option<Vec<u8>>,
    /// What became of each command, in the order of the push. At most 256, where the message was read.
    pub told: Vec<Told>,
}

/// Writes the line that tells whether all was taken.
fn write_unpack(out: &mut Vec<u8>, unpack: &Option<Vec<u8>>) -> Result<(), AllocError>
    requires short { IsShortUnpack (bytes_of unpack.now) }
    ensures { OnOk result (out.new.items ≡ out.old.items ++ spelling (text_line (unpack_text (bytes_of unpack.now)))) }
{
    let mut words = Vec::new(*out.allocator());
    words.extend_from_slice(b"unpack ")?;
    match unpack {
        Some(text) => words.extend_from_slice(text)?,
        None => words.extend_from_slice(b"ok")?,
    }
    write_text(out, &words)
}

/// Writes the line of an accepted command.
fn write_ok(out: &mut Vec<u8>, name: &[u8]) -> Result<(), AllocError>
    requires short { length name.now ≤ max_accepted }
    ensures { OnOk result (out.new.items ≡ out.old.items ++ spelling (text_line (ok_text name.now))) }
{
    let mut words = Vec::new(*out.allocator());
    words.extend_from_slice(b"ok ")?;
    words.extend_from_slice(name)?;
    write_text(out, &words)
}

/// The text of the line of a new id.
fn new_id_text(alloc: Global, id: ObjectId) -> Result<Vec<u8>, AllocError>
    ensures text { IfOk result (λ words. words.items ≡ new_id_text id) }
    ensures short { IfOk result (λ words. length words.items ≤ 55) }
{
    let mut words = Vec::new(alloc);
    words.extend_from_slice(b"option new-oid ")?;
    words.extend_from_slice(&id.to_hex())?;
    Ok(words)
}

/// Writes the lines of an accepted command.
fn write_accepted(out: &mut Vec<u8>, name: &[u8], id: ObjectId) -> Result<(), AllocError>
    requires short { length name.now ≤ max_accepted }
    ensures { OnOk result (out.new.items ≡ out.old.items ++ flat_map spelling (outcome_lines name.now (Ok id))) }
{
    let words = new_id_text(*out.allocator(), id)?;
    write_ok(out, name)?;
    write_text(out, &words)?;
    Ok(())
}

/// Writes the line of a refused command.
fn write_ng(out: &mut Vec<u8>, name: &[u8], reason: &[u8]) -> Result<(), AllocError>
    requires short { length name.now + length reason.now ≤ max_refused }
    ensures { OnOk result (out.new.items ≡ out.old.items ++ spelling (text_line (ng_text name.now reason.now))) }
{
    let mut words = Vec::new(*out.allocator());
    words.extend_from_slice(b"ng ")?;
    words.extend_from_slice(name)?;
    words.push(b' ')?;
    words.extend_from_slice(reason)?;
    write_text(out, &words)
}

/// Writes what became of a command.
fn write_told(out: &mut Vec<u8>, told: &Told) -> Result<(), AllocError>
    requires short { IsShortTold (told_of told.now) }
    ensures { OnOk result (out.new.items ≡ out.old.items ++ flat_map spelling (told_lines (told_of told.now))) }
{
    match &told.outcome {
        Ok(id) => {
            write_accepted(out, &told.name, *id)?;
            Ok(())
        }
        Err(reason) => {
            write_ng(out, &told.name, reason)?;
            Ok(())
        }
    }
}

/// Writes what became of each command.
fn write_all(out: &mut Vec<u8>, all: &[Told]) -> Result<(), AllocError>
    requires short { All (λ t. IsShortTold (told_of t)) all.now }
    ensures { OnOk result (out.new.items ≡ out.old.items ++ flat_map spelling (flat_map told_lines (map told_of all.now))) }
{
    'all: for told in all {
        write_told(out, told)?;
    }
    Ok(())
}

impl Report {
    /// The message that is all of the bytes, or their first fault: 80 to 84, with 81 the number of its line from 0. A reason
    /// is kept as its text. own: after an accepted command any options may stand; the first `option new-oid` that is well
    /// formed is its new id, and all others are passed over.
    pub fn read(alloc: Global, bytes: &[u8]) -> Result<Report, PktError>
        ensures spelled { IfOk result (λ report. IsSpelledBy SpellsReport (report_text report) bytes.now) }
        ensures read { (report : ReportText) → IsSpelledBy SpellsReport report bytes.now → Gives report_text result (Ok report) }
        ensures refused { IfErr result (Refuses report_step unpacking bytes.now) }
    {
        read_message::<ReportReader>(alloc, bytes)
    }

    /// The message as it is written. own: each accepted command has an `option new-oid`. Each line fits: the text of the first
    /// has at most 65,508 bytes, the name of an accepted command 65,512, name and reason of a refused one together 65,511.
    pub fn write(&self, alloc: Global) -> Result<Vec<u8>, AllocError>
        requires unpack { IsShortUnpack (bytes_of self.now.unpack) }
        requires told { All (λ t. IsShortTold (told_of t)) self.now.told.items }
        ensures { IfOk result (λ bytes. bytes.items ≡ flat_map spelling (report_lines (report_text self.now))) }
    {
        let mut bytes = Vec::new(alloc);
        write_unpack(&mut bytes, &self.unpack)?;
        write_all(&mut bytes, &self.told)?;
        write_flush(&mut bytes)?;
        Ok(bytes)
    }
}
