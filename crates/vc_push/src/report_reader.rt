//! Reading a report line by line.

ghost use Rattle.std.specs.Prelude.{◌≡◌, ◌<◌, [], Some, None, map, unwrap_or, OnOk, IfOk, option_map};
ghost use Rattle.vc_pkt.specs.Message.{onward};
ghost use Rattle.vc_pkt.specs.StepView.{Gives};
ghost use Rattle.vc_push.specs.Report.{ReportState, ReportText, Said, new_id, ng_said, ok_said, opted, opts, report_step, report_step_own, said, settled, told_by, unpack_line, unpacking};
ghost use Rattle.vc_push.specs.ReportView.{bytes_of, pending_of, report_state, report_text, telling_state, told_of};
ghost use Rattle.vc_push.specs.SaidView.{said_view};

use crate::command::MAX_COMMANDS;
use crate::report::{Report, Told};
use std::alloc::{AllocError, Global};
use vc_fetch::{id_line, is_name};
use vc_object::{ObjectId, cut_at};
use vc_pkt::{Line, MessageReader, PktError, PktFault, Step, without_lf};

/// An accepted command whose options may still come.
#[derive(Drop)]
pub struct Pending {
    /// Its ref's name.
    pub name: Vec<u8>,
    /// The first new id that an option gave.
    pub new: Option<ObjectId>,
}

/// What was told so far, and the accepted command of the last line, where that told of one.
#[derive(Drop)]
pub struct Telling {
    /// What the first line said of what was carried.
    pub unpack: Option<Vec<u8>>,
    /// The commands that no more lines tell of.
    pub told: Vec<Told>,
    /// The one of the last line, where it was accepted.
    pub pending: Option<Pending>,
}

/// Reads a report line by line.
#[derive(Drop)]
pub enum ReportReader {
    /// The first line has not come yet.
    Start,
    /// It has come, and lines after it.
    Told(Telling),
}

/// What a line says.
#[derive(Clone, Copy)]
pub(crate) enum LineSays<'a> {
    /// The command of this name is accepted.
    Accepts(&'a [u8]),
    /// The command of this name is refused, and why.
    Refuses(&'a [u8], &'a [u8]),
    /// An option, and the new id that it gives, where it gives one.
    Opts(Option<ObjectId>),
    /// It is no line of a report.
    Nothing,
}

/// What `ng` and these words say.
fn refused_by(words: &[u8]) -> LineSays<'_>
    ensures { said_view result ≡ ng_said words.now }
{
    let Some((name, reason)) = cut_at(words, b' ') else {
        return LineSays::Nothing;
    };
    if !is_name(name) {
        return LineSays::Nothing;
    }
    LineSays::Refuses(name, reason)
}

/// What `ok` and these words say.
fn accepted_by(words: &[u8]) -> LineSays<'_>
    ensures { said_view result ≡ ok_said words.now }
{
    if !is_name(words) {
        return LineSays::Nothing;
    }
    LineSays::Accepts(words)
}

/// What an option says: its new id, where it is one.
fn opted_by(line: &[u8]) -> LineSays<'_>
    ensures { said_view result ≡ opts (new_id line.now) }
{
    LineSays::Opts(id_line(b"option new-oid ", line))
}

/// What a line says after the first.
#[tactic(auto, unfolding(crate::specs::Report::said))]
fn said(line: &[u8]) -> LineSays<'_>
    ensures { said_view result ≡ said line.now }
{
    let text = without_lf(line);
    if let Some(words) = text.strip_prefix(b"ok ") {
        return accepted_by(words);
    }
    if let Some(words) = text.strip_prefix(b"ng ") {
        return refused_by(words);
    }
    if let Some(_) = text.strip_prefix(b"option ") {
        return opted_by(line);
    }
    LineSays::Nothing
}

/// What the first line says of what was carried: nothing where it is another line, none where all was taken.
fn unpack_line(line: &[u8]) -> Option<Option<&[u8]>>
    ensures { option_map (λ unpack. option_map (λ words. words.now) unpack) result ≡ unpack_line line.now }
{
    let words = without_lf(line).strip_prefix(b"unpack ")?;
    if words == b"ok".as_slice() {
        return Some(None);
    }
    Some(Some(words))
}

/// Tells of the accepted command of the last line, where there is one: no more options come.
fn settle(told: &mut Vec<Told>, pending: Option<Pending>) -> Result<(), AllocError>
    ensures { OnOk result (map told_of told.new.items ≡ settled (map told_of told.old.items) (option_map pending_of pending)) }
{
    let Some(pending) = pending else {
        return Ok(());
    };
    let Pending { name, new } = pending;
    let id = new.unwrap_or(ObjectId::ZERO);
    told.push(Told {
        name,
        outcome: Ok(id),
    })?;
    Ok(())
}

impl Telling {
    /// A line that accepts a command.
    fn accept(self, alloc: Global, name: &[u8]) -> Result<Telling, PktError>
        ensures { Gives (λ t. onward (telling_state t)) result (told_by 0 (bytes_of self.unpack) (map told_of self.told.items) (option_map pending_of self.pending) (Said.accepts name.now)) }
    {
        let Telling {
            unpack,
            told,
            pending,
        } = self;
        let mut told = told;
        settle(&mut told, pending)?;
        if told.len() >= MAX_COMMANDS {
            return Err(PktError::Refused(PktFault::TooMany));
        }
        let name = name.to_vec(alloc)?;
        let pending = Some(Pending { name, new: None });
        Ok(Telling {
            unpack,
            told,
            pending,
        })
    }

    /// A line that refuses a command.
    fn refuse(self, alloc: Global, name: &[u8], reason: &[u8]) -> Result<Telling, PktError>
        ensures { Gives (λ t. onward (telling_state t)) result (told_by 0 (bytes_of self.unpack) (map told_of self.told.items) (option_map pending_of self.pending) (Said.refuses name.now reason.now)) }
    {
        let Telling {
            unpack,
            told,
            pending,
        } = self;
        let mut told = told;
        settle(&mut told, pending)?;
        if told.len() >= MAX_COMMANDS {
            return Err(PktError::Refused(PktFault::TooMany));
        }
        let name = name.to_vec(alloc)?;
        let reason = reason.to_vec(alloc)?;
        told.push(Told {
            name,
            outcome: Err(reason),
        })?;
        Ok(Telling {
            unpack,
            told,
            pending: None,
        })
    }

    /// An option of the accepted command of the last line.
    fn opt(self, new: Option<ObjectId>, number: u64) -> Result<Telling, PktError>
        ensures { Gives (λ t. onward (telling_state t)) result (opted number (bytes_of self.unpack) (map told_of self.told.items) (option_map pending_of self.pending) new) }
    {
        let Telling {
            unpack,
            told,
            pending,
        } = self;
        let Some(pending) = pending else {
            return Err(PktError::Refused(PktFault::BadRecord(number)));
        };
        let Pending { name, new: before } = pending;
        let new = before.or(new);
        Ok(Telling {
            unpack,
            told,
            pending: Some(Pending { name, new }),
        })
    }

    /// The line of a number after the first.
    fn tell(self, alloc: Global, line: &[u8], number: u64) -> Result<Telling, PktError>
        ensures { Gives (λ t. onward (telling_state t)) result (told_by number (bytes_of self.unpack) (map told_of self.told.items) (option_map pending_of self.pending) (said line.now)) }
    {
        match said(line) {
            LineSays::Accepts(name) => self.accept(alloc, name),
            LineSays::Refuses(name, reason) => self.refuse(alloc, name, reason),
            LineSays::Opts(new) => self.opt(new, number),
            LineSays::Nothing => Err(PktError::Refused(PktFault::BadRecord(number))),
        }
    }

    /// What was told, once no more lines come.
    fn finish(self) -> Result<Report, AllocError>
        ensures { IfOk result (λ report. report_text report ≡ record { unpack = bytes_of self.unpack; told = settled (map told_of self.told.items) (option_map pending_of self.pending) }) }
    {
        let Telling {
            unpack,
            told,
            pending,
        } = self;
        let mut told = told;
        settle(&mut told, pending)?;
        Ok(Report { unpack, told })
    }
}

/// A report of which the first line was read.
fn started(alloc: Global, unpack: Option<&[u8]>) -> Result<Telling, AllocError>
    ensures { IfOk result (λ t. telling_state t ≡ ReportState.telling (option_map (λ w. w.now) unpack.entry) [] None) }
{
    let unpack = match unpack {
        Some(words) => Some(words.to_vec(alloc)?),
        None => None,
    };
    Ok(Telling {
        unpack,
        told: Vec::new(alloc),
        pending: None,
    })
}

impl MessageReader for ReportReader {
    type Message = Report;

    ghost State = { ReportState };

    ghost Text = { ReportText };

    ghost state_of = { report_state };

    ghost text_of = { report_text };

    ghost start = { unpacking };

    ghost step = { report_step };

    fn new(_: Global) -> ReportReader {
        ReportReader::Start
    }

    fn take(
        self,
        alloc: Global,
        line: Line<'_>,
        number: u64,
    ) -> Result<Step<ReportReader, Report>, PktError> {
        match self {
            ReportReader::Start => {
                let Line::Data(data) = line else {
                    return Err(PktError::Refused(PktFault::BadRecord(number)));
                };
                let Some(unpack) = unpack_line(data) else {
                    return Err(PktError::Refused(PktFault::BadRecord(number)));
                };
                let telling = started(alloc, unpack)?;
                Ok(Step::More(ReportReader::Told(telling)))
            }
            ReportReader::Told(telling) => match line {
                Line::Flush => {
                    let report = telling.finish()?;
                    Ok(Step::Done(report))
                }
                Line::Data(data) => {
                    let telling = telling.tell(alloc, data, number)?;
                    Ok(Step::More(ReportReader::Told(telling)))
                }
            },
        }
    }

    ghost line_faults = { report_step_own };
}
