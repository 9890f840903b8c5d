//! Reading a message of any kind line by line.

ghost use Rattle.std.specs.Prelude.{IfOk};
ghost use Rattle.vc_pkt.specs.LineView.{line_text};
ghost use Rattle.vc_pkt.specs.StepView.{Gives, stepped};
ghost use Rattle.vc_fetch.specs.Advert.{advert_step};
ghost use Rattle.vc_fetch.specs.AdvertView.{advert_state};
ghost use Rattle.vc_fetch.specs.ErrorMessage.{error_step};
ghost use Rattle.vc_fetch.specs.ListMessage.{list_step};
ghost use Rattle.vc_fetch.specs.Pack.{pack_step};
ghost use Rattle.vc_fetch.specs.PackView.{pack_state};
ghost use Rattle.vc_fetch.specs.Want.{want_step};
ghost use Rattle.vc_fetch.specs.WantView.{want_state};
ghost use Rattle.vc_push.specs.Push.{push_step};
ghost use Rattle.vc_push.specs.PushView.{push_state};
ghost use Rattle.vc_push.specs.Report.{report_step};
ghost use Rattle.vc_push.specs.ReportView.{report_state};
ghost use Rattle.vc_message.specs.AnyMessage.{AnyState, MessageText, any_step, any_step_own, as_advert, as_error, as_list, as_pack, as_push, as_report, as_want, beginning, first_step};
ghost use Rattle.vc_message.specs.AnyView.{IsTaken, message_text, reader_state};

use crate::message::Message;
use std::alloc::{AllocError, Global};
use vc_fetch::{AdvertReader, ErrorReader, ListReader, PackReader, WantReader};
use vc_pkt::{Line, MessageReader, PktError, PktFault, Step};
use vc_push::{PushReader, ReportReader};

/// Reads a message of any kind line by line.
#[derive(Drop)]
pub enum AnyReader {
    /// The first line has not come yet.
    Start,
    /// It was a list's.
    List(ListReader),
    /// It was a want message's.
    Want(WantReader),
    /// It was a pack's.
    Pack(PackReader),
    /// It was a report's.
    Report(ReportReader),
    /// It was an error message's.
    Error(ErrorReader),
    /// It was a push's.
    Push(PushReader),
    /// It was an advertisement's.
    Advert(AdvertReader),
}

/// A line of a list.
fn list_line(
    alloc: Global,
    reader: ListReader,
    line: Line<'_>,
    number: u64,
) -> Result<Step<AnyReader, Message>, PktError>
    ensures { Gives (stepped reader_state message_text) result (as_list (list_step number (reader.worded) (line_text line.entry))) }
{
    match reader.take(alloc, line, number) {
        Ok(Step::More(next)) => Ok(Step::More(AnyReader::List(next))),
        Ok(Step::Done(message)) => Ok(Step::Done(Message::List(message))),
        Err(error) => Err(error),
    }
}

/// A line of a want message.
fn want_line(
    alloc: Global,
    reader: WantReader,
    line: Line<'_>,
    number: u64,
) -> Result<Step<AnyReader, Message>, PktError>
    ensures { Gives (stepped reader_state message_text) result (as_want (want_step number (want_state reader) (line_text line.entry))) }
{
    match reader.take(alloc, line, number) {
        Ok(Step::More(next)) => Ok(Step::More(AnyReader::Want(next))),
        Ok(Step::Done(message)) => Ok(Step::Done(Message::Want(message))),
        Err(error) => Err(error),
    }
}

/// A line of a pack.
fn pack_line(
    alloc: Global,
    reader: PackReader,
    line: Line<'_>,
    number: u64,
) -> Result<Step<AnyReader, Message>, PktError>
    ensures { Gives (stepped reader_state message_text) result (as_pack (pack_step number (pack_state reader) (line_text line.entry))) }
{
    match reader.take(alloc, line, number) {
        Ok(Step::More(next)) => Ok(Step::More(AnyReader::Pack(next))),
        Ok(Step::Done(message)) => Ok(Step::Done(Message::Pack(message))),
        Err(error) => Err(error),
    }
}

/// A line of a report.
fn report_line(
    alloc: Global,
    reader: ReportReader,
    line: Line<'_>,
    number: u64,
) -> Result<Step<AnyReader, Message>, PktError>
    ensures { Gives (stepped reader_state message_text) result (as_report (report_step number (report_state reader) (line_text line.entry))) }
{
    match reader.take(alloc, line, number) {
        Ok(Step::More(next)) => Ok(Step::More(AnyReader::Report(next))),
        Ok(Step::Done(message)) => Ok(Step::Done(Message::Report(message))),
        Err(error) => Err(error),
    }
}

/// A line of an error message.
fn error_line(
    alloc: Global,
    reader: ErrorReader,
    line: Line<'_>,
    number: u64,
) -> Result<Step<AnyReader, Message>, PktError>
    ensures { Gives (stepped reader_state message_text) result (as_error (error_step number (tt) (line_text line.entry))) }
{
    match reader.take(alloc, line, number) {
        Ok(Step::More(next)) => Ok(Step::More(AnyReader::Error(next))),
        Ok(Step::Done(message)) => Ok(Step::Done(Message::Error(message))),
        Err(error) => Err(error),
    }
}

/// A line of a push.
fn push_line(
    alloc: Global,
    reader: PushReader,
    line: Line<'_>,
    number: u64,
) -> Result<Step<AnyReader, Message>, PktError>
    ensures { Gives (stepped reader_state message_text) result (as_push (push_step number (push_state reader) (line_text line.entry))) }
{
    match reader.take(alloc, line, number) {
        Ok(Step::More(next)) => Ok(Step::More(AnyReader::Push(next))),
        Ok(Step::Done(message)) => Ok(Step::Done(Message::Push(message))),
        Err(error) => Err(error),
    }
}

/// A line of an advertisement.
fn advert_line(
    alloc: Global,
    reader: AdvertReader,
    line: Line<'_>,
    number: u64,
) -> Result<Step<AnyReader, Message>, PktError>
    ensures { Gives (stepped reader_state message_text) result (as_advert (advert_step number (advert_state reader) (line_text line.entry))) }
{
    match reader.take(alloc, line, number) {
        Ok(Step::More(next)) => Ok(Step::More(AnyReader::Advert(next))),
        Ok(Step::Done(message)) => Ok(Step::Done(Message::Advert(message))),
        Err(error) => Err(error),
    }
}

/// What a kind's reader made of the first line: nothing, where it is no line of that kind.
fn taken(
    tried: Result<Step<AnyReader, Message>, PktError>,
) -> Result<Option<Step<AnyReader, Message>>, AllocError>
    ensures { IfOk result (IsTaken tried) }
{
    match tried {
        Ok(step) => Ok(Some(step)),
        Err(PktError::Refused(_)) => Ok(None),
        Err(PktError::Memory) => Err(AllocError),
    }
}

/// The first line, by the kind that takes it. No memory is taken for a kind that doesn't.
fn first_line(
    alloc: Global,
    line: Line<'_>,
    number: u64,
) -> Result<Step<AnyReader, Message>, PktError>
    ensures { Gives (stepped reader_state message_text) result (first_step number (line_text line.entry)) }
{
    let tried = list_line(alloc, ListReader::new(alloc), line, number);
    if let Some(step) = taken(tried)? {
        return Ok(step);
    }
    let tried = want_line(alloc, WantReader::new(alloc), line, number);
    if let Some(step) = taken(tried)? {
        return Ok(step);
    }
    let tried = pack_line(alloc, PackReader::new(alloc), line, number);
    if let Some(step) = taken(tried)? {
        return Ok(step);
    }
    let tried = report_line(alloc, ReportReader::new(alloc), line, number);
    if let Some(step) = taken(tried)? {
        return Ok(step);
    }
    let tried = error_line(alloc, ErrorReader::new(alloc), line, number);
    if let Some(step) = taken(tried)? {
        return Ok(step);
    }
    let tried = push_line(alloc, PushReader::new(alloc), line, number);
    if let Some(step) = taken(tried)? {
        return Ok(step);
    }
    let tried = advert_line(alloc, AdvertReader::new(alloc), line, number);
    if let Some(step) = taken(tried)? {
        return Ok(step);
    }
    Err(PktError::Refused(PktFault::BadRecord(number)))
}

impl MessageReader for AnyReader {
    type Message = Message;

    ghost State = { AnyState };

    ghost Text = { MessageText };

    ghost state_of = { reader_state };

    ghost text_of = { message_text };

    ghost start = { beginning };

    ghost step = { any_step };

    fn new(_: Global) -> AnyReader {
        AnyReader::Start
    }

    fn take(
        self,
        alloc: Global,
        line: Line<'_>,
        number: u64,
    ) -> Result<Step<AnyReader, Message>, PktError> {
        match self {
            AnyReader::Start => first_line(alloc, line, number),
            AnyReader::List(reader) => list_line(alloc, reader, line, number),
            AnyReader::Want(reader) => want_line(alloc, reader, line, number),
            AnyReader::Pack(reader) => pack_line(alloc, reader, line, number),
            AnyReader::Report(reader) => report_line(alloc, reader, line, number),
            AnyReader::Error(reader) => error_line(alloc, reader, line, number),
            AnyReader::Push(reader) => push_line(alloc, reader, line, number),
            AnyReader::Advert(reader) => advert_line(alloc, reader, line, number),
        }
    }

    ghost line_faults = { any_step_own };
}
