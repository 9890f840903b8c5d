//! A message that carries objects, taken object by object.
ghost use Rattle.std.specs.Prelude.{◌≡◌, ◌+◌, ◌^◌, ◌<◌, [], IfOk, IfErr, IfSome, IfNone, IsErrOf, IsTrue, MatchResult, OnOk, false};
ghost use Rattle.vc_pkt.specs.Incoming.{incoming};
ghost use Rattle.vc_pkt.specs.ObjectStream.{between};
ghost use Rattle.vc_pkt.specs.ObjectStreamView.{progress_of};
ghost use Rattle.vc_pkt.specs.StreamObjectView.{stored};
ghost use Rattle.vc_message.specs.AnyMessage.{any_step, beginning};
ghost use Rattle.vc_message.specs.AnyView.{reader_state};
ghost use Rattle.vc_message.specs.Incoming.{Fails, TakesNothing};
ghost use Rattle.vc_message.specs.Source.{TellsFailures};
ghost use Rattle.vc_message.specs.Streaming.{FailsAtLine, FailsFrom, IsBeforeAll, IsHeadAt, TakesBad, TakesEnd, TakesHead, TakesLine, TakesMore};
ghost use Rattle.vc_message.specs.declared.incoming_fault.IncomingFault.TheVariants.{Failed};

use crate::incoming::{line_at, push_line};
use crate::incoming_fault::IncomingFault;
use crate::message::Message;
use crate::reader::AnyReader;
use crate::source::Source;
use std::alloc::Global;
use vc_fetch::PackReader;
use vc_object::ObjectId;
use vc_pkt::{
    IncomingObjects, MessageReader, ObjectStep, Step, StreamObject, StreamProgress, parse_line,
    take_object_line,
};
use vc_push::{PushHead, PushReader, PushStream};

/// Takes the next line of a message of which so many bytes were taken, in place of what the buffer held, and tells where it
/// ends; none where the reader is at its end before the first byte.
pub(crate) fn take_line<R: Source>(
    reader: &mut R,
    line: &mut Vec<u8>,
    place: u64,
) -> Result<Option<u64>, IncomingFault>
    ensures line { IfOk result (λ found. IfSome found (λ end. TakesLine (R.remaining reader.old) (R.remaining reader.new) place end line.new.items)) }
    ensures end { IfOk result (λ found. IfNone found (IsBeforeAll (R.remaining reader.old) (R.remaining reader.new) place)) }
    ensures fault { IfErr result (FailsAtLine (R.remaining reader.old) (R.remaining reader.new) place) }
    ensures failures { TellsFailures R.failed R.can_fail reader.old reader.new (IsErrOf result Failed) }
{
    line.clear();
    push_line(reader, line)?;
    let Some(end) = place.checked_add(line.len() as u64) else {
        return Err(IncomingFault::Memory);
    };
    if end == 0 {
        return Ok(None);
    }
    line_at(line.as_slice(), place)?;
    Ok(Some(end))
}

/// What comes first of a message.
#[derive(Drop)]
pub enum Head {
    /// All of it.
    Message(Message),
    /// What stands before the objects of a push.
    Push(PushHead),
    /// What stands before the objects of a pack.
    Pack(Option<ObjectId>),
}

// Whether no object has begun.
fn is_at_start(objects: &IncomingObjects, progress: &StreamProgress) -> bool
    ensures { IsTrue result → (incoming objects.now ≡ []) × (progress_of progress.now ≡ between) }
{
    let StreamProgress::Between = progress else {
        return false;
    };
    match objects {
        IncomingObjects::Ascending(row) => row.items.is_empty(),
        IncomingObjects::Mixed(_) => false,
    }
}

/// What stands before the objects, if these come next; else the reader as it was.
pub(crate) fn head_of(state: AnyReader) -> Result<Head, AnyReader>
    ensures { MatchResult result (λ head. IsHeadAt head (reader_state state)) (λ same. reader_state same ≡ reader_state state) }
{
    match state {
        AnyReader::Push(PushReader::Objects(head, stream)) => {
            let PushStream { carried, progress } = stream;
            match carried {
                Ok(objects) => {
                    if is_at_start(&objects, &progress) {
                        return Ok(Head::Push(head));
                    }
                    let carried = Ok(objects);
                    let stream = PushStream { carried, progress };
                    Err(AnyReader::Push(PushReader::Objects(head, stream)))
                }
                Err(bad) => {
                    let carried = Err(bad);
                    let stream = PushStream { carried, progress };
                    Err(AnyReader::Push(PushReader::Objects(head, stream)))
                }
            }
        }
        AnyReader::Pack(PackReader::Objects(ack, stream)) => {
            if is_at_start(&stream.objects, &stream.progress) {
                return Ok(Head::Pack(*ack));
            }
            Err(AnyReader::Pack(PackReader::Objects(ack, stream)))
        }
        other => Err(other),
    }
}

/// How much of a message was taken.
#[derive(Drop)]
pub struct Taken {
    /// How many bytes.
    pub bytes: u64,
    /// How many lines.
    pub lines: u64,
    /// The last line. Its memory is used again.
    pub line: Vec<u8>,
}

/// The next message, or what stands before its objects where it carries some, and how much of it was taken; none where the reader is
/// at its end before the first byte. Of its bytes one line is held.
pub fn read_head<R: Source>(
    alloc: Global,
    reader: &mut R,
) -> Result<Option<(Head, Taken)>, IncomingFault>
    ensures head { IfOk result (λ found. IfSome found (λ f. TakesHead (R.remaining reader.old) (R.remaining reader.new) f.0 f.1.bytes f.1.lines)) }
    ensures few { IfOk result (λ found. IfSome found (λ f. f.1.lines < f.1.bytes)) }
    ensures end { IfOk result (λ found. IfNone found (TakesNothing (R.remaining reader.old) (R.remaining reader.new))) }
    ensures fault { IfErr result (Fails any_step beginning (R.remaining reader.old) (R.remaining reader.new)) }
    ensures failures { TellsFailures R.failed R.can_fail reader.old reader.new (IsErrOf result Failed) }
{
    let mut line = Vec::new(alloc);
    let mut bytes = 0u64;
    let mut lines = 0u64;
    let mut state = AnyReader::new(alloc);
    'lines: loop {
        let Some(end) = take_line(reader, &mut line, bytes)? else {
            return Ok(None);
        };
        let Ok((found, _)) = parse_line(&line) else {
            return Err(IncomingFault::Failed);
        };
        let step = state.take(alloc, found, lines)?;
        bytes = end;
        lines += 1;
        match step {
            Step::Done(message) => {
                let taken = Taken { bytes, lines, line };
                return Ok(Some((Head::Message(message), taken)));
            }
            Step::More(next) => match head_of(next) {
                Ok(head) => {
                    let taken = Taken { bytes, lines, line };
                    return Ok(Some((head, taken)));
                }
                Err(same) => state = same,
            },
        }
    }
}

/// The next object of a message that carries some and of which what stands before them was taken, and the number of the line that
/// began it; none where the message has ended. Of its bytes one line and one body are held.
pub fn next_object<R: Source>(
    alloc: Global,
    reader: &mut R,
    taken: &mut Taken,
) -> Result<Option<(u64, StreamObject)>, IncomingFault>
    requires few { taken.old.lines < taken.old.bytes }
    ensures few { taken.new.lines < taken.new.bytes }
    ensures more { OnOk result ((taken.old.bytes < taken.new.bytes) × (taken.new.bytes < 2 ^ 64)) }
    ensures object { IfOk result (λ found. IfSome found (λ f. TakesMore (R.remaining reader.old) taken.old (R.remaining reader.new) taken.new (stored f.1))) }
    ensures other { IfOk result (λ found. IfSome found (λ f. TakesBad (R.remaining reader.old) taken.old (R.remaining reader.new) (stored f.1) f.0)) }
    ensures end { IfOk result (λ found. IfNone found (TakesEnd (R.remaining reader.old) taken.old (R.remaining reader.new))) }
    ensures fault { IfErr result (FailsFrom (λ c. c) (R.remaining reader.old) taken.old (R.remaining reader.new)) }
    ensures failures { TellsFailures R.failed R.can_fail reader.old reader.new (IsErrOf result Failed) }
{
    let mut progress = StreamProgress::Between;
    'lines: loop {
        let Some(end) = take_line(reader, &mut taken.line, taken.bytes)? else {
            return Err(IncomingFault::Failed);
        };
        let Ok((line, _)) = parse_line(&taken.line) else {
            return Err(IncomingFault::Failed);
        };
        let step = take_object_line(alloc, progress, line, taken.lines)?;
        taken.bytes = end;
        taken.lines += 1;
        match step {
            ObjectStep::More(next) => progress = next,
            ObjectStep::Object(first, object) => return Ok(Some((first, object))),
            ObjectStep::End => return Ok(None),
        }
    }
}
