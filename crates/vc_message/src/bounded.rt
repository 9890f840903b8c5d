//! A message that may have so much before its objects and no more.
ghost use Rattle.std.specs.Prelude.{◌<◌, IfErr, IfNone, IfOk, IfSome, IsErrOf, OnOk};
ghost use Rattle.vc_message.specs.Bounded.{FailsWithin, IsBeyond, IsWithin};
ghost use Rattle.vc_message.specs.Incoming.{TakesNothing};
ghost use Rattle.vc_message.specs.Source.{TellsFailures};
ghost use Rattle.vc_message.specs.Streaming.{TakesHead, TakesSome};
ghost use Rattle.vc_message.specs.declared.incoming_fault.IncomingFault.TheVariants.{Failed};

use crate::incoming_fault::IncomingFault;
use crate::reader::AnyReader;
use crate::skipping::{skip_pack, skip_push};
use crate::source::Source;
use crate::streaming::{Head, Taken, head_of, take_line};
use std::alloc::Global;
use vc_pkt::{MessageReader, PktFault, Step, parse_line};

/// How much a message may have before its objects. What has no objects has it all before them.
#[derive(Clone, Copy, Debug)]
pub struct Bound {
    /// How many bytes, but for the last line.
    pub bytes: u64,
    /// How many lines.
    pub lines: u64,
}

// Refuses to take one line more if as many lines or bytes were taken as there may be.
fn stay_within(bytes: u64, lines: u64, bound: Bound) -> Result<(), PktFault>
    ensures ok { OnOk result ((bytes < bound.bytes) × (lines < bound.lines)) }
    ensures fault { IfErr result (IsBeyond bound bytes lines) }
{
    if bound.lines <= lines {
        return Err(PktFault::TooMany);
    }
    if bound.bytes <= bytes {
        return Err(PktFault::TooLarge);
    }
    Ok(())
}

/// The next message, or what stands before its objects if it carries some, as [`read_head`](crate::read_head) takes it. If it has
/// more of that than it may, it is refused as soon as this is known: more lines are too many (84), and more bytes too large (3).
pub fn read_head_within<R: Source>(
    alloc: Global,
    reader: &mut R,
    bound: Bound,
) -> Result<Option<(Head, Taken)>, IncomingFault>
    ensures head { IfOk result (λ found. IfSome found (λ f. TakesHead (R.remaining reader.old) (R.remaining reader.new) f.0 f.1.bytes f.1.lines)) }
    ensures few { IfOk result (λ found. IfSome found (λ f. f.1.lines < f.1.bytes)) }
    ensures within { IfOk result (λ found. IfSome found (λ f. IsWithin bound f.1)) }
    ensures end { IfOk result (λ found. IfNone found (TakesNothing (R.remaining reader.old) (R.remaining reader.new))) }
    ensures fault { IfErr result (FailsWithin bound (R.remaining reader.old) (R.remaining reader.new)) }
    ensures failures { TellsFailures R.failed R.can_fail reader.old reader.new (IsErrOf result Failed) }
{
    let mut line = Vec::new(alloc);
    let mut bytes = 0u64;
    let mut lines = 0u64;
    let mut state = AnyReader::new(alloc);
    'lines: loop {
        stay_within(bytes, lines, bound)?;
        let Some(end) = take_line(reader, &mut line, bytes)? else {
            return Ok(None);
        };
        let Ok((found, _)) = parse_line(&line) else {
            return Err(IncomingFault::Failed);
        };
        let step = state.take(alloc, found, lines)?;
        bytes = end;
        lines += 1;
        match step {
            Step::Done(message) => {
                let taken = Taken { bytes, lines, line };
                return Ok(Some((Head::Message(message), taken)));
            }
            Step::More(next) => match head_of(next) {
                Ok(head) => {
                    let taken = Taken { bytes, lines, line };
                    return Ok(Some((head, taken)));
                }
                Err(same) => state = same,
            },
        }
    }
}

/// Reads the next message to its end, as [`skip_message`](crate::skip_message) does, unless it has more before its objects than it may.
pub fn skip_within<R: Source>(
    alloc: Global,
    reader: &mut R,
    bound: Bound,
) -> Result<Option<()>, IncomingFault>
    ensures message { IfOk result (λ found. IfSome found (λ u. TakesSome (R.remaining reader.old) (R.remaining reader.new))) }
    ensures end { IfOk result (λ found. IfNone found (TakesNothing (R.remaining reader.old) (R.remaining reader.new))) }
    ensures fault { IfErr result (FailsWithin bound (R.remaining reader.old) (R.remaining reader.new)) }
    ensures failures { TellsFailures R.failed R.can_fail reader.old reader.new (IsErrOf result Failed) }
{
    let Some(found) = read_head_within(alloc, reader, bound)? else {
        return Ok(None);
    };
    let (head, taken) = found;
    match head {
        Head::Message(_) => Ok(Some(())),
        Head::Push(_) => {
            skip_push(alloc, reader, taken)?;
            Ok(Some(()))
        }
        Head::Pack(_) => {
            skip_pack(alloc, reader, taken)?;
            Ok(Some(()))
        }
    }
}
