//! One message from a reader, line by line, and no byte behind it.

ghost use Rattle.std.specs.Prelude.{◌≡◌, ◌<◌, ◌≤◌, ◌+◌, ◌++◌, ℕ, List, Some, length, take, drop, MatchOption, MatchResult, IfOk, IfErr, IfSome, IfNone, IsErr, IsErrOf, OnOk, OnErr};
ghost use Rattle.std.specs.Io.KnownBytes.{Consumes, IsAtEnd, Keeps};
ghost use Rattle.vc_pkt.specs.Faults.{FaultAt};
ghost use Rattle.vc_pkt.specs.Line.{IsLength, IsLine, max_data};
ghost use Rattle.vc_pkt.specs.LineView.{line_text};
ghost use Rattle.vc_pkt.specs.Message.{GivenBy};
ghost use Rattle.vc_model.specs.Message.{Message as Sent};
ghost use Rattle.vc_message.specs.AnyMessage.{any_step, beginning};
ghost use Rattle.vc_message.specs.AnyView.{message_text};
ghost use Rattle.vc_message.specs.Machine.{Reads};
ghost use Rattle.vc_message.specs.Incoming.{AddsBytes, AddsLine, Fails, GivesMessage, IsFaultOf, IsLoss, IsRest, TakesMessage, TakesNothing, TakesText, TakesWithinLine};
ghost use Rattle.vc_message.specs.Source.{TellsFailures};
ghost use Rattle.vc_message.specs.declared.incoming_fault.IncomingFault.TheVariants.{Failed};

use crate::incoming_fault::IncomingFault;
use crate::message::Message;
use crate::reader::AnyReader;
use crate::source::{ReadFailed, Source};
use hex::FromHex;
use std::alloc::Global;
use vc_pkt::{Line, MAX_DATA, MessageReader, PktFault, Step, parse_line};

/// One read into the buffer, from this place on.
fn read_at<R: Source>(reader: &mut R, buffer: &mut [u8], at: usize) -> Result<usize, ReadFailed>
    requires { at < length buffer.old }
    ensures front { take at buffer.new ≡ take at buffer.old }
    ensures fits { IfOk result (λ n. at + n ≤ length buffer.new) }
    ensures ok { IfOk result (λ n. Consumes (R.remaining reader.old) (R.remaining reader.new) (take n (drop at buffer.new))) }
    ensures end { IfOk result (λ n. n ≡ 0 → IsAtEnd (R.remaining reader.new)) }
    ensures err { OnErr result (Keeps (R.remaining reader.old) (R.remaining reader.new)) }
    ensures failures { TellsFailures R.failed R.can_fail reader.old reader.new (IsErr result) }
{
    let read = reader.read(&mut buffer[at..])?;
    Ok(read)
}

/// Fills the buffer from this place on, and says up to where: its end, unless the reader comes to its own.
fn fill<R: Source>(reader: &mut R, buffer: &mut [u8], at: usize) -> Result<usize, IncomingFault>
    requires { at ≤ length buffer.old }
    ensures within { IfOk result (λ end. (at ≤ end) × (end ≤ length buffer.new)) }
    ensures same { OnOk result ((length buffer.new ≡ length buffer.old) × (take at buffer.new ≡ take at buffer.old)) }
    ensures bytes { IfOk result (λ end. Consumes (R.remaining reader.old) (R.remaining reader.new) (drop at (take end buffer.new))) }
    ensures end { IfOk result (λ end. end < length buffer.new → IsAtEnd (R.remaining reader.new)) }
    ensures err { OnErr result ((bytes : List ℕ) × Consumes (R.remaining reader.old) (R.remaining reader.new) bytes × (at + length bytes ≤ length buffer.old)) }
    ensures fault { IfErr result (λ fault. fault ≡ Failed) }
    ensures failures { TellsFailures R.failed R.can_fail reader.old reader.new (IsErrOf result Failed) }
{
    let mut filled = at;
    'reads: while filled < buffer.len() {
        match read_at(reader, buffer, filled)? {
            0 => return Ok(filled),
            n => filled += n,
        }
    }
    Ok(filled)
}

/// Adds the reader's next bytes, so many, or fewer where it comes to its end.
fn push_read<R: Source>(
    reader: &mut R,
    bytes: &mut Vec<u8>,
    count: usize,
) -> Result<(), IncomingFault>
    requires { count ≤ max_data }
    ensures ok { OnOk result (AddsBytes (R.remaining reader.old) (R.remaining reader.new) bytes.old.items bytes.new.items count) }
    ensures err { OnErr result ((read : List ℕ) × Consumes (R.remaining reader.old) (R.remaining reader.new) read × (length read ≤ count)) }
    ensures fault { IfErr result IsLoss }
    ensures failures { TellsFailures R.failed R.can_fail reader.old reader.new (IsErrOf result Failed) }
{
    let start = bytes.len();
    bytes.resize(start + count, 0)?;
    let end = fill(reader, bytes.as_mut_slice(), start)?;
    bytes.truncate(end);
    Ok(())
}

/// The number that four hex digits write.
fn stated_length(digits: &[u8]) -> Option<usize>
    requires { length digits.now ≡ 4 }
    ensures { MatchOption result ((n : ℕ) → IsLength digits.now n → ⊥) (λ n. IsLength digits.now n) }
{
    match <[u8; 2] as FromHex>::from_hex(digits) {
        Ok(bytes) => Some(u16::from_be_bytes(bytes) as usize),
        Err(_) => None,
    }
}

/// How many bytes a line has behind its first four.
fn rest_len(front: &[u8]) -> usize
    requires { length front.now ≤ 4 }
    ensures { IsRest front.now result }
{
    if front.len() < 4 {
        return 0;
    }
    let Some(length) = stated_length(front) else {
        return 0;
    };
    if length < 4 {
        return 0;
    }
    if length - 4 > MAX_DATA {
        return 0;
    }
    length - 4
}

/// What stands behind the first bytes.
fn behind(bytes: &Vec<u8>, start: usize) -> &[u8]
    requires { start ≤ length bytes.now.items }
    ensures { result.now ≡ drop start bytes.now.items }
{
    &bytes[start..]
}

/// Adds the reader's next line, and no byte behind it. Where no line begins with the next four bytes it adds these, and where the
/// reader comes to its end before the line does, what there is of it.
pub(crate) fn push_line<R: Source>(reader: &mut R, bytes: &mut Vec<u8>) -> Result<(), IncomingFault>
    ensures ok { OnOk result (AddsLine (R.remaining reader.old) (R.remaining reader.new) bytes.old.items bytes.new.items) }
    ensures err { OnErr result ((read : List ℕ) × TakesWithinLine (R.remaining reader.old) (R.remaining reader.new) read) }
    ensures fault { IfErr result IsLoss }
    ensures failures { TellsFailures R.failed R.can_fail reader.old reader.new (IsErrOf result Failed) }
{
    let start = bytes.len();
    push_read(reader, bytes, 4)?;
    let rest = rest_len(behind(bytes, start));
    if rest == 0 {
        return Ok(());
    }
    push_read(reader, bytes, rest)?;
    Ok(())
}

/// The line that the bytes at this place are, or why they are none.
pub(crate) fn line_at(bytes: &[u8], place: u64) -> Result<Line<'_>, PktFault>
    ensures { MatchResult result (λ line. (spelled : List ℕ) × (more : List ℕ) × IsLine (line_text line) spelled × (bytes.now ≡ spelled ++ more)) (FaultAt place bytes.now) }
{
    match parse_line(bytes) {
        Ok((line, _)) => Ok(line),
        Err(fault) => Err(match fault {
            PktFault::BadLength(_) => PktFault::BadLength(place),
            _ => PktFault::CutMessage,
        }),
    }
}

/// Takes one message that this kind of reader reads. Of its bytes one line is held at a time.
fn take_message<M: MessageReader, R: Source>(
    alloc: Global,
    reader: &mut R,
) -> Result<Option<M::Message>, IncomingFault>
    ensures message { IfOk result (λ taken. IfSome taken (λ message. TakesText M.step M.start (GivenBy M.step M.start) (R.remaining reader.old) (R.remaining reader.new) (M.text_of message))) }
    ensures end { IfOk result (λ taken. IfNone taken (TakesNothing (R.remaining reader.old) (R.remaining reader.new))) }
    ensures fault { IfErr result (Fails M.step M.start (R.remaining reader.old) (R.remaining reader.new)) }
    ensures failures { TellsFailures R.failed R.can_fail reader.old reader.new (IsErrOf result Failed) }
{
    let mut line = Vec::new(alloc);
    let mut place = 0u64;
    let mut number = 0u64;
    let mut state = M::new(alloc);
    'lines: loop {
        line.clear();
        push_line(reader, &mut line)?;
        let Some(end) = place.checked_add(line.len() as u64) else {
            return Err(IncomingFault::Memory);
        };
        if end == 0 {
            return Ok(None);
        }
        let found = line_at(line.as_slice(), place)?;
        match state.take(alloc, found, number)? {
            Step::More(next) => state = next,
            Step::Done(message) => return Ok(Some(message)),
        }
        place = end;
        number += 1;
    }
}

/// The next message, and no byte behind it is taken from the reader; none where the reader is at its end before the first byte.
/// However the reader cuts the bytes, the answer is the same. Each line is asked for in two reads, its first four bytes and its
/// rest, so that a reader to which a read is dear should be buffered.
///
/// Bytes that are no message are refused with their first fault as soon as it has come, and 83 where the reader ends before the
/// message: what is held is what was read of the message so far, and the bytes of one line. What was read of a message that isn't
/// given is lost.
pub fn read_message<R: Source>(
    alloc: Global,
    reader: &mut R,
) -> Result<Option<Message>, IncomingFault>
    ensures message { IfOk result (λ taken. IfSome taken (λ message. TakesMessage (R.remaining reader.old) (R.remaining reader.new) (message_text message))) }
    ensures end { IfOk result (λ taken. IfNone taken (TakesNothing (R.remaining reader.old) (R.remaining reader.new))) }
    ensures fault { IfErr result (Fails any_step beginning (R.remaining reader.old) (R.remaining reader.new)) }
    ensures known { (m : Sent) (bytes rest : List ℕ) → R.remaining reader.old ≡ Some (bytes ++ rest) → Reads bytes m → GivesMessage m rest (R.remaining reader.new) result }
    ensures unread { IfErr result (IsFaultOf (R.remaining reader.old)) }
    ensures failures { TellsFailures R.failed R.can_fail reader.old reader.new (IsErrOf result Failed) }
{
    take_message::<AnyReader, R>(alloc, reader)
}
