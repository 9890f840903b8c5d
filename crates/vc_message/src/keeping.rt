//! The next message of a source, as the bytes that it is.
ghost use Rattle.std.specs.Prelude.{◌≡◌, ◌≤◌, ◌+◌, ◌++◌, ℕ, List, [], Option, Some, IfErr, IfNone, IfOk, IfSome, IsErr, IsErrOf, IsTrue, MatchResult, false, length, take, vec_capacity, vec_len};
ghost use Rattle.std.specs.Io.{ReadsAtMost};
ghost use Rattle.std.specs.Io.KnownBytes.{ReadConsumes};
ghost use Rattle.vc_model.specs.Message.{Message as Sent};
ghost use Rattle.vc_message.specs.Incoming.{TakesNothing};
ghost use Rattle.vc_message.specs.Keeping.{IsKeeping, KeepsGiven, KeepsMessage, KeepsNone, TakesThese, is_over, kept_as, refusal};
ghost use Rattle.vc_message.specs.Machine.{Reads};
ghost use Rattle.vc_message.specs.Source.{TellsFailures};
ghost use Rattle.vc_message.specs.declared.incoming_fault.IncomingFault.TheVariants.{Failed};

use crate::incoming_fault::IncomingFault;
use crate::skipping::skip_message;
use crate::source::{ReadFailed, Source};
use std::alloc::Global;
use std::marker::{Brand, Model, PhantomData};
use vc_pkt::PktFault;

// Where a source stood before its bytes were kept: the bytes still to come, how often it had failed, and whether it could. Each call
// picks it.
trait Origin {
    ghost use Rattle.std.specs.Prelude.{ℕ, List, Option};

    ghost front: { Option (List ℕ) };

    ghost failed: { ℕ };

    ghost can_fail: { Type 0 };
}

impl Origin for Brand {
    ghost use Rattle.std.specs.Prelude.{None};

    ghost front = { None };

    ghost failed = { 0 };

    ghost can_fail = { ⊥ };
}

// A source whose bytes are kept as they are read. Once they are more than the limit, or there is no memory for more, the source is not
// asked any more.
struct KeepingSource<R: Source, J: Origin> {
    source: R,
    kept: Vec<u8>,
    limit: u64,
    failed: u64,
    refused: bool,
    of: PhantomData<J>,
}

impl<R: Source, J: Origin> Model for KeepingSource<R, J> {
    ghost use Rattle.vc_message.specs.Keeping.{IsKeeping, KeepingText};

    ghost Value = { KeepingText R };

    ghost view = { λ k. record { source = k.source; kept = k.kept.items; failed = k.failed; refused = k.refused } };

    ghost invariant = { λ k. IsKeeping R.remaining R.failed R.can_fail J.front J.failed J.can_fail k.source k.kept.items k.failed k.refused };
}

// Whether the bytes are more than the limit.
fn is_over(kept: &Vec<u8>, limit: u64) -> bool
    ensures { result ≡ is_over kept.now.items limit }
{
    limit < kept.len() as u64
}

// Whether so many bytes more may be kept. Then there is room for them.
fn make_room(kept: &mut Vec<u8>, limit: u64, count: usize) -> bool
    ensures room { IsTrue result → vec_len kept.new + count ≤ vec_capacity kept.new }
    ensures same { kept.new.items ≡ kept.old.items }
{
    if is_over(kept, limit) {
        return false;
    }
    match kept.reserve(count) {
        Ok(()) => true,
        Err(_) => false,
    }
}

// One read, whose bytes are kept.
fn read_on<R: Source>(
    source: &mut R,
    kept: &mut Vec<u8>,
    buffer: &mut [u8],
) -> Result<usize, ReadFailed>
    requires room { vec_len kept.old + length buffer.old ≤ vec_capacity kept.old }
    ensures bound { ReadsAtMost result buffer.new }
    ensures bytes { ReadConsumes (R.remaining source.old) (R.remaining source.new) result buffer.new }
    ensures kept { MatchResult result (λ n. kept.new.items ≡ kept.old.items ++ take n buffer.new) (λ _. kept.new.items ≡ kept.old.items) }
    ensures failures { TellsFailures R.failed R.can_fail source.old source.new (IsErr result) }
{
    let read = source.read(buffer)?;
    let found = &buffer[..read];
    if kept.extend_from_slice(found).is_err() {
        // Room was made for as many as the buffer holds.
        return Err(ReadFailed);
    }
    Ok(read)
}

impl<R: Source, J: Origin> KeepingSource<R, J> {
    // Nothing was kept yet.
    fn new(alloc: Global, source: R, limit: u64) -> KeepingSource<R, J>
        requires front { J.front ≡ R.remaining source }
        requires failed { J.failed ≡ R.failed source }
        requires calm { R.can_fail source → J.can_fail }
        ensures { result ≡ record { source = source; kept = []; failed = 0; refused = false } }
    {
        KeepingSource {
            source,
            kept: Vec::new(alloc),
            limit,
            failed: 0,
            refused: false,
            of: PhantomData,
        }
    }

    // The source, its bytes that were kept, and whether a read was refused.
    fn into_parts(self) -> (R, Vec<u8>, bool)
        ensures source { result.0 ≡ self.source }
        ensures is { IsKeeping R.remaining R.failed R.can_fail J.front J.failed J.can_fail result.0 result.1.items self.failed result.2 }
    {
        let KeepingSource {
            source,
            kept,
            limit: _,
            failed: _,
            refused,
            of: _,
        } = self;
        (source, kept, refused)
    }
}

impl<R: Source, J: Origin> Source for KeepingSource<R, J> {
    ghost use Rattle.std.specs.Prelude.{⊤};

    ghost remaining = { λ k. R.remaining k.source };

    ghost failed = { λ k. k.failed };

    ghost can_fail = { λ _. ⊤ };

    fn read(&mut self, buffer: &mut [u8]) -> Result<usize, ReadFailed> {
        if !make_room(&mut self.kept, self.limit, buffer.len()) {
            self.refused = true;
            self.failed = self.failed.saturating_add(1);
            return Err(ReadFailed);
        }
        match read_on(&mut self.source, &mut self.kept, buffer) {
            Ok(read) => Ok(read),
            Err(failed) => {
                self.failed = self.failed.saturating_add(1);
                Err(failed)
            }
        }
    }
}

// Why a read was refused.
fn refusal(kept: &Vec<u8>, limit: u64) -> IncomingFault
    ensures { result ≡ refusal kept.now.items limit }
{
    if is_over(kept, limit) {
        return IncomingFault::Unread(PktFault::TooLarge);
    }
    IncomingFault::Memory
}

// What is told of the bytes that were kept.
fn kept_as(
    skipped: Result<Option<()>, IncomingFault>,
    kept: Vec<u8>,
    limit: u64,
    refused: bool,
) -> Result<Option<Vec<u8>>, IncomingFault>
    ensures { result ≡ kept_as skipped kept limit refused }
{
    match skipped {
        Ok(None) => Ok(None),
        Ok(Some(())) => {
            if is_over(&kept, limit) {
                return Err(IncomingFault::Unread(PktFault::TooLarge));
            }
            Ok(Some(kept))
        }
        Err(fault) => match fault {
            IncomingFault::Failed => {
                if refused {
                    return Err(refusal(&kept, limit));
                }
                Err(IncomingFault::Failed)
            }
            IncomingFault::Memory => Err(IncomingFault::Memory),
            IncomingFault::Unread(fault) => Err(IncomingFault::Unread(fault)),
        },
    }
}

// The next message of a source that stands so.
fn keep_at<J: Origin, R: Source>(
    alloc: Global,
    source: R,
    limit: u64,
) -> (R, Result<Option<Vec<u8>>, IncomingFault>)
    requires front { J.front ≡ R.remaining source }
    requires failed { J.failed ≡ R.failed source }
    requires calm { R.can_fail source → J.can_fail }
    requires could { J.can_fail → R.can_fail source }
    ensures message { IfOk result.1 (λ found. IfSome found (λ bytes. KeepsMessage limit (R.remaining source) (R.remaining result.0) bytes.items)) }
    ensures end { IfOk result.1 (λ found. IfNone found (TakesNothing (R.remaining source) (R.remaining result.0))) }
    ensures fault { IfErr result.1 (KeepsNone limit (R.remaining source) (R.remaining result.0)) }
    ensures failures { TellsFailures R.failed R.can_fail source result.0 (IsErrOf result.1 Failed) }
{
    let mut keeping = KeepingSource::<R, J>::new(alloc, source, limit);
    let skipped = skip_message(alloc, &mut keeping);
    let (source, kept, refused) = keeping.into_parts();
    (source, kept_as(skipped, kept, limit, refused))
}

/// Takes the next message, and no byte after it, and gives its bytes; none if the source is at its end before the first byte. The
/// source is handed back.
///
/// Bytes that are no message are refused with their first fault as soon as it has come, and a message of more bytes than the limit is
/// too large (3): no more than the limit and one line are held. Of a message that isn't given the bytes are lost.
pub fn keep_message<R: Source>(
    alloc: Global,
    source: R,
    limit: u64,
) -> (R, Result<Option<Vec<u8>>, IncomingFault>)
    ensures message { IfOk result.1 (λ found. IfSome found (λ bytes. KeepsMessage limit (R.remaining source) (R.remaining result.0) bytes.items)) }
    ensures end { IfOk result.1 (λ found. IfNone found (TakesNothing (R.remaining source) (R.remaining result.0))) }
    ensures fault { IfErr result.1 (KeepsNone limit (R.remaining source) (R.remaining result.0)) }
    ensures known { (m : Sent) (bytes rest : List ℕ) → R.remaining source ≡ Some (bytes ++ rest) → Reads bytes m → length bytes ≤ limit → KeepsGiven bytes rest (R.remaining result.0) result.1 }
    ensures failures { TellsFailures R.failed R.can_fail source result.0 (IsErrOf result.1 Failed) }
{
    keep_at::<Brand, R>(alloc, source, limit)
}

/// If the bytes of a source are known, those that were kept of a message are the message's: each was needed, and they spell it.
pub fn kept_bytes_are_the_message()
    ensures { (limit : ℕ) (before bytes : List ℕ) (new : Option (List ℕ)) → KeepsMessage limit (Some before) new bytes → TakesThese (Some before) new bytes }
{}
