// Whether the receipts are the log's entries.
ghost use Rattle.std.specs.Prelude.{◌≡◌, ◌≢◌, ◌↔◌, ℕ, List, IfNone, IfSome, false, map, option_map, true};
ghost use Rattle.vc_desk.specs.Entry.{EntryText, answer_text, entry_text, event_text};
ghost use Rattle.vc_push.specs.Reason.{number_or_zero};
ghost use Rattle.vc_desk.specs.Entry.AnswerText.{Failed};
ghost use Rattle.vc_desk.specs.Parts.{answer_parts, event_parts, parts};
ghost use Rattle.vc_desk.specs.Served.{AllBelow, AreCopies, AreReceipts, IsCopy, receipts_of, receipts_then};
ghost use Rattle.vc_desk.specs.Talk.{receipt_text};

use crate::entry::{Answer, Entry, Event, Failure};
use crate::locked::Receipt;
use crate::work::End;
use vc_files::Fault;
use vc_push::Reason;

// The kind of an event, its number and its bytes.
fn event_parts(event: &Event) -> (u8, u64, &[u8])
    ensures { parts result.0 result.1 result.2.now ≡ event_parts (event_text event.now) }
{
    match event {
        Event::Accept(bytes) => (0, 0, bytes.as_slice()),
        Event::Step(slot) => (1, *slot as u64, b"".as_slice()),
    }
}

// The number of a reason, and 0 for none.
fn number_of(found: &Option<Reason>) -> u64
    ensures { result ≡ number_or_zero found.now }
{
    match found {
        Some(reason) => reason.number() as u64,
        None => 0,
    }
}

// The kind of a failure, its number and its bytes.
fn failure_parts(failure: &Failure) -> (u8, u64, &[u8])
    ensures { parts result.0 result.1 result.2.now ≡ answer_parts (Failed failure.now) }
{
    match failure {
        Failure::NotOurs(id) => (8, 0, id.0.as_slice()),
        Failure::Refused(number) => (9, *number as u64, b"".as_slice()),
        Failure::Fault(Fault::Memory) => (10, 0, b"".as_slice()),
        Failure::Fault(Fault::Device) => (10, 1, b"".as_slice()),
    }
}

// The kind of an answer, its number and its bytes.
fn answer_parts(answer: &Answer) -> (u8, u64, &[u8])
    ensures { parts result.0 result.1 result.2.now ≡ answer_parts (answer_text answer.now) }
{
    match answer {
        Answer::Replied(bytes) => (0, 0, bytes.as_slice()),
        Answer::Opened(slot) => (1, *slot as u64, b"".as_slice()),
        Answer::Checked(passed) => (2, *passed, b"".as_slice()),
        Answer::Migrated => (3, 0, b"".as_slice()),
        Answer::Updated(name, found) => (4, number_of(found), name.as_slice()),
        Answer::Atomic(refs) => (5, *refs, b"".as_slice()),
        Answer::AtomicRefused(name, reason) => (6, reason.number() as u64, name.as_slice()),
        Answer::Finished(report) => (7, 0, report.as_slice()),
        Answer::Failed(failure) => failure_parts(failure),
    }
}

fn is_same_event(a: &Event, b: &Event) -> bool
    ensures same { result ≡ true → event_parts (event_text a.now) ≡ event_parts (event_text b.now) }
    ensures other { result ≡ false → event_parts (event_text a.now) ≢ event_parts (event_text b.now) }
{
    let (kind, number, bytes) = event_parts(a);
    let (other_kind, other_number, other_bytes) = event_parts(b);
    if kind != other_kind {
        return false;
    }
    if number != other_number {
        return false;
    }
    bytes == other_bytes
}

fn is_same_answer(a: &Answer, b: &Answer) -> bool
    ensures same { result ≡ true → answer_parts (answer_text a.now) ≡ answer_parts (answer_text b.now) }
    ensures other { result ≡ false → answer_parts (answer_text a.now) ≢ answer_parts (answer_text b.now) }
{
    let (kind, number, bytes) = answer_parts(a);
    let (other_kind, other_number, other_bytes) = answer_parts(b);
    if kind != other_kind {
        return false;
    }
    if number != other_number {
        return false;
    }
    bytes == other_bytes
}

fn is_same_entry(a: &Entry, b: &Entry) -> bool
    ensures same { result ≡ true → entry_text a.now ≡ entry_text b.now }
    ensures other { result ≡ false → entry_text a.now ≢ entry_text b.now }
{
    if a.connection != b.connection {
        return false;
    }
    if !is_same_event(&a.event, &b.event) {
        return false;
    }
    is_same_answer(&a.answer, &b.answer)
}

fn is_copy(copy: &Option<Entry>, entry: &Entry) -> bool
    ensures same { result ≡ true → IsCopy (option_map entry_text copy.now) (entry_text entry.now) }
    ensures other { result ≡ false → IsCopy (option_map entry_text copy.now) (entry_text entry.now) → ⊥ }
{
    match copy {
        None => true,
        Some(copy) => is_same_entry(copy, entry),
    }
}

// What is left of a connection's receipts after an entry of the log. None if the entry is the connection's and the next receipt is none of it.
fn copies_on<'a>(left: &'a [Receipt], name: u64, place: u64, entry: &Entry) -> Option<&'a [Receipt]>
    ensures more { IfSome result (λ more. (es : List (ℕ × EntryText)) → AreCopies (map receipt_text left.now) (receipts_then name place (entry_text entry.now) es) ↔ AreCopies (map receipt_text more.now) es) }
    ensures none { IfNone result ((es : List (ℕ × EntryText)) → AreCopies (map receipt_text left.now) (receipts_then name place (entry_text entry.now) es) → ⊥) }
{
    if entry.connection != name {
        return Some(left);
    }
    let (receipt, more) = left.split_first()?;
    if receipt.place != place {
        return None;
    }
    if !is_copy(&receipt.entry, entry) {
        return None;
    }
    Some(more)
}

// Whether the receipts are the entries of a connection, in their order.
fn are_copies(log: &[Entry], name: u64, receipts: &[Receipt]) -> bool
    ensures same { result ≡ true → AreCopies (map receipt_text receipts.now) (receipts_of name 0 (map entry_text log.now)) }
    ensures other { result ≡ false → AreCopies (map receipt_text receipts.now) (receipts_of name 0 (map entry_text log.now)) → ⊥ }
{
    let mut left = receipts;
    for (place, entry) in log.iter().enumerate() {
        let Some(more) = copies_on(left, name, place as u64, entry) else {
            return false;
        };
        left = more;
    }
    left.is_empty()
}

// Whether each entry is of one of so many connections.
fn all_below(log: &[Entry], count: u64) -> bool
    ensures same { result ≡ true → AllBelow count (map entry_text log.now) }
    ensures other { result ≡ false → AllBelow count (map entry_text log.now) → ⊥ }
{
    for entry in log {
        if entry.connection >= count {
            return false;
        }
    }
    true
}

/// Whether the receipts of the connections are the log's entries, each once.
pub(crate) fn agree<W>(log: &[Entry], ends: &[End<W>]) -> bool
    ensures same { result ≡ true → AreReceipts (map entry_text log.now) 0 ends.now }
    ensures other { result ≡ false → AreReceipts (map entry_text log.now) 0 ends.now → ⊥ }
{
    for (name, end) in ends.iter().enumerate() {
        if !are_copies(log, name as u64, end.receipts.as_slice()) {
            return false;
        }
    }
    all_below(log, ends.len() as u64)
}
