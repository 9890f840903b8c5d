// The worker of one connection.
ghost use Rattle.std.specs.Prelude.{◌≡◌, ◌<◌, ◌∷◌, ◌++◌, [], MatchResult, None, Some, map, option_map, vec_capacity, vec_len};
ghost use Rattle.std.specs.List.{AllByRecursion};
ghost use Rattle.vc_server.specs.Telling.{error_bytes};
ghost use Rattle.vc_desk.specs.Entry.{EventText, answer_text};
ghost use Rattle.vc_desk.specs.Talk.{Closes, Ends, IsOf, Refuses, Settles, Tells, TellsFailure, Turns, Writes, receipt_text};
ghost use Rattle.vc_desk.specs.Talk.Came.{no_message};

use crate::desk::Desk;
use crate::entry::{Answer, Failure};
use crate::locked::Receipt;
use std::alloc::{AllocError, Global};
use std::io::Write;
use std::sync::{Mutex, Wait};
use vc_files::Fault;
use vc_message::{IncomingFault, Source, keep_message};
use vc_server::{error_bytes, send, unread_number};
use vc_shared::SharedFault;

/// How a connection ended.
#[derive(Clone, Copy, Debug)]
pub enum Ended {
    /// Its reader was at its end.
    End,
    /// A message was refused with this number, and an Error that says so was written.
    Refused(u16),
    /// 115: its reader failed.
    ReadFailed,
    /// 116: its writer failed.
    WriteFailed,
    /// Memory was short, or there was no thread for it; or the node failed.
    Fault(Fault),
}

/// Of one connection: its writer, how it ended, and the receipts of its entries.
#[derive(Drop)]
pub struct End<W> {
    pub writer: W,
    pub ended: Ended,
    pub receipts: Vec<Receipt>,
}

/// What is called beside the events of a connection, while no lock is held.
pub trait Gate {
    /// Called after each entry of a connection, with the number of its entries so far.
    fn pass(&self, connection: u64, entries: u64);

    /// Called before the event of a message of these bytes. A gate may wait here until fewer pushes are open.
    fn enter(&self, _connection: u64, _bytes: &[u8]) {}

    /// Called once no push of the connection is open, before what became of it is told.
    fn leave(&self, _connection: u64) {}
}

// What comes after a turn: another, in which the push in this slot is stepped, if one is open; or none.
#[derive(Clone, Copy)]
pub enum Next {
    Goes(Option<u8>),
    Stops(Ended),
}

// The line of an Error goes out, and the connection ends.
fn refuse<W: Write>(alloc: Global, writer: &mut W, fault: &SharedFault, number: u16) -> Next
    ensures { Refuses (error_bytes fault.now number) number (W.contents writer.old) (W.contents writer.new) result }
{
    let Ok(line) = error_bytes(alloc, fault, number) else {
        return Next::Stops(Ended::Fault(Fault::Memory));
    };
    if send(writer, &line).is_err() {
        return Next::Stops(Ended::WriteFailed);
    }
    Next::Stops(Ended::Refused(number))
}

// What is written if there is no reply, and how the connection ends.
fn tell_failure<W: Write>(alloc: Global, writer: &mut W, failure: Failure) -> Next
    ensures { TellsFailure failure (W.contents writer.old) (W.contents writer.new) result }
{
    match failure {
        Failure::NotOurs(id) => refuse(alloc, writer, &SharedFault::NotOurs(id), 90),
        Failure::Refused(number) => refuse(alloc, writer, &SharedFault::Busy, number),
        Failure::Fault(fault) => Next::Stops(Ended::Fault(fault)),
    }
}

// The bytes go out, and no push is open then.
fn reply<W: Write>(writer: &mut W, bytes: &[u8]) -> Next
    ensures { Writes None (W.contents writer.old) (W.contents writer.new) bytes.now result }
{
    if send(writer, bytes).is_err() {
        return Next::Stops(Ended::WriteFailed);
    }
    Next::Goes(None)
}

// What is written of an answer, and what comes next.
fn tell<W: Write>(alloc: Global, writer: &mut W, current: Option<u8>, answer: &Answer) -> Next
    ensures { Tells current (Some (answer_text answer.now)) (W.contents writer.old) (W.contents writer.new) result }
{
    match answer {
        Answer::Replied(bytes) => reply(writer, bytes),
        Answer::Opened(slot) => Next::Goes(Some(*slot)),
        Answer::Checked(_) => Next::Goes(current),
        Answer::Migrated => Next::Goes(current),
        Answer::Updated(_, _) => Next::Goes(current),
        Answer::Atomic(_) => Next::Goes(current),
        Answer::AtomicRefused(_, _) => Next::Goes(current),
        Answer::Finished(report) => reply(writer, report),
        Answer::Failed(failure) => tell_failure(alloc, writer, *failure),
    }
}

// The same of a receipt: without its entry nothing is written.
fn tell_receipt<W: Write>(
    alloc: Global,
    writer: &mut W,
    current: Option<u8>,
    receipt: &Receipt,
) -> Next
    ensures { Tells current (option_map (λ entry. answer_text entry.answer) receipt.now.entry) (W.contents writer.old) (W.contents writer.new) result }
{
    match &receipt.entry {
        Some(entry) => tell(alloc, writer, current, &entry.answer),
        None => Next::Stops(Ended::Fault(Fault::Memory)),
    }
}

// Whether a push of the connection may be open after an entry: without the entry that isn't known.
fn may_be_open(receipt: &Receipt) -> bool {
    match &receipt.entry {
        Some(entry) => goes_on(&entry.answer),
        None => true,
    }
}

// Whether a push is open after an answer.
fn goes_on(answer: &Answer) -> bool {
    match answer {
        Answer::Replied(_) => false,
        Answer::Finished(_) => false,
        Answer::Failed(_) => false,
        _ => true,
    }
}

// The gate is told if no push of the connection is open.
fn leave_closed<G: Gate>(gate: &G, name: u64, receipt: &Receipt) {
    if !may_be_open(receipt) {
        gate.leave(name);
    }
}

// What was done under the lock is told, and its receipt is kept.
fn settle<W: Write, G: Gate>(
    alloc: Global,
    gate: &G,
    name: u64,
    current: Option<u8>,
    took: Result<Receipt, AllocError>,
    writer: &mut W,
    receipts: &mut Vec<Receipt>,
) -> Next
    requires { vec_len receipts.old < vec_capacity receipts.old }
    ensures settles { (event : EventText) → IsOf name event took → Settles name current event (W.contents writer.old) (W.contents writer.new) (map receipt_text receipts.old.items) (map receipt_text receipts.new.items) result }
    ensures kept { MatchResult took (λ receipt. receipts.new.items ≡ receipts.old.items ++ receipt ∷ []) (λ _. receipts.new.items ≡ receipts.old.items) }
{
    let Ok(receipt) = took else {
        return Next::Stops(Ended::Fault(Fault::Memory));
    };
    leave_closed(gate, name, &receipt);
    let next = tell_receipt(alloc, writer, current, &receipt);
    receipts.push_reserved(receipt);
    gate.pass(name, receipts.len() as u64);
    next
}

// How a connection ends on which no message came.
fn close<W: Write>(alloc: Global, writer: &mut W, fault: &IncomingFault) -> Next
    ensures { Closes (no_message fault.now) (W.contents writer.old) (W.contents writer.new) result }
{
    match fault {
        IncomingFault::Unread(fault) => {
            refuse(alloc, writer, &SharedFault::Busy, unread_number(fault))
        }
        IncomingFault::Failed => Next::Stops(Ended::ReadFailed),
        IncomingFault::Memory => Next::Stops(Ended::Fault(Fault::Memory)),
    }
}

// One event of the node, or the end of the connection.
fn turn<N: Desk, R: Source + Drop, W: Write, G: Gate, T: Wait>(
    rt: &T,
    alloc: Global,
    limit: u64,
    desk: &Mutex<N>,
    gate: &G,
    name: u64,
    current: Option<u8>,
    reader: R,
    writer: &mut W,
    receipts: &mut Vec<Receipt>,
) -> (R, Next)
    ensures turns { Turns limit (R.can_fail reader) name current (R.remaining reader) (R.remaining result.0) (W.contents writer.old) (W.contents writer.new) (map receipt_text receipts.old.items) (map receipt_text receipts.new.items) result.1 }
    ensures calm { R.can_fail result.0 → R.can_fail reader }
    ensures made { AllByRecursion N.made (map receipt_text receipts.old.items) → AllByRecursion N.made (map receipt_text receipts.new.items) }
{
    if receipts.reserve(1).is_err() {
        return (reader, Next::Stops(Ended::Fault(Fault::Memory)));
    }
    if let Some(slot) = current {
        let took = desk.lock(rt).step(name, slot);
        let next = settle(alloc, gate, name, current, took, writer, receipts);
        return (reader, next);
    }
    let (rest, came) = keep_message(alloc, reader, limit);
    match came {
        Ok(Some(bytes)) => {
            gate.enter(name, bytes.as_slice());
            let took = desk.lock(rt).accept(name, bytes.as_slice());
            let next = settle(alloc, gate, name, current, took, writer, receipts);
            (rest, next)
        }
        Ok(None) => (rest, Next::Stops(Ended::End)),
        Err(fault) => {
            let next = close(alloc, writer, &fault);
            (rest, next)
        }
    }
}

/// Serves a connection to its end: its messages in order, each open push stepped to its end, and each answer written.
pub(crate) fn work<N: Desk, R: Source + Drop, W: Write, G: Gate, T: Wait>(
    rt: &T,
    alloc: Global,
    limit: u64,
    desk: &Mutex<N>,
    gate: &G,
    name: u64,
    reader: R,
    mut writer: W,
) -> End<W>
    ensures ends { Ends limit (R.can_fail reader) name (R.remaining reader) (W.contents writer) (W.contents result.writer) (map receipt_text result.receipts.items) result.ended }
    ensures made { AllByRecursion N.made (map receipt_text result.receipts.items) }
{
    let mut receipts = Vec::new(alloc);
    let mut current = None;
    let mut rest = reader;
    'turns: for _ in rt.forever() {
        let (more, next) = turn(
            rt,
            alloc,
            limit,
            desk,
            gate,
            name,
            current,
            rest,
            &mut writer,
            &mut receipts,
        );
        rest = more;
        match next {
            Next::Goes(slot) => current = slot,
            Next::Stops(ended) => {
                return End {
                    writer,
                    ended,
                    receipts,
                };
            }
        }
    }
    unreachable!()
}
