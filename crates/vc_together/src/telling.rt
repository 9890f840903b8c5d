// What is told of connections once all of them have ended.
use std::io::{self, Write};
use std::net::SocketAddr;
use std::time::{Clock, Duration};
use vc_desk::{Answer, End, Ended, Entry, Event};
use vc_files::Fault;
use vc_serving::talk::{Talk, Told, kind_of, log};

/// Writes a line for each connection.
pub(crate) fn log_ends<C: Clock + AllocGlobal, W: Write, S: Drop>(
    clock: &C,
    stream: &mut W,
    peers: &[SocketAddr],
    ends: &[End<S>],
    begun: Duration,
) -> io::Result<()> {
    for (peer, end) in peers.iter().zip(ends) {
        log(clock, stream, peer, begun, &talk_of(end))?;
    }
    Ok(())
}

/// What went over a connection, by its receipts and how it ended.
pub(crate) fn talk_of<S: Drop>(end: &End<S>) -> Talk {
    let mut talk = Talk::new();
    for receipt in end.receipts.iter() {
        if let Some(entry) = &receipt.entry {
            note(&mut talk, entry);
        }
    }
    match end.ended {
        Ended::End => {}
        Ended::Refused(number) => talk.told = Told::Refused(number),
        Ended::ReadFailed => talk.told = Told::ReadFailed,
        Ended::WriteFailed => talk.told = Told::WriteFailed,
        Ended::Fault(_) => talk.told = Told::Fault,
    }
    talk
}

// Adds what came and what was answered.
fn note(talk: &mut Talk, entry: &Entry) {
    if let Event::Accept(bytes) = &entry.event {
        talk.messages = talk.messages.saturating_add(1);
        talk.asked = kind_of(bytes);
        talk.came = talk.came.saturating_add(bytes.len() as u64);
    }
    match &entry.answer {
        Answer::Replied(bytes) => went(talk, bytes),
        Answer::Finished(report) => went(talk, report),
        _ => {}
    }
}

// Adds an answer of these bytes.
fn went(talk: &mut Talk, bytes: &[u8]) {
    talk.told = Told::Answered;
    talk.went = talk.went.saturating_add(bytes.len() as u64);
}

/// The first fault of the server that ended a connection.
pub(crate) fn fault_in<S: Drop>(ends: &[End<S>]) -> Option<Fault> {
    for end in ends {
        if let Ended::Fault(fault) = end.ended {
            return Some(fault);
        }
    }
    None
}
