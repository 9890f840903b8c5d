// What is kept of one event of the shared node.
ghost use Rattle.std.specs.Prelude.{◌≡◌, IfOk};
ghost use Rattle.vc_desk.specs.Entry.{IsFailureOf, IsStepped, IsTaken, answer_text, entry_text, event_text};
ghost use Rattle.vc_desk.specs.Entry.EventText.{Accepts};

use std::alloc::{AllocError, Global};
use vc_files::Fault;
use vc_object::ObjectId;
use vc_push::Reason;
use vc_server::shared_ending;
use vc_shared::{Accepted, SharedFault, Stepped};

/// An event of the shared node.
#[derive(Drop)]
pub enum Event {
    /// These bytes came.
    Accept(Vec<u8>),
    /// The push in this slot was stepped.
    Step(u8),
}

/// Why a call of the shared node had no reply.
#[derive(Clone, Copy, Debug)]
pub enum Failure {
    /// 90: no ref reaches this wanted id.
    NotOurs(ObjectId),
    /// It was refused with this number.
    Refused(u16),
    /// Memory was short, or a device failed.
    Fault(Fault),
}

/// What the shared node answered.
#[derive(Drop)]
pub enum Answer {
    /// A list or a want is answered by these bytes.
    Replied(Vec<u8>),
    /// A push was opened in this slot.
    Opened(u8),
    /// The commands were checked, and so many passed.
    Checked(u64),
    /// What the push carries was stored.
    Migrated,
    /// The ref of this name was set, or why it was not.
    Updated(Vec<u8>, Option<Reason>),
    /// The refs of all commands of an atomic push were set, so many.
    Atomic(u64),
    /// No ref of an atomic push was set, for this command and its reason.
    AtomicRefused(Vec<u8>, Reason),
    /// The push has ended, and these bytes are its report.
    Finished(Vec<u8>),
    /// There was no reply.
    Failed(Failure),
}

/// An event of the shared node, the connection that brought it, and the node's answer.
#[derive(Drop)]
pub struct Entry {
    pub connection: u64,
    pub event: Event,
    pub answer: Answer,
}

fn copied(alloc: Global, bytes: &[u8]) -> Result<Vec<u8>, AllocError>
    ensures { IfOk result (λ copy. copy.items ≡ bytes.now) }
{
    let mut copy = Vec::new(alloc);
    copy.extend_from_slice(bytes)?;
    Ok(copy)
}

impl Event {
    pub(crate) fn accept(alloc: Global, bytes: &[u8]) -> Result<Event, AllocError>
        ensures { IfOk result (λ event. event_text event ≡ Accepts bytes.now) }
    {
        Ok(Event::Accept(copied(alloc, bytes)?))
    }

    fn copy(&self, alloc: Global) -> Result<Event, AllocError>
        ensures { IfOk result (λ event. event_text event ≡ event_text self.now) }
    {
        match self {
            Event::Accept(bytes) => Ok(Event::Accept(copied(alloc, bytes)?)),
            Event::Step(slot) => Ok(Event::Step(*slot)),
        }
    }
}

// Why a call had no reply, by what the node says of it.
fn failure_of(fault: &SharedFault) -> Failure
    ensures { IsFailureOf fault.now result }
{
    if let SharedFault::NotOurs(id) = fault {
        return Failure::NotOurs(*id);
    }
    match shared_ending(fault) {
        Ok(number) => Failure::Refused(number),
        Err(fault) => Failure::Fault(fault),
    }
}

impl Answer {
    // The answer to a message.
    pub(crate) fn of_message(accepted: Result<Accepted, SharedFault>) -> Answer
        ensures { IsTaken accepted (answer_text result) }
    {
        match accepted {
            Ok(Accepted::Reply(bytes)) => Answer::Replied(bytes),
            Ok(Accepted::Slot(slot)) => Answer::Opened(slot),
            Err(fault) => Answer::Failed(failure_of(&fault)),
        }
    }

    // The answer to a step.
    pub(crate) fn of_step(stepped: Result<Stepped, SharedFault>) -> Answer
        ensures { IsStepped stepped (answer_text result) }
    {
        match stepped {
            Ok(Stepped::Checked(passed)) => Answer::Checked(passed),
            Ok(Stepped::Migrated) => Answer::Migrated,
            Ok(Stepped::Updated(name, found)) => Answer::Updated(name, found),
            Ok(Stepped::Atomic(refs)) => Answer::Atomic(refs),
            Ok(Stepped::AtomicRefused(name, reason)) => Answer::AtomicRefused(name, reason),
            Ok(Stepped::Finished(report)) => Answer::Finished(report),
            Err(fault) => Answer::Failed(failure_of(&fault)),
        }
    }

    fn copy(&self, alloc: Global) -> Result<Answer, AllocError>
        ensures { IfOk result (λ answer. answer_text answer ≡ answer_text self.now) }
    {
        match self {
            Answer::Replied(bytes) => Ok(Answer::Replied(copied(alloc, bytes)?)),
            Answer::Opened(slot) => Ok(Answer::Opened(*slot)),
            Answer::Checked(passed) => Ok(Answer::Checked(*passed)),
            Answer::Migrated => Ok(Answer::Migrated),
            Answer::Updated(name, found) => Ok(Answer::Updated(copied(alloc, name)?, *found)),
            Answer::Atomic(refs) => Ok(Answer::Atomic(*refs)),
            Answer::AtomicRefused(name, reason) => {
                Ok(Answer::AtomicRefused(copied(alloc, name)?, *reason))
            }
            Answer::Finished(bytes) => Ok(Answer::Finished(copied(alloc, bytes)?)),
            Answer::Failed(failure) => Ok(Answer::Failed(*failure)),
        }
    }
}

impl Entry {
    pub(crate) fn copy(&self, alloc: Global) -> Result<Entry, AllocError>
        ensures { IfOk result (λ entry. entry_text entry ≡ entry_text self.now) }
    {
        Ok(Entry {
            connection: self.connection,
            event: self.event.copy(alloc)?,
            answer: self.answer.copy(alloc)?,
        })
    }
}
