// What is answered.
ghost use Rattle.std.specs.Prelude.{◌≡◌};
ghost use Rattle.vc_events.specs.Answers.{of_end};

use vc_files::Fault;
use vc_object::ObjectId;
use vc_push::Reason;

/// What a node did, where it sent no message.
#[derive(Drop)]
pub enum Deed {
    Stored,
    /// The object with this id was stored.
    Made(ObjectId),
    /// Two expressions have one value.
    Same,
    /// They have two.
    Differs,
    /// A push was taken, and waits in this slot.
    Opened(u8),
    /// So many commands of a push passed their check.
    Passed(u64),
    /// What a push brought is stored.
    Migrated,
    /// A ref was set, or why it was not.
    Updated(Vec<u8>, Option<Reason>),
    /// All refs of an atomic push were set, so many.
    Atomic(u64),
    /// No ref of an atomic push was set: the name of the first command that has a cause of its own, and that cause.
    AtomicRefused(Vec<u8>, Reason),
    /// So many refs moved, and so many advertised ids are not closed yet.
    Moved(usize, usize),
    /// A report was taken: so many refs moved, and these numbers refused the other commands, in order.
    Reported(usize, Vec<u16>),
    /// So many objects that nothing needs were removed.
    Removed(u64),
}

/// What a node says of a call that it answered.
#[derive(Drop)]
pub enum Told {
    Did(Deed),
    /// It sends a message, which is all of these bytes.
    Sends(Vec<u8>),
}

/// Why a call was not answered.
#[derive(Clone, Copy, Debug)]
pub enum Ended {
    /// The number of the refusal.
    Refused(u16),
    Fault(Fault),
}

/// What an event is answered by.
#[derive(Drop)]
pub enum Answer {
    Did(Deed),
    /// A message was sent. It has this number.
    Sent(usize),
    Refused(u16),
    Fault(Fault),
}

pub(crate) fn failed(end: Ended) -> Answer
    ensures { result ≡ of_end end }
{
    match end {
        Ended::Refused(number) => Answer::Refused(number),
        Ended::Fault(fault) => Answer::Fault(fault),
    }
}
