//! How far a push has come, and what became of its commands.
use vc_push::{Reason, Report};

/// Where a push stands: what it has come through.
#[derive(Clone, Copy, PartialEq, Eq)]
pub enum Stage {
    /// It is taken, and what it carries stands in the quarantine. Its commands are checked next.
    Unpacked,
    /// A command passed the check. What is carried is stored next.
    Checked,
    /// What was carried is stored. The commands that passed are judged at their updates, one a step, or all in one step if the
    /// push is atomic.
    Migrated,
    /// Every command is judged. The report is given next.
    Done,
}

/// What became of a command so far.
#[derive(Clone, Copy, PartialEq, Eq)]
pub enum Verdict {
    /// Nothing stands against it yet.
    Passing,
    /// Its ref was set.
    Accepted,
    /// Why its ref was not set.
    Refused(Reason),
}

/// What a step did.
#[derive(Drop)]
pub enum Stepped {
    /// The commands were checked, and so many passed.
    Checked(u64),
    /// What the push carries was stored.
    Migrated,
    /// The ref of this name was set, or why it was not.
    Updated(Vec<u8>, Option<Reason>),
    /// The refs of all commands of an atomic push were set, so many.
    Atomic(u64),
    /// No ref of an atomic push was set: the name of the first command that has a cause of its own, and that cause.
    AtomicRefused(Vec<u8>, Reason),
    /// All is judged and told, and the quarantine is empty.
    Finished(Report),
}
