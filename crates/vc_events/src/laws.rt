// What holds of every run.
ghost use Rattle.vc_events.specs.Running.{EveryRunIsSafe, ForgesNothing, NeverSentIsRefused};

use crate::{CloneCalls, SharedCalls};

/// Every run of a new world, by the rules of the machine over Git's objects and names, is safe: at each moment all that a ref or a
/// HEAD reaches is stored at its node; a branch that has a value has one ever after, which descends from it; and what a clone
/// knows as a branch's value was its value. The premises are that no two different objects that occur in the run have one
/// name, that none is named by the zero id, and that nobody forges what a clone receives.
pub fn every_run_is_safe()
    ensures { EveryRunIsSafe }
{}

/// A run in which nothing was forged to a clone, lengthened by events of which none brings a clone forged bytes, is one still. So for
/// such events, after a run of such events, the clause `safe` of `World::run` says that what each clone knows was so.
pub fn events_that_forge_nothing()
    ensures { ForgesNothing }
{}

/// Whatever run of a new world is told answers each delivery of a message that was never sent with 113. So the clause `safe` of
/// `World::run` binds each event of a list, and not the first alone: no body may do nothing and answer as it likes.
pub fn what_was_never_sent_is_refused<S: SharedCalls, C: CloneCalls>()
    ensures { NeverSentIsRefused S.seen C.seen }
{}
