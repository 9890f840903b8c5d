//! One push, from the moment that it is taken to its report: for which reason a command is refused, if for any, and the steps
//! between which other pushes take theirs.
#![tactic(auto)]

mod checking;
mod fault;
mod judging;
mod opening;
mod reporting;
mod session;
mod tips;
mod updating;
mod updating_all;

pub use fault::SessionFault;
pub use judging::judge;
pub use session::PushSession;
pub use updating::update;
