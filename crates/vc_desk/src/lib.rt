//! Connections at once: what is served is one run of the shared node's events.
#![tactic(auto)]

mod compare;
mod desk;
mod entry;
mod kept;
mod laws;
mod locked;
mod pool;
mod port;
mod serve;
mod watched;
mod work;

pub use desk::Desk;
pub use entry::{Answer, Entry, Event, Failure};
pub use kept::Kept;
pub use laws::{every_log_is_safe, steps_of_no_push_have_no_reply};
pub use locked::{Locked, Origin, Receipt};
pub use pool::{Begun, Done, Line, LinePledge, PortLine, serve_ports};
pub use port::Port;
pub use serve::{All, NotServed, Pledge, Started, serve_all};
pub use watched::Watched;
pub use work::{End, Ended, Gate, Next};
