//! What goes over a connection and what is told of it: a message sent, a message kept as it comes, how far a long one is, the words
//! of a push and the lines of its report.
//!
//! Nothing is claimed of sockets and of the folder that a long message is kept in.
#![tactic(auto)]

mod connection;
mod exchanging;
mod progress;
mod report;
mod spool;
mod words;

pub use connection::{Place, bind, connect, prepare};
pub use exchanging::{Kept, keep, receive, send};
pub use progress::Progress;
pub use report::{is_done, report_lines};
pub use spool::{Most, Spooled, fault_of};
pub use words::{ItemWords, item_words};
