//! The shared node behind a connection: one message is served to its end, and its reply is written.
#![tactic(auto)]

mod answering;
mod ending;
mod serve_fault;
mod serving;
mod telling;

pub use answering::{answer, answer_from};
pub use ending::{node_ending, shared_ending, unread_number, value_number};
pub use serve_fault::ServeFault;
pub use serving::serve_message;
pub use telling::{Served, error_bytes, send, tell};
