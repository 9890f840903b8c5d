//! Any message of the protocol, from and to bytes by one reader. The first line tells the kind.
//!
//! The lines are those of Git (gitprotocol-pack and gitprotocol-common), kind by kind as vc_fetch and vc_push have them. Where
//! this project differs, the comment begins with `own:`.
#![tactic(auto)]

mod bounded;
mod incoming;
mod incoming_fault;
mod keeping;
mod laws;
mod message;
mod reader;
mod skipping;
mod source;
mod streaming;

pub use bounded::{Bound, read_head_within, skip_within};
pub use incoming::read_message;
pub use incoming_fault::IncomingFault;
pub use keeping::{keep_message, kept_bytes_are_the_message};
pub use laws::{
    every_reading, one_message, one_reading, one_writing, read_or_unread, what_is_read_is_named,
    written_message_is_read,
};
pub use message::{Message, NOTHING_AWAITED, WRITE_FAILED};
pub use reader::AnyReader;
pub use skipping::{skip_message, skip_pack, skip_push};
pub use source::{Fallible, ReadFailed, Source};
pub use streaming::{Head, Taken, next_object, read_head};
