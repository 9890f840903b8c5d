//! What a clone sends of its own accord: the list message of a fetch, and a push.
#![tactic(auto)]

mod item;
mod send_fault;
mod sending;

pub use item::PushItem;
pub use send_fault::SendFault;
pub use sending::{list_message, push_message};
