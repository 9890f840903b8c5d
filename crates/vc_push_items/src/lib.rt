//! What a push is to change, as the words of its command line ask.
#![tactic(auto)]

mod push_items;

pub use push_items::items_of;
