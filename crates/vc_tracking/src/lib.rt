//! What a clone does to its files when a message comes: the objects of a pack are stored, refs follow those of the shared node, and
//! generations of commits are learnt.
#![tactic(auto)]

mod fault;
mod learning;
mod moving;
mod storing;

pub use fault::ExchangeFault;
pub use learning::learn_known;
pub use moving::{Followed, move_refs};
pub use storing::store_all;
