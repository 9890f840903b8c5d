//! Nodes together: a whole fetch and a whole push by a clone and the shared node, by whatever the clone meets it through.
//!
//! An exchange is said in terms of `vc_model`'s machine: its calls, at one node and at the other in turn, are the machine's, so that
//! where the nodes are ready for it (each good, in agreement on names, and the clone behind) it comes to its end, unless a fault ends it.
#![tactic(auto)]

mod at_hand;
mod ending;
mod fetching;
mod laws;
mod losing;
mod over_files;
mod peer;
mod pushing;

pub use ending::ExchangeEnd;
pub use fetching::{Fetched, exchange_fetch};
pub use laws::{
    a_branch_that_may_be_pushed_can_be_tracked, a_chain_of_calls_is_a_fetch,
    a_chain_of_calls_is_a_push, a_trail_keeps_a_clone,
};
pub use over_files::{fetch_into, push_from};
pub use peer::{Peer, Reply};
pub use pushing::{exchange_push, exchange_push_atomic};
