//! What a prune takes away: the objects that nothing needs, one after the other.
#![tactic(auto)]

mod pruning;
mod removing;
mod rooting;

pub use pruning::{needed, prune};
pub use removing::{KeptNames, remove_others};
pub use rooting::roots;
