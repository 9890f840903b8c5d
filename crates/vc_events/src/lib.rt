//! Events of a world: one shared node, its clones, every message that was ever sent, and what each event does there.
//!
//! The nodes are whatever meets `SharedCalls` and `CloneCalls`. What the world promises stands on `World::run`: over every list of
//! events it answers by the rules of `vc_model`'s machine, the run is guarded, and it is safe if nobody forged what a clone received.
#![tactic(auto)]

mod answers;
mod calls;
mod events;
mod laws;
mod letters;
mod posting;
mod world;

pub use answers::{Answer, Deed, Ended, Told};
pub use calls::{CloneCalls, SharedCalls};
pub use events::{Event, NamedItem, Order, Party};
pub use laws::{events_that_forge_nothing, every_run_is_safe, what_was_never_sent_is_refused};
pub use letters::Letter;
pub use world::World;
