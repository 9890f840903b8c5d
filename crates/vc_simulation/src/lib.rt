//! The nodes of a world, over files, as its events call them; a world of them over a list of files; and one in memory, with scripts played
//! there.
//!
//! Each call is a node's own, or a few of them where an order names objects by expressions, and it is said in terms of
//! `vc_model`'s machine. A node that is down refuses each call but its restart.
#![tactic(auto)]

mod ends;
mod file_world;
mod memory_world;
mod playing;
mod world_clone;
mod world_shared;

pub use file_world::{FileWorld, world_over};
pub use memory_world::{MemoryDevice, MemoryWorld, Played, new_world, run_new_world};
pub use playing::run_script;
pub use world_clone::WorldClone;
pub use world_shared::WorldShared;
