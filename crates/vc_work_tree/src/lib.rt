//! What a checkout knows of a work tree, and a work tree in memory.
#![tactic(auto)]

mod folder;
mod memory;
mod work;

pub use folder::folder_of;
pub use memory::MemoryTree;
pub use work::WorkTree;
