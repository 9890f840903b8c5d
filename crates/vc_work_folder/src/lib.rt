//! The work tree in a real folder. Nothing is claimed of a disk: that it is a map of paths to bytes is tested.
#![tactic(auto)]

mod ahead;
mod beside;
mod disk;
mod folder;
mod holding;
mod listed;
mod own;
mod root;
mod way;

pub use beside::Beside;
pub use folder::FolderTree;
pub use holding::is_held;
pub use own::{is_own, meets_own};
