//! Files in a real folder. Nothing is claimed of a disk: that they are a map of paths to bytes is tested.
#![tactic(auto)]

mod disk;
mod folder;
mod left_over;
mod lock;
mod locking;
mod mark;
mod root;
mod share;
mod syncing;

pub use folder::FolderFiles;
pub use lock::FolderLock;
pub use share::FolderShare;
pub use syncing::{Begun, Syncs, sync_in_turn};
