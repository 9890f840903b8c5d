//! The index: the files of the next commit, by their paths, and how trees stand for them.
#![tactic(auto)]

mod cursor;
mod entry;
mod faults;
mod index;
pub mod laws;
mod loading;
mod path;
mod reading;
mod text;
mod trees;

pub use cursor::IndexCursor;
pub use entry::IndexEntry;
pub use faults::IndexFault;
pub use index::Index;
pub use path::MAX_PATH;
