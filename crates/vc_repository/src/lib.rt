//! A repository's refs, HEAD, objects and index over files, as revision expressions are resolved over them.
#![tactic(auto)]

mod faults;
mod files;
mod index;
mod resolving;

pub use files::FileRepository;
pub use index::{INDEX, read_index};
pub use resolving::resolve;
