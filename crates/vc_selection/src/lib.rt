//! Commits by their ancestors: the common ones of two, the best of these, and the ancestors of some that are ancestors of no
//! others, over anything that gives parents. The part of a history that decides is read, down to a floor.
#![tactic(auto)]

mod bases;
mod part;
mod selection;

pub use bases::{common_ancestors, merge_bases};
pub use selection::commits;
