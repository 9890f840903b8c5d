//! Sets of objects by name: what a walk asks of one, what is reached in it by links and by parents, and which objects files
//! hold.
#![tactic(auto)]

mod faults;
mod names;
mod source;

pub use faults::{MISSING, StoreFault};
pub use names::{add_names, sorted_difference, sorted_from};
pub use source::{Commits, Objects, Parents};
