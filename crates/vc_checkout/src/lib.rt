//! A work tree beside an index: how it differs, and bringing it to the files of a tree.
#![tactic(auto)]

mod apply;
mod blobs;
mod change;
mod clear;
mod compare;
mod faults;
mod hindrance;
mod holding;
mod paths;
mod settling;

pub use apply::{bring, check, checkout};
pub use change::{Change, IndexChange, WorkChange};
pub use compare::status;
pub use faults::CheckoutFault;
pub use settling::settle;
