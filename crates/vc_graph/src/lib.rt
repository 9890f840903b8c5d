//! What is reached from objects by their links: closure, completeness, what of it is there, and difference, over anything that gives
//! links.
#![tactic(auto)]

mod fault;
mod incomplete;
mod known;
mod overlay;
mod presence;
mod reach;
mod walk;
mod walking;

pub use fault::GraphFault;
pub use incomplete::first_incomplete;
pub use known::{is_complete_beyond, learn_links};
pub use overlay::{Carried, Overlay};
pub use presence::present;
pub use reach::{closure, difference, is_complete};
