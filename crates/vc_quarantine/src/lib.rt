//! What a push carries, until it is stored: where it stands, object by object as it comes; what a push sees of it and of what is
//! stored; and how it is stored. Beside it what is known of stored objects before anything is read, and of their generations, and
//! which names a ref may have.
#![tactic(auto)]

mod arrival;
mod known;
mod learning;
mod legal;
mod migrating;
mod quarantine;
mod seen;

pub use arrival::Arriving;
pub use known::Known;
pub use learning::learn_all;
pub use legal::{is_branch, is_legal};
pub use migrating::migrate;
pub use quarantine::{drop_quarantine, find_in_quarantine, put_in_quarantine};
pub use seen::PushObjects;
