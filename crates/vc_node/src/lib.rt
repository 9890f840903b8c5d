//! Nodes: a repository that answers calls, one after the other, by the rules of the machine.
//!
//! A [`CloneNode`] is a clone over files. What its calls may answer, and what they leave, is said in terms of
//! `vc_model`'s machine at Git's object format (`vc_format`): the files spell a repository, and a call is a step of it. What the local
//! calls do to files is in `vc_local`.
#![tactic(auto)]

mod arriving;
mod awaited;
mod burning;
mod clone_fault;
mod exchanging;
mod learning;
mod node;
mod receive_fault;

pub use burning::{
    a_call_spends_what_the_machine_allows, a_calm_clone_spends_what_the_machine_allows,
    a_packing_spends_what_the_machine_allows, an_exchange_spends_what_the_machine_allows,
};
pub use clone_fault::CloneFault;
pub use exchanging::Received;
pub use learning::a_value_that_a_ref_was_set_to_is_learnt;
pub use node::CloneNode;
pub use receive_fault::ReceiveFault;
