//! The shared node: one bare repository that clones list, fetch from and push to.
//!
//! What its calls answer, and what they leave, is said in terms of `vc_model`'s machine at Git's object format: the files and
//! the open pushes hold a node of the machine, and a call is a step of it.
#![tactic(auto)]

mod accept_fault;
mod accepting;
mod arriving;
mod fault;
mod laws;
mod opening;
mod pruning;
mod pushing;
mod resolving;
mod serving;
mod shared;
mod stepping;

pub use accept_fault::AcceptFault;
pub use accepting::Accepted;
pub use fault::SharedFault;
pub use laws::{
    a_call_of_the_shared_node_spends_what_the_machine_allows, a_held_shared_node_can_be_opened,
    a_step_in_a_slot_is_the_machines, a_value_that_was_set_is_learnt,
};
pub use opening::{Opening, a_node_has_one_opening};
pub use pushing::a_push_is_opened_as_the_machine_does;
pub use resolving::the_value_of_an_expression_is_the_machines;
pub use shared::Shared;
pub use stepping::Stepped;
