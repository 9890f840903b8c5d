//! The commands of the program `vcs` that stage and commit: they change a clone's index, its branches and HEAD by calls of a node.
#![tactic(auto)]

mod add;
pub mod adding;
mod clone;
mod commands;

pub use commands::{branch, branch_delete, commit, unstage, write_tree};
