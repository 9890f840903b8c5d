//! The commands of the program `vcs` that need no node: they look at a store, name or store a body, or begin a store. And what a
//! refusal is about, which is looked up.
#![tactic(auto)]

mod again;
mod at_fault;
pub mod cat_file;
pub mod hash_object;
pub mod init;
mod input;
pub mod merge_base;
pub mod pack_refs;
mod pieces;
pub mod prune;
pub mod rev_list;
pub mod rev_parse;
pub mod show_ref;
mod tally;

pub use again::{Lists, line_of_refusal};
pub use input::{Input, known_length, open_body};
