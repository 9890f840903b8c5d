//! What each command of the program `vcs` shares: how it fails and tells so, what it prints with, and the store that it works on.
#![tactic(auto)]

mod failure;
mod faults;
mod folder_stores;
mod nearby;
mod output;
mod repository;
mod stores;
mod writer;

pub use failure::{Failure, fault_of};
pub use faults::Faults;
pub use folder_stores::{FolderStores, StoreLock};
pub use nearby::refuse_second_store;
pub use output::{id_lines, print_id, print_text};
pub use repository::{open_store, resolve, resolve_bytes, select};
pub use stores::Stores;
pub use writer::{keep_objects, only_remover, only_writer};
