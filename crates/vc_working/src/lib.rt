//! The commands of the program `vcs` on the work tree of a clone at hand, and which of its files words name.
#![tactic(auto)]

mod begun;
mod branch_name;
mod checkout;
mod folder_trees;
mod mending;
mod named_files;
mod own_folder;
mod status;
pub mod work;
mod work_trees;

pub use branch_name::branch_of;
pub use folder_trees::FolderTrees;
pub use named_files::paths_named;
pub use work_trees::WorkTrees;
