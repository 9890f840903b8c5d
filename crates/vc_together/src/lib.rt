//! All connections of a shared node served at once, as the program `vcs` does it.
//!
//! Nothing is claimed of sockets, folders and threads; what is answered, [`vc_desk::serve_all`] states.
#![tactic(auto)]

mod after_sync;
mod batch;
mod brought;
mod command;
mod counts;
mod door;
mod home_files;
mod pool;
mod pushes;
mod store;
mod taking;
mod telling;
mod writes;

pub use command::serve_together;
pub use pool::serve_by_workers;
