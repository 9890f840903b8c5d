//! The program `vcs`: a run is some words and streams, and gives an exit status.
#![tactic(auto)]

mod exchanging;
mod folder_host;
mod host;
mod performing;
mod program;
mod remote;
mod remote_failure;

pub use exchanging::{fetch_from, push_to};
pub use host::Host;
pub use performing::perform;
pub use program::{run, run_with, tell};
pub use vc_cli::{Failure, Faults};
pub use vc_reading::{Input, known_length};
