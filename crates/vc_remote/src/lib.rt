//! The shared node at a port of this machine, as a clone meets it: what a client does over a socket.
//!
//! A connection carries messages one after the other: the client sends one, and the server answers with one. Nothing is
//! claimed of sockets and folders; what a message does at a clone, the crates below state.
#![tactic(auto)]

mod peer;
mod remote_fault;

pub use peer::Server;
pub use remote_fault::RemoteFault;
