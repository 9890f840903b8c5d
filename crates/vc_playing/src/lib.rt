//! The command of the program `vcs` that plays a script of a world of nodes.
#![tactic(auto)]

pub mod world;
