//! The machine that Gullyonce is: objects, refs, repositories, messages, pushes, worlds, and what an event does to them;
//! and the laws of every run of it, first of them that no commit is lost.
//!
//! Nothing here is program code. The definitions stand in `specs/`, and each law is the contract of a function with an
//! empty body, so that the check proves it. The crates above say in their contracts that their calls are steps of this
//! machine; what is proved here of every run then holds of what they do.
#![tactic(auto)]

pub mod every_call;
pub mod every_exchange;
pub mod every_log;
pub mod every_run;
pub mod every_step;
