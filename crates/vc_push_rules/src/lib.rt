//! The rules of a push: where what it carries stands, the verdict on each command, its stages, and what each step does to the
//! files and to the push.
//!
//! There is next to no code here: types, definitions and lemmas, for those who take the steps and for those who say what they are to
//! the machine.
#![tactic(auto)]

mod stage;

pub use stage::{Stage, Stepped, Verdict};
