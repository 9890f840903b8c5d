//! Scripts of a world: the events that the lines of a text tell, and the lines that tell what was answered.
//!
//! The first line is `world` and the number of clones, and each other line is an event. docs/FORMATS.md has the lines.
#![tactic(auto)]

mod events;
mod fault;
mod items;
mod laws;
mod orders;
mod printing;
mod script;
mod words;

pub use fault::ScriptFault;
pub use laws::{lines_by_hand, scripts_by_hand};
pub use printing::add_lines;
pub use script::{Script, read_script};
