//! The command line: which words the program takes, what help says of them, and what a list of words asks for.
#![tactic(auto)]

mod arguments;
mod forms;
mod laws;
mod reading;

pub use arguments::{FileMode, LocalTask, Part, RemoteTask, Request, Serving, Task, Words};
pub use forms::{DEFAULT_STORE, command};
pub use laws::{known_lines, words_are_read};
pub use reading::{list_of, option_without_folder, request_of, terms_of};
