//! Names of refs, and which texts are such names.
//!
//! The rules are those of `git check-ref-format`, each said of the whole text, and one more: a name has at most
//! 255 bytes. [`RefName::check`] tests a text, or tells the first rule that it breaks; a [`RefName`] is a text
//! that breaks none, which its type keeps.
#![tactic(auto)]

mod fault;
mod name;
mod rules;
mod traits;

pub use fault::{BAD_REF_FILE, HEAD_LOOP, NameFault, NewNameError};
pub use name::RefName;
pub use rules::MAX_BRANCH;
