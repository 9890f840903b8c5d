//! Objects by name, over files.
//!
//! Each object has a file of its own, which holds the object's bytes and stands at `objects/`, the first two hex
//! digits of its name, `/` and the other 38 digits. A store is a view of files: all that it knows is in them.
#![tactic(auto)]

mod listing;
mod paths;
mod reading;
mod removal;
mod source;
mod stored;
mod view;
mod writing;

pub use listing::{by_prefix, names};
pub use reading::{find, find_named, get, has, object_from};
pub use removal::remove;
pub use stored::Stored;
pub use view::Store;
pub use writing::{put, put_named};
