//! Git's objects: their bytes, their names, what each kind's body holds, and what an object links to.
//!
//! Bytes that may be anything come in by [`decode`] and [`check`]; an [`Object`] that came out is in its grammar,
//! and what reads it further takes no memory and cannot fail. The formats are those of Git (gitformat-loose, and
//! the chapter on objects of Git's user manual); where this profile differs, the comment begins with `own:`.
#![tactic(auto)]

mod bytes;
mod commit;
mod digits;
mod entries;
mod fault;
mod hasher;
mod header;
mod id;
mod kind;
pub mod laws;
mod lengths;
mod lines;
mod linking;
mod mode;
mod name;
mod object;
mod tag;
mod tree;
mod views;

pub use bytes::cut_at;
pub use commit::{Commit, Parents};
pub use entries::{TreeEntries, TreeEntry};
pub use fault::ObjectFault;
pub use hasher::NameHasher;
pub use header::MAX_BODY;
pub use id::{ObjectId, sorted_by_name};
pub use kind::Kind;
pub use linking::{links, parents};
pub use mode::Mode;
pub use name::name_of;
pub use object::{Object, check, decode, encode};
pub use tag::Tag;
pub use views::{Tree, commit_of, tag_of, tree_of};
