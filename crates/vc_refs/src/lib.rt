//! Refs: names for ids, and HEAD, as files spell them.
//!
//! The refs are a finite map from legal names in `refs/` to ids, in which no name is a folder of another; HEAD is
//! one of these names, or an id. Both are read from a finite map of files: a ref has the id that its own file says, whose
//! path is the ref's name and which holds an id and LF, and if that file isn't there, the one that its line in the
//! file `packed-refs` says. [`Refs`] is a view of files as this map; the functions beside it do the same
//! over the files themselves, for a caller that also reads them otherwise.
#![tactic(auto)]

mod changes;
mod faults;
mod folders;
mod head_file;
mod heads;
mod layered;
mod loose;
mod obstacle;
mod packed;
mod removing;
mod setting;
mod text;
mod view;

pub use changes::{RefChange, SetAllFault};
pub use faults::RefFault;
pub use head_file::{head, set_head};
pub use heads::Head;
pub use layered::{
    PackedCache, get, get_over, get_with, list, pack, packed_in_the_way, read_all, read_packed,
    refuse_conflict, remove, resolve_head, resolve_head_with, set, set_all, set_over,
};
pub use packed::PackedRefs;
pub use view::Refs;
