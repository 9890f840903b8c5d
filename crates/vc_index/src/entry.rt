// What an index has at a path.
use vc_object::{Mode, ObjectId};

/// A file's mode, and the name of its content.
#[derive(Clone, Copy, PartialEq, Eq)]
pub struct IndexEntry {
    pub mode: Mode,
    pub id: ObjectId,
}
