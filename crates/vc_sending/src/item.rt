//! What a push is to change.

use vc_object::ObjectId;
use vc_refname::RefName;

/// A ref of the shared node, and what it is to become.
#[derive(Drop)]
pub struct PushItem {
    /// The id that it is to have, or none where it is to be deleted.
    pub id: Option<ObjectId>,
    /// The ref's name, as it is at the shared node.
    pub name: RefName,
}
