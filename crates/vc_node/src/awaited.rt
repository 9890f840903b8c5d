// What a clone awaits from the shared node.

use vc_object::ObjectId;

/// What a clone awaits. A report may come at any time.
#[derive(Drop)]
pub(crate) enum Awaited {
    Nothing,
    /// The refs of the shared node.
    Advert,
    /// The pack of these wants, after which these refs follow, in order of their names.
    Pack(Vec<ObjectId>, Vec<(Vec<u8>, ObjectId)>),
}
