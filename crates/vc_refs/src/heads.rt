// What HEAD may be.
use vc_object::ObjectId;
use vc_refname::RefName;

/// The branch that is checked out, or an id if none is (a detached HEAD).
#[derive(Drop)]
pub enum Head {
    /// The ref with this name, which need not be there yet.
    Branch(RefName),
    /// This id.
    Id(ObjectId),
}

/// What the text of HEAD's file is.
#[derive(Drop)]
pub(crate) enum HeadText {
    /// It says what HEAD is.
    Says(Head),
    /// It names HEAD.
    NamesHead,
    /// It says nothing of the kind.
    SaysNothing,
}
