// How a path differs between a tree, the index and the work tree.
ghost use Rattle.vc_checkout.specs.Status.{IsIndexChange};

use vc_index::IndexEntry;

/// How what the index has at a path differs from what the tree has there.
#[derive(Clone, Copy)]
pub enum IndexChange {
    /// Both have the same, or neither has anything.
    Same,
    /// The index alone has the path.
    Added,
    /// The tree alone has the path.
    Removed,
    /// They differ in mode or content.
    Changed,
}

/// How the file at a path differs from what the index has there.
#[derive(Clone, Copy)]
pub enum WorkChange {
    /// The file has the content that the index has, or neither is there, or the index has a commit of another
    /// repository.
    Same,
    /// There is no file, and the index has one.
    Gone,
    /// The file has another content.
    Changed,
    /// There is a file, and the index has nothing.
    Untracked,
}

/// A path at which something differs.
#[derive(Drop)]
pub struct Change {
    pub path: Vec<u8>,
    pub index: IndexChange,
    pub work: WorkChange,
}

/// How what the index has at a path differs from what the tree has there.
pub(crate) fn index_change(tree: Option<IndexEntry>, index: Option<IndexEntry>) -> IndexChange
    ensures { IsIndexChange tree index result }
{
    if tree == index {
        return IndexChange::Same;
    }
    match (tree, index) {
        (None, _) => IndexChange::Added,
        (_, None) => IndexChange::Removed,
        _ => IndexChange::Changed,
    }
}
