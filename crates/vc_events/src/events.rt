// What may happen in a world.
use crate::Letter;
use vc_object::{Kind, Mode};
use vc_refname::RefName;

/// A node.
#[derive(Clone, Copy, Debug, PartialEq, Eq)]
pub enum Party {
    Shared,
    /// The clone with this number, counted from 0.
    Clone(usize),
}

/// An item of a push: the ref's name at the shared node, and an expression for the value that it is to have, or none where it is
/// to be deleted.
#[derive(Drop)]
pub struct NamedItem {
    pub value: Option<Vec<u8>>,
    pub name: RefName,
}

/// What a clone is told to do. Objects are given by expressions, which it reads then.
#[derive(Drop)]
pub enum Order {
    /// Stores an object.
    Write(Kind, Vec<u8>),
    /// Stages a file: its path, its mode and its content.
    Stage(Vec<u8>, Mode, Vec<u8>),
    Unstage(Vec<u8>),
    /// Commits what is staged: more parents than HEAD, author, committer, message.
    Commit(Vec<Vec<u8>>, Vec<u8>, Vec<u8>, Vec<u8>),
    SetBranch(RefName, Vec<u8>),
    DeleteBranch(RefName),
    /// HEAD becomes a branch.
    SetHead(RefName),
    /// HEAD becomes an id.
    Detach(Vec<u8>),
    /// The index becomes that of a tree.
    Load(Vec<u8>),
    /// Asks for the shared node's refs.
    Fetch,
    /// Pushes items, one or more. An atomic push sets all its refs or none.
    Push { atomic: bool, items: Vec<NamedItem> },
}

/// What may happen.
#[derive(Drop)]
pub enum Event {
    /// The clone with this number is told to do something.
    Order(usize, Order),
    /// The message with this number comes to its addressee, for the first time or once more.
    Deliver(usize),
    /// The shared node does a step of the push in this slot.
    Step(usize),
    /// A node is asked whether two expressions have one value.
    Compare(Party, Vec<u8>, Vec<u8>),
    /// A node puts its refs into one file.
    Pack(Party),
    /// A node removes the objects that nothing needs.
    Prune(Party),
    /// A node starts anew over what it has stored, with no stop set.
    Restart(Party),
    /// So many more writes pass at a node, and the next one fails.
    Stop(Party, u64),
    /// Bytes come that nobody sent, as from the other end.
    Forge(Letter),
}
