//! All that some roots reach, of which the first layers may have most.
ghost use Rattle.std.specs.Prelude.{◌≡◌};
ghost use Rattle.vc_known.specs.Reach.{has_in, read_in};

use crate::known::Known;
use indexmap::IndexSet;
use vc_object::ObjectId;

/// All that some roots reach: the names of the first layers, as many as `count`, and those that a walk met above them. It tells of a name
/// whether the roots reach it.
#[derive(Drop)]
pub struct Reach<'a> {
    pub(crate) known: &'a Known,
    pub(crate) count: usize,
    pub(crate) above: IndexSet<ObjectId>,
}

impl Reach<'_> {
    /// Whether the roots reach the name.
    pub fn has(&self, id: &ObjectId) -> bool
        ensures { result ≡ has_in self.now id.now }
    {
        if self.known.is_within(id, self.count) {
            return true;
        }
        self.above.contains(id)
    }

    /// How many names were met above the layers: as many objects were read.
    pub fn read(&self) -> usize
        ensures { result ≡ read_in self.now }
    {
        self.above.len()
    }
}
