//! A look at an object, which shows its kind with its links.
ghost use Rattle.std.specs.Prelude.{◌≡◌, IfOk, IfErr, IsErrOf};
ghost use Rattle.vc_files.specs.Failures.{Wears};
ghost use Rattle.vc_known.specs.Seen.{IsSeen};
ghost use Rattle.vc_object_map.specs.StoreFault.{IsRefused};

use vc_files::Fault;
use vc_object::{Kind, ObjectId};
use vc_object_map::{Objects, StoreFault};

/// What a look at an object shows.
#[derive(Drop)]
pub struct Seen {
    /// Its kind.
    pub kind: Kind,
    /// Its links, in the order of its body.
    pub links: Vec<ObjectId>,
}

/// A set of objects, each of which shows its kind and its links at one look.
pub trait Kinds: Objects {
    /// The kind and the links of the object with this name, or `None` where it is absent.
    fn look(&mut self, id: &ObjectId) -> Result<Option<Seen>, StoreFault>
        ensures answer { IfOk result (λ found. Self.is_honest → IsSeen (Self.objects (Self.state_of self.old)) id.now found) }
        ensures refused { IfErr result (IsRefused id.now (Self.is_honest → Self.damaged (Self.state_of self.old) id.now)) }
        ensures kept { Self.state_of self.new ≡ Self.state_of self.old }
        ensures wear { Wears Self.failed Self.can_fail Self.left self.old self.new (IsErrOf result (StoreFault.Fault Fault.Device)) };
}
