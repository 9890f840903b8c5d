//! What a walk asks: over objects by their links, and over a history by the parents of commits.
ghost use Rattle.std.specs.Prelude.{◌≡◌, ℕ, Option, IfOk, IfErr, IsErrOf};
ghost use Rattle.std.specs.Option.{option_map};
ghost use Rattle.vc_files.specs.Failures.{Wears};
ghost use Rattle.vc_object.specs.ObjectMap.{ObjectMap, links_in};
ghost use Rattle.vc_object.specs.declared.id.ObjectId.{ObjectId as Id};
ghost use Rattle.vc_object_map.specs.Parents.{AreParents};
ghost use Rattle.vc_object_map.specs.StoreFault.{IsRefused};

use crate::StoreFault;
use vc_files::Fault;
use vc_object::ObjectId;

/// A set of objects by name, each of which links to others: a store, a store with what a push carries, a table.
pub trait Objects {
    /// Whether it answers with what it holds. A real device may not.
    ghost is_honest: { Type 0 };

    /// What a call could change.
    ghost State: { Type 0 };

    /// What a value holds.
    ghost state_of: { Self → State };

    /// The objects, by name.
    ghost objects: { State → ObjectMap };

    /// The names that a look-up may refuse because what is kept there is damaged.
    ghost damaged: { State → Id → Type 0 };

    /// How often the device below it has failed.
    ghost failed: { Self → ℕ };

    /// Whether the device below it can fail.
    ghost can_fail: { Self → Type 0 };

    /// How many more writes that device takes before it stops, or none where no stop is set.
    ghost left: { Self → Option ℕ };

    /// The links of the object with this name, in the order of its body, or `None` where it is absent. A tree links to
    /// its entries except commits of other repositories, a commit to its tree and its parents, a tag to its object.
    fn links(&mut self, id: &ObjectId) -> Result<Option<Vec<ObjectId>>, StoreFault>
        ensures answer { IfOk result (λ found. is_honest → option_map (λ v. v.items) found ≡ links_in (objects (state_of self.old)) id.now) }
        ensures refused { IfErr result (IsRefused id.now (is_honest → damaged (state_of self.old) id.now)) }
        ensures kept { state_of self.new ≡ state_of self.old }
        ensures wear { Wears failed can_fail left self.old self.new (IsErrOf result (StoreFault.Fault Fault.Device)) };
}

/// What an object that is there has for parents.
#[derive(Drop)]
pub enum Parents {
    /// A commit's parents, in the order of its lines.
    Of(Vec<ObjectId>),
    /// It is no commit.
    NotCommit,
}

/// A set of objects, some of which are commits.
pub trait Commits: Objects {
    /// The parents of an object, or `None` where it is absent.
    fn parents(&mut self, id: &ObjectId) -> Result<Option<Parents>, StoreFault>
        ensures answer { IfOk result (λ found. Self.is_honest → AreParents (Self.objects (Self.state_of self.old)) id.now found) }
        ensures refused { IfErr result (IsRefused id.now (Self.is_honest → Self.damaged (Self.state_of self.old) id.now)) }
        ensures kept { Self.state_of self.new ≡ Self.state_of self.old }
        ensures wear { Wears Self.failed Self.can_fail Self.left self.old self.new (IsErrOf result (StoreFault.Fault Fault.Device)) };
}
