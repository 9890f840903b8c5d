// The view's call that takes an object away.
ghost use Rattle.std.specs.Prelude.{◌≡◌, ◌⊎◌, IsErrOf};
ghost use Rattle.vc_files.specs.Failures.{Wears, Writes};
ghost use Rattle.vc_store.specs.Removing.{IsThere, Removes};

use super::Store;
use crate::removal;
use vc_files::{Fault, Files};
use vc_object::ObjectId;
use vc_object_map::StoreFault;

impl<'a, F: Files> Store<'a, F> {
    /// Takes the object with this name away, and answers whether there was one; 12 where its file is damaged, which stays.
    pub fn remove(&mut self, id: &ObjectId) -> Result<bool, StoreFault>
        ensures same_files { self.new.files.ghost_name ≡ self.old.files.ghost_name }
        ensures removes { Removes F.honest F.content id.now self.old.files.now self.new.files.now result }
        ensures wear { Writes F.honest F.content F.failed F.can_fail F.left self.old.files.now self.new.files.now (IsErrOf result (StoreFault.Fault Fault.Device)) }
        ensures looks { IsThere F.honest F.content id.now self.old.files.now ⊎ Wears F.failed F.can_fail F.left self.old.files.now self.new.files.now (IsErrOf result (StoreFault.Fault Fault.Device)) }
    {
        removal::remove(self.files, self.alloc, id)
    }
}
