// A store as a view of files.
ghost use Rattle.std.specs.Prelude.{◌≡◌, ◌⊎◌, IfErr, IsErrOf};
ghost use Rattle.vc_files.specs.Failures.{Wears, Writes};
ghost use Rattle.vc_object.specs.Object.{IsObject};
ghost use Rattle.vc_store.specs.StoreCalls.{AnswersPut, Finds, Gets, Lists, ListsPrefix, Puts, TellsStored};
ghost use Rattle.vc_object_map.specs.StoreFault.{IsFault, IsOfName};

mod removing;

use crate::{Stored, listing, reading, writing};
use std::alloc::Global;
use vc_files::{Fault, Files};
use vc_object::{Kind, ObjectFault, ObjectId};
use vc_object_map::StoreFault;

/// A view of files as objects by name. It holds nothing of its own: each method is the function of the same name
/// on the files that are lent to it.
#[derive(Drop)]
pub struct Store<'a, F> {
    /// The files that it is a view of.
    pub files: &'a mut F,
    /// What its calls allocate with.
    pub alloc: Global,
}

impl<'a, F: Files> Store<'a, F> {
    /// The objects in these files.
    pub fn new(alloc: Global, files: &'a mut F) -> Store<'a, F>
        ensures same_files { result.files.ghost_name ≡ files.entry.ghost_name }
        ensures files { result.files.now ≡ files.old }
    {
        Store { files, alloc }
    }

    /// The allocator that it was made with.
    pub fn alloc(&self) -> Global
        ensures { result ≡ self.now.alloc }
    {
        self.alloc
    }

    /// The object with this name: 11 where there is none, 12 where its file is damaged.
    pub fn get(&mut self, id: &ObjectId) -> Result<Stored, StoreFault>
        ensures same_files { self.new.files.ghost_name ≡ self.old.files.ghost_name }
        ensures gets { Gets F.honest F.content id.now self.old.files.now result }
        ensures of_name { IfErr result (IsOfName id.now) }
        ensures same { F.content self.new.files.now ≡ F.content self.old.files.now }
        ensures wear { Wears F.failed F.can_fail F.left self.old.files.now self.new.files.now (IsErrOf result (StoreFault.Fault Fault.Device)) }
    {
        reading::get(self.files, self.alloc, id)
    }

    /// The object with this name, or none where it is absent.
    pub fn find(&mut self, id: &ObjectId) -> Result<Option<Stored>, StoreFault>
        ensures same_files { self.new.files.ghost_name ≡ self.old.files.ghost_name }
        ensures finds { Finds F.honest F.content id.now self.old.files.now result }
        ensures same { F.content self.new.files.now ≡ F.content self.old.files.now }
        ensures wear { Wears F.failed F.can_fail F.left self.old.files.now self.new.files.now (IsErrOf result (StoreFault.Fault Fault.Device)) }
    {
        reading::find(self.files, self.alloc, id)
    }

    /// Whether an object has this name; 12 where its file is damaged.
    pub fn has(&mut self, id: &ObjectId) -> Result<bool, StoreFault>
        ensures same_files { self.new.files.ghost_name ≡ self.old.files.ghost_name }
        ensures tells { TellsStored F.honest F.content id.now self.old.files.now result }
        ensures same { F.content self.new.files.now ≡ F.content self.old.files.now }
        ensures wear { Wears F.failed F.can_fail F.left self.old.files.now self.new.files.now (IsErrOf result (StoreFault.Fault Fault.Device)) }
    {
        reading::has(self.files, self.alloc, id)
    }

    /// Stores the object of this kind and body, and answers its name. One that is there stays as it is.
    pub fn put(&mut self, kind: Kind, body: &[u8]) -> Result<ObjectId, StoreFault>
        ensures same_files { self.new.files.ghost_name ≡ self.old.files.ghost_name }
        ensures answers { AnswersPut kind body.now result }
        ensures puts { Puts F.honest F.content kind body.now self.old.files.now self.new.files.now result }
        ensures wear { Writes F.honest F.content F.failed F.can_fail F.left self.old.files.now self.new.files.now (IsErrOf result (StoreFault.Fault Fault.Device)) }
        ensures looks { IsObject kind body.now ⊎ Wears F.failed F.can_fail F.left self.old.files.now self.new.files.now (IsErrOf result (StoreFault.Fault Fault.Device)) }
    {
        writing::put(self.files, self.alloc, kind, body)
    }

    /// The names of all objects, sorted. A name is there if a file stands in its place, also a damaged one.
    pub fn names(&mut self) -> Result<Vec<ObjectId>, StoreFault>
        ensures same_files { self.new.files.ghost_name ≡ self.old.files.ghost_name }
        ensures lists { Lists F.honest F.content self.old.files.now result }
        ensures fault { IfErr result IsFault }
        ensures same { F.content self.new.files.now ≡ F.content self.old.files.now }
        ensures wear { Wears F.failed F.can_fail F.left self.old.files.now self.new.files.now (IsErrOf result (StoreFault.Fault Fault.Device)) }
    {
        listing::names(self.files, self.alloc)
    }

    /// The names of all objects that begin with these hex digits, of either case, sorted.
    pub fn by_prefix(&mut self, digits: &[u8]) -> Result<Vec<ObjectId>, StoreFault>
        ensures same_files { self.new.files.ghost_name ≡ self.old.files.ghost_name }
        ensures lists { ListsPrefix F.honest F.content digits.now self.old.files.now result }
        ensures fault { IfErr result IsFault }
        ensures same { F.content self.new.files.now ≡ F.content self.old.files.now }
        ensures wear { Wears F.failed F.can_fail F.left self.old.files.now self.new.files.now (IsErrOf result (StoreFault.Fault Fault.Device)) }
    {
        listing::by_prefix(self.files, self.alloc, digits)
    }
}
