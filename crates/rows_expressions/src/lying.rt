//! A repository that lies: it reads some names as others, as git does after `git replace`, and claims nothing of itself.
ghost use Rattle.std.specs.Prelude.{None, ⊤, refl};
ghost use Rattle.vc_files.specs.Failures.{greatest_count, unstopped};
ghost use Rattle.vc_rev.specs.Source.{Names, source};

use indexmap::IndexMap;
use vc_files::{FailOnce, Fault, MemoryFiles};
use vc_object::ObjectId;
use vc_object_map::{Commits, Objects, Parents, StoreFault};
use vc_refname::RefName;
use vc_repository::FileRepository;
use vc_rev::{Repository, SourceFault};
use vc_store::Stored;

#[derive(Drop)]
pub struct Lying<'a> {
    pub real: FileRepository<'a, FailOnce<MemoryFiles>>,
    pub replaced: &'a IndexMap<ObjectId, ObjectId>,
}

impl Lying<'_> {
    // The name that is read in place of this one.
    fn read_as(&self, id: &ObjectId) -> ObjectId {
        self.replaced.get(id).copied().unwrap_or(*id)
    }
}

impl Objects for Lying<'_> {
    ghost is_honest = { ⊥ };

    ghost State = { Unit {0} };

    ghost state_of = { λ _. tt };

    ghost objects = { λ _ _. None };

    ghost damaged = { λ _ _. ⊥ };

    ghost failed = { λ _. greatest_count };

    ghost can_fail = { λ _. ⊤ };

    ghost left = { unstopped };

    // No expression asks for links.
    fn links(&mut self, _id: &ObjectId) -> Result<Option<Vec<ObjectId>>, StoreFault> {
        Err(StoreFault::Fault(Fault::Device))
    }
}

impl Commits for Lying<'_> {
    fn parents(&mut self, id: &ObjectId) -> Result<Option<Parents>, StoreFault> {
        let id = self.read_as(id);
        match self.real.parents(&id) {
            Ok(found) => Ok(found),
            Err(StoreFault::Fault(fault)) => Err(StoreFault::Fault(fault)),
            Err(_) => Err(StoreFault::Fault(Fault::Memory)),
        }
    }
}

impl Repository for Lying<'_> {
    ghost View = { Unit {0} };

    ghost view_of = { λ _. tt };

    ghost source = { λ _. source (let none : Names = record { ref = λ _. None; head = None; index = λ _. None } in none) (λ _. None) (λ _. ⊥) };

    ghost is_good = { λ _ _. ⊤ };

    ghost blames = { λ _ _ _. ⊤ };

    ghost follows = { λ _ _ _. refl };

    ghost same_objects = { λ _. refl };

    fn head(&mut self) -> Result<Option<ObjectId>, SourceFault> {
        self.real.head()
    }

    fn ref_value(&mut self, name: &RefName) -> Result<Option<ObjectId>, SourceFault> {
        self.real.ref_value(name)
    }

    fn index_entry(&mut self, path: &[u8]) -> Result<Option<ObjectId>, SourceFault> {
        self.real.index_entry(path)
    }

    fn by_prefix(&mut self, digits: &[u8]) -> Result<Vec<ObjectId>, SourceFault> {
        self.real.by_prefix(digits)
    }

    fn find(&mut self, id: &ObjectId) -> Result<Option<Stored>, SourceFault> {
        let id = self.read_as(id);
        self.real.find(&id)
    }
}
