//! A repository over files.
ghost use Rattle.std.specs.Prelude.{◌≡◌, refl};

use crate::faults::refs_fault;
use std::alloc::Global;
use vc_files::Files;
use vc_index::Index;
use vc_object::ObjectId;
use vc_object_map::{Commits, Objects, Parents, StoreFault};
use vc_refname::RefName;
use vc_refs::PackedCache;
use vc_rev::{Repository, SourceFault};
use vc_store::{Store, Stored};

/// The refs, HEAD and the objects that files hold, and an index that was read before: by [`read_index`](crate::read_index), or
/// an empty one where no expression reads it. Over files that are a finite map it answers what they hold.
#[derive(Drop)]
pub struct FileRepository<'a, F> {
    /// The files that it is a view of.
    pub files: &'a mut F,
    /// The index.
    pub index: &'a Index,
    /// What its calls allocate with.
    pub alloc: Global,
    // What was read of the packed refs last.
    packed: &'a mut PackedCache,
}

impl<'a, F: Files> FileRepository<'a, F> {
    /// The repository of these files, with this index. In `packed` it keeps what it reads of the packed refs, so that they are
    /// parsed once, however many names are looked up.
    pub fn new(
        alloc: Global,
        files: &'a mut F,
        index: &'a Index,
        packed: &'a mut PackedCache,
    ) -> FileRepository<'a, F>
        ensures same_files { result.files.ghost_name ≡ files.entry.ghost_name }
        ensures files { result.files.now ≡ files.old }
        ensures index { result.index.now ≡ index.now }
    {
        FileRepository {
            files,
            index,
            alloc,
            packed,
        }
    }
}

impl<F: Files> Objects for FileRepository<'_, F> {
    ghost use Rattle.vc_object_map.specs.Store.{objects, IsDamaged};
    ghost use Rattle.vc_repository.specs.State.{State, state};

    ghost is_honest = { F.honest };

    ghost State = { State };

    ghost state_of = { λ s. state s.files.ghost_name (F.content s.files.now) s.index.now };

    ghost objects = { λ s. objects s.content };

    ghost damaged = { λ s id. IsDamaged s.content id };

    ghost failed = { λ s. F.failed s.files.now };

    ghost can_fail = { λ s. F.can_fail s.files.now };

    ghost left = { λ s. F.left s.files.now };

    fn links(&mut self, id: &ObjectId) -> Result<Option<Vec<ObjectId>>, StoreFault> {
        Store::new(self.alloc, self.files).links(id)
    }
}

impl<F: Files> Commits for FileRepository<'_, F> {
    fn parents(&mut self, id: &ObjectId) -> Result<Option<Parents>, StoreFault> {
        Store::new(self.alloc, self.files).parents(id)
    }
}

impl<F: Files> Repository for FileRepository<'_, F> {
    ghost use Rattle.vc_repository.specs.Resolving.{over};
    ghost use Rattle.vc_repository.specs.State.{State, state, IsCause, IsGood};

    ghost View = { State };

    ghost view_of = { λ s. state s.files.ghost_name (F.content s.files.now) s.index.now };

    ghost source = { over };

    ghost is_good = { IsGood };

    ghost blames = { IsCause };

    ghost follows = { λ x y same. same };

    ghost same_objects = { λ x. refl };

    fn head(&mut self) -> Result<Option<ObjectId>, SourceFault> {
        match vc_refs::resolve_head_with(self.files, self.alloc, self.packed) {
            Ok(found) => Ok(found),
            Err(fault) => Err(refs_fault(fault)),
        }
    }

    fn ref_value(&mut self, name: &RefName) -> Result<Option<ObjectId>, SourceFault> {
        match vc_refs::get_with(self.files, self.alloc, self.packed, name) {
            Ok(found) => Ok(found),
            Err(fault) => Err(refs_fault(fault)),
        }
    }

    fn index_entry(&mut self, path: &[u8]) -> Result<Option<ObjectId>, SourceFault> {
        match self.index.get(path) {
            Some(entry) => Ok(Some(entry.id)),
            None => Ok(None),
        }
    }

    fn by_prefix(&mut self, digits: &[u8]) -> Result<Vec<ObjectId>, SourceFault> {
        match Store::new(self.alloc, self.files).by_prefix(digits) {
            Ok(ids) => Ok(ids),
            Err(fault) => Err(SourceFault::Store(fault)),
        }
    }

    fn find(&mut self, id: &ObjectId) -> Result<Option<Stored>, SourceFault> {
        match Store::new(self.alloc, self.files).find(id) {
            Ok(found) => Ok(found),
            Err(fault) => Err(SourceFault::Store(fault)),
        }
    }
}
