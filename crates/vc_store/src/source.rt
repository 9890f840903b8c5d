// A store as a set of objects, some of which are commits.
use crate::Store;
use std::alloc::AllocError;
use vc_files::Files;
use vc_object::ObjectId;
use vc_object_map::{Commits, Objects, Parents, StoreFault};

impl<F: Files> Objects for Store<'_, F> {
    ghost use Rattle.vc_object_map.specs.Store.{objects, IsDamaged};
    ghost use Rattle.vc_store.specs.StoreState.{StoreState, store_state};

    ghost is_honest = { F.honest };

    ghost State = { StoreState };

    ghost state_of = { λ s. store_state s.files.ghost_name (F.content s.files.now) };

    ghost objects = { λ state. objects state.content };

    ghost damaged = { λ state id. IsDamaged state.content id };

    ghost failed = { λ s. F.failed s.files.now };

    ghost can_fail = { λ s. F.can_fail s.files.now };

    ghost left = { λ s. F.left s.files.now };

    fn links(&mut self, id: &ObjectId) -> Result<Option<Vec<ObjectId>>, StoreFault> {
        let Some(found) = self.find(id)? else {
            return Ok(None);
        };
        let links = vc_object::links(self.alloc(), &found.object())?;
        Ok(Some(links))
    }
}

impl<F: Files> Commits for Store<'_, F> {
    fn parents(&mut self, id: &ObjectId) -> Result<Option<Parents>, StoreFault> {
        let Some(found) = self.find(id)? else {
            return Ok(None);
        };
        let parents = vc_object::parents(self.alloc(), &found.object())?;
        match parents {
            Some(ids) => Ok(Some(Parents::Of(ids))),
            None => Ok(Some(Parents::NotCommit)),
        }
    }
}
