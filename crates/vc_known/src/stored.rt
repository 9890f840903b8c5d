//! Stored objects show their kinds, and so do those that are carried over them.

use crate::seen::{Kinds, Seen};
use vc_files::Files;
use vc_graph::{Carried, Overlay};
use vc_object::{ObjectId, links};
use vc_object_map::StoreFault;
use vc_store::Store;

impl<F: Files> Kinds for Store<'_, F> {
    fn look(&mut self, id: &ObjectId) -> Result<Option<Seen>, StoreFault> {
        let Some(found) = self.find(id)? else {
            return Ok(None);
        };
        let kind = found.kind;
        let links = links(self.alloc(), &found.object())?;
        Ok(Some(Seen { kind, links }))
    }
}

impl<O: Kinds, C: Carried> Kinds for Overlay<'_, O, C> {
    fn look(&mut self, id: &ObjectId) -> Result<Option<Seen>, StoreFault> {
        if let Some(seen) = self.stored.look(id)? {
            return Ok(Some(seen));
        }
        let Some(object) = self.carried.find(id) else {
            return Ok(None);
        };
        let kind = object.kind;
        let links = links(self.alloc, &object)?;
        Ok(Some(Seen { kind, links }))
    }
}
