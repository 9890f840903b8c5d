//! Objects in memory, as a push or a pack carries them, over those that are stored.
ghost use Rattle.std.specs.Prelude.{◌≡◌};
ghost use Rattle.std.specs.Option.{option_map};
ghost use Rattle.vc_object.specs.Decoding.{stored_object};
ghost use Rattle.vc_object.specs.ObjectMap.{ObjectMap};

use indexmap::IndexMap;
use std::alloc::{AllocError, Global};
use vc_object::{Object, ObjectId};
use vc_object_map::{Commits, Objects, Parents, StoreFault};

/// Objects by name, all of which are in memory.
pub trait Carried {
    /// The objects, by name.
    ghost carried: { Self → ObjectMap };

    /// The object with this name, or `None` where none is carried.
    fn find(&self, id: &ObjectId) -> Option<Object<'_>>
        ensures { option_map (λ o. stored_object o.kind o.body.now) result ≡ carried self.now id.now };
}

impl Carried for IndexMap<ObjectId, Object<'_>> {
    ghost use Rattle.vc_object.specs.ObjectId.{id_eq};
    ghost use Rattle.indexmap.specs.IndexMap.{get};

    ghost carried = { λ objects id. option_map (λ o. stored_object o.kind o.body.now) (get id_eq objects id) };

    fn find(&self, id: &ObjectId) -> Option<Object<'_>> {
        self.get(id).copied()
    }
}

/// The objects of a store and, for the names that it lacks, those that are carried. A name that both have is the
/// store's, whatever is carried under it.
#[derive(Drop)]
pub struct Overlay<'a, O, C> {
    /// What is stored.
    pub stored: &'a mut O,
    /// What is carried.
    pub carried: &'a C,
    /// What its calls allocate with.
    pub alloc: Global,
}

impl<O: Objects, C: Carried> Objects for Overlay<'_, O, C> {
    ghost use Rattle.vc_object_map.specs.Overlay.{OverlayState, overlay_state, with_carried};

    ghost is_honest = { O.is_honest };

    // The reference to the store belongs to it: a call may not put another in its place.
    ghost State = { OverlayState O.State };

    ghost state_of = { λ s. overlay_state s.stored.ghost_name (O.state_of s.stored.now) (C.carried s.carried.now) };

    ghost objects = { λ state. with_carried (O.objects state.stored) state.carried };

    ghost damaged = { λ state id. O.damaged state.stored id };

    ghost failed = { λ s. O.failed s.stored.now };

    ghost can_fail = { λ s. O.can_fail s.stored.now };

    ghost left = { λ s. O.left s.stored.now };

    fn links(&mut self, id: &ObjectId) -> Result<Option<Vec<ObjectId>>, StoreFault> {
        if let Some(links) = self.stored.links(id)? {
            return Ok(Some(links));
        }
        let Some(object) = self.carried.find(id) else {
            return Ok(None);
        };
        let links = vc_object::links(self.alloc, &object)?;
        Ok(Some(links))
    }
}

impl<O: Commits, C: Carried> Commits for Overlay<'_, O, C> {
    fn parents(&mut self, id: &ObjectId) -> Result<Option<Parents>, StoreFault> {
        if let Some(parents) = self.stored.parents(id)? {
            return Ok(Some(parents));
        }
        let Some(object) = self.carried.find(id) else {
            return Ok(None);
        };
        let parents = vc_object::parents(self.alloc, &object)?;
        match parents {
            Some(ids) => Ok(Some(Parents::Of(ids))),
            None => Ok(Some(Parents::NotCommit)),
        }
    }
}
