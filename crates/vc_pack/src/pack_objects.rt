//! A pack as a set of objects.
use vc_graph::Carried;
use vc_object::{Object, ObjectId, check};
use vc_pkt::CarriedObjects;

/// What a pack carries, as a set of objects by name. A body out of its kind's grammar is no object.
#[derive(Clone, Copy)]
pub struct PackObjects<'a> {
    /// The objects of the pack.
    pub objects: &'a CarriedObjects,
}

impl Carried for PackObjects<'_> {
    ghost use Rattle.vc_fetch.specs.PackObjects.{objects_in};
    ghost use Rattle.vc_pkt.specs.ObjectStreamView.{carried};

    ghost carried = { λ pack. objects_in (carried pack.objects.now) };

    fn find(&self, id: &ObjectId) -> Option<Object<'_>> {
        let object = self.objects.by_name.get(id)?;
        match check(object.kind, &object.body) {
            Ok(object) => Some(object),
            Err(_) => None,
        }
    }
}
