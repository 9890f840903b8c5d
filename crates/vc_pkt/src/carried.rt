//! The objects that a message carries.

ghost use Rattle.vc_pkt.specs.StreamObjectView.{AreNamed};

use std::alloc::{AllocError, Global};
use std::collections::BTreeMap;
use std::collections::btree_map::Entry;
use vc_object::{Kind, ObjectId, name_of};

/// An object as a stream carries it. Its body need not be in the grammar of its kind.
#[derive(Drop)]
pub struct StreamObject {
    pub kind: Kind,
    /// At most 16,777,216 bytes.
    pub body: Vec<u8>,
}

/// A finite map of names to objects, each under its own name. Of objects that come one after another,
/// one that comes twice counts once.
#[derive(Drop)]
pub struct CarriedObjects {
    pub by_name: BTreeMap<ObjectId, StreamObject>,
    pub ghost named: { AreNamed by_name.entries },
}

impl CarriedObjects {
    ghost use Rattle.std.specs.Prelude.{◌≡◌, [], map, OnOk, OnErr};
    ghost use Rattle.vc_pkt.specs.Carried.{stored_name, with_object};
    ghost use Rattle.vc_pkt.specs.StreamObjectView.{stored, objects_of};

    /// No objects.
    pub fn new(alloc: Global) -> CarriedObjects
        ensures { objects_of result.by_name.entries ≡ [] }
    {
        CarriedObjects {
            by_name: BTreeMap::new(alloc),
        }
    }

    /// Adds an object. One whose name is there stays as it is. If memory is short, nothing is added.
    pub fn add(&mut self, object: StreamObject) -> Result<(), AllocError>
        ensures ok { OnOk result (objects_of self.new.by_name.entries ≡ with_object (stored object) (objects_of self.old.by_name.entries)) }
        ensures err { OnErr result (self.new.by_name.entries ≡ self.old.by_name.entries) }
    {
        let id = name_of(object.kind, &object.body);
        self.add_named(id, object)
    }

    /// Adds an object whose name is known. One whose name is there stays as it is. If memory is short, nothing is added.
    pub fn add_named(&mut self, id: ObjectId, object: StreamObject) -> Result<(), AllocError>
        requires { id ≡ stored_name (stored object) }
        ensures ok { OnOk result (objects_of self.new.by_name.entries ≡ with_object (stored object) (objects_of self.old.by_name.entries)) }
        ensures err { OnErr result (self.new.by_name.entries ≡ self.old.by_name.entries) }
    {
        match self.by_name.entry(id)? {
            Entry::Vacant(place) => {
                place.insert(object);
            }
            Entry::Occupied(_) => {}
        }
        Ok(())
    }
}
