//! Objects as a stream brings them.

ghost use Rattle.std.specs.Prelude.{IfOk};
ghost use Rattle.std.specs.BTreeMap.{IsFromIterResult};
ghost use Rattle.std.specs.List.Sorted.{IsStrictlySortedBy-prop};
ghost use Rattle.std.specs.Map.{keys_of};
ghost use Rattle.vc_object.specs.ObjectId.{IsSortedByName, id_cmp};
ghost use Rattle.vc_pkt.specs.StreamObjectView.{AreNamed};

use crate::carried::{CarriedObjects, StreamObject};
use std::alloc::{AllocError, Global};
use std::cmp::Ordering;
use std::collections::BTreeMap;
use vc_object::{ObjectId, name_of};

/// Objects, each under its own name, and each name greater than those before it. A stream is written in
/// this order.
#[derive(Drop)]
pub struct ObjectRow {
    pub items: Vec<(ObjectId, StreamObject)>,
    pub ghost named: { AreNamed items.items },
    pub ghost sorted: { IsSortedByName (keys_of items.items) } by { IsStrictlySortedBy-prop id_cmp (keys_of items.items) },
}

/// A set of objects that grows. As long as their names ascend, none of them is searched for: they are a
/// row, of which a map is made at the end. From the first that comes out of order they are a map.
#[derive(Drop)]
pub enum IncomingObjects {
    Ascending(ObjectRow),
    Mixed(CarriedObjects),
}

/// The map that has these entries.
fn map_of(
    alloc: Global,
    items: Vec<(ObjectId, StreamObject)>,
) -> Result<BTreeMap<ObjectId, StreamObject>, AllocError>
    ensures { IfOk result (IsFromIterResult id_cmp items.items) }
{
    items.into_iter().collect(alloc)
}

impl ObjectRow {
    ghost use Rattle.std.specs.Prelude.{◌≡◌, ◌↔◌, ◌++◌, ◌∷◌, [], IsTrue};
    ghost use Rattle.vc_pkt.specs.Carried.{stored_name};
    ghost use Rattle.vc_pkt.specs.StreamObjectView.{stored};
    ghost use Rattle.vc_pkt.specs.Incoming.{IsAbove};

    /// No objects.
    fn new(alloc: Global) -> ObjectRow
        ensures { result.items.items ≡ [] }
    {
        ObjectRow {
            items: Vec::new(alloc),
        }
    }

    /// Whether the name is greater than all.
    fn is_below(&self, id: &ObjectId) -> bool
        ensures { IsTrue result ↔ IsAbove id.now self.now.items.items }
    {
        match self.items.last() {
            Some(last) => matches!(last.0.cmp(id), Ordering::Less),
            None => true,
        }
    }

    /// One object more, of a greater name.
    fn push(self, id: ObjectId, object: StreamObject) -> Result<ObjectRow, AllocError>
        requires named { id ≡ stored_name (stored object) }
        requires above { IsAbove id self.items.items }
        ensures { IfOk result (λ row. row.items.items ≡ self.items.items ++ (id, object) ∷ []) }
    {
        let ObjectRow { items } = self;
        let mut items = items;
        items.push((id, object))?;
        Ok(ObjectRow { items })
    }

    /// The same objects as a map.
    fn into_map(self, alloc: Global) -> Result<CarriedObjects, AllocError>
        ensures { IfOk result (λ objects. objects.by_name.entries ≡ self.items.items) }
    {
        let ObjectRow { items } = self;
        let by_name = map_of(alloc, items)?;
        Ok(CarriedObjects { by_name })
    }
}

impl IncomingObjects {
    ghost use Rattle.std.specs.Prelude.{◌≡◌, []};
    ghost use Rattle.vc_pkt.specs.Carried.{with_object};
    ghost use Rattle.vc_pkt.specs.StreamObjectView.{stored, objects_of};
    ghost use Rattle.vc_pkt.specs.Incoming.{incoming};

    /// No objects.
    pub fn new(alloc: Global) -> IncomingObjects
        ensures { incoming result ≡ [] }
    {
        IncomingObjects::Ascending(ObjectRow::new(alloc))
    }

    /// The set with one object more. One whose name is there stays as it is.
    pub fn add(self, alloc: Global, object: StreamObject) -> Result<IncomingObjects, AllocError>
        ensures { IfOk result (λ objects. incoming objects ≡ with_object (stored object) (incoming self)) }
    {
        match self {
            IncomingObjects::Ascending(row) => {
                let id = name_of(object.kind, &object.body);
                if row.is_below(&id) {
                    let row = row.push(id, object)?;
                    return Ok(IncomingObjects::Ascending(row));
                }
                let mut objects = row.into_map(alloc)?;
                objects.add_named(id, object)?;
                Ok(IncomingObjects::Mixed(objects))
            }
            IncomingObjects::Mixed(objects) => {
                let mut objects = objects;
                objects.add(object)?;
                Ok(IncomingObjects::Mixed(objects))
            }
        }
    }

    /// The set as a map.
    pub fn finish(self, alloc: Global) -> Result<CarriedObjects, AllocError>
        ensures { IfOk result (λ objects. objects_of objects.by_name.entries ≡ incoming self) }
    {
        match self {
            IncomingObjects::Ascending(row) => {
                let objects = row.into_map(alloc)?;
                Ok(objects)
            }
            IncomingObjects::Mixed(objects) => Ok(objects),
        }
    }
}
