//! Places of names in a new layer.
ghost use Rattle.std.specs.Prelude.{◌≡◌, ◌++◌, ◌∷◌, [], List, OnOk, OnErr};
ghost use Rattle.indexmap.specs.IndexMap.{get};
ghost use Rattle.vc_known.specs.Walked.{Places, kind_met};
ghost use Rattle.vc_object.specs.ObjectId.{id_eq};

use crate::known::Place;
use crate::walk::Walked;
use indexmap::IndexMap;
use std::alloc::AllocError;
use vc_object::ObjectId;

// Gives each of the names that were met and have no place one in the layer. Where memory is wanting, the places stay as they are.
pub(crate) fn add_places(
    places: &mut IndexMap<ObjectId, Place>,
    layer: usize,
    walked: &Walked,
) -> Result<(), AllocError>
    ensures places { OnOk result (Places layer walked.now.met.keys (kind_met walked.now) (get id_eq places.old) (get id_eq places.new)) }
    ensures err { OnErr result (places.new.entries ≡ places.old.entries) }
{
    let before = places.len();
    match put_places(places, layer, walked) {
        Ok(()) => Ok(()),
        Err(fault) => {
            places.truncate(before);
            Err(fault)
        }
    }
}

// The same, where at an error some may have a place.
fn put_places(
    places: &mut IndexMap<ObjectId, Place>,
    layer: usize,
    walked: &Walked,
) -> Result<(), AllocError>
    ensures places { OnOk result (Places layer walked.now.met.keys (kind_met walked.now) (get id_eq places.old) (get id_eq places.new)) }
    ensures front { (more : List (_)) × (places.new.entries ≡ places.old.entries ++ more) }
{
    let names = walked.met.as_slice();
    for id in names {
        put_place(places, layer, walked, id)?;
    }
    Ok(())
}

// Gives the name a place in the layer, where it has none and its kind is known.
fn put_place(
    places: &mut IndexMap<ObjectId, Place>,
    layer: usize,
    walked: &Walked,
    id: &ObjectId,
) -> Result<(), AllocError>
    ensures places { OnOk result (Places layer (id.now ∷ []) (kind_met walked.now) (get id_eq places.old) (get id_eq places.new)) }
    ensures front { (more : List (_)) × (places.new.entries ≡ places.old.entries ++ more) }
{
    if places.contains_key(id) {
        return Ok(());
    }
    if let Some(kind) = walked.kinds.get(id) {
        let kind = *kind;
        places.insert(*id, Place { layer, kind })?;
    }
    Ok(())
}
