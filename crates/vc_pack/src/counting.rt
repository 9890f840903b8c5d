//! Which ids are among those that the refs reach.
ghost use Rattle.std.specs.Prelude.{◌↔◌, IfOk, IfNone, IfSome, IsTrue, Contains};
ghost use Rattle.vc_pack.specs.Picked.{IsFirst, IsPicked};
ghost use Rattle.vc_object.specs.ObjectId.{IsSortedByName};
ghost use Rattle.vc_object.specs.declared.id.ObjectId.{ObjectId as Id};

use std::alloc::{AllocError, Global};
use vc_fetch::Want;
use vc_object::ObjectId;

/// Whether the id is one of those, which are sorted by name.
pub fn is_among(ids: &[ObjectId], id: &ObjectId) -> bool
    requires { IsSortedByName ids.now }
    ensures { IsTrue result ↔ Contains ids.now id.now }
{
    ids.binary_search(id).is_ok()
}

// The first of the wants that is not among those ids, which are sorted by name.
pub(crate) fn first_other(ids: &[ObjectId], wants: &[ObjectId]) -> Option<ObjectId>
    requires { IsSortedByName ids.now }
    ensures other { IfSome result (IsFirst (λ id. ¬ Contains ids.now id) (Contains ids.now) wants.now) }
    ensures none { IfNone result ((id : Id) → Contains wants.now id → Contains ids.now id) }
{
    for want in wants {
        if !is_among(ids, want) {
            return Some(*want);
        }
    }
    None
}

// Whether all wants and haves are among those ids, which are sorted by name.
pub(crate) fn are_among(ids: &[ObjectId], want: &Want) -> bool
    requires { IsSortedByName ids.now }
    ensures wants { IsTrue result → (id : Id) → Contains want.now.wants.items id → Contains ids.now id }
    ensures haves { IsTrue result → (id : Id) → Contains want.now.haves.items id → Contains ids.now id }
{
    if first_other(ids, &want.wants).is_some() {
        return false;
    }
    first_other(ids, &want.haves).is_none()
}

// The haves that are among those ids, which are sorted by name, in the order of the haves.
pub(crate) fn counted(
    alloc: Global,
    ids: &[ObjectId],
    haves: &[ObjectId],
) -> Result<Vec<ObjectId>, AllocError>
    requires { IsSortedByName ids.now }
    ensures { IfOk result (λ counted. IsPicked (Contains ids.now) haves.now counted.items) }
{
    let mut counted = Vec::new(alloc);
    for have in haves {
        if is_among(ids, have) {
            counted.push(*have)?;
        }
    }
    Ok(counted)
}
