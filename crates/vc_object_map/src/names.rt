//! Sets of names that walks make, and lists of names made of them.
ghost use Rattle.std.specs.Prelude.{◌≡◌, ◌≤◌, ◌↔◌, ℕ, length, take, IfOk, OnOk, OnErr, Contains};
ghost use Rattle.indexmap.specs.IndexSet.{insert_all};
ghost use Rattle.vc_object.specs.ObjectId.{IsSortedByName, id_eq};
ghost use Rattle.vc_object.specs.declared.id.ObjectId.{ObjectId as Id};

use indexmap::IndexSet;
use std::alloc::{AllocError, Global};
use vc_object::{ObjectId, sorted_by_name};

/// Adds the names to the set, in their order. Where memory is wanting, those before are added.
pub fn add_names(set: &mut IndexSet<ObjectId>, names: &[ObjectId]) -> Result<(), AllocError>
    ensures added { OnOk result (set.new.keys ≡ insert_all id_eq set.old.keys names.now) }
    ensures err { OnErr result ((n : ℕ) × (set.new.keys ≡ insert_all id_eq set.old.keys (take n names.now))) }
{
    for name in names {
        set.insert(*name)?;
    }
    Ok(())
}

/// The names of the first set that the second lacks, sorted by name.
pub fn sorted_difference(
    alloc: Global,
    names: &IndexSet<ObjectId>,
    others: &IndexSet<ObjectId>,
) -> Result<Vec<ObjectId>, AllocError>
    ensures difference { IfOk result (λ ids. (id : Id) → Contains ids.items id ↔ (Contains names.now.keys id × ¬ Contains others.now.keys id)) }
    ensures sorted { IfOk result (λ ids. IsSortedByName ids.items) }
{
    let names = names.difference(others).copied().collect(alloc)?;
    Ok(sorted_by_name(names))
}

/// The names of a set from a place on, sorted by name: those that are not among the ones before it.
pub fn sorted_from(
    alloc: Global,
    names: &IndexSet<ObjectId>,
    place: usize,
) -> Result<Vec<ObjectId>, AllocError>
    requires { place ≤ length names.now.keys }
    ensures later { IfOk result (λ ids. (id : Id) → Contains ids.items id ↔ (Contains names.now.keys id × ¬ Contains (take place names.now.keys) id)) }
    ensures sorted { IfOk result (λ ids. IsSortedByName ids.items) }
{
    let (_, later) = names.as_slice().split_at(place);
    let later = later.iter().copied().collect(alloc)?;
    Ok(sorted_by_name(later))
}
