//! The ids that a node's refs stand for.
ghost use Rattle.std.specs.Prelude.{◌≡◌, ◌↔◌, ◌⊎◌, IfOk, IfErr, IsErrOf, OnOk, Contains};
ghost use Rattle.std.specs.Map.{values_of};
ghost use Rattle.vc_pack.specs.Answer.{IsRefValue};
ghost use Rattle.vc_files.specs.Failures.{Wears};
ghost use Rattle.vc_object.specs.ObjectId.{IsSortedByName};
ghost use Rattle.vc_object.specs.declared.id.ObjectId.{ObjectId as Id};
ghost use Rattle.vc_refs.specs.RefFault.{BlamesList, BlamesHead, IsGoodHead};
ghost use Rattle.vc_refs.specs.Refs.{SpellsRefs};

use indexmap::IndexSet;
use std::alloc::{AllocError, Global};
use vc_files::{Fault, Files};
use vc_object::ObjectId;
use vc_object_map::{add_names, sorted_from};
use vc_refname::RefName;
use vc_refs::{Head, RefFault, head, list};

// The ids of listed refs, in their order.
fn ids_of(alloc: Global, listed: &[(RefName, ObjectId)]) -> Result<Vec<ObjectId>, AllocError>
    ensures { IfOk result (λ ids. ids.items ≡ values_of listed.now) }
{
    let mut ids = Vec::new(alloc);
    for (_, id) in listed {
        ids.push(*id)?;
    }
    Ok(ids)
}

// The ids of a list, each once, sorted by name.
pub(crate) fn sorted_names(alloc: Global, ids: &[ObjectId]) -> Result<Vec<ObjectId>, AllocError>
    ensures same { IfOk result (λ names. (id : Id) → Contains names.items id ↔ Contains ids.now id) }
    ensures sorted { IfOk result (λ names. IsSortedByName names.items) }
{
    let mut set = IndexSet::new(alloc);
    add_names(&mut set, ids)?;
    let names = sorted_from(alloc, &set, 0)?;
    Ok(names)
}

/// The values of all refs and, if HEAD is an id, that id: in no order, and one may stand there more than once. 33 if a file in
/// `refs/`, the packed file or HEAD can't be read, 34 if HEAD names HEAD.
pub fn ref_values<F: Files>(alloc: Global, files: &mut F) -> Result<Vec<ObjectId>, RefFault>
    ensures values { F.honest → IfOk result (λ ids. (id : Id) → Contains ids.items id ↔ IsRefValue (F.content files.old) id) }
    ensures good { F.honest → OnOk result (SpellsRefs (F.content files.old) × IsGoodHead (F.content files.old)) }
    ensures refused { F.honest → IfErr result (λ e. BlamesList (F.content files.old) e ⊎ BlamesHead (F.content files.old) e) }
    ensures same { F.content files.new ≡ F.content files.old }
    ensures wear { Wears F.failed F.can_fail F.left files.old files.new (IsErrOf result (RefFault.Fault Fault.Device)) }
{
    let listed = list(files, alloc)?;
    let mut ids = ids_of(alloc, &listed)?;
    let Some(found) = head(files, alloc)? else {
        return Ok(ids);
    };
    match found {
        Head::Branch(_) => Ok(ids),
        Head::Id(id) => {
            ids.push(id)?;
            Ok(ids)
        }
    }
}
