// A look at one ref.
ghost use Rattle.std.specs.Prelude.{◌≡◌, Some, IfOk, IfErr, OnOk, IsErrOf};
ghost use Rattle.vc_files.specs.Failures.{Wears};
ghost use Rattle.vc_refs.specs.RefFault.{BlamesRef, BlamesRemove, HasExpected};
ghost use Rattle.vc_refs.specs.Refs.{deciding_file, is_taken, packed_map, refs, IsBadRef};
ghost use Rattle.vc_refs.specs.RefMap.{IsInRefs};

use super::packed_file::PackedCache;
use crate::{PackedRefs, RefFault, loose};
use std::alloc::Global;
use vc_files::{Fault, Files};
use vc_object::ObjectId;
use vc_refname::RefName;

/// The id that the ref stands for, or none if there is no such ref. The packed file is read only if no file of
/// the ref's own is there.
pub fn get<F: Files>(
    files: &mut F,
    alloc: Global,
    name: &RefName,
) -> Result<Option<ObjectId>, RefFault>
    requires { IsInRefs name.now }
    ensures found { F.honest → IfOk result (λ id. id ≡ refs (F.content files.old) name.now) }
    ensures good { F.honest → OnOk result (IsBadRef (F.content files.old) (deciding_file (F.content files.old) name.now) → ⊥) }
    ensures refused { F.honest → IfErr result (BlamesRef (F.content files.old) name.now) }
    ensures same { F.content files.new ≡ F.content files.old }
    ensures wear { Wears F.failed F.can_fail F.left files.old files.new (IsErrOf result (RefFault.Fault Fault.Device)) }
{
    let mut packed = PackedCache::new(alloc);
    get_with(files, alloc, &mut packed, name)
}

/// The same, for one who looks up several refs and keeps in `packed` what was read of the packed file.
pub fn get_with<F: Files>(
    files: &mut F,
    alloc: Global,
    packed: &mut PackedCache,
    name: &RefName,
) -> Result<Option<ObjectId>, RefFault>
    requires { IsInRefs name.now }
    ensures found { F.honest → IfOk result (λ id. id ≡ refs (F.content files.old) name.now) }
    ensures good { F.honest → OnOk result (IsBadRef (F.content files.old) (deciding_file (F.content files.old) name.now) → ⊥) }
    ensures refused { F.honest → IfErr result (BlamesRef (F.content files.old) name.now) }
    ensures same { F.content files.new ≡ F.content files.old }
    ensures wear { Wears F.failed F.can_fail F.left files.old files.new (IsErrOf result (RefFault.Fault Fault.Device)) }
{
    // The ref's own file first: it goes once the packed file has the ref.
    if let Some(id) = loose::get(files, alloc, name)? {
        return Ok(Some(id));
    }
    packed.refresh(files, alloc)?;
    Ok(packed.get(name))
}

/// The same, over packed refs that were read: for one who looks up several refs while nobody else writes the packed file, which
/// is read once then.
pub fn get_over<F: Files>(
    files: &mut F,
    alloc: Global,
    packed: &PackedRefs,
    name: &RefName,
) -> Result<Option<ObjectId>, RefFault>
    requires inside { IsInRefs name.now }
    requires read { F.honest → packed_map (F.content files.old) ≡ Some packed.now }
    ensures found { F.honest → IfOk result (λ id. id ≡ refs (F.content files.old) name.now) }
    ensures good { F.honest → OnOk result (IsBadRef (F.content files.old) (deciding_file (F.content files.old) name.now) → ⊥) }
    ensures refused { F.honest → IfErr result (BlamesRef (F.content files.old) name.now) }
    ensures same { F.content files.new ≡ F.content files.old }
    ensures wear { Wears F.failed F.can_fail F.left files.old files.new (IsErrOf result (RefFault.Fault Fault.Device)) }
{
    if let Some(own) = loose::get(files, alloc, name)? {
        return Ok(Some(own));
    }
    Ok(packed.get(name))
}

// Refuses if the ref's value is not the expected one, and else returns whether a file of its own says it.
pub(super) fn expect_value<F: Files>(
    files: &mut F,
    alloc: Global,
    packed: &PackedRefs,
    name: &RefName,
    expected: Option<ObjectId>,
) -> Result<bool, RefFault>
    requires { IsInRefs name.now }
    ensures loose { F.honest → IfOk result (λ loose. loose ≡ is_taken (F.content files.old) name.now) }
    ensures allowed { F.honest → packed_map (F.content files.old) ≡ Some packed.now → OnOk result (HasExpected (F.content files.old) name.now expected) }
    ensures refused { F.honest → packed_map (F.content files.old) ≡ Some packed.now → IfErr result (BlamesRemove (F.content files.old) name.now expected) }
    ensures same { F.content files.new ≡ F.content files.old }
    ensures wear { Wears F.failed F.can_fail F.left files.old files.new (IsErrOf result (RefFault.Fault Fault.Device)) }
{
    let loose = loose::get(files, alloc, name)?;
    let current = loose.or(packed.get(name));
    if current != expected {
        return Err(RefFault::Stale(current));
    }
    Ok(loose.is_some())
}
