// Removing one ref.
ghost use Rattle.std.specs.Prelude.{◌≡◌, ◌⊎◌, Some, IfErr, OnOk, OnErr, IsErrOf};
ghost use Rattle.vc_files.specs.Failures.{Wears, Writes};
ghost use Rattle.vc_refs.specs.Packing.{IsUnpacked};
ghost use Rattle.vc_refs.specs.RefCalls.{RemovesRef};
ghost use Rattle.vc_refs.specs.RefFault.{BlamesRemove, HasExpected, MayRemoveRef, TellsDevice};
ghost use Rattle.vc_refs.specs.Refs.{packed_map};
ghost use Rattle.vc_refs.specs.RefMap.{IsInRefs};

use super::getting::expect_value;
use super::packed_file::{read_packed, write_packed};
use crate::removing::take_away;
use crate::{PackedRefs, RefFault};
use std::alloc::Global;
use vc_files::{Fault, Files};
use vc_object::ObjectId;
use vc_refname::RefName;

/// Removes the ref, if its value is the expected one. One that isn't there, and was expected not to be, stays so. The
/// packed file loses the ref first, and then its own file goes: if the second write fails, the refs are as before,
/// since the ref's own file says its value.
pub fn remove<F: Files>(
    files: &mut F,
    alloc: Global,
    name: &RefName,
    expected: Option<ObjectId>,
) -> Result<(), RefFault>
    requires { IsInRefs name.now }
    ensures removes { RemovesRef F.honest F.content name.now files.old files.new result }
    ensures allowed { F.honest → OnOk result (HasExpected (F.content files.old) name.now expected) }
    ensures refused { F.honest → IfErr result (BlamesRemove (F.content files.old) name.now expected) }
    ensures wear { Writes F.honest F.content F.failed F.can_fail F.left files.old files.new (TellsDevice result) }
    ensures looks { F.honest → MayRemoveRef (F.content files.old) name.now expected ⊎ Wears F.failed F.can_fail F.left files.old files.new (TellsDevice result) }
{
    let packed = read_packed(files, alloc)?;
    let loose = expect_value(files, alloc, &packed, name, expected)?;
    if expected.is_none() {
        return Ok(());
    }
    unpack(files, alloc, packed, name)?;
    if !loose {
        return Ok(());
    }
    take_away(files, alloc, name)?;
    Ok(())
}

// Takes the ref out of the packed file, if it is packed. Each other file stays.
fn unpack<F: Files>(
    files: &mut F,
    alloc: Global,
    packed: PackedRefs,
    name: &RefName,
) -> Result<(), Fault>
    ensures unpacked { F.honest → packed_map (F.content files.old) ≡ Some packed → OnOk result (IsUnpacked name.now (F.content files.old) (F.content files.new)) }
    ensures err { F.honest → OnErr result (F.content files.new ≡ F.content files.old) }
    ensures wear { Writes F.honest F.content F.failed F.can_fail F.left files.old files.new (IsErrOf result Fault.Device) }
{
    if packed.get(name).is_none() {
        return Ok(());
    }
    let mut less = packed;
    less.remove(name);
    write_packed(files, alloc, &less)?;
    Ok(())
}
