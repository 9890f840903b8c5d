// Setting one ref.
ghost use Rattle.std.specs.Prelude.{◌≡◌, ◌⊎◌, Some, IfErr, OnOk};
ghost use Rattle.vc_files.specs.Failures.{Wears, Writes};
ghost use Rattle.vc_refs.specs.RefCalls.{SetsRef};
ghost use Rattle.vc_refs.specs.RefFault.{BlamesSet, MaySet, MayWriteRef, TellsDevice};
ghost use Rattle.vc_refs.specs.RefMap.{IsInRefs};
ghost use Rattle.vc_refs.specs.Refs.{packed_map};

use super::getting::expect_value;
use super::obstacle::refuse_beside;
use super::packed_file::read_packed;
use crate::setting::put;
use crate::{PackedRefs, RefFault};
use std::alloc::Global;
use vc_files::Files;
use vc_object::ObjectId;
use vc_refname::RefName;

/// Sets the ref, if its value is the expected one (none: if it isn't there). One write of the ref's own file does it;
/// the packed file is read once, and stays as it is.
pub fn set<F: Files>(
    files: &mut F,
    alloc: Global,
    name: &RefName,
    expected: Option<ObjectId>,
    new: ObjectId,
) -> Result<(), RefFault>
    requires { IsInRefs name.now }
    ensures sets { SetsRef F.honest F.content name.now new files.old files.new result }
    ensures allowed { F.honest → OnOk result (MaySet (F.content files.old) name.now expected) }
    ensures refused { F.honest → IfErr result (BlamesSet (F.content files.old) name.now expected) }
    ensures wear { Writes F.honest F.content F.failed F.can_fail F.left files.old files.new (TellsDevice result) }
    ensures looks { F.honest → MayWriteRef (F.content files.old) name.now expected ⊎ Wears F.failed F.can_fail F.left files.old files.new (TellsDevice result) }
{
    let packed = read_packed(files, alloc)?;
    set_over(files, alloc, &packed, name, expected, new)?;
    Ok(())
}

/// The same, over packed refs that were read: for one who sets several refs while nobody else writes the packed file, which is
/// read once then.
pub fn set_over<F: Files>(
    files: &mut F,
    alloc: Global,
    packed: &PackedRefs,
    name: &RefName,
    expected: Option<ObjectId>,
    new: ObjectId,
) -> Result<(), RefFault>
    requires inside { IsInRefs name.now }
    requires read { F.honest → packed_map (F.content files.old) ≡ Some packed.now }
    ensures sets { SetsRef F.honest F.content name.now new files.old files.new result }
    ensures allowed { F.honest → OnOk result (MaySet (F.content files.old) name.now expected) }
    ensures refused { F.honest → IfErr result (BlamesSet (F.content files.old) name.now expected) }
    ensures wear { Writes F.honest F.content F.failed F.can_fail F.left files.old files.new (TellsDevice result) }
    ensures looks { F.honest → MayWriteRef (F.content files.old) name.now expected ⊎ Wears F.failed F.can_fail F.left files.old files.new (TellsDevice result) }
{
    refuse_beside(files, alloc, packed, name)?;
    expect_value(files, alloc, packed, name, expected)?;
    put(files, alloc, name, new)?;
    Ok(())
}
