// Setting several refs at once.
ghost use Rattle.std.specs.Prelude.{◌≡◌, ◌⊎◌, [], Ok, IfOk, IfErr, OnOk, IsErrOf};
ghost use Rattle.std.specs.FinMap as names;
ghost use Rattle.vc_files.specs.Failures.{Wears, Writes};
ghost use Rattle.vc_refs.specs.Packing.{AreGone, IsMapOf, LosesSome};
ghost use Rattle.vc_refs.specs.RefMap.{IsInRefs};
ghost use Rattle.vc_refs.specs.SetAll.{names_in, with_change, with_changes, AreNamedInRefs, BlamesSetAll, MayChangeAll, MayPackSome, PacksThem, SetsAll, TellsDeviceOfAll};

use super::checking_all::check_all;
use super::listing::put_over;
use super::packed_file::{read_packed, write_packed};
use crate::{PackedRefs, RefChange, SetAllFault};
use std::alloc::{AllocError, Global};
use vc_files::{Fault, Files};
use vc_object::ObjectId;
use vc_refname::RefName;

/// Makes all of these changes, or none: each ref is as before wherever it stops, until the last write, which sets them all. Each
/// change is judged first, over the refs as they are, and against the names of those before it; the first that can't be made
/// is refused with its place, and nothing is written. Then the named refs that have files of their own are packed and these
/// files go, and then the packed file is written with the new values. The names should differ: of two changes of one
/// ref the later one decides. If there is no change at all, it returns at once, and looks at no file.
pub fn set_all<F: Files>(
    files: &mut F,
    alloc: Global,
    changes: &[RefChange],
) -> Result<(), SetAllFault>
    requires { AreNamedInRefs changes.now }
    ensures sets { SetsAll F.honest F.content changes.now files.old files.new result }
    ensures allowed { F.honest → OnOk result ((changes.now ≡ []) ⊎ MayChangeAll (F.content files.old) changes.now) }
    ensures refused { F.honest → IfErr result (BlamesSetAll (F.content files.old) changes.now) }
    ensures none { changes.now ≡ [] → (result ≡ Ok tt) × (files.new ≡ files.old) }
    ensures wear { Writes F.honest F.content F.failed F.can_fail F.left files.old files.new (TellsDeviceOfAll result) }
    ensures looks { F.honest → MayChangeAll (F.content files.old) changes.now ⊎ Wears F.failed F.can_fail F.left files.old files.new (TellsDeviceOfAll result) }
{
    if changes.is_empty() {
        return Ok(());
    }
    let packed = read_packed(files, alloc)?;
    let loose = check_all(files, alloc, &packed, changes)?;
    let present = put_over(packed, &loose)?;
    pack_loose(files, alloc, &present, &loose)?;
    let after = change_all(present, changes)?;
    write_packed(files, alloc, &after)?;
    Ok(())
}

// Writes the packed file with the present values of the loose refs, and then removes their own files. If there are none, it
// writes nothing.
fn pack_loose<F: Files>(
    files: &mut F,
    alloc: Global,
    present: &PackedRefs,
    loose: &[(RefName, ObjectId)],
) -> Result<(), Fault>
    ensures some { F.honest → MayPackSome loose.now present.now (F.content files.old) (F.content files.new) }
    ensures packed { F.honest → OnOk result (PacksThem loose.now present.now (F.content files.old) (F.content files.new)) }
    ensures wear { Writes F.honest F.content F.failed F.can_fail F.left files.old files.new (IsErrOf result Fault.Device) }
{
    if loose.is_empty() {
        return Ok(());
    }
    write_packed(files, alloc, present)?;
    remove_loose(files, alloc, loose)?;
    Ok(())
}

// Removes the own files of these refs.
fn remove_loose<F: Files>(
    files: &mut F,
    alloc: Global,
    loose: &[(RefName, ObjectId)],
) -> Result<(), Fault>
    ensures lost { F.honest → LosesSome (names_in loose.now) (F.content files.old) (F.content files.new) }
    ensures gone { F.honest → OnOk result (AreGone (names_in loose.now) (F.content files.new)) }
    ensures wear { Writes F.honest F.content F.failed F.can_fail F.left files.old files.new (IsErrOf result Fault.Device) }
{
    for entry in loose {
        files.remove(alloc, entry.0.as_str())?;
    }
    Ok(())
}

// The refs with all of these changes made, one after the other.
fn change_all(refs: PackedRefs, changes: &[RefChange]) -> Result<PackedRefs, AllocError>
    requires { AreNamedInRefs changes.now }
    ensures { IfOk result (IsMapOf (with_changes (names.get refs) changes.now)) }
{
    let mut changed = refs;
    for change in changes {
        change_one(&mut changed, change)?;
    }
    Ok(changed)
}

// Makes one change in the map of the refs.
fn change_one(refs: &mut PackedRefs, change: &RefChange) -> Result<(), AllocError>
    requires { IsInRefs change.now.name }
    ensures { OnOk result (IsMapOf (with_change (names.get refs.old) change.now) refs.new) }
{
    let Some(id) = change.new else {
        refs.remove(&change.name);
        return Ok(());
    };
    let name = change.name.clone()?;
    refs.insert(name, id)?;
    Ok(())
}
