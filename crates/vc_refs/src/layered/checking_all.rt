// Whether several refs can be set at once.
ghost use Rattle.std.specs.Prelude.{◌≡◌, ◌++◌, [], Some, IfOk, IfErr, OnOk};
ghost use Rattle.vc_files.specs.Failures.{Wears};
ghost use Rattle.vc_refs.specs.Packing.{loose_at, with_first, AreInRefs};
ghost use Rattle.vc_refs.specs.Refs.{is_taken, loose_refs, packed_map};
ghost use Rattle.vc_refs.specs.RefFault.{TellsDevice};
ghost use Rattle.vc_refs.specs.RefMap.{IsInRefs, entry_at};
ghost use Rattle.vc_refs.specs.SetAll.{first_conflicting, names_of, placed, AreNamedInRefs, BlamesChange, BlamesNext, BlamesSetAll, MayChange, MayChangeAll, TellsDeviceOfAll};

use super::getting::expect_value;
use super::obstacle::{conflicts, refuse_beside};
use crate::{PackedRefs, RefChange, RefFault, SetAllFault};
use std::alloc::{AllocError, Global};
use vc_files::Files;
use vc_object::ObjectId;
use vc_refname::RefName;

// The first name of these changes, in their order, that no map may have beside this one.
fn earlier_in_the_way(earlier: &[RefChange], name: &RefName) -> Result<Option<RefName>, AllocError>
    ensures { IfOk result (λ found. found ≡ first_conflicting earlier.now name.now) }
{
    for change in earlier {
        if conflicts(change.name.as_str().as_bytes(), name.as_str().as_bytes()) {
            let other = change.name.clone()?;
            return Ok(Some(other));
        }
    }
    Ok(None)
}

// Refuses a change that can't be made after these, and else returns whether its ref has a file of its own.
fn check<F: Files>(
    files: &mut F,
    alloc: Global,
    packed: &PackedRefs,
    earlier: &[RefChange],
    change: &RefChange,
) -> Result<bool, RefFault>
    requires { IsInRefs change.now.name }
    ensures loose { F.honest → IfOk result (λ loose. loose ≡ is_taken (F.content files.old) change.now.name) }
    ensures allowed { F.honest → packed_map (F.content files.old) ≡ Some packed.now → OnOk result (MayChange (F.content files.old) earlier.now change.now) }
    ensures refused { F.honest → packed_map (F.content files.old) ≡ Some packed.now → IfErr result (BlamesChange (F.content files.old) earlier.now change.now) }
    ensures same { F.content files.new ≡ F.content files.old }
    ensures wear { Wears F.failed F.can_fail F.left files.old files.new (TellsDevice result) }
{
    // The caller learns that the name is legal.
    let _ = change.name.as_str();
    refuse_beside(files, alloc, packed, &change.name)?;
    if let Some(other) = earlier_in_the_way(earlier, &change.name)? {
        return Err(RefFault::Conflict(other));
    }
    let loose = expect_value(files, alloc, packed, &change.name, change.expected)?;
    Ok(loose)
}

// What refuses one change, with its place; a fault has none.
fn placed(place: usize, fault: RefFault) -> SetAllFault
    ensures { result ≡ placed place fault }
{
    match fault {
        RefFault::Stale(current) => SetAllFault::At(place, RefFault::Stale(current)),
        RefFault::Conflict(other) => SetAllFault::At(place, RefFault::Conflict(other)),
        RefFault::BadRefFile(path) => SetAllFault::At(place, RefFault::BadRefFile(path)),
        RefFault::HeadLoop => SetAllFault::At(place, RefFault::HeadLoop),
        RefFault::Fault(fault) => SetAllFault::Whole(RefFault::Fault(fault)),
    }
}

// Checks the change that comes after these; what refuses it has its place.
fn check_next<F: Files>(
    files: &mut F,
    alloc: Global,
    packed: &PackedRefs,
    earlier: &[RefChange],
    change: &RefChange,
) -> Result<bool, SetAllFault>
    requires { IsInRefs change.now.name }
    ensures loose { F.honest → IfOk result (λ loose. loose ≡ is_taken (F.content files.old) change.now.name) }
    ensures allowed { F.honest → packed_map (F.content files.old) ≡ Some packed.now → OnOk result (MayChange (F.content files.old) earlier.now change.now) }
    ensures refused { F.honest → packed_map (F.content files.old) ≡ Some packed.now → IfErr result (BlamesNext (F.content files.old) earlier.now change.now) }
    ensures same { F.content files.new ≡ F.content files.old }
    ensures wear { Wears F.failed F.can_fail F.left files.old files.new (TellsDeviceOfAll result) }
{
    match check(files, alloc, packed, earlier, change) {
        Ok(loose) => Ok(loose),
        Err(fault) => Err(placed(earlier.len(), fault)),
    }
}

// Checks the change that comes after these, and adds its ref to the loose ones, with its value, if it has a file of its own.
fn add_checked<F: Files>(
    files: &mut F,
    alloc: Global,
    packed: &PackedRefs,
    earlier: &[RefChange],
    change: &RefChange,
    loose: &mut Vec<(RefName, ObjectId)>,
) -> Result<(), SetAllFault>
    requires { IsInRefs change.now.name }
    ensures added { F.honest → packed_map (F.content files.old) ≡ Some packed.now → OnOk result (loose.new.items ≡ loose.old.items ++ with_first (entry_at (loose_refs (F.content files.old)) change.now.name) []) }
    ensures inside { OnOk result (AreInRefs loose.old.items → AreInRefs loose.new.items) }
    ensures allowed { F.honest → packed_map (F.content files.old) ≡ Some packed.now → OnOk result (MayChange (F.content files.old) earlier.now change.now) }
    ensures refused { F.honest → packed_map (F.content files.old) ≡ Some packed.now → IfErr result (BlamesNext (F.content files.old) earlier.now change.now) }
    ensures same { F.content files.new ≡ F.content files.old }
    ensures wear { Wears F.failed F.can_fail F.left files.old files.new (TellsDeviceOfAll result) }
{
    let own = check_next(files, alloc, packed, earlier, change)?;
    if !own {
        return Ok(());
    }
    let Some(id) = change.expected else {
        return Ok(());
    };
    let name = change.name.clone()?;
    loose.push((name, id))?;
    Ok(())
}

// Refuses the first change that can't be made after those before it, and else returns the named refs that have files of their
// own, with their values.
pub(super) fn check_all<F: Files>(
    files: &mut F,
    alloc: Global,
    packed: &PackedRefs,
    changes: &[RefChange],
) -> Result<Vec<(RefName, ObjectId)>, SetAllFault>
    requires { AreNamedInRefs changes.now }
    ensures found { F.honest → packed_map (F.content files.old) ≡ Some packed.now → IfOk result (λ loose. loose.items ≡ loose_at (F.content files.old) (names_of changes.now)) }
    ensures inside { IfOk result (λ loose. AreInRefs loose.items) }
    ensures allowed { F.honest → packed_map (F.content files.old) ≡ Some packed.now → OnOk result (MayChangeAll (F.content files.old) changes.now) }
    ensures refused { F.honest → packed_map (F.content files.old) ≡ Some packed.now → IfErr result (BlamesSetAll (F.content files.old) changes.now) }
    ensures same { F.content files.new ≡ F.content files.old }
    ensures wear { Wears F.failed F.can_fail F.left files.old files.new (TellsDeviceOfAll result) }
{
    let mut loose = Vec::new(alloc);
    for place in 0..changes.len() {
        let earlier = changes.split_at(place).0;
        add_checked(files, alloc, packed, earlier, &changes[place], &mut loose)?;
    }
    Ok(loose)
}
