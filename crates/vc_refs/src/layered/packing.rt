// Packing all refs.
ghost use Rattle.std.specs.Prelude.{◌⊎◌, IfErr, OnOk, IsErrOf, map, string_bytes};
ghost use Rattle.std.specs.FinMap as names;
ghost use Rattle.vc_files.specs.Failures.{Wears, Writes};
ghost use Rattle.vc_refs.specs.Packing.{AreGone, HasLoose, LosesSome};
ghost use Rattle.vc_refs.specs.RefCalls.{PacksRefs};
ghost use Rattle.vc_refs.specs.RefFault.{BlamesFolder, BlamesPacking, TellsDevice};
ghost use Rattle.vc_refs.specs.RefMap.{IsRefMap};
ghost use Rattle.vc_refs.specs.Refs.{SpellsRefs};

use super::listing::all_refs;
use super::packed_file::write_packed;
use crate::folders::first_folder;
use crate::{PackedRefs, RefFault};
use std::alloc::Global;
use vc_files::{Fault, Files};

/// Puts all refs into the packed file, and removes their own files then. The packed file has each ref before the first
/// of these goes, so wherever it stops, the refs are as before. If no file is in `refs/`, it writes nothing. Nor does it
/// if a ref is a folder of another, loose beside packed, since no packed file holds both: the first is a conflict.
pub fn pack<F: Files>(files: &mut F, alloc: Global) -> Result<(), RefFault>
    ensures packs { PacksRefs F.honest F.content files.old files.new result }
    ensures good { F.honest → OnOk result (SpellsRefs (F.content files.old)) }
    ensures refused { F.honest → IfErr result (BlamesPacking (F.content files.old)) }
    ensures wear { Writes F.honest F.content F.failed F.can_fail F.left files.old files.new (TellsDevice result) }
    ensures looks { F.honest → HasLoose (F.content files.old) ⊎ Wears F.failed F.can_fail F.left files.old files.new (TellsDevice result) }
{
    let paths = files.list(alloc, "refs/")?;
    let refs = all_refs(files, alloc, &paths)?;
    refuse_folder(&refs)?;
    if paths.is_empty() {
        return Ok(());
    }
    write_packed(files, alloc, &refs)?;
    remove_all(files, alloc, &paths)?;
    Ok(())
}

// Refuses refs of which one is a folder of another.
fn refuse_folder(refs: &PackedRefs) -> Result<(), RefFault>
    ensures apart { OnOk result (IsRefMap (names.get refs.now)) }
    ensures refused { IfErr result (BlamesFolder (names.get refs.now)) }
{
    if let Some(name) = first_folder(refs)? {
        return Err(RefFault::Conflict(name.clone()?));
    }
    Ok(())
}

// Removes the files at these paths.
fn remove_all<F: Files>(files: &mut F, alloc: Global, paths: &[String]) -> Result<(), Fault>
    ensures lost { F.honest → LosesSome (map string_bytes paths.now) (F.content files.old) (F.content files.new) }
    ensures gone { F.honest → OnOk result (AreGone (map string_bytes paths.now) (F.content files.new)) }
    ensures wear { Writes F.honest F.content F.failed F.can_fail F.left files.old files.new (IsErrOf result Fault.Device) }
{
    for path in paths {
        files.remove(alloc, path.as_str())?;
    }
    Ok(())
}
