// All refs.
ghost use Rattle.std.specs.Prelude.{◌≡◌, ◌++◌, [], Some, IfOk, IfErr, OnOk, IsErrOf, codes, map, string_bytes};
ghost use Rattle.vc_files.specs.FileMap.{paths_under};
ghost use Rattle.vc_files.specs.Failures.{Wears};
ghost use Rattle.vc_refs.specs.LooseFault as own;
ghost use Rattle.vc_refs.specs.Packing.{loose_at, with_all, with_first, AreGood, AreInRefs, IsMapOf};
ghost use Rattle.vc_refs.specs.RefFault.{BlamesList, BlamesPacked};
ghost use Rattle.vc_refs.specs.Refs.{loose_refs, packed_map, refs, IsBadLoose, SpellsRefs};
ghost use Rattle.vc_refs.specs.RefMap.{IsListOf, entry_at};

use super::packed_file::read_packed;
use crate::loose::ref_at;
use crate::{PackedRefs, RefFault};
use std::alloc::{AllocError, Global};
use vc_files::{Fault, Files};
use vc_object::ObjectId;
use vc_refname::RefName;

/// The refs with their ids, in the order of the names' bytes. The packed file and each file in `refs/` are read once, and the
/// packed file once more if another process took one of them away meanwhile. None is passed over: the first one, by the
/// bytes of its path, that can't be read is refused.
pub fn list<F: Files>(files: &mut F, alloc: Global) -> Result<Vec<(RefName, ObjectId)>, RefFault>
    ensures listed { F.honest → IfOk result (λ listed. IsListOf (refs (F.content files.old)) listed.items) }
    ensures good { F.honest → OnOk result (SpellsRefs (F.content files.old)) }
    ensures refused { F.honest → IfErr result (BlamesList (F.content files.old)) }
    ensures same { F.content files.new ≡ F.content files.old }
    ensures wear { Wears F.failed F.can_fail F.left files.old files.new (IsErrOf result (RefFault.Fault Fault.Device)) }
{
    let refs = read_all(files, alloc)?;
    let listed = refs.into_vec(alloc)?;
    Ok(listed)
}

/// The refs with their ids, as a map. Files are read and refused as by [`list`].
pub fn read_all<F: Files>(files: &mut F, alloc: Global) -> Result<PackedRefs, RefFault>
    ensures found { F.honest → IfOk result (IsMapOf (refs (F.content files.old))) }
    ensures good { F.honest → OnOk result (SpellsRefs (F.content files.old)) }
    ensures refused { F.honest → IfErr result (BlamesList (F.content files.old)) }
    ensures same { F.content files.new ≡ F.content files.old }
    ensures wear { Wears F.failed F.can_fail F.left files.old files.new (IsErrOf result (RefFault.Fault Fault.Device)) }
{
    let paths = files.list(alloc, "refs/")?;
    let refs = all_refs(files, alloc, &paths)?;
    Ok(refs)
}

// All refs, given the paths of the loose ones. They are put over one packed file, the newest: if another process packed a ref or
// removed it since its file was listed, what the packed file said before no longer holds.
pub(super) fn all_refs<F: Files>(
    files: &mut F,
    alloc: Global,
    paths: &[String],
) -> Result<PackedRefs, RefFault>
    ensures found { F.honest → map string_bytes paths.now ≡ paths_under (F.content files.old) (codes "refs/") → IfOk result (IsMapOf (refs (F.content files.old))) }
    ensures good { F.honest → map string_bytes paths.now ≡ paths_under (F.content files.old) (codes "refs/") → OnOk result (SpellsRefs (F.content files.old)) }
    ensures refused { F.honest → map string_bytes paths.now ≡ paths_under (F.content files.old) (codes "refs/") → IfErr result (BlamesList (F.content files.old)) }
    ensures same { F.content files.new ≡ F.content files.old }
    ensures wear { Wears F.failed F.can_fail F.left files.old files.new (IsErrOf result (RefFault.Fault Fault.Device)) }
{
    let before = read_packed(files, alloc)?;
    let loose = read_loose(files, alloc, paths)?;
    let packed = newest(files, alloc, before, loose.len() < paths.len())?;
    let merged = put_over(packed, &loose)?;
    Ok(merged)
}

// The refs whose files have these paths, as far as the files are still there.
fn read_loose<F: Files>(
    files: &mut F,
    alloc: Global,
    paths: &[String],
) -> Result<Vec<(RefName, ObjectId)>, RefFault>
    ensures found { F.honest → IfOk result (λ loose. loose.items ≡ loose_at (F.content files.old) (map string_bytes paths.now)) }
    ensures inside { IfOk result (λ loose. AreInRefs loose.items) }
    ensures good { F.honest → OnOk result (AreGood (F.content files.old) (map string_bytes paths.now)) }
    ensures refused { F.honest → map string_bytes paths.now ≡ paths_under (F.content files.old) (codes "refs/") → IfErr result (own.BlamesList (F.content files.old)) }
    ensures same { F.content files.new ≡ F.content files.old }
    ensures wear { Wears F.failed F.can_fail F.left files.old files.new (IsErrOf result (RefFault.Fault Fault.Device)) }
{
    let mut loose = Vec::new(alloc);
    for path in paths {
        add_loose(files, alloc, path.as_str(), &mut loose)?;
    }
    Ok(loose)
}

// Adds the ref whose file has this path, if that file is still there.
fn add_loose<F: Files>(
    files: &mut F,
    alloc: Global,
    path: &str,
    loose: &mut Vec<(RefName, ObjectId)>,
) -> Result<(), RefFault>
    ensures added { F.honest → OnOk result (loose.new.items ≡ loose.old.items ++ with_first (entry_at (loose_refs (F.content files.old)) path.now) []) }
    ensures inside { OnOk result (AreInRefs loose.old.items → AreInRefs loose.new.items) }
    ensures good { F.honest → OnOk result (IsBadLoose (F.content files.old) path.now → ⊥) }
    ensures refused { F.honest → IfErr result (own.BlamesPath (F.content files.old) path.now) }
    ensures same { F.content files.new ≡ F.content files.old }
    ensures wear { Wears F.failed F.can_fail F.left files.old files.new (IsErrOf result (RefFault.Fault Fault.Device)) }
{
    let Some(entry) = ref_at(files, alloc, path)? else {
        return Ok(());
    };
    loose.push(entry)?;
    Ok(())
}

// The packed refs, read anew if a ref's own file has gone since the packed file was read.
fn newest<F: Files>(
    files: &mut F,
    alloc: Global,
    before: PackedRefs,
    has_gone: bool,
) -> Result<PackedRefs, RefFault>
    ensures found { F.honest → packed_map (F.content files.old) ≡ Some before → IfOk result (λ refs. packed_map (F.content files.old) ≡ Some refs) }
    ensures refused { F.honest → IfErr result (BlamesPacked (F.content files.old)) }
    ensures same { F.content files.new ≡ F.content files.old }
    ensures wear { Wears F.failed F.can_fail F.left files.old files.new (IsErrOf result (RefFault.Fault Fault.Device)) }
{
    if has_gone {
        let refs = read_packed(files, alloc)?;
        return Ok(refs);
    }
    Ok(before)
}

// The refs with these put over them.
pub(super) fn put_over(
    packed: PackedRefs,
    loose: &[(RefName, ObjectId)],
) -> Result<PackedRefs, AllocError>
    requires { AreInRefs loose.now }
    ensures { IfOk result (λ merged. merged ≡ with_all packed loose.now) }
{
    let mut merged = packed;
    for entry in loose {
        let name = entry.0.clone()?;
        merged.insert(name, entry.1)?;
    }
    Ok(merged)
}
