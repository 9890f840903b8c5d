// What stands in the way of a ref: loose files and packed refs alike.
ghost use Rattle.std.specs.Prelude.{◌≡◌, Some, IfOk, IfErr, OnOk, IsErrOf, MatchOption};
ghost use Rattle.vc_files.specs.Failures.{Wears};
ghost use Rattle.vc_refs.specs.RefFault.{BlamesObstacle};
ghost use Rattle.vc_refs.specs.Refs.{packed_map};
ghost use Rattle.vc_refs.specs.Obstacle.{ComesFirst, IsBehindLoose, IsFirstPackedInTheWay, IsFree, IsFreeOfPacked, IsPackedFirst};
ghost use Rattle.vc_refs.specs.RefMap.{conflicts, IsInRefs};

use super::packed_file::read_packed;
use crate::obstacle::first_in_the_way;
use crate::{PackedRefs, RefFault, obstacle};
use std::alloc::Global;
use vc_files::{Fault, Files, is_above};
use vc_refname::RefName;

// Whether no map may have both names.
pub(super) fn conflicts(a: &[u8], b: &[u8]) -> bool
    ensures { result ≡ conflicts a.now b.now }
{
    is_above(a, b) || is_above(b, a)
}

/// The first of these refs, by the bytes of its name, that no map may have beside this name, since one of the two names is a
/// folder of the other; or none. It is lent from the map, and nothing is allocated.
pub fn packed_in_the_way<'a>(refs: &'a PackedRefs, name: &RefName) -> Option<&'a RefName>
    ensures { MatchOption result (IsFreeOfPacked refs.now name.now) (λ other. IsFirstPackedInTheWay refs.now name.now other.now) }
{
    for (other, _) in refs.iter() {
        if conflicts(other.as_str().as_bytes(), name.as_str().as_bytes()) {
            return Some(other);
        }
    }
    None
}

// Whether no file that stands in the way comes before this name, or has it as its path.
fn comes_first<F: Files>(
    files: &mut F,
    alloc: Global,
    other: &RefName,
    name: &RefName,
) -> Result<bool, Fault>
    requires { IsInRefs name.now }
    ensures first { F.honest → IfOk result (λ first. ComesFirst (F.content files.old) name.now other.now first) }
    ensures same { F.content files.new ≡ F.content files.old }
    ensures wear { Wears F.failed F.can_fail F.left files.old files.new (IsErrOf result Fault.Device) }
{
    let Some(path) = first_in_the_way(files, alloc, name.as_str())? else {
        return Ok(true);
    };
    Ok(other.as_str().cmp(path.as_str()).is_lt())
}

// The packed ref that comes first of all that stands in the way, if it is one.
fn packed_first<F: Files>(
    files: &mut F,
    alloc: Global,
    packed: &PackedRefs,
    name: &RefName,
) -> Result<Option<RefName>, Fault>
    requires { IsInRefs name.now }
    ensures first { F.honest → IfOk result (λ found. MatchOption found (IsBehindLoose (F.content files.old) packed.now name.now) (IsPackedFirst (F.content files.old) packed.now name.now)) }
    ensures same { F.content files.new ≡ F.content files.old }
    ensures wear { Wears F.failed F.can_fail F.left files.old files.new (IsErrOf result Fault.Device) }
{
    let Some(other) = packed_in_the_way(packed, name) else {
        return Ok(None);
    };
    if comes_first(files, alloc, other, name)? {
        let other = other.clone()?;
        return Ok(Some(other));
    }
    Ok(None)
}

// Refuses a name that no ref may have beside the packed ones and the loose ones.
pub(super) fn refuse_beside<F: Files>(
    files: &mut F,
    alloc: Global,
    packed: &PackedRefs,
    name: &RefName,
) -> Result<(), RefFault>
    requires { IsInRefs name.now }
    ensures free { F.honest → packed_map (F.content files.old) ≡ Some packed.now → OnOk result (IsFree (F.content files.old) name.now) }
    ensures refused { F.honest → packed_map (F.content files.old) ≡ Some packed.now → IfErr result (BlamesObstacle (F.content files.old) name.now) }
    ensures same { F.content files.new ≡ F.content files.old }
    ensures wear { Wears F.failed F.can_fail F.left files.old files.new (IsErrOf result (RefFault.Fault Fault.Device)) }
{
    if let Some(other) = packed_first(files, alloc, packed, name)? {
        return Err(RefFault::Conflict(other));
    }
    obstacle::refuse_conflict(files, alloc, name)?;
    Ok(())
}

/// Refuses a name that no ref may have beside those that are there, since one of the two names is a folder of the
/// other: the first of them by the bytes of its name, loose or packed. The packed file is read once; of the loose files
/// it looks at those at the folders of the name and in the name's own folder, and reads one.
pub fn refuse_conflict<F: Files>(
    files: &mut F,
    alloc: Global,
    name: &RefName,
) -> Result<(), RefFault>
    requires { IsInRefs name.now }
    ensures free { F.honest → OnOk result (IsFree (F.content files.old) name.now) }
    ensures refused { F.honest → IfErr result (BlamesObstacle (F.content files.old) name.now) }
    ensures same { F.content files.new ≡ F.content files.old }
    ensures wear { Wears F.failed F.can_fail F.left files.old files.new (IsErrOf result (RefFault.Fault Fault.Device)) }
{
    let packed = read_packed(files, alloc)?;
    refuse_beside(files, alloc, &packed, name)?;
    Ok(())
}
