// The names that a store has.
ghost use Rattle.std.specs.Prelude.{◌≡◌, IfOk, IfErr, IsErrOf, filter_map};
ghost use Rattle.vc_files.specs.FileMap.{paths_under};
ghost use Rattle.vc_files.specs.Failures.{Wears};
ghost use Rattle.vc_object_map.specs.Store.{name_in};
ghost use Rattle.vc_store.specs.StoreCalls.{Lists, ListsPrefix};
ghost use Rattle.vc_object_map.specs.StoreFault.{IsFault};

use crate::paths::{name_in, prefix_path};
use std::alloc::Global;
use vc_files::{Fault, Files};
use vc_object::ObjectId;
use vc_object_map::StoreFault;

// The names in whose places files stand, of the paths that begin so.
fn names_under<F: Files>(
    files: &mut F,
    alloc: Global,
    prefix: &str,
) -> Result<Vec<ObjectId>, StoreFault>
    ensures names { F.honest → IfOk result (λ names. names.items ≡ filter_map name_in (paths_under (F.content files.old) prefix.now)) }
    ensures fault { IfErr result IsFault }
    ensures same { F.content files.new ≡ F.content files.old }
    ensures wear { Wears F.failed F.can_fail F.left files.old files.new (IsErrOf result (StoreFault.Fault Fault.Device)) }
{
    let paths = files.list(alloc, prefix)?;
    let mut names = Vec::new(alloc);
    for path in &paths {
        if let Some(id) = name_in(alloc, path.as_str())? {
            names.push(id)?;
        }
    }
    Ok(names)
}

/// The names of all objects, sorted. A name is there if a file stands in its place, also a damaged one.
pub fn names<F: Files>(files: &mut F, alloc: Global) -> Result<Vec<ObjectId>, StoreFault>
    ensures lists { Lists F.honest F.content files.old result }
    ensures fault { IfErr result IsFault }
    ensures same { F.content files.new ≡ F.content files.old }
    ensures wear { Wears F.failed F.can_fail F.left files.old files.new (IsErrOf result (StoreFault.Fault Fault.Device)) }
{
    let names = names_under(files, alloc, "objects/")?;
    Ok(names)
}

/// The names of all objects that begin with these hex digits, sorted: those of `names`, and no others. The digits
/// are of either case. No digits give all names, a byte that is no hex digit gives none. With two digits or
/// more, one folder is listed.
pub fn by_prefix<F: Files>(
    files: &mut F,
    alloc: Global,
    digits: &[u8],
) -> Result<Vec<ObjectId>, StoreFault>
    ensures lists { ListsPrefix F.honest F.content digits.now files.old result }
    ensures fault { IfErr result IsFault }
    ensures same { F.content files.new ≡ F.content files.old }
    ensures wear { Wears F.failed F.can_fail F.left files.old files.new (IsErrOf result (StoreFault.Fault Fault.Device)) }
{
    let Some(prefix) = prefix_path(alloc, digits)? else {
        return Ok(Vec::new(alloc));
    };
    let names = names_under(files, alloc, prefix.as_str())?;
    Ok(names)
}
