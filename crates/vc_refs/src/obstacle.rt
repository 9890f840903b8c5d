// What stands in the way of a ref: files at the folders of its name, and in its own folder.
ghost use Rattle.std.specs.Prelude.{◌≡◌, IfOk, IfErr, OnOk, IsErrOf, MatchOption, string_bytes};
ghost use Rattle.vc_files.specs.Failures.{Wears};
ghost use Rattle.vc_refs.specs.RefMap.{IsInRefs};
ghost use Rattle.vc_refs.specs.LooseFault.{BlamesObstacle};
ghost use Rattle.vc_refs.specs.LooseObstacle.{IsFirstInTheWay, IsFree, IsFreeAbove};

use crate::RefFault;
use crate::loose::ref_at;
use std::alloc::Global;
use vc_files::{Fault, Files};
use vc_refname::RefName;

// The shortest folder of the path at which a file stands.
fn taken_folder<'a, F: Files>(
    files: &mut F,
    alloc: Global,
    path: &'a str,
) -> Result<Option<&'a str>, Fault>
    requires { IsInRefs path.now }
    ensures first { F.honest → IfOk result (λ folder. MatchOption folder (IsFreeAbove (F.content files.old) path.now) (λ f. IsFirstInTheWay (F.content files.old) path.now f.now)) }
    ensures same { F.content files.new ≡ F.content files.old }
    ensures wear { Wears F.failed F.can_fail F.left files.old files.new (IsErrOf result Fault.Device) }
{
    let bytes = path.as_bytes();
    for i in "refs/".len()..bytes.len() {
        if bytes[i] == b'/' {
            let folder = path.split_at(i).0;
            if files.get(alloc, folder)?.is_some() {
                return Ok(Some(folder));
            }
        }
    }
    Ok(None)
}

// The first path, by its bytes, of a file that stands in the way of a ref at this path.
pub(crate) fn first_in_the_way<F: Files>(
    files: &mut F,
    alloc: Global,
    path: &str,
) -> Result<Option<String>, Fault>
    requires { IsInRefs path.now }
    ensures first { F.honest → IfOk result (λ found. MatchOption found (IsFree (F.content files.old) path.now) (λ p. IsFirstInTheWay (F.content files.old) path.now (string_bytes p))) }
    ensures same { F.content files.new ≡ F.content files.old }
    ensures wear { Wears F.failed F.can_fail F.left files.old files.new (IsErrOf result Fault.Device) }
{
    if let Some(folder) = taken_folder(files, alloc, path)? {
        return Ok(Some(String::from_str(alloc, folder)?));
    }
    let mut folder = String::from_str(alloc, path)?;
    folder.push('/')?;
    let paths = files.list(alloc, folder.as_str())?;
    Ok(paths.into_iter().next())
}

/// Refuses a name that no ref may have beside those that are there, since one of the two names is a folder of the
/// other. A ref in the way is a conflict, another file there a bad one. It looks at the folders of the name and lists
/// the name's own folder; of the files that it finds it reads one.
pub fn refuse_conflict<F: Files>(
    files: &mut F,
    alloc: Global,
    name: &RefName,
) -> Result<(), RefFault>
    requires { IsInRefs name.now }
    ensures free { F.honest → OnOk result (IsFree (F.content files.old) name.now) }
    ensures refused { F.honest → IfErr result (BlamesObstacle (F.content files.old) name.now) }
    ensures same { F.content files.new ≡ F.content files.old }
    ensures wear { Wears F.failed F.can_fail F.left files.old files.new (IsErrOf result (RefFault.Fault Fault.Device)) }
{
    let Some(other) = first_in_the_way(files, alloc, name.as_str())? else {
        return Ok(());
    };
    match ref_at(files, alloc, other.as_str())? {
        Some((taken, _)) => Err(RefFault::Conflict(taken)),
        None => Ok(()),
    }
}
