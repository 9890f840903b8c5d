// A look at a ref's own file.
ghost use Rattle.std.specs.Prelude.{◌≡◌, true, Some, None, if◌then◌else◌, IfOk, IfSome, IfErr, OnOk, IsErrOf};
ghost use Rattle.vc_files.specs.Failures.{Wears};
ghost use Rattle.vc_refs.specs.RefMap.{IsInRefs, is_ref, entry_at};
ghost use Rattle.vc_refs.specs.LooseFault.{BlamesPath, BlamesRef};
ghost use Rattle.vc_refs.specs.Refs.{loose_refs, IsBadLoose};

use crate::RefFault;
use crate::text::id_in;
use std::alloc::{AllocError, Global};
use vc_files::{Fault, Files};
use vc_object::ObjectId;
use vc_refname::{NewNameError, RefName};

// The id that the file of a ref spells, or none if there is no such file.
pub(crate) fn read<F: Files>(
    files: &mut F,
    alloc: Global,
    path: &str,
) -> Result<Option<ObjectId>, RefFault>
    requires { is_ref path.now ≡ true }
    ensures found { F.honest → IfOk result (λ id. id ≡ loose_refs (F.content files.old) path.now) }
    ensures good { F.honest → OnOk result (IsBadLoose (F.content files.old) path.now → ⊥) }
    ensures refused { F.honest → IfErr result (BlamesRef (F.content files.old) path.now) }
    ensures same { F.content files.new ≡ F.content files.old }
    ensures wear { Wears F.failed F.can_fail F.left files.old files.new (IsErrOf result (RefFault.Fault Fault.Device)) }
{
    let Some(bytes) = files.get(alloc, path)? else {
        return Ok(None);
    };
    match id_in(&bytes) {
        Some(id) => Ok(Some(id)),
        None => Err(RefFault::BadRefFile(String::from_str(alloc, path)?)),
    }
}

// The id that the file of this ref spells, or none if there is no such file.
pub(crate) fn get<F: Files>(
    files: &mut F,
    alloc: Global,
    name: &RefName,
) -> Result<Option<ObjectId>, RefFault>
    requires { IsInRefs name.now }
    ensures found { F.honest → IfOk result (λ id. id ≡ loose_refs (F.content files.old) name.now) }
    ensures good { F.honest → OnOk result (IsBadLoose (F.content files.old) name.now → ⊥) }
    ensures refused { F.honest → IfErr result (BlamesRef (F.content files.old) name.now) }
    ensures same { F.content files.new ≡ F.content files.old }
    ensures wear { Wears F.failed F.can_fail F.left files.old files.new (IsErrOf result (RefFault.Fault Fault.Device)) }
{
    let id = read(files, alloc, name.as_str())?;
    Ok(id)
}

// The name of the ref whose file has this path, or none if the path is no ref's.
pub(crate) fn name_at(alloc: Global, path: &str) -> Result<Option<RefName>, AllocError>
    ensures { IfOk result (λ name. name ≡ (if is_ref path.now then Some path.now else None)) }
{
    match RefName::new(alloc, path) {
        Ok(name) if name.in_refs() => Ok(Some(name)),
        Ok(_) | Err(NewNameError::Refused(_)) => Ok(None),
        Err(NewNameError::Memory) => Err(AllocError),
    }
}

// The ref whose file has this path, or none if there is no such file.
pub(crate) fn ref_at<F: Files>(
    files: &mut F,
    alloc: Global,
    path: &str,
) -> Result<Option<(RefName, ObjectId)>, RefFault>
    ensures found { F.honest → IfOk result (λ found. found ≡ entry_at (loose_refs (F.content files.old)) path.now) }
    ensures inside { IfOk result (λ found. IfSome found (λ entry. IsInRefs entry.0)) }
    ensures good { F.honest → OnOk result (IsBadLoose (F.content files.old) path.now → ⊥) }
    ensures refused { F.honest → IfErr result (BlamesPath (F.content files.old) path.now) }
    ensures same { F.content files.new ≡ F.content files.old }
    ensures wear { Wears F.failed F.can_fail F.left files.old files.new (IsErrOf result (RefFault.Fault Fault.Device)) }
{
    let Some(name) = name_at(alloc, path)? else {
        return Err(RefFault::BadRefFile(String::from_str(alloc, path)?));
    };
    match get(files, alloc, &name)? {
        Some(id) => Ok(Some((name, id))),
        None => Ok(None),
    }
}
