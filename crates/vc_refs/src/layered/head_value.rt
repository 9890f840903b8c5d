// The id that HEAD leads to.
ghost use Rattle.std.specs.Prelude.{◌≡◌, IfOk, IfErr, OnOk, IsErrOf};
ghost use Rattle.vc_files.specs.Failures.{Wears};
ghost use Rattle.vc_refs.specs.Head.{head_of, head_value};
ghost use Rattle.vc_refs.specs.RefFault.{BlamesHeadValue, IsGoodHeadValue};
ghost use Rattle.vc_refs.specs.Refs.{refs};

use super::getting::get_with;
use super::packed_file::PackedCache;
use crate::{Head, RefFault, head};
use std::alloc::Global;
use vc_files::{Fault, Files};
use vc_object::ObjectId;

/// The id that HEAD leads to: its own, or that of the ref that it names. None if HEAD or that ref isn't there.
pub fn resolve_head<F: Files>(files: &mut F, alloc: Global) -> Result<Option<ObjectId>, RefFault>
    ensures found { F.honest → IfOk result (λ id. id ≡ head_value (refs (F.content files.old)) (head_of (F.content files.old))) }
    ensures good { F.honest → OnOk result (IsGoodHeadValue (F.content files.old)) }
    ensures refused { F.honest → IfErr result (BlamesHeadValue (F.content files.old)) }
    ensures same { F.content files.new ≡ F.content files.old }
    ensures wear { Wears F.failed F.can_fail F.left files.old files.new (IsErrOf result (RefFault.Fault Fault.Device)) }
{
    let mut packed = PackedCache::new(alloc);
    resolve_head_with(files, alloc, &mut packed)
}

/// The same, for one who looks up other refs, too, and keeps in `packed` what was read of the packed file.
pub fn resolve_head_with<F: Files>(
    files: &mut F,
    alloc: Global,
    packed: &mut PackedCache,
) -> Result<Option<ObjectId>, RefFault>
    ensures found { F.honest → IfOk result (λ id. id ≡ head_value (refs (F.content files.old)) (head_of (F.content files.old))) }
    ensures good { F.honest → OnOk result (IsGoodHeadValue (F.content files.old)) }
    ensures refused { F.honest → IfErr result (BlamesHeadValue (F.content files.old)) }
    ensures same { F.content files.new ≡ F.content files.old }
    ensures wear { Wears F.failed F.can_fail F.left files.old files.new (IsErrOf result (RefFault.Fault Fault.Device)) }
{
    let Some(head) = head(files, alloc)? else {
        return Ok(None);
    };
    match head {
        Head::Branch(name) => {
            let id = get_with(files, alloc, packed, &name)?;
            Ok(id)
        }
        Head::Id(id) => Ok(Some(id)),
    }
}
