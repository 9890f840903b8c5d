// Writing the file of one ref.
ghost use Rattle.std.specs.Prelude.{◌≡◌, ◌⊎◌, true, OnOk, OnErr, IsErrOf};
ghost use Rattle.vc_files.specs.Failures.{Wears, Writes};
ghost use Rattle.vc_refs.specs.RefMap.{IsInRefs, is_ref, with_ref};
ghost use Rattle.vc_refs.specs.Refs.{loose_refs, ChangesOnly};

use crate::text::id_text;
use std::alloc::Global;
use vc_files::{Fault, Files};
use vc_object::ObjectId;
use vc_refname::RefName;

// Writes the file of a ref.
pub(crate) fn put<F: Files>(
    files: &mut F,
    alloc: Global,
    name: &RefName,
    id: ObjectId,
) -> Result<(), Fault>
    requires { IsInRefs name.now }
    ensures legal { OnOk result (is_ref name.now ≡ true) }
    ensures set { F.honest → OnOk result (loose_refs (F.content files.new) ≡ with_ref (loose_refs (F.content files.old)) name.now id) }
    ensures only { F.honest → ChangesOnly name.now (F.content files.old) (F.content files.new) }
    ensures err { F.honest → OnErr result (F.content files.new ≡ F.content files.old) }
    ensures wear { Writes F.honest F.content F.failed F.can_fail F.left files.old files.new (IsErrOf result Fault.Device) }
    ensures looks { (is_ref name.now ≡ true) ⊎ Wears F.failed F.can_fail F.left files.old files.new (IsErrOf result Fault.Device) }
{
    let text = id_text(alloc, &id)?;
    files.put(alloc, name.as_str(), text.as_bytes())?;
    Ok(())
}
