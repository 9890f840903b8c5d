// Removing the file of one ref.
ghost use Rattle.std.specs.Prelude.{◌≡◌, OnOk, OnErr, IsErrOf};
ghost use Rattle.vc_files.specs.Failures.{Writes};
ghost use Rattle.vc_refs.specs.RefMap.{IsInRefs, without_ref};
ghost use Rattle.vc_refs.specs.Refs.{loose_refs, ChangesOnly, IsBadLoose};

use std::alloc::Global;
use vc_files::{Fault, Files};
use vc_refname::RefName;

// Removes the file of a ref.
pub(crate) fn take_away<F: Files>(files: &mut F, alloc: Global, name: &RefName) -> Result<(), Fault>
    requires { IsInRefs name.now }
    ensures removed { F.honest → OnOk result (loose_refs (F.content files.new) ≡ without_ref (loose_refs (F.content files.old)) name.now) }
    ensures gone { F.honest → OnOk result (IsBadLoose (F.content files.new) name.now → ⊥) }
    ensures only { F.honest → ChangesOnly name.now (F.content files.old) (F.content files.new) }
    ensures err { F.honest → OnErr result (F.content files.new ≡ F.content files.old) }
    ensures wear { Writes F.honest F.content F.failed F.can_fail F.left files.old files.new (IsErrOf result Fault.Device) }
{
    files.remove(alloc, name.as_str())?;
    Ok(())
}
