//! Which ref a branch's name stands for.
ghost use Rattle.std.specs.Prelude.{◌≡◌, true, IfOk, IfErr, OnOk, nat_eq, codes};
ghost use Rattle.std.specs.List.{starts_with};
ghost use Rattle.vc_refname.specs.RefName.{IsRefName};
ghost use Rattle.vc_working.specs.CloneWords.{IsOfBranch, branch_ref};

use std::alloc::Global;
use vc_cli::Failure;
use vc_refname::{NewNameError, RefName};

/// The branch of this name, `refs/heads/` before it.
pub fn branch_of(alloc: Global, name: &str) -> Result<RefName, Failure>
    ensures name { IfOk result (λ branch. branch ≡ branch_ref name.now) }
    ensures refused { IfErr result (IsOfBranch name.now) }
    ensures legal { OnOk result (IsRefName (branch_ref name.now)) }
    ensures branch { IfOk result (λ branch. starts_with nat_eq branch (codes "refs/heads/") ≡ true) }
{
    let text = format!(in alloc; "refs/heads/{name}")?;
    match RefName::new(alloc, text.as_str()) {
        Ok(branch) => Ok(branch),
        Err(NewNameError::Refused(fault)) => Err(Failure::Name(fault)),
        Err(NewNameError::Memory) => Err(Failure::Fault(vc_files::Fault::Memory)),
    }
}
