//! Whether a history is one of commits alone, beyond names of which that is known. What is known is not read again, nor is
//! what lies below it.
ghost use Rattle.std.specs.Prelude.{◌≡◌, ◌∷◌, [], length, take, IsTrue, IfOk, IfErr, IsErrOf, Contains};
ghost use Rattle.vc_files.specs.Failures.{Wears};
ghost use Rattle.vc_object_map.specs.Complete.{KnowsIfYes};
ghost use Rattle.vc_object_map.specs.Graph.{IsMetBeyond, TellsBeyond};
ghost use Rattle.vc_history.specs.HistoryFault.{IsMetInHistory};
ghost use Rattle.vc_history.specs.Whole.{AreWholeBeyond};
ghost use Rattle.vc_object.specs.ObjectMap.{parents_in};

use indexmap::IndexSet;
use vc_files::Fault;
use vc_object::ObjectId;
use vc_object_map::{Commits, Parents, StoreFault, add_names};

/// Whether the root is a commit that is there, and every name that parent links lead to from it is one, where this is known
/// of the known names. What is known is not read again, nor is what lies below it. Where the answer is yes, what was met is
/// known from then on; else the known names stay as they are.
pub fn is_history_beyond<C: Commits>(
    commits: &mut C,
    known: &mut IndexSet<ObjectId>,
    root: &ObjectId,
) -> Result<bool, StoreFault>
    ensures history { IfOk result (λ yes. C.is_honest → TellsBeyond (parents_in (C.objects (C.state_of commits.old))) known.old.keys root.now yes) }
    ensures known { C.is_honest → AreWholeBeyond (C.objects (C.state_of commits.old)) known.old.keys known.new.keys }
    ensures grown { KnowsIfYes known.old.keys root.now known.new.keys result }
    ensures met { IfOk result (λ yes. C.is_honest → IsTrue yes → IsMetBeyond (parents_in (C.objects (C.state_of commits.old))) known.old.keys root.now known.new.keys) }
    ensures refused { IfErr result (λ e. C.is_honest → IsMetInHistory (C.objects (C.state_of commits.old)) (C.damaged (C.state_of commits.old)) (root.now ∷ []) e) }

    ensures kept { C.state_of commits.new ≡ C.state_of commits.old }
    ensures wear { Wears C.failed C.can_fail C.left commits.old commits.new (IsErrOf result (StoreFault.Fault Fault.Device)) }
{
    let before = known.len();
    match read_beyond(commits, known, root) {
        Ok(true) => Ok(true),
        Ok(false) => {
            known.truncate(before);
            Ok(false)
        }
        Err(fault) => {
            known.truncate(before);
            Err(fault)
        }
    }
}

// Adds to the known names the root and its ancestors beyond them, and ends at the first name that is absent or no commit.
// Whether it met none.
fn read_beyond<C: Commits>(
    commits: &mut C,
    known: &mut IndexSet<ObjectId>,
    root: &ObjectId,
) -> Result<bool, StoreFault>
    ensures history { IfOk result (λ yes. C.is_honest → TellsBeyond (parents_in (C.objects (C.state_of commits.old))) known.old.keys root.now yes) }
    ensures known { IfOk result (λ yes. C.is_honest → IsTrue yes → AreWholeBeyond (C.objects (C.state_of commits.old)) known.old.keys known.new.keys) }
    ensures root { IfOk result (λ yes. IsTrue yes → Contains known.new.keys root.now) }
    ensures met { IfOk result (λ yes. C.is_honest → IsTrue yes → IsMetBeyond (parents_in (C.objects (C.state_of commits.old))) known.old.keys root.now known.new.keys) }
    ensures refused { IfErr result (λ e. C.is_honest → IsMetInHistory (C.objects (C.state_of commits.old)) (C.damaged (C.state_of commits.old)) (root.now ∷ []) e) }
    ensures front { take (length known.old.keys) known.new.keys ≡ known.old.keys }

    ensures kept { C.state_of commits.new ≡ C.state_of commits.old }
    ensures wear { Wears C.failed C.can_fail C.left commits.old commits.new (IsErrOf result (StoreFault.Fault Fault.Device)) }
{
    let mut next = known.len();
    add_names(known, &[*root])?;
    while next < known.len() {
        let id = known[next];
        let Some(found) = commits.parents(&id)? else {
            return Ok(false);
        };
        match found {
            Parents::Of(parents) => add_names(known, &parents)?,
            Parents::NotCommit => return Ok(false),
        }
        next += 1;
    }
    Ok(true)
}
