//! What a clone learns of the generations of commits before it judges whether refs may follow.
ghost use Rattle.std.specs.Prelude.{◌≡◌, IfOk, IsErrOf, OnOk};
ghost use Rattle.vc_tracking.specs.Learning.{LearnsDue};
ghost use Rattle.vc_files.specs.Failures.{Wears};
ghost use Rattle.vc_history.specs.Stored.{AgreesIn};
ghost use Rattle.vc_push_rules.specs.Known.{AreRefsWhole};
ghost use Rattle.vc_quarantine.specs.Known.{AreWhole};
ghost use Rattle.vc_quarantine.specs.Learning.{learnt_in};
ghost use Rattle.vc_object_map.specs.Store.{objects};

use std::alloc::Global;
use vc_files::{Fault, Files};
use vc_history::Generations;
use vc_object::ObjectId;
use vc_quarantine::{Known, learn_all};

/// Learns the histories that are due, which they are no longer then, and answers what the refs tell to be whole
/// ([`by_good_refs`](Known::by_good_refs)). Where none is due, none is read. After an error some may have been learnt.
pub fn learn_known<F: Files>(
    files: &mut F,
    alloc: Global,
    due: &mut Vec<ObjectId>,
    generations: &mut Generations,
) -> Result<Known, Fault>
    ensures whole { F.honest → IfOk result (λ known. AreRefsWhole (F.content files.old) → AreWhole (objects (F.content files.old)) known) }
    ensures agrees { F.honest → AgreesIn (F.content files.old) generations.old → AgreesIn (F.content files.old) generations.new }
    ensures learnt { F.honest → AgreesIn (F.content files.old) generations.old → OnOk result (LearnsDue (F.content files.old) (learnt_in generations.old due.old) (learnt_in generations.new due.new)) }
    ensures same { F.content files.new ≡ F.content files.old }
    ensures wear { Wears F.failed F.can_fail F.left files.old files.new (IsErrOf result Fault.Device) }
{
    learn_all(files, alloc, due, generations)?;
    due.clear();
    let known = Known::by_good_refs(files, alloc)?;
    Ok(known)
}
