//! What is learnt of the generations of commits, at which a later check of a branch with their history can stop.
ghost use Rattle.std.specs.Prelude.{◌≡◌, ◌∷◌, [], IsErrOf, OnErr, OnOk};
ghost use Rattle.vc_history.specs.Numbering.{numbers};
ghost use Rattle.vc_history.specs.Stored.{AgreesIn};
ghost use Rattle.vc_files.specs.Failures.{Wears};
ghost use Rattle.vc_object.specs.declared.id.ObjectId.{ObjectId as Id};
ghost use Rattle.vc_quarantine.specs.Learning.{IsLearnt, KeepsNumbers};

use std::alloc::Global;
use vc_files::{Fault, Files};
use vc_history::{Generations, HistoryFault};
use vc_object::ObjectId;
use vc_object_map::StoreFault;
use vc_store::Store;

// Learns the generations below a commit. Where one of them is absent, damaged or no commit, nothing is learnt, and that is no
// refusal: what it is to a push, its check tells.
fn learn_history<F: Files>(
    files: &mut F,
    alloc: Global,
    tip: &ObjectId,
    generations: &mut Generations,
) -> Result<(), Fault>
    ensures agrees { F.honest → AgreesIn (F.content files.old) generations.old → AgreesIn (F.content files.old) generations.new }
    ensures learnt { F.honest → AgreesIn (F.content files.old) generations.old → OnOk result (IsLearnt (F.content files.old) (tip.now ∷ []) generations.old generations.new) }
    ensures err { OnErr result ((id : Id) → numbers generations.new id ≡ numbers generations.old id) }
    ensures same { F.content files.new ≡ F.content files.old }
    ensures wear { Wears F.failed F.can_fail F.left files.old files.new (IsErrOf result Fault.Device) }
{
    let mut store = Store::new(alloc, files);
    let Err(told) = generations.learn(alloc, &mut store, tip) else {
        return Ok(());
    };
    match told {
        HistoryFault::Missing(_) => Ok(()),
        HistoryFault::NotACommit(_) => Ok(()),
        HistoryFault::Store(fault) => match fault {
            StoreFault::Fault(fault) => Err(fault),
            StoreFault::BadObject(_) => Ok(()),
            StoreFault::Absent(_) => Ok(()),
            StoreFault::Damaged(_) => Ok(()),
        },
    }
}

/// Learns the generations of these commits and of all below them, so that a later check of a branch with their history stops at
/// them. Of a commit whose history is not all stored, or is damaged, nothing is learnt, and that is no refusal here. What was known
/// before stays known; after an error some of the commits may have been learnt.
pub fn learn_all<F: Files>(
    files: &mut F,
    alloc: Global,
    tips: &[ObjectId],
    generations: &mut Generations,
) -> Result<(), Fault>
    ensures agrees { F.honest → AgreesIn (F.content files.old) generations.old → AgreesIn (F.content files.old) generations.new }
    ensures learnt { F.honest → AgreesIn (F.content files.old) generations.old → OnOk result (IsLearnt (F.content files.old) tips.now generations.old generations.new) }
    ensures kept { F.honest → AgreesIn (F.content files.old) generations.old → KeepsNumbers generations.old generations.new }
    ensures same { F.content files.new ≡ F.content files.old }
    ensures wear { Wears F.failed F.can_fail F.left files.old files.new (IsErrOf result Fault.Device) }
{
    for i in 0..tips.len() {
        learn_history(files, alloc, &tips[i], generations)?;
    }
    Ok(())
}
