//! Opening a push: what it carries goes into the quarantine, and each command has its first verdict.
ghost use Rattle.std.specs.Prelude.{◌≡◌, map, IfOk, IsErrOf};
ghost use Rattle.vc_files.specs.FileMap.{SameOutside};
ghost use Rattle.vc_files.specs.Failures.{Writes};
ghost use Rattle.vc_pkt.specs.ObjectStreamView.{carried};
ghost use Rattle.vc_push_rules.specs.Carrying.{Carries, objects_in};
ghost use Rattle.vc_quarantine.specs.Clean.{MakesNoneBad};
ghost use Rattle.vc_push_rules.specs.Quarantine.{IsDropped, quarantine_folder};
ghost use Rattle.vc_push_rules.specs.Session.{fresh};

use std::alloc::{AllocError, Global};
use vc_files::{Fault, Files};
use vc_object::{ObjectFault, ObjectId, check};
use vc_pkt::CarriedObjects;
use vc_push::{Command, Reason};
use vc_push_rules::Verdict;
use vc_quarantine::put_in_quarantine;

/// The verdict on each command of a push as it is opened.
pub(crate) fn fresh(
    alloc: Global,
    commands: &[Command],
    fault: Option<ObjectFault>,
) -> Result<Vec<Verdict>, AllocError>
    ensures { IfOk result (λ verdicts. verdicts.items ≡ map (λ c. fresh fault) commands.now) }
{
    let verdict = match fault {
        Some(_) => Verdict::Refused(Reason::UnpackerError),
        None => Verdict::Passing,
    };
    let mut verdicts = Vec::new(alloc);
    for _command in commands {
        verdicts.push(verdict)?;
    }
    Ok(verdicts)
}

/// Puts what a push carries into the empty quarantine of a slot, in order of name, and answers the names. No file becomes
/// bad.
pub(crate) fn put_all<F: Files>(
    files: &mut F,
    alloc: Global,
    slot: u8,
    objects: &CarriedObjects,
) -> Result<Vec<ObjectId>, Fault>
    ensures carried { F.honest → IsDropped slot (F.content files.old) → IfOk result (λ names. Carries (F.content files.new) slot names.items (objects_in (carried objects.now))) }
    ensures outside { F.honest → SameOutside (quarantine_folder slot) (F.content files.old) (F.content files.new) }
    ensures bad { F.honest → MakesNoneBad (F.content files.old) (F.content files.new) }
    ensures wear { Writes F.honest F.content F.failed F.can_fail F.left files.old files.new (IsErrOf result Fault.Device) }
{
    let mut names = Vec::new(alloc);
    for object in objects.by_name.values() {
        if let Ok(object) = check(object.kind, &object.body) {
            let id = put_in_quarantine(files, alloc, slot, &object)?;
            names.push(id)?;
        }
    }
    Ok(names)
}
