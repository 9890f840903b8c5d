// What an open push needs.
ghost use Rattle.std.specs.Prelude.{◌≡◌, ◌++◌, length, IfErr, IfOk, IsErrOf, OnOk};
ghost use Rattle.vc_files.specs.Failures.{Wears};
ghost use Rattle.vc_object.specs.ObjectId.{IsSortedByName};
ghost use Rattle.vc_object_map.specs.Present.{IsPresentFrom};
ghost use Rattle.vc_object_map.specs.Graph.{AreExactly};
ghost use Rattle.vc_object_map.specs.StoreFault.{IsMetFrom};
ghost use Rattle.vc_push.specs.PushView.{command_of, commands_of};
ghost use Rattle.vc_push_rules.specs.Quarantine.{objects_seen};
ghost use Rattle.vc_quarantine.specs.PushState.{IsDamagedSeen};
ghost use Rattle.vc_session.specs.Needing.{BlamesNeeded, IsNeededByPush, unrefused_id, unrefused_ids};

use super::PushSession;
use std::alloc::{AllocError, Global};
use vc_files::{Fault, Files};
use vc_graph::present;
use vc_object::ObjectId;
use vc_object_map::StoreFault;
use vc_push::Command;
use vc_push_rules::Verdict;
use vc_quarantine::PushObjects;

// Adds the new id of a command that nothing has refused.
fn push_unrefused(
    command: &Command,
    verdict: Verdict,
    ids: &mut Vec<ObjectId>,
) -> Result<(), AllocError>
    ensures { OnOk result (ids.new.items ≡ ids.old.items ++ unrefused_id (command_of command.now) verdict) }
{
    match verdict {
        Verdict::Passing => ids.push(command.new)?,
        Verdict::Accepted => ids.push(command.new)?,
        Verdict::Refused(_) => {}
    }
    Ok(())
}

// The new ids of the commands that nothing has refused, in their order.
fn unrefused_ids(
    alloc: Global,
    commands: &[Command],
    verdicts: &[Verdict],
) -> Result<Vec<ObjectId>, AllocError>
    requires paired { length verdicts.now ≡ length commands.now }
    ensures { IfOk result (λ ids. ids.items ≡ unrefused_ids (commands_of commands.now) verdicts.now) }
{
    let mut ids = Vec::new(alloc);
    for i in 0..commands.len() {
        push_unrefused(&commands[i], verdicts[i], &mut ids)?;
    }
    Ok(ids)
}

// The names that these ids reach and that are there, over what is stored and what the slot's quarantine holds, sorted.
fn needed_in_files<F: Files>(
    alloc: Global,
    files: &mut F,
    slot: u8,
    commands: &[Command],
    verdicts: &[Verdict],
) -> Result<Vec<ObjectId>, StoreFault>
    requires paired { length verdicts.now ≡ length commands.now }
    ensures needed { F.honest → IfOk result (λ ids. AreExactly (IsPresentFrom (objects_seen (F.content files.old) slot) (unrefused_ids (commands_of commands.now) verdicts.now)) ids.items) }
    ensures sorted { IfOk result (λ ids. IsSortedByName ids.items) }
    ensures refused { F.honest → IfErr result (IsMetFrom (objects_seen (F.content files.old) slot) (IsDamagedSeen (F.content files.old) slot) (unrefused_ids (commands_of commands.now) verdicts.now)) }
    ensures same { F.content files.new ≡ F.content files.old }
    ensures wear { Wears F.failed F.can_fail F.left files.old files.new (IsErrOf result (StoreFault.Fault Fault.Device)) }
{
    let ids = unrefused_ids(alloc, commands, verdicts)?;
    let mut seen = PushObjects { files, slot, alloc };
    let needed = present(alloc, &mut seen, &ids)?;
    Ok(needed)
}

impl PushSession {
    /// The names of what it needs, sorted: what the new ids of its commands reach that nothing has refused, through what is stored and
    /// what it carries, so far as it is there. Nothing is changed. 12 if the file of an object on the way is damaged.
    pub fn names_needed<F: Files>(
        &self,
        files: &mut F,
        alloc: Global,
    ) -> Result<Vec<ObjectId>, StoreFault>
        ensures needed { F.honest → IfOk result (λ ids. AreExactly (IsNeededByPush (F.content files.old) self.now) ids.items) }
        ensures sorted { IfOk result (λ ids. IsSortedByName ids.items) }
        ensures refused { F.honest → IfErr result (BlamesNeeded (F.content files.old) self.now) }
        ensures same { F.content files.new ≡ F.content files.old }
        ensures wear { Wears F.failed F.can_fail F.left files.old files.new (IsErrOf result (StoreFault.Fault Fault.Device)) }
    {
        let needed = needed_in_files(alloc, files, self.slot, &self.commands, &self.verdicts)?;
        Ok(needed)
    }
}
