//! The commits whose histories are due behind a push.
ghost use Rattle.std.specs.Prelude.{◌≡◌, ◌++◌, length, OnOk};
ghost use Rattle.vc_push.specs.PushView.{command_of, commands_of};
ghost use Rattle.vc_session.specs.Learning.{tip_of, tips_of};

use std::alloc::AllocError;
use vc_object::ObjectId;
use vc_push::{Command, Reason};
use vc_push_rules::Verdict;

// Adds the value that a command leaves its ref with, where a later check may have to walk its history.
fn add_tip(command: &Command, verdict: Verdict, tips: &mut Vec<ObjectId>) -> Result<(), AllocError>
    ensures { OnOk result (tips.new.items ≡ tips.old.items ++ tip_of (command_of command.now) verdict) }
{
    match verdict {
        Verdict::Accepted => tips.push(command.new)?,
        Verdict::Refused(Reason::NonFastForward) => tips.push(command.old)?,
        _ => {}
    }
    Ok(())
}

/// The same of all commands of a push, by the verdicts on them.
pub(crate) fn add_tips(
    commands: &[Command],
    verdicts: &[Verdict],
    tips: &mut Vec<ObjectId>,
) -> Result<(), AllocError>
    requires paired { length verdicts.now ≡ length commands.now }
    ensures { OnOk result (tips.new.items ≡ tips.old.items ++ tips_of (commands_of commands.now) verdicts.now) }
{
    for i in 0..commands.len() {
        add_tip(&commands[i], verdicts[i], tips)?;
    }
    Ok(())
}
