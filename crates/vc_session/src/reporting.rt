//! What a push is told at its end.
ghost use Rattle.std.specs.Prelude.{◌≡◌, false, length, IfOk, option_map};
ghost use Rattle.std.specs.List.{list_any};
ghost use Rattle.vc_push.specs.PushView.{command_of, commands_of};
ghost use Rattle.vc_push.specs.ReportView.{report_text, told_of};
ghost use Rattle.vc_push_rules.specs.Session.{is_passing};
ghost use Rattle.vc_push_rules.specs.Steps.{Tells, TellsAll, unpack_of};

use std::alloc::{AllocError, Global};
use vc_object::ObjectFault;
use vc_push::{Command, Reason, Report, Told};
use vc_push_rules::Verdict;

// What is told of a command. One that is not judged, of which a finished push has none, is told as stale.
fn told(alloc: Global, command: &Command, verdict: Verdict) -> Result<Told, AllocError>
    ensures { IfOk result (λ t. is_passing verdict ≡ false → Tells (command_of command.now) verdict (told_of t)) }
{
    let name = command.name.to_vec(alloc)?;
    let reason = match verdict {
        Verdict::Accepted => {
            let outcome = Ok(command.new);
            return Ok(Told { name, outcome });
        }
        Verdict::Refused(reason) => reason,
        Verdict::Passing => Reason::Stale,
    };
    let outcome = Err(reason.text().to_vec(alloc)?);
    Ok(Told { name, outcome })
}

// The text that tells the refusal of the first carried body at fault.
fn unpack_text(alloc: Global, fault: Option<ObjectFault>) -> Result<Option<Vec<u8>>, AllocError>
    ensures { IfOk result (λ words. option_map (λ w. w.items) words ≡ unpack_of fault) }
{
    let Some(fault) = fault else {
        return Ok(None);
    };
    let number = (fault as u16).to_string(alloc)?;
    let mut words = Vec::new(alloc);
    words.extend_from_slice(b"error ")?;
    words.extend_from_slice(number.as_bytes())?;
    Ok(Some(words))
}

/// The report of commands that are all judged.
pub(crate) fn report(
    alloc: Global,
    fault: Option<ObjectFault>,
    commands: &[Command],
    verdicts: &[Verdict],
) -> Result<Report, AllocError>
    requires paired { length verdicts.now ≡ length commands.now }
    ensures unpack { IfOk result (λ report. (report_text report).unpack ≡ unpack_of fault) }
    ensures told { IfOk result (λ report. list_any is_passing verdicts.now ≡ false → TellsAll (commands_of commands.now) verdicts.now (report_text report).told) }
{
    let unpack = unpack_text(alloc, fault)?;
    let mut all = Vec::new(alloc);
    for i in 0..commands.len() {
        let one = told(alloc, &commands[i], verdicts[i])?;
        all.push(one)?;
    }
    Ok(Report { unpack, told: all })
}
