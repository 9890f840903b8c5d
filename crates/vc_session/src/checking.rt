//! The check of all commands of a push.
ghost use Rattle.std.specs.Prelude.{◌≡◌, Some, None, true, false, ⊤, length, map, slice_get, take, count_by, if◌then◌else◌, IfOk, IfErr, IfSome, IfNone, IsErrOf};
ghost use Rattle.std.specs.List.{list_all, list_any};
ghost use Rattle.vc_history.specs.Stored.{AgreesIn};
ghost use Rattle.vc_files.specs.Failures.{Wears};
ghost use Rattle.vc_object_map.specs.StoreFault.{IsMet};
ghost use Rattle.vc_push.specs.PushView.{command_of, commands_of};
ghost use Rattle.vc_session.specs.Judged.{ChecksEach, ChecksOne, ChecksPush, WhereNumbered};
ghost use Rattle.vc_quarantine.specs.Known.{AreWhole};
ghost use Rattle.vc_push_rules.specs.Session.{MayBeSetWhere, is_passing};
ghost use Rattle.vc_push_rules.specs.Turn.{checked_together, failed_with_others};
ghost use Rattle.vc_session.specs.SessionFault.{IsRefusedCheck};
ghost use Rattle.vc_push_rules.specs.Verdict.{MayBeSet};

use crate::fault::SessionFault;
use crate::judging::judge;
use std::alloc::{AllocError, Global};
use vc_files::{Fault, Files};
use vc_history::Generations;
use vc_object_map::{Commits, StoreFault};
use vc_push::{Command, Reason};
use vc_push_rules::Verdict;
use vc_quarantine::{Known, PushObjects};

// What the check makes of the verdict on a command.
fn checked<C: Commits>(
    alloc: Global,
    commits: &mut C,
    known: &mut Known,
    command: &Command,
    verdict: Verdict,
    generations: &Generations,
) -> Result<Verdict, StoreFault>
    ensures checks { IfOk result (λ after. ChecksOne C.is_honest (C.objects (C.state_of commits.old)) generations.now known.old (command_of command.now) verdict after) }
    ensures legal { IfOk result (λ after. verdict ≡ Verdict.Passing → is_passing after ≡ true → MayBeSet command.now.name.items) }
    ensures settled { IfOk result (λ after. is_passing verdict ≡ false → after ≡ verdict) }
    ensures known { C.is_honest → AreWhole (C.objects (C.state_of commits.old)) known.old → AreWhole (C.objects (C.state_of commits.old)) known.new }
    ensures refused { IfErr result (λ e. WhereNumbered C.is_honest (C.objects (C.state_of commits.old)) generations.now (IsMet (λ id. ⊤) (C.damaged (C.state_of commits.old)) e)) }
    ensures kept { C.state_of commits.new ≡ C.state_of commits.old }
    ensures wear { Wears C.failed C.can_fail C.left commits.old commits.new (IsErrOf result (StoreFault.Fault Fault.Device)) }
{
    match verdict {
        Verdict::Passing => {
            let found = judge(alloc, commits, known, command, generations)?;
            match found {
                None => Ok(Verdict::Passing),
                Some(reason) => Ok(Verdict::Refused(reason)),
            }
        }
        Verdict::Accepted => Ok(Verdict::Accepted),
        Verdict::Refused(reason) => Ok(Verdict::Refused(reason)),
    }
}

// What the check makes of the verdicts on all commands. What is found to be whole under one of them is not read again for
// the next.
fn check_all<C: Commits>(
    alloc: Global,
    commits: &mut C,
    known: &mut Known,
    commands: &[Command],
    verdicts: &[Verdict],
    generations: &Generations,
) -> Result<Vec<Verdict>, StoreFault>
    requires paired { length verdicts.now ≡ length commands.now }
    ensures checks { IfOk result (λ after. ChecksEach C.is_honest (C.objects (C.state_of commits.old)) generations.now known.old (commands_of commands.now) verdicts.now after.items) }
    ensures legal { IfOk result (λ after. MayBeSetWhere (commands_of commands.now) after.items) }
    ensures paired { IfOk result (λ after. length after.items ≡ length commands.now) }
    ensures refused { IfErr result (λ e. WhereNumbered C.is_honest (C.objects (C.state_of commits.old)) generations.now (IsMet (λ id. ⊤) (C.damaged (C.state_of commits.old)) e)) }
    ensures kept { C.state_of commits.new ≡ C.state_of commits.old }
    ensures wear { Wears C.failed C.can_fail C.left commits.old commits.new (IsErrOf result (StoreFault.Fault Fault.Device)) }
{
    let mut after = Vec::new(alloc);
    for i in 0..commands.len() {
        let verdict = checked(
            alloc,
            commits,
            known,
            &commands[i],
            verdicts[i],
            generations,
        )?;
        after.push(verdict)?;
    }
    Ok(after)
}

/// What the check makes of the verdicts on the commands of a slot's push, over what is stored and what its quarantine
/// holds. The values of refs are known to be whole, and so is what hangs on them.
pub(crate) fn check_in_files<F: Files>(
    alloc: Global,
    files: &mut F,
    slot: u8,
    commands: &[Command],
    verdicts: &[Verdict],
    generations: &Generations,
) -> Result<Vec<Verdict>, SessionFault>
    requires paired { length verdicts.now ≡ length commands.now }
    ensures checks { ChecksPush F.honest (F.content files.old) generations.now slot (commands_of commands.now) verdicts.now result }
    ensures legal { IfOk result (λ after. MayBeSetWhere (commands_of commands.now) after.items) }
    ensures paired { IfOk result (λ after. length after.items ≡ length commands.now) }
    ensures refused { F.honest → AgreesIn (F.content files.old) generations.now → IfErr result (IsRefusedCheck (F.content files.old) slot) }
    ensures same { F.content files.new ≡ F.content files.old }
    ensures wear { Wears F.failed F.can_fail F.left files.old files.new (IsErrOf result (SessionFault.Fault Fault.Device)) }
{
    let mut known = Known::by_refs(files, alloc)?;
    let mut seen = PushObjects { files, slot, alloc };
    known.learn_tips(alloc, &mut seen, commands)?;
    let after = check_all(
        alloc,
        &mut seen,
        &mut known,
        commands,
        verdicts,
        generations,
    )?;
    Ok(after)
}

// Whether each of the verdicts passes.
fn all_passing(verdicts: &[Verdict]) -> bool
    ensures { result ≡ list_all is_passing verdicts.now }
{
    for verdict in verdicts {
        if !matches!(verdict, Verdict::Passing) {
            return false;
        }
    }
    true
}

// The verdict on a command of an atomic push of which not all pass.
fn failed_with_others(verdict: Verdict) -> Verdict
    ensures { result ≡ failed_with_others verdict }
{
    match verdict {
        Verdict::Passing => Verdict::Refused(Reason::AtomicFailure),
        Verdict::Accepted => Verdict::Accepted,
        Verdict::Refused(reason) => Verdict::Refused(reason),
    }
}

// The same for all verdicts.
fn fail_all(alloc: Global, verdicts: &[Verdict]) -> Result<Vec<Verdict>, AllocError>
    ensures { IfOk result (λ after. after.items ≡ map failed_with_others verdicts.now) }
{
    let mut after = Vec::new(alloc);
    for verdict in verdicts {
        after.push(failed_with_others(*verdict))?;
    }
    Ok(after)
}

/// What the check makes of the verdicts, once each command is judged by itself: in an atomic push none passes if another does
/// not.
pub(crate) fn check_together(
    alloc: Global,
    atomic: bool,
    verdicts: Vec<Verdict>,
) -> Result<Vec<Verdict>, AllocError>
    ensures { IfOk result (λ after. after.items ≡ (if atomic then checked_together verdicts.items else verdicts.items)) }
{
    if !atomic {
        return Ok(verdicts);
    }
    if all_passing(&verdicts) {
        return Ok(verdicts);
    }
    let after = fail_all(alloc, &verdicts)?;
    Ok(after)
}

/// How many of the verdicts pass.
pub(crate) fn count_passing(verdicts: &[Verdict]) -> usize
    ensures { result ≡ count_by is_passing verdicts.now }
{
    let mut passing = 0;
    for verdict in verdicts {
        if matches!(verdict, Verdict::Passing) {
            passing += 1;
        }
    }
    passing
}

/// The place of the first verdict that passes.
pub(crate) fn next_passing(verdicts: &[Verdict]) -> Option<usize>
    ensures place { IfSome result (λ k. (slice_get verdicts.now k ≡ Some Verdict.Passing) × (list_any is_passing (take k verdicts.now) ≡ false)) }
    ensures none { IfNone result (list_any is_passing verdicts.now ≡ false) }
{
    for i in 0..verdicts.len() {
        if matches!(verdicts[i], Verdict::Passing) {
            return Some(i);
        }
    }
    None
}
