//! The update of an atomic push: its commands are judged one after another, and then all refs are set, or none.
ghost use Rattle.std.specs.Prelude.{◌≡◌, ◌&&◌, [], bytes_eq, is_some, length, map, if◌then◌else◌, IfOk, IfErr, OnOk, OnErr, IsErrOf};
ghost use Rattle.std.specs.FinMap as names;
ghost use Rattle.std.specs.List.{list_any};
ghost use Rattle.vc_files.specs.Failures.{Wears, Writes};
ghost use Rattle.vc_push.specs.PushView.{command_of, commands_of};
ghost use Rattle.vc_push.specs.declared.command.Command.{Command as HeldCommand};
ghost use Rattle.vc_refs.specs.Packing.{IsMapOf};
ghost use Rattle.vc_refs.specs.RefMap.{RefMap};
ghost use Rattle.vc_refs.specs.Refs.{refs, SpellsRefs};
ghost use Rattle.vc_push_rules.specs.Session.{verdict_of};
ghost use Rattle.vc_push_rules.specs.Steps.{names_of, KeepsUnnamed};
ghost use Rattle.vc_push_rules.specs.Turn.{first_refusal, refused_by, with_new, JudgesInTurn, PassInTurn, TurnNeeds};
ghost use Rattle.vc_push_rules.specs.Verdict.{IsVerdict, MayBeSet, is_branch, is_tag, refs_after, update_reasons};
ghost use Rattle.vc_session.specs.SessionFault.{IsRefusedUpdate};
ghost use Rattle.vc_session.specs.Together.{change_of, named_after, refusal_told, AreToBeSet, IsJudged};

use crate::fault::SessionFault;
use crate::updating::{expected, ref_named};
use std::alloc::{AllocError, Global};
use vc_files::{Fault, Files};
use vc_push::{Command, Reason};
use vc_push_rules::Verdict;
use vc_refname::RefName;
use vc_refs::{PackedRefs, RefChange, packed_in_the_way, read_all, set_all};

// The name of a command that passed its check.
fn name_of(alloc: Global, command: &Command) -> Result<RefName, AllocError>
    requires { MayBeSet command.now.name.items }
    ensures { IfOk result (λ name. name ≡ command.now.name.items) }
{
    let Some(name) = ref_named(alloc, &command.name)? else {
        unreachable!();
    };
    Ok(name)
}

// Whether it is a tag that stands.
fn is_standing(refs: &PackedRefs, name: &RefName) -> bool
    ensures { result ≡ (is_tag name.now && is_some (names.get refs.now name.now)) }
{
    if !name.is_tag() {
        return false;
    }
    refs.get(name).is_some()
}

// Whether one of these commands names the ref.
fn is_named(earlier: &[Command], name: &[u8]) -> bool
    ensures { result ≡ list_any (λ (c : HeldCommand). bytes_eq c.name.items name.now) earlier.now }
{
    for command in earlier {
        if command.name.as_slice() == name {
            return true;
        }
    }
    false
}

// Whether it is a branch that one of these commands names.
fn is_named_branch(earlier: &[Command], name: &RefName) -> bool
    ensures { result ≡ (is_branch name.now && list_any (λ (c : HeldCommand). bytes_eq c.name.items name.now) earlier.now) }
{
    if !name.is_branch() {
        return false;
    }
    is_named(earlier, name.as_str().as_bytes())
}

// The first of the reasons 106 to 108 for which a command that comes after these is refused, over the refs as they would leave
// them, or none. A branch that one of them names is stale whatever value it would have.
fn judge_next(
    refs: &PackedRefs,
    earlier: &[Command],
    name: &RefName,
    command: &Command,
) -> Option<Reason>
    requires { name.now ≡ command.now.name.items }
    ensures { IsVerdict (TurnNeeds (names.get refs.now) (named_after [] (commands_of earlier.now)) (command_of command.now)) update_reasons result }
{
    if is_standing(refs, name) {
        return Some(Reason::AlreadyExists);
    }
    if packed_in_the_way(refs, name).is_some() {
        return Some(Reason::NameConflict);
    }
    if is_named_branch(earlier, name) {
        return Some(Reason::Stale);
    }
    if refs.get(name) != expected(command.old) {
        return Some(Reason::Stale);
    }
    None
}

// Judges the command that comes after these over the refs as they would leave them, and leaves the refs as it would.
fn judge_one(
    alloc: Global,
    refs: &mut PackedRefs,
    earlier: &[Command],
    command: &Command,
) -> Result<Option<Reason>, AllocError>
    requires { MayBeSet command.now.name.items }
    ensures verdict { IfOk result (IsVerdict (TurnNeeds (names.get refs.old) (named_after [] (commands_of earlier.now)) (command_of command.now)) update_reasons) }
    ensures refs { IfOk result (λ found. IsMapOf (refs_after (names.get refs.old) (command_of command.now) found) refs.new) }
{
    let name = name_of(alloc, command)?;
    if let Some(reason) = judge_next(refs, earlier, &name, command) {
        return Ok(Some(reason));
    }
    refs.insert(name, command.new)?;
    Ok(None)
}

// Judges commands one after another, each over the refs as those before it that passed would leave them.
fn judge_in_turn(
    alloc: Global,
    refs: PackedRefs,
    commands: &[Command],
) -> Result<Vec<Option<Reason>>, AllocError>
    requires { AreToBeSet (commands_of commands.now) }
    ensures judged { IfOk result (λ founds. JudgesInTurn (names.get refs) [] (commands_of commands.now) founds.items) }
    ensures paired { IfOk result (λ founds. length founds.items ≡ length commands.now) }
{
    let mut left = refs;
    let mut founds = Vec::new(alloc);
    for i in 0..commands.len() {
        let earlier = commands.split_at(i).0;
        let found = judge_one(alloc, &mut left, earlier, &commands[i])?;
        founds.push(found)?;
    }
    Ok(founds)
}

// The first command that has a cause of its own, by its name, with that cause; none if all pass.
fn first_refusal(
    alloc: Global,
    commands: &[Command],
    founds: &[Option<Reason>],
) -> Result<Option<(Vec<u8>, Reason)>, AllocError>
    requires { length founds.now ≡ length commands.now }
    ensures { IfOk result (λ found. refusal_told found ≡ first_refusal (commands_of commands.now) founds.now) }
{
    for i in 0..commands.len() {
        if let Some(reason) = founds[i] {
            let name = commands[i].name.to_vec(alloc)?;
            return Ok(Some((name, reason)));
        }
    }
    Ok(None)
}

// The verdict on a command, by whether all pass.
fn verdict_on(found: Option<Reason>, passes: bool) -> Verdict
    ensures { result ≡ (if passes then verdict_of found else refused_by found) }
{
    match found {
        Some(reason) => Verdict::Refused(reason),
        None => {
            if passes {
                return Verdict::Accepted;
            }
            Verdict::Refused(Reason::AtomicFailure)
        }
    }
}

// The verdicts on the commands, by whether all pass.
fn verdicts_on(
    alloc: Global,
    founds: &[Option<Reason>],
    passes: bool,
) -> Result<Vec<Verdict>, AllocError>
    ensures { IfOk result (λ verdicts. verdicts.items ≡ map (λ found. if passes then verdict_of found else refused_by found) founds.now) }
{
    let mut verdicts = Vec::new(alloc);
    for found in founds {
        let verdict = verdict_on(*found, passes);
        verdicts.push(verdict)?;
    }
    Ok(verdicts)
}

/// What becomes of all commands of an atomic push.
#[derive(Drop)]
pub(crate) struct Judgement {
    /// The verdict on each: all are accepted, or all are refused.
    pub(crate) verdicts: Vec<Verdict>,
    /// The first command that has a cause of its own, by its name, with that cause; none if all are accepted.
    pub(crate) refused: Option<(Vec<u8>, Reason)>,
}

// What becomes of all commands over these refs.
fn judge_together(
    alloc: Global,
    refs: PackedRefs,
    commands: &[Command],
) -> Result<Judgement, AllocError>
    requires { AreToBeSet (commands_of commands.now) }
    ensures { IfOk result (λ made. IsJudged (names.get refs) (commands_of commands.now) made.verdicts.items (refusal_told made.refused)) }
{
    let founds = judge_in_turn(alloc, refs, commands)?;
    let refused = first_refusal(alloc, commands, &founds)?;
    let passes = refused.is_none();
    let verdicts = verdicts_on(alloc, &founds, passes)?;
    Ok(Judgement { verdicts, refused })
}

/// Judges all commands of an atomic push, one after another, over the refs of this moment and as those before it that passed would
/// leave them, for the reasons 106 to 108. Nothing is changed.
pub(crate) fn judge_all<F: Files>(
    files: &mut F,
    alloc: Global,
    commands: &[Command],
) -> Result<Judgement, SessionFault>
    requires { AreToBeSet (commands_of commands.now) }
    ensures judged { IfOk result (λ made. (m : RefMap) × IsJudged m (commands_of commands.now) made.verdicts.items (refusal_told made.refused) × (F.honest → m ≡ refs (F.content files.old))) }
    ensures good { F.honest → OnOk result (SpellsRefs (F.content files.old)) }
    ensures refused { F.honest → IfErr result (IsRefusedUpdate (F.content files.old)) }
    ensures same { F.content files.new ≡ F.content files.old }
    ensures wear { Wears F.failed F.can_fail F.left files.old files.new (IsErrOf result (SessionFault.Fault Fault.Device)) }
{
    let refs = read_all(files, alloc)?;
    let made = judge_together(alloc, refs, commands)?;
    Ok(made)
}

// What a command asks of its ref.
fn change_of(alloc: Global, command: &Command) -> Result<RefChange, AllocError>
    requires { MayBeSet command.now.name.items }
    ensures { IfOk result (λ change. change ≡ change_of (command_of command.now)) }
{
    let name = name_of(alloc, command)?;
    let expected = expected(command.old);
    Ok(RefChange {
        name,
        expected,
        new: Some(command.new),
    })
}

// What commands ask of their refs.
fn changes_of(alloc: Global, commands: &[Command]) -> Result<Vec<RefChange>, AllocError>
    requires { AreToBeSet (commands_of commands.now) }
    ensures { IfOk result (λ changes. changes.items ≡ map change_of (commands_of commands.now)) }
{
    let mut changes = Vec::new(alloc);
    for command in commands {
        let change = change_of(alloc, command)?;
        changes.push(change)?;
    }
    Ok(changes)
}

/// Sets the refs of all these commands as one change. Each ref is as before wherever it stops, until the last write, which sets them
/// all.
pub(crate) fn set_passed<F: Files>(
    files: &mut F,
    alloc: Global,
    commands: &[Command],
) -> Result<(), SessionFault>
    requires { AreToBeSet (commands_of commands.now) }
    ensures set { F.honest → OnOk result (refs (F.content files.new) ≡ with_new (refs (F.content files.old)) (commands_of commands.now)) }
    ensures rest { F.honest → KeepsUnnamed (names_of (commands_of commands.now)) (F.content files.old) (F.content files.new) }
    ensures err { F.honest → OnErr result (refs (F.content files.new) ≡ refs (F.content files.old)) }
    ensures refused { F.honest → SpellsRefs (F.content files.old) → PassInTurn (refs (F.content files.old)) (commands_of commands.now) → IfErr result (IsRefusedUpdate (F.content files.old)) }
    ensures wear { Writes F.honest F.content F.failed F.can_fail F.left files.old files.new (IsErrOf result (SessionFault.Fault Fault.Device)) }
{
    let changes = changes_of(alloc, commands)?;
    set_all(files, alloc, &changes)?;
    Ok(())
}
