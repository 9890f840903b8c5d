//! The verdict on one command at the check.
ghost use Rattle.std.specs.Prelude.{◌≡◌, None, IfOk, IfErr, IsErrOf};
ghost use Rattle.vc_files.specs.Failures.{Wears};
ghost use Rattle.vc_object_map.specs.Graph.{IsClosedUnder};
ghost use Rattle.vc_object.specs.ObjectMap.{parents_in};
ghost use Rattle.vc_push.specs.PushView.{command_of};
ghost use Rattle.vc_session.specs.Judged.{Judges, JudgesHistory, MeetsBelow, MeetsInHistory};
ghost use Rattle.vc_quarantine.specs.Known.{AreWhole};
ghost use Rattle.vc_push_rules.specs.Verdict.{MayBeSet, is_inside, own_reason};

use indexmap::IndexSet;
use std::alloc::Global;
use vc_files::Fault;
use vc_graph::is_complete_beyond;
use vc_history::{Generations, HistoryFault, is_ancestor, is_history_beyond};
use vc_object::ObjectId;
use vc_object_map::{Commits, StoreFault};
use vc_push::{Command, Reason};
use vc_quarantine::{Known, is_branch, is_legal};

// Whether it names a branch or a tag.
fn is_inside(name: &[u8]) -> bool
    ensures { result ≡ is_inside name.now }
{
    is_branch(name) || name.starts_with(b"refs/tags/")
}

// The first reason that the command alone gives: 100, 101 or 102.
fn own_reason(command: &Command) -> Option<Reason>
    ensures { result ≡ own_reason (command_of command.now) }
{
    if !is_legal(&command.name) {
        return Some(Reason::BadName);
    }
    if !is_inside(&command.name) {
        return Some(Reason::OutsideRefs);
    }
    if command.new == ObjectId::ZERO {
        return Some(Reason::DeletionProhibited);
    }
    None
}

// The first reason that the history of a branch's new value gives: 104 or 105.
fn history_reason<C: Commits>(
    alloc: Global,
    commits: &mut C,
    histories: &mut IndexSet<ObjectId>,
    command: &Command,
    generations: &Generations,
) -> Result<Option<Reason>, StoreFault>
    ensures verdict { IfOk result (λ found. JudgesHistory C.is_honest (C.objects (C.state_of commits.old)) generations.now histories.old.keys (command_of command.now) found) }
    ensures known { C.is_honest → IsClosedUnder (parents_in (C.objects (C.state_of commits.old))) histories.old.keys → IsClosedUnder (parents_in (C.objects (C.state_of commits.old))) histories.new.keys }
    ensures refused { IfErr result (λ e. MeetsInHistory C.is_honest (C.objects (C.state_of commits.old)) (C.damaged (C.state_of commits.old)) generations.now command.now.new e) }
    ensures kept { C.state_of commits.new ≡ C.state_of commits.old }
    ensures wear { Wears C.failed C.can_fail C.left commits.old commits.new (IsErrOf result (StoreFault.Fault Fault.Device)) }
{
    if !is_branch(&command.name) {
        return Ok(None);
    }
    if !is_history_beyond(commits, histories, &command.new)? {
        return Ok(Some(Reason::NotACommit));
    }
    if command.old == ObjectId::ZERO {
        return Ok(None);
    }
    match is_ancestor(alloc, commits, &command.old, &command.new, generations) {
        Ok(true) => Ok(None),
        Ok(false) => Ok(Some(Reason::NonFastForward)),
        // Its history was just read, and is whole.
        Err(HistoryFault::Missing(_)) => Ok(Some(Reason::NotACommit)),
        Err(HistoryFault::NotACommit(_)) => Ok(Some(Reason::NotACommit)),
        Err(HistoryFault::Store(fault)) => Err(fault),
    }
}

/// The first of the reasons 100 to 105 for which a command is refused at its check, over the objects that are stored or
/// carried at this moment, where what is known to be whole is so; none where it passes. No object is changed. The walk stops
/// at what is known, and what it finds to be whole is known from then on. Every object that the new id reaches before that
/// is read once, of a branch every commit of them once more, and those down to the old id a third time, but for those whose
/// numbers rule out that the old id is their ancestor.
pub fn judge<C: Commits>(
    alloc: Global,
    commits: &mut C,
    known: &mut Known,
    command: &Command,
    generations: &Generations,
) -> Result<Option<Reason>, StoreFault>
    ensures verdict { IfOk result (λ found. Judges C.is_honest (C.objects (C.state_of commits.old)) generations.now known.old (command_of command.now) found) }
    ensures legal { IfOk result (λ found. found ≡ None → MayBeSet command.now.name.items) }
    ensures known { C.is_honest → AreWhole (C.objects (C.state_of commits.old)) known.old → AreWhole (C.objects (C.state_of commits.old)) known.new }
    ensures refused { IfErr result (λ e. MeetsBelow C.is_honest (C.objects (C.state_of commits.old)) (C.damaged (C.state_of commits.old)) generations.now command.now.new e) }
    ensures kept { C.state_of commits.new ≡ C.state_of commits.old }
    ensures wear { Wears C.failed C.can_fail C.left commits.old commits.new (IsErrOf result (StoreFault.Fault Fault.Device)) }
{
    if let Some(reason) = own_reason(command) {
        return Ok(Some(reason));
    }
    if !is_complete_beyond(commits, &mut known.objects, &command.new)? {
        return Ok(Some(Reason::MissingObjects));
    }
    let found = history_reason(alloc, commits, &mut known.histories, command, generations)?;
    Ok(found)
}
