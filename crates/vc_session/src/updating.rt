//! The update of one command: its ref is judged at that moment, and set.
ghost use Rattle.std.specs.Prelude.{◌≡◌, ◌⊎◌, ◌&&◌, None, Some, is_some, if◌then◌else◌, IfOk, IfErr};
ghost use Rattle.std.specs.Str.{is_utf8};
ghost use Rattle.vc_files.specs.Failures.{Wears, Writes};
ghost use Rattle.vc_push.specs.PushView.{command_of};
ghost use Rattle.vc_refname.specs.RefName.{is_ref_name};
ghost use Rattle.vc_refs.specs.RefFault.{BlamesRef, MaySet, TellsDevice};
ghost use Rattle.vc_refs.specs.RefMap.{IsInRefs};
ghost use Rattle.vc_refs.specs.Refs.{refs};
ghost use Rattle.vc_session.specs.Updating.{BlamesUpdate, UpdatesRef, reason_of};
ghost use Rattle.vc_push_rules.specs.Steps.{PassesUpdate};
ghost use Rattle.vc_push_rules.specs.Verdict.{IsVerdictAtUpdate, MayBeSet, expected, is_tag};

use std::alloc::{AllocError, Global};
use vc_files::Files;
use vc_object::ObjectId;
use vc_push::{Command, Reason};
use vc_refname::{NewNameError, RefName};
use vc_refs::{RefFault, get, set};

// The name that the bytes are, or none where they break a rule of names.
pub(crate) fn ref_named(alloc: Global, name: &[u8]) -> Result<Option<RefName>, AllocError>
    ensures { IfOk result (λ found. found ≡ (if is_utf8 name.now && is_ref_name name.now then Some name.now else None)) }
{
    let Ok(text) = str::from_utf8(name) else {
        return Ok(None);
    };
    match RefName::new(alloc, text) {
        Ok(name) => Ok(Some(name)),
        Err(NewNameError::Refused(_)) => Ok(None),
        Err(NewNameError::Memory) => Err(AllocError),
    }
}

// The value that a command expects of its ref: none where the old id is zero.
pub(crate) fn expected(old: ObjectId) -> Option<ObjectId>
    ensures { result ≡ expected old }
{
    if old == ObjectId::ZERO {
        return None;
    }
    Some(old)
}

// Whether it is a tag that stands.
fn is_standing_tag<F: Files>(files: &mut F, alloc: Global, name: &RefName) -> Result<bool, RefFault>
    requires { IsInRefs name.now }
    ensures standing { F.honest → IfOk result (λ yes. yes ≡ (is_tag name.now && is_some (refs (F.content files.old) name.now))) }
    ensures refused { F.honest → IfErr result (BlamesRef (F.content files.old) name.now) }
    ensures same { F.content files.new ≡ F.content files.old }
    ensures wear { Wears F.failed F.can_fail F.left files.old files.new (TellsDevice result) }
{
    if !name.is_tag() {
        return Ok(false);
    }
    let id = get(files, alloc, name)?;
    Ok(id.is_some())
}

// The reason that what refuses a ref's value is to a push, or the fault that is none.
fn reason_of(fault: RefFault) -> Result<Option<Reason>, RefFault>
    ensures { result ≡ reason_of fault }
{
    match fault {
        RefFault::Conflict(_) => Ok(Some(Reason::NameConflict)),
        RefFault::Stale(_) => Ok(Some(Reason::Stale)),
        RefFault::BadRefFile(path) => Err(RefFault::BadRefFile(path)),
        RefFault::HeadLoop => Err(RefFault::HeadLoop),
        RefFault::Fault(fault) => Err(RefFault::Fault(fault)),
    }
}

/// Judges a command at its update, over the refs of this moment, and sets its ref where nothing is against it: the first of
/// the reasons 106 to 108 that holds, or none, where the ref was set. One compare and set of one file does it. A name that
/// no check lets pass is refused by its own reason, 100 or 101, and nothing is read. No file becomes bad.
pub fn update<F: Files>(
    files: &mut F,
    alloc: Global,
    command: &Command,
) -> Result<Option<Reason>, RefFault>
    ensures verdict { F.honest → MayBeSet command.now.name.items → IfOk result (IsVerdictAtUpdate (refs (F.content files.old)) (command_of command.now)) }
    ensures updates { UpdatesRef F.honest F.content (command_of command.now) files.old files.new result }
    ensures allowed { F.honest → IfOk result (λ found. found ≡ None → MaySet (F.content files.old) command.now.name.items (expected command.now.old)) }
    ensures refused { F.honest → IfErr result (BlamesUpdate (F.content files.old) command.now.name.items) }
    ensures wear { Writes F.honest F.content F.failed F.can_fail F.left files.old files.new (TellsDevice result) }
    ensures looks { F.honest → MayBeSet command.now.name.items → PassesUpdate (F.content files.old) (command_of command.now) ⊎ Wears F.failed F.can_fail F.left files.old files.new (TellsDevice result) }
{
    let Some(name) = ref_named(alloc, &command.name)? else {
        return Ok(Some(Reason::BadName));
    };
    if !name.in_refs() {
        return Ok(Some(Reason::OutsideRefs));
    }
    if is_standing_tag(files, alloc, &name)? {
        return Ok(Some(Reason::AlreadyExists));
    }
    let expected = expected(command.old);
    match set(files, alloc, &name, expected, command.new) {
        Ok(()) => Ok(None),
        Err(fault) => reason_of(fault),
    }
}
