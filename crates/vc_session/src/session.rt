//! One open push.
ghost use Rattle.std.specs.Prelude.{◌≡◌, ◌⊎◌, ◌<◌, Option, false, true, length, slice_set, IfOk, IfErr, OnErr, OnOk, IsErrOf};
ghost use Rattle.vc_history.specs.Stored.{AgreesIn};
ghost use Rattle.vc_files.specs.FileMap.{FileMap, SameOutside};
ghost use Rattle.vc_files.specs.Failures.{Wears, Writes};
ghost use Rattle.vc_object.specs.declared.fault.ObjectFault.{ObjectFault as Refusal};
ghost use Rattle.vc_push.specs.Push.{Carried, FaultOf};
ghost use Rattle.vc_push.specs.PushView.{commands_of, push_text};
ghost use Rattle.vc_quarantine.specs.Arrival.{HasCome};
ghost use Rattle.vc_push_rules.specs.Carrying.{Carries, HoldsNames, objects_of_push};
ghost use Rattle.vc_quarantine.specs.Clean.{IsQuarantineClean, MakesNoneBad};
ghost use Rattle.vc_session.specs.Learning.{Learns};
ghost use Rattle.vc_push_rules.specs.Quarantine.{quarantine_folder};
ghost use Rattle.vc_push_rules.specs.Session.{IsSession, stage_while};
ghost use Rattle.vc_session.specs.SessionFault.{IsRefusedStep};
ghost use Rattle.vc_push_rules.specs.Steps.{EndsEarly, IsOpened, MayWrite, Steps, TellsReport};
ghost use Rattle.vc_session.specs.Stepping.{SparesFiles, StepsHeld, TakesStep};

mod needing;

use crate::checking::{check_in_files, check_together, count_passing, next_passing};
use crate::fault::SessionFault;
use crate::opening::{fresh, put_all};
use crate::reporting::report;
use crate::tips::add_tips;
use crate::updating::update;
use crate::updating_all::{Judgement, judge_all, set_passed};
use std::alloc::{AllocError, Global};
use std::marker::Model;
use vc_files::{Fault, Files};
use vc_history::Generations;
use vc_object::{ObjectFault, ObjectId};
use vc_push::{Command, Push};
use vc_push_rules::{Stage, Stepped, Verdict};
use vc_quarantine::{Arriving, drop_quarantine, learn_all, migrate};

/// One open push: its commands and what became of them, and how far it has come. What it carries stands in the quarantine
/// of its slot. It keeps neither the store nor the refs: both are handed to it, as files, at each step, so that other
/// pushes take their steps between.
#[derive(Drop)]
pub struct PushSession {
    slot: u8,
    // Whether all its refs are set, or none.
    atomic: bool,
    // Why the first carried body at fault is none of its kind. Then nothing is carried, and every command has 109.
    fault: Option<ObjectFault>,
    commands: Vec<Command>,
    // The verdict so far on each command.
    verdicts: Vec<Verdict>,
    // The names of what is carried, in their order.
    names: Vec<ObjectId>,
    stage: Stage,
}

impl Model for PushSession {
    ghost use Rattle.vc_push.specs.PushView.{commands_of};
    ghost use Rattle.vc_push_rules.specs.Session.{IsSession, SessionText};

    ghost Value = { SessionText };

    ghost view = { λ s. record { slot = s.slot; atomic = s.atomic; fault = s.fault; commands = commands_of s.commands.items; verdicts = s.verdicts.items; names = s.names.items; stage = s.stage } };

    ghost invariant = { λ s. IsSession (record { slot = s.slot; atomic = s.atomic; fault = s.fault; commands = commands_of s.commands.items; verdicts = s.verdicts.items; names = s.names.items; stage = s.stage }) };
}

// Another verdict at this place.
fn set_verdict(verdicts: &mut Vec<Verdict>, place: usize, verdict: Verdict)
    requires { place < length verdicts.old.items }
    ensures { verdicts.new.items ≡ slice_set verdicts.old.items place verdict }
{
    verdicts[place] = verdict;
}

// The stage, while a command passes.
fn stage_while(verdicts: &[Verdict], stage: Stage) -> Stage
    ensures { result ≡ stage_while verdicts.now stage }
{
    match next_passing(verdicts) {
        Some(_) => stage,
        None => Stage::Done,
    }
}

impl PushSession {
    /// Opens a push in a slot: what it carries is put into the slot's quarantine, in place of whatever stood there. Where a
    /// carried body is at fault nothing is carried, and every command has 109. After an error the quarantine may hold some
    /// of it; store and refs are as before. No file becomes bad, and the quarantine of a push that is open has no bad file.
    pub fn new<F: Files>(
        files: &mut F,
        alloc: Global,
        slot: u8,
        push: Push,
    ) -> Result<PushSession, Fault>
        ensures opened { IfOk result (λ s. (fault : Option Refusal) × FaultOf (push_text push).carried fault × IsOpened slot fault (push_text push).atomic (push_text push).commands s) }
        ensures carried { F.honest → IfOk result (λ s. Carries (F.content files.new) slot s.names (objects_of_push (push_text push).carried)) }
        ensures session { IfOk result IsSession }
        ensures outside { F.honest → SameOutside (quarantine_folder slot) (F.content files.old) (F.content files.new) }
        ensures bad { F.honest → MakesNoneBad (F.content files.old) (F.content files.new) }
        ensures clean { F.honest → IfOk result (λ s. IsQuarantineClean (F.content files.new) slot) }
        ensures wear { Writes F.honest F.content F.failed F.can_fail F.left files.old files.new (IsErrOf result Fault.Device) }
    {
        let fault = push.fault();
        drop_quarantine(files, alloc, slot)?;
        let names = match &push.carried {
            Ok(objects) => put_all(files, alloc, slot, objects)?,
            Err(_) => Vec::new(alloc),
        };
        let verdicts = fresh(alloc, &push.commands, fault)?;
        let Push {
            atomic,
            commands,
            carried: _,
        } = push;
        Ok(PushSession {
            slot,
            atomic,
            fault,
            commands,
            verdicts,
            names,
            stage: Stage::Unpacked,
        })
    }

    /// Opens a push of which all has come: what it carries stands in the quarantine of its slot.
    pub fn arrived(
        alloc: Global,
        arriving: Arriving,
        atomic: bool,
        commands: Vec<Command>,
    ) -> Result<PushSession, AllocError>
        ensures opened { IfOk result (IsOpened arriving.slot arriving.fault atomic (commands_of commands.items)) }
        ensures fault { (content : FileMap) (carried : Carried) → HasCome content arriving carried → FaultOf carried arriving.fault }
        ensures carried { IfOk result (λ s. (content : FileMap) (carried : Carried) → HasCome content arriving carried → Carries content arriving.slot s.names (objects_of_push carried)) }
        ensures session { IfOk result IsSession }
    {
        let Arriving { slot, names, fault } = arriving;
        let names = names.as_slice().to_vec(alloc)?;
        let verdicts = fresh(alloc, &commands, fault)?;
        Ok(PushSession {
            slot,
            atomic,
            fault,
            commands,
            verdicts,
            names,
            stage: Stage::Unpacked,
        })
    }

    // The check: 100 to 105, over what is stored and carried now; in an atomic push each command that has none of them has 117
    // if another has one.
    fn check<F: Files>(
        &mut self,
        files: &mut F,
        alloc: Global,
        generations: &Generations,
    ) -> Result<Stepped, SessionFault>
        requires stage { self.old.stage ≡ Stage.Unpacked }
        ensures steps { F.honest → AgreesIn (F.content files.old) generations.now → IfOk result (Steps (F.content files.old) (F.content files.new) self.old self.new) }
        ensures takes { TakesStep self.old self.new result }
        ensures same { F.content files.new ≡ F.content files.old }
        ensures refused { F.honest → AgreesIn (F.content files.old) generations.now → IfErr result (IsRefusedStep (F.content files.old) self.old Stage.Unpacked) }
        ensures spares { SparesFiles F.honest F.content self.old.atomic files.old files.new }
        ensures wear { Wears F.failed F.can_fail F.left files.old files.new (IsErrOf result (SessionFault.Fault Fault.Device)) }
    {
        let each = check_in_files(
            alloc,
            files,
            self.slot,
            &self.commands,
            &self.verdicts,
            generations,
        )?;
        let verdicts = check_together(alloc, self.atomic, each)?;
        let passed = count_passing(&verdicts);
        self.stage = stage_while(&verdicts, Stage::Checked);
        self.verdicts = verdicts;
        Ok(Stepped::Checked(passed as u64))
    }

    // What is carried is stored.
    fn migrate<F: Files>(&mut self, files: &mut F, alloc: Global) -> Result<Stepped, SessionFault>
        requires stage { self.old.stage ≡ Stage.Checked }
        ensures steps { F.honest → HoldsNames (F.content files.old) self.old.slot self.old.names → IfOk result (Steps (F.content files.old) (F.content files.new) self.old self.new) }
        ensures takes { TakesStep self.old self.new result }
        ensures early { F.honest → OnErr result (EndsEarly (F.content files.old) (F.content files.new) self.old Stage.Checked) }
        ensures refused { F.honest → IfErr result (IsRefusedStep (F.content files.old) self.old Stage.Checked) }
        ensures spares { SparesFiles F.honest F.content self.old.atomic files.old files.new }
        ensures wear { Writes F.honest F.content F.failed F.can_fail F.left files.old files.new (IsErrOf result (SessionFault.Fault Fault.Device)) }
        ensures looks { MayWrite (F.content files.old) self.old Stage.Checked ⊎ Wears F.failed F.can_fail F.left files.old files.new (IsErrOf result (SessionFault.Fault Fault.Device)) }
    {
        migrate(files, alloc, self.slot, &self.names)?;
        self.stage = Stage::Migrated;
        Ok(Stepped::Migrated)
    }

    // The next command that passed is judged by the refs, 106 to 108, and its ref is set. The name is copied first, so that
    // no fault comes behind the write.
    fn update<F: Files>(&mut self, files: &mut F, alloc: Global) -> Result<Stepped, SessionFault>
        requires stage { self.old.stage ≡ Stage.Migrated }
        requires single { self.old.atomic ≡ false }
        ensures steps { F.honest → IfOk result (Steps (F.content files.old) (F.content files.new) self.old self.new) }
        ensures takes { TakesStep self.old self.new result }
        ensures early { F.honest → OnErr result (EndsEarly (F.content files.old) (F.content files.new) self.old Stage.Migrated) }
        ensures refused { F.honest → IfErr result (IsRefusedStep (F.content files.old) self.old Stage.Migrated) }
        ensures spares { SparesFiles F.honest F.content self.old.atomic files.old files.new }
        ensures wear { Writes F.honest F.content F.failed F.can_fail F.left files.old files.new (IsErrOf result (SessionFault.Fault Fault.Device)) }
        ensures looks { F.honest → MayWrite (F.content files.old) self.old Stage.Migrated ⊎ Wears F.failed F.can_fail F.left files.old files.new (IsErrOf result (SessionFault.Fault Fault.Device)) }
    {
        let Some(place) = next_passing(&self.verdicts) else {
            unreachable!();
        };
        let name = self.commands[place].name.to_vec(alloc)?;
        let found = update(files, alloc, &self.commands[place])?;
        let verdict = match found {
            None => Verdict::Accepted,
            Some(reason) => Verdict::Refused(reason),
        };
        set_verdict(&mut self.verdicts, place, verdict);
        self.stage = stage_while(&self.verdicts, Stage::Migrated);
        Ok(Stepped::Updated(name, found))
    }

    // All commands of an atomic push are judged by the refs, 106 to 108, one after another, and then all refs are set, or none. All
    // that takes memory is made first, so that no fault comes after the write that sets them.
    fn update_all<F: Files>(
        &mut self,
        files: &mut F,
        alloc: Global,
    ) -> Result<Stepped, SessionFault>
        requires stage { self.old.stage ≡ Stage.Migrated }
        requires atomic { self.old.atomic ≡ true }
        ensures steps { F.honest → IfOk result (Steps (F.content files.old) (F.content files.new) self.old self.new) }
        ensures takes { TakesStep self.old self.new result }
        ensures early { F.honest → OnErr result (EndsEarly (F.content files.old) (F.content files.new) self.old Stage.Migrated) }
        ensures refused { F.honest → IfErr result (IsRefusedStep (F.content files.old) self.old Stage.Migrated) }
        ensures spares { SparesFiles F.honest F.content self.old.atomic files.old files.new }
        ensures wear { Writes F.honest F.content F.failed F.can_fail F.left files.old files.new (IsErrOf result (SessionFault.Fault Fault.Device)) }
        ensures looks { F.honest → MayWrite (F.content files.old) self.old Stage.Migrated ⊎ Wears F.failed F.can_fail F.left files.old files.new (IsErrOf result (SessionFault.Fault Fault.Device)) }
    {
        let made = judge_all(files, alloc, &self.commands)?;
        let Judgement { verdicts, refused } = made;
        if let Some((name, reason)) = refused {
            self.verdicts = verdicts;
            self.stage = Stage::Done;
            return Ok(Stepped::AtomicRefused(name, reason));
        }
        set_passed(files, alloc, &self.commands)?;
        self.verdicts = verdicts;
        self.stage = Stage::Done;
        Ok(Stepped::Atomic(self.commands.len() as u64))
    }

    // All is told, and the quarantine is dropped.
    fn finish<F: Files>(&self, files: &mut F, alloc: Global) -> Result<Stepped, SessionFault>
        requires stage { self.now.stage ≡ Stage.Done }
        ensures steps { F.honest → IfOk result (Steps (F.content files.old) (F.content files.new) self.now self.now) }
        ensures told { IfOk result (TellsReport self.now) }
        ensures early { F.honest → OnErr result (EndsEarly (F.content files.old) (F.content files.new) self.now Stage.Done) }
        ensures refused { F.honest → IfErr result (IsRefusedStep (F.content files.old) self.now Stage.Done) }
        ensures spares { SparesFiles F.honest F.content self.now.atomic files.old files.new }
        ensures wear { Writes F.honest F.content F.failed F.can_fail F.left files.old files.new (IsErrOf result (SessionFault.Fault Fault.Device)) }
    {
        let report = report(alloc, self.fault, &self.commands, &self.verdicts)?;
        drop_quarantine(files, alloc, self.slot)?;
        Ok(Stepped::Finished(report))
    }

    /// Learns what its stage is for. Before the check these are the generations of the commits that are due, and of all below them, so
    /// that the check stops at them; none is due then. Once all commands are judged the values are due that their refs are left with:
    /// the new id of each that was set, and the old id of each that was refused since its new one does not descend from it. A node that
    /// ends with its message so learns nothing, which would cost it a whole history. Of a history that isn't whole nothing is learnt,
    /// and that is no refusal here. After an error some may be due twice.
    pub fn learn<F: Files>(
        &self,
        files: &mut F,
        alloc: Global,
        due: &mut Vec<ObjectId>,
        generations: &mut Generations,
    ) -> Result<(), Fault>
        ensures agrees { F.honest → AgreesIn (F.content files.old) generations.old → AgreesIn (F.content files.old) generations.new }
        ensures learnt { F.honest → AgreesIn (F.content files.old) generations.old → OnOk result (Learns (F.content files.old) self.now due.old.items due.new.items generations.old generations.new) }
        ensures same { F.content files.new ≡ F.content files.old }
        ensures wear { Wears F.failed F.can_fail F.left files.old files.new (IsErrOf result Fault.Device) }
    {
        match self.stage {
            Stage::Unpacked => {
                learn_all(files, alloc, due, generations)?;
                due.clear();
                Ok(())
            }
            Stage::Checked | Stage::Migrated => Ok(()),
            Stage::Done => {
                add_tips(&self.commands, &self.verdicts, due)?;
                Ok(())
            }
        }
    }

    /// The next step: the check of all commands, the storing of what is carried, the update of one command, or of all if the push is
    /// atomic, or the end. After an error the session is as it was, and of what the step was to store some may be there; no ref has
    /// changed. Once it has told its report the session is at its end, and its slot is free. No step makes a file bad. The check looks at no
    /// commit whose number rules out that an old value is its ancestor, where the numbers agree with what is stored.
    pub fn step<F: Files>(
        &mut self,
        files: &mut F,
        alloc: Global,
        generations: &Generations,
    ) -> Result<Stepped, SessionFault>
        ensures steps { StepsHeld F.honest (F.content files.old) (F.content files.new) generations.now self.old self.new result }
        ensures takes { TakesStep self.old self.new result }
        ensures early { F.honest → OnErr result (EndsEarly (F.content files.old) (F.content files.new) self.old self.old.stage) }
        ensures refused { F.honest → AgreesIn (F.content files.old) generations.now → IfErr result (IsRefusedStep (F.content files.old) self.old self.old.stage) }
        ensures spares { SparesFiles F.honest F.content self.old.atomic files.old files.new }
        ensures wear { Writes F.honest F.content F.failed F.can_fail F.left files.old files.new (IsErrOf result (SessionFault.Fault Fault.Device)) }
        ensures looks { F.honest → MayWrite (F.content files.old) self.old self.old.stage ⊎ Wears F.failed F.can_fail F.left files.old files.new (IsErrOf result (SessionFault.Fault Fault.Device)) }
    {
        match self.stage {
            Stage::Unpacked => self.check(files, alloc, generations),
            Stage::Checked => self.migrate(files, alloc),
            Stage::Migrated if self.atomic => self.update_all(files, alloc),
            Stage::Migrated => self.update(files, alloc),
            Stage::Done => self.finish(files, alloc),
        }
    }
}
