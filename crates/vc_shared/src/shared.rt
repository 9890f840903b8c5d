// The shared node.
ghost use Rattle.std.specs.Prelude.{◌≡◌, ◌⊎◌, ℕ, IfErr, IfNone, IfOk, IsTrue, OnErr, OnOk, Ok, None, List, is_ok, not, false, true};
ghost use Rattle.vc_files.specs.Failures.{Wears, Writes};
ghost use Rattle.vc_message.specs.Machine.{IsUnread, Reads};
ghost use Rattle.vc_model.specs.Message.{Message as Sent};
ghost use Rattle.vc_model.specs.Question.Question.{PackRefs, Resolve, Unread};
ghost use Rattle.vc_model.specs.SharedCall.SharedCall.{Accept, Asks, Open, StepOf};
ghost use Rattle.vc_local.specs.Blames.{BlamesOpen, BlamesPacking};
ghost use Rattle.vc_local.specs.Machine.{up_after as node_up_after};
ghost use Rattle.vc_local.specs.Clean.{KeepsClean, PacksOnly, StaysClean};
ghost use Rattle.vc_local.specs.NodeFault.{IsOfDevice as IsNodeDevice, TellsDevice as TellsNodeDevice, is_fault as is_node_fault};
ghost use Rattle.vc_local.specs.Opening.{IsOpenable, OpenableAs};
ghost use Rattle.vc_local.specs.Told.{FoundAs, RestartedAs};
ghost use Rattle.vc_refs.specs.Packing.{HasLoose, IsPackedFrom};
ghost use Rattle.vc_repository.specs.Resolving.{DenotesIn};
ghost use Rattle.vc_expression.specs.Grammar.{IsExpr};
ghost use Rattle.vc_expression.specs.Views.{expr_view};
ghost use Rattle.vc_quarantine.specs.Learning.{IsNothing};
ghost use Rattle.vc_shared.specs.AcceptFault.{TellsDevice as TellsAcceptDevice, takes_down as accept_takes_down, up_after as accept_up_after};
ghost use Rattle.vc_shared.specs.Accepting.{IsAnsweredBytes, IsRefusedBytes, IsToWrite};
ghost use Rattle.vc_shared.specs.Arriving.{KeepsAtLoss};
ghost use Rattle.vc_shared.specs.Calls.{AcceptedAs, SteppedAs};
ghost use Rattle.vc_shared.specs.Faults.{TellsDevice, fault_answer, takes_down, up_after};
ghost use Rattle.vc_shared.specs.Node.{AcceptsNext, AnswersCall, AnswersFirst, EndsIn, HoldsIn, HoldsOpened, IsFresh, KeepsNode, LearnsAtStep, MayStep, Settles, SettlesNext, SettlesStep, SettlesTaken, StepsIn};
ghost use Rattle.vc_shared.specs.Pushing.{ChangesFree};
ghost use Rattle.vc_shared.specs.Resolving.{IsRefusedValue};
ghost use Rattle.vc_shared.specs.Slots.{AreTellable, slot_of};
ghost use Rattle.vc_shared.specs.Stepping.{IsRefusedIn, LeavesPackedIn};

mod cleaning;
mod showing;

use crate::arriving::refuse_down;
use crate::{AcceptFault, Accepted, SharedFault, Stepped, accepting, arriving, stepping};
use std::alloc::Global;
use std::marker::Model;
use vc_expression::Expr;
use vc_files::{Files, FusedFiles};
use vc_history::Generations;
use vc_known::Known;
use vc_local::{NodeFault, open_files};
use vc_message::{Source, skip_message};
use vc_object::ObjectId;
use vc_session::PushSession;

/// The shared node over files: one bare repository, the pushes that are open in its eight slots, and what it has learnt of the
/// generations of commits, some 30 bytes for each. Of what its refs reach it keeps the names from the second want on, some 50 bytes for
/// each, so that the next answers read what is new alone. Once a call has ended in a fault, or has met a file of the node's own that is gone or
/// damaged (11, 12, 33), each later one but [`close`](Shared::close) is refused (112), until the files are opened again.
#[derive(Drop)]
pub struct Shared<F: Files> {
    files: F,
    alloc: Global,
    slots: [Option<PushSession>; 8],
    is_up: bool,
    // What is known of the generations of commits. It stands until a prune, which may take some of them away, or until the files are
    // opened again.
    generations: Generations,
    // The commits whose histories are learnt before the next check.
    due: Vec<ObjectId>,
    // What the refs reached at answers to wants. No call but a prune takes an object away, and that one forgets it.
    known: Known,
}

impl<F: Files> Model for Shared<F> {
    ghost use Rattle.std.specs.Coded.{codes};
    ghost use Rattle.vc_history.specs.Stored.{AgreesIn};
    ghost use Rattle.vc_history.specs.contracts.generations.Generations as of_generations;
    ghost use Rattle.vc_known.specs.Known.{Agrees};
    ghost use Rattle.vc_object_map.specs.Store.{objects};
    ghost use Rattle.vc_quarantine.specs.Learning.{learnt_in};
    ghost use Rattle.vc_shared.specs.Holding.{SharedText};
    ghost use Rattle.vc_shared.specs.Slots.{AreTellable};

    ghost Value = { SharedText F };

    ghost coded = { Prim.hlevel (codes, of_generations.the_row.coded) };

    ghost view = { λ s. record { files = s.files; slots = s.slots; is_up = s.is_up; learnt = learnt_in s.generations s.due } };

    ghost invariant = { λ s. AreTellable s.slots × (F.honest → AgreesIn (F.content s.files) s.generations × Agrees (objects (F.content s.files)) s.known) };
}

impl<F: Files> Shared<F> {
    /// The shared node that the files hold, with no push open: what was left of one is taken away. In a new one HEAD names
    /// the branch `main`. Where the files are none of a node's (33 and 34: HEAD, 62: the index), or a fault comes, they are
    /// handed back, and can be opened as before.
    pub fn open(alloc: Global, mut files: F) -> Result<Shared<F>, (F, NodeFault)>
        ensures up { IfOk result (λ node. node.is_up ≡ true) }
        ensures fresh { IfOk result IsFresh }
        ensures opens { F.honest → OpenableAs (F.content files) (λ r. IfOk result (λ node. HoldsOpened (F.content node.files) node.slots r)) }
        ensures only { F.honest → OpenableAs (F.content files) (λ r. IfErr result (λ e. IsTrue (is_node_fault e.1))) }
        ensures refused { F.honest → IfErr result (λ e. BlamesOpen (F.content files) e.1) }
        ensures err { F.honest → OpenableAs (F.content files) (λ r. IfErr result (λ e. IsOpenable (F.content e.0) r)) }
        ensures clean { F.honest → IfOk result (λ node. KeepsClean (F.content files) (F.content node.files)) }
        ensures wear { IfOk result (λ node. Writes F.honest F.content F.failed F.can_fail F.left files node.files ⊥) }
        ensures wear_err { IfErr result (λ e. Writes F.honest F.content F.failed F.can_fail F.left files e.0 (IsNodeDevice e.1)) }
    {
        match open_files(alloc, &mut files) {
            Ok(_) => Ok(Shared {
                files,
                alloc,
                slots: [None, None, None, None, None, None, None, None],
                is_up: true,
                generations: Generations::new(alloc),
                due: Vec::new(alloc),
                known: Known::new(alloc),
            }),
            Err(fault) => Err((files, fault)),
        }
    }

    /// The files, whatever state the node is in.
    pub fn close(self) -> F
        ensures { result ≡ self.files }
    {
        let Shared {
            files,
            alloc: _,
            slots: _,
            is_up: _,
            generations: _,
            due: _,
            known: _,
        } = self;
        files
    }

    /// Whether neither a fault nor a bad file of its own has taken it down since the files were opened.
    pub fn is_up(&self) -> bool
        ensures { result ≡ self.now.is_up }
    {
        self.is_up
    }

    /// Opens the files again, in place: the node is up then, whatever it was before, and no push is open. Where that fails (see
    /// [`open`](Shared::open)) it is down, and can be restarted as before.
    pub fn restart(&mut self) -> Result<(), NodeFault>
        ensures answers { F.honest → AnswersCall F.content Open (RestartedAs result) self.old self.new }
        ensures refused { F.honest → IfErr result (BlamesOpen (F.content self.old.files)) }
        ensures up { self.new.is_up ≡ is_ok result }
        ensures learnt { IsNothing self.new.learnt }
        ensures clean { F.honest → KeepsClean (F.content self.old.files) (F.content self.new.files) }
        ensures wear { Writes F.honest F.content F.failed F.can_fail F.left self.old.files self.new.files (TellsNodeDevice result) }
    {
        self.slots = [None, None, None, None, None, None, None, None];
        self.is_up = false;
        self.generations = Generations::new(self.alloc);
        self.due = Vec::new(self.alloc);
        self.known = Known::new(self.alloc);
        match open_files(self.alloc, &mut self.files) {
            Ok(_) => {
                self.is_up = true;
                Ok(())
            }
            Err(fault) => Err(fault),
        }
    }

    /// Takes the node down, as a fault of its own does: for whoever runs out of memory between two of its calls.
    pub fn take_down(&mut self)
        ensures files { self.new.files ≡ self.old.files }
        ensures slots { self.new.slots ≡ self.old.slots }
        ensures learnt { self.new.learnt ≡ self.old.learnt }
        ensures up { self.new.is_up ≡ false }
    {
        self.is_up = false;
    }

    // The fault, after which the node is down if it takes it down.
    fn fail(&mut self, fault: SharedFault) -> SharedFault
        ensures fault { result ≡ fault }
        ensures files { self.new.files ≡ self.old.files }
        ensures slots { self.new.slots ≡ self.old.slots }
        ensures learnt { self.new.learnt ≡ self.old.learnt }
        ensures up { self.old.is_up ≡ true → self.new.is_up ≡ not (takes_down fault) }
    {
        if fault.takes_down() {
            self.is_up = false;
        }
        fault
    }

    // What came of a message, after which the node is down if that takes it down.
    fn settle(&mut self, accepted: Result<Accepted, SharedFault>) -> Result<Accepted, SharedFault>
        ensures accepted { result ≡ accepted }
        ensures files { self.new.files ≡ self.old.files }
        ensures slots { self.new.slots ≡ self.old.slots }
        ensures learnt { self.new.learnt ≡ self.old.learnt }
        ensures up { self.old.is_up ≡ true → self.new.is_up ≡ up_after result }
    {
        match accepted {
            Ok(accepted) => Ok(accepted),
            Err(fault) => Err(self.fail(fault)),
        }
    }

    // The same of what ended the taking of a message from a reader.
    fn fail_next(&mut self, fault: AcceptFault) -> AcceptFault
        ensures fault { result ≡ fault }
        ensures files { self.new.files ≡ self.old.files }
        ensures slots { self.new.slots ≡ self.old.slots }
        ensures learnt { self.new.learnt ≡ self.old.learnt }
        ensures up { self.old.is_up ≡ true → self.new.is_up ≡ not (accept_takes_down fault) }
    {
        self.is_up = self.is_up && !fault.takes_down();
        fault
    }

    fn settle_next(
        &mut self,
        accepted: Result<Option<Accepted>, AcceptFault>,
    ) -> Result<Option<Accepted>, AcceptFault>
        ensures accepted { result ≡ accepted }
        ensures files { self.new.files ≡ self.old.files }
        ensures slots { self.new.slots ≡ self.old.slots }
        ensures learnt { self.new.learnt ≡ self.old.learnt }
        ensures up { self.old.is_up ≡ true → self.new.is_up ≡ accept_up_after result }
    {
        match accepted {
            Ok(found) => Ok(found),
            Err(fault) => Err(self.fail_next(fault)),
        }
    }

    /// The next step of the push in this slot: the check of all its commands, the storing of what it carries, the update of
    /// one ref, or of all the refs of an atomic push at once, or its report, after which the slot is free. 111 where no push is
    /// open there.
    pub fn step(&mut self, slot: u8) -> Result<Stepped, SharedFault>
        ensures answers { F.honest → AnswersCall F.content (StepOf slot) (SteppedAs result) self.old self.new }
        ensures steps { F.honest → HoldsIn F.content self.old slot → IfOk result (StepsIn F.content self.old self.new slot) }
        ensures bad_file { F.honest → IfErr result (λ e. (e ≡ SharedFault.Node NodeFault.Down) ⊎ IsRefusedIn (F.content self.old.files) (slot_of self.old.slots slot) e) }
        ensures settles { SettlesStep (result ≡ Err (SharedFault.Node NodeFault.Down)) (up_after result) self.old self.new }
        ensures learns { F.honest → self.new.is_up ≡ true → LearnsAtStep F.content self.old self.new slot }
        ensures early { F.honest → self.old.is_up ≡ true → HoldsIn F.content self.old slot → OnErr result (EndsIn F.content self.old self.new slot) }
        ensures clean { F.honest → StaysClean (F.content self.old.files) (F.content self.new.files) }
        ensures packed { F.honest → LeavesPackedIn (F.content self.old.files) (F.content self.new.files) (slot_of self.old.slots slot) }
        ensures wear { Writes F.honest F.content F.failed F.can_fail F.left self.old.files self.new.files (TellsDevice result) }
        ensures looks { F.honest → HoldsIn F.content self.old slot → MayStep F.content self.old slot ⊎ Wears F.failed F.can_fail F.left self.old.files self.new.files (TellsDevice result) }
    {
        if !self.is_up {
            return Err(SharedFault::Node(NodeFault::Down));
        }
        match stepping::step(
            self.alloc,
            &mut self.files,
            &mut self.slots,
            slot,
            &mut self.due,
            &mut self.generations,
        ) {
            Ok(told) => Ok(told),
            Err(fault) => Err(self.fail(fault)),
        }
    }

    /// Takes the message that is all of the bytes: a list is answered by the refs, a want by a pack, and a push is opened in the
    /// lowest free slot. Refused are bytes that are no message (80 to 84, or 3), a message that a clone takes (91), a want of
    /// what no ref reaches (90), and a push where eight are open (110); nothing is changed then.
    pub fn accept(&mut self, bytes: &[u8]) -> Result<Accepted, SharedFault>
        ensures answers { F.honest → (m : Sent) → Reads bytes.now m → AnswersCall F.content (Accept m) (AcceptedAs result) self.old self.new }
        ensures unread { F.honest → (n : ℕ) → IsUnread bytes.now n → AnswersCall F.content (Asks (Unread n)) (AcceptedAs result) self.old self.new }
        ensures answered { F.honest → IfOk result (IsAnsweredBytes (F.content self.old.files) (F.content self.new.files) self.old.slots self.new.slots bytes.now) }
        ensures bad_file { F.honest → IfErr result (λ e. (e ≡ SharedFault.Node NodeFault.Down) ⊎ IsRefusedBytes (F.content self.old.files) self.old.slots bytes.now e) }
        ensures settles { SettlesTaken result (result ≡ Err (SharedFault.Node NodeFault.Down)) (up_after result) self.old self.new }
        ensures clean { F.honest → KeepsClean (F.content self.old.files) (F.content self.new.files) }
        ensures outside { F.honest → ChangesFree (F.content self.old.files) (F.content self.new.files) self.old.slots }
        ensures wear { Writes F.honest F.content F.failed F.can_fail F.left self.old.files self.new.files (TellsDevice result) }
        ensures looks { (m : Sent) → Reads bytes.now m → IsToWrite m ⊎ Wears F.failed F.can_fail F.left self.old.files self.new.files (TellsDevice result) }
    {
        if !self.is_up {
            return Err(SharedFault::Node(NodeFault::Down));
        }
        let accepted = accepting::accept(
            self.alloc,
            &mut self.files,
            &mut self.slots,
            &mut self.known,
            bytes,
        );
        self.settle(accepted)
    }

    /// Takes the next message of the reader, and no byte behind it; none where the reader is at its end before the first byte. It is
    /// answered as [`accept`](Shared::accept) answers it, however the reader cuts the bytes. The objects of a push are put into the
    /// quarantine one by one as they come, and its slot is taken once all of it has come: of the message the commands of a push are
    /// held, one line, and one object's body. Each line is asked for in two reads, so that a reader to which a read is dear should be
    /// buffered.
    ///
    /// A message that is refused (90, 91, 110, 112) is read to its end. Bytes that are no message are refused with their first fault
    /// (80 to 84, or 3) as soon as it has come, and a reader that fails with 115. In none of these is anything changed: what was put
    /// into the quarantine is gone again. Want of memory takes the node down, as a device that fails does, and as a file of its own that is
    /// gone or damaged does.
    pub fn accept_from<R: Source>(
        &mut self,
        reader: &mut R,
    ) -> Result<Option<Accepted>, AcceptFault>
        ensures accepts { AcceptsNext F.honest F.content (R.remaining reader.old) (R.remaining reader.new) self.old self.new result }
        ensures known { AnswersFirst F.honest F.content (R.remaining reader.old) (R.remaining reader.new) self.old self.new result }
        ensures none { IfOk result (λ found. IfNone found (self.new ≡ self.old)) }
        ensures lost { KeepsAtLoss R.failed R.can_fail reader.old reader.new F.honest result (KeepsNode F.content self.old self.new) }
        ensures settles { SettlesNext result self.old self.new }
        ensures clean { F.honest → KeepsClean (F.content self.old.files) (F.content self.new.files) }
        ensures outside { F.honest → ChangesFree (F.content self.old.files) (F.content self.new.files) self.old.slots }
        ensures wear { Writes F.honest F.content F.failed F.can_fail F.left self.old.files self.new.files (TellsAcceptDevice result) }
    {
        if !self.is_up {
            return refuse_down(skip_message(self.alloc, reader));
        }
        let accepted = arriving::take_next(
            self.alloc,
            &mut self.files,
            &mut self.slots,
            &mut self.known,
            reader,
        );
        self.settle_next(accepted)
    }

    /// Puts all refs into one file. Nothing else is written, no ref changes and each open push stays, wherever it stops. 33 where
    /// one of their files can't be read, 32 where one of them is a folder of another: then nothing is written. Nor is anything
    /// where no ref has a file of its own.
    pub fn pack_refs(&mut self) -> Result<(), NodeFault>
        ensures answers { F.honest → AnswersCall F.content (Asks PackRefs) (RestartedAs result) self.old self.new }
        ensures packed { F.honest → OnOk result (IsPackedFrom (F.content self.old.files) (F.content self.new.files)) }
        ensures kept { F.honest → PacksOnly (F.content self.old.files) (F.content self.new.files) }
        ensures refused { F.honest → self.old.is_up ≡ true → IfErr result (BlamesPacking (F.content self.old.files)) }
        ensures err { F.honest → IfErr result (λ e. (is_node_fault e ≡ true) ⊎ (F.content self.new.files ≡ F.content self.old.files)) }
        ensures settles { Settles (result ≡ Err NodeFault.Down) (node_up_after result) self.old self.new }
        ensures wear { Writes F.honest F.content F.failed F.can_fail F.left self.old.files self.new.files (TellsNodeDevice result) }
        ensures looks { F.honest → HasLoose (F.content self.old.files) ⊎ Wears F.failed F.can_fail F.left self.old.files self.new.files (TellsNodeDevice result) }
    {
        if !self.is_up {
            return Err(NodeFault::Down);
        }
        match vc_refs::pack(&mut self.files, self.alloc) {
            Ok(()) => Ok(()),
            Err(fault) => {
                let fault = NodeFault::from(fault);
                self.is_up = !fault.takes_down();
                Err(fault)
            }
        }
    }

    /// The object that an expression names at the node: 51 to 56 where it names none.
    pub fn resolve(&mut self, expr: &Expr<'_>) -> Result<ObjectId, SharedFault>
        ensures answers { F.honest → (text : List ℕ) → IsExpr text (expr_view expr.now) → AnswersCall F.content (Asks (Resolve text)) (FoundAs fault_answer result) self.old self.new }
        ensures value { F.honest → IfOk result (λ id. DenotesIn (F.content self.old.files) (expr_view expr.now) (Ok id)) }
        ensures bad_file { F.honest → IfErr result (λ e. (e ≡ SharedFault.Node NodeFault.Down) ⊎ IsRefusedValue (F.content self.old.files) (expr_view expr.now) e) }
        ensures settles { Settles (result ≡ Err (SharedFault.Node NodeFault.Down)) (up_after result) self.old self.new }
        ensures same { F.content self.new.files ≡ F.content self.old.files }
        ensures wear { Wears F.failed F.can_fail F.left self.old.files self.new.files (TellsDevice result) }
    {
        if !self.is_up {
            return Err(SharedFault::Node(NodeFault::Down));
        }
        match vc_repository::resolve(self.alloc, &mut self.files, expr) {
            Ok(id) => Ok(id),
            Err(fault) => {
                let fault = SharedFault::from(fault);
                Err(self.fail(fault))
            }
        }
    }
}

impl<F: Files> Shared<FusedFiles<F>> {
    ghost use Rattle.vc_files.specs.Fused.{left_after};
    ghost use Rattle.vc_files.specs.declared.fused.Fuse.TheVariants.{Unset};

    /// Sets a stop: so many more writes pass, and the next one fails and takes the node down. Where the files are stopped already
    /// they stay so.
    pub fn stop_after(&mut self, writes: u64)
        ensures files { self.new.files.files ≡ self.old.files.files }
        ensures fuse { self.new.files.fuse ≡ left_after self.old.files.fuse writes }
        ensures slots { self.new.slots ≡ self.old.slots }
        ensures learnt { self.new.learnt ≡ self.old.learnt }
        ensures up { self.new.is_up ≡ self.old.is_up }
    {
        self.files.stop_after(writes);
    }

    /// Takes a stop out, so that every write passes. A node that a stop took down stays down until its restart.
    pub fn mend(&mut self)
        ensures files { self.new.files.files ≡ self.old.files.files }
        ensures fuse { self.new.files.fuse ≡ Unset }
        ensures slots { self.new.slots ≡ self.old.slots }
        ensures learnt { self.new.learnt ≡ self.old.learnt }
        ensures up { self.new.is_up ≡ self.old.is_up }
    {
        self.files.mend();
    }
}
