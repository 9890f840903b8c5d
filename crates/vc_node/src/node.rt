// A clone.
ghost use Rattle.std.specs.Prelude.{◌≡◌, ◌≢◌, ◌⊎◌, ℕ, IsTrue, List, [], Some, Ok, Err, OnOk, OnErr, IfNone, IfOk, IfErr, is_ok, true, false, not, nat_eq, codes};
ghost use Rattle.std.specs.List.{All, starts_with};
ghost use Rattle.vc_model.specs.Clone.Task.{Write, Stage, Unstage, LoadTree, SetBranch, DeleteBranch, MoveHead};
ghost use Rattle.vc_model.specs.Clone.Awaited.{Nothing};
ghost use Rattle.vc_object.specs.Object.{object_name};
ghost use Rattle.vc_refs.specs.Packing.{IsPackedFrom};
ghost use Rattle.vc_sending.specs.Sending.{machine_items};
ghost use Rattle.vc_exchange.specs.Quarantined.{KeepsOthers};
ghost use Rattle.vc_files.specs.declared.faults.Fault.TheVariants.{Memory};
ghost use Rattle.vc_history.specs.Stored.{KeepsObjects};
ghost use Rattle.vc_tracking.specs.Storing.{KeepsBeside};
ghost use Rattle.vc_message.specs.AnyMessage.{a_report};
ghost use Rattle.vc_message.specs.AnyView.{message_text};
ghost use Rattle.vc_message.specs.Machine.{IsUnread, Reads};
ghost use Rattle.vc_model.specs.Clone.Task.{StartFetch, StartPush};
ghost use Rattle.vc_model.specs.CloneCall.CloneCall.{Asks, Command, Open, Receive};
ghost use Rattle.vc_model.specs.Message.{Message as Sent};
ghost use Rattle.vc_model.specs.Question.Question.{PackRefs, Resolve, Unread};
ghost use Rattle.vc_push.specs.ReportView.{report_text};
ghost use Rattle.vc_repository.specs.Resolving.{DenotesIn};
ghost use Rattle.vc_expression.specs.Grammar.{IsExpr};
ghost use Rattle.vc_expression.specs.Views.{expr_view};
ghost use Rattle.vc_node.specs.Arriving.{KeepsAtLoss};
ghost use Rattle.vc_node.specs.Awaited.{nothing};
ghost use Rattle.vc_node.specs.Node.{AnswersCall, AnswersCommand, AnswersCommandIfSound, AnswersFirst, AnswersStaging, AnswersText, IsFresh, KeepsNode, Looks, MayCall, MayCommand, MayCommandIfSound, MayCommit, MayStaging, MayText, PushesNoZero, ReceivesNext, Settles, SettlesMessage, SettlesNext, SettlesTaken, commit_task};
ghost use Rattle.vc_node.specs.CloneCalls.{ReceivedAs, SentAs};
ghost use Rattle.vc_node.specs.CloneFaults.{TellsDevice as CloneTellsDevice, fault_answer, of_device, takes_down as clone_takes_down, up_after as clone_up_after};
ghost use Rattle.vc_node.specs.Receipts.{IsOfMessage, IsRefusedBytes, IsRefusedMessage, IsRefusedStart, IsRefusedValue};
ghost use Rattle.vc_node.specs.ReceiveFault.{TellsDevice as ReceiveTellsDevice, UnlessFault, takes_down as receive_takes_down, up_after as receive_up_after};
ghost use Rattle.vc_quarantine.specs.Learning.{IsNothing};
ghost use Rattle.vc_push_rules.specs.Quarantine.{IsDropped};
ghost use Rattle.vc_local.specs.Emptying.{AreEmpty, IsOpened, LosesCarried};
ghost use Rattle.vc_local.specs.Blames.{BlamesLoad, BlamesOpen, BlamesPacking, BlamesWrite, IsLocalHead};
ghost use Rattle.vc_index.specs.IndexMap.{IndexMap};
ghost use Rattle.vc_local.specs.Clean.{KeepsClean, KeepsCleanBut, PacksOnly, Spares, StoresOnly};
ghost use Rattle.vc_node.specs.Stored.{SparesStored};
ghost use Rattle.vc_local.specs.Commit.{IsCommitted};
ghost use Rattle.vc_local.specs.IndexFile.{BlamesIndex, SpellsIndex};
ghost use Rattle.vc_local.specs.Making.{EndsCommit};
ghost use Rattle.vc_rules.specs.Git.{machine_object, mode_number};
ghost use Rattle.vc_local.specs.Machine.{HoldsNode, machine_head, made_answer, done_answer, up_after};
ghost use Rattle.vc_files.specs.Failures.{Wears, Writes};
ghost use Rattle.vc_local.specs.NodeFault.{is_fault, IsOfDevice, TellsDevice, takes_down};
ghost use Rattle.vc_local.specs.Opening.{OpenableAs, opened_node};
ghost use Rattle.vc_local.specs.Reads.{IsAtHead, IsAtName, IsBelow, IsItsFile, IsOfCommit, IsReached, IsReachedByHead, NoneRead, TellsRead};
ghost use Rattle.vc_local.specs.Shown.{IsLoaded, shown};
ghost use Rattle.vc_local.specs.Staging.{BlamesStaging, places};
ghost use Rattle.vc_local.specs.Told.{FoundAs, RestartedAs};

mod cleaning;

use crate::arriving::refuse_down;
use crate::awaited::Awaited;
use crate::{CloneFault, ReceiveFault, Received, arriving, exchanging};
use std::alloc::Global;
use std::marker::Model;
use vc_expression::Expr;
use vc_files::{Files, FusedFiles};
use vc_history::Generations;
use vc_index::Index;
use vc_known::Known;
use vc_local::{NodeFault, Staged, Words, open_files, read_index};
use vc_message::{Message, Source, skip_message};
use vc_object::{Kind, Mode, ObjectId};
use vc_push::Report;
use vc_refname::RefName;
use vc_refs::Head;
use vc_sending::{PushItem, list_message, push_message};

/// A clone over files: objects, refs, HEAD and an index. Once a call has ended in a fault, or has met a file of the clone's own that is
/// gone or damaged (11, 12, 33), each later one but [`close`](CloneNode::close) is refused (112), until the files are opened again. After a push it keeps in memory the names of what
/// its tracking refs reach, some 20 to 50 bytes for each, so that the next push reads what is new alone. It keeps the generations of
/// commits that it has learnt, some 30 bytes for each: those of the values that refs were set to by a message, and of all below them,
/// which it learns before the next message is judged, so that a judgement stops at them. The index that was read at
/// the opening is kept in memory until the first call that reads or writes files: a [`commit`](CloneNode::commit) takes it, and any
/// other drops it.
#[derive(Drop)]
pub struct CloneNode<F: Files> {
    files: F,
    alloc: Global,
    awaited: Awaited,
    is_up: bool,
    // What the tracking refs reached at pushes. No call but a prune takes an object away, and that one forgets it.
    known: Known,
    // The index as the opening has read it, if no call has used the files since.
    index: Option<Index>,
    // What is known of the generations of commits. No call but a prune takes an object away, so it stands until then, or until the files
    // are opened again.
    generations: Generations,
    // The commits whose histories are learnt before a message is judged.
    due: Vec<ObjectId>,
}

impl<F: Files> Model for CloneNode<F> {
    ghost use Rattle.std.specs.Coded.{codes};
    ghost use Rattle.std.specs.Prelude.{IfSome};
    ghost use Rattle.vc_history.specs.Stored.{AgreesIn};
    ghost use Rattle.vc_history.specs.contracts.generations.Generations as of_generations;
    ghost use Rattle.vc_known.specs.Known.{Agrees};
    ghost use Rattle.vc_object_map.specs.Store.{objects};
    ghost use Rattle.vc_quarantine.specs.Learning.{learnt_in};
    ghost use Rattle.vc_node.specs.Awaited.{awaited_text};
    ghost use Rattle.vc_node.specs.Held.{Held};
    ghost use Rattle.vc_local.specs.IndexFile.{SpellsIndex};

    ghost Value = { Held F };

    ghost coded = { Prim.hlevel (codes, of_generations.the_row.coded) };

    ghost view = { λ s. record { files = s.files; awaited = awaited_text s.awaited; is_up = s.is_up; learnt = learnt_in s.generations s.due } };

    ghost invariant = { λ s. F.honest → (Agrees (objects (F.content s.files)) s.known × AgreesIn (F.content s.files) s.generations) × IfSome s.index (SpellsIndex (F.content s.files)) };
}

impl<F: Files> CloneNode<F> {
    /// The clone that the files hold, with nothing awaited and nothing in quarantine. In a new one HEAD names the branch `main`, and
    /// the index has no files. If the files are none of a clone's (33 and 34: HEAD, 62: the index), or a fault comes, they are
    /// handed back, and what stood in quarantine may be gone.
    pub fn open(alloc: Global, mut files: F) -> Result<CloneNode<F>, (F, NodeFault)>
        ensures opened { F.honest → IfOk result (λ node. IsOpened (F.content files) (F.content node.files)) }
        ensures fresh { IfOk result IsFresh }
        ensures opens { F.honest → OpenableAs (F.content files) (λ r. IfOk result (λ node. HoldsNode (F.content node.files) true Nothing (opened_node r))) }
        ensures only { F.honest → OpenableAs (F.content files) (λ r. IfErr result (λ e. IsTrue (is_fault e.1))) }
        ensures refused { F.honest → IfErr result (λ e. BlamesOpen (F.content files) e.1) }
        ensures err { F.honest → IfErr result (λ e. LosesCarried (F.content files) (F.content e.0)) }
        ensures clean { F.honest → IfOk result (λ node. KeepsClean (F.content files) (F.content node.files)) }
        ensures wear { IfOk result (λ node. Writes F.honest F.content F.failed F.can_fail F.left files node.files ⊥) }
        ensures wear_err { IfErr result (λ e. Writes F.honest F.content F.failed F.can_fail F.left files e.0 (IsOfDevice e.1)) }
    {
        match open_files(alloc, &mut files) {
            Ok(index) => Ok(CloneNode {
                files,
                alloc,
                awaited: Awaited::Nothing,
                is_up: true,
                known: Known::new(alloc),
                index: Some(index),
                generations: Generations::new(alloc),
                due: Vec::new(alloc),
            }),
            Err(fault) => Err((files, fault)),
        }
    }

    /// The files, whatever state the node is in.
    pub fn close(self) -> F
        ensures { result ≡ self.files }
    {
        let CloneNode {
            files,
            alloc: _,
            awaited: _,
            is_up: _,
            known: _,
            index: _,
            generations: _,
            due: _,
        } = self;
        files
    }

    /// Whether neither a fault nor a bad file of its own has taken it down since the files were opened.
    pub fn is_up(&self) -> bool
        ensures { result ≡ self.now.is_up }
    {
        self.is_up
    }

    /// Opens the files again, in place: the node is up then, whatever it was before, nothing is awaited, and nothing is in quarantine.
    /// If that fails (see [`open`](CloneNode::open)) it is down, and the files are as they were but for the quarantine.
    pub fn restart(&mut self) -> Result<(), NodeFault>
        ensures answers { F.honest → AnswersCall F.content Open (RestartedAs result) self.old self.new }
        ensures refused { F.honest → IfErr result (BlamesOpen (F.content self.old.files)) }
        ensures err { F.honest → OnErr result (LosesCarried (F.content self.old.files) (F.content self.new.files)) }
        ensures empty { F.honest → OnOk result (AreEmpty (F.content self.new.files)) }
        ensures up { self.new.is_up ≡ is_ok result }
        ensures fresh { (self.new.awaited ≡ nothing) × IsNothing self.new.learnt }
        ensures clean { F.honest → KeepsClean (F.content self.old.files) (F.content self.new.files) }
        ensures wear { Writes F.honest F.content F.failed F.can_fail F.left self.old.files self.new.files (TellsDevice result) }
    {
        self.awaited = Awaited::Nothing;
        self.known = Known::new(self.alloc);
        self.index = None;
        self.generations = Generations::new(self.alloc);
        self.due = Vec::new(self.alloc);
        self.is_up = false;
        match open_files(self.alloc, &mut self.files) {
            Ok(index) => {
                self.index = Some(index);
                self.is_up = true;
                Ok(())
            }
            Err(fault) => Err(fault),
        }
    }

    /// Takes the node down, as a fault of its own does: for whoever runs out of memory between two of its calls.
    pub fn take_down(&mut self)
        ensures files { self.new.files ≡ self.old.files }
        ensures awaits { self.new.awaited ≡ self.old.awaited }
        ensures learnt { self.new.learnt ≡ self.old.learnt }
        ensures up { self.new.is_up ≡ false }
    {
        self.is_up = false;
    }

    // The fault, after which the node is down if it takes it down.
    fn fail(&mut self, fault: NodeFault) -> NodeFault
        ensures fault { result ≡ fault }
        ensures files { self.new.files ≡ self.old.files }
        ensures awaits { self.new.awaited ≡ self.old.awaited }
        ensures learnt { self.new.learnt ≡ self.old.learnt }
        ensures up { self.old.is_up ≡ true → self.new.is_up ≡ not (takes_down fault) }
    {
        if fault.takes_down() {
            self.is_up = false;
        }
        fault
    }

    /// Stores an object, and answers its name. One that is there stays as it is.
    pub fn write(&mut self, kind: Kind, body: &[u8]) -> Result<ObjectId, NodeFault>
        ensures answers { F.honest → AnswersCommand F.content (Write (machine_object kind body.now)) made_answer result self.old self.new }
        ensures name { IfOk result (λ id. id ≡ object_name kind body.now) }
        ensures refused { F.honest → self.old.is_up ≡ true → IfErr result (BlamesWrite (F.content self.old.files) kind body.now) }
        ensures settles { Settles (result ≡ Err NodeFault.Down) (up_after result) self.old self.new }
        ensures kept { F.honest → StoresOnly kind body.now result (F.content self.old.files) (F.content self.new.files) }
        ensures file { IfErr result (TellsRead (λ id. id ≡ object_name kind body.now) NoneRead) }
        ensures wear { Writes F.honest F.content F.failed F.can_fail F.left self.old.files self.new.files (TellsDevice result) }
        ensures looks { F.honest → MayCommand F.content (Write (machine_object kind body.now)) self.old (Looks F.failed F.can_fail F.left self.old self.new result) }
    {
        if !self.is_up {
            return Err(NodeFault::Down);
        }
        self.index = None;
        match vc_local::write(self.alloc, &mut self.files, kind, body) {
            Ok(id) => Ok(id),
            Err(fault) => Err(self.fail(fault)),
        }
    }

    /// Takes a path away from the index. If nothing stands there, nothing changes.
    pub fn unstage(&mut self, path: &[u8]) -> Result<(), NodeFault>
        ensures answers { F.honest → AnswersCommand F.content (Unstage path.now) done_answer result self.old self.new }
        ensures settles { Settles (result ≡ Err NodeFault.Down) (up_after result) self.old self.new }
        ensures kept { F.honest → Spares result (F.content self.old.files) (F.content self.new.files) }
        ensures file { IfErr result (TellsRead NoneRead NoneRead) }
        ensures wear { Writes F.honest F.content F.failed F.can_fail F.left self.old.files self.new.files (TellsDevice result) }
        ensures looks { F.honest → MayCommand F.content (Unstage path.now) self.old (Looks F.failed F.can_fail F.left self.old self.new result) }
    {
        if !self.is_up {
            return Err(NodeFault::Down);
        }
        // What is kept is the index as it was before.
        self.index = None;
        match vc_local::unstage(self.alloc, &mut self.files, path) {
            Ok(()) => Ok(()),
            Err(fault) => Err(self.fail(fault)),
        }
    }

    /// Stores the blob of a file or a link, and puts the file into the index. A path that may not stand there (60) is
    /// refused before one that conflicts with a file of the index (61), and that before a body that is too large (3).
    pub fn add(&mut self, path: &[u8], mode: Mode, bytes: &[u8]) -> Result<(), NodeFault>
        requires { mode ≢ Mode.Tree }
        ensures answers { F.honest → AnswersCommand F.content (Stage path.now (mode_number mode) bytes.now) done_answer result self.old self.new }
        ensures settles { Settles (result ≡ Err NodeFault.Down) (up_after result) self.old self.new }
        ensures clean { F.honest → KeepsClean (F.content self.old.files) (F.content self.new.files) }
        ensures file { IfErr result (TellsRead (λ id. id ≡ object_name Kind.Blob bytes.now) NoneRead) }
        ensures wear { Writes F.honest F.content F.failed F.can_fail F.left self.old.files self.new.files (TellsDevice result) }
        ensures looks { F.honest → MayCommand F.content (Stage path.now (mode_number mode) bytes.now) self.old (Looks F.failed F.can_fail F.left self.old self.new result) }
    {
        if !self.is_up {
            return Err(NodeFault::Down);
        }
        self.index = None;
        match vc_local::add(self.alloc, &mut self.files, path, mode, bytes) {
            Ok(()) => Ok(()),
            Err(fault) => Err(self.fail(fault)),
        }
    }

    /// Puts files into the index, in their order, whose blobs are stored already. Of the first file at fault, a path that may
    /// not stand there (60) is refused before one that conflicts with a file of the index as the files before it have made it
    /// (61), and nothing is changed then. The index is read and written once; with no files neither is done.
    pub fn stage_all(&mut self, files: &[Staged]) -> Result<(), NodeFault>
        requires { All (λ file. file.mode ≢ Mode.Tree) files.now }
        ensures answers { F.honest → AnswersStaging F.content files.now result self.old self.new }
        ensures refused { F.honest → self.old.is_up ≡ true → (m : IndexMap) → SpellsIndex (F.content self.old.files) m → IfErr result (BlamesStaging m (places files.now)) }
        ensures none { self.old.is_up ≡ true → files.now ≡ [] → (result ≡ Ok tt) × (self.new.files ≡ self.old.files) }
        ensures settles { Settles (result ≡ Err NodeFault.Down) (up_after result) self.old self.new }
        ensures kept { F.honest → SparesStored result (F.content self.old.files) (F.content self.new.files) }
        ensures file { IfErr result (TellsRead NoneRead NoneRead) }
        ensures wear { Writes F.honest F.content F.failed F.can_fail F.left self.old.files self.new.files (TellsDevice result) }
        ensures looks { F.honest → MayStaging F.content files.now self.old (Looks F.failed F.can_fail F.left self.old self.new result) }
    {
        if !self.is_up {
            return Err(NodeFault::Down);
        }
        self.index = None;
        match vc_local::stage_all(self.alloc, &mut self.files, files) {
            Ok(()) => Ok(()),
            Err(fault) => Err(self.fail(fault)),
        }
    }

    /// The index, which a file that spells none (62) refuses.
    pub fn index(&mut self) -> Result<Index, NodeFault>
        ensures spelled { F.honest → IfOk result (SpellsIndex (F.content self.old.files)) }
        ensures again { F.honest → (m : IndexMap) → SpellsIndex (F.content self.old.files) m → IfOk result (λ index. index ≡ m) }
        ensures refused { F.honest → self.old.is_up ≡ true → IfErr result (BlamesIndex (F.content self.old.files)) }
        ensures settles { Settles (result ≡ Err NodeFault.Down) (up_after result) self.old self.new }
        ensures same { F.content self.new.files ≡ F.content self.old.files }
        ensures file { IfErr result (TellsRead NoneRead NoneRead) }
        ensures wear { Wears F.failed F.can_fail F.left self.old.files self.new.files (TellsDevice result) }
    {
        if !self.is_up {
            return Err(NodeFault::Down);
        }
        self.index = None;
        match read_index(self.alloc, &mut self.files) {
            Ok(index) => Ok(index),
            Err(fault) => Err(self.fail(fault)),
        }
    }

    /// Removes a branch. If there is none, nothing changes.
    pub fn delete_branch(&mut self, branch: &RefName) -> Result<(), NodeFault>
        requires { starts_with nat_eq branch.now (codes "refs/heads/") ≡ true }
        ensures answers { F.honest → AnswersCommand F.content (DeleteBranch branch.now) done_answer result self.old self.new }
        ensures settles { Settles (result ≡ Err NodeFault.Down) (up_after result) self.old self.new }
        ensures err { F.honest → OnErr result (shown (F.content self.new.files) ≡ shown (F.content self.old.files)) }
        ensures clean { F.honest → KeepsCleanBut branch.now (F.content self.old.files) (F.content self.new.files) }
        ensures file { F.honest → IfErr result (TellsRead NoneRead (IsItsFile branch.now)) }
        ensures wear { Writes F.honest F.content F.failed F.can_fail F.left self.old.files self.new.files (TellsDevice result) }
        ensures looks { F.honest → MayCommand F.content (DeleteBranch branch.now) self.old (Looks F.failed F.can_fail F.left self.old self.new result) }
    {
        if !self.is_up {
            return Err(NodeFault::Down);
        }
        self.index = None;
        match vc_local::remove_ref(self.alloc, &mut self.files, branch) {
            Ok(()) => Ok(()),
            Err(fault) => Err(self.fail(fault)),
        }
    }

    /// Sets a branch to a commit, whatever it was: 32 if its name conflicts with a ref; then 40 if not all is
    /// there that the commit reaches, and 41 if it is no commit, or one along its parent links isn't. That all is there
    /// that refs reach, and that branches lead to commits alone, is taken from the refs, as it is so at a sound clone.
    pub fn set_branch(&mut self, branch: &RefName, id: &ObjectId) -> Result<(), NodeFault>
        requires { starts_with nat_eq branch.now (codes "refs/heads/") ≡ true }
        ensures answers { F.honest → AnswersCommandIfSound F.content (SetBranch branch.now id.now.0) done_answer result self.old self.new }
        ensures settles { Settles (result ≡ Err NodeFault.Down) (up_after result) self.old self.new }
        ensures kept { F.honest → Spares result (F.content self.old.files) (F.content self.new.files) }
        ensures file { F.honest → IfErr result (TellsRead (IsReached (F.content self.old.files) id.now) (IsAtName (F.content self.old.files) branch.now)) }
        ensures wear { Writes F.honest F.content F.failed F.can_fail F.left self.old.files self.new.files (TellsDevice result) }
        ensures looks { F.honest → MayCommandIfSound F.content (SetBranch branch.now id.now.0) self.old (Looks F.failed F.can_fail F.left self.old self.new result) }
    {
        if !self.is_up {
            return Err(NodeFault::Down);
        }
        self.index = None;
        match vc_local::set_branch(self.alloc, &mut self.files, branch, id) {
            Ok(()) => Ok(()),
            Err(fault) => Err(self.fail(fault)),
        }
    }

    /// Makes HEAD a branch, which need not be there, or the id of a commit, which is looked at as in
    /// [`set_branch`](CloneNode::set_branch).
    pub fn set_head(&mut self, head: &Head) -> Result<(), NodeFault>
        requires { IsLocalHead head.now }
        ensures answers { F.honest → AnswersCommandIfSound F.content (MoveHead (machine_head head.now)) done_answer result self.old self.new }
        ensures settles { Settles (result ≡ Err NodeFault.Down) (up_after result) self.old self.new }
        ensures kept { F.honest → Spares result (F.content self.old.files) (F.content self.new.files) }
        ensures file { F.honest → IfErr result (TellsRead (IsReachedByHead (F.content self.old.files) head.now) NoneRead) }
        ensures wear { Writes F.honest F.content F.failed F.can_fail F.left self.old.files self.new.files (TellsDevice result) }
        ensures looks { F.honest → MayCommandIfSound F.content (MoveHead (machine_head head.now)) self.old (Looks F.failed F.can_fail F.left self.old self.new result) }
    {
        if !self.is_up {
            return Err(NodeFault::Down);
        }
        self.index = None;
        match vc_local::set_head(self.alloc, &mut self.files, head) {
            Ok(()) => Ok(()),
            Err(fault) => Err(self.fail(fault)),
        }
    }

    /// Makes the index that of a tree's files: 60 if a path is too long, 63 if an entry leads to an object of
    /// another kind than its mode says, and 40 if it leads to none, as the tree is read in the order of its paths.
    pub fn load_tree(&mut self, id: &ObjectId) -> Result<(), NodeFault>
        ensures loaded { F.honest → OnOk result (IsLoaded (F.content self.old.files) id.now (F.content self.new.files)) }
        ensures answers { F.honest → AnswersCommand F.content (LoadTree id.now.0) done_answer result self.old self.new }
        ensures refused { F.honest → IfErr result (λ e. (e ≡ NodeFault.Down) ⊎ BlamesLoad (F.content self.old.files) id.now e) }
        ensures settles { Settles (result ≡ Err NodeFault.Down) (up_after result) self.old self.new }
        ensures kept { F.honest → Spares result (F.content self.old.files) (F.content self.new.files) }
        ensures file { F.honest → IfErr result (TellsRead (IsBelow (F.content self.old.files) id.now) NoneRead) }
        ensures wear { Writes F.honest F.content F.failed F.can_fail F.left self.old.files self.new.files (TellsDevice result) }
        ensures looks { F.honest → MayCommand F.content (LoadTree id.now.0) self.old (Looks F.failed F.can_fail F.left self.old self.new result) }
    {
        if !self.is_up {
            return Err(NodeFault::Down);
        }
        self.index = None;
        match vc_local::load_tree(self.alloc, &mut self.files, id) {
            Ok(()) => Ok(()),
            Err(fault) => Err(self.fail(fault)),
        }
    }

    /// Commits the index, and answers the name of the commit: its tree is the index's, its parents are HEAD's commit, if
    /// there is one, and then the extra ones, and after an empty line come the message and LF. HEAD's branch, or a
    /// detached HEAD, is moved to it. Refused, in this order, are an author or a committer of more than one line (8), a
    /// HEAD whose branch conflicts with a ref (32), an extra parent of which not all is there (40) or that is no commit
    /// (41), as in [`set_branch`](CloneNode::set_branch), and a commit or a tree that is too large (3). One that changes no
    /// file is allowed.
    pub fn commit(
        &mut self,
        extra_parents: &[ObjectId],
        author: &[u8],
        committer: &[u8],
        message: &[u8],
    ) -> Result<ObjectId, NodeFault>
        ensures answers { F.honest → AnswersCommandIfSound F.content (commit_task extra_parents.now author.now committer.now message.now) made_answer result self.old self.new }
        ensures committed { F.honest → IfOk result (λ id. IsCommitted (F.content self.old.files) extra_parents.now author.now committer.now message.now id (F.content self.new.files)) }
        ensures settles { Settles (result ≡ Err NodeFault.Down) (up_after result) self.old self.new }
        ensures left { F.honest → IfErr result (EndsCommit self.old.is_up (F.content self.old.files) extra_parents.now author.now committer.now message.now (F.content self.new.files)) }
        ensures clean { F.honest → KeepsClean (F.content self.old.files) (F.content self.new.files) }
        ensures file { F.honest → IfErr result (TellsRead (IsOfCommit (F.content self.old.files) extra_parents.now author.now committer.now message.now) (IsAtHead (F.content self.old.files))) }
        ensures wear { Writes F.honest F.content F.failed F.can_fail F.left self.old.files self.new.files (TellsDevice result) }
        ensures looks { F.honest → MayCommit F.content extra_parents.now author.now committer.now message.now self.old (Looks F.failed F.can_fail F.left self.old self.new result) }
    {
        if !self.is_up {
            return Err(NodeFault::Down);
        }
        let words = Words {
            author,
            committer,
            message,
        };
        let kept = self.index.take();
        match vc_local::commit(self.alloc, &mut self.files, kept, extra_parents, words) {
            Ok(id) => Ok(id),
            Err(refusal) => Err(self.fail(refusal)),
        }
    }

    // The same of an exchange's fault.
    fn fail_exchange(&mut self, fault: CloneFault) -> CloneFault
        ensures fault { result ≡ fault }
        ensures files { self.new.files ≡ self.old.files }
        ensures awaits { self.new.awaited ≡ self.old.awaited }
        ensures learnt { self.new.learnt ≡ self.old.learnt }
        ensures up { self.old.is_up ≡ true → self.new.is_up ≡ not (clone_takes_down fault) }
    {
        self.is_up &= !fault.takes_down();
        fault
    }

    // What came of a message, after which the node is down if that takes it down.
    fn settle(&mut self, received: Result<Received, CloneFault>) -> Result<Received, CloneFault>
        ensures received { result ≡ received }
        ensures files { self.new.files ≡ self.old.files }
        ensures awaits { self.new.awaited ≡ self.old.awaited }
        ensures learnt { self.new.learnt ≡ self.old.learnt }
        ensures up { self.old.is_up ≡ true → self.new.is_up ≡ clone_up_after result }
    {
        match received {
            Ok(received) => Ok(received),
            Err(fault) => Err(self.fail_exchange(fault)),
        }
    }

    /// The message that asks the shared node for its refs. They are awaited then, and what was awaited before is forgotten.
    pub fn start_fetch(&mut self) -> Result<Vec<u8>, CloneFault>
        ensures answers { F.honest → AnswersCall F.content (Command StartFetch) (SentAs result) self.old self.new }
        ensures settles { SettlesTaken result (result ≡ Err (CloneFault.Node NodeFault.Down)) (clone_up_after result) self.old self.new }
        ensures refused { IfErr result (λ e. (e ≡ CloneFault.Node NodeFault.Down) ⊎ (e ≡ of_device Memory)) }
        ensures same { self.new.files ≡ self.old.files }
    {
        if !self.is_up {
            return Err(CloneFault::Node(NodeFault::Down));
        }
        match list_message(self.alloc) {
            Ok(bytes) => {
                self.awaited = Awaited::Advert;
                Ok(bytes)
            }
            Err(fault) => {
                let fault = CloneFault::from(fault);
                Err(self.fail_exchange(fault))
            }
        }
    }

    // The message that asks the shared node to change refs, all of them or none if it is atomic.
    fn send_push(&mut self, atomic: bool, items: &[PushItem]) -> Result<Vec<u8>, CloneFault>
        requires some { items.now ≢ [] }
        ensures answers { F.honest → PushesNoZero items.now → AnswersCall F.content (Command (StartPush atomic (machine_items items.now))) (SentAs result) self.old self.new }
        ensures bad_file { F.honest → IfErr result (λ e. (e ≡ CloneFault.Node NodeFault.Down) ⊎ IsRefusedStart (F.content self.old.files) items.now e) }
        ensures settles { Settles (result ≡ Err (CloneFault.Node NodeFault.Down)) (clone_up_after result) self.old self.new }
        ensures same { F.content self.new.files ≡ F.content self.old.files }
        ensures wear { Wears F.failed F.can_fail F.left self.old.files self.new.files (CloneTellsDevice result) }
    {
        if !self.is_up {
            return Err(CloneFault::Node(NodeFault::Down));
        }
        self.index = None;
        match push_message(self.alloc, &mut self.files, &mut self.known, atomic, items) {
            Ok(bytes) => Ok(bytes),
            Err(fault) => {
                let fault = CloneFault::from(fault);
                Err(self.fail_exchange(fault))
            }
        }
    }

    /// The message that asks the shared node to change refs: see [`push_message`](vc_sending::push_message). There is at least one
    /// item. More than 256 are refused (84), and then the first id of which not all is there (40). What is awaited stays awaited.
    pub fn start_push(&mut self, items: &[PushItem]) -> Result<Vec<u8>, CloneFault>
        requires some { items.now ≢ [] }
        ensures answers { F.honest → PushesNoZero items.now → AnswersCall F.content (Command (StartPush false (machine_items items.now))) (SentAs result) self.old self.new }
        ensures bad_file { F.honest → IfErr result (λ e. (e ≡ CloneFault.Node NodeFault.Down) ⊎ IsRefusedStart (F.content self.old.files) items.now e) }
        ensures settles { Settles (result ≡ Err (CloneFault.Node NodeFault.Down)) (clone_up_after result) self.old self.new }
        ensures same { F.content self.new.files ≡ F.content self.old.files }
        ensures wear { Wears F.failed F.can_fail F.left self.old.files self.new.files (CloneTellsDevice result) }
    {
        self.send_push(false, items)
    }

    /// The message of an atomic push: all its refs are to be set, or none. In all else it is as [`start_push`](CloneNode::start_push).
    pub fn start_push_atomic(&mut self, items: &[PushItem]) -> Result<Vec<u8>, CloneFault>
        requires some { items.now ≢ [] }
        ensures answers { F.honest → PushesNoZero items.now → AnswersCall F.content (Command (StartPush true (machine_items items.now))) (SentAs result) self.old self.new }
        ensures bad_file { F.honest → IfErr result (λ e. (e ≡ CloneFault.Node NodeFault.Down) ⊎ IsRefusedStart (F.content self.old.files) items.now e) }
        ensures settles { Settles (result ≡ Err (CloneFault.Node NodeFault.Down)) (clone_up_after result) self.old self.new }
        ensures same { F.content self.new.files ≡ F.content self.old.files }
        ensures wear { Wears F.failed F.can_fail F.left self.old.files self.new.files (CloneTellsDevice result) }
    {
        self.send_push(true, items)
    }

    /// Takes the message from the shared node that is all of the bytes: its refs and a pack if they are awaited, and the report on
    /// a push at any time. Refused are bytes that are no message (80 to 84, or 3), a message that isn't awaited (91), and a pack with
    /// which not all is there that was asked for (92); nothing is changed then, and what was awaited stays so. What was taken is
    /// awaited no longer; if ids are asked for, their pack is awaited.
    pub fn receive(&mut self, bytes: &[u8]) -> Result<Received, CloneFault>
        ensures answers { F.honest → (m : Sent) → Reads bytes.now m → AnswersCall F.content (Receive m) (ReceivedAs result) self.old self.new }
        ensures unread { F.honest → (n : ℕ) → IsUnread bytes.now n → AnswersCall F.content (Asks (Unread n)) (ReceivedAs result) self.old self.new }
        ensures bad_file { F.honest → IfErr result (λ e. (e ≡ CloneFault.Node NodeFault.Down) ⊎ IsRefusedBytes (F.content self.old.files) self.old.awaited bytes.now e) }
        ensures err { F.honest → IfErr result (λ e. IsOfMessage e → F.content self.new.files ≡ F.content self.old.files) }
        ensures settles { SettlesMessage F.honest F.content result self.old self.new }
        ensures clean { F.honest → KeepsClean (F.content self.old.files) (F.content self.new.files) }
        ensures objects { F.honest → KeepsObjects (F.content self.old.files) (F.content self.new.files) }
        ensures beside { F.honest → KeepsBeside (F.content self.old.files) (F.content self.new.files) }
        ensures wear { Writes F.honest F.content F.failed F.can_fail F.left self.old.files self.new.files (CloneTellsDevice result) }
        ensures looks { F.honest → (m : Sent) → Reads bytes.now m → MayCall F.content (Receive m) self.old (Wears F.failed F.can_fail F.left self.old.files self.new.files (CloneTellsDevice result)) }
    {
        if !self.is_up {
            return Err(CloneFault::Node(NodeFault::Down));
        }
        self.index = None;
        let received = exchanging::receive(
            self.alloc,
            &mut self.files,
            &mut self.awaited,
            &mut self.due,
            &mut self.generations,
            bytes,
        );
        self.settle(received)
    }

    // The fault, after which the node is down if it takes it down.
    fn fail_next(&mut self, fault: ReceiveFault) -> ReceiveFault
        ensures fault { result ≡ fault }
        ensures files { self.new.files ≡ self.old.files }
        ensures awaits { self.new.awaited ≡ self.old.awaited }
        ensures learnt { self.new.learnt ≡ self.old.learnt }
        ensures up { self.old.is_up ≡ true → self.new.is_up ≡ not (receive_takes_down fault) }
    {
        self.is_up = self.is_up && !fault.takes_down();
        fault
    }

    // What came of the reader, after which the node is down if that takes it down.
    fn settle_next(
        &mut self,
        received: Result<Option<Received>, ReceiveFault>,
    ) -> Result<Option<Received>, ReceiveFault>
        ensures received { result ≡ received }
        ensures files { self.new.files ≡ self.old.files }
        ensures awaits { self.new.awaited ≡ self.old.awaited }
        ensures learnt { self.new.learnt ≡ self.old.learnt }
        ensures up { self.old.is_up ≡ true → self.new.is_up ≡ receive_up_after result }
    {
        match received {
            Ok(found) => Ok(found),
            Err(fault) => Err(self.fail_next(fault)),
        }
    }

    /// Takes the next message from a reader, and no byte after it, as [`receive`](CloneNode::receive) takes its bytes; none if the
    /// reader is at its end before the first byte. The objects of a pack that is awaited go into the quarantine as they come, and are
    /// judged there, so that one line and one body are held at a time.
    ///
    /// A message that isn't awaited (91) is read to its end. Bytes that are no message are refused with their first fault (80 to 84, or 3)
    /// as soon as it has come, and a reader that fails with 115. In none of these is anything changed, nor is it if not all is there
    /// that was asked for (92): what was put into the quarantine is gone again. A node that is down refuses a message and bytes that are
    /// none (112), and takes as much of the reader. Want of memory takes the node down, as a device that fails does, and as a file of its own
    /// that is gone or damaged does.
    pub fn receive_from<R: Source>(
        &mut self,
        reader: &mut R,
    ) -> Result<Option<Received>, ReceiveFault>
        ensures receives { ReceivesNext F.honest F.content (R.remaining reader.old) (R.remaining reader.new) self.old self.new result }
        ensures known { AnswersFirst F.honest F.content (R.remaining reader.old) (R.remaining reader.new) self.old self.new result }
        ensures none { IfOk result (λ found. IfNone found (self.new ≡ self.old)) }
        ensures lost { KeepsAtLoss R.failed R.can_fail reader.old reader.new F.honest result (KeepsNode F.content self.old self.new) }
        ensures cleared { F.honest → UnlessFault result (IsDropped 0 (F.content self.old.files) → IsDropped 0 (F.content self.new.files)) }
        ensures settles { SettlesNext F.honest F.content result self.old self.new }
        ensures clean { F.honest → KeepsClean (F.content self.old.files) (F.content self.new.files) }
        ensures objects { F.honest → KeepsObjects (F.content self.old.files) (F.content self.new.files) }
        ensures beside { F.honest → KeepsOthers (F.content self.old.files) (F.content self.new.files) }
        ensures wear { Writes F.honest F.content F.failed F.can_fail F.left self.old.files self.new.files (ReceiveTellsDevice result) }
    {
        if !self.is_up {
            return refuse_down(skip_message(self.alloc, reader));
        }
        self.index = None;
        let received = arriving::take_next(
            self.alloc,
            &mut self.files,
            &mut self.awaited,
            &mut self.due,
            &mut self.generations,
            reader,
        );
        self.settle_next(received)
    }

    /// The same of a message that was read already.
    pub fn receive_message(&mut self, message: Message) -> Result<Received, CloneFault>
        ensures answers { F.honest → AnswersText F.content (message_text message) result self.old self.new }
        ensures bad_file { F.honest → IfErr result (λ e. (e ≡ CloneFault.Node NodeFault.Down) ⊎ IsRefusedMessage (F.content self.old.files) self.old.awaited (message_text message) e) }
        ensures err { F.honest → IfErr result (λ e. IsOfMessage e → F.content self.new.files ≡ F.content self.old.files) }
        ensures settles { SettlesMessage F.honest F.content result self.old self.new }
        ensures clean { F.honest → KeepsClean (F.content self.old.files) (F.content self.new.files) }
        ensures objects { F.honest → KeepsObjects (F.content self.old.files) (F.content self.new.files) }
        ensures beside { F.honest → KeepsBeside (F.content self.old.files) (F.content self.new.files) }
        ensures wear { Writes F.honest F.content F.failed F.can_fail F.left self.old.files self.new.files (CloneTellsDevice result) }
        ensures looks { F.honest → MayText F.content (message_text message) self.old (Wears F.failed F.can_fail F.left self.old.files self.new.files (CloneTellsDevice result)) }
    {
        if !self.is_up {
            return Err(CloneFault::Node(NodeFault::Down));
        }
        self.index = None;
        let received = exchanging::take(
            self.alloc,
            &mut self.files,
            &mut self.awaited,
            &mut self.due,
            &mut self.generations,
            message,
        );
        self.settle(received)
    }

    /// The same of a report that was read already, which stays the caller's.
    pub fn receive_report(&mut self, report: &Report) -> Result<Received, CloneFault>
        ensures answers { F.honest → AnswersText F.content (a_report (report_text report.now)) result self.old self.new }
        ensures bad_file { F.honest → IfErr result (λ e. (e ≡ CloneFault.Node NodeFault.Down) ⊎ IsRefusedMessage (F.content self.old.files) self.old.awaited (a_report (report_text report.now)) e) }
        ensures err { F.honest → IfErr result (λ e. IsOfMessage e → F.content self.new.files ≡ F.content self.old.files) }
        ensures settles { SettlesMessage F.honest F.content result self.old self.new }
        ensures clean { F.honest → KeepsClean (F.content self.old.files) (F.content self.new.files) }
        ensures objects { F.honest → KeepsObjects (F.content self.old.files) (F.content self.new.files) }
        ensures beside { F.honest → KeepsBeside (F.content self.old.files) (F.content self.new.files) }
        ensures wear { Writes F.honest F.content F.failed F.can_fail F.left self.old.files self.new.files (CloneTellsDevice result) }
        ensures looks { F.honest → MayText F.content (a_report (report_text report.now)) self.old (Wears F.failed F.can_fail F.left self.old.files self.new.files (CloneTellsDevice result)) }
    {
        if !self.is_up {
            return Err(CloneFault::Node(NodeFault::Down));
        }
        self.index = None;
        let received = exchanging::take_report(
            self.alloc,
            &mut self.files,
            &mut self.awaited,
            &mut self.due,
            &mut self.generations,
            report,
        );
        self.settle(received)
    }

    /// Puts all refs into one file. Nothing else is written, and no ref changes, wherever it stops. 33 if one of their files
    /// can't be read, 32 if one of them is a folder of another: then nothing is written.
    pub fn pack_refs(&mut self) -> Result<(), NodeFault>
        ensures answers { F.honest → AnswersCall F.content (Asks PackRefs) (RestartedAs result) self.old self.new }
        ensures packed { F.honest → OnOk result (IsPackedFrom (F.content self.old.files) (F.content self.new.files)) }
        ensures kept { F.honest → PacksOnly (F.content self.old.files) (F.content self.new.files) }
        ensures refused { F.honest → IfErr result (λ e. (e ≡ NodeFault.Down) ⊎ BlamesPacking (F.content self.old.files) e) }
        ensures err { F.honest → IfErr result (λ e. (is_fault e ≡ true) ⊎ (F.content self.new.files ≡ F.content self.old.files)) }
        ensures settles { Settles (result ≡ Err NodeFault.Down) (up_after result) self.old self.new }
        ensures wear { Writes F.honest F.content F.failed F.can_fail F.left self.old.files self.new.files (TellsDevice result) }
        ensures looks { F.honest → MayCall F.content (Asks PackRefs) self.old (Looks F.failed F.can_fail F.left self.old self.new result) }
    {
        if !self.is_up {
            return Err(NodeFault::Down);
        }
        self.index = None;
        match vc_local::pack_refs(self.alloc, &mut self.files) {
            Ok(()) => Ok(()),
            Err(fault) => Err(self.fail(fault)),
        }
    }

    /// The object that an expression names at the clone: 51 to 56 if it names none.
    pub fn resolve(&mut self, expr: &Expr<'_>) -> Result<ObjectId, CloneFault>
        ensures answers { F.honest → (text : List ℕ) → IsExpr text (expr_view expr.now) → AnswersCall F.content (Asks (Resolve text)) (FoundAs fault_answer result) self.old self.new }
        ensures value { F.honest → IfOk result (λ id. DenotesIn (F.content self.old.files) (expr_view expr.now) (Ok id)) }
        ensures bad_file { F.honest → IfErr result (λ e. (e ≡ CloneFault.Node NodeFault.Down) ⊎ IsRefusedValue (F.content self.old.files) (expr_view expr.now) e) }
        ensures settles { Settles (result ≡ Err (CloneFault.Node NodeFault.Down)) (clone_up_after result) self.old self.new }
        ensures same { F.content self.new.files ≡ F.content self.old.files }
        ensures wear { Wears F.failed F.can_fail F.left self.old.files self.new.files (CloneTellsDevice result) }
    {
        if !self.is_up {
            return Err(CloneFault::Node(NodeFault::Down));
        }
        self.index = None;
        match vc_repository::resolve(self.alloc, &mut self.files, expr) {
            Ok(id) => Ok(id),
            Err(fault) => {
                let fault = CloneFault::from(fault);
                Err(self.fail_exchange(fault))
            }
        }
    }
}

impl<F: Files> CloneNode<FusedFiles<F>> {
    ghost use Rattle.vc_files.specs.Fused.{left_after};
    ghost use Rattle.vc_files.specs.declared.fused.Fuse.TheVariants.{Unset};

    /// Sets a stop: so many more writes pass, and the next one fails and takes the node down. If the files are stopped already
    /// they stay so.
    pub fn stop_after(&mut self, writes: u64)
        ensures files { self.new.files.files ≡ self.old.files.files }
        ensures fuse { self.new.files.fuse ≡ left_after self.old.files.fuse writes }
        ensures awaited { self.new.awaited ≡ self.old.awaited }
        ensures learnt { self.new.learnt ≡ self.old.learnt }
        ensures up { self.new.is_up ≡ self.old.is_up }
    {
        self.files.stop_after(writes);
    }

    /// Takes a stop out, so that every write passes. A node that a stop took down stays down until its restart.
    pub fn mend(&mut self)
        ensures files { self.new.files.files ≡ self.old.files.files }
        ensures fuse { self.new.files.fuse ≡ Unset }
        ensures awaited { self.new.awaited ≡ self.old.awaited }
        ensures learnt { self.new.learnt ≡ self.old.learnt }
        ensures up { self.new.is_up ≡ self.old.is_up }
    {
        self.files.mend();
    }
}
