// A clone of a world, over files, as events call it.
ghost use Rattle.std.specs.FinMap.{empty as no_files};
ghost use Rattle.std.specs.Prelude.{◌≡◌, ◌≢◌, ◌+◌, [], Bool, Err, IfErr, IfOk, OnOk, length, map, true, false};
ghost use Rattle.vc_events.specs.Answers.{Shows};
ghost use Rattle.vc_events.specs.Calls.{IsOnly};
ghost use Rattle.vc_events.specs.Events.{IsBranch, bytes_in, item_of};
ghost use Rattle.vc_events.specs.World.{fresh_clone};
ghost use Rattle.vc_sending.specs.Sending.{machine_items};
ghost use Rattle.vc_model.specs.Clone.{CloneNode as MachineClone};
ghost use Rattle.vc_model.specs.Clone.Task.{StartPush};
ghost use Rattle.vc_model.specs.CloneCall.CloneCall.{Command};
ghost use Rattle.vc_model.specs.Order.Order.{BranchAt, CommitIndex, DropBranch, Fetch, HeadAt, HeadOn, LoadIndex, PushItems, StageFile, StoreObject, UnstageFile};
ghost use Rattle.vc_model.specs.Repository.{Repository};
ghost use Rattle.vc_local.specs.Blames.{BlamesOpen};
ghost use Rattle.vc_local.specs.Opening.{IsOpenable, OpenableAs, opened_node};
ghost use Rattle.vc_rules.specs.Git.{machine_object, mode_number};
ghost use Rattle.vc_simulation.specs.Nodes.{BeginsAs, IsFaultOf, IsReady, seen_clone};
ghost use Rattle.vc_simulation.specs.Values.{AreIds, AreNoIds, AreNotPushed, ArePushed, Called, Fails, FindsThere, HasZero, IsItemFor, IsNoItem, IsNoValue, IsOneMore, IsOneMoreItem, IsValue, Obeys};

use crate::ends::{
    DOWN, MISSING, NO_EXPRESSION, TOO_MANY, clone_value, done, made, pruned, received, restarted,
    sent,
};
use std::alloc::Global;
use vc_events::{CloneCalls, Deed, Ended, NamedItem, Order, Told};
use vc_expression::{ParseFault, parse};
use vc_files::{Fault, Files, FusedFiles};
use vc_local::NodeFault;
use vc_node::CloneNode;
use vc_object::{Kind, Mode, ObjectId};
use vc_push::MAX_COMMANDS;
use vc_refname::RefName;
use vc_refs::Head;
use vc_sending::PushItem;

/// A clone of a world.
#[derive(Drop)]
pub struct WorldClone<F: Files> {
    pub(crate) node: CloneNode<F>,
}

// Whether an item has the zero id, which stands for no object.
fn has_zero(items: &[PushItem]) -> bool
    ensures zero { result ≡ true → HasZero items.now }
    ensures none { result ≡ false → ¬ HasZero items.now }
{
    for item in items {
        if item.id == Some(ObjectId::ZERO) {
            return true;
        }
    }
    false
}

impl<F: Files> WorldClone<F> {
    /// The clone that these files hold, up and awaiting nothing. If there are none yet, it is a new one. Files that are none of a
    /// clone's (33 and 34: HEAD, 62: the index) are handed back, and so are they if a fault comes: what
    /// could be opened can be then too.
    pub fn open(alloc: Global, files: F) -> Result<WorldClone<F>, (F, NodeFault)>
        ensures opens { F.honest → (frail : Bool) → IsReady F.can_fail F.left frail files → OpenableAs (F.content files) (λ r. IfOk result (λ clone. BeginsAs (seen_clone F.content F.can_fail F.left) frail clone.node (opened_node r))) }
        ensures new { F.honest → (frail : Bool) → IsReady F.can_fail F.left frail files → F.content files ≡ no_files → IfOk result (λ clone. BeginsAs (seen_clone F.content F.can_fail F.left) frail clone.node fresh_clone) }
        ensures refused { F.honest → IfErr result (λ e. BlamesOpen (F.content files) e.1) }
        ensures fault { F.honest → (frail : Bool) → IsReady F.can_fail F.left frail files → OpenableAs (F.content files) (λ r. IfErr result (λ e. IsFaultOf frail e.1)) }
        ensures err { F.honest → (r : Repository) → IsOpenable (F.content files) r → IfErr result (λ e. IsOpenable (F.content e.0) r) }
    {
        match CloneNode::open(alloc, files) {
            Ok(node) => Ok(WorldClone { node }),
            Err(back) => Err(back),
        }
    }

    // Takes the node down for want of memory between two of its calls.
    fn halt(&mut self) -> Ended
        ensures end { result ≡ Ended.Fault Fault.Memory }
        ensures up { self.new.node.is_up ≡ false }
        ensures files { self.new.node.files ≡ self.old.node.files }
        ensures awaits { self.new.node.awaited ≡ self.old.node.awaited }
    {
        self.node.take_down();
        Ended::Fault(Fault::Memory)
    }

    // The value of an expression, of a node that is up.
    fn value(&mut self, alloc: Global, text: &[u8]) -> Result<ObjectId, Ended>
        requires { self.old.node.is_up ≡ true }
        ensures found { F.honest → IfOk result (λ id. FindsThere F.content F.can_fail F.left (IsValue text.now id) self.old.node self.new.node) }
        ensures err { F.honest → IfErr result (λ e. Called F.content F.can_fail F.left (Fails (IsNoValue text.now)) (Shows (Err e)) self.old.node self.new.node) }
        ensures up { IfOk result (λ id. self.new.node.is_up ≡ true) }
    {
        let expr = match parse(alloc, text) {
            Ok(expr) => expr,
            Err(ParseFault::BadSyntax(_)) => return Err(Ended::Refused(NO_EXPRESSION)),
            Err(ParseFault::Memory) => return Err(self.halt()),
        };
        let called = self.node.resolve(&expr);
        clone_value(called)
    }

    // One value more, after the others.
    fn add_value(
        &mut self,
        alloc: Global,
        ids: &mut Vec<ObjectId>,
        text: &[u8],
    ) -> Result<(), Ended>
        requires { self.old.node.is_up ≡ true }
        ensures found { F.honest → OnOk result (IsOneMore F.content F.can_fail F.left text.now ids.old.items ids.new.items self.old.node self.new.node) }
        ensures err { F.honest → IfErr result (λ e. Called F.content F.can_fail F.left (Fails (IsNoValue text.now)) (Shows (Err e)) self.old.node self.new.node) }
        ensures up { OnOk result (self.new.node.is_up ≡ true) }
    {
        let id = match self.value(alloc, text) {
            Ok(id) => id,
            Err(end) => return Err(end),
        };
        if ids.push(id).is_err() {
            return Err(self.halt());
        }
        Ok(())
    }

    // The values of expressions.
    fn values(&mut self, alloc: Global, texts: &[Vec<u8>]) -> Result<Vec<ObjectId>, Ended>
        requires { self.old.node.is_up ≡ true }
        ensures found { F.honest → IfOk result (λ ids. FindsThere F.content F.can_fail F.left (AreIds texts.now ids.items) self.old.node self.new.node) }
        ensures err { F.honest → IfErr result (λ e. Called F.content F.can_fail F.left (Fails (AreNoIds texts.now)) (Shows (Err e)) self.old.node self.new.node) }
        ensures up { IfOk result (λ ids. self.new.node.is_up ≡ true) }
    {
        let mut ids = Vec::new(alloc);
        for text in texts {
            if let Err(end) = self.add_value(alloc, &mut ids, text) {
                return Err(end);
            }
        }
        Ok(ids)
    }

    fn write(&mut self, kind: Kind, body: &[u8]) -> Result<Told, Ended>
        requires { self.old.node.is_up ≡ true }
        ensures answers { F.honest → Called F.content F.can_fail F.left (Obeys (StoreObject (machine_object kind body.now))) (Shows result) self.old.node self.new.node }
    {
        let called = self.node.write(kind, body);
        made(called)
    }

    fn stage(&mut self, path: &[u8], mode: Mode, content: &[u8]) -> Result<Told, Ended>
        requires mode { mode ≢ Mode.Tree }
        requires up { self.old.node.is_up ≡ true }
        ensures answers { F.honest → Called F.content F.can_fail F.left (Obeys (StageFile path.now (mode_number mode) content.now)) (Shows result) self.old.node self.new.node }
    {
        let called = self.node.add(path, mode, content);
        done(called)
    }

    fn unstage(&mut self, path: &[u8]) -> Result<Told, Ended>
        requires { self.old.node.is_up ≡ true }
        ensures answers { F.honest → Called F.content F.can_fail F.left (Obeys (UnstageFile path.now)) (Shows result) self.old.node self.new.node }
    {
        let called = self.node.unstage(path);
        done(called)
    }

    fn delete_branch(&mut self, name: &RefName) -> Result<Told, Ended>
        requires branch { IsBranch name.now }
        requires up { self.old.node.is_up ≡ true }
        ensures answers { F.honest → Called F.content F.can_fail F.left (Obeys (DropBranch name.now)) (Shows result) self.old.node self.new.node }
    {
        let called = self.node.delete_branch(name);
        done(called)
    }

    fn fetch(&mut self) -> Result<Told, Ended>
        requires { self.old.node.is_up ≡ true }
        ensures answers { F.honest → Called F.content F.can_fail F.left (Obeys (Fetch)) (Shows result) self.old.node self.new.node }
    {
        let called = self.node.start_fetch();
        sent(called)
    }

    // An item of a push, with its value.
    fn item(&mut self, alloc: Global, named: &NamedItem) -> Result<PushItem, Ended>
        requires { self.old.node.is_up ≡ true }
        ensures found { F.honest → IfOk result (λ item. FindsThere F.content F.can_fail F.left (IsItemFor named.now item) self.old.node self.new.node) }
        ensures err { F.honest → IfErr result (λ e. Called F.content F.can_fail F.left (Fails (IsNoItem named.now)) (Shows (Err e)) self.old.node self.new.node) }
        ensures up { IfOk result (λ item. self.new.node.is_up ≡ true) }
    {
        let Ok(name) = named.name.clone() else {
            return Err(self.halt());
        };
        let Some(text) = &named.value else {
            return Ok(PushItem { id: None, name });
        };
        match self.value(alloc, text) {
            Ok(id) => Ok(PushItem { id: Some(id), name }),
            Err(end) => Err(end),
        }
    }

    // One item more, after the others.
    fn add_item(
        &mut self,
        alloc: Global,
        items: &mut Vec<PushItem>,
        named: &NamedItem,
    ) -> Result<(), Ended>
        requires { self.old.node.is_up ≡ true }
        ensures found { F.honest → OnOk result (IsOneMoreItem F.content F.can_fail F.left named.now items.old.items items.new.items self.old.node self.new.node) }
        ensures err { F.honest → IfErr result (λ e. Called F.content F.can_fail F.left (Fails (IsNoItem named.now)) (Shows (Err e)) self.old.node self.new.node) }
        ensures up { OnOk result (self.new.node.is_up ≡ true) }
        ensures count { OnOk result (length items.new.items ≡ length items.old.items + 1) }
    {
        let item = match self.item(alloc, named) {
            Ok(item) => item,
            Err(end) => return Err(end),
        };
        if items.push(item).is_err() {
            return Err(self.halt());
        }
        Ok(())
    }

    // The items of a push, with their values.
    fn items(&mut self, alloc: Global, named: &[NamedItem]) -> Result<Vec<PushItem>, Ended>
        requires { self.old.node.is_up ≡ true }
        ensures found { F.honest → IfOk result (λ items. FindsThere F.content F.can_fail F.left (ArePushed named.now items.items) self.old.node self.new.node) }
        ensures err { F.honest → IfErr result (λ e. Called F.content F.can_fail F.left (Fails (AreNotPushed named.now)) (Shows (Err e)) self.old.node self.new.node) }
        ensures up { IfOk result (λ items. self.new.node.is_up ≡ true) }
        ensures count { IfOk result (λ items. length items.items ≡ length named.now) }
    {
        let mut items = Vec::new(alloc);
        for one in named {
            if let Err(end) = self.add_item(alloc, &mut items, one) {
                return Err(end);
            }
        }
        Ok(items)
    }

    // A push of items, which may be atomic. One with the zero id, which no object has, is refused as any that is not all there.
    fn start_push(&mut self, atomic: bool, items: &[PushItem]) -> Result<Told, Ended>
        requires some { items.now ≢ [] }
        requires up { self.old.node.is_up ≡ true }
        ensures answers { F.honest → Called F.content F.can_fail F.left (IsOnly (Command (StartPush atomic (machine_items items.now)))) (Shows result) self.old.node self.new.node }
    {
        if has_zero(items) {
            return Err(Ended::Refused(if items.len() > MAX_COMMANDS {
                TOO_MANY
            } else {
                MISSING
            }));
        }
        if atomic {
            let called = self.node.start_push_atomic(items);
            return sent(called);
        }
        let called = self.node.start_push(items);
        sent(called)
    }

    fn push(&mut self, alloc: Global, atomic: bool, named: &[NamedItem]) -> Result<Told, Ended>
        requires some { named.now ≢ [] }
        requires up { self.old.node.is_up ≡ true }
        ensures answers { F.honest → Called F.content F.can_fail F.left (Obeys (PushItems atomic (map item_of named.now))) (Shows result) self.old.node self.new.node }
    {
        match self.items(alloc, named) {
            Ok(items) => self.start_push(atomic, &items),
            Err(end) => Err(end),
        }
    }

    fn commit(
        &mut self,
        alloc: Global,
        parents: &[Vec<u8>],
        author: &[u8],
        committer: &[u8],
        message: &[u8],
    ) -> Result<Told, Ended>
        requires { self.old.node.is_up ≡ true }
        ensures answers { F.honest → Called F.content F.can_fail F.left (Obeys (CommitIndex (map bytes_in parents.now) author.now committer.now message.now)) (Shows result) self.old.node self.new.node }
    {
        let ids = match self.values(alloc, parents) {
            Ok(ids) => ids,
            Err(end) => return Err(end),
        };
        let called = self.node.commit(&ids, author, committer, message);
        made(called)
    }

    fn set_branch(&mut self, alloc: Global, name: &RefName, text: &[u8]) -> Result<Told, Ended>
        requires branch { IsBranch name.now }
        requires up { self.old.node.is_up ≡ true }
        ensures answers { F.honest → Called F.content F.can_fail F.left (Obeys (BranchAt name.now text.now)) (Shows result) self.old.node self.new.node }
    {
        let id = match self.value(alloc, text) {
            Ok(id) => id,
            Err(end) => return Err(end),
        };
        let called = self.node.set_branch(name, &id);
        done(called)
    }

    fn set_head(&mut self, name: &RefName) -> Result<Told, Ended>
        requires branch { IsBranch name.now }
        requires up { self.old.node.is_up ≡ true }
        ensures answers { F.honest → Called F.content F.can_fail F.left (Obeys (HeadOn name.now)) (Shows result) self.old.node self.new.node }
    {
        let Ok(branch) = name.clone() else {
            return Err(self.halt());
        };
        let called = self.node.set_head(&Head::Branch(branch));
        done(called)
    }

    fn detach(&mut self, alloc: Global, text: &[u8]) -> Result<Told, Ended>
        requires { self.old.node.is_up ≡ true }
        ensures answers { F.honest → Called F.content F.can_fail F.left (Obeys (HeadAt text.now)) (Shows result) self.old.node self.new.node }
    {
        let id = match self.value(alloc, text) {
            Ok(id) => id,
            Err(end) => return Err(end),
        };
        let called = self.node.set_head(&Head::Id(id));
        done(called)
    }

    fn load(&mut self, alloc: Global, text: &[u8]) -> Result<Told, Ended>
        requires { self.old.node.is_up ≡ true }
        ensures answers { F.honest → Called F.content F.can_fail F.left (Obeys (LoadIndex text.now)) (Shows result) self.old.node self.new.node }
    {
        let id = match self.value(alloc, text) {
            Ok(id) => id,
            Err(end) => return Err(end),
        };
        let called = self.node.load_tree(&id);
        done(called)
    }
}

impl<F: Files> WorldClone<FusedFiles<F>> {
    ghost use Rattle.vc_rules.specs.Stops.{IsBelow};
    ghost use Rattle.vc_simulation.specs.Nodes.{seen_cloned};

    /// The clone that these files hold, for which a stop can be set, and none is set yet. Files that can't be opened are handed back:
    /// see [`open`](WorldClone::open).
    pub fn over(alloc: Global, files: F) -> Result<WorldClone<FusedFiles<F>>, (F, NodeFault)>
        ensures opens { F.honest → (frail : Bool) → IsBelow F.can_fail F.left frail → OpenableAs (F.content files) (λ r. IfOk result (λ clone. BeginsAs (seen_cloned F.content F.can_fail F.left) frail clone (opened_node r))) }
        ensures new { F.honest → (frail : Bool) → IsBelow F.can_fail F.left frail → F.content files ≡ no_files → IfOk result (λ clone. BeginsAs (seen_cloned F.content F.can_fail F.left) frail clone fresh_clone) }
        ensures fault { F.honest → (frail : Bool) → IsBelow F.can_fail F.left frail → OpenableAs (F.content files) (λ r. IfErr result (λ e. IsFaultOf frail e.1)) }
        ensures refused { F.honest → IfErr result (λ e. BlamesOpen (F.content files) e.1) }
        ensures err { F.honest → (r : Repository) → IsOpenable (F.content files) r → IfErr result (λ e. IsOpenable (F.content e.0) r) }
    {
        let device = FusedFiles::new(files);
        match WorldClone::open(alloc, device) {
            Ok(clone) => Ok(clone),
            Err((device, fault)) => Err((device.into_inner(), fault)),
        }
    }

    /// The files without the fuse, as a restart finds them, whatever state the clone is in. They can be opened as its repository.
    pub fn into_files(self) -> F
        ensures files { result ≡ self.node.files.files }
        ensures opens { (frail : Bool) (n : MachineClone) → (seen_cloned F.content F.can_fail F.left).may_be frail self n → IsOpenable (F.content result) n.repository }
    {
        let WorldClone { node } = self;
        node.close().into_inner()
    }
}

impl<F: Files> CloneCalls for WorldClone<FusedFiles<F>> {
    ghost use Rattle.vc_simulation.specs.Nodes.{seen_cloned};

    ghost honest = { F.honest };

    ghost seen = { seen_cloned F.content F.can_fail F.left };

    fn obey(&mut self, alloc: Global, order: &Order) -> Result<Told, Ended> {
        if !self.node.is_up() {
            return Err(Ended::Refused(DOWN));
        }
        match order {
            Order::Write(kind, body) => self.write(*kind, body),
            Order::Stage(path, mode, content) => self.stage(path, *mode, content),
            Order::Unstage(path) => self.unstage(path),
            Order::Commit(parents, author, committer, message) => {
                self.commit(alloc, parents, author, committer, message)
            }
            Order::SetBranch(name, text) => self.set_branch(alloc, name, text),
            Order::DeleteBranch(name) => self.delete_branch(name),
            Order::SetHead(name) => self.set_head(name),
            Order::Detach(text) => self.detach(alloc, text),
            Order::Load(text) => self.load(alloc, text),
            Order::Fetch => self.fetch(),
            Order::Push { atomic, items } => self.push(alloc, *atomic, items),
        }
    }

    fn deliver(&mut self, bytes: &[u8]) -> Result<Told, Ended> {
        let called = self.node.receive(bytes);
        received(called)
    }

    fn compare(&mut self, alloc: Global, first: &[u8], second: &[u8]) -> Result<Told, Ended> {
        if !self.node.is_up() {
            return Err(Ended::Refused(DOWN));
        }
        let one = match self.value(alloc, first) {
            Ok(one) => one,
            Err(end) => return Err(end),
        };
        let two = match self.value(alloc, second) {
            Ok(two) => two,
            Err(end) => return Err(end),
        };
        if one == two {
            Ok(Told::Did(Deed::Same))
        } else {
            Ok(Told::Did(Deed::Differs))
        }
    }

    fn pack(&mut self) -> Result<Told, Ended> {
        let called = self.node.pack_refs();
        restarted(called)
    }

    fn prune(&mut self) -> Result<Told, Ended> {
        let called = self.node.prune();
        pruned(called)
    }

    // The process that was stopped is another one then, over what it has stored.
    fn reopen(&mut self) -> Result<Told, Ended> {
        self.node.mend();
        let called = self.node.restart();
        restarted(called)
    }

    fn stop(&mut self, writes: u64) {
        self.node.stop_after(writes);
    }
}
