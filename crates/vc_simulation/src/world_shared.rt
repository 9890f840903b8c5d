// The shared node of a world, over files, as events call it.
ghost use Rattle.std.specs.FinMap.{empty as no_files};
ghost use Rattle.std.specs.Prelude.{◌≡◌, Bool, IfErr, IfOk, true};
ghost use Rattle.vc_events.specs.Answers.{Shows};
ghost use Rattle.vc_events.specs.Calls.{SharedCalled};
ghost use Rattle.vc_events.specs.World.{fresh_shared};
ghost use Rattle.vc_model.specs.Question.Question.{Resolve};
ghost use Rattle.vc_model.specs.SharedCall.SharedCall.{Asks as AsksShared};
ghost use Rattle.vc_model.specs.Repository.{Repository};
ghost use Rattle.vc_model.specs.Shared.{SharedNode};
ghost use Rattle.vc_local.specs.Blames.{BlamesOpen};
ghost use Rattle.vc_local.specs.Opening.{IsOpenable, OpenableAs};
ghost use Rattle.vc_simulation.specs.Nodes.{BeginsAs, IsFaultOf, IsReady, opened_shared, seen_shared};
ghost use Rattle.vc_simulation.specs.Values.{FindsShared, IsValue};

use crate::ends::{DOWN, NO_EXPRESSION, accepted, pruned, restarted, shared_value, stepped};
use std::alloc::Global;
use vc_events::{Deed, Ended, SharedCalls, Told};
use vc_expression::{ParseFault, parse};
use vc_files::{Fault, Files, FusedFiles};
use vc_local::NodeFault;
use vc_object::ObjectId;
use vc_shared::Shared;

/// The first number that is none of a slot.
const NO_SLOT: u8 = 8;

/// The shared node of a world.
#[derive(Drop)]
pub struct WorldShared<F: Files> {
    pub(crate) node: Shared<F>,
}

impl<F: Files> WorldShared<F> {
    /// The shared node that these files hold, up and with no push open. If there are none yet, it is a new one. Files that are none of
    /// a node's (33 and 34: HEAD, 62: the index) are handed back, and so are they if a fault comes; they can be opened as before.
    pub fn open(alloc: Global, files: F) -> Result<WorldShared<F>, (F, NodeFault)>
        ensures opens { F.honest → (frail : Bool) → IsReady F.can_fail F.left frail files → OpenableAs (F.content files) (λ r. IfOk result (λ shared. BeginsAs (seen_shared F.content F.can_fail F.left) frail shared.node (opened_shared r))) }
        ensures new { F.honest → (frail : Bool) → IsReady F.can_fail F.left frail files → F.content files ≡ no_files → IfOk result (λ shared. BeginsAs (seen_shared F.content F.can_fail F.left) frail shared.node fresh_shared) }
        ensures refused { F.honest → IfErr result (λ e. BlamesOpen (F.content files) e.1) }
        ensures fault { F.honest → (frail : Bool) → IsReady F.can_fail F.left frail files → OpenableAs (F.content files) (λ r. IfErr result (λ e. IsFaultOf frail e.1)) }
        ensures err { F.honest → (r : Repository) → IsOpenable (F.content files) r → IfErr result (λ e. IsOpenable (F.content e.0) r) }
    {
        match Shared::open(alloc, files) {
            Ok(node) => Ok(WorldShared { node }),
            Err(back) => Err(back),
        }
    }

    // The value of an expression, of a node that is up.
    fn value(&mut self, alloc: Global, text: &[u8]) -> Result<ObjectId, Ended>
        requires { self.old.node.is_up ≡ true }
        ensures found { F.honest → IfOk result (λ id. FindsShared (seen_shared F.content F.can_fail F.left) (IsValue text.now id) self.old.node self.new.node) }
        ensures err { F.honest → IfErr result (λ e. SharedCalled (seen_shared F.content F.can_fail F.left) (AsksShared (Resolve text.now)) (Shows (Err e)) self.old.node self.new.node) }
        ensures up { IfOk result (λ id. self.new.node.is_up ≡ true) }
    {
        let expr = match parse(alloc, text) {
            Ok(expr) => expr,
            Err(ParseFault::BadSyntax(_)) => return Err(Ended::Refused(NO_EXPRESSION)),
            Err(ParseFault::Memory) => {
                self.node.take_down();
                return Err(Ended::Fault(Fault::Memory));
            }
        };
        let called = self.node.resolve(&expr);
        shared_value(called)
    }
}

impl<F: Files> WorldShared<FusedFiles<F>> {
    ghost use Rattle.vc_rules.specs.Stops.{IsBelow};
    ghost use Rattle.vc_simulation.specs.Nodes.{seen_served};

    /// The shared node that these files hold, for which a stop can be set, and none is set yet. Files that can't be opened are
    /// handed back: see [`open`](WorldShared::open).
    pub fn over(alloc: Global, files: F) -> Result<WorldShared<FusedFiles<F>>, (F, NodeFault)>
        ensures opens { F.honest → (frail : Bool) → IsBelow F.can_fail F.left frail → OpenableAs (F.content files) (λ r. IfOk result (λ shared. BeginsAs (seen_served F.content F.can_fail F.left) frail shared (opened_shared r))) }
        ensures new { F.honest → (frail : Bool) → IsBelow F.can_fail F.left frail → F.content files ≡ no_files → IfOk result (λ shared. BeginsAs (seen_served F.content F.can_fail F.left) frail shared fresh_shared) }
        ensures fault { F.honest → (frail : Bool) → IsBelow F.can_fail F.left frail → OpenableAs (F.content files) (λ r. IfErr result (λ e. IsFaultOf frail e.1)) }
        ensures refused { F.honest → IfErr result (λ e. BlamesOpen (F.content files) e.1) }
        ensures err { F.honest → (r : Repository) → IsOpenable (F.content files) r → IfErr result (λ e. IsOpenable (F.content e.0) r) }
    {
        let device = FusedFiles::new(files);
        match WorldShared::open(alloc, device) {
            Ok(shared) => Ok(shared),
            Err((device, fault)) => Err((device.into_inner(), fault)),
        }
    }

    /// The files without the fuse, as a restart finds them, whatever state the node is in. They can be opened as its repository.
    pub fn into_files(self) -> F
        ensures files { result ≡ self.node.files.files }
        ensures opens { (frail : Bool) (n : SharedNode) → (seen_served F.content F.can_fail F.left).may_be frail self n → IsOpenable (F.content result) n.repository }
    {
        let WorldShared { node } = self;
        node.close().into_inner()
    }
}

impl<F: Files> SharedCalls for WorldShared<FusedFiles<F>> {
    ghost use Rattle.vc_simulation.specs.Nodes.{seen_served};

    ghost honest = { F.honest };

    ghost seen = { seen_served F.content F.can_fail F.left };

    fn deliver(&mut self, bytes: &[u8]) -> Result<Told, Ended> {
        let called = self.node.accept(bytes);
        accepted(called)
    }

    fn advance(&mut self, slot: usize) -> Result<Told, Ended> {
        let place = if slot < 8 { slot as u8 } else { NO_SLOT };
        let called = self.node.step(place);
        stepped(called)
    }

    fn compare(&mut self, alloc: Global, first: &[u8], second: &[u8]) -> Result<Told, Ended> {
        if !self.node.is_up() {
            return Err(Ended::Refused(DOWN));
        }
        let one = match self.value(alloc, first) {
            Ok(one) => one,
            Err(end) => return Err(end),
        };
        let two = match self.value(alloc, second) {
            Ok(two) => two,
            Err(end) => return Err(end),
        };
        if one == two {
            Ok(Told::Did(Deed::Same))
        } else {
            Ok(Told::Did(Deed::Differs))
        }
    }

    fn pack(&mut self) -> Result<Told, Ended> {
        let called = self.node.pack_refs();
        restarted(called)
    }

    fn prune(&mut self) -> Result<Told, Ended> {
        let called = self.node.prune();
        pruned(called)
    }

    // The process that was stopped is another one then, over what it has stored.
    fn reopen(&mut self) -> Result<Told, Ended> {
        self.node.mend();
        let called = self.node.restart();
        restarted(called)
    }

    fn stop(&mut self, writes: u64) {
        self.node.stop_after(writes);
    }
}
