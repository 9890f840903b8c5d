// The shared node and the log of its events.
ghost use Rattle.std.specs.Prelude.{◌≡◌, ◌<◌, [], Some, IfErr, IfOk, OnErr, OnOk, length, map, slice_get};
ghost use Rattle.vc_model.specs.Shared.{SharedNode};
ghost use Rattle.vc_shared.specs.Opening.{IsOpening, opening_text};
ghost use Rattle.vc_desk.specs.Entry.{entry_text};
ghost use Rattle.vc_desk.specs.Entry.EventText.{Accepts, Steps};
ghost use Rattle.vc_desk.specs.Runs.{Adds, Held, Runs};

use crate::entry::{Answer, Entry, Event};
use std::alloc::{AllocError, Global};
use std::marker::Model;
use std::snapshot::Snapshot;
use vc_files::Files;
use vc_local::NodeFault;
use vc_shared::{Opening, Shared};

/// A shared node, what it showed when its log was empty, and each of its events since.
#[derive(Drop)]
pub struct Kept<F: Files> {
    alloc: Global,
    shared: Shared<F>,
    opening: Opening,
    log: Vec<Entry>,
    start: Snapshot<Shared<F>>,
}

impl<F: Files> Model for Kept<F> {
    ghost use Rattle.std.specs.Coded.{codes};
    ghost use Rattle.std.specs.Prelude.{map};
    ghost use Rattle.vc_history.specs.contracts.generations.Generations as known;
    ghost use Rattle.vc_model.specs.Shared.{SharedNode};
    ghost use Rattle.vc_shared.specs.Opening.{IsOpening, opening_text};
    ghost use Rattle.vc_desk.specs.Entry.{entry_text};
    ghost use Rattle.vc_desk.specs.Runs.{Held, KeptText, Runs};
    ghost use Rattle.vc_shared.specs.Holding.{SharedText};

    ghost Value = { KeptText (SharedText F) };

    ghost coded = { Prim.hlevel (codes, known.the_row.coded) };

    ghost view = { λ k. record { start = k.start.value; shared = k.shared; opening = opening_text k.opening; log = map entry_text k.log.items } };

    ghost invariant = { λ k. F.honest → Runs (Held F.content) k.start.value (map entry_text k.log.items) k.shared × ((n : SharedNode) → Held F.content k.start.value n → IsOpening (opening_text k.opening) n) };
}

impl<F: Files> Kept<F> {
    /// The node with an empty log. It is up and has no push open: the caller's condition. If its opening is refused or a fault comes, the
    /// node is handed back.
    pub fn new(alloc: Global, mut shared: Shared<F>) -> Result<Kept<F>, (Shared<F>, NodeFault)>
        ensures kept { IfOk result (λ kept. (kept.shared ≡ kept.start) × (kept.log ≡ [])) }
        ensures held { IfOk result (λ kept. (n : SharedNode) → Held F.content shared n → Held F.content kept.start n) }
        ensures err { IfErr result (λ e. F.content e.0.files ≡ F.content shared.files) }
    {
        let opening = match shared.opening() {
            Ok(opening) => opening,
            Err(fault) => return Err((shared, fault)),
        };
        let start = Snapshot::of(&shared);
        Ok(Kept {
            alloc,
            shared,
            opening,
            log: Vec::new(alloc),
            start,
        })
    }

    /// The log is a run of the node's events, and the opening is that of the node as it was before them.
    pub fn is_a_run(&self)
        ensures run { F.honest → Runs (Held F.content) self.now.start self.now.log self.now.shared }
        ensures opened { F.honest → (n : SharedNode) → Held F.content self.now.start n → IsOpening self.now.opening n }
    {
        let _ = &self.log;
    }

    /// The node takes these bytes for a connection. The result is the place of the entry. If there is no memory for it, nothing is changed.
    pub fn accept(&mut self, connection: u64, bytes: &[u8]) -> Result<u64, AllocError>
        ensures place { IfOk result (λ place. place ≡ length self.old.log) }
        ensures adds { OnOk result (Adds F.honest (Held F.content) connection (Accepts bytes.now) self.old self.new) }
        ensures err { OnErr result (self.new ≡ self.old) }
    {
        self.log.reserve(1)?;
        let event = Event::accept(self.alloc, bytes)?;
        let place = self.log.len() as u64;
        let answer = Answer::of_message(self.shared.accept(bytes));
        self.log.push_reserved(Entry {
            connection,
            event,
            answer,
        });
        Ok(place)
    }

    /// The push in this slot is stepped for a connection. The result is the place of the entry, as [`accept`](Kept::accept) has it.
    pub fn step(&mut self, connection: u64, slot: u8) -> Result<u64, AllocError>
        ensures place { IfOk result (λ place. place ≡ length self.old.log) }
        ensures adds { OnOk result (Adds F.honest (Held F.content) connection (Steps slot) self.old self.new) }
        ensures err { OnErr result (self.new ≡ self.old) }
    {
        self.log.reserve(1)?;
        let place = self.log.len() as u64;
        let answer = Answer::of_step(self.shared.step(slot));
        self.log.push_reserved(Entry {
            connection,
            event: Event::Step(slot),
            answer,
        });
        Ok(place)
    }

    /// A copy of the entry at a place.
    pub fn copy(&self, place: u64) -> Result<Entry, AllocError>
        requires { place < length self.now.log }
        ensures { IfOk result (λ entry. slice_get self.now.log place ≡ Some (entry_text entry)) }
    {
        self.log[place as usize].copy(self.alloc)
    }

    /// The entries of the log, the oldest first.
    pub fn entries(&self) -> &[Entry]
        ensures { map entry_text result.now ≡ self.now.log }
    {
        self.log.as_slice()
    }

    /// What the node showed when the log was empty.
    pub fn opening(&self) -> &Opening
        ensures { opening_text result.now ≡ self.now.opening }
    {
        &self.opening
    }

    /// The node alone.
    pub fn into_shared(self) -> Shared<F>
        ensures { result ≡ self.shared }
    {
        let Kept {
            alloc: _,
            shared,
            opening: _,
            log: _,
            start: _,
        } = self;
        shared
    }
}
