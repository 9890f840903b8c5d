// A node whose log is known to the proof and not kept in memory.
ghost use Rattle.std.specs.Prelude.{◌≡◌, ◌+◌, IfOk, List, OnErr};
ghost use Rattle.vc_model.specs.Shared.{SharedNode};
ghost use Rattle.vc_desk.specs.Entry.{EntryText};
ghost use Rattle.vc_desk.specs.Entry.EventText.{Accepts, Steps};
ghost use Rattle.vc_desk.specs.Runs.{Held};
ghost use Rattle.vc_desk.specs.Talk.{IsOf, receipt_text};
ghost use Rattle.vc_desk.specs.Watching.{IsMade, Notes, RunsFrom};

use crate::desk::Desk;
use crate::entry::{Answer, Entry, Event};
use crate::locked::{Origin, Receipt};
use std::alloc::{AllocError, Global};
use std::marker::{Model, PhantomData};
use std::snapshot::Snapshot;
use vc_files::Files;
use vc_shared::Shared;

/// A shared node, and how many events it has had. The log of these is a run from the node as it was: the type says so, and no entry
/// stays here once its receipt is handed out.
#[derive(Drop)]
pub struct Watched<F: Files, J: Origin> {
    alloc: Global,
    shared: Shared<F>,
    count: u64,
    start: Snapshot<Shared<F>>,
    of: PhantomData<J>,
}

impl<F: Files, J: Origin> Model for Watched<F, J> {
    ghost use Rattle.std.specs.Coded.{codes};
    ghost use Rattle.std.specs.Prelude.{◌≡◌, List, length};
    ghost use Rattle.vc_history.specs.contracts.generations.Generations as known;
    ghost use Rattle.vc_model.specs.Shared.{SharedNode};
    ghost use Rattle.vc_desk.specs.Entry.{EntryText};
    ghost use Rattle.vc_desk.specs.Runs.{Held, Runs};
    ghost use Rattle.vc_desk.specs.Watching.{WatchedText};
    ghost use Rattle.vc_shared.specs.Holding.{SharedText};

    ghost Value = { WatchedText (SharedText F) };

    ghost coded = { Prim.hlevel (codes, known.the_row.coded) };

    ghost view = { λ w. record { start = w.start.value; shared = w.shared; count = w.count } };

    ghost invariant = { λ w. ((n : SharedNode) → J.held n → Held F.content w.start.value n) × ((log : List EntryText) × (length log ≡ w.count) × (F.honest → Runs (Held F.content) w.start.value log w.shared)) };
}

impl<F: Files, J: Origin> Watched<F, J> {
    pub(crate) fn new(alloc: Global, shared: Shared<F>) -> Watched<F, J>
        requires { (n : SharedNode) → J.held n → Held F.content shared n }
        ensures { (result.start ≡ shared) × (result.shared ≡ shared) × (result.count ≡ 0) }
    {
        let start = Snapshot::of(&shared);
        Watched {
            alloc,
            shared,
            count: 0,
            start,
            of: PhantomData,
        }
    }

    pub(crate) fn into_shared(self) -> Shared<F>
        ensures same { result ≡ self.shared }
        ensures run { F.honest → (log : List EntryText) × RunsFrom (Held F.content) J.held log result }
    {
        let Watched {
            alloc: _,
            shared,
            count: _,
            start: _,
            of: _,
        } = self;
        shared
    }

    // How many events there are after the next. An event that can't be counted is refused as one for which there is no room.
    fn next_count(&self) -> Result<u64, AllocError>
        ensures { IfOk result (λ count. count ≡ self.now.count + 1) }
    {
        self.count.checked_add(1).ok_or(AllocError)
    }
}

// The entry moves into the receipt.
impl<F: Files, J: Origin> Desk for Watched<F, J> {
    ghost made = { IsMade F.honest (Held F.content) J.held };

    fn accept(&mut self, connection: u64, bytes: &[u8]) -> Result<Receipt, AllocError>
        ensures notes { IfOk result (λ receipt. Notes F.honest (Held F.content) connection (Accepts bytes.now) (receipt_text receipt) self.old self.new) }
        ensures mine { IsOf connection (Accepts bytes.now) result }
        ensures made { IfOk result (λ receipt. IsMade F.honest (Held F.content) J.held (receipt_text receipt)) }
        ensures err { OnErr result (self.new ≡ self.old) }
    {
        let count = self.next_count()?;
        let event = Event::accept(self.alloc, bytes)?;
        let answer = Answer::of_message(self.shared.accept(bytes));
        let place = self.count;
        self.count = count;
        let entry = Entry {
            connection,
            event,
            answer,
        };
        Ok(Receipt {
            place,
            entry: Some(entry),
        })
    }

    fn step(&mut self, connection: u64, slot: u8) -> Result<Receipt, AllocError>
        ensures notes { IfOk result (λ receipt. Notes F.honest (Held F.content) connection (Steps slot) (receipt_text receipt) self.old self.new) }
        ensures mine { IsOf connection (Steps slot) result }
        ensures made { IfOk result (λ receipt. IsMade F.honest (Held F.content) J.held (receipt_text receipt)) }
        ensures err { OnErr result (self.new ≡ self.old) }
    {
        let count = self.next_count()?;
        let answer = Answer::of_step(self.shared.step(slot));
        let place = self.count;
        self.count = count;
        let entry = Entry {
            connection,
            event: Event::Step(slot),
            answer,
        };
        Ok(Receipt {
            place,
            entry: Some(entry),
        })
    }
}
