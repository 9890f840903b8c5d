// What lies under the lock.
ghost use Rattle.std.specs.Prelude.{◌≡◌, IfOk, IfSome, OnErr, OnOk, length};
ghost use Rattle.vc_model.specs.Shared.{SharedNode};
ghost use Rattle.vc_desk.specs.Entry.EventText.{Accepts, Steps};
ghost use Rattle.vc_desk.specs.Runs.{Adds, Held};
ghost use Rattle.vc_desk.specs.Talk.{IsOf};

use crate::desk::Desk;
use crate::entry::Entry;
use crate::kept::Kept;
use std::alloc::AllocError;
use std::marker::{Brand, Model, PhantomData};
use vc_files::Files;

/// Which nodes of the machine were held when the connections began. Each call of `serve_all` picks it.
pub trait Origin {
    ghost use Rattle.vc_model.specs.Shared.{SharedNode};

    ghost held: { SharedNode → Type 0 };
}

impl Origin for Brand {
    ghost held = { λ n. ⊥ };
}

/// A node with its log, which began as the connections began.
#[derive(Drop)]
pub struct Locked<F: Files, J: Origin> {
    kept: Kept<F>,
    of: PhantomData<J>,
}

impl<F: Files, J: Origin> Model for Locked<F, J> {
    ghost use Rattle.std.specs.Coded.{codes};
    ghost use Rattle.vc_history.specs.contracts.generations.Generations as known;
    ghost use Rattle.vc_model.specs.Shared.{SharedNode};
    ghost use Rattle.vc_desk.specs.Runs.{Held, KeptText};
    ghost use Rattle.vc_shared.specs.Holding.{SharedText};

    ghost Value = { KeptText (SharedText F) };

    ghost coded = { Prim.hlevel (codes, known.the_row.coded) };

    ghost view = { λ l. l.kept };

    ghost invariant = { λ l. (n : SharedNode) → J.held n → Held F.content l.kept.start n };
}

/// The place of an entry in the log, and the entry, unless there was no memory to copy it.
#[derive(Drop)]
pub struct Receipt {
    pub place: u64,
    pub entry: Option<Entry>,
}

impl<F: Files, J: Origin> Locked<F, J> {
    pub(crate) fn new(kept: Kept<F>) -> Locked<F, J>
        requires { (n : SharedNode) → J.held n → Held F.content kept.start n }
        ensures { result ≡ kept }
    {
        Locked {
            kept,
            of: PhantomData,
        }
    }

    pub(crate) fn into_kept(self) -> Kept<F>
        ensures same { result ≡ self }
        ensures start { (n : SharedNode) → J.held n → Held F.content result.start n }
    {
        let Locked { kept, of: _ } = self;
        kept
    }
}

// What is known of the receipts is known by the whole log.
impl<F: Files, J: Origin> Desk for Locked<F, J> {
    ghost use Rattle.std.specs.Prelude.{⊤};

    ghost made = { λ receipt. ⊤ };

    // The entry is copied under the same hold of the lock.
    fn accept(&mut self, connection: u64, bytes: &[u8]) -> Result<Receipt, AllocError>
        ensures adds { OnOk result (Adds F.honest (Held F.content) connection (Accepts bytes.now) self.old self.new) }
        ensures place { IfOk result (λ receipt. receipt.place ≡ length self.old.log) }
        ensures mine { IsOf connection (Accepts bytes.now) result }
        ensures err { OnErr result (self.new ≡ self.old) }
    {
        let place = self.kept.accept(connection, bytes)?;
        let entry = self.kept.copy(place).ok();
        Ok(Receipt { place, entry })
    }

    fn step(&mut self, connection: u64, slot: u8) -> Result<Receipt, AllocError>
        ensures adds { OnOk result (Adds F.honest (Held F.content) connection (Steps slot) self.old self.new) }
        ensures place { IfOk result (λ receipt. receipt.place ≡ length self.old.log) }
        ensures mine { IsOf connection (Steps slot) result }
        ensures err { OnErr result (self.new ≡ self.old) }
    {
        let place = self.kept.step(connection, slot)?;
        let entry = self.kept.copy(place).ok();
        Ok(Receipt { place, entry })
    }
}
