//! Where the stores of commands are: by the names of their folders.
ghost use Rattle.std.specs.Prelude.{◌≡◌, ℕ, List, IfOk, IfErr, OnErr, OnOk};
ghost use Rattle.vc_cli.specs.Failure.{IsFault};
ghost use Rattle.vc_cli.specs.Stores.{GivesBack, IsInUse, IsUnopened, OthersStay};
ghost use Rattle.vc_files.specs.FileMap.{FileMap};

use crate::failure::Failure;
use crate::faults::Faults;
use std::io::Write;
use vc_files::Files;

/// Where stores are, by the names of their folders. Who opens one has its files alone until they are handed back by `close`; nothing is
/// known of the store meanwhile. To write, they are opened under the store's lock, and handed back under it.
pub trait Stores {
    /// The files of one store.
    type Files: Files + Drop;

    /// The right to write to one store, which nobody else has meanwhile.
    type Lock: Drop;

    /// The right to take objects away from one store, which nobody has while another process stands on objects that nothing names yet.
    type Remover: Drop;

    /// What each store has, by its name. One that isn't there has nothing.
    ghost content: { Self → List ℕ → FileMap };

    /// The name of the store that a lock is of.
    ghost of: { Self.Lock → List ℕ };

    /// Whether all that was put into these files is durable.
    ghost is_durable: { Self.Files → Type 0 };

    /// The right to write to this store. It waits while another command has it.
    fn lock<E: Write>(&mut self, store: &str, faults: &mut Faults<E>) -> Result<Self::Lock, Failure>
        ensures of { IfOk result (λ lock. of lock ≡ store.now) }
        ensures refused { IfErr result IsUnopened }
        ensures same { content self.new ≡ content self.old };

    /// The files of this store, to be looked at.
    fn open(&mut self, store: &str) -> Result<Self::Files, Failure>
        ensures opened { IfOk result (λ files. Self.Files.content files ≡ content self.old store.now) }
        ensures others { OnOk result (OthersStay store.now (content self.old) (content self.new)) }
        ensures refused { IfErr result IsUnopened }
        ensures same { OnErr result (content self.new ≡ content self.old) };

    /// The files of the store of this lock, to be written to.
    fn open_locked(&mut self, lock: &Self::Lock) -> Result<Self::Files, Failure>
        ensures opened { IfOk result (λ files. Self.Files.content files ≡ content self.old (of lock.now)) }
        ensures others { OnOk result (OthersStay (of lock.now) (content self.old) (content self.new)) }
        ensures refused { IfErr result IsUnopened }
        ensures same { OnErr result (content self.new ≡ content self.old) };

    /// The right to take objects away from the store of this lock. It isn't waited for.
    fn remover(&mut self, lock: &Self::Lock) -> Result<Self::Remover, Failure>
        ensures refused { IfErr result IsInUse }
        ensures same { content self.new ≡ content self.old };

    /// Makes all that was put durable.
    fn settle(&mut self, files: &mut Self::Files) -> Result<(), Failure>
        ensures durable { OnOk result (is_durable files.new) }
        ensures files { Self.Files.content files.new ≡ Self.Files.content files.old }
        ensures fault { IfErr result IsFault }
        ensures same { content self.new ≡ content self.old };

    /// Hands back the files of this store.
    fn close(&mut self, store: &str, files: Self::Files)
        ensures back { GivesBack store.now (Self.Files.content files) (content self.old) (content self.new) };

    /// Hands back the files of the store of this lock.
    fn close_locked(&mut self, lock: &Self::Lock, files: Self::Files)
        ensures back { GivesBack (of lock.now) (Self.Files.content files) (content self.old) (content self.new) };
}
