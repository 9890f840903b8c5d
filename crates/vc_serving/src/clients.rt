//! Where the messages come from that a server answers one after the other.
ghost use Rattle.std.specs.Prelude.{[], ◌∷◌};
ghost use Rattle.vc_serving.specs.Clients.{Hears, given};
ghost use Rattle.vc_serving.specs.Clients.Event.{Closes, Takes};

use vc_files::Fault;
use vc_server::{ServeFault, Served};

/// The clients of a server: one connection after the other, and on each one message after the other.
pub trait Clients<R, W> {
    ghost use Rattle.std.specs.Prelude.{List, Option};
    ghost use Rattle.vc_serving.specs.Clients.{Event};

    /// What happened so far, the newest first, if it is known.
    ghost heard: { Self → Option (List (Event R W)) };

    /// The next message, and what its answer is written to: of the open connection, or if none is open of the next one. None once no
    /// more comes.
    fn next(&mut self) -> Result<Option<(R, W)>, Fault>
        ensures { Hears (heard self.old) (heard self.new) (given result ∷ []) };

    /// Takes back what is left of the message, and what was written, once its turn has ended so. A fault if what was stored is lost.
    fn take(&mut self, rest: R, after: W, served: &Result<Served, ServeFault>) -> Result<(), Fault>
        ensures { Hears (heard self.old) (heard self.new) (Takes rest after served.now result ∷ []) };

    /// Closes the connection.
    fn close(&mut self)
        ensures { Hears (heard self.old) (heard self.new) (Closes ∷ []) };
}
