// Where the connections of a worker come from.
ghost use Rattle.std.specs.Prelude.{◌∷◌, [], IfNone};
ghost use Rattle.vc_desk.specs.Pool.{Comes, Gains, Stays};

use crate::work::End;

/// Where the connections of a worker come from, each with its name, and what is told of each once it has ended.
pub trait Port<R, W> {
    ghost use Rattle.std.specs.Prelude.{List, Option, ℕ};
    ghost use Rattle.vc_desk.specs.declared.work.End.{End};

    /// The connections that came, the oldest first, if they are known.
    ghost came: { Self → Option (List (ℕ × R × W)) };

    /// The ends that it was told, the oldest first, if they are known.
    ghost told: { Self → Option (List (End W)) };

    /// That no connection comes any more.
    ghost closed: { Self → Type 0 };

    /// The next connection; none once no more comes.
    fn next(&mut self) -> Option<(u64, R, W)>
        ensures came { Comes (came self.old) (came self.new) result }
        ensures told { Stays (told self.old) (told self.new) }
        ensures closed { IfNone result (closed self.new) };

    /// A connection has ended so.
    fn ended(&mut self, end: End<W>)
        ensures came { Stays (came self.old) (came self.new) }
        ensures told { Gains (told self.old) (told self.new) (end ∷ []) };
}
