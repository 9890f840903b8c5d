//! Where a command tells what is no answer.

ghost use Rattle.std.specs.Prelude.{◌≡◌, IfErr, Ok, OnOk, Some, false};
ghost use Rattle.std.specs.Io.KnownBytes.{Appends, Keeps};
ghost use Rattle.vc_cli.specs.Told.{failure_line, line_behind, old_branch_line};
ghost use Rattle.vc_cli.specs.Failure.{IsFault};

use crate::failure::Failure;
use std::io::Write;
use vc_object::ObjectId;

/// A writer for what is no answer, and whether a person reads it as it is written.
#[derive(Drop)]
pub struct Faults<W> {
    pub stream: W,
    pub is_terminal: bool,
}

impl<W: Write> Faults<W> {
    /// Tells a person something that no program has to know: on a terminal alone.
    pub fn tell(&mut self, line: &str) -> Result<(), Failure>
        ensures told { OnOk result (Appends (W.contents self.old.stream) (W.contents self.new.stream) (line_behind self.old.is_terminal (Some (failure_line line.now)))) }
        ensures silent { self.old.is_terminal ≡ false → (result ≡ Ok tt) × Keeps (W.contents self.old.stream) (W.contents self.new.stream) }
        ensures fault { IfErr result IsFault }
    {
        if self.is_terminal {
            writeln!(self.stream, "vcs: {line}")?;
        }
        Ok(())
    }

    /// Tells a person a line that is whole: on a terminal alone.
    pub fn tell_line(&mut self, line: &[u8]) -> Result<(), Failure>
        ensures told { OnOk result (Appends (W.contents self.old.stream) (W.contents self.new.stream) (line_behind self.old.is_terminal (Some line.now))) }
        ensures fault { IfErr result IsFault }
    {
        if !self.is_terminal {
            return Ok(());
        }
        self.stream.write_all(line)?;
        Ok(())
    }

    /// Tells a person what a branch was before it was set or removed, so that nothing is out of reach by a slip.
    pub fn tell_old_branch(&mut self, name: &str, id: &ObjectId) -> Result<(), Failure>
        ensures told { OnOk result (Appends (W.contents self.old.stream) (W.contents self.new.stream) (line_behind self.old.is_terminal (Some (old_branch_line name.now id.now)))) }
        ensures silent { self.old.is_terminal ≡ false → (result ≡ Ok tt) × Keeps (W.contents self.old.stream) (W.contents self.new.stream) }
        ensures fault { IfErr result IsFault }
    {
        if self.is_terminal {
            write!(self.stream, "vcs: refs/heads/{name} was ")?;
            self.stream.write_all(&id.to_hex())?;
            writeln!(self.stream)?;
        }
        Ok(())
    }
}
