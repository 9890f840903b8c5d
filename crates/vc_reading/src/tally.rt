//! How far a prune is, told to a person at a terminal.
ghost use Rattle.std.specs.Prelude.{◌≡◌, ◌&&◌, ◌+◌, ◌<◌, ◌^◌, IsOk, OnErr, OnOk, false};
ghost use Rattle.std.specs.Result.{is_ok};
ghost use Rattle.std.specs.Io.KnownBytes.{Appends, Keeps};
ghost use Rattle.vc_reading.specs.Tally.{end_text, has_line, read_line, read_text, removed_line, removed_text};

use std::alloc::Global;
use std::io::{self, Write};
use vc_files::{Fault, Files};

// How many files are read, or taken away, before something is told, and then between one line and the next.
const STRIDE: u64 = 10_000;

/// Tells a person how many files were read, and then how many objects were removed, on a terminal alone: nothing of the first 9,999,
/// and then a line that replaces itself with each further 10,000. If the terminal can't be written to, the work goes on untold.
#[derive(Drop)]
pub(crate) struct Tally<W> {
    stream: W,
    is_terminal: bool,
    read: u64,
    removed: u64,
    // What became of the lines.
    told: io::Result<()>,
}

impl<W: Write> Tally<W> {
    /// Nothing was read yet. Lines go to the stream if it is a terminal.
    pub(crate) fn new(stream: W, is_terminal: bool) -> Tally<W>
        ensures start { (result.stream ≡ stream) × (result.is_terminal ≡ is_terminal) × (result.read ≡ 0) × (result.removed ≡ 0) }
        ensures told { IsOk result.told }
    {
        Tally {
            stream,
            is_terminal,
            read: 0,
            removed: 0,
            told: Ok(()),
        }
    }

    // Whether somebody is told.
    fn is_heard(&self) -> bool
        ensures { result ≡ (self.now.is_terminal && is_ok self.now.told) }
    {
        self.is_terminal && self.told.is_ok()
    }

    // One file more was read. Once objects go, these are counted alone.
    fn count_read(&mut self)
        ensures counted { self.old.removed ≡ 0 → self.old.read + 1 < 2 ^ 64 → self.new.read ≡ self.old.read + 1 }
        ensures over { 0 < self.old.removed → self.new.read ≡ self.old.read }
        ensures told { OnOk self.new.told (Appends (W.contents self.old.stream) (W.contents self.new.stream) (read_text self.old.is_terminal self.old.removed self.new.read)) }
        ensures failed { OnErr self.old.told ((self.new.told ≡ self.old.told) × (self.new.stream ≡ self.old.stream)) }
        ensures silent { self.old.is_terminal ≡ false → Keeps (W.contents self.old.stream) (W.contents self.new.stream) }
        ensures same { (self.new.is_terminal ≡ self.old.is_terminal) × (self.new.removed ≡ self.old.removed) }
    {
        if self.removed > 0 {
            return;
        }
        self.read = self.read.saturating_add(1);
        if !self.is_heard() {
            return;
        }
        if self.read % STRIDE == 0 {
            self.told = tell_read(&mut self.stream, self.read);
        }
    }

    // One object more was removed.
    fn count_removed(&mut self)
        ensures counted { self.old.removed + 1 < 2 ^ 64 → self.new.removed ≡ self.old.removed + 1 }
        ensures told { OnOk self.new.told (Appends (W.contents self.old.stream) (W.contents self.new.stream) (removed_text self.old.is_terminal self.new.removed)) }
        ensures failed { OnErr self.old.told ((self.new.told ≡ self.old.told) × (self.new.stream ≡ self.old.stream)) }
        ensures silent { self.old.is_terminal ≡ false → Keeps (W.contents self.old.stream) (W.contents self.new.stream) }
        ensures same { (self.new.is_terminal ≡ self.old.is_terminal) × (self.new.read ≡ self.old.read) }
    {
        self.removed = self.removed.saturating_add(1);
        if !self.is_heard() {
            return;
        }
        if self.removed % STRIDE == 0 {
            self.told = tell_removed(&mut self.stream, self.removed);
        }
    }

    // Whether a line was told, if somebody was.
    fn has_line(&self) -> bool
        ensures { result ≡ has_line self.now.read self.now.removed }
    {
        self.read >= STRIDE || self.removed >= STRIDE
    }

    // The line that was told ends, if there was one.
    fn end(&mut self)
        ensures told { OnOk self.new.told (Appends (W.contents self.old.stream) (W.contents self.new.stream) (end_text self.old.is_terminal self.old.read self.old.removed)) }
        ensures failed { OnErr self.old.told ((self.new.told ≡ self.old.told) × (self.new.stream ≡ self.old.stream)) }
        ensures silent { self.old.is_terminal ≡ false → Keeps (W.contents self.old.stream) (W.contents self.new.stream) }
    {
        if !self.is_heard() {
            return;
        }
        if self.has_line() {
            self.told = self.stream.write_all(b"\n");
        }
    }

    // The first error of the terminal, if there was one: no line was told after it.
    fn outcome(self) -> io::Result<()>
    where
        W: Drop,
        ensures { result ≡ self.told }
    {
        self.told
    }
}

// Tells how many files were read, in place of the line before.
fn tell_read<W: Write>(stream: &mut W, count: u64) -> io::Result<()>
    ensures line { OnOk result (Appends (W.contents stream.old) (W.contents stream.new) (read_line count)) }
{
    write!(stream, "\rvcs: read {count} files")?;
    stream.flush()
}

// Tells how many objects were removed, in place of the line before.
fn tell_removed<W: Write>(stream: &mut W, count: u64) -> io::Result<()>
    ensures line { OnOk result (Appends (W.contents stream.old) (W.contents stream.new) (removed_line count)) }
{
    write!(stream, "\rvcs: removed {count} objects")?;
    stream.flush()
}

/// Files of which a tally counts those that are read and taken away. They are what the files are.
#[derive(Drop)]
pub(crate) struct Counted<F, W> {
    files: F,
    tally: Tally<W>,
}

impl<F: Files + Drop, W: Write> Counted<F, W> {
    pub(crate) fn new(files: F, tally: Tally<W>) -> Counted<F, W>
        ensures files { result.files ≡ files }
    {
        Counted { files, tally }
    }

    /// Ends the line of the tally, and hands back the files, with the first error of the terminal, if there was one.
    pub(crate) fn end(self) -> (F, io::Result<()>)
    where
        W: Drop,
        ensures files { result.0 ≡ self.files }
        ensures failed { OnErr self.tally.told (result.1 ≡ self.tally.told) }
    {
        let Counted { files, mut tally } = self;
        tally.end();
        (files, tally.outcome())
    }
}

impl<F: Files, W: Write> Files for Counted<F, W> {
    ghost honest = { F.honest };

    ghost content = { λ s. F.content s.files };

    ghost failed = { λ s. F.failed s.files };

    ghost can_fail = { λ s. F.can_fail s.files };

    ghost left = { λ s. F.left s.files };

    fn get(&mut self, alloc: Global, path: &str) -> Result<Option<Vec<u8>>, Fault> {
        self.tally.count_read();
        self.files.get(alloc, path)
    }

    fn put(&mut self, alloc: Global, path: &str, bytes: &[u8]) -> Result<(), Fault> {
        self.files.put(alloc, path, bytes)
    }

    fn remove(&mut self, alloc: Global, path: &str) -> Result<(), Fault> {
        self.tally.count_removed();
        self.files.remove(alloc, path)
    }

    fn list(&mut self, alloc: Global, prefix: &str) -> Result<Vec<String>, Fault> {
        self.files.list(alloc, prefix)
    }

    fn failures(&self) -> u64 {
        self.files.failures()
    }
}
