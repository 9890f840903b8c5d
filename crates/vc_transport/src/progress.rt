//! How far a long message is, told to a person at a terminal.
ghost use Rattle.std.specs.Prelude.{◌≡◌, ◌&&◌, ℕ, IfOk, IsOk, OnErr, OnOk, false, take};
ghost use Rattle.std.specs.Result.{is_ok};
ghost use Rattle.std.specs.Io.{ReadsAtMost, WritesAtMost};
ghost use Rattle.std.specs.Io.KnownBytes.{Appends, Keeps, ReadConsumes, WriteAppends};
ghost use Rattle.vc_transport.specs.Progress.{Counts, end_text, goes_to_terminal, progress_line, steps, told_text, way_word};

use std::io::{self, Read, Write};

// How many bytes pass before something is told, and then between one line and the next.
const STRIDE: u64 = 4_194_304;

// The stride in MiB.
const STRIDE_MEBIBYTES: u64 = 4;

// How many bytes one write takes at most, so that a long message is counted while it goes out.
const PIECE: usize = 1_048_576;

/// Which way a message goes.
#[derive(Clone, Copy)]
pub(crate) enum Obstacle {
    Sent,
    Received,
}

impl Obstacle {
    // The word that tells it.
    fn word(self) -> &'static str
        ensures { result.now ≡ way_word self }
    {
        match self {
            Obstacle::Sent => "sent",
            Obstacle::Received => "received",
        }
    }
}

/// Tells a person how many bytes of a message have gone by, on a terminal alone: nothing of a message below 4 MiB, and then a
/// line that replaces itself each further 4 MiB. Where the terminal can't be written to, the message goes on untold.
#[derive(Drop)]
pub struct Progress<W> {
    stream: W,
    is_terminal: bool,
    // The bytes of the message that have gone by.
    count: u64,
    // What became of the lines.
    told: io::Result<()>,
}

impl<W: Write> Progress<W> {
    /// Nothing has gone by yet. Lines go to the stream where it is a terminal.
    pub fn new(stream: W, is_terminal: bool) -> Progress<W>
        ensures start { (result.stream ≡ stream) × (goes_to_terminal result ≡ is_terminal) × (result.count ≡ 0) }
        ensures told { IsOk result.told }
    {
        Progress {
            stream,
            is_terminal,
            count: 0,
            told: Ok(()),
        }
    }

    /// The first error of the terminal, if there was one: no line was told after it.
    pub fn outcome(self) -> io::Result<()>
    where
        W: Drop,
        ensures { result ≡ self.told }
    {
        self.told
    }

    // Whether somebody is told.
    fn is_heard(&self) -> bool
        ensures { result ≡ (self.now.is_terminal && is_ok self.now.told) }
    {
        self.is_terminal && self.told.is_ok()
    }

    // So many bytes more have gone by.
    fn advance(&mut self, way: Obstacle, bytes: usize)
        ensures counted { Counts self.old.count bytes self.new.count }
        ensures told { OnOk self.new.told (Appends (W.contents self.old.stream) (W.contents self.new.stream) (told_text self.old.is_terminal way self.old.count self.new.count)) }
        ensures failed { OnErr self.old.told ((self.new.told ≡ self.old.told) × (self.new.stream ≡ self.old.stream)) }
        ensures silent { self.old.is_terminal ≡ false → Keeps (W.contents self.old.stream) (W.contents self.new.stream) }
        ensures same { self.new.is_terminal ≡ self.old.is_terminal }
    {
        let before = self.count;
        self.count = before.saturating_add(bytes as u64);
        if !self.is_heard() {
            return;
        }
        if steps(before) < steps(self.count) {
            self.told = tell_count(&mut self.stream, way, self.count);
        }
    }

    /// The message is over: the line of one that was told ends.
    pub(crate) fn end(&mut self)
        ensures anew { self.new.count ≡ 0 }
        ensures told { OnOk self.new.told (Appends (W.contents self.old.stream) (W.contents self.new.stream) (end_text self.old.is_terminal self.old.count)) }
        ensures failed { OnErr self.old.told ((self.new.told ≡ self.old.told) × (self.new.stream ≡ self.old.stream)) }
        ensures silent { self.old.is_terminal ≡ false → Keeps (W.contents self.old.stream) (W.contents self.new.stream) }
        ensures same { self.new.is_terminal ≡ self.old.is_terminal }
    {
        let count = self.count;
        self.count = 0;
        if !self.is_heard() {
            return;
        }
        if count >= STRIDE {
            self.told = self.stream.write_all(b"\n");
        }
    }
}

// How many whole strides the bytes are.
fn steps(count: u64) -> u64
    ensures { result ≡ steps count }
{
    count / STRIDE
}

// Tells how many bytes have gone by, in place of the line before.
fn tell_count<W: Write>(stream: &mut W, way: Obstacle, count: u64) -> io::Result<()>
    ensures line { OnOk result (Appends (W.contents stream.old) (W.contents stream.new) (progress_line way count)) }
{
    let mebibytes = steps(count) * STRIDE_MEBIBYTES;
    write!(stream, "\rvcs: {} {mebibytes} MiB", way.word())?;
    stream.flush()
}

/// A stream whose bytes are counted as they go by. It hands on what the stream gives and takes.
#[derive(Drop)]
pub(crate) struct Counted<'a, S, W> {
    pub stream: &'a mut S,
    pub progress: &'a mut Progress<W>,
}

impl<'a, S: Read, W: Write> Read for Counted<'a, S, W> {
    ghost remaining = { λ counted. S.remaining counted.stream.now };

    fn read(&mut self, buf: &mut [u8]) -> io::Result<usize>
        ensures bound { ReadsAtMost result buf.new }
        ensures bytes { ReadConsumes (S.remaining self.old.stream.now) (S.remaining self.new.stream.now) result buf.new }
        ensures counted { IfOk result (λ n. Counts self.old.progress.now.count n self.new.progress.now.count) }
    {
        let read = self.stream.read(buf)?;
        self.progress.advance(Obstacle::Received, read);
        Ok(read)
    }
}

impl<'a, S: Write, W: Write> Write for Counted<'a, S, W> {
    ghost contents = { λ counted. S.contents counted.stream.now };

    fn write(&mut self, buf: &[u8]) -> io::Result<usize>
        ensures bound { WritesAtMost result buf.now }
        ensures bytes { WriteAppends (S.contents self.old.stream.now) (S.contents self.new.stream.now) result buf.now }
        ensures counted { IfOk result (λ n. Counts self.old.progress.now.count n self.new.progress.now.count) }
    {
        let written = self.stream.write(first_piece(buf))?;
        self.progress.advance(Obstacle::Sent, written);
        Ok(written)
    }

    fn flush(&mut self) -> io::Result<()> {
        self.stream.flush()
    }
}

// What one write takes at most.
fn first_piece(bytes: &[u8]) -> &[u8]
    ensures { (n : ℕ) × (result.now ≡ take n bytes.now) }
{
    bytes.split_at(bytes.len().min(PIECE)).0
}
