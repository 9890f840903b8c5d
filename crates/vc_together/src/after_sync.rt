// The writer of answers that wait until what they tell of is durable.
ghost use Rattle.std.specs.Prelude.{◌≡◌, OnOk};
ghost use Rattle.std.specs.Io.{WritesAtMost};
ghost use Rattle.std.specs.Io.KnownBytes.{Appends, WriteAppends};

use crate::store::GroupStore;
use std::fs::File;
use std::io::{self, ErrorKind, Write};
use std::net::OpenStream;
use std::rt;
use std::sync::Wait;
use vc_files::Fault;
use vc_folder::Syncs;

/// A stream on which nothing goes out before all that was stored until then is durable.
#[derive(Drop)]
pub(crate) struct AfterSync<
    'a,
    R: rt::Files<File = File> + Syncs<File> + Wait + AllocGlobal + Clone + Drop,
    S,
> {
    store: &'a GroupStore<R>,
    stream: S,
}

impl<'a, R, S> AfterSync<'a, R, S>
where
    R: rt::Files<File = File> + Syncs<File> + Wait + AllocGlobal + Clone + Drop,
{
    /// This stream.
    pub(crate) fn new(store: &'a GroupStore<R>, stream: S) -> AfterSync<'a, R, S> {
        AfterSync { store, stream }
    }

    /// The same stream once more.
    pub(crate) fn try_clone_stream(&self) -> io::Result<S>
    where
        S: OpenStream,
    {
        self.stream.try_clone()
    }

    // Before bytes go out. If what was stored is not durable, nothing is told; why, the store says once all have ended.
    fn settle(&mut self) -> io::Result<()>
        ensures same { self.new.stream ≡ self.old.stream }
    {
        match self.store.settle() {
            Ok(()) => Ok(()),
            Err(_) => Err(io::Error::from(ErrorKind::Other)),
        }
    }
}

impl<'a, R, S: Write> Write for AfterSync<'a, R, S>
where
    R: rt::Files<File = File> + Syncs<File> + Wait + AllocGlobal + Clone + Drop,
{
    ghost contents = { λ s. S.contents s.stream };

    fn write(&mut self, buf: &[u8]) -> io::Result<usize>
        ensures bound { WritesAtMost result buf.now }
        ensures bytes { WriteAppends (S.contents self.old.stream) (S.contents self.new.stream) result buf.now }
    {
        self.settle()?;
        self.stream.write(buf)
    }

    fn write_all(&mut self, buf: &[u8]) -> io::Result<()>
        ensures bytes { OnOk result (Appends (S.contents self.old.stream) (S.contents self.new.stream) buf.now) }
    {
        self.settle()?;
        self.stream.write_all(buf)
    }

    fn flush(&mut self) -> io::Result<()> {
        self.stream.flush()
    }
}
