// The writer of a server's answers.
ghost use Rattle.std.specs.Prelude.{◌≡◌, OnOk};
ghost use Rattle.std.specs.Io.{WritesAtMost};
ghost use Rattle.std.specs.Io.KnownBytes.{Appends, WriteAppends};

use crate::served_files::Places;
use std::cell::RefCell;
use std::fs::File;
use std::io::{self, ErrorKind, Write};
use std::rt;
use vc_files::Fault;
use vc_folder::Syncs;

/// Makes all that was stored durable, and leaves the store to others.
pub(crate) fn settle<R>(places: &RefCell<Places<R>>) -> Result<(), Fault>
where
    R: rt::Files<File = File> + Syncs<File> + AllocGlobal + Clone + Drop,
{
    match places.try_borrow_mut() {
        Ok(mut places) => places.settle(),
        Err(_) => Err(Fault::Device),
    }
}

/// A stream on which nothing is told before all that it tells of is durable and the store is others' again: a client that is slow to
/// take an answer holds up none of them.
#[derive(Drop)]
pub(crate) struct Settling<
    'a,
    R: rt::Files<File = File> + Syncs<File> + AllocGlobal + Clone + Drop,
    W,
> {
    places: &'a RefCell<Places<R>>,
    stream: &'a mut W,
    // How many bytes went out.
    count: u64,
    // Why what was stored isn't durable, if it isn't. Then nothing is told.
    lost: Option<Fault>,
}

impl<'a, R, W> Settling<'a, R, W>
where
    R: rt::Files<File = File> + Syncs<File> + AllocGlobal + Clone + Drop,
{
    pub(crate) fn new(places: &'a RefCell<Places<R>>, stream: &'a mut W) -> Settling<'a, R, W> {
        Settling {
            places,
            stream,
            count: 0,
            lost: None,
        }
    }

    // Before bytes go out.
    fn settle(&mut self) -> io::Result<()>
        ensures same { self.new.stream ≡ self.old.stream }
    {
        match settle(self.places) {
            Ok(()) => Ok(()),
            Err(fault) => {
                self.lost = Some(fault);
                Err(io::Error::from(ErrorKind::Other))
            }
        }
    }

    /// How many bytes went out, or why nothing was told.
    pub(crate) fn outcome(self) -> Result<u64, Fault> {
        match self.lost {
            Some(fault) => Err(fault),
            None => Ok(self.count),
        }
    }
}

impl<'a, R, W: Write> Write for Settling<'a, R, W>
where
    R: rt::Files<File = File> + Syncs<File> + AllocGlobal + Clone + Drop,
{
    ghost contents = { λ s. W.contents s.stream.now };

    fn write(&mut self, buf: &[u8]) -> io::Result<usize>
        ensures bound { WritesAtMost result buf.now }
        ensures bytes { WriteAppends (W.contents self.old.stream.now) (W.contents self.new.stream.now) result buf.now }
    {
        self.settle()?;
        let written = self.stream.write(buf)?;
        self.count = self.count.saturating_add(written as u64);
        Ok(written)
    }

    fn write_all(&mut self, buf: &[u8]) -> io::Result<()>
        ensures bytes { OnOk result (Appends (W.contents self.old.stream.now) (W.contents self.new.stream.now) buf.now) }
    {
        self.settle()?;
        self.stream.write_all(buf)?;
        self.count = self.count.saturating_add(buf.len() as u64);
        Ok(())
    }

    fn flush(&mut self) -> io::Result<()> {
        self.stream.flush()
    }
}
