//! What comes of one message on a connection, kept until the node reads it.
ghost use Rattle.std.specs.Io.{ReadsAtMost};
ghost use Rattle.std.specs.Io.KnownBytes.{ReadConsumes};

use std::alloc::{AllocError, Global};
use std::fs::{self, File};
use std::io::{self, BufRead, BufReader, BufWriter, Cursor, ErrorKind, Read, Seek, Write};
use std::rt;
use vc_files::Fault;

// How many bytes go to a file with one write, where they come in small parts: a line of a message, and a little more.
const PIECE: usize = 65_536;

/// How much of a message is kept.
#[derive(Clone, Copy)]
pub struct Most {
    /// How many bytes are kept in memory. What is longer goes to a file.
    pub short: usize,
    /// How many bytes are kept at all. What is longer is too large.
    pub long: u64,
}

// Why bytes were lost.
#[derive(Clone, Copy)]
enum Loss {
    Fault(Fault),
    // They are more than are kept.
    TooLarge,
}

// Where the bytes are.
#[derive(Drop)]
enum Place<F: Write + Drop> {
    Memory(Vec<u8>),
    File(BufWriter<F>),
}

/// The bytes that came: in memory as long as they are few, and past that in a file with no name in the store's folder.
#[derive(Drop)]
pub(crate) struct Spool<R: rt::Files> {
    rt: R,
    // The store's folder.
    folder: String,
    // Of what goes to a file no more than a piece is in memory.
    most: Most,
    place: Place<R::File>,
    // How many bytes came.
    count: u64,
    // Why bytes were lost, if any were.
    loss: Option<Loss>,
}

impl<R: rt::Files + AllocGlobal + Clone + Drop> Spool<R> {
    /// Nothing has come yet. So much will be kept.
    pub(crate) fn new(rt: &R, folder: &str, most: Most) -> Result<Spool<R>, AllocError> {
        let alloc = rt.alloc();
        Ok(Spool {
            rt: rt.clone()?,
            folder: String::from_str(alloc, folder)?,
            most,
            place: Place::Memory(Vec::new(alloc)),
            count: 0,
            loss: None,
        })
    }

    // Keeps these bytes behind the others, or why they are lost.
    fn push(&mut self, bytes: &[u8]) {
        self.count = self.count.saturating_add(bytes.len() as u64);
        if self.count > self.most.long {
            self.loss = Some(Loss::TooLarge);
            return;
        }
        if let Err(error) = self.add(bytes) {
            self.loss = Some(Loss::Fault(fault_of(&error)));
        }
    }

    /// How many bytes came.
    pub(crate) fn count(&self) -> u64 {
        self.count
    }

    fn add(&mut self, bytes: &[u8]) -> io::Result<()> {
        match &mut self.place {
            Place::Memory(held) => {
                if held.len().saturating_add(bytes.len()) <= self.most.short {
                    held.extend_from_slice(bytes)?;
                    return Ok(());
                }
                let file = nameless(&self.rt, self.folder.as_str())?;
                let mut file = BufWriter::with_capacity(self.rt.alloc(), PIECE, file)?;
                file.write_all(held)?;
                file.write_all(bytes)?;
                self.place = Place::File(file);
                Ok(())
            }
            Place::File(file) => file.write_all(bytes),
        }
    }

    /// What was kept, to be read from its first byte on; none if it is too large; or why some of it is lost.
    pub(crate) fn finish(self) -> Result<Option<Spooled<R::File>>, Fault> {
        let Spool {
            rt,
            folder: _,
            most: _,
            place,
            count: _,
            loss,
        } = self;
        match loss {
            Some(Loss::Fault(fault)) => return Err(fault),
            Some(Loss::TooLarge) => return Ok(None),
            None => {}
        }
        match place.read_back(rt.alloc()) {
            Ok(spooled) => Ok(Some(spooled)),
            Err(error) => Err(fault_of(&error)),
        }
    }
}

impl<F: Read + Write + Seek + Drop> Place<F> {
    fn read_back(self, alloc: Global) -> io::Result<Spooled<F>> {
        match self {
            Place::Memory(held) => Ok(Spooled::Memory(Cursor::new(held))),
            Place::File(mut file) => {
                file.rewind()?;
                let (file, _) = file.into_parts();
                Ok(Spooled::File(BufReader::new(alloc, file)?))
            }
        }
    }
}

// Opens a file in a folder that no path leads to: it ends with the process, and no other process meets it. A stop between the
// making of the file and the removal of its name leaves an empty file, which nothing reads and which stands in nobody's way.
fn nameless<R: rt::Files + AllocGlobal>(rt: &R, folder: &str) -> io::Result<R::File> {
    for number in 0..u64::MAX {
        let path = format!(in rt.alloc(); "{folder}/incoming.{number}")?;
        match File::create_new(rt, path.as_str()) {
            Ok(file) => {
                fs::remove_file(rt, path.as_str())?;
                return Ok(file);
            }
            Err(error) if error.kind() == ErrorKind::AlreadyExists => {}
            Err(error) => return Err(error),
        }
    }
    Err(io::Error::from(ErrorKind::AlreadyExists))
}

/// What an error of the system is to the layers above.
pub fn fault_of(error: &io::Error) -> Fault {
    match error.kind() {
        ErrorKind::OutOfMemory => Fault::Memory,
        _ => Fault::Device,
    }
}

/// A stream of which all that is read is kept. It hands on what the stream gives, until something of it is lost.
#[derive(Drop)]
pub(crate) struct Copying<S, R: rt::Files> {
    pub stream: S,
    pub spool: Spool<R>,
}

impl<S: Read, R: rt::Files + AllocGlobal + Clone + Drop> Read for Copying<S, R> {
    ghost remaining = { λ copying. S.remaining copying.stream };

    fn read(&mut self, buf: &mut [u8]) -> io::Result<usize>
        ensures bound { ReadsAtMost result buf.new }
        ensures bytes { ReadConsumes (S.remaining self.old.stream) (S.remaining self.new.stream) result buf.new }
    {
        // An error may take nothing from the stream, so a loss is told by the read behind it.
        if self.spool.loss.is_some() {
            return Err(io::Error::from(ErrorKind::Other));
        }
        let read = self.stream.read(buf)?;
        self.spool.push(&buf[..read]);
        Ok(read)
    }
}

/// What was kept of a message, as a reader.
#[derive(Drop)]
pub enum Spooled<F> {
    Memory(Cursor<Vec<u8>>),
    File(BufReader<F>),
}

impl<F: Read> Spooled<F> {
    /// Some of the first bytes, which stay; none if there are none.
    pub fn front(&mut self) -> io::Result<&[u8]> {
        match self {
            Spooled::Memory(held) => held.fill_buf(),
            Spooled::File(file) => file.fill_buf(),
        }
    }
}

impl<F: Read> Read for Spooled<F> {
    fn read(&mut self, buf: &mut [u8]) -> io::Result<usize> {
        match self {
            Spooled::Memory(held) => held.read(buf),
            Spooled::File(file) => file.read(buf),
        }
    }
}
