//! A connection to a shared node over files in memory, with both of its ends.

use std::alloc::Global;
use std::io::{self, BufReader, ErrorKind, Read, Write};
use std::mem;
use std::net::{Net, OpenListener, OpenStream};
use vc_files::MemoryFiles;
use vc_message::{Fallible, read_message};
use vc_serving::{make_shared, serve_once};
use vc_transport::bind;

/// A shared node, and a connection to it.
#[derive(Drop)]
pub struct Connection<R: Net> {
    files: MemoryFiles,
    client: BufReader<R::Stream>,
    server: BufReader<R::Stream>,
}

// A reader that keeps what it gave.
#[derive(Drop)]
struct Kept<'a, R> {
    reader: &'a mut R,
    given: Vec<u8>,
}

impl<'a, R: Read> Read for Kept<'a, R> {
    fn read(&mut self, buffer: &mut [u8]) -> io::Result<usize> {
        let count = self.reader.read(buffer)?;
        self.given.extend_from_slice(&buffer[..count])?;
        Ok(count)
    }
}

// What ends the program: it has ample memory, and nothing is wrong with a connection to itself.
fn broken() -> io::Error {
    io::Error::from(ErrorKind::Other)
}

impl<R: Net + AllocGlobal> Connection<R> {
    /// A new shared node, and a connection to it. The system chooses a port that no other program has.
    pub fn new(rt: &R) -> io::Result<Connection<R>> {
        let alloc = rt.alloc();
        let (files, made) = make_shared(alloc, MemoryFiles::new(alloc));
        if made.is_err() {
            return Err(broken());
        }
        let listener = bind(rt, 0)?;
        let client = rt.connect(listener.local_addr()?)?;
        let (server, _) = listener.accept()?;
        client.set_nodelay(true)?;
        server.set_nodelay(true)?;
        Ok(Connection {
            files,
            client: BufReader::new(alloc, client)?,
            server: BufReader::new(alloc, server)?,
        })
    }

    /// The client sends these bytes, the server answers the message that it reads of them, and the client reads the answer, of which
    /// these are the bytes.
    pub fn exchange(&mut self, alloc: Global, bytes: &[u8]) -> io::Result<Vec<u8>> {
        self.client.get_mut().write_all(bytes)?;
        self.answer(alloc)?;
        let mut kept = Fallible::new(Kept {
            reader: &mut self.client,
            given: Vec::new(alloc),
        });
        match read_message(alloc, &mut kept) {
            Ok(Some(_)) => Ok(kept.into_inner().given),
            _ => Err(broken()),
        }
    }

    // The node answers the next message that comes.
    fn answer(&mut self, alloc: Global) -> io::Result<()> {
        let files = mem::replace(&mut self.files, MemoryFiles::new(alloc));
        let mut server = Fallible::new(&mut self.server);
        let mut answer = Vec::new(alloc);
        let (files, served) = serve_once(alloc, files, &mut server, &mut answer);
        self.files = files;
        if served.is_err() {
            return Err(broken());
        }
        self.server.get_mut().write_all(&answer)
    }
}
