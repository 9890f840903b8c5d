//! The shared node at a port of this machine, as a clone meets it.
ghost use Rattle.std.specs.Prelude.{◌≡◌, ⊤, IfOk};
ghost use Rattle.vc_files.specs.Failures.{greatest_count};
ghost use Rattle.vc_files.specs.declared.faults.Fault.TheVariants.{Device};
ghost use Rattle.vc_model.specs.Node.Answer.{Declined};
ghost use Rattle.vc_world.specs.Alone.{WasSpelled};
ghost use Rattle.vc_remote.specs.declared.remote_fault.RemoteFault.TheVariants.{Fault as OfDevice};

use crate::remote_fault::RemoteFault;
use std::alloc::Global;
use std::fs::File;
use std::io::{BufReader, Write};
use std::net::{Net, OpenStream};
use std::rt;
use vc_files::Fault;
use vc_folder::FolderLock;
use vc_message::{Bound, Fallible, IncomingFault, Message, read_message};
use vc_pkt::PktFault;
use vc_transport::{Kept, Most, Place, Progress, Spooled, connect, keep, receive, send};
use vc_world::{Peer, Reply};

// In memory an object with the longest body is kept, and a mebibyte beside it. A longer answer is read back from a file, and each of
// its objects is written twice, since it stands in the quarantine before it is stored.
const MOST: Most = Most {
    short: 17_825_792,
    long: u64::MAX,
};

// What an answer may have before its objects: a million refs, with HEAD's line and the end, and 256 MiB. An advertisement has no objects,
// so this is all of it.
const BOUND: Bound = Bound {
    bytes: 268_435_456,
    lines: 1_000_002,
};

/// The shared node at a port of this machine. The right to write to the clone is let go while an answer comes, and taken again
/// before the clone sees the answer: a server that is silent stops no other command on the clone. An answer that is long is kept in a
/// file meanwhile, from which the clone takes it object by object.
#[derive(Drop)]
pub struct Server<R: rt::Files + Net + AllocGlobal + Clone + Drop, W> {
    rt: R,
    /// Where it is.
    pub place: Place,
    // The folder of the clone.
    store: String,
    lock: Option<FolderLock<R>>,
    // The connection, once there is one.
    stream: Option<BufReader<R::Stream>>,
    progress: Progress<W>,
}

impl<R, W> Server<R, W>
where
    R: rt::Files<File = File> + Net + AllocGlobal + Clone + Drop,
    W: Write + Drop,
{
    /// The shared node at a port, for the clone in a folder, whose lock is held. The first question makes the connection.
    pub fn new(
        rt: R,
        place: Place,
        store: String,
        lock: FolderLock<R>,
        progress: Progress<W>,
    ) -> Server<R, W>
        ensures { result.place ≡ place }
    {
        Server {
            rt,
            place,
            store,
            lock: Some(lock),
            stream: None,
            progress,
        }
    }

    /// Ends the connection, and gives what told a person how far messages were.
    pub fn into_progress(self) -> Progress<W>
        ensures { result ≡ self.progress }
    {
        self.progress
    }

    // Makes the connection where there is none.
    fn connect(&mut self) -> Result<(), RemoteFault> {
        if self.stream.is_some() {
            return Ok(());
        }
        let Ok(stream) = connect(&self.rt, self.place) else {
            return Err(RemoteFault::WriteFailed);
        };
        match BufReader::new(self.rt.alloc(), stream) {
            Ok(stream) => {
                self.stream = Some(stream);
                Ok(())
            }
            Err(_) => Err(RemoteFault::from(Fault::Memory)),
        }
    }

    // Sends a message, and keeps the one that answers it.
    fn exchange(&mut self, bytes: &[u8]) -> Result<Spooled<File>, RemoteFault> {
        self.connect()?;
        let Some(stream) = &mut self.stream else {
            return Err(RemoteFault::WriteFailed);
        };
        let folder = self.store.as_str();
        if send(stream.get_mut(), bytes, &mut self.progress).is_err() {
            return Err(said_before(&self.rt, folder, stream));
        }
        let kept = receive(&self.rt, folder, MOST, BOUND, stream, &mut self.progress)?;
        match kept.message? {
            Some(()) => whole(kept.bytes),
            None => Err(RemoteFault::ReadFailed),
        }
    }
}

// An answer that was kept as a whole.
fn whole(bytes: Option<Spooled<File>>) -> Result<Spooled<File>, RemoteFault> {
    match bytes {
        Some(bytes) => Ok(bytes),
        None => Err(RemoteFault::from(IncomingFault::Unread(PktFault::TooLarge))),
    }
}

// Why a message didn't go out. A server that refuses hears no message to its end, and what it said before is worth more than that it
// heard no more. What it would say later is not waited for: it may wait for the message itself.
fn said_before<R>(rt: &R, folder: &str, stream: &mut BufReader<R::Stream>) -> RemoteFault
where
    R: rt::Files<File = File> + Net + AllocGlobal + Clone + Drop,
{
    if stream.get_ref().set_nonblocking(true).is_err() {
        return RemoteFault::WriteFailed;
    }
    match keep(rt, folder, MOST, BOUND, stream) {
        Ok(answer) => refusal_in(rt.alloc(), answer),
        Err(_) => RemoteFault::WriteFailed,
    }
}

// What the server said where it refused; else that it heard no more.
fn refusal_in(alloc: Global, answer: Kept<File>) -> RemoteFault {
    let Some(bytes) = answer.bytes else {
        return RemoteFault::WriteFailed;
    };
    match read(alloc, bytes) {
        Err(RemoteFault::Refused(text)) => RemoteFault::Refused(text),
        _ => RemoteFault::WriteFailed,
    }
}

// The answer, read where it is short; or what the server said where it refused, which is always short.
fn read(alloc: Global, answer: Spooled<File>) -> Result<Reply<Fallible<Spooled<File>>>, RemoteFault>
    ensures { IfOk result WasSpelled }
{
    let mut short = match answer {
        Spooled::Memory(short) => Fallible::new(short),
        long => return Ok(Reply::Reader(Fallible::new(long))),
    };
    match read_message(alloc, &mut short)? {
        Some(Message::Error(error)) => Err(RemoteFault::Refused(error.text)),
        Some(message) => Ok(Reply::Message(message)),
        None => Err(RemoteFault::ReadFailed),
    }
}

impl<R, W> Peer for Server<R, W>
where
    R: rt::Files<File = File> + Net + AllocGlobal + Clone + Drop,
    W: Write + Drop,
{
    type Refusal = RemoteFault;

    type Answer = Fallible<Spooled<File>>;

    // What stands at the other end of a connection may be no shared node, so nothing is claimed of it.
    ghost honest = { ⊥ };

    ghost holds = { λ _ _. ⊥ };

    ghost told = { λ _. Declined 115 };

    // A connection may fail at any time, and a device that keeps an answer too: nobody counts how often.
    ghost failed = { λ _. greatest_count };

    ghost can_fail = { λ _. ⊤ };

    ghost is_device = { λ refusal. refusal ≡ OfDevice Device };

    ghost loses = { ⊤ };

    ghost says = { λ _ _ _ _. ⊤ };

    fn ask(&mut self, bytes: &[u8]) -> Result<Reply<Fallible<Spooled<File>>>, RemoteFault> {
        self.lock = None;
        let answered = self.exchange(bytes);
        self.lock = Some(FolderLock::take(&self.rt, self.store.as_str())?);
        read(self.rt.alloc(), answered?)
    }
}
