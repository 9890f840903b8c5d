// The port at which the workers of a server take their connections.
use crate::after_sync::AfterSync;
use crate::counts::Counts;
use crate::pushes::Pushes;
use crate::store::GroupStore;
use crate::taking::{Connection, take_one};
use crate::telling::talk_of;
use std::fs::File;
use std::io::{BufReader, Write};
use std::net::{Net, OpenStream, Shutdown, SocketAddr};
use std::rt;
use std::sync::{Condvar, Mutex, Wait};
use std::thread::Threads;
use std::time::{Clock, Duration};
use vc_arguments::Serving;
use vc_desk::{End, Ended, Port};
use vc_files::Fault;
use vc_message::Fallible;
use vc_serving::talk::log;
use vc_transport::{Place, connect, fault_of};

/// What the workers of a server share.
#[derive(Drop)]
pub(crate) struct Door<'a, R, E>
where
    R: rt::Files<File = File> + Threads + Wait + Net + Clock + AllocGlobal + Clone + Drop,
{
    rt: &'a R,
    store: &'a GroupStore<R>,
    listener: R::Listener,
    serving: Serving,
    // Who has it waits for the next connection.
    turn: Mutex<()>,
    counts: Mutex<Counts>,
    changed: Condvar,
    pushes: Pushes<'a, R>,
    // The connections that are open, by their names.
    streams: Mutex<Vec<(u64, R::Stream)>>,
    // Where the log goes.
    lines: Mutex<&'a mut E>,
}

impl<'a, R, E> Door<'a, R, E>
where
    R: rt::Files<File = File> + Threads + Wait + Net + Clock + AllocGlobal + Clone + Drop,
    E: Write,
{
    /// The port of this listener, at which nobody was taken yet.
    pub(crate) fn new(
        rt: &'a R,
        store: &'a GroupStore<R>,
        listener: R::Listener,
        serving: Serving,
        lines: &'a mut E,
    ) -> Door<'a, R, E> {
        Door {
            rt,
            store,
            listener,
            serving,
            turn: Mutex::new(()),
            counts: Mutex::new(Counts::new(serving.count)),
            changed: Condvar::new(),
            pushes: Pushes::new(rt),
            streams: Mutex::new(Vec::new(rt.alloc())),
            lines: Mutex::new(lines),
        }
    }

    /// What lets pushes in.
    pub(crate) fn pushes(&self) -> &Pushes<'a, R> {
        &self.pushes
    }

    /// Why the server ended before its time.
    pub(crate) fn fault(&self) -> Option<Fault> {
        self.counts.lock(self.rt).fault()
    }

    // Waits until one more is to be taken, and returns its name; none if no more is.
    fn begin(&self) -> Option<u64> {
        let rt = self.rt;
        let mut counts = self
            .changed
            .wait_while(rt, self.counts.lock(rt), |counts| counts.is_undecided());
        if counts.is_over() {
            return None;
        }
        Some(counts.begin())
    }

    // One of those that are open has ended.
    fn end(&self, counts: bool) {
        self.counts.lock(self.rt).end(counts);
        self.changed.notify_all();
    }

    // Ends the server for a fault of its own. Who reads from a connection finds its end, and who waits for one is woken by one.
    fn fail(&self, fault: Fault) {
        self.counts.lock(self.rt).fail(fault);
        self.changed.notify_all();
        self.close_all();
        let place = Place {
            port: self.serving.port,
            timeout: self.serving.timeout,
        };
        let _ = connect(self.rt, place);
    }

    // Ends all connections.
    fn close_all(&self) {
        let streams = self.streams.lock(self.rt);
        for (_, stream) in streams.iter() {
            let _ = stream.shutdown(Shutdown::Both);
        }
    }

    // Keeps a way to end a connection. If the server failed before, the connection ends at once.
    fn keep(&self, name: u64, writer: &AfterSync<'a, R, R::Stream>) -> Result<(), Fault> {
        let stream = match writer.try_clone_stream() {
            Ok(stream) => stream,
            Err(error) => return Err(fault_of(&error)),
        };
        self.streams.lock(self.rt).push((name, stream))?;
        if self.counts.lock(self.rt).is_over() {
            self.close_all();
        }
        Ok(())
    }

    // The connection has ended.
    fn forget(&self, name: u64) {
        self.streams.lock(self.rt).retain(|open| open.0 != name);
    }

    // Waits for the next connection, while no other worker does. None if its client gave it up, or the server ends.
    fn take(&self, name: u64) -> Result<Option<(Connection<'a, R, R::Stream>, SocketAddr)>, Fault> {
        let rt = self.rt;
        let _turn = self.turn.lock(rt);
        if self.counts.lock(rt).is_over() {
            return Ok(None);
        }
        let taken = take_one(rt.alloc(), self.store, &self.listener, self.serving.timeout)?;
        if self.counts.lock(rt).is_over() {
            return Ok(None);
        }
        if let Some(((_, writer), _)) = &taken {
            self.keep(name, writer)?;
        }
        Ok(taken)
    }

    // Whether the server has to end after a connection that ended so: a fault came, or what was stored is not durable.
    fn fault_in<W: Drop>(&self, end: &End<W>) -> Option<Fault> {
        match end.ended {
            Ended::Fault(fault) => Some(fault),
            Ended::WriteFailed => self.store.lost(),
            _ => None,
        }
    }

    // Writes the line of a connection to the log. If nobody reads it, the store is served all the same.
    fn tell<W: Drop>(&self, peer: &SocketAddr, begun: Duration, end: &End<W>) {
        if self.serving.log {
            let mut lines = self.lines.lock(self.rt);
            let _ = log(self.rt, &mut **lines, peer, begun, &talk_of(end));
        }
    }
}

/// A worker at the port of its server.
#[derive(Drop)]
pub(crate) struct Worker<'d, 'a, R, E>
where
    R: rt::Files<File = File> + Threads + Wait + Net + Clock + AllocGlobal + Clone + Drop,
{
    door: &'d Door<'a, R, E>,
    // The connection that it serves.
    name: u64,
    // Its other end, and when it came.
    peer: Option<SocketAddr>,
    begun: Duration,
}

impl<'d, 'a, R, E> Worker<'d, 'a, R, E>
where
    R: rt::Files<File = File> + Threads + Wait + Net + Clock + AllocGlobal + Clone + Drop,
    E: Write,
{
    /// A worker that serves nobody yet.
    pub(crate) fn new(door: &'d Door<'a, R, E>) -> Worker<'d, 'a, R, E> {
        Worker {
            door,
            name: 0,
            peer: None,
            begun: Duration::ZERO,
        }
    }

    // The next connection; none if no more is taken.
    fn take_next(&mut self) -> Option<(u64, Connection<'a, R, R::Stream>)> {
        let door = self.door;
        for _ in door.rt.forever() {
            let name = door.begin()?;
            match door.take(name) {
                Ok(Some((connection, peer))) => {
                    self.name = name;
                    self.peer = Some(peer);
                    self.begun = door.rt.monotonic().unwrap_or(Duration::ZERO);
                    return Some((name, connection));
                }
                Ok(None) => door.end(false),
                Err(fault) => {
                    door.end(false);
                    door.fail(fault);
                }
            }
        }
        None
    }
}

impl<'d, 'a, R, E> Port<Fallible<BufReader<R::Stream>>, AfterSync<'a, R, R::Stream>>
    for Worker<'d, 'a, R, E>
where
    R: rt::Files<File = File> + Threads + Wait + Net + Clock + AllocGlobal + Clone + Drop,
    E: Write,
{
    ghost use Rattle.std.specs.Prelude.{None, ⊤};

    ghost came = { λ _. None };

    ghost told = { λ _. None };

    ghost closed = { λ _. ⊤ };

    fn next(
        &mut self,
    ) -> Option<
        (
            u64,
            Fallible<BufReader<R::Stream>>,
            AfterSync<'a, R, R::Stream>,
        ),
    > {
        let (name, (reader, writer)) = self.take_next()?;
        Some((name, reader, writer))
    }

    fn ended(&mut self, end: End<AfterSync<'a, R, R::Stream>>)
        ensures came { ⊤ }
        ensures told { ⊤ }
    {
        if let Some(peer) = &self.peer {
            self.door.tell(peer, self.begun, &end);
        }
        self.peer = None;
        self.door.pushes().close(self.name);
        self.door.forget(self.name);
        self.door.end(!end.receipts.is_empty());
        if let Some(fault) = self.door.fault_in(&end) {
            self.door.fail(fault);
        }
    }
}
