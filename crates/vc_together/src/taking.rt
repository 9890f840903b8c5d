// The connections that are served at once.
use crate::after_sync::AfterSync;
use crate::store::GroupStore;
use std::alloc::Global;
use std::fs::File;
use std::io::{self, BufReader, Read};
use std::net::{OpenListener, OpenStream, SocketAddr};
use std::rt;
use std::sync::Wait;
use vc_files::Fault;
use vc_folder::Syncs;
use vc_message::Fallible;
use vc_serving::pass_over;
use vc_transport::{fault_of, prepare};

/// What comes on a connection, and the way of its answers, each of which waits until what it tells of is durable.
pub(crate) type Connection<'a, R, S> = (Fallible<BufReader<S>>, AfterSync<'a, R, S>);

/// Connections in the order in which they came, and the other end of each.
#[derive(Drop)]
pub(crate) struct Taken<'a, R, S>
where
    R: rt::Files<File = File> + Syncs<File> + Wait + AllocGlobal + Clone + Drop,
    S: Read + Drop,
{
    pub connections: Vec<Connection<'a, R, S>>,
    pub peers: Vec<SocketAddr>,
}

/// Takes so many connections, and reads from none of them.
pub(crate) fn take<'a, R, L, S>(
    alloc: Global,
    store: &'a GroupStore<R>,
    listener: &L,
    count: u32,
    timeout: u32,
) -> Result<Taken<'a, R, S>, Fault>
where
    R: rt::Files<File = File> + Syncs<File> + Wait + AllocGlobal + Clone + Drop,
    L: OpenListener<Stream = S>,
    S: Read + OpenStream + Drop,
{
    let mut taken = Taken {
        connections: Vec::new(alloc),
        peers: Vec::new(alloc),
    };
    for _ in 0..u64::MAX {
        if taken.peers.len() as u64 >= count as u64 {
            break;
        }
        if let Some((connection, peer)) = take_one(alloc, store, listener, timeout)? {
            taken.connections.push(connection)?;
            taken.peers.push(peer)?;
        }
    }
    Ok(taken)
}

/// Takes the next connection, and reads nothing from it. None if its client gave it up before.
pub(crate) fn take_one<'a, R, L, S>(
    alloc: Global,
    store: &'a GroupStore<R>,
    listener: &L,
    timeout: u32,
) -> Result<Option<(Connection<'a, R, S>, SocketAddr)>, Fault>
where
    R: rt::Files<File = File> + Syncs<File> + Wait + AllocGlobal + Clone + Drop,
    L: OpenListener<Stream = S>,
    S: Read + OpenStream + Drop,
{
    let (stream, peer) = match listener.accept() {
        Ok(connection) => connection,
        Err(error) => {
            pass_over(&error)?;
            return Ok(None);
        }
    };
    if prepare(&stream, timeout).is_err() {
        return Ok(None);
    }
    match both_ways(alloc, stream) {
        Ok((reader, writer)) => Ok(Some(((reader, AfterSync::new(store, writer)), peer))),
        Err(error) => Err(fault_of(&error)),
    }
}

// A stream to read from and to write to.
fn both_ways<S: Read + OpenStream + Drop>(
    alloc: Global,
    stream: S,
) -> io::Result<(Fallible<BufReader<S>>, S)> {
    let writer = stream.try_clone()?;
    let reader = BufReader::new(alloc, stream)?;
    Ok((Fallible::new(reader), writer))
}
