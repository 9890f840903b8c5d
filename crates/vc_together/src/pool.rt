//! The subcommand `serve` with a pool of workers.

use crate::door::{Door, Worker};
use crate::home_files::HomeFiles;
use crate::store::GroupStore;
use std::fs::File;
use std::io::Write;
use std::net::Net;
use std::rt;
use std::sync::Wait;
use std::thread::Threads;
use std::time::Clock;
use vc_arguments::Serving;
use vc_cli::{Failure, Faults, FolderStores, keep_objects, only_writer};
use vc_desk::serve_ports;
use vc_files::Files;
use vc_serving::{MEBIBYTE, listen, make_ready};
use vc_shared::Shared;

/// Serves connections to the store in this folder, so many at once, each by the next worker that is free. The store is the server's alone
/// until it ends. The log of its node is known to the proofs and kept by nobody, so a server may live long.
pub fn serve_by_workers<R, O, E>(
    rt: &R,
    store: &str,
    workers: u32,
    serving: Serving,
    output: &mut O,
    faults: &mut Faults<E>,
) -> Result<(), Failure>
where
    R: rt::Files<File = File>
        + Threads
        + Wait
        + Net
        + Clock
        + AllocGlobal
        + Clone
        + Drop
        + Send
        + Sync,
    R::Stream: Send,
    R::Listener: Sync,
    R::Dir: Send,
    O: Write,
    E: Write + Send,
{
    let alloc = rt.alloc();
    make_ready(alloc, &mut FolderStores::new(rt), store, faults)?;
    let _lock = only_writer(rt, store, faults)?;
    let _kept = keep_objects(rt, store)?;
    let home = GroupStore::new(rt, store)?;
    let shared = match Shared::open(alloc, HomeFiles::new(alloc, &home)?) {
        Ok(shared) => shared,
        Err((_files, fault)) => return Err(Failure::Node(fault)),
    };
    home.settle()?;
    let listener = listen(rt, serving.port, output, faults)?;
    serve_home(
        rt,
        &home,
        listener,
        workers,
        serving,
        shared,
        &mut faults.stream,
    )?;
    home.settle()?;
    Ok(())
}

// Serves the connections of a listener from the node of a store.
fn serve_home<'x, R, E>(
    rt: &'x R,
    home: &'x GroupStore<R>,
    listener: R::Listener,
    workers: u32,
    serving: Serving,
    shared: Shared<HomeFiles<'x, R>>,
    lines: &'x mut E,
) -> Result<(), Failure>
where
    R: rt::Files<File = File>
        + Threads
        + Wait
        + Net
        + Clock
        + AllocGlobal
        + Clone
        + Drop
        + Send
        + Sync,
    R::Stream: Send,
    R::Listener: Sync,
    R::Dir: Send,
    E: Write + Send,
{
    let door = Door::new(rt, home, listener, serving, lines);
    let limit = serving.limit.saturating_mul(MEBIBYTE);
    serve_door(rt, &door, workers, limit, shared)?;
    match door.fault() {
        Some(fault) => Err(Failure::Fault(fault)),
        None => Ok(()),
    }
}

// Serves what comes at a door by so many workers, until no more comes.
fn serve_door<'d, 'x, R, E>(
    rt: &R,
    door: &'d Door<'x, R, E>,
    workers: u32,
    limit: u64,
    shared: Shared<HomeFiles<'x, R>>,
) -> Result<(), Failure>
where
    R: rt::Files<File = File>
        + Threads
        + Wait
        + Net
        + Clock
        + AllocGlobal
        + Clone
        + Drop
        + Send
        + Sync,
    R::Stream: Send,
    R::Listener: Sync,
    R::Dir: Send,
    E: Write + Send,
{
    let alloc = rt.alloc();
    let mut ports = Vec::new(alloc);
    for _ in 0..workers {
        ports.push(Worker::new(door))?;
    }
    match serve_ports(rt, alloc, limit, shared, ports, door.pushes()) {
        Ok(_) => Ok(()),
        Err((_shared, _ports, fault)) => Err(Failure::Fault(fault)),
    }
}
