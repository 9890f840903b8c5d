//! The subcommand `serve` with connections at once.

use crate::home_files::HomeFiles;
use crate::store::GroupStore;
use crate::taking::{Taken, take};
use crate::telling::{fault_in, log_ends};
use std::fs::File;
use std::io::Write;
use std::net::Net;
use std::rt;
use std::sync::Wait;
use std::thread::Threads;
use std::time::{Clock, Duration};
use vc_arguments::Serving;
use vc_cli::{Failure, Faults, keep_objects, only_writer};
use vc_desk::{All, Gate, NotServed, serve_all};
use vc_files::Files;
use vc_local::NodeFault;
use vc_serving::{MEBIBYTE, open_port};
use vc_shared::Shared;

/// Nothing is waited for between two entries.
pub(crate) struct Open;

impl Gate for Open {
    fn pass(&self, _connection: u64, _entries: u64) {}
}

/// Takes so many connections to the store in this folder, then serves all of them at once, and says whether their receipts are the log of
/// the node that was served. The store is the server's alone from then on until the last connection has ended.
pub fn serve_together<R, O, E>(
    rt: &R,
    store: &str,
    count: u32,
    serving: Serving,
    output: &mut O,
    faults: &mut Faults<E>,
) -> Result<bool, Failure>
where
    R: rt::Files<File = File>
        + Threads
        + Wait
        + Net
        + Clock
        + AllocGlobal
        + Clone
        + Drop
        + Send
        + Sync,
    R::Stream: Send,
    R::Dir: Send,
    O: Write,
    E: Write,
{
    let listener = open_port(rt, store, serving.port, output, faults)?;
    // The folder is the one that is there now, and not the one that stands at its path once all have come.
    let home = GroupStore::new(rt, store)?;
    let taken = take(rt.alloc(), &home, &listener, count, serving.timeout)?;
    home.look_home()?;
    serve_taken(rt, store, serving, &home, taken, faults)
}

// Serves the connections that were taken.
fn serve_taken<R, E>(
    rt: &R,
    store: &str,
    serving: Serving,
    home: &GroupStore<R>,
    taken: Taken<'_, R, R::Stream>,
    faults: &mut Faults<E>,
) -> Result<bool, Failure>
where
    R: rt::Files<File = File>
        + Threads
        + Wait
        + Net
        + Clock
        + AllocGlobal
        + Clone
        + Drop
        + Send
        + Sync,
    R::Stream: Send,
    R::Dir: Send,
    E: Write,
{
    let alloc = rt.alloc();
    let begun = rt.monotonic()?;
    let _lock = only_writer(rt, store, faults)?;
    let _kept = keep_objects(rt, store)?;
    let Taken { connections, peers } = taken;
    let shared = match Shared::open(alloc, HomeFiles::new(alloc, home)?) {
        Ok(shared) => shared,
        Err((_files, fault)) => return Err(Failure::Node(fault)),
    };
    let limit = serving.limit.saturating_mul(MEBIBYTE);
    let served = serve_all(rt, alloc, limit, shared, connections, &Open);
    let (all, is_log) = match outcome_of(served) {
        Ok(outcome) => outcome,
        Err(fault) => return Err(Failure::Node(fault)),
    };
    let All { kept: _, ends } = all;
    home.settle()?;
    if serving.log {
        // If nobody reads the log, what comes after it is told all the same.
        let _ = log_ends(rt, &mut faults.stream, &peers, &ends, begun);
    }
    if let Some(fault) = fault_in(&ends) {
        return Err(Failure::Fault(fault));
    }
    if !is_log {
        writeln!(faults.stream, "vcs: 118 LogDiffers")?;
    }
    Ok(is_log)
}

// What was served, and whether its receipts are the log's entries; or why nothing was.
fn outcome_of<F: Files + Drop, R: Drop, W: Drop>(
    served: Result<All<F, W>, NotServed<F, R, W>>,
) -> Result<(All<F, W>, bool), NodeFault> {
    match served {
        Ok(all) => Ok((all, true)),
        Err(not_served) => match not_served {
            NotServed::LogDiffers(all, _opening) => Ok((all, false)),
            NotServed::Before(_shared, _connections, fault) => Err(fault),
        },
    }
}
