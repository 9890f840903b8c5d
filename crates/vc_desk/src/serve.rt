// All connections at once.
ghost use Rattle.std.specs.Prelude.{◌≡◌, ◌≤◌, ◌<◌, [], ℕ, IfErr, IfOk, length, map, vec_capacity, vec_len};
ghost use Rattle.vc_model.specs.Shared.{SharedNode};
ghost use Rattle.vc_desk.specs.Runs.{Held, Runs};
ghost use Rattle.vc_shared.specs.Opening.{IsOpening};
ghost use Rattle.vc_desk.specs.Served.{AllServed, AreReceipts, Finishes, IsBegun, IsHandedBack, IsServed};

use crate::compare::agree;
use crate::kept::Kept;
use crate::locked::{Locked, Origin};
use crate::work::{End, Ended, Gate, work};
use std::alloc::{AllocError, Global};
use std::io::Write;
use std::marker::Brand;
use std::snapshot::Snapshot;
use std::sync::atomic::{AtomicBool, Ordering};
use std::sync::{Mutex, Wait};
use std::thread::{self, Promise, PromisedHandle, Scope, Threads};
use vc_files::{Fault, Files};
use vc_local::NodeFault;
use vc_message::Source;
use vc_shared::{Opening, Shared};

// What the worker of a connection owes.
#[derive(Drop)]
pub struct Pledge<R, W> {
    limit: u64,
    name: u64,
    reader: Snapshot<R>,
    writer: Snapshot<W>,
}

impl<R: Source + Drop, W: Write + Drop> Promise<End<W>> for Pledge<R, W> {
    ghost use Rattle.vc_desk.specs.Served.{IsServed};

    ghost kept_by = { λ p end. IsServed p.limit R.can_fail R.remaining W.contents p.name p.reader.value p.writer.value end };
}

// A worker, or the end of a connection that has none.
#[derive(Drop)]
pub enum Started<R: Source + Drop, W: Write + Drop> {
    Worker(PromisedHandle<End<W>, Pledge<R, W>>),
    Not(End<W>),
}

/// The node with its log, and the end of each connection.
#[derive(Drop)]
pub struct All<F: Files, W> {
    pub kept: Kept<F>,
    pub ends: Vec<End<W>>,
}

/// Why nothing was served, or what was served is not told as served.
#[derive(Drop)]
pub enum NotServed<F: Files, R, W> {
    /// A refusal or a fault came before the first worker.
    Before(Shared<F>, Vec<(R, W)>, NodeFault),
    /// 118: the receipts are not the log's entries, or the opening of the node that was served is not this one, which the node had that
    /// was handed in.
    LogDiffers(All<F, W>, Opening),
}

// Starts the worker of a connection. If there is no thread for it, the connection ends with no receipts.
fn start<
    's,
    E,
    F: Files + Send,
    J: Origin + Send + Sync,
    R: Source + Drop + Send + 's,
    W: Write + Drop + Send + 's,
    G: Gate + Sync,
    T: Wait + Sync,
>(
    scope: &Scope<'s, E>,
    rt: &'s T,
    alloc: Global,
    limit: u64,
    desk: &'s Mutex<Locked<F, J>>,
    gate: &'s G,
    is_refused: &'s AtomicBool,
    name: u64,
    reader: R,
    writer: W,
) -> Started<R, W>
    ensures { IsBegun limit R.can_fail R.remaining W.contents name reader writer result }
{
    let pledge = Pledge {
        limit,
        name,
        reader: Snapshot::of(&reader),
        writer: Snapshot::of(&writer),
    };
    let place = (limit, name);
    let run = move || -> End<W>
        ensures { IsServed place.0 R.can_fail R.remaining W.contents place.1 reader writer result }
    { run_or_end(rt, alloc, place, desk, gate, is_refused, reader, writer) };
    match scope.spawn_with(pledge, run) {
        Ok(worker) => Started::Worker(worker),
        Err(refused) => {
            is_refused.store(true, Ordering::SeqCst);
            Started::Not((refused.value)())
        }
    }
}

// Serves the connection, unless no thread could be started for it.
fn run_or_end<F: Files, J: Origin, R: Source + Drop, W: Write + Drop, G: Gate, T: Wait>(
    rt: &T,
    alloc: Global,
    place: (u64, u64),
    desk: &Mutex<Locked<F, J>>,
    gate: &G,
    is_refused: &AtomicBool,
    reader: R,
    writer: W,
) -> End<W>
    ensures { IsServed place.0 R.can_fail R.remaining W.contents place.1 reader writer result }
{
    if is_refused.load(Ordering::SeqCst) {
        return End {
            writer,
            ended: Ended::Fault(Fault::Memory),
            receipts: Vec::new(alloc),
        };
    }
    let (limit, name) = place;
    work(rt, alloc, limit, desk, gate, name, reader, writer)
}

// The end of a connection, once its worker has ended.
fn finish<R: Source + Drop, W: Write + Drop, T: Threads>(rt: &T, started: Started<R, W>) -> End<W>
    ensures { (limit : ℕ) → Finishes limit R.can_fail R.remaining W.contents started result }
{
    match started {
        Started::Worker(worker) => worker.join(rt),
        Started::Not(end) => end,
    }
}

// Starts all workers, and waits for each.
fn run_in<
    's,
    E,
    F: Files + Send,
    J: Origin + Send + Sync,
    R: Source + Drop + Send + 's,
    W: Write + Drop + Send + 's,
    G: Gate + Sync,
    T: Threads + Wait + Sync,
>(
    scope: &Scope<'s, E>,
    rt: &'s T,
    alloc: Global,
    limit: u64,
    desk: &'s Mutex<Locked<F, J>>,
    gate: &'s G,
    flags: &'s [AtomicBool],
    connections: Vec<(R, W)>,
    mut started: Vec<Started<R, W>>,
    mut ends: Vec<End<W>>,
) -> Vec<End<W>>
    requires begun { (started.items ≡ []) × (vec_len connections ≤ vec_capacity started) × (vec_len connections ≤ length flags.now) }
    requires ends { (ends.items ≡ []) × (vec_len connections ≤ vec_capacity ends) }
    ensures { AllServed limit R.can_fail R.remaining W.contents 0 connections.items result.items }
{
    let mut name = 0usize;
    'starts: for connection in connections {
        let (reader, writer) = connection;
        let worker = start(
            scope,
            rt,
            alloc,
            limit,
            desk,
            gate,
            &flags[name],
            name as u64,
            reader,
            writer,
        );
        started.push_reserved(worker);
        name += 1;
    }
    'joins: for worker in started {
        ends.push_reserved(finish(rt, worker));
    }
    ends
}

// Serves all connections at the node under the lock, in threads that have all ended.
fn serve_in_scope<
    'x,
    F: Files + Send,
    J: Origin + Send + Sync,
    R: Source + Drop + Send,
    W: Write + Drop + Send,
    G: Gate + Sync,
    T: Threads + Wait + Sync,
>(
    rt: &'x T,
    alloc: Global,
    limit: u64,
    desk: &'x Mutex<Locked<F, J>>,
    gate: &'x G,
    flags: &'x [AtomicBool],
    connections: Vec<(R, W)>,
    started: Vec<Started<R, W>>,
    ends: Vec<End<W>>,
) -> Vec<End<W>>
    requires begun { (started.items ≡ []) × (vec_len connections ≤ vec_capacity started) × (vec_len connections ≤ length flags.now) }
    requires ends { (ends.items ≡ []) × (vec_len connections ≤ vec_capacity ends) }
    ensures { AllServed limit R.can_fail R.remaining W.contents 0 connections.items result.items }
{
    thread::scope(
        thread::scope_env(),
        rt,
        move |scope| -> Vec<End<W>>
            requires { (started.items ≡ []) × (vec_len connections ≤ vec_capacity started) × (vec_len connections ≤ length flags.now) × (ends.items ≡ []) × (vec_len connections ≤ vec_capacity ends) }
            ensures { AllServed limit R.can_fail R.remaining W.contents 0 connections.items result.items }
        {
            run_in(
                scope,
                rt,
                alloc,
                limit,
                desk,
                gate,
                flags,
                connections,
                started,
                ends,
            )
        },
    )
}

// Serves all connections from the node that is kept.
fn serve_at<
    J: Origin + Send + Sync,
    F: Files + Send,
    R: Source + Drop + Send,
    W: Write + Drop + Send,
    G: Gate + Sync,
    T: Threads + Wait + Sync,
>(
    rt: &T,
    alloc: Global,
    limit: u64,
    kept: Kept<F>,
    connections: Vec<(R, W)>,
    gate: &G,
    flags: &[AtomicBool],
    started: Vec<Started<R, W>>,
    ends: Vec<End<W>>,
) -> (Kept<F>, Vec<End<W>>)
    requires held { (n : SharedNode) → J.held n → Held F.content kept.start n }
    requires begun { (started.items ≡ []) × (vec_len connections ≤ vec_capacity started) × (vec_len connections ≤ length flags.now) }
    requires ends { (ends.items ≡ []) × (vec_len connections ≤ vec_capacity ends) }
    ensures start { (n : SharedNode) → J.held n → Held F.content result.0.start n }
    ensures served { AllServed limit R.can_fail R.remaining W.contents 0 connections.items result.1.items }
{
    let desk = Mutex::new(Locked::<F, J>::new(kept));
    let ends = serve_in_scope(
        rt,
        alloc,
        limit,
        &desk,
        gate,
        flags,
        connections,
        started,
        ends,
    );
    (desk.into_inner().into_kept(), ends)
}

// The room that is needed before the first worker.
fn make_room<R: Source + Drop, W: Write + Drop>(
    alloc: Global,
    count: usize,
) -> Result<(Vec<AtomicBool>, Vec<Started<R, W>>, Vec<End<W>>), AllocError>
    ensures flags { IfOk result (λ r. count ≤ vec_len r.0) }
    ensures started { IfOk result (λ r. (r.1.items ≡ []) × (count ≤ vec_capacity r.1)) }
    ensures ends { IfOk result (λ r. (r.2.items ≡ []) × (count ≤ vec_capacity r.2)) }
{
    let mut flags = Vec::with_capacity(alloc, count)?;
    'flags: while flags.len() < count {
        flags.push(AtomicBool::new(false))?;
    }
    let started = Vec::with_capacity(alloc, count)?;
    let ends = Vec::with_capacity(alloc, count)?;
    Ok((flags, started, ends))
}

/// Serves all connections at once, each by a worker of its own, and waits for all of them. The node is up and has no push open: the
/// caller's condition. A connection is named by its place in the list. No message is longer than the limit, or it is refused (3).
pub fn serve_all<
    F: Files + Send,
    R: Source + Drop + Send,
    W: Write + Drop + Send,
    G: Gate + Sync,
    T: Threads + Wait + Sync,
>(
    rt: &T,
    alloc: Global,
    limit: u64,
    shared: Shared<F>,
    connections: Vec<(R, W)>,
    gate: &G,
) -> Result<All<F, W>, NotServed<F, R, W>>
    ensures run { F.honest → IfOk result (λ all. Runs (Held F.content) shared all.kept.log all.kept.shared) }
    ensures opening { F.honest → IfOk result (λ all. (n : SharedNode) → Held F.content shared n → IsOpening all.kept.opening n) }
    ensures receipts { IfOk result (λ all. AreReceipts all.kept.log 0 all.ends.items) }
    ensures served { IfOk result (λ all. AllServed limit R.can_fail R.remaining W.contents 0 connections.items all.ends.items) }
    ensures err { IfErr result (IsHandedBack F.content shared connections.items) }
{
    let mut shared = shared;
    let Ok((flags, started, ends)) = make_room(alloc, connections.len()) else {
        let fault = NodeFault::from(Fault::Memory);
        return Err(NotServed::Before(shared, connections, fault));
    };
    let opening = match shared.opening() {
        Ok(opening) => opening,
        Err(fault) => return Err(NotServed::Before(shared, connections, fault)),
    };
    let kept = match Kept::new(alloc, shared) {
        Ok(kept) => kept,
        Err((shared, fault)) => return Err(NotServed::Before(shared, connections, fault)),
    };
    let (kept, ends) = serve_at::<Brand, F, R, W, G, T>(
        rt,
        alloc,
        limit,
        kept,
        connections,
        gate,
        flags.as_slice(),
        started,
        ends,
    );
    kept.is_a_run();
    if !kept.opening().is_same(&opening) {
        return Err(NotServed::LogDiffers(All { kept, ends }, opening));
    }
    if !agree(kept.entries(), ends.as_slice()) {
        return Err(NotServed::LogDiffers(All { kept, ends }, opening));
    }
    Ok(All { kept, ends })
}
