// A pool of workers over one node.
ghost use Rattle.std.specs.Prelude.{◌≡◌, ◌≤◌, [], ℕ, IfErr, IfOk, List, vec_capacity, vec_len};
ghost use Rattle.std.specs.List.{AllZip};
ghost use Rattle.vc_files.specs.declared.faults.Fault.TheVariants.{Memory};
ghost use Rattle.vc_model.specs.Shared.{SharedNode};
ghost use Rattle.vc_desk.specs.Entry.{EntryText};
ghost use Rattle.vc_desk.specs.Pool.{FinishesPort, IsBegunAs, IsPortBegun, IsPortServed};
ghost use Rattle.vc_desk.specs.Runs.{Held, Runs};
ghost use Rattle.vc_desk.specs.Watching.{IsMade, RunsFrom};

use crate::desk::Desk;
use crate::locked::Origin;
use crate::port::Port;
use crate::watched::Watched;
use crate::work::{Gate, work};
use std::alloc::{AllocError, Global};
use std::io::Write;
use std::marker::{Brand, PhantomData};
use std::snapshot::Snapshot;
use std::sync::{Mutex, Wait};
use std::thread::{self, Promise, PromisedHandle, Scope, Threads};
use vc_files::{Fault, Files};
use vc_message::Source;
use vc_shared::Shared;

/// What a worker serves, whatever comes of it.
pub trait Line {
    ghost use Rattle.std.specs.Prelude.{ℕ};
    ghost use Rattle.vc_desk.specs.Talk.{ReceiptText};

    /// What it is to be served so, where each receipt is such a one, and no message longer than this.
    ghost served: { (ReceiptText → Type 0) → ℕ → Self → Self → Type 0 };

    /// Serves it to its end.
    fn serve<N: Desk, G: Gate, T: Wait>(
        self,
        rt: &T,
        alloc: Global,
        limit: u64,
        desk: &Mutex<N>,
        gate: &G,
    ) -> Self
        ensures { served N.made limit self result };
}

/// A port by itself.
#[derive(Drop)]
pub struct PortLine<P, R, W> {
    port: P,
    of: PhantomData<(R, W)>,
}

impl<P: Port<R, W>, R: Source + Drop, W: Write + Drop> Line for PortLine<P, R, W> {
    ghost use Rattle.vc_desk.specs.Pool.{IsPortServed};

    ghost served = { λ made limit old new. IsPortServed made limit R.can_fail R.remaining W.contents P.came P.told P.closed old.port new.port };

    fn serve<N: Desk, G: Gate, T: Wait>(
        self,
        rt: &T,
        alloc: Global,
        limit: u64,
        desk: &Mutex<N>,
        gate: &G,
    ) -> PortLine<P, R, W> {
        let PortLine { port, of } = self;
        PortLine {
            port: serve_port(rt, alloc, limit, desk, gate, port),
            of,
        }
    }
}

// What a worker owes.
#[derive(Drop)]
pub struct LinePledge<N, L> {
    limit: u64,
    line: Snapshot<L>,
    of: PhantomData<N>,
}

/// What was served.
#[derive(Drop)]
pub struct Done<L> {
    line: L,
}

impl<N: Desk, L: Line> Promise<Done<L>> for LinePledge<N, L> {
    ghost kept_by = { λ p done. L.served N.made p.limit p.line.value done.line };
}

// A worker, or what was served without a thread of its own.
#[derive(Drop)]
pub enum Begun<N: Desk, L: Line + Drop> {
    Worker(PromisedHandle<Done<L>, LinePledge<N, L>>),
    Ended(Done<L>),
}

// Serves one connection after another, until no more comes.
fn serve_port<N: Desk, P: Port<R, W>, R: Source + Drop, W: Write + Drop, G: Gate, T: Wait>(
    rt: &T,
    alloc: Global,
    limit: u64,
    desk: &Mutex<N>,
    gate: &G,
    mut port: P,
) -> P
    ensures { IsPortServed N.made limit R.can_fail R.remaining W.contents P.came P.told P.closed port result }
{
    'connections: for _ in rt.forever() {
        let Some(connection) = port.next() else {
            return port;
        };
        let (name, reader, writer) = connection;
        let end = work(rt, alloc, limit, desk, gate, name, reader, writer);
        port.ended(end);
    }
    unreachable!()
}

// Starts a worker. If there is no thread for it, it is done here.
fn start<'s, E, N: Desk + Send, L: Line + Drop + Send + 's, G: Gate + Sync, T: Wait + Sync>(
    scope: &Scope<'s, E>,
    rt: &'s T,
    alloc: Global,
    limit: u64,
    desk: &'s Mutex<N>,
    gate: &'s G,
    line: L,
) -> Begun<N, L>
    ensures { IsBegunAs (L.served N.made) limit line result }
{
    let pledge = LinePledge {
        limit,
        line: Snapshot::of(&line),
        of: PhantomData,
    };
    let run = move || -> Done<L>
        ensures { L.served N.made limit line result.line }
    {
        let line = line.serve(rt, alloc, limit, desk, gate);
        Done { line }
    };
    match scope.spawn_with(pledge, run) {
        Ok(worker) => Begun::Worker(worker),
        Err(refused) => Begun::Ended((refused.value)()),
    }
}

// Starts the worker of a port.
fn begin<
    's,
    E,
    N: Desk + Send,
    P: Port<R, W> + Drop + Send + 's,
    R: Source + Drop + Send + 's,
    W: Write + Drop + Send + 's,
    G: Gate + Sync,
    T: Wait + Sync,
>(
    scope: &Scope<'s, E>,
    rt: &'s T,
    alloc: Global,
    limit: u64,
    desk: &'s Mutex<N>,
    gate: &'s G,
    port: P,
) -> Begun<N, PortLine<P, R, W>>
    ensures { IsPortBegun N.made limit R.can_fail R.remaining W.contents P.came P.told P.closed port result }
{
    let line = PortLine {
        port,
        of: PhantomData,
    };
    start(scope, rt, alloc, limit, desk, gate, line)
}

// The port, once its worker has ended.
fn finish<N: Desk, P: Port<R, W> + Drop, R: Source + Drop, W: Write + Drop, T: Threads>(
    rt: &T,
    begun: Begun<N, PortLine<P, R, W>>,
) -> P
    ensures { (limit : ℕ) → FinishesPort N.made limit R.can_fail R.remaining W.contents P.came P.told P.closed begun result }
{
    let done = match begun {
        Begun::Worker(worker) => worker.join(rt),
        Begun::Ended(done) => done,
    };
    done.line.port
}

// Starts all workers, and waits for each.
fn run_in<
    's,
    E,
    N: Desk + Send,
    P: Port<R, W> + Drop + Send + 's,
    R: Source + Drop + Send + 's,
    W: Write + Drop + Send + 's,
    G: Gate + Sync,
    T: Threads + Wait + Sync,
>(
    scope: &Scope<'s, E>,
    rt: &'s T,
    alloc: Global,
    limit: u64,
    desk: &'s Mutex<N>,
    gate: &'s G,
    ports: Vec<P>,
    mut begun: Vec<Begun<N, PortLine<P, R, W>>>,
    mut served: Vec<P>,
) -> Vec<P>
    requires begun { (begun.items ≡ []) × (vec_len ports ≤ vec_capacity begun) }
    requires served { (served.items ≡ []) × (vec_len ports ≤ vec_capacity served) }
    ensures { AllZip (IsPortServed N.made limit R.can_fail R.remaining W.contents P.came P.told P.closed) ports.items result.items }
{
    'starts: for port in ports {
        begun.push_reserved(begin(scope, rt, alloc, limit, desk, gate, port));
    }
    'joins: for worker in begun {
        served.push_reserved(finish(rt, worker));
    }
    served
}

// Serves all ports at the node under the lock, in threads that have all ended.
fn serve_in_scope<
    'x,
    N: Desk + Send,
    P: Port<R, W> + Drop + Send,
    R: Source + Drop + Send,
    W: Write + Drop + Send,
    G: Gate + Sync,
    T: Threads + Wait + Sync,
>(
    rt: &'x T,
    alloc: Global,
    limit: u64,
    desk: &'x Mutex<N>,
    gate: &'x G,
    ports: Vec<P>,
    begun: Vec<Begun<N, PortLine<P, R, W>>>,
    served: Vec<P>,
) -> Vec<P>
    requires begun { (begun.items ≡ []) × (vec_len ports ≤ vec_capacity begun) }
    requires served { (served.items ≡ []) × (vec_len ports ≤ vec_capacity served) }
    ensures { AllZip (IsPortServed N.made limit R.can_fail R.remaining W.contents P.came P.told P.closed) ports.items result.items }
{
    thread::scope(
        thread::scope_env(),
        rt,
        move |scope| -> Vec<P>
            requires { (begun.items ≡ []) × (vec_len ports ≤ vec_capacity begun) × (served.items ≡ []) × (vec_len ports ≤ vec_capacity served) }
            ensures { AllZip (IsPortServed N.made limit R.can_fail R.remaining W.contents P.came P.told P.closed) ports.items result.items }
        { run_in(scope, rt, alloc, limit, desk, gate, ports, begun, served) },
    )
}

// The room that is needed before the first worker.
fn make_room<N: Desk, P: Port<R, W> + Drop, R: Source + Drop, W: Write + Drop>(
    alloc: Global,
    count: usize,
) -> Result<(Vec<Begun<N, PortLine<P, R, W>>>, Vec<P>), AllocError>
    ensures begun { IfOk result (λ r. (r.0.items ≡ []) × (count ≤ vec_capacity r.0)) }
    ensures served { IfOk result (λ r. (r.1.items ≡ []) × (count ≤ vec_capacity r.1)) }
{
    let begun = Vec::with_capacity(alloc, count)?;
    let served = Vec::with_capacity(alloc, count)?;
    Ok((begun, served))
}

// Serves all ports from the node that is handed in.
fn serve_at<
    J: Origin + Send + Sync,
    F: Files + Send,
    P: Port<R, W> + Drop + Send,
    R: Source + Drop + Send,
    W: Write + Drop + Send,
    G: Gate + Sync,
    T: Threads + Wait + Sync,
>(
    rt: &T,
    alloc: Global,
    limit: u64,
    shared: Shared<F>,
    ports: Vec<P>,
    gate: &G,
) -> Result<(Shared<F>, Vec<P>), (Shared<F>, Vec<P>, Fault)>
    requires held { (n : SharedNode) → J.held n → Held F.content shared n }
    ensures run { F.honest → IfOk result (λ r. (log : List EntryText) × RunsFrom (Held F.content) J.held log r.0) }
    ensures served { IfOk result (λ r. AllZip (IsPortServed (IsMade F.honest (Held F.content) J.held) limit R.can_fail R.remaining W.contents P.came P.told P.closed) ports.items r.1.items) }
    ensures err { IfErr result (λ e. (e.0 ≡ shared) × (e.1 ≡ ports) × (e.2 ≡ Memory)) }
{
    let Ok((begun, served)) = make_room(alloc, ports.len()) else {
        return Err((shared, ports, Fault::Memory));
    };
    let desk = Mutex::new(Watched::<F, J>::new(alloc, shared));
    let ports = serve_in_scope(rt, alloc, limit, &desk, gate, ports, begun, served);
    Ok((desk.into_inner().into_shared(), ports))
}

/// Serves the connections of all ports at one node, by a worker for each port, until no port has one more; then the node and the ports
/// are handed back, these in their order. The node is up and has no push open: the caller's condition. A worker serves one connection
/// after another, and keeps nothing of one that has ended. If no thread can be had for a port, it is served before the next is begun.
/// No message is longer than the limit, or it is refused (3). If there is no memory to begin with, nothing is served.
pub fn serve_ports<
    F: Files + Send,
    P: Port<R, W> + Drop + Send,
    R: Source + Drop + Send,
    W: Write + Drop + Send,
    G: Gate + Sync,
    T: Threads + Wait + Sync,
>(
    rt: &T,
    alloc: Global,
    limit: u64,
    shared: Shared<F>,
    ports: Vec<P>,
    gate: &G,
) -> Result<(Shared<F>, Vec<P>), (Shared<F>, Vec<P>, Fault)>
    ensures run { F.honest → IfOk result (λ r. (log : List EntryText) × Runs (Held F.content) shared log r.0) }
    ensures served { IfOk result (λ r. AllZip (IsPortServed (IsMade F.honest (Held F.content) (Held F.content shared)) limit R.can_fail R.remaining W.contents P.came P.told P.closed) ports.items r.1.items) }
    ensures err { IfErr result (λ e. (e.0 ≡ shared) × (e.1 ≡ ports) × (e.2 ≡ Memory)) }
{
    let served = serve_at::<Brand, F, P, R, W, G, T>(rt, alloc, limit, shared, ports, gate)?;
    Ok(served)
}
