//! The subcommands that ask another process, `fetch` and `push`, and what a run has to do with `serve`.
ghost use Rattle.std.specs.Prelude.{◌≡◌, map};
ghost use Rattle.vc_commands.specs.Remote.{FetchesFrom, PushesTo};
ghost use Rattle.vc_commands.specs.Performs.{PerformsRemote};

use crate::exchanging::{fetch_from, push_to};
use crate::host::Host;
use crate::performing::as_done;
use std::alloc::Global;
use std::io::Write;
use vc_arguments::RemoteTask;
use vc_cli::{Failure, Faults, Stores};
use vc_push_items::items_of;
use vc_transport::Place;

/// Asks a served store, and returns whether all was done, or takes up that a store is to be served. A clone's lock is held while it is worked
/// on, and not while an answer is waited for.
pub(crate) fn exchange<S, H, O, E>(
    alloc: Global,
    stores: &mut S,
    host: &mut H,
    store: &str,
    task: RemoteTask,
    words: &[&str],
    output: &mut O,
    faults: &mut Faults<E>,
) -> Result<bool, Failure>
where
    S: Stores,
    H: Host<S>,
    O: Write,
    E: Write,
    ensures { PerformsRemote (record { says = H.Server.says; remaining = H.Server.Answer.remaining; is_at = H.is_at; is_to_serve = H.is_to_serve host.new }) S.Files.honest store.now (map (λ word. word.now) words.now) (S.content stores.old) (S.content stores.new) (O.contents output.old) (O.contents output.new) task result }
{
    match task {
        RemoteTask::Serve(serving) => as_done(host.serve(store, serving)),
        RemoteTask::Fetch { port, timeout } => {
            let place = Place { port, timeout };
            as_done(fetch(alloc, stores, host, store, place, output, faults))
        }
        RemoteTask::Push {
            port,
            timeout,
            atomic,
        } => {
            let place = Place { port, timeout };
            push(
                alloc, stores, host, store, place, atomic, words, output, faults,
            )
        }
    }
}

// Fetches into the clone in this store from the shared node at a place, and prints how many refs moved. What could not be told on a
// terminal is a fault after the answer.
fn fetch<S, H, O, E>(
    alloc: Global,
    stores: &mut S,
    host: &mut H,
    store: &str,
    place: Place,
    output: &mut O,
    faults: &mut Faults<E>,
) -> Result<(), Failure>
where
    S: Stores,
    H: Host<S>,
    O: Write,
    E: Write,
    ensures { FetchesFrom S.Files.honest store.now (S.content stores.old) (S.content stores.new) (O.contents output.old) (O.contents output.new) (record { says = H.Server.says; remaining = H.Server.Answer.remaining; is_at = H.is_at; is_to_serve = H.is_to_serve host.new }) place result }
{
    let lock = stores.lock(store, faults)?;
    let files = stores.open_locked(&lock)?;
    let mut server = match host.dial(lock, place) {
        Ok(server) => server,
        Err(failure) => {
            stores.close(store, files);
            return Err(failure);
        }
    };
    fetch_from(alloc, stores, store, files, &mut server, output)?;
    host.hang_up(server)
}

// Pushes what the words name from the clone in this store to the shared node at a place, prints what became of each item, and returns
// whether all were done. If the push is atomic, all were done or none was. What could not be told on a terminal is a fault after the
// answer.
fn push<S, H, O, E>(
    alloc: Global,
    stores: &mut S,
    host: &mut H,
    store: &str,
    place: Place,
    atomic: bool,
    words: &[&str],
    output: &mut O,
    faults: &mut Faults<E>,
) -> Result<bool, Failure>
where
    S: Stores,
    H: Host<S>,
    O: Write,
    E: Write,
    ensures { PushesTo S.Files.honest store.now (S.content stores.old) (S.content stores.new) (O.contents output.old) (O.contents output.new) (record { says = H.Server.says; remaining = H.Server.Answer.remaining; is_at = H.is_at; is_to_serve = H.is_to_serve host.new }) place atomic (map (λ word. word.now) words.now) result }
{
    let lock = stores.lock(store, faults)?;
    let mut files = stores.open_locked(&lock)?;
    let items = match items_of(alloc, &mut files, words) {
        Ok(items) => items,
        Err(failure) => {
            stores.close(store, files);
            return Err(failure);
        }
    };
    // The command line has one at least.
    if items.is_empty() {
        stores.close(store, files);
        return Ok(true);
    }
    let mut server = match host.dial(lock, place) {
        Ok(server) => server,
        Err(failure) => {
            stores.close(store, files);
            return Err(failure);
        }
    };
    let done = push_to(
        alloc,
        stores,
        store,
        files,
        &mut server,
        atomic,
        &items,
        output,
    )?;
    host.hang_up(server)?;
    Ok(done)
}
