//! One run of the program: from words and streams to an exit status.
ghost use Rattle.clap.specs.Words.{kind_of, subcommand_rows_of};
ghost use Rattle.clap.specs.declared.error.kind.ErrorKind.TheVariants as kind;
ghost use Rattle.std.specs.Option.{option_map};
ghost use Rattle.std.specs.Prelude.{◌≡◌, ◌⊎◌, None, false, true, IfErr, IsErr, IsSome, OnOk, map};
ghost use Rattle.vc_arguments.specs.Requests.{option_without_folder};
ghost use Rattle.vc_cli.specs.Failure.{IsFault, status_of};
ghost use Rattle.vc_arguments.specs.Writers.{needs_store};
ghost use Rattle.vc_cli.specs.Stores.{IsUnopened, StoresStay};
ghost use Rattle.vc_commands.specs.Performs.{Found};
ghost use Rattle.vc_commands.specs.Running.{EndsSo, IsExplained, IsStatusOf, IsToldSo, Runs, RunsFor, TellsFailure};

use crate::folder_host::{FolderHost, ToServe, serve_store};
use crate::host::Host;
use crate::performing::perform;
use clap::error::ErrorKind;
use clap::{ArgMatches, Error};
use std::alloc::Global;
use std::convert::AsStr;
use std::fs::File;
use std::io::{Read, Write};
use std::net::Net;
use std::rt;
use std::sync::Wait;
use std::thread::Threads;
use std::time::Clock;
use vc_arguments::{
    RemoteTask, Request, Task, command, list_of, option_without_folder, request_of, terms_of,
};
use vc_cli::{Failure, Faults, FolderStores, Stores};
use vc_files::Fault;
use vc_reading::{Input, Lists, line_of_refusal};
use vc_work_folder::Beside;
use vc_working::{FolderTrees, WorkTrees};

/// Does what the words ask for and gives the exit status: 0 done, 1 refused, 2 a command line that is off, 3 a
/// fault. Answers go to `output`, everything else to `faults`, but how far a long message is to `progress`. The first word is the program's
/// name. A command that writes to its store waits for another one that does.
pub fn run<R, W, I, O, E, P>(
    rt: &R,
    words: &[W],
    input: Input<I>,
    output: &mut O,
    faults: &mut Faults<E>,
    progress: Faults<P>,
) -> u8
where
    W: AsStr,
    R: rt::Files<File = File>
        + Threads
        + Wait
        + Net
        + Clock
        + Beside<R>
        + AllocGlobal
        + Clone
        + Drop
        + Send
        + Sync,
    R::Stream: Send,
    R::Listener: Sync,
    R::Dir: Send,
    I: Read + Drop,
    O: Write,
    E: Write + Send,
    P: Write + Drop,
{
    let alloc = rt.alloc();
    let mut stores = FolderStores::new(rt);
    let mut trees = FolderTrees::new(rt);
    let mut host = FolderHost::new(rt, progress);
    let status = run_with(
        alloc,
        &mut stores,
        &mut trees,
        &mut host,
        words,
        input,
        output,
        faults,
    );
    match host.into_served() {
        Some(to_serve) => end_serving(rt, &to_serve, output, faults),
        None => status,
    }
}

// Serves a store, and gives the status.
fn end_serving<R, O, E>(rt: &R, to_serve: &ToServe, output: &mut O, faults: &mut Faults<E>) -> u8
where
    R: rt::Files<File = File>
        + Threads
        + Wait
        + Net
        + Clock
        + AllocGlobal
        + Clone
        + Drop
        + Send
        + Sync,
    R::Stream: Send,
    R::Listener: Sync,
    R::Dir: Send,
    O: Write,
    E: Write + Send,
{
    let answer = serve_store(rt, to_serve, output, faults);
    let request = Request {
        store: to_serve.store.as_str(),
        is_named: true,
        task: Task::Remote(RemoteTask::Serve(to_serve.serving)),
    };
    let lists = Lists {
        terms: "",
        parents: &[],
        items: &[],
        paths: &[],
    };
    let mut stores = FolderStores::new(rt);
    end(rt.alloc(), &mut stores, &request, lists, answer, faults)
}

/// The same run over any stores, work trees and host.
pub fn run_with<S, T, H, W, I, O, E>(
    alloc: Global,
    stores: &mut S,
    trees: &mut T,
    host: &mut H,
    words: &[W],
    input: Input<I>,
    output: &mut O,
    faults: &mut Faults<E>,
) -> u8
where
    S: Stores,
    T: WorkTrees,
    H: Host<S>,
    W: AsStr,
    I: Read + Drop,
    O: Write,
    E: Write,
    ensures runs { Runs S.Files.content S.is_durable (record { honest = S.Files.honest; trees_honest = T.Tree.honest; can_hold = T.can_hold trees.old; own = T.own trees.old; bodies = H.bodies host.old; input = I.remaining input.stream }) (S.content stores.old) (S.content stores.new) (T.trees trees.old) (T.trees trees.new) (O.contents output.old) (O.contents output.new) (record { says = H.Server.says; remaining = H.Server.Answer.remaining; is_at = H.is_at; is_to_serve = H.is_to_serve host.new }) (map W.text words.now) result }
{
    match obey(alloc, stores, trees, host, words, input, output, faults) {
        Ok(status) => status,
        Err(failure) => tell(&failure, None, faults),
    }
}

// Reads the words, and does what they ask for.
fn obey<S, T, H, W, I, O, E>(
    alloc: Global,
    stores: &mut S,
    trees: &mut T,
    host: &mut H,
    words: &[W],
    input: Input<I>,
    output: &mut O,
    faults: &mut Faults<E>,
) -> Result<u8, Failure>
where
    S: Stores,
    T: WorkTrees,
    H: Host<S>,
    W: AsStr,
    I: Read + Drop,
    O: Write,
    E: Write,
    ensures { EndsSo (Runs S.Files.content S.is_durable (record { honest = S.Files.honest; trees_honest = T.Tree.honest; can_hold = T.can_hold trees.old; own = T.own trees.old; bodies = H.bodies host.old; input = I.remaining input.stream }) (S.content stores.old) (S.content stores.new) (T.trees trees.old) (T.trees trees.new) (O.contents output.old) (O.contents output.new) (record { says = H.Server.says; remaining = H.Server.Answer.remaining; is_at = H.is_at; is_to_serve = H.is_to_serve host.new }) (map W.text words.now)) result }
{
    let program = command(alloc)?;
    match program.try_get_matches_from(words) {
        Ok(matches) => answer(alloc, stores, trees, host, &matches, input, output, faults),
        Err(error) => explain(&error, output, &mut faults.stream),
    }
}

// Does what these matches ask for.
fn answer<S, T, H, I, O, E>(
    alloc: Global,
    stores: &mut S,
    trees: &mut T,
    host: &mut H,
    matches: &ArgMatches<'_>,
    input: Input<I>,
    output: &mut O,
    faults: &mut Faults<E>,
) -> Result<u8, Failure>
where
    S: Stores,
    T: WorkTrees,
    H: Host<S>,
    I: Read + Drop,
    O: Write,
    E: Write,
    ensures { EndsSo (RunsFor S.Files.content S.is_durable (record { honest = S.Files.honest; trees_honest = T.Tree.honest; can_hold = T.can_hold trees.old; own = T.own trees.old; bodies = H.bodies host.old; input = I.remaining input.stream }) (S.content stores.old) (S.content stores.new) (T.trees trees.old) (T.trees trees.new) (O.contents output.old) (O.contents output.new) (record { says = H.Server.says; remaining = H.Server.Answer.remaining; is_at = H.is_at; is_to_serve = H.is_to_serve host.new }) (subcommand_rows_of matches.now)) result }
{
    refuse_unnamed_folder(alloc, matches)?;
    let terms = terms_of(alloc, matches)?;
    let parents = list_of(alloc, matches, "parent")?;
    let items = list_of(alloc, matches, "item")?;
    let paths = list_of(alloc, matches, "paths")?;
    let Some(request) = request_of(matches) else {
        return Ok(2);
    };
    let lists = Lists {
        terms: terms.as_str(),
        parents: &parents,
        items: &items,
        paths: &paths,
    };
    look_above::<S, H>(host, &request)?;
    let answer = perform(
        alloc, stores, trees, host, &request, lists, input, output, faults,
    );
    Ok(end(alloc, stores, &request, lists, answer, faults))
}

// Refuses to begin a second store below the folder of another one, if no store is named and one is needed.
fn look_above<S: Stores, H: Host<S>>(host: &mut H, request: &Request<'_>) -> Result<(), Failure>
    ensures refused { IfErr result (λ e. (request.now.is_named ≡ false) × (needs_store request.now.task ≡ true) × IsUnopened e) }
    ensures same { H.bodies host.new ≡ H.bodies host.old }
{
    if request.is_named || !request.task.needs_store() {
        return Ok(());
    }
    host.refuse_second_store()
}

// The status of an answer. Why there is none is told.
fn end<S: Stores, E: Write>(
    alloc: Global,
    stores: &mut S,
    request: &Request<'_>,
    lists: Lists<'_>,
    answer: Result<bool, Failure>,
    faults: &mut Faults<E>,
) -> u8
    ensures status { IsStatusOf answer result }
    ensures told { IfErr answer (IsToldSo E.contents faults.old faults.new result) }
    ensures same { StoresStay (S.content stores.old) (S.content stores.new) }
{
    match answer {
        Ok(true) => 0,
        Ok(false) => 1,
        Err(failure) => tell_at(alloc, stores, request, lists, &failure, faults),
    }
}

// Tells why the command ended, and on a terminal what is at fault. Where that can't be found, the refusal is told all the same.
fn tell_at<S: Stores, E: Write>(
    alloc: Global,
    stores: &mut S,
    request: &Request<'_>,
    lists: Lists<'_>,
    failure: &Failure,
    faults: &mut Faults<E>,
) -> u8
    ensures told { IsToldSo E.contents faults.old faults.new result failure.now }
    ensures same { StoresStay (S.content stores.old) (S.content stores.new) }
{
    if !faults.is_terminal {
        return tell(failure, None, faults);
    }
    match line_of_refusal(alloc, stores, request.store, request.task, lists, failure) {
        Ok(Some(line)) => tell(failure, Some(&line), faults),
        Ok(None) => tell(failure, None, faults),
        Err(_) => tell(failure, None, faults),
    }
}

/// Tells why a command ended, with a line behind it on a terminal, and gives the exit status: 3 where not even that can be
/// told.
pub fn tell<E: Write>(failure: &Failure, behind: Option<&[u8]>, faults: &mut Faults<E>) -> u8
    ensures status { (result ≡ status_of failure.now) ⊎ (result ≡ 3) }
    ensures told { TellsFailure E.contents faults.old faults.new (option_map (λ line. line.now) behind.entry) failure.now result }
{
    match failure.report(behind, faults) {
        Ok(status) => status,
        Err(fault) => fault.status(),
    }
}

// Refuses an option that names no folder.
fn refuse_unnamed_folder(alloc: Global, matches: &ArgMatches<'_>) -> Result<(), Failure>
    ensures named { OnOk result (option_without_folder (subcommand_rows_of matches.now) ≡ None) }
    ensures refused { IfErr result (λ e. IsFault e ⊎ ((status_of e ≡ 2) × IsSome (option_without_folder (subcommand_rows_of matches.now)))) }
{
    match option_without_folder(matches) {
        Some(option) => Err(Failure::Usage(format!(in alloc;
            "{option} names no folder: its value is empty"
        )?)),
        None => Ok(()),
    }
}

// Prints what the reader of the command line has to say: help that was asked for, or what is off.
fn explain<O: Write, E: Write>(error: &Error, output: &mut O, faults: &mut E) -> Result<u8, Failure>
    ensures explained { IsExplained result }
    ensures memory { kind_of error.now ≡ kind.OutOfMemory → IsErr result }
{
    if error.kind() == ErrorKind::OutOfMemory {
        return Err(Failure::Fault(Fault::Memory));
    }
    if error.use_stderr() {
        write!(faults, "{error}")?;
        return Ok(2);
    }
    write!(output, "{error}")?;
    Ok(0)
}
