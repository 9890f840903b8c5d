//! A whole fetch and a whole push of the clone in a store, whoever is asked, and what is printed of it.
ghost use Rattle.std.specs.Prelude.{◌≢◌, [], IfErr};
ghost use Rattle.vc_cli.specs.Failure.{IsFault};
ghost use Rattle.vc_cli.specs.Stores.{OthersStay};
ghost use Rattle.vc_commands.specs.Exchanging.{EndsTold, TellsFetch, TellsPush};
ghost use Rattle.vc_local.specs.Opening.{OpenableAs};
ghost use Rattle.vc_model.specs.Repository.{IsSound};
ghost use Rattle.vc_node.specs.Node.{PushesNoZero};
ghost use Rattle.vc_node.specs.Stored.{KeepsStored};
ghost use Rattle.vc_rules.specs.Git.{git};
ghost use Rattle.vc_world.specs.Alone.{FetchAlone, PushAlone};
ghost use Rattle.vc_world.specs.OverFiles.{IsUnopened, LeadsFiles};

use crate::remote_failure::failure_of;
use std::alloc::Global;
use std::io::Write;
use vc_cli::{Failure, Stores, print_text};
use vc_push::Report;
use vc_remote::RemoteFault;
use vc_sending::PushItem;
use vc_transport::{is_done, report_lines};
use vc_world::{ExchangeEnd, Fetched, Peer, fetch_into, push_from};

/// Fetches into the clone that the files of this store hold, and hands them back; prints how many refs moved. Whatever the peer says, the
/// clone is led by its own calls and by what came.
pub fn fetch_from<S, P, O>(
    alloc: Global,
    stores: &mut S,
    store: &str,
    files: S::Files,
    peer: &mut P,
    output: &mut O,
) -> Result<(), Failure>
where
    S: Stores,
    P: Peer<Refusal = RemoteFault>,
    O: Write,
    ensures fetched { EndsTold (λ end told. TellsFetch end (O.contents output.old) (O.contents output.new) told) (λ end. S.Files.honest → OpenableAs (S.Files.content files) (λ r. IsSound git r → LeadsFiles (S.content stores.new store.now) r (IsUnopened peer.old end peer.new) (FetchAlone P.says P.Answer.remaining peer.old end peer.new))) result }
    ensures kept { S.Files.honest → KeepsStored (S.Files.content files) (S.content stores.new store.now) }
    ensures others { OthersStay store.now (S.content stores.old) (S.content stores.new) }
{
    let (mut files, fetched) = fetch_into(alloc, peer, files);
    let settled = stores.settle(&mut files);
    stores.close(store, files);
    tell_fetch(alloc, fetched, settled, output)
}

// Prints how many refs moved, after all that came is durable.
fn tell_fetch<O: Write>(
    alloc: Global,
    fetched: Result<Fetched, ExchangeEnd<RemoteFault>>,
    settled: Result<(), Failure>,
    output: &mut O,
) -> Result<(), Failure>
    requires { IfErr settled IsFault }
    ensures { TellsFetch fetched (O.contents output.old) (O.contents output.new) result }
{
    settled?;
    match fetched {
        Ok(Fetched { moved, .. }) => {
            let line = format!(in alloc; "moved {moved}\n")?;
            print_text(line.as_bytes(), output)
        }
        Err(end) => Err(failure_of(RemoteFault::from(end))),
    }
}

/// Pushes these items from the clone that the files of this store hold, and hands the files back; prints what became of each item, and
/// returns whether all were done. Of an atomic push all refs are set, or none.
pub fn push_to<S, P, O>(
    alloc: Global,
    stores: &mut S,
    store: &str,
    files: S::Files,
    peer: &mut P,
    atomic: bool,
    items: &[PushItem],
    output: &mut O,
) -> Result<bool, Failure>
where
    S: Stores,
    P: Peer<Refusal = RemoteFault>,
    O: Write,
    requires some { items.now ≢ [] }
    ensures pushed { EndsTold (λ end told. TellsPush end (O.contents output.old) (O.contents output.new) told) (λ end. S.Files.honest → PushesNoZero items.now → OpenableAs (S.Files.content files) (λ r. IsSound git r → LeadsFiles (S.content stores.new store.now) r (IsUnopened peer.old end peer.new) (PushAlone P.says P.Answer.remaining atomic items.now peer.old end peer.new))) result }
    ensures kept { S.Files.honest → KeepsStored (S.Files.content files) (S.content stores.new store.now) }
    ensures others { OthersStay store.now (S.content stores.old) (S.content stores.new) }
{
    let (mut files, pushed) = push_from(alloc, peer, files, atomic, items);
    let settled = stores.settle(&mut files);
    stores.close(store, files);
    tell_push(alloc, pushed, settled, output)
}

// Prints what became of each item, after the clone is durable.
fn tell_push<O: Write>(
    alloc: Global,
    pushed: Result<Report, ExchangeEnd<RemoteFault>>,
    settled: Result<(), Failure>,
    output: &mut O,
) -> Result<bool, Failure>
    requires { IfErr settled IsFault }
    ensures { TellsPush pushed (O.contents output.old) (O.contents output.new) result }
{
    settled?;
    match pushed {
        Ok(report) => {
            print_text(&report_lines(alloc, &report)?, output)?;
            Ok(is_done(&report))
        }
        Err(end) => Err(failure_of(RemoteFault::from(end))),
    }
}
