// Whole exchanges of the clone that files hold: it is opened before, and closed after.
ghost use Rattle.std.specs.Prelude.{◌≢◌, []};
ghost use Rattle.vc_files.specs.Failures.{Wears, unstopped};
ghost use Rattle.vc_local.specs.Opening.{OpenableAs};
ghost use Rattle.vc_model.specs.Repository.{IsSound};
ghost use Rattle.vc_node.specs.Node.{PushesNoZero};
ghost use Rattle.vc_node.specs.Stored.{KeepsStored};
ghost use Rattle.vc_rules.specs.Git.{git};
ghost use Rattle.vc_world.specs.Alone.{FetchAlone, PushAlone};
ghost use Rattle.vc_world.specs.Devices.{Lost, TellsClone, TellsPeer, WritesOrLoses};
ghost use Rattle.vc_world.specs.OverFiles.{IsUnopened, LeadsFiles};

use crate::pushing::exchange;
use crate::{ExchangeEnd, Fetched, Peer, exchange_fetch};
use std::alloc::Global;
use vc_files::Files;
use vc_node::{CloneFault, CloneNode};
use vc_push::Report;
use vc_sending::PushItem;

/// A whole fetch into the clone that the files hold, or into a new one if they hold none. The files are handed back, however it ends.
pub fn fetch_into<P: Peer, F: Files>(
    alloc: Global,
    shared: &mut P,
    files: F,
) -> (F, Result<Fetched, ExchangeEnd<P::Refusal>>)
    ensures alone { F.honest → OpenableAs (F.content files) (λ r. IsSound git r → LeadsFiles (F.content result.0) r (IsUnopened shared.old result.1 shared.new) (FetchAlone P.says P.Answer.remaining shared.old result.1 shared.new)) }
    ensures kept { F.honest → KeepsStored (F.content files) (F.content result.0) }
    ensures wear { WritesOrLoses (Lost P.loses P.Answer.remaining P.Answer.failed P.Answer.can_fail) F.honest F.content F.failed F.can_fail F.left files result.0 (TellsClone result.1) }
    ensures peer_wear { Wears P.failed P.can_fail unstopped shared.old shared.new (TellsPeer P.is_device result.1) }
{
    let mut clone = match CloneNode::open(alloc, files) {
        Ok(clone) => clone,
        Err((files, fault)) => return (files, Err(ExchangeEnd::Clone(CloneFault::Node(fault)))),
    };
    let fetched = exchange_fetch(shared, &mut clone);
    (clone.close(), fetched)
}

/// A whole push from the clone that the files hold, of which all refs are set or none if it is atomic.
pub fn push_from<P: Peer, F: Files>(
    alloc: Global,
    shared: &mut P,
    files: F,
    atomic: bool,
    items: &[PushItem],
) -> (F, Result<Report, ExchangeEnd<P::Refusal>>)
    requires some { items.now ≢ [] }
    ensures alone { F.honest → PushesNoZero items.now → OpenableAs (F.content files) (λ r. IsSound git r → LeadsFiles (F.content result.0) r (IsUnopened shared.old result.1 shared.new) (PushAlone P.says P.Answer.remaining atomic items.now shared.old result.1 shared.new)) }
    ensures kept { F.honest → KeepsStored (F.content files) (F.content result.0) }
    ensures wear { WritesOrLoses (Lost P.loses P.Answer.remaining P.Answer.failed P.Answer.can_fail) F.honest F.content F.failed F.can_fail F.left files result.0 (TellsClone result.1) }
    ensures peer_wear { Wears P.failed P.can_fail unstopped shared.old shared.new (TellsPeer P.is_device result.1) }
{
    let mut clone = match CloneNode::open(alloc, files) {
        Ok(clone) => clone,
        Err((files, fault)) => return (files, Err(ExchangeEnd::Clone(CloneFault::Node(fault)))),
    };
    let pushed = exchange(alloc, shared, &mut clone, atomic, items);
    (clone.close(), pushed)
}
