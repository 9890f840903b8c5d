// A whole fetch.
ghost use Rattle.std.specs.Prelude.{◌≡◌, ◌≢◌, ◌⊎◌, None, false, true};
ghost use Rattle.vc_files.specs.Failures.{Wears, unstopped};
ghost use Rattle.vc_message.specs.Machine.{Reads};
ghost use Rattle.vc_message.specs.Told.{SendsBytes};
ghost use Rattle.vc_model.specs.CloneCall.CloneCall.{Receive};
ghost use Rattle.vc_model.specs.Exchange.{IsFewer};
ghost use Rattle.vc_model.specs.Message.{Message as Sent};
ghost use Rattle.vc_node.specs.CloneCalls.{ReceivedAs};
ghost use Rattle.vc_node.specs.CloneFaults.{TellsDevice};
ghost use Rattle.vc_node.specs.Node.{AnswersCall};
ghost use Rattle.vc_node.specs.Stored.{KeepsOwn};
ghost use Rattle.vc_trail.specs.Trail.{Turn};
ghost use Rattle.vc_world.specs.Alone.{FetchAlone, LeadsAlone, RestAlone, RoundAlone, TakesFirst, TakesReply, WasSpelled};
ghost use Rattle.vc_world.specs.Devices.{BringsNone, IsLost, Lost, TellsClone, TellsPeer, WritesOrLoses};
ghost use Rattle.vc_world.specs.Fetching.{next_of, settled};
ghost use Rattle.vc_world.specs.Exchanging.{Begins, Brings, CatchesUp, HoldsClone, IsFetch, IsRest, IsRound, Leads};

use crate::losing::lose;
use crate::{ExchangeEnd, Peer, Reply};
use vc_files::{Fault, Files};
use vc_local::NodeFault;
use vc_message::Source;
use vc_node::{CloneFault, CloneNode, ReceiveFault, Received};

/// What came of a fetch.
#[derive(Clone, Copy)]
pub struct Fetched {
    /// How many refs of the clone moved; the count stops at its greatest value.
    pub moved: usize,
    /// How many ids of the shared node's refs are still not closed at the clone.
    pub left: usize,
}

// What a clone does next in a round.
#[derive(Drop)]
enum Next<R> {
    // It asks for a pack.
    Ask(Vec<u8>),
    // The round is at its end.
    End(Result<Fetched, ExchangeEnd<R>>),
}

// The clone takes the message that is first of what the reader has. One that fails, or has none, is a device that failed.
fn receive_from<F: Files, A: Source>(
    clone: &mut CloneNode<F>,
    reader: &mut A,
) -> Result<Received, CloneFault>
    ensures answers { F.honest → (m : Sent) → Begins (A.remaining reader.old) m → AnswersCall F.content (Receive m) (ReceivedAs result) clone.old clone.new }
    ensures alone { F.honest → TakesFirst F.content (A.remaining reader.old) result clone.old clone.new }
    ensures kept { F.honest → KeepsOwn (F.content clone.old.files) (F.content clone.new.files) }
    ensures wear { WritesOrLoses (BringsNone A.remaining A.failed A.can_fail reader.old reader.new) F.honest F.content F.failed F.can_fail F.left clone.old.files clone.new.files (TellsDevice result) }
{
    if !clone.is_up() {
        return Err(CloneFault::Node(NodeFault::Down));
    }
    match clone.receive_from(reader) {
        Ok(Some(received)) => Ok(received),
        Err(ReceiveFault::Node(fault)) => Err(fault),
        Ok(None) => Err(lose(clone, Fault::Device)),
        Err(ReceiveFault::ReadFailed) => Err(lose(clone, Fault::Device)),
    }
}

// The clone takes the message that came back.
fn receive<F: Files, A: Source + Drop>(
    clone: &mut CloneNode<F>,
    reply: Reply<A>,
) -> Result<Received, CloneFault>
    ensures answers { F.honest → (m : Sent) → Brings A.remaining reply m → AnswersCall F.content (Receive m) (ReceivedAs result) clone.old clone.new }
    ensures alone { F.honest → WasSpelled reply → TakesReply F.content A.remaining reply result clone.old clone.new }
    ensures kept { F.honest → KeepsOwn (F.content clone.old.files) (F.content clone.new.files) }
    ensures wear { WritesOrLoses (IsLost A.remaining A.failed A.can_fail reply) F.honest F.content F.failed F.can_fail F.left clone.old.files clone.new.files (TellsDevice result) }
{
    match reply {
        Reply::Bytes(bytes) => clone.receive(&bytes),
        Reply::Message(message) => clone.receive_message(message),
        Reply::Reader(mut reader) => receive_from(clone, &mut reader),
    }
}

// What comes of the refs of the shared node.
fn go_on<R: Drop>(received: Result<Received, CloneFault>) -> Next<R>
    ensures { result ≡ next_of received }
{
    match received {
        Ok(Received::Send(want)) => Next::Ask(want),
        Ok(Received::Moved { moved, left }) => Next::End(Ok(Fetched { moved, left })),
        Ok(Received::Reported { .. }) => Next::End(Err(ExchangeEnd::Stray)),
        Err(fault) => Next::End(Err(ExchangeEnd::Clone(fault))),
    }
}

// What comes of a pack.
fn settle<R: Drop>(received: Result<Received, CloneFault>) -> Result<Fetched, ExchangeEnd<R>>
    ensures { result ≡ settled received }
{
    match received {
        Ok(Received::Moved { moved, left }) => Ok(Fetched { moved, left }),
        Ok(Received::Send(_)) => Err(ExchangeEnd::Stray),
        Ok(Received::Reported { .. }) => Err(ExchangeEnd::Stray),
        Err(fault) => Err(ExchangeEnd::Clone(fault)),
    }
}

// The rest of a round: the clone's want is answered by a pack, and the clone takes it.
fn fetch_pack<P: Peer, F: Files>(
    shared: &mut P,
    clone: &mut CloneNode<F>,
    want: &[u8],
) -> Result<Fetched, ExchangeEnd<P::Refusal>>
    ensures rest { P.honest → F.honest → (m : Sent) → Reads want.now m → Leads P.holds (HoldsClone F.content) shared.old shared.new clone.old clone.new (IsRest P.told m result) }
    ensures alone { F.honest → (l : Turn) → SendsBytes want.now l.answer l.sends → LeadsAlone (HoldsClone F.content) clone.old clone.new (RestAlone P.says P.Answer.remaining l shared.old result shared.new) }
    ensures kept { F.honest → KeepsOwn (F.content clone.old.files) (F.content clone.new.files) }
    ensures wear { WritesOrLoses (Lost P.loses P.Answer.remaining P.Answer.failed P.Answer.can_fail) F.honest F.content F.failed F.can_fail F.left clone.old.files clone.new.files (TellsClone result) }
    ensures peer_wear { Wears P.failed P.can_fail unstopped shared.old shared.new (TellsPeer P.is_device result) }
{
    let pack = match shared.ask(want) {
        Ok(pack) => pack,
        Err(refusal) => return Err(ExchangeEnd::Shared(refusal)),
    };
    let received = receive(clone, pack);
    settle(received)
}

// A round: the clone asks for the refs, and then for a pack of what it lacks.
fn fetch_round<P: Peer, F: Files>(
    shared: &mut P,
    clone: &mut CloneNode<F>,
) -> Result<Fetched, ExchangeEnd<P::Refusal>>
    ensures round { P.honest → F.honest → Leads P.holds (HoldsClone F.content) shared.old shared.new clone.old clone.new (IsRound P.told result) }
    ensures alone { F.honest → LeadsAlone (HoldsClone F.content) clone.old clone.new (RoundAlone P.says P.Answer.remaining shared.old result shared.new) }
    ensures kept { F.honest → KeepsOwn (F.content clone.old.files) (F.content clone.new.files) }
    ensures wear { WritesOrLoses (Lost P.loses P.Answer.remaining P.Answer.failed P.Answer.can_fail) F.honest F.content F.failed F.can_fail F.left clone.old.files clone.new.files (TellsClone result) }
    ensures peer_wear { Wears P.failed P.can_fail unstopped shared.old shared.new (TellsPeer P.is_device result) }
{
    let list = match clone.start_fetch() {
        Ok(list) => list,
        Err(fault) => return Err(ExchangeEnd::Clone(fault)),
    };
    let advert = match shared.ask(&list) {
        Ok(advert) => advert,
        Err(refusal) => return Err(ExchangeEnd::Shared(refusal)),
    };
    let received = receive(clone, advert);
    match go_on(received) {
        Next::Ask(want) => fetch_pack(shared, clone, &want),
        Next::End(end) => end,
    }
}

// Whether a round that left so many is the last, after one that left as many as before says, if there was one.
fn is_last(before: Option<usize>, left: usize) -> bool
    ensures last { result ≡ true → (left ≡ 0) ⊎ (¬ IsFewer before left) }
    ensures more { result ≡ false → (left ≢ 0) × IsFewer before left }
{
    match before {
        None => left == 0,
        Some(before) => left == 0 || left >= before,
    }
}

/// A fetch in rounds, until nothing is left that is not closed at the clone, or no less than after the round before.
pub fn exchange_fetch<P: Peer, F: Files>(
    shared: &mut P,
    clone: &mut CloneNode<F>,
) -> Result<Fetched, ExchangeEnd<P::Refusal>>
    ensures fetched { P.honest → F.honest → Leads P.holds (HoldsClone F.content) shared.old shared.new clone.old clone.new (IsFetch P.told None result) }
    ensures caught_up { P.honest → F.honest → Leads P.holds (HoldsClone F.content) shared.old shared.new clone.old clone.new (CatchesUp P.told result) }
    ensures alone { F.honest → LeadsAlone (HoldsClone F.content) clone.old clone.new (FetchAlone P.says P.Answer.remaining shared.old result shared.new) }
    ensures kept { F.honest → KeepsOwn (F.content clone.old.files) (F.content clone.new.files) }
    ensures wear { WritesOrLoses (Lost P.loses P.Answer.remaining P.Answer.failed P.Answer.can_fail) F.honest F.content F.failed F.can_fail F.left clone.old.files clone.new.files (TellsClone result) }
    ensures peer_wear { Wears P.failed P.can_fail unstopped shared.old shared.new (TellsPeer P.is_device result) }
{
    let mut moved = 0_usize;
    let mut before = None;
    'rounds: loop {
        let round = match fetch_round(shared, clone) {
            Ok(round) => round,
            Err(end) => return Err(end),
        };
        moved = moved.saturating_add(round.moved);
        if is_last(before, round.left) {
            return Ok(Fetched {
                moved,
                left: round.left,
            });
        }
        before = Some(round.left);
    }
}
