// A whole push.
ghost use Rattle.std.specs.Prelude.{◌≡◌, ◌≢◌, ℕ, [], IfErr, IfOk, false, true};
ghost use Rattle.vc_files.specs.Failures.{Wears, Writes, unstopped};
ghost use Rattle.vc_message.specs.AnyView.{message_text};
ghost use Rattle.vc_message.specs.Machine.{IsReport, IsUnread, Reads, TextOf};
ghost use Rattle.vc_model.specs.Message.{Message as Sent};
ghost use Rattle.vc_model.specs.Clone.Task.{StartPush};
ghost use Rattle.vc_model.specs.CloneCall.CloneCall.{Command};
ghost use Rattle.vc_node.specs.CloneCalls.{SentAs};
ghost use Rattle.vc_node.specs.CloneFaults.{TellsDevice as TellsCloneDevice};
ghost use Rattle.vc_node.specs.Node.{AnswersCall, PushesNoZero};
ghost use Rattle.vc_sending.specs.Sending.{machine_items};
ghost use Rattle.vc_push.specs.ReportView.{report_text};
ghost use Rattle.vc_node.specs.Stored.{KeepsOwn};
ghost use Rattle.vc_world.specs.Alone.{LeadsAlone, PushAlone, RefusesUnread, ReportsFirst, ReportsReply, WasSpelled};
ghost use Rattle.vc_world.specs.Devices.{BringsNone, IsLost, IsOwn, Lost, TellsClone, TellsPeer, WritesOrLoses};
ghost use Rattle.vc_world.specs.Exchanging.{Begins, Brings, HoldsClone, IsNoReport, IsPush, Leads, PushesOne};
ghost use Rattle.vc_world.specs.Pushing.{IsUnreadReport, TakesAnswer, report_in, taken};

use crate::losing::lose;
use crate::{ExchangeEnd, Peer, Reply};
use std::alloc::Global;
use vc_files::{Fault, Files};
use vc_local::NodeFault;
use vc_message::{IncomingFault, Message, Source, read_message};
use vc_node::{CloneFault, CloneNode, Received};
use vc_pkt::PktError;
use vc_push::Report;
use vc_sending::PushItem;

// The report that a message is.
fn report_in<R: Drop>(message: Message) -> Result<Report, ExchangeEnd<R>>
    ensures { result ≡ report_in message }
{
    match message {
        Message::Report(report) => Ok(report),
        Message::List(_)
        | Message::Advert(_)
        | Message::Want(_)
        | Message::Pack(_)
        | Message::Push(_)
        | Message::Error(_) => Err(ExchangeEnd::Stray),
    }
}

// The report that is all of the bytes, which the clone has taken.
fn read_report<R: Drop>(alloc: Global, bytes: &[u8]) -> Result<Report, ExchangeEnd<R>>
    ensures report { (m : Sent) → Reads bytes.now m → IfOk result (λ report. IsReport m (report_text report)) }
    ensures unread { (m : Sent) → Reads bytes.now m → IfErr result (IsUnreadReport m) }
    ensures calm { ¬ TellsClone result }
    ensures own { IfErr result IsOwn }
{
    let message = match Message::read(alloc, bytes) {
        Ok(message) => message,
        Err(PktError::Memory) => return Err(ExchangeEnd::Memory),
        Err(PktError::Refused(_)) => return Err(ExchangeEnd::Stray),
    };
    report_in(message)
}

// Whether the clone took a report.
fn take<R: Drop>(received: Result<Received, CloneFault>) -> Result<(), ExchangeEnd<R>>
    ensures { result ≡ taken received }
{
    match received {
        Ok(Received::Reported { .. }) => Ok(()),
        Ok(Received::Send(_)) => Err(ExchangeEnd::Stray),
        Ok(Received::Moved { .. }) => Err(ExchangeEnd::Stray),
        Err(fault) => Err(ExchangeEnd::Clone(fault)),
    }
}

// The clone takes the bytes that came back, and it is the report that they are that is answered.
fn take_bytes<F: Files, R: Drop>(
    alloc: Global,
    clone: &mut CloneNode<F>,
    answer: &[u8],
) -> Result<Report, ExchangeEnd<R>>
    ensures takes { F.honest → (m : Sent) → Reads answer.now m → TakesAnswer F.content m result clone.old clone.new }
    ensures unread { F.honest → (n : ℕ) → IsUnread answer.now n → RefusesUnread F.content n result clone.old clone.new }
    ensures kept { F.honest → KeepsOwn (F.content clone.old.files) (F.content clone.new.files) }
    ensures wear { Writes F.honest F.content F.failed F.can_fail F.left clone.old.files clone.new.files (TellsClone result) }
    ensures own { IfErr result IsOwn }
{
    let received = clone.receive(answer);
    if let Err(end) = take(received) {
        return Err(end);
    }
    read_report(alloc, answer)
}

// The clone takes a report that came back, which is answered.
fn take_report<F: Files, R: Drop>(
    clone: &mut CloneNode<F>,
    report: Report,
) -> Result<Report, ExchangeEnd<R>>
    ensures takes { F.honest → (m : Sent) → IsReport m (report_text report) → TakesAnswer F.content m result clone.old clone.new }
    ensures kept { F.honest → KeepsOwn (F.content clone.old.files) (F.content clone.new.files) }
    ensures wear { Writes F.honest F.content F.failed F.can_fail F.left clone.old.files clone.new.files (TellsClone result) }
    ensures own { IfErr result IsOwn }
{
    let received = clone.receive_report(&report);
    if let Err(end) = take(received) {
        return Err(end);
    }
    Ok(report)
}

// The clone takes a message that is no report. Whatever it makes of that, the push has no report.
fn take_other<F: Files, R: Drop>(
    clone: &mut CloneNode<F>,
    message: Message,
) -> Result<Report, ExchangeEnd<R>>
    ensures takes { F.honest → (m : Sent) → TextOf m (message_text message) → IsNoReport m → TakesAnswer F.content m result clone.old clone.new }
    ensures kept { F.honest → KeepsOwn (F.content clone.old.files) (F.content clone.new.files) }
    ensures wear { Writes F.honest F.content F.failed F.can_fail F.left clone.old.files clone.new.files (TellsClone result) }
    ensures own { IfErr result IsOwn }
{
    let received = clone.receive_message(message);
    if let Err(end) = take(received) {
        return Err(end);
    }
    Err(ExchangeEnd::Stray)
}

// The same of any message that was read.
fn take_message<F: Files, R: Drop>(
    clone: &mut CloneNode<F>,
    message: Message,
) -> Result<Report, ExchangeEnd<R>>
    ensures takes { F.honest → (m : Sent) → TextOf m (message_text message) → TakesAnswer F.content m result clone.old clone.new }
    ensures kept { F.honest → KeepsOwn (F.content clone.old.files) (F.content clone.new.files) }
    ensures wear { Writes F.honest F.content F.failed F.can_fail F.left clone.old.files clone.new.files (TellsClone result) }
    ensures own { IfErr result IsOwn }
{
    match message {
        Message::Report(report) => take_report(clone, report),
        other => take_other(clone, other),
    }
}

// The same of the message that is first of what the reader has. One that fails, or has none, is a device that failed.
fn take_from<F: Files, A: Source, R: Drop>(
    alloc: Global,
    clone: &mut CloneNode<F>,
    reader: &mut A,
) -> Result<Report, ExchangeEnd<R>>
    ensures takes { F.honest → (m : Sent) → Begins (A.remaining reader.old) m → TakesAnswer F.content m result clone.old clone.new }
    ensures alone { F.honest → ReportsFirst F.content (A.remaining reader.old) result clone.old clone.new }
    ensures kept { F.honest → KeepsOwn (F.content clone.old.files) (F.content clone.new.files) }
    ensures wear { WritesOrLoses (BringsNone A.remaining A.failed A.can_fail reader.old reader.new) F.honest F.content F.failed F.can_fail F.left clone.old.files clone.new.files (TellsClone result) }
    ensures own { IfErr result IsOwn }
{
    if !clone.is_up() {
        return Err(ExchangeEnd::Clone(CloneFault::Node(NodeFault::Down)));
    }
    match read_message(alloc, reader) {
        Ok(Some(message)) => take_message(clone, message),
        Err(IncomingFault::Unread(fault)) => Err(ExchangeEnd::Clone(CloneFault::Unread(fault))),
        Err(IncomingFault::Memory) => Err(ExchangeEnd::Clone(lose(clone, Fault::Memory))),
        Err(IncomingFault::Failed) => Err(ExchangeEnd::Clone(lose(clone, Fault::Device))),
        Ok(None) => Err(ExchangeEnd::Clone(lose(clone, Fault::Device))),
    }
}

// The clone takes what came back to its push, and it is the report that is answered.
fn take_reply<F: Files, A: Source + Drop, R: Drop>(
    alloc: Global,
    clone: &mut CloneNode<F>,
    reply: Reply<A>,
) -> Result<Report, ExchangeEnd<R>>
    ensures takes { F.honest → (m : Sent) → Brings A.remaining reply m → TakesAnswer F.content m result clone.old clone.new }
    ensures alone { F.honest → WasSpelled reply → ReportsReply F.content A.remaining reply result clone.old clone.new }
    ensures kept { F.honest → KeepsOwn (F.content clone.old.files) (F.content clone.new.files) }
    ensures wear { WritesOrLoses (IsLost A.remaining A.failed A.can_fail reply) F.honest F.content F.failed F.can_fail F.left clone.old.files clone.new.files (TellsClone result) }
    ensures own { IfErr result IsOwn }
{
    match reply {
        Reply::Bytes(answer) => take_bytes(alloc, clone, &answer),
        Reply::Message(message) => take_message(clone, message),
        Reply::Reader(mut reader) => take_from(alloc, clone, &mut reader),
    }
}

// The clone's message of a push, which may be atomic.
fn start<F: Files>(
    clone: &mut CloneNode<F>,
    atomic: bool,
    items: &[PushItem],
) -> Result<Vec<u8>, CloneFault>
    requires some { items.now ≢ [] }
    ensures answers { F.honest → PushesNoZero items.now → AnswersCall F.content (Command (StartPush atomic (machine_items items.now))) (SentAs result) clone.old clone.new }
    ensures same { F.content clone.new.files ≡ F.content clone.old.files }
    ensures wear { Wears F.failed F.can_fail F.left clone.old.files clone.new.files (TellsCloneDevice result) }
{
    if atomic {
        return clone.start_push_atomic(items);
    }
    clone.start_push(items)
}

/// A whole push, which may be atomic.
pub(crate) fn exchange<P: Peer, F: Files>(
    alloc: Global,
    shared: &mut P,
    clone: &mut CloneNode<F>,
    atomic: bool,
    items: &[PushItem],
) -> Result<Report, ExchangeEnd<P::Refusal>>
    requires some { items.now ≢ [] }
    ensures pushed { P.honest → F.honest → PushesNoZero items.now → Leads P.holds (HoldsClone F.content) shared.old shared.new clone.old clone.new (IsPush P.told atomic items.now result) }
    ensures done { P.honest → F.honest → PushesNoZero items.now → Leads P.holds (HoldsClone F.content) shared.old shared.new clone.old clone.new (PushesOne P.told items.now result) }
    ensures alone { F.honest → PushesNoZero items.now → LeadsAlone (HoldsClone F.content) clone.old clone.new (PushAlone P.says P.Answer.remaining atomic items.now shared.old result shared.new) }
    ensures kept { F.honest → KeepsOwn (F.content clone.old.files) (F.content clone.new.files) }
    ensures wear { WritesOrLoses (Lost P.loses P.Answer.remaining P.Answer.failed P.Answer.can_fail) F.honest F.content F.failed F.can_fail F.left clone.old.files clone.new.files (TellsClone result) }
    ensures peer_wear { Wears P.failed P.can_fail unstopped shared.old shared.new (TellsPeer P.is_device result) }
{
    let push = match start(clone, atomic, items) {
        Ok(push) => push,
        Err(fault) => return Err(ExchangeEnd::Clone(fault)),
    };
    let reply = match shared.ask(&push) {
        Ok(reply) => reply,
        Err(refusal) => return Err(ExchangeEnd::Shared(refusal)),
    };
    take_reply(alloc, clone, reply)
}

/// A push of the items, of which there is at least one: the clone sends it, and takes the report. It is the report that is answered.
pub fn exchange_push<P: Peer, F: Files>(
    alloc: Global,
    shared: &mut P,
    clone: &mut CloneNode<F>,
    items: &[PushItem],
) -> Result<Report, ExchangeEnd<P::Refusal>>
    requires some { items.now ≢ [] }
    ensures pushed { P.honest → F.honest → PushesNoZero items.now → Leads P.holds (HoldsClone F.content) shared.old shared.new clone.old clone.new (IsPush P.told false items.now result) }
    ensures done { P.honest → F.honest → PushesNoZero items.now → Leads P.holds (HoldsClone F.content) shared.old shared.new clone.old clone.new (PushesOne P.told items.now result) }
    ensures alone { F.honest → PushesNoZero items.now → LeadsAlone (HoldsClone F.content) clone.old clone.new (PushAlone P.says P.Answer.remaining false items.now shared.old result shared.new) }
    ensures kept { F.honest → KeepsOwn (F.content clone.old.files) (F.content clone.new.files) }
    ensures wear { WritesOrLoses (Lost P.loses P.Answer.remaining P.Answer.failed P.Answer.can_fail) F.honest F.content F.failed F.can_fail F.left clone.old.files clone.new.files (TellsClone result) }
    ensures peer_wear { Wears P.failed P.can_fail unstopped shared.old shared.new (TellsPeer P.is_device result) }
{
    exchange(alloc, shared, clone, false, items)
}

/// The same of an atomic push: all its refs are set, or none.
pub fn exchange_push_atomic<P: Peer, F: Files>(
    alloc: Global,
    shared: &mut P,
    clone: &mut CloneNode<F>,
    items: &[PushItem],
) -> Result<Report, ExchangeEnd<P::Refusal>>
    requires some { items.now ≢ [] }
    ensures pushed { P.honest → F.honest → PushesNoZero items.now → Leads P.holds (HoldsClone F.content) shared.old shared.new clone.old clone.new (IsPush P.told true items.now result) }
    ensures done { P.honest → F.honest → PushesNoZero items.now → Leads P.holds (HoldsClone F.content) shared.old shared.new clone.old clone.new (PushesOne P.told items.now result) }
    ensures alone { F.honest → PushesNoZero items.now → LeadsAlone (HoldsClone F.content) clone.old clone.new (PushAlone P.says P.Answer.remaining true items.now shared.old result shared.new) }
    ensures kept { F.honest → KeepsOwn (F.content clone.old.files) (F.content clone.new.files) }
    ensures wear { WritesOrLoses (Lost P.loses P.Answer.remaining P.Answer.failed P.Answer.can_fail) F.honest F.content F.failed F.can_fail F.left clone.old.files clone.new.files (TellsClone result) }
    ensures peer_wear { Wears P.failed P.can_fail unstopped shared.old shared.new (TellsPeer P.is_device result) }
{
    exchange(alloc, shared, clone, true, items)
}
