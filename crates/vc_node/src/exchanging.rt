// What a clone makes of a message that it awaits.
ghost use Rattle.std.specs.Prelude.{◌≡◌, ℕ, IfErr};
ghost use Rattle.vc_tracking.specs.Storing.{KeepsBeside, KeepsGood};
ghost use Rattle.vc_files.specs.Failures.{Wears, Writes};
ghost use Rattle.vc_fetch.specs.AdvertView.{advert_text};
ghost use Rattle.vc_fetch.specs.PackView.{pack_text};
ghost use Rattle.vc_history.specs.Stored.{AgreesIn};
ghost use Rattle.vc_message.specs.AnyMessage.{a_pack, a_report, an_advert};
ghost use Rattle.vc_message.specs.AnyView.{message_text};
ghost use Rattle.vc_message.specs.Machine.{IsUnread, Reads};
ghost use Rattle.vc_model.specs.CloneCall.CloneCall.{Asks, Receive};
ghost use Rattle.vc_model.specs.Message.{Message as Sent};
ghost use Rattle.vc_model.specs.Question.Question.{Unread};
ghost use Rattle.vc_push.specs.ReportView.{report_text};
ghost use Rattle.vc_quarantine.specs.Learning.{learnt_in};
ghost use Rattle.vc_node.specs.Awaited.{awaited_text};
ghost use Rattle.vc_node.specs.CloneCalls.{AnswersTaken, MayTake, MayTaken, TakesMessage};
ghost use Rattle.vc_node.specs.CloneFaults.{TellsDevice};
ghost use Rattle.vc_node.specs.Learning.{LeavesMessage};
ghost use Rattle.vc_node.specs.Receipts.{IsOfMessage, IsRefusedBytes, IsRefusedMessage};

use crate::CloneFault;
use crate::awaited::Awaited;
use std::alloc::Global;
use vc_exchange::{Advertised, receive_advert, receive_pack, receive_report};
use vc_fetch::{Advert, Pack};
use vc_files::Files;
use vc_history::Generations;
use vc_message::Message;
use vc_object::ObjectId;
use vc_push::Report;

/// What came of a message that a clone took.
#[derive(Drop)]
pub enum Received {
    /// These bytes are to be sent to the shared node.
    Send(Vec<u8>),
    /// So many refs followed the shared node's, and so many of its ids are still incomplete here.
    Moved { moved: usize, left: usize },
    /// So many tracking refs moved; the commands that were refused, by the numbers of the reasons, in the order of the push.
    Reported { moved: usize, refused: Vec<u16> },
}

// The refs of the shared node, if they are awaited.
fn take_advert<F: Files>(
    alloc: Global,
    files: &mut F,
    awaited: &mut Awaited,
    due: &mut Vec<ObjectId>,
    generations: &mut Generations,
    advert: Advert,
) -> Result<Received, CloneFault>
    requires agrees { F.honest → AgreesIn (F.content files.old) generations.old }
    ensures answers { F.honest → TakesMessage F.content (an_advert (advert_text advert)) result files.old files.new awaited.old awaited.new }
    ensures leaves { LeavesMessage F.honest F.content result files.old files.new awaited.old awaited.new (learnt_in generations.old due.old) (learnt_in generations.new due.new) }
    ensures refused { F.honest → IfErr result (IsRefusedMessage (F.content files.old) (awaited_text awaited.old) (an_advert (advert_text advert))) }
    ensures kept { F.honest → IfErr result (λ e. IsOfMessage e → F.content files.new ≡ F.content files.old) }
    ensures beside { F.honest → KeepsBeside (F.content files.old) (F.content files.new) }
    ensures good { F.honest → KeepsGood (F.content files.old) (F.content files.new) }
    ensures wear { Writes F.honest F.content F.failed F.can_fail F.left files.old files.new (TellsDevice result) }
    ensures looks { F.honest → MayTake F.content (an_advert (advert_text advert)) files.old awaited.old (Wears F.failed F.can_fail F.left files.old files.new (TellsDevice result)) }
{
    let Awaited::Advert = awaited else {
        return Err(CloneFault::Unexpected);
    };
    match receive_advert(files, alloc, advert, due, generations)? {
        Advertised::Wanted(asked) => {
            *awaited = Awaited::Pack(asked.wants, asked.refs);
            Ok(Received::Send(asked.bytes))
        }
        Advertised::Followed(moves) => {
            *awaited = Awaited::Nothing;
            Ok(Received::Moved {
                moved: moves.moved,
                left: moves.left,
            })
        }
    }
}

// A pack, if it is awaited.
fn take_pack<F: Files>(
    alloc: Global,
    files: &mut F,
    awaited: &mut Awaited,
    due: &mut Vec<ObjectId>,
    generations: &mut Generations,
    pack: &Pack,
) -> Result<Received, CloneFault>
    requires agrees { F.honest → AgreesIn (F.content files.old) generations.old }
    ensures answers { F.honest → TakesMessage F.content (a_pack (pack_text pack.now)) result files.old files.new awaited.old awaited.new }
    ensures leaves { LeavesMessage F.honest F.content result files.old files.new awaited.old awaited.new (learnt_in generations.old due.old) (learnt_in generations.new due.new) }
    ensures refused { F.honest → IfErr result (IsRefusedMessage (F.content files.old) (awaited_text awaited.old) (a_pack (pack_text pack.now))) }
    ensures kept { F.honest → IfErr result (λ e. IsOfMessage e → F.content files.new ≡ F.content files.old) }
    ensures beside { F.honest → KeepsBeside (F.content files.old) (F.content files.new) }
    ensures good { F.honest → KeepsGood (F.content files.old) (F.content files.new) }
    ensures wear { Writes F.honest F.content F.failed F.can_fail F.left files.old files.new (TellsDevice result) }
    ensures looks { F.honest → MayTake F.content (a_pack (pack_text pack.now)) files.old awaited.old (Wears F.failed F.can_fail F.left files.old files.new (TellsDevice result)) }
{
    let Awaited::Pack(wants, refs) = awaited else {
        return Err(CloneFault::Unexpected);
    };
    let moves = receive_pack(files, alloc, wants, refs, pack, due, generations)?;
    *awaited = Awaited::Nothing;
    Ok(Received::Moved {
        moved: moves.moved,
        left: moves.left,
    })
}

/// The report on a push, at any time.
pub(crate) fn take_report<F: Files>(
    alloc: Global,
    files: &mut F,
    awaited: &mut Awaited,
    due: &mut Vec<ObjectId>,
    generations: &mut Generations,
    report: &Report,
) -> Result<Received, CloneFault>
    requires agrees { F.honest → AgreesIn (F.content files.old) generations.old }
    ensures answers { F.honest → TakesMessage F.content (a_report (report_text report.now)) result files.old files.new awaited.old awaited.new }
    ensures leaves { LeavesMessage F.honest F.content result files.old files.new awaited.old awaited.new (learnt_in generations.old due.old) (learnt_in generations.new due.new) }
    ensures refused { F.honest → IfErr result (IsRefusedMessage (F.content files.old) (awaited_text awaited.old) (a_report (report_text report.now))) }
    ensures kept { F.honest → IfErr result (λ e. IsOfMessage e → F.content files.new ≡ F.content files.old) }
    ensures beside { F.honest → KeepsBeside (F.content files.old) (F.content files.new) }
    ensures good { F.honest → KeepsGood (F.content files.old) (F.content files.new) }
    ensures wear { Writes F.honest F.content F.failed F.can_fail F.left files.old files.new (TellsDevice result) }
    ensures looks { F.honest → MayTake F.content (a_report (report_text report.now)) files.old awaited.old (Wears F.failed F.can_fail F.left files.old files.new (TellsDevice result)) }
{
    let told = receive_report(files, alloc, report, due, generations)?;
    Ok(Received::Reported {
        moved: told.moved,
        refused: told.refused,
    })
}

/// A message that was read. What it takes is awaited no longer; a refusal leaves it awaited. Before refs are judged the generations
/// are learnt that are due, and the values that refs are set to are due then.
pub(crate) fn take<F: Files>(
    alloc: Global,
    files: &mut F,
    awaited: &mut Awaited,
    due: &mut Vec<ObjectId>,
    generations: &mut Generations,
    message: Message,
) -> Result<Received, CloneFault>
    requires agrees { F.honest → AgreesIn (F.content files.old) generations.old }
    ensures answers { F.honest → TakesMessage F.content (message_text message) result files.old files.new awaited.old awaited.new }
    ensures leaves { LeavesMessage F.honest F.content result files.old files.new awaited.old awaited.new (learnt_in generations.old due.old) (learnt_in generations.new due.new) }
    ensures refused { F.honest → IfErr result (IsRefusedMessage (F.content files.old) (awaited_text awaited.old) (message_text message)) }
    ensures kept { F.honest → IfErr result (λ e. IsOfMessage e → F.content files.new ≡ F.content files.old) }
    ensures beside { F.honest → KeepsBeside (F.content files.old) (F.content files.new) }
    ensures good { F.honest → KeepsGood (F.content files.old) (F.content files.new) }
    ensures wear { Writes F.honest F.content F.failed F.can_fail F.left files.old files.new (TellsDevice result) }
    ensures looks { F.honest → MayTake F.content (message_text message) files.old awaited.old (Wears F.failed F.can_fail F.left files.old files.new (TellsDevice result)) }
{
    match message {
        Message::Advert(advert) => take_advert(alloc, files, awaited, due, generations, advert),
        Message::Pack(pack) => take_pack(alloc, files, awaited, due, generations, &pack),
        Message::Report(report) => take_report(alloc, files, awaited, due, generations, &report),
        Message::List(_) => Err(CloneFault::Unexpected),
        Message::Want(_) => Err(CloneFault::Unexpected),
        Message::Push(_) => Err(CloneFault::Unexpected),
        Message::Error(_) => Err(CloneFault::Unexpected),
    }
}

/// Takes the message that is all of the bytes, if it is awaited.
pub(crate) fn receive<F: Files>(
    alloc: Global,
    files: &mut F,
    awaited: &mut Awaited,
    due: &mut Vec<ObjectId>,
    generations: &mut Generations,
    bytes: &[u8],
) -> Result<Received, CloneFault>
    requires agrees { F.honest → AgreesIn (F.content files.old) generations.old }
    ensures answers { F.honest → (m : Sent) → Reads bytes.now m → AnswersTaken F.content (Receive m) result files.old files.new awaited.old awaited.new }
    ensures unread { F.honest → (n : ℕ) → IsUnread bytes.now n → AnswersTaken F.content (Asks (Unread n)) result files.old files.new awaited.old awaited.new }
    ensures leaves { LeavesMessage F.honest F.content result files.old files.new awaited.old awaited.new (learnt_in generations.old due.old) (learnt_in generations.new due.new) }
    ensures refused { F.honest → IfErr result (IsRefusedBytes (F.content files.old) (awaited_text awaited.old) bytes.now) }
    ensures kept { F.honest → IfErr result (λ e. IsOfMessage e → F.content files.new ≡ F.content files.old) }
    ensures beside { F.honest → KeepsBeside (F.content files.old) (F.content files.new) }
    ensures good { F.honest → KeepsGood (F.content files.old) (F.content files.new) }
    ensures wear { Writes F.honest F.content F.failed F.can_fail F.left files.old files.new (TellsDevice result) }
    ensures looks { F.honest → (m : Sent) → Reads bytes.now m → MayTaken F.content (Receive m) files.old awaited.old (Wears F.failed F.can_fail F.left files.old files.new (TellsDevice result)) }
{
    let message = Message::read(alloc, bytes)?;
    take(alloc, files, awaited, due, generations, message)
}
