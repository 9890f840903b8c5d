//! What is answered to a list and to a want.
ghost use Rattle.std.specs.Prelude.{◌≡◌, ℕ, true, List, IfErr, IfOk, IsErrOf};
ghost use Rattle.std.specs.Cmp.Lexicographic.{slice_cmp};
ghost use Rattle.std.specs.FinMap.{find, get, is_sorted};
ghost use Rattle.std.specs.Ordering.{nat_cmp};
ghost use Rattle.vc_fetch.specs.Advert.{HasShortNames};
ghost use Rattle.vc_fetch.specs.AdvertView.{advert_text};
ghost use Rattle.vc_fetch.specs.WantView.{want_text};
ghost use Rattle.vc_files.specs.Failures.{Wears};
ghost use Rattle.vc_known.specs.Known.{Agrees};
ghost use Rattle.vc_object_map.specs.Store.{objects};
ghost use Rattle.vc_shared.specs.Faults.{TellsDevice};
ghost use Rattle.vc_shared.specs.Serving.{IsAnswered, IsListed, IsRefusedList, ListAnswers, RefusesList, RefusesWant, TellsRefs, WantAnswers};

use crate::SharedFault;
use std::alloc::{AllocError, Global};
use vc_fetch::{Advert, Want};
use vc_files::{Fault, Files};
use vc_known::Known;
use vc_object::ObjectId;
use vc_pack::{AnswerFault, answer_want};
use vc_refname::RefName;
use vc_refs::resolve_head;

// The message that tells listed refs, and what HEAD leads to.
fn advert_of(
    alloc: Global,
    head: Option<ObjectId>,
    listed: &[(RefName, ObjectId)],
) -> Result<Advert, AllocError>
    ensures head { IfOk result (λ advert. (advert_text advert).head ≡ head) }
    ensures refs { IfOk result (λ advert. is_sorted (slice_cmp nat_cmp) listed.now ≡ true → (name : List ℕ) → get (advert_text advert).refs name ≡ find (slice_cmp nat_cmp) name listed.now) }
    ensures short { IfOk result (λ advert. HasShortNames (advert_text advert)) }
{
    let mut advert = Advert::new(alloc);
    advert.head = head;
    for (name, id) in listed {
        advert.set(alloc, name.as_str().as_bytes(), *id)?;
    }
    Ok(advert)
}

// The message that tells the refs of the files, and what HEAD leads to.
fn told_refs<F: Files>(alloc: Global, files: &mut F) -> Result<Advert, AnswerFault>
    ensures told { F.honest → IfOk result (λ advert. TellsRefs (F.content files.old) (advert_text advert)) }
    ensures short { IfOk result (λ advert. HasShortNames (advert_text advert)) }
    ensures refused { F.honest → IfErr result (IsRefusedList (F.content files.old)) }
    ensures same { F.content files.new ≡ F.content files.old }
    ensures wear { Wears F.failed F.can_fail F.left files.old files.new (IsErrOf result (AnswerFault.Fault Fault.Device)) }
{
    let listed = vc_refs::list(files, alloc)?;
    let head = resolve_head(files, alloc)?;
    let advert = advert_of(alloc, head, &listed)?;
    Ok(advert)
}

/// The answer to a list: the message that tells HEAD's commit, where it has one, and each ref.
pub(crate) fn list<F: Files>(alloc: Global, files: &mut F) -> Result<Vec<u8>, SharedFault>
    ensures listed { F.honest → IfOk result (λ bytes. IsListed (F.content files.old) bytes.items) }
    ensures refused { F.honest → IfErr result (RefusesList (F.content files.old)) }
    ensures same { F.content files.new ≡ F.content files.old }
    ensures wear { Wears F.failed F.can_fail F.left files.old files.new (TellsDevice result) }
{
    let advert = told_refs(alloc, files)?;
    let bytes = advert.write(alloc)?;
    Ok(bytes)
}

/// The answer to a want: the message that brings what the wants reach and no have that counts does. See
/// [`answer_want`](vc_pack::answer_want), which says what is kept for the next want.
pub(crate) fn answer<F: Files>(
    alloc: Global,
    files: &mut F,
    known: &mut Known,
    want: &Want,
) -> Result<Vec<u8>, SharedFault>
    requires agrees { F.honest → Agrees (objects (F.content files.old)) known.old }
    ensures known { F.honest → Agrees (objects (F.content files.old)) known.new }
    ensures answered { F.honest → IfOk result (λ bytes. IsAnswered (F.content files.old) (want_text want.now) bytes.items) }
    ensures refused { F.honest → IfErr result (RefusesWant (F.content files.old) (want_text want.now)) }
    ensures same { F.content files.new ≡ F.content files.old }
    ensures wear { Wears F.failed F.can_fail F.left files.old files.new (TellsDevice result) }
{
    // Who is asked once keeps nothing.
    let learns = known.moments() > 0;
    let pack = answer_want(alloc, files, known, learns, want)?;
    known.begin(alloc)?;
    let bytes = pack.write(alloc)?;
    Ok(bytes)
}

/// What is answered to a list and to a want is what the machine answers, whatever node was held: the bytes are the message
/// that it sends, and where the node is sound and bare, it answers so. A list is refused for a fault alone; so is a want, but
/// for an id that no ref reaches.
pub(crate) fn what_is_served_is_the_machines()
    ensures list { ListAnswers }
    ensures want { WantAnswers }
{}
