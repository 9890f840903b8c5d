//! What a clone makes of a message from the shared node.
ghost use Rattle.std.specs.Prelude.{◌≡◌, ◌++◌, ◌∷◌, [], IfOk, IfErr, OnOk, IsErrOf, codes, map};
ghost use Rattle.std.specs.FinMap.{entries};
ghost use Rattle.vc_tracking.specs.Faults.{BlamesFiles, Looks};
ghost use Rattle.vc_exchange.specs.Learning.{LearnsWhereRight};
ghost use Rattle.vc_tracking.specs.Moving.{told_in};
ghost use Rattle.vc_exchange.specs.Receiving.{AcceptedAgree, BlamesAdvert, BlamesPack, accepted};
ghost use Rattle.vc_tracking.specs.Storing.{KeepsBeside, KeepsGood};
ghost use Rattle.vc_exchange.specs.Taking.{CutsAdvert, CutsPack, CutsReport, MayReceiveAdvert, MayReceiveReport, ReceivesAdvert, ReceivesPack, ReceivesReport};
ghost use Rattle.vc_fetch.specs.AdvertView.{advert_text, ref_ids};
ghost use Rattle.vc_fetch.specs.PackView.{pack_text};
ghost use Rattle.vc_files.specs.Failures.{Writes};
ghost use Rattle.vc_files.specs.FileMap.{SameOutside};
ghost use Rattle.vc_history.specs.Stored.{AgreesIn};
ghost use Rattle.vc_message.specs.Machine.{IsPack, machine_told};
ghost use Rattle.vc_model.specs.Clone.{refused_reasons};
ghost use Rattle.vc_model.specs.Message.{Message};
ghost use Rattle.vc_object.specs.declared.id.ObjectId.{ObjectId as Name};
ghost use Rattle.vc_push.specs.ReportView.{report_text, told_of};
ghost use Rattle.vc_quarantine.specs.Clean.{MakesNoneBad};
ghost use Rattle.vc_quarantine.specs.Learning.{learnt_in};

use crate::wanting::{first_ids, open_ids, want_message};
use std::alloc::{AllocError, Global};
use std::collections::BTreeMap;
use vc_fetch::{Advert, Pack};
use vc_files::{Fault, Files};
use vc_history::Generations;
use vc_object::ObjectId;
use vc_pack::judge_pack;
use vc_push::{Reason, Report, Told};
use vc_quarantine::Known;
use vc_tracking::{ExchangeFault, Followed, learn_known, move_refs, store_all};

/// How many refs followed what was told, and how many told ids are still incomplete.
#[derive(Clone, Copy)]
pub struct Moves {
    pub moved: usize,
    pub left: usize,
}

/// What a clone asks for after an advertisement, and what it will need of that when the pack is there.
#[derive(Drop)]
pub struct Asked {
    /// The ids that are wanted, at least one and at most 256.
    pub wants: Vec<ObjectId>,
    /// The advertised refs in order of their names.
    pub refs: Vec<(Vec<u8>, ObjectId)>,
    /// The message that asks for the wants.
    pub bytes: Vec<u8>,
}

/// What came of an advertisement.
#[derive(Drop)]
pub enum Advertised {
    /// Not all is there that the advertised ids reach: it is asked for.
    Wanted(Asked),
    /// All is there, and the refs followed.
    Followed(Moves),
}

/// What came of a report on a push.
#[derive(Drop)]
pub struct Reported {
    /// How many tracking refs moved.
    pub moved: usize,
    /// The numbers of the reasons for which commands were refused, in the order of the push; 0 for an unknown text.
    pub refused: Vec<u16>,
}

// The refs of an advertisement in order of their names.
fn listed(
    alloc: Global,
    refs: BTreeMap<Vec<u8>, ObjectId>,
) -> Result<Vec<(Vec<u8>, ObjectId)>, AllocError>
    ensures { IfOk result (λ listed. told_in listed.items ≡ entries (ref_ids refs)) }
{
    let mut listed = Vec::new(alloc);
    for (name, id) in refs {
        listed.push((name, id))?;
    }
    Ok(listed)
}

/// Takes an advertisement: the ids of which not all is there are asked for, the first 256 of them in order of the refs' names;
/// where there are none, the refs follow at once. What the clone's own refs reach is taken as there, as it is in a sound
/// repository, and not read. Whether a branch's new value descends from its old one is seen by the generations that are known, where
/// they agree with what is stored: before the refs are judged those in the histories that are due are learnt, and the values that refs
/// are set to are due then. A call that ends early has moved some first refs. No file becomes bad, and none outside `refs/` changes.
pub fn receive_advert<F: Files>(
    files: &mut F,
    alloc: Global,
    advert: Advert,
    due: &mut Vec<ObjectId>,
    generations: &mut Generations,
) -> Result<Advertised, ExchangeFault>
    ensures taken { F.honest → AgreesIn (F.content files.old) generations.old → ReceivesAdvert (F.content files.old) (F.content files.new) (advert_text advert) result }
    ensures cut { F.honest → AgreesIn (F.content files.old) generations.old → CutsAdvert (F.content files.old) (F.content files.new) (advert_text advert) result }
    ensures refused { F.honest → AgreesIn (F.content files.old) generations.old → IfErr result (BlamesAdvert (F.content files.old)) }
    ensures learns { F.honest → LearnsWhereRight (F.content files.old) (F.content files.new) (learnt_in generations.old due.old) (learnt_in generations.new due.new) result }
    ensures outside { F.honest → SameOutside (codes "refs/") (F.content files.old) (F.content files.new) }
    ensures bad { F.honest → MakesNoneBad (F.content files.old) (F.content files.new) }
    ensures wear { Writes F.honest F.content F.failed F.can_fail F.left files.old files.new (IsErrOf result (ExchangeFault.Fault Fault.Device)) }
    ensures looks { F.honest → MayReceiveAdvert (F.content files.old) generations.old (advert_text advert) (Looks F.failed F.can_fail F.left files.old files.new result) }
{
    let refs = listed(alloc, advert.refs)?;
    let mut known = learn_known(files, alloc, due, generations)?;
    let open = open_ids(files, alloc, &mut known.objects, &refs)?;
    if open.is_empty() {
        let moved = move_refs(
            files,
            alloc,
            &mut known,
            Followed::All,
            &refs,
            due,
            generations,
        )?;
        return Ok(Advertised::Followed(Moves { moved, left: 0 }));
    }
    let wants = first_ids(alloc, &open)?;
    let bytes = want_message(files, alloc, &wants)?;
    Ok(Advertised::Wanted(Asked { wants, refs, bytes }))
}

/// Takes the pack that brings these wants, which were asked for when these refs were advertised: its objects are stored, and then
/// the refs follow. With the pack all must be there that the wants reach (92), and nothing is stored before that is seen. What the
/// clone's own refs reach is taken as there, as it is in a sound repository, and not read, unless a want is refused. A call that ends
/// early has stored some objects, or all of them and moved some first refs. No file becomes bad, only objects and refs
/// change, and each object that was stored stays.
pub fn receive_pack<F: Files>(
    files: &mut F,
    alloc: Global,
    wants: &[ObjectId],
    told: &[(Vec<u8>, ObjectId)],
    pack: &Pack,
    due: &mut Vec<ObjectId>,
    generations: &mut Generations,
) -> Result<Moves, ExchangeFault>
    ensures taken { F.honest → AgreesIn (F.content files.old) generations.old → ReceivesPack (F.content files.old) (F.content files.new) (pack_text pack.now) wants.now (told_in told.now) result }
    ensures cut { F.honest → AgreesIn (F.content files.old) generations.old → CutsPack (F.content files.old) (F.content files.new) (pack_text pack.now) wants.now (told_in told.now) result }
    ensures refused { F.honest → AgreesIn (F.content files.old) generations.old → (m : Message) → IsPack m (pack_text pack.now) → IfErr result (BlamesPack (F.content files.old) wants.now m) }
    ensures unchanged { F.honest → AgreesIn (F.content files.old) generations.old → IfErr result (λ e. (id : Name) → e ≡ ExchangeFault.Incomplete id → F.content files.new ≡ F.content files.old) }
    ensures learns { F.honest → LearnsWhereRight (F.content files.old) (F.content files.new) (learnt_in generations.old due.old) (learnt_in generations.new due.new) result }
    ensures beside { F.honest → KeepsBeside (F.content files.old) (F.content files.new) }
    ensures good { F.honest → KeepsGood (F.content files.old) (F.content files.new) }
    ensures wear { Writes F.honest F.content F.failed F.can_fail F.left files.old files.new (IsErrOf result (ExchangeFault.Fault Fault.Device)) }
{
    let known = learn_known(files, alloc, due, generations)?;
    let objects = judge_pack(alloc, files, known.objects, wants, pack)?;
    let mut known = Known {
        objects,
        histories: known.histories,
    };
    store_all(files, alloc, &pack.objects)?;
    let open = open_ids(files, alloc, &mut known.objects, told)?;
    let moved = move_refs(
        files,
        alloc,
        &mut known,
        Followed::All,
        told,
        due,
        generations,
    )?;
    Ok(Moves {
        moved,
        left: open.len(),
    })
}

// Adds the name and the new id of a command that a report accepts.
fn push_accepted(
    alloc: Global,
    refs: &mut Vec<(Vec<u8>, ObjectId)>,
    told: &Told,
) -> Result<(), AllocError>
    ensures { OnOk result (told_in refs.new.items ≡ told_in refs.old.items ++ accepted (told_of told.now ∷ [])) }
{
    let Ok(id) = &told.outcome else {
        return Ok(());
    };
    let name = told.name.to_vec(alloc)?;
    refs.push((name, *id))?;
    Ok(())
}

// The names and new ids of the commands that a report accepts.
fn accepted(alloc: Global, told: &[Told]) -> Result<Vec<(Vec<u8>, ObjectId)>, AllocError>
    ensures { IfOk result (λ refs. told_in refs.items ≡ accepted (map told_of told.now)) }
{
    let mut refs = Vec::new(alloc);
    for command in told {
        push_accepted(alloc, &mut refs, command)?;
    }
    Ok(refs)
}

// The numbers of the reasons for which a report refuses commands.
fn refused_numbers(alloc: Global, told: &[Told]) -> Result<Vec<u16>, AllocError>
    ensures { IfOk result (λ numbers. numbers.items ≡ refused_reasons (map machine_told (map told_of told.now))) }
{
    let mut numbers = Vec::new(alloc);
    for command in told {
        if let Err(reason) = &command.outcome {
            numbers.push(Reason::number_of_text(reason))?;
        }
    }
    Ok(numbers)
}

/// Takes the report on a push: the tracking refs move of the branches whose commands it accepts, and the numbers are told of the
/// reasons for which it refuses the others. The objects need not be there: a ref follows only to an id of which all is there. What
/// the clone's own refs reach is taken as there, as it is in a sound repository, and not read. A call that ends early has moved
/// some first refs. No file becomes bad, and none outside `refs/` changes.
pub fn receive_report<F: Files>(
    files: &mut F,
    alloc: Global,
    report: &Report,
    due: &mut Vec<ObjectId>,
    generations: &mut Generations,
) -> Result<Reported, ExchangeFault>
    ensures taken { F.honest → AgreesIn (F.content files.old) generations.old → ReceivesReport (F.content files.old) (F.content files.new) (report_text report.now) result }
    ensures cut { F.honest → AgreesIn (F.content files.old) generations.old → CutsReport (F.content files.old) (F.content files.new) (report_text report.now) result }
    ensures refused { F.honest → AgreesIn (F.content files.old) generations.old → IfErr result (BlamesFiles (F.content files.old)) }
    ensures learns { F.honest → LearnsWhereRight (F.content files.old) (F.content files.new) (learnt_in generations.old due.old) (learnt_in generations.new due.new) result }
    ensures outside { F.honest → SameOutside (codes "refs/") (F.content files.old) (F.content files.new) }
    ensures bad { F.honest → MakesNoneBad (F.content files.old) (F.content files.new) }
    ensures wear { Writes F.honest F.content F.failed F.can_fail F.left files.old files.new (IsErrOf result (ExchangeFault.Fault Fault.Device)) }
    ensures looks { F.honest → MayReceiveReport (F.content files.old) generations.old (report_text report.now) (Looks F.failed F.can_fail F.left files.old files.new result) }
{
    let refused = refused_numbers(alloc, &report.told)?;
    let refs = accepted(alloc, &report.told)?;
    let mut known = learn_known(files, alloc, due, generations)?;
    let moved = move_refs(
        files,
        alloc,
        &mut known,
        Followed::Branches,
        &refs,
        due,
        generations,
    )?;
    Ok(Reported { moved, refused })
}

/// What is taken of a report is what the machine takes of it.
pub fn what_a_report_accepts_is_the_machines()
    ensures { AcceptedAgree }
{}
