//! How the refs of a clone follow those of the shared repository: a branch is followed by its tracking ref, which moves to
//! descendants of its value alone, and a tag by itself, which is set once. Nothing is followed to an id of which not all is
//! there.
ghost use Rattle.std.specs.Prelude.{◌≡◌, ◌⊎◌, ◌∷◌, [], true, None, Some, if◌then◌else◌, IfOk, IfErr, IfSome, OnErr, IsErrOf, codes};
ghost use Rattle.vc_files.specs.Failures.{Wears, Writes};
ghost use Rattle.vc_files.specs.FileMap.{SameOutside};
ghost use Rattle.vc_format.specs.Git.{git_is_legal};
ghost use Rattle.vc_history.specs.Stored.{AgreesIn};
ghost use Rattle.vc_history.specs.Whole.{AreWholeBeyond};
ghost use Rattle.vc_refs.specs.RefMap.{IsInRefs};
ghost use Rattle.vc_refs.specs.Refs.{packed_map, refs};
ghost use Rattle.vc_quarantine.specs.Clean.{MakesNoneBad};
ghost use Rattle.vc_quarantine.specs.Known.{AreWhole};
ghost use Rattle.vc_object_map.specs.Store.{objects};
ghost use Rattle.vc_tracking.specs.Faults.{BlamesFiles, BlamesRefs, Looks};
ghost use Rattle.vc_tracking.specs.Learning.{NotesMoved};
ghost use Rattle.vc_tracking.specs.Moving.{AreWholeIn, DecidesForward, DecidesTake, IsFound, IsFreeAmong, IsMetInEitherWhereRight, IsMetWhereRight, IsMove, IsRight, IsSetWhereFree, MayMoveOne, MayMoveTold, MovesFront, MovesTold, follower, is_new, passed_over, told_in};

use crate::ExchangeFault;
use indexmap::IndexSet;
use std::alloc::{AllocError, Global};
use vc_files::{Fault, Files};
use vc_graph::is_complete_beyond;
use vc_history::{Generations, HistoryFault, is_ancestor, is_history_beyond};
use vc_object::ObjectId;
use vc_object_map::{Commits, StoreFault};
use vc_quarantine::{Known, is_legal};
use vc_refname::{NewNameError, RefName};
use vc_refs::{PackedRefs, RefFault, get_over, read_packed, set_over};
use vc_store::Store;

/// Which refs of the shared repository are followed.
#[derive(Clone, Copy)]
pub enum Followed {
    /// Branches and tags, as at a fetch.
    All,
    /// Branches alone, as at the report on a push.
    Branches,
}

// The name that the bytes are, where a ref of the shared repository may have it.
fn legal_name(alloc: Global, name: &[u8]) -> Result<Option<RefName>, AllocError>
    ensures { IfOk result (λ found. found ≡ (if git_is_legal name.now then Some name.now else None)) }
{
    if !is_legal(name) {
        return Ok(None);
    }
    let Ok(text) = str::from_utf8(name) else {
        return Ok(None);
    };
    match RefName::new(alloc, text) {
        Ok(name) => Ok(Some(name)),
        Err(NewNameError::Refused(_)) => Ok(None),
        Err(NewNameError::Memory) => Err(AllocError),
    }
}

// The ref that follows one of this name, or none where it is not followed.
fn follower(alloc: Global, followed: Followed, name: RefName) -> Result<Option<RefName>, AllocError>
    requires { git_is_legal name ≡ true }
    ensures name { IfOk result (λ found. found ≡ follower followed name) }
    ensures inside { IfOk result (λ found. IfSome found IsInRefs) }
{
    if name.is_branch() {
        let tracking = name.tracking(alloc)?;
        return Ok(Some(tracking));
    }
    match followed {
        Followed::All if name.is_tag() => Ok(Some(name)),
        Followed::All | Followed::Branches => Ok(None),
    }
}

// Whether a ref of this value takes the id, as far as the two tell: an absent one does, that of a branch takes any other id,
// and a tag stays.
fn is_new(is_branch: bool, current: Option<ObjectId>, id: &ObjectId) -> bool
    ensures { result ≡ is_new is_branch current id.now }
{
    match current {
        Some(current) => is_branch && current != *id,
        None => true,
    }
}

// Whether it is a commit with commits alone along its parent links, and descends from the value, where there is one. Of the way down
// to that no commit is read whose generation rules it out, where the generations are right.
fn is_forward<C: Commits>(
    alloc: Global,
    commits: &mut C,
    histories: &mut IndexSet<ObjectId>,
    current: Option<ObjectId>,
    id: &ObjectId,
    generations: &Generations,
) -> Result<bool, StoreFault>
    ensures forward { IfOk result (λ yes. C.is_honest → DecidesForward (C.objects (C.state_of commits.old)) generations.now histories.old.keys current id.now yes) }
    ensures known { C.is_honest → AreWholeBeyond (C.objects (C.state_of commits.old)) histories.old.keys histories.new.keys }
    ensures refused { IfErr result (λ e. C.is_honest → IsMetWhereRight generations.now (C.objects (C.state_of commits.old)) (C.damaged (C.state_of commits.old)) (id.now ∷ []) e) }
    ensures kept { C.state_of commits.new ≡ C.state_of commits.old }
    ensures wear { Wears C.failed C.can_fail C.left commits.old commits.new (IsErrOf result (StoreFault.Fault Fault.Device)) }
{
    if !is_history_beyond(commits, histories, id)? {
        return Ok(false);
    }
    let Some(current) = current else {
        return Ok(true);
    };
    match is_ancestor(alloc, commits, &current, id, generations) {
        Ok(yes) => Ok(yes),
        // Its history was just read, and is whole.
        Err(HistoryFault::Missing(_)) => Ok(false),
        Err(HistoryFault::NotACommit(_)) => Ok(false),
        Err(HistoryFault::Store(fault)) => Err(fault),
    }
}

// Whether a ref that has this value may take the id. What is found to be whole is known from then on, and not read again; the
// way down to the old value is walked anew for each ref, as far as no generation is known.
fn may_take<C: Commits>(
    alloc: Global,
    commits: &mut C,
    known: &mut Known,
    is_branch: bool,
    current: Option<ObjectId>,
    id: &ObjectId,
    generations: &Generations,
) -> Result<bool, StoreFault>
    ensures takes { IfOk result (λ yes. C.is_honest → DecidesTake (C.objects (C.state_of commits.old)) generations.now known.old is_branch current id.now yes) }
    ensures known { C.is_honest → AreWhole (C.objects (C.state_of commits.old)) known.old → AreWhole (C.objects (C.state_of commits.old)) known.new }
    ensures refused { IfErr result (λ e. C.is_honest → IsMetInEitherWhereRight generations.now (C.objects (C.state_of commits.old)) (C.damaged (C.state_of commits.old)) (id.now ∷ []) e) }
    ensures kept { C.state_of commits.new ≡ C.state_of commits.old }
    ensures wear { Wears C.failed C.can_fail C.left commits.old commits.new (IsErrOf result (StoreFault.Fault Fault.Device)) }
{
    if !is_new(is_branch, current, id) {
        return Ok(false);
    }
    if !is_complete_beyond(commits, &mut known.objects, id)? {
        return Ok(false);
    }
    if !is_branch {
        return Ok(true);
    }
    let forward = is_forward(
        alloc,
        commits,
        &mut known.histories,
        current,
        id,
        generations,
    )?;
    Ok(forward)
}

// The ref that may follow one of this name to the id, if its own name is free, with the value that it has.
fn find_follower<F: Files>(
    files: &mut F,
    alloc: Global,
    packed: &PackedRefs,
    known: &mut Known,
    followed: Followed,
    name: &[u8],
    id: &ObjectId,
    generations: &Generations,
) -> Result<Option<(RefName, Option<ObjectId>)>, ExchangeFault>
    requires { F.honest → packed_map (F.content files.old) ≡ Some packed.now }
    ensures found { F.honest → AgreesIn (F.content files.old) generations.now → AreWholeIn (F.content files.old) known.old → IfOk result (IsFound followed (F.content files.old) name.now id.now) }
    ensures known { F.honest → AreWhole (objects (F.content files.old)) known.old → AreWhole (objects (F.content files.old)) known.new }
    ensures value { F.honest → IfOk result (λ found. IfSome found (λ f. refs (F.content files.old) f.0 ≡ f.1)) }
    ensures inside { IfOk result (λ found. IfSome found (λ f. IsInRefs f.0)) }
    ensures refused { F.honest → AgreesIn (F.content files.old) generations.now → IfErr result (BlamesFiles (F.content files.old)) }
    ensures same { F.content files.new ≡ F.content files.old }
    ensures wear { Wears F.failed F.can_fail F.left files.old files.new (IsErrOf result (ExchangeFault.Fault Fault.Device)) }
{
    let Some(name) = legal_name(alloc, name)? else {
        return Ok(None);
    };
    let is_branch = name.is_branch();
    let Some(to) = follower(alloc, followed, name)? else {
        return Ok(None);
    };
    let current = get_over(files, alloc, packed, &to)?;
    let mut store = Store::new(alloc, files);
    let takes = may_take(
        alloc,
        &mut store,
        known,
        is_branch,
        current,
        id,
        generations,
    )?;
    if !takes {
        return Ok(None);
    }
    Ok(Some((to, current)))
}

// What refuses the value of a ref that moves: where another ref is in the way of its name, it is passed over.
fn passed_over(fault: RefFault) -> Result<bool, RefFault>
    ensures { result ≡ passed_over fault }
{
    match fault {
        RefFault::Conflict(_) => Ok(false),
        RefFault::Stale(current) => Err(RefFault::Stale(current)),
        RefFault::BadRefFile(path) => Err(RefFault::BadRefFile(path)),
        RefFault::HeadLoop => Err(RefFault::HeadLoop),
        RefFault::Fault(fault) => Err(RefFault::Fault(fault)),
    }
}

// Sets a ref that has this value where no other is in the way of its name. Whether it did.
fn set_where_free<F: Files>(
    files: &mut F,
    alloc: Global,
    packed: &PackedRefs,
    to: &RefName,
    current: Option<ObjectId>,
    id: ObjectId,
) -> Result<bool, RefFault>
    requires inside { IsInRefs to.now }
    requires read { F.honest → packed_map (F.content files.old) ≡ Some packed.now }
    ensures set { F.honest → IfOk result (IsSetWhereFree (F.content files.old) (F.content files.new) to.now id) }
    ensures refused { F.honest → refs (F.content files.old) to.now ≡ current → IfErr result (BlamesRefs (F.content files.old)) }
    ensures outside { F.honest → SameOutside (codes "refs/") (F.content files.old) (F.content files.new) }
    ensures err { F.honest → OnErr result (F.content files.new ≡ F.content files.old) }
    ensures bad { F.honest → MakesNoneBad (F.content files.old) (F.content files.new) }
    ensures wear { Writes F.honest F.content F.failed F.can_fail F.left files.old files.new (IsErrOf result (RefFault.Fault Fault.Device)) }
    ensures looks { F.honest → IsFreeAmong (refs (F.content files.old)) to.now ⊎ Wears F.failed F.can_fail F.left files.old files.new (IsErrOf result (RefFault.Fault Fault.Device)) }
{
    match set_over(files, alloc, packed, to, current, id) {
        Ok(()) => Ok(true),
        Err(fault) => passed_over(fault),
    }
}

// Moves the ref that follows one of this name to the id: the tracking ref of a branch, where it is absent or the id descends
// from its value; a tag where it is absent and tags are followed. Whether it moved. All that the id reaches must be there, and a
// branch's history must be one of commits alone; what is not so is passed over, and so is a name that is illegal, of no branch
// or tag, or in the way of a ref that is there. That is so where what is known is right, and then more is known after the call. In
// any case one ref is set at most, and no file becomes bad.
fn move_ref<F: Files>(
    files: &mut F,
    alloc: Global,
    packed: &PackedRefs,
    known: &mut Known,
    followed: Followed,
    name: &[u8],
    id: &ObjectId,
    generations: &Generations,
) -> Result<bool, ExchangeFault>
    requires { F.honest → packed_map (F.content files.old) ≡ Some packed.now }
    ensures moved { F.honest → IfOk result (IsMove (IsRight (F.content files.old) known.old generations.now) followed (F.content files.old) (F.content files.new) name.now id.now) }
    ensures known { F.honest → AreWhole (objects (F.content files.old)) known.old → AreWhole (objects (F.content files.old)) known.new }
    ensures refused { F.honest → AgreesIn (F.content files.old) generations.now → IfErr result (BlamesFiles (F.content files.old)) }
    ensures outside { F.honest → SameOutside (codes "refs/") (F.content files.old) (F.content files.new) }
    ensures err { F.honest → OnErr result (F.content files.new ≡ F.content files.old) }
    ensures bad { F.honest → MakesNoneBad (F.content files.old) (F.content files.new) }
    ensures wear { Writes F.honest F.content F.failed F.can_fail F.left files.old files.new (IsErrOf result (ExchangeFault.Fault Fault.Device)) }
    ensures looks { F.honest → MayMoveOne followed (F.content files.old) known.old generations.now name.now id.now (Looks F.failed F.can_fail F.left files.old files.new result) }
{
    let Some((to, current)) = find_follower(
        files,
        alloc,
        packed,
        known,
        followed,
        name,
        id,
        generations,
    )?
    else {
        return Ok(false);
    };
    let moved = set_where_free(files, alloc, packed, &to, current, *id)?;
    Ok(moved)
}

/// Moves the refs that follow these, in their order, and counts those that moved. A call that ends early has moved some first
/// of them. The packed file is read once for all of them, and each object is read once for all of them to see that it is whole,
/// and none of which that is known. Where what is known is right, the right refs move, and more is known after the call; in any
/// case refs alone are set, no file becomes bad, and none outside `refs/` changes. The value that a ref is set to is due to be
/// learnt then; after an error the next one may be too.
pub fn move_refs<F: Files>(
    files: &mut F,
    alloc: Global,
    known: &mut Known,
    followed: Followed,
    told: &[(Vec<u8>, ObjectId)],
    due: &mut Vec<ObjectId>,
    generations: &Generations,
) -> Result<usize, ExchangeFault>
    ensures moved { F.honest → MovesTold followed (F.content files.old) (F.content files.new) known.old generations.now (told_in told.now) result }
    ensures noted { F.honest → NotesMoved (F.content files.old) (F.content files.new) due.old.items due.new.items result }
    ensures refused { F.honest → AgreesIn (F.content files.old) generations.now → IfErr result (BlamesFiles (F.content files.old)) }
    ensures outside { F.honest → SameOutside (codes "refs/") (F.content files.old) (F.content files.new) }
    ensures left { F.honest → MovesFront followed (F.content files.old) (F.content files.new) known.old generations.now (told_in told.now) result }
    ensures bad { F.honest → MakesNoneBad (F.content files.old) (F.content files.new) }
    ensures wear { Writes F.honest F.content F.failed F.can_fail F.left files.old files.new (IsErrOf result (ExchangeFault.Fault Fault.Device)) }
    ensures looks { F.honest → MayMoveTold followed (F.content files.old) known.old generations.now (told_in told.now) (Looks F.failed F.can_fail F.left files.old files.new result) }
{
    let held = read_packed(files, alloc)?;
    let packed = &held;
    let mut moved = 0;
    for (name, id) in told {
        // The value is noted first, so that want of memory comes before the ref is set.
        let noted = due.len();
        due.push(*id)?;
        if move_ref(files, alloc, packed, known, followed, name, id, generations)? {
            moved += 1;
        } else {
            due.truncate(noted);
        }
    }
    Ok(moved)
}
