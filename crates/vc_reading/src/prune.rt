//! The subcommand `prune`: the objects that nothing needs are removed, or listed.
ghost use Rattle.std.specs.Prelude.{◌≡◌, ◌⊎◌, ◌++◌, Contains, IfErr, IfOk, IsErrOf, OnErr, OnOk};
ghost use Rattle.std.specs.List.{flat_map};
ghost use Rattle.std.specs.Io.KnownBytes.{Appends, Keeps};
ghost use Rattle.vc_cli.specs.Failure.{IsFault, TellsDevice, TellsOfFiles};
ghost use Rattle.vc_cli.specs.Printed.{AppendsFront, PrintsFront};
ghost use Rattle.vc_cli.specs.Stores.{OrUnopened, OthersStay, StoresStay};
ghost use Rattle.vc_files.specs.Failures.{Wears, Writes};
ghost use Rattle.vc_model.specs.Clone.{IsReached};
ghost use Rattle.vc_object.specs.ObjectId.{IsSortedByName};
ghost use Rattle.vc_object_map.specs.Store.{IsDamaged, stored_names};
ghost use Rattle.vc_object_map.specs.StoreFault.{IsMet};
ghost use Rattle.vc_pruning.specs.Pruning.{Prunes, PrunesSome};
ghost use Rattle.vc_pruning.specs.Roots.{AreWhole, IsReadable};
ghost use Rattle.vc_rules.specs.Git.{git};
ghost use Rattle.vc_reading.specs.Pruned.{EndsPrune, EndsUntold, IsOfPrune, LeavesPruned, PrintsCount, PrintsGoing, PrintsPruned, RefusesPrune, going_line, object_line, pruned_line};

use crate::tally::{Counted, Tally};
use std::alloc::{AllocError, Global};
use std::io::{self, Write};
use vc_cli::{Failure, Faults, Stores, print_text};
use vc_files::{Fault, Files};
use vc_local::NodeFault;
use vc_object::{Kind, ObjectId};
use vc_object_map::StoreFault;
use vc_pack::is_among;
use vc_pruning::needed;
use vc_store::{find, names};

/// Removes each object of the store of this lock that no ref, HEAD or file of the index reaches, and prints how many these were. A
/// person is told meanwhile how far it is. It is refused while another process stands on objects that nothing names yet. What could
/// not be told on a terminal is a fault after the answer.
pub fn prune<S: Stores, O: Write, E: Write>(
    alloc: Global,
    stores: &mut S,
    lock: &S::Lock,
    output: &mut O,
    faults: &mut Faults<E>,
) -> Result<(), Failure>
    ensures pruned { S.Files.honest → OnOk result (PrintsPruned (S.content stores.old (S.of lock.now)) (S.content stores.new (S.of lock.now)) (O.contents output.old) (O.contents output.new)) }
    ensures some { S.Files.honest → (S.content stores.new (S.of lock.now) ≡ S.content stores.old (S.of lock.now)) ⊎ PrunesSome (IsReached git) (S.content stores.old (S.of lock.now)) (S.content stores.new (S.of lock.now)) }
    ensures refused { S.Files.honest → IfErr result (RefusesPrune (S.content stores.old (S.of lock.now))) }
    ensures left { S.Files.honest → IfErr result (LeavesPruned (S.content stores.old (S.of lock.now)) (S.content stores.new (S.of lock.now)) (O.contents output.old) (O.contents output.new)) }
    ensures others { OthersStay (S.of lock.now) (S.content stores.old) (S.content stores.new) }
{
    let _alone = stores.remover(lock)?;
    let files = stores.open_locked(lock)?;
    let tally = Tally::new(&mut faults.stream, faults.is_terminal);
    let mut counted = Counted::new(files, tally);
    let pruned = prune_in(alloc, &mut counted);
    let (files, told) = counted.end();
    stores.close_locked(lock, files);
    print_pruned(alloc, pruned, told, output)
}

// Prints how many objects were removed, or answers why not all were. What could not be told on a terminal is a fault after that.
fn print_pruned<O: Write>(
    alloc: Global,
    pruned: Result<u64, Failure>,
    told: io::Result<()>,
    output: &mut O,
) -> Result<(), Failure>
    ensures printed { OnOk result (PrintsCount pruned (O.contents output.old) (O.contents output.new)) }
    ensures untold { IfErr result (EndsUntold pruned (O.contents output.old) (O.contents output.new)) }
{
    let count = match pruned {
        Ok(count) => count,
        Err(failure) => return Err(failure),
    };
    print_count(alloc, count, output)?;
    told?;
    Ok(())
}

/// Prints what `prune` would remove now from this store, and removes nothing.
pub fn list_going<S: Stores, O: Write>(
    alloc: Global,
    stores: &mut S,
    store: &str,
    output: &mut O,
) -> Result<(), Failure>
    ensures printed { S.Files.honest → OnOk result (PrintsGoing (S.content stores.old store.now) (Appends (O.contents output.old) (O.contents output.new))) }
    ensures refused { S.Files.honest → IfErr result (OrUnopened (IsOfPrune (S.content stores.old store.now))) }
    ensures nothing_printed { IfErr result (λ e. IsFault e ⊎ Keeps (O.contents output.old) (O.contents output.new)) }
    ensures front { S.Files.honest → OnErr result (PrintsFront (PrintsGoing (S.content stores.old store.now)) (O.contents output.old) (O.contents output.new)) }
    ensures same { StoresStay (S.content stores.old) (S.content stores.new) }
{
    let mut files = stores.open(store)?;
    let printed = print_going(alloc, &mut files, output);
    stores.close(store, files);
    printed
}

/// Removes each object of these files that no ref, HEAD or file of the index reaches, and returns how many these were. If it ends
/// early, some of them are gone, and no other file differs.
pub fn prune_in<F: Files>(alloc: Global, files: &mut F) -> Result<u64, Failure>
    ensures pruned { F.honest → IfOk result (Prunes (IsReached git) (F.content files.old) (F.content files.new)) }
    ensures some { F.honest → PrunesSome (IsReached git) (F.content files.old) (F.content files.new) }
    ensures read { F.honest → OnOk result (IsReadable (F.content files.old) × AreWhole (F.content files.old)) }
    ensures refused { F.honest → IfErr result (IsOfPrune (F.content files.old)) }
    ensures err { F.honest → IfErr result (λ e. EndsPrune e ⊎ (F.content files.new ≡ F.content files.old)) }
    ensures wear { Writes F.honest F.content F.failed F.can_fail F.left files.old files.new (TellsDevice result) }
{
    match vc_pruning::prune(alloc, files) {
        Ok(count) => Ok(count),
        Err(fault) => Err(Failure::Node(fault)),
    }
}

/// Prints how many objects were removed.
pub fn print_count<O: Write>(alloc: Global, count: u64, output: &mut O) -> Result<(), Failure>
    ensures line { OnOk result (Appends (O.contents output.old) (O.contents output.new) (pruned_line count)) }
    ensures front { OnErr result (AppendsFront (O.contents output.old) (O.contents output.new) (pruned_line count)) }
    ensures fault { IfErr result IsFault }
{
    let line = format!(in alloc; "pruned {count}\n")?;
    print_text(line.as_bytes(), output)
}

/// Prints a line for each object of these files that no ref, HEAD or file of the index reaches, by name: its name and its kind.
pub fn print_going<F: Files, O: Write>(
    alloc: Global,
    files: &mut F,
    output: &mut O,
) -> Result<(), Failure>
    ensures printed { F.honest → OnOk result (PrintsGoing (F.content files.old) (Appends (O.contents output.old) (O.contents output.new))) }
    ensures refused { F.honest → IfErr result (IsOfPrune (F.content files.old)) }
    ensures nothing_printed { IfErr result (λ e. IsFault e ⊎ Keeps (O.contents output.old) (O.contents output.new)) }
    ensures front { F.honest → OnErr result (PrintsFront (PrintsGoing (F.content files.old)) (O.contents output.old) (O.contents output.new)) }
    ensures same { F.content files.new ≡ F.content files.old }
    ensures wear { Wears F.failed F.can_fail F.left files.old files.new (TellsOfFiles result) }
{
    let kept = needed(alloc, files)?;
    let lines = match going_lines(alloc, files, &kept) {
        Ok(lines) => lines,
        Err(fault) => return Err(Failure::Node(NodeFault::Store(fault))),
    };
    print_text(&lines, output)?;
    Ok(())
}

// The lines of the objects whose names are none of those, which are sorted.
fn going_lines<F: Files>(
    alloc: Global,
    files: &mut F,
    kept: &[ObjectId],
) -> Result<Vec<u8>, StoreFault>
    requires { IsSortedByName kept.now }
    ensures lines { F.honest → IfOk result (λ lines. lines.items ≡ flat_map (going_line (F.content files.old) kept.now) (stored_names (F.content files.old))) }
    ensures refused { F.honest → IfErr result (IsMet (λ q. ¬ Contains kept.now q) (IsDamaged (F.content files.old))) }
    ensures same { F.content files.new ≡ F.content files.old }
    ensures wear { Wears F.failed F.can_fail F.left files.old files.new (IsErrOf result (StoreFault.Fault Fault.Device)) }
{
    let listed = names(files, alloc)?;
    let mut lines = Vec::new(alloc);
    for name in &listed {
        push_unless_kept(alloc, files, kept, name, &mut lines)?;
    }
    Ok(lines)
}

// Adds the line of the object with this name, if there is one and the name is none of those.
fn push_unless_kept<F: Files>(
    alloc: Global,
    files: &mut F,
    kept: &[ObjectId],
    id: &ObjectId,
    lines: &mut Vec<u8>,
) -> Result<(), StoreFault>
    requires { IsSortedByName kept.now }
    ensures line { F.honest → OnOk result (lines.new.items ≡ lines.old.items ++ going_line (F.content files.old) kept.now id.now) }
    ensures refused { F.honest → IfErr result (IsMet (λ q. ¬ Contains kept.now q) (IsDamaged (F.content files.old))) }
    ensures same { F.content files.new ≡ F.content files.old }
    ensures wear { Wears F.failed F.can_fail F.left files.old files.new (IsErrOf result (StoreFault.Fault Fault.Device)) }
{
    if is_among(kept, id) {
        return Ok(());
    }
    let Some(object) = find(files, alloc, id)? else {
        return Ok(());
    };
    push_line(lines, id, object.kind)?;
    Ok(())
}

// Adds the line of an object: its name, a space, its kind.
fn push_line(lines: &mut Vec<u8>, id: &ObjectId, kind: Kind) -> Result<(), AllocError>
    ensures { OnOk result (lines.new.items ≡ lines.old.items ++ object_line id.now kind) }
{
    lines.extend_from_slice(&id.to_hex())?;
    lines.push(b' ')?;
    lines.extend_from_slice(kind.word())?;
    lines.push(b'\n')?;
    Ok(())
}
