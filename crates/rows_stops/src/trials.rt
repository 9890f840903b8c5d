//! A script, played with trouble at a node at each moment in turn.
ghost use Rattle.std.specs.Prelude.{◌≡◌, ◌+◌, IfOk, IfSome, length};
ghost use Rattle.vc_events.specs.World.{clones_of};

use crate::disk::{Disk, OnDisk, counts, mend, new_disk};
use crate::laws::{Seen, refuse_partial};
use crate::run::{After, DiskWorld, Run, Trouble, is_fault};
use crate::script::{Script, place_of};
use anyhow::{Context, Result, bail};
use std::alloc::Global;
use vc_files::{FailOnce, Fault};
use vc_node::CloneNode;
use vc_shared::Shared;
use vc_simulation::world_over;

// How many writes pass before a second stop, at most.
const FEW: u64 = 6;

/// What came of a run.
#[derive(Drop)]
struct Outcome {
    // The answers to the lines, each with a line feed, up to the last one that was played.
    answers: Vec<Vec<u8>>,
    faults: u64,
    // How many calls for files the node made from the beginning, and how many writes after it.
    calls: u64,
    writes: u64,
}

// No trouble at a node.
fn none_at(place: usize) -> Trouble {
    Trouble {
        place,
        writes: None,
        again: None,
        calls: u64::MAX,
        after: After::Back,
    }
}

fn name_of(alloc: Global, place: usize) -> Result<String> {
    match place.checked_sub(1) {
        Some(number) => Ok(format!(in alloc; "c{number}")?),
        None => Ok(String::from_str(alloc, "shared")?),
    }
}

// So many disks with no files.
fn new_disks(alloc: Global, count: usize) -> Result<Vec<Disk>> {
    let mut disks = Vec::new(alloc);
    for _ in 0..count {
        disks.push(new_disk(alloc))?;
    }
    Ok(disks)
}

// The files on the disks, of which those at a place fail once.
fn files_on<'a>(
    alloc: Global,
    disks: &'a [Disk],
    trouble: &Trouble,
) -> Result<Vec<FailOnce<OnDisk<'a>>>>
    ensures { IfOk result (λ files. length files.items ≡ length disks.now) }
{
    let mut files = Vec::new(alloc);
    for disk in disks {
        let is_there = files.len() == trouble.place;
        let calls = if is_there { trouble.calls } else { u64::MAX };
        files.push(FailOnce::new(OnDisk::held(disk), calls))?;
    }
    Ok(files)
}

// A new world on the disks, or none if a device failed.
fn begun<'a>(alloc: Global, disks: &'a [Disk], trouble: &Trouble) -> Result<Option<DiskWorld<'a>>>
    ensures { IfOk result (λ found. IfSome found (λ world. clones_of world + 1 ≡ length disks.now)) }
{
    if disks.len() < 2 {
        bail!("a world has a clone");
    }
    let files = files_on(alloc, disks, trouble)?;
    match world_over(alloc, files) {
        Ok(world) => Ok(Some(world)),
        Err(Fault::Device) => Ok(None),
        Err(Fault::Memory) => bail!("no memory for a world"),
    }
}

// How many calls and writes the disk at a place has seen.
fn counts_at(disks: &[Disk], place: usize) -> Result<(u64, u64)> {
    counts(disks.get(place).context("there is no such node")?)
}

// A run on the disks.
fn played_on(alloc: Global, script: &Script, trouble: &Trouble, disks: &[Disk]) -> Result<Outcome> {
    let Some(world) = begun(alloc, disks, trouble)? else {
        return Ok(Outcome {
            answers: Vec::new(alloc),
            faults: 1,
            calls: 0,
            writes: 0,
        });
    };
    let (_, before) = counts_at(disks, trouble.place)?;
    let mut run = Run {
        alloc,
        disks,
        clones: disks.len().saturating_sub(1),
        world,
        seen: Seen::nothing(alloc, &script.together)?,
        trouble: *trouble,
        node: name_of(alloc, trouble.place)?,
        faults: 0,
    };
    let answers = run.play(&script.lines)?;
    if trouble.after == After::Down && run.faults > 0 {
        run.recover()?;
    }
    let (calls, writes) = counts_at(disks, trouble.place)?;
    Ok(Outcome {
        answers,
        faults: run.faults,
        calls,
        writes: writes.saturating_sub(before),
    })
}

// Opens the files on a disk, as another process finds them, with no stop.
fn open_anew(alloc: Global, disk: &Disk, is_shared: bool) -> Result<()> {
    mend(disk)?;
    let files = OnDisk::seen(disk);
    let is_open = if is_shared {
        Shared::open(alloc, files).is_ok()
    } else {
        CloneNode::open(alloc, files).is_ok()
    };
    if !is_open {
        bail!("the files can't be opened");
    }
    Ok(())
}

// A run, after which the files of each node are opened anew.
fn played(alloc: Global, script: &Script, trouble: &Trouble) -> Result<Outcome> {
    let disks = new_disks(alloc, script.clones.saturating_add(1))?;
    let played = played_on(alloc, script, trouble, &disks)?;
    for (place, disk) in disks.iter().enumerate() {
        open_anew(alloc, disk, place == 0)?;
    }
    refuse_partial(alloc, &disks)?;
    Ok(played)
}

// Up to the first fault the answers have to be those without trouble.
fn refuse_others(answers: &[Vec<u8>], expected: &[Vec<u8>]) -> Result<()> {
    for (answer, other) in answers.iter().zip(expected) {
        if is_fault(answer) {
            return Ok(());
        }
        if answer != other {
            bail!("another answer before the first fault");
        }
    }
    Ok(())
}

// A run with trouble: how many faults came.
fn tried(alloc: Global, script: &Script, plain: &Outcome, trouble: &Trouble) -> Result<u64> {
    let played = played(alloc, script, trouble)?;
    refuse_others(&played.answers, &plain.answers)?;
    Ok(played.faults)
}

// Such a run, which has to have so many faults.
fn must_fault(
    alloc: Global,
    script: &Script,
    plain: &Outcome,
    trouble: &Trouble,
    faults: u64,
) -> Result<()> {
    if tried(alloc, script, plain, trouble)? != faults {
        bail!("it has another number of faults than {faults}");
    }
    Ok(())
}

// A stop after so many writes: the files are opened then, and in another run the node comes back.
fn stopped(
    alloc: Global,
    script: &Script,
    plain: &Outcome,
    place: usize,
    writes: u64,
) -> Result<()> {
    let mut trouble = none_at(place);
    trouble.writes = Some(writes);
    let faults = u64::from(writes < plain.writes);
    must_fault(alloc, script, plain, &trouble, faults)?;
    trouble.after = After::End;
    must_fault(alloc, script, plain, &trouble, faults)
}

// A stop after each number of writes, and one that never comes.
fn stops(alloc: Global, script: &Script, plain: &Outcome, place: usize) -> Result<()> {
    for writes in 0..plain.writes.saturating_add(1) {
        if let Err(fault) = stopped(alloc, script, plain, place, writes) {
            bail!("a stop after {writes} writes: {fault}");
        }
    }
    Ok(())
}

// A stop after so many writes, and a second one after each small number of writes more.
fn stopped_twice(
    alloc: Global,
    script: &Script,
    plain: &Outcome,
    place: usize,
    writes: u64,
) -> Result<()> {
    let mut trouble = none_at(place);
    trouble.writes = Some(writes);
    for again in 0..FEW {
        trouble.again = Some(again);
        if let Err(fault) = tried(alloc, script, plain, &trouble) {
            bail!("and after {again} more: {fault}");
        }
    }
    Ok(())
}

// Two stops, the second one in the restart after the first or in what follows.
fn stops_twice(alloc: Global, script: &Script, plain: &Outcome, place: usize) -> Result<()> {
    for writes in 0..plain.writes {
        if let Err(fault) = stopped_twice(alloc, script, plain, place, writes) {
            bail!("a stop after {writes} writes, {fault}");
        }
    }
    Ok(())
}

// Each call of the disk fails alone.
fn fails(alloc: Global, script: &Script, plain: &Outcome, place: usize) -> Result<()> {
    let mut trouble = none_at(place);
    trouble.after = After::Down;
    for calls in 0..plain.calls {
        trouble.calls = calls;
        if let Err(fault) = must_fault(alloc, script, plain, &trouble, 1) {
            bail!("a call fails after {calls}: {fault}");
        }
    }
    Ok(())
}

// What a trial comes to.
fn try_all(alloc: Global, script: &Script, verb: &str, node: &str) -> Result<()> {
    let place = place_of(node).context("there is no such node")?;
    let plain = played(alloc, script, &none_at(place))?;
    if plain.faults > 0 || plain.writes == 0 {
        bail!("the script comes to nothing");
    }
    match verb {
        "stops" => stops(alloc, script, &plain, place),
        "stops-twice" => stops_twice(alloc, script, &plain, place),
        "fails" => fails(alloc, script, &plain, place),
        _ => bail!("no such trial"),
    }
}

/// A trial of a script: `held` if nothing was wrong, or what was.
pub fn row(alloc: Global, script: &Script, text: &str) -> Result<String> {
    let (verb, node) = text.split_once(' ').unwrap_or((text, ""));
    match try_all(alloc, script, verb, node) {
        Ok(()) => Ok(String::from_str(alloc, "held")?),
        Err(fault) => Ok(format!(in alloc; "{fault}")?),
    }
}
