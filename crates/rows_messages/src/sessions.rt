//! Rows about pushes, many at once, from the moment that they are taken to their reports.

ghost use Rattle.std.specs.Prelude.{◌<◌};

use crate::ends::{Ends, count_end, push_ends};
use crate::messages::Telling;
use crate::pushes;
use crate::spelling::{ids_of, push_bytes, push_id, push_ids, spelled};
use std::alloc::{AllocError, Global};
use std::collections::BTreeMap;
use std::fmt::Write;
use vc_files::{Fault, Files, MemoryFiles};
use vc_history::Generations;
use vc_message::{Head, Source, Taken, next_object, read_head};
use vc_object::ObjectId;
use vc_push::{Push, PushHead, ReportReader};
use vc_push_rules::Stepped;
use vc_quarantine::Arriving;
use vc_refs::Refs;
use vc_session::{PushSession, SessionFault};

/// The pushes that are open, by their slots.
#[derive(Drop)]
pub struct OpenPushes {
    by_slot: BTreeMap<u8, PushSession>,
}

impl OpenPushes {
    /// None is.
    pub fn new(alloc: Global) -> OpenPushes {
        OpenPushes {
            by_slot: BTreeMap::new(alloc),
        }
    }
}

// Tells what a step did, or why it is not done.
fn push_step(out: &mut String, did: &Result<Stepped, SessionFault>) -> Result<(), AllocError> {
    match did {
        Ok(Stepped::Checked(passed)) => write!(out, "checked {passed}"),
        Ok(Stepped::Migrated) => out.push_str("stored"),
        Ok(Stepped::Updated(name, found)) => {
            match found {
                Some(reason) => write!(out, "{} ", reason.number())?,
                None => out.push_str("set ")?,
            }
            push_bytes(out, name, "\\x20")
        }
        Ok(Stepped::Atomic(refs)) => write!(out, "all {refs} set"),
        Ok(Stepped::AtomicRefused(name, reason)) => {
            write!(out, "none set, {} ", reason.number())?;
            push_bytes(out, name, "\\x20")
        }
        Ok(Stepped::Finished(report)) => ReportReader::tell(out, report),
        Err(fault) => write!(out, "{fault}"),
    }
}

// Whether there is a step behind this one.
fn goes_on(did: &Result<Stepped, SessionFault>) -> bool {
    match did {
        Ok(Stepped::Finished(_)) => false,
        Ok(_) => true,
        Err(_) => false,
    }
}

// Opens a push in a slot. If it is refused, it is written why. Whether it is open.
fn begin(
    out: &mut String,
    alloc: Global,
    files: &mut MemoryFiles,
    pushes: &mut OpenPushes,
    slot: u8,
    push: Push,
) -> Result<bool, AllocError> {
    match PushSession::new(files, alloc, slot, push) {
        Ok(session) => {
            pushes.by_slot.insert(slot, session)?;
            Ok(true)
        }
        Err(fault) => {
            write!(out, "{fault}")?;
            Ok(false)
        }
    }
}

// The same of the push of these words, which comes as it is written.
fn opened(
    out: &mut String,
    alloc: Global,
    files: &mut MemoryFiles,
    pushes: &mut OpenPushes,
    slot: u8,
    words: &str,
) -> Result<bool, AllocError> {
    let bytes = pushes::push(alloc, words)?;
    match Push::read(alloc, &bytes) {
        Ok(push) => begin(out, alloc, files, pushes, slot, push),
        Err(fault) => {
            write!(out, "{fault}")?;
            Ok(false)
        }
    }
}

/// Opens a push in a slot: its number, and the words of the push.
pub fn open_push(
    out: &mut String,
    alloc: Global,
    files: &mut MemoryFiles,
    pushes: &mut OpenPushes,
    text: &str,
) -> Result<(), AllocError> {
    let (slot, words) = text.split_once(' ').unwrap_or((text, ""));
    let slot = slot.parse::<u8>().unwrap_or(0);
    if opened(out, alloc, files, pushes, slot, words)? {
        out.push_str("ok")?;
    }
    Ok(())
}

// The objects that come, each put where it belongs, and how many files stand in quarantine behind each. Whether all came, or why
// not.
fn take_objects<R: Source>(
    out: &mut String,
    alloc: Global,
    files: &mut MemoryFiles,
    reader: &mut R,
    taken: Taken,
    arriving: &mut Arriving,
) -> Result<bool, AllocError>
    requires few { taken.lines < taken.bytes }
{
    let mut taken = taken;
    'objects: for _ in 0..1000u32 {
        let object = match next_object(alloc, reader, &mut taken) {
            Ok(Some((_, object))) => object,
            Ok(None) => return Ok(true),
            Err(fault) => {
                write!(out, "{fault}")?;
                return Ok(false);
            }
        };
        if let Err(fault) = arriving.take(files, alloc, &object) {
            write!(out, "{fault}")?;
            return Ok(false);
        }
        count(out, alloc, files, "quarantine/")?;
        out.push(' ')?;
    }
    Ok(false)
}

// The objects that come from here on, after how many files stand in quarantine before the first. Whether all came.
fn take_rest(
    out: &mut String,
    alloc: Global,
    files: &mut MemoryFiles,
    rest: &[u8],
    taken: Taken,
    arriving: &mut Arriving,
) -> Result<bool, AllocError>
    requires few { taken.lines < taken.bytes }
{
    let mut reader = rest;
    count(out, alloc, files, "quarantine/")?;
    out.push(' ')?;
    take_objects(out, alloc, files, &mut reader, taken, arriving)
}

// Opens a push in a slot whose objects have come.
fn insert_arrived(
    out: &mut String,
    alloc: Global,
    pushes: &mut OpenPushes,
    slot: u8,
    arriving: Arriving,
    head: PushHead,
) -> Result<(), AllocError> {
    let PushHead { atomic, commands } = head;
    let session = PushSession::arrived(alloc, arriving, atomic, commands)?;
    pushes.by_slot.insert(slot, session)?;
    out.push_str("ok")
}

// Opens the push of which this has come in a slot, once the rest has. If it is refused, it is written why.
fn arrived(
    out: &mut String,
    alloc: Global,
    files: &mut MemoryFiles,
    pushes: &mut OpenPushes,
    slot: u8,
    rest: &[u8],
    taken: Taken,
    head: PushHead,
) -> Result<(), AllocError>
    requires few { taken.lines < taken.bytes }
{
    let mut arriving = match Arriving::begin(files, alloc, slot) {
        Ok(arriving) => arriving,
        Err(fault) => return write!(out, "{fault}"),
    };
    match take_rest(out, alloc, files, rest, taken, &mut arriving) {
        Ok(true) => insert_arrived(out, alloc, pushes, slot, arriving, head),
        Ok(false) => Ok(()),
        Err(fault) => Err(fault),
    }
}

/// Opens a push in a slot as it comes, object by object: its number, and its bytes. Told is how many files stand in quarantine at
/// first, and behind each object.
pub fn arrive(
    out: &mut String,
    alloc: Global,
    files: &mut MemoryFiles,
    pushes: &mut OpenPushes,
    text: &str,
) -> Result<(), AllocError> {
    let (slot, message) = text.split_once(' ').unwrap_or((text, ""));
    let slot = slot.parse::<u8>().unwrap_or(0);
    let bytes = spelled(alloc, message)?;
    let mut reader = bytes.as_slice();
    let (head, taken) = match read_head(alloc, &mut reader) {
        Ok(Some((head, taken))) => (head, taken),
        Ok(None) => return out.push_str("end"),
        Err(fault) => return write!(out, "{fault}"),
    };
    let Head::Push(asked) = head else {
        return out.push_str("no push with objects");
    };
    arrived(out, alloc, files, pushes, slot, reader, taken, asked)
}

/// One step of the push in this slot.
pub fn step(
    out: &mut String,
    alloc: Global,
    files: &mut MemoryFiles,
    pushes: &mut OpenPushes,
    text: &str,
) -> Result<(), AllocError> {
    let slot = text.parse::<u8>().unwrap_or(0);
    let Some(session) = pushes.by_slot.get_mut(&slot) else {
        return out.push_str("no push");
    };
    let did = session.step(files, alloc, &Generations::new(alloc));
    push_step(out, &did)
}

/// What the push in a slot learns from nothing: its number, the ids that are due, and those whose generations are told then, where they
/// have one; and what is due then.
pub fn learn(
    out: &mut String,
    alloc: Global,
    files: &mut MemoryFiles,
    pushes: &OpenPushes,
    text: &str,
) -> Result<(), AllocError> {
    let (slot, text) = text.split_once(' ').unwrap_or((text, "-"));
    let (due, names) = text.split_once(' ').unwrap_or((text, "-"));
    let slot = slot.parse::<u8>().unwrap_or(0);
    let Some(session) = pushes.by_slot.get(&slot) else {
        return out.push_str("no push");
    };
    let mut due = ids_of(alloc, due)?;
    let mut known = Generations::new(alloc);
    match session.learn(files, alloc, &mut due, &mut known) {
        Ok(()) => push_learnt(out, alloc, &known, names, &due),
        Err(fault) => write!(out, "{fault}"),
    }
}

// The generations of these names, if they are known, and what is due.
fn push_learnt(
    out: &mut String,
    alloc: Global,
    known: &Generations,
    names: &str,
    due: &[ObjectId],
) -> Result<(), AllocError> {
    push_generations(out, alloc, known, names)?;
    out.push_str(", due ")?;
    push_ids(out, due)
}

// The generations of these names, where they are known.
fn push_generations(
    out: &mut String,
    alloc: Global,
    known: &Generations,
    names: &str,
) -> Result<(), AllocError> {
    for (place, id) in ids_of(alloc, names)?.iter().enumerate() {
        if place > 0 {
            out.push_str(" ")?;
        }
        match known.get(id) {
            Some(number) => write!(out, "{number}")?,
            None => out.push_str("-")?,
        }
    }
    Ok(())
}

// Its next steps, until one is its last. No push has more commands than 256.
fn push_steps(
    out: &mut String,
    alloc: Global,
    files: &mut MemoryFiles,
    session: &mut PushSession,
) -> Result<(), AllocError> {
    for number in 0..260u32 {
        if number > 0 {
            out.push_str("; ")?;
        }
        let did = session.step(files, alloc, &Generations::new(alloc));
        push_step(out, &did)?;
        if !goes_on(&did) {
            break;
        }
    }
    Ok(())
}

// The steps of a push from its words, where no other is open.
fn run_alone(
    out: &mut String,
    alloc: Global,
    files: &mut MemoryFiles,
    pushes: &mut OpenPushes,
    text: &str,
) -> Result<(), AllocError> {
    opened(out, alloc, files, pushes, 0, text)?;
    match pushes.by_slot.get_mut(&0) {
        Some(session) => push_steps(out, alloc, files, session),
        None => Ok(()),
    }
}

/// The steps of a push that is alone, from its words.
pub fn run(
    out: &mut String,
    alloc: Global,
    files: &mut MemoryFiles,
    text: &str,
) -> Result<(), AllocError> {
    let mut pushes = OpenPushes::new(alloc);
    run_alone(out, alloc, files, &mut pushes, text)
}

/// Tells the refs: a name, `=` and an id for each, and what `=` of none is.
pub fn refs(out: &mut String, alloc: Global, files: &mut MemoryFiles) -> Result<(), AllocError> {
    match Refs::new(alloc, files).list() {
        Ok(refs) => {
            out.push_str("refs")?;
            for (name, id) in &refs {
                out.push(' ')?;
                push_bytes(out, name.as_str().as_bytes(), "\\x20")?;
                out.push('=')?;
                push_id(out, *id)?;
            }
            Ok(())
        }
        Err(fault) => write!(out, "{fault}"),
    }
}

/// How many files stand below a path.
pub fn count(
    out: &mut String,
    alloc: Global,
    files: &mut MemoryFiles,
    text: &str,
) -> Result<(), AllocError> {
    match files.list(alloc, text) {
        Ok(paths) => write!(out, "{}", paths.len()),
        Err(fault) => write!(out, "{fault}"),
    }
}

// Copies the files.
fn copy_into(
    copied: &mut MemoryFiles,
    alloc: Global,
    files: &mut MemoryFiles,
) -> Result<(), Fault> {
    for path in files.list(alloc, "")? {
        if let Some(bytes) = files.get(alloc, path.as_str())? {
            copied.put(alloc, path.as_str(), &bytes)?;
        }
    }
    Ok(())
}

// A step of the push in this slot. Only what is told at its end is told, or why it has none. Whether there is a step behind it.
fn push_end(
    out: &mut String,
    alloc: Global,
    files: &mut MemoryFiles,
    pushes: &mut OpenPushes,
    slot: u8,
) -> Result<bool, AllocError> {
    let Some(session) = pushes.by_slot.get_mut(&slot) else {
        return Ok(false);
    };
    let did = session.step(files, alloc, &Generations::new(alloc));
    if goes_on(&did) {
        return Ok(true);
    }
    push_step(out, &did)?;
    Ok(false)
}

// What comes of two pushes, taken one after the other, each told by itself, whose steps come in this order: each of its eight
// lowest bits tells whose step is next.
fn push_reports(
    first: &mut String,
    second: &mut String,
    alloc: Global,
    files: &mut MemoryFiles,
    pushes: &mut OpenPushes,
    pair: (&str, &str),
    order: u32,
) -> Result<(), AllocError> {
    let mut is_first_open = opened(first, alloc, files, pushes, 0, pair.0)?;
    let mut is_second_open = opened(second, alloc, files, pushes, 1, pair.1)?;
    for place in 0..8u32 {
        let is_second = order.wrapping_shr(place) % 2 == 1;
        if is_second && is_second_open {
            is_second_open = push_end(second, alloc, files, pushes, 1)?;
        } else if !is_second && is_first_open {
            is_first_open = push_end(first, alloc, files, pushes, 0)?;
        }
    }
    Ok(())
}

// Puts after what is told of a push what is told of the other one, and then the refs, and how many files are left in quarantine.
fn push_outcome(
    told: &mut String,
    alloc: Global,
    files: &mut MemoryFiles,
    other: &str,
) -> Result<(), AllocError> {
    told.push_str(" / ")?;
    told.push_str(other)?;
    told.push_str(" / ")?;
    refs(told, alloc, files)?;
    told.push_str(" / ")?;
    count(told, alloc, files, "quarantine/")
}

// Writes what comes of two pushes, over these files.
fn push_in_order(
    told: &mut String,
    alloc: Global,
    files: &mut MemoryFiles,
    pushes: &mut OpenPushes,
    pair: (&str, &str),
    order: u32,
) -> Result<(), AllocError> {
    let mut other = String::new(alloc);
    push_reports(told, &mut other, alloc, files, pushes, pair, order)?;
    push_outcome(told, alloc, files, other.as_str())
}

// The same of pushes of which none is open yet.
fn in_order(
    alloc: Global,
    files: &mut MemoryFiles,
    pushes: &mut OpenPushes,
    pair: (&str, &str),
    order: u32,
) -> Result<String, AllocError> {
    let mut told = String::new(alloc);
    push_in_order(&mut told, alloc, files, pushes, pair, order)?;
    Ok(told)
}

// Counts the end that comes over these files.
fn count_order(
    ends: &mut Ends,
    alloc: Global,
    files: &mut MemoryFiles,
    pair: (&str, &str),
    order: u32,
) -> Result<(), AllocError> {
    let mut pushes = OpenPushes::new(alloc);
    match in_order(alloc, files, &mut pushes, pair, order) {
        Ok(end) => count_end(ends, end),
        Err(fault) => Err(fault),
    }
}

// The same over a copy of the files.
fn count_copied(
    ends: &mut Ends,
    alloc: Global,
    files: &mut MemoryFiles,
    pair: (&str, &str),
    order: u32,
) -> Result<(), AllocError> {
    let mut copied = MemoryFiles::new(alloc);
    match copy_into(&mut copied, alloc, files) {
        Ok(()) => count_order(ends, alloc, &mut copied, pair, order),
        Err(_) => Err(AllocError),
    }
}

/// All orders of the steps of two pushes, parted by ` ; `, each over the files as they are: how many come to each end. An end
/// is the report of each, the refs, and how many files are left in quarantine.
pub fn orders(
    out: &mut String,
    alloc: Global,
    files: &mut MemoryFiles,
    text: &str,
) -> Result<(), AllocError> {
    let pair = text.split_once(" ; ").unwrap_or((text, ""));
    let mut ends = BTreeMap::new(alloc);
    for order in 0..256u32 {
        if order.count_ones() == 4 {
            count_copied(&mut ends, alloc, files, pair, order)?;
        }
    }
    push_ends(out, &ends)
}
