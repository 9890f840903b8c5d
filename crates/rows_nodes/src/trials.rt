//! One exchange of two clones, tried with a stop after each number of writes, with each call of a device failing alone, with its
//! messages cut and changed, and with readers that bring them.

use crate::scene::Scene;
use crate::words::push_bytes;
use bstr::ByteVec;
use std::alloc::{AllocError, Global};
use std::fmt::Write;

// Both clones push; the push that comes second is stale.
const EXCHANGE: [&str; 37] = [
    "c0 add a Hello World\\n",
    "c0 commit A",
    "c0 push refs/heads/main=b9f8cad2b08a1ffea29d7199b1193267c643a210",
    "take 0",
    "step 0",
    "step 0",
    "step 0",
    "step 0",
    "c0 take 1",
    "c1 fetch",
    "take 2",
    "c1 take 3",
    "take 4",
    "c1 take 5",
    "c1 branch refs/heads/main b9f8cad2b08a1ffea29d7199b1193267c643a210",
    "c1 add a Hello World\\n",
    "c0 commit B",
    "c1 commit C",
    "c0 push refs/heads/main=6f883c9a1887927ed1a87722c8de417c60f09597",
    "c1 push refs/heads/main=221897b83735d12d439716bcf4957a64378ee61a",
    "take 6",
    "take 7",
    "step 0",
    "step 1",
    "step 0",
    "step 1",
    "step 1",
    "step 0",
    "step 1",
    "step 0",
    "c1 take 8",
    "c0 take 9",
    "c0 fetch",
    "take 10",
    "c0 take 11",
    "take 12",
    "c0 take 13",
];

// Runs rows. Whether a device failed in one of them.
fn run(alloc: Global, scene: &mut Scene, rows: &[&str]) -> Result<bool, AllocError> {
    let mut failed = false;
    for row in rows {
        let mut answer = String::new(alloc);
        scene.row(&mut answer, row)?;
        if answer.as_str().contains("device") {
            failed = true;
        }
    }
    Ok(failed)
}

// Brings every message that was sent to every node once more.
fn repeat_all(alloc: Global, scene: &mut Scene) -> Result<(), AllocError> {
    for number in 0..scene.sent.len() {
        for node in ["", "c0 ", "c1 "] {
            let mut row = String::from_str(alloc, node)?;
            write!(row, "take {number}")?;
            let mut answer = String::new(alloc);
            scene.row(&mut answer, row.as_str())?;
        }
    }
    Ok(())
}

// What came of a failing device.
enum Failed {
    // It did not fail: so many writes or calls were enough.
    Never,
    // Each node was opened again, and at each all was there that its refs reached, then and after every message came once more.
    Whole,
    Broken,
}

const OPENED: [&str; 3] = ["open", "c0 open", "c1 open"];

// The exchange, after a row that opens a node over a device that fails.
fn with_failure(alloc: Global, scene: &mut Scene, opening: &str) -> Result<Failed, AllocError> {
    let at_opening = run(alloc, scene, &["world", opening])?;
    if !run(alloc, scene, &EXCHANGE)? && !at_opening {
        return Ok(Failed::Never);
    }
    if is_whole_again(alloc, scene)? {
        Ok(Failed::Whole)
    } else {
        Ok(Failed::Broken)
    }
}

// Opens the nodes anew, and repeats the exchange: whether they are whole then, and were before it.
fn is_whole_again(alloc: Global, scene: &mut Scene) -> Result<bool, AllocError> {
    run(alloc, scene, &OPENED)?;
    if !scene.is_whole() {
        return Ok(false);
    }
    run(alloc, scene, &OPENED)?;
    repeat_all(alloc, scene)?;
    Ok(scene.is_whole())
}

// Tries the exchange with a failure after 0, 1, 2 .. writes or calls at a node, which the words name that open it, until it comes
// no more: after how many that is, or else after how many the nodes were not whole.
fn failures(
    alloc: Global,
    scene: &mut Scene,
    words: &str,
) -> Result<Result<usize, usize>, AllocError> {
    for number in 0..1000 {
        let mut opening = String::from_str(alloc, words)?;
        write!(opening, " {number}")?;
        match with_failure(alloc, scene, opening.as_str())? {
            Failed::Never => return Ok(Ok(number)),
            Failed::Whole => {}
            Failed::Broken => return Ok(Err(number)),
        }
    }
    Ok(Err(1000))
}

// How many stops there are in the exchange at a node: one after each number of writes.
fn stops(out: &mut String, alloc: Global, scene: &mut Scene, node: &str) -> Result<(), AllocError> {
    match failures(alloc, scene, node)? {
        Ok(writes) => write!(out, "{writes} stops, all whole"),
        Err(writes) => write!(out, "not whole after {writes} writes"),
    }
}

// Whether all is whole after each call of a node's device failed alone.
fn faults(
    out: &mut String,
    alloc: Global,
    scene: &mut Scene,
    node: &str,
) -> Result<(), AllocError> {
    let mut words = String::from_str(alloc, node)?;
    words.push_str(" once")?;
    match failures(alloc, scene, words.as_str())? {
        Ok(_) => out.push_str("all whole"),
        Err(calls) => write!(out, "not whole after {calls} calls"),
    }
}

// A message of the exchange, and what begins a row about the node that it comes to.
#[derive(Drop)]
struct Message {
    node: &'static str,
    bytes: Vec<u8>,
}

// What came of a changed message.
enum Answered {
    Refused,
    Taken,
    Broken,
}

// What begins a row about the node that this row is about.
fn node_of(row: &str) -> &'static str {
    match row.split_once(' ') {
        Some(("c0", _)) => "c0 ",
        Some(("c1", _)) => "c1 ",
        _ => "",
    }
}

// The message of this number of those that were sent, as it comes to a node.
fn message_of(
    alloc: Global,
    scene: &Scene,
    number: usize,
    node: &'static str,
) -> Result<Option<Message>, AllocError> {
    let Some(bytes) = scene.sent.get(number) else {
        return Ok(None);
    };
    let bytes = bytes.to_vec(alloc)?;
    Ok(Some(Message { node, bytes }))
}

// Runs the exchange in a new world up to the row that brings the message of this number, and returns the message.
fn up_to(alloc: Global, scene: &mut Scene, number: usize) -> Result<Option<Message>, AllocError> {
    let mut taking = String::new(alloc);
    write!(taking, "take {number}")?;
    run(alloc, scene, &["world"])?;
    for row in &EXCHANGE {
        if row.ends_with(taking.as_str()) {
            return message_of(alloc, scene, number, node_of(row));
        }
        run(alloc, scene, &[*row])?;
    }
    Ok(None)
}

// What a node answers to a verb, and to what stands after it.
fn asked(
    alloc: Global,
    scene: &mut Scene,
    node: &'static str,
    text: &str,
) -> Result<String, AllocError> {
    let mut row = String::from_str(alloc, node)?;
    row.push_str(text)?;
    let mut answer = String::new(alloc);
    scene.row(&mut answer, row.as_str())?;
    Ok(answer)
}

// What a node answers to these bytes.
fn brought(
    alloc: Global,
    scene: &mut Scene,
    node: &'static str,
    bytes: &[u8],
) -> Result<String, AllocError> {
    scene.sent.push(bytes.to_vec(alloc)?)?;
    asked(alloc, scene, node, "take")
}

// What a node answers to these bytes from a reader, as the words say.
fn read_from(
    alloc: Global,
    scene: &mut Scene,
    node: &'static str,
    words: &str,
    bytes: &[u8],
) -> Result<String, AllocError> {
    let mut text = String::from_str(alloc, words)?;
    push_bytes(&mut text, bytes)?;
    asked(alloc, scene, node, text.as_str())
}

// The message with another byte at a place.
fn changed(alloc: Global, bytes: &[u8], place: usize) -> Result<Vec<u8>, AllocError> {
    let mut bytes = bytes.to_vec(alloc)?;
    if let Some(byte) = bytes.get_mut(place) {
        *byte ^= 1;
    }
    Ok(bytes)
}

// What the message of this number is answered if nothing came before it.
fn answer_to_whole(
    alloc: Global,
    beside: &mut Scene,
    number: usize,
) -> Result<Option<String>, AllocError> {
    match up_to(alloc, beside, number)? {
        Some(message) => Ok(Some(brought(alloc, beside, message.node, &message.bytes)?)),
        None => Ok(None),
    }
}

// Whether the message is answered as it is if nothing came before it.
fn is_as_before(
    alloc: Global,
    at: &mut Scene,
    beside: &mut Scene,
    message: &Message,
    number: usize,
) -> Result<bool, AllocError> {
    let answer = brought(alloc, at, message.node, &message.bytes)?;
    match answer_to_whole(alloc, beside, number)? {
        Some(expected) => Ok(answer.as_str() == expected.as_str()),
        None => Ok(false),
    }
}

// Brings a node each proper beginning of a message: the answer to the first that is not refused as cut, if there is one.
fn answer_to_cut(
    alloc: Global,
    at: &mut Scene,
    message: &Message,
) -> Result<Option<String>, AllocError> {
    for length in 0..message.bytes.len() {
        let (front, _) = message.bytes.split_at(length);
        let answer = brought(alloc, at, message.node, front)?;
        if answer.as_str() != "83 CutMessage" {
            return Ok(Some(answer));
        }
    }
    Ok(None)
}

// Brings a node each proper beginning of a message of the exchange, and then the message. How many were refused as cut, if all
// were and the message was taken as if nothing had come before it.
fn try_cuts(
    out: &mut String,
    alloc: Global,
    at: &mut Scene,
    beside: &mut Scene,
    message: &Message,
    number: usize,
) -> Result<(), AllocError> {
    if let Some(answer) = answer_to_cut(alloc, at, message)? {
        return out.push_str(answer.as_str());
    }
    if !is_as_before(alloc, at, beside, message, number)? {
        return out.push_str("not as before");
    }
    write!(out, "{} beginnings refused", message.bytes.len())
}

// What a node answers to a message with another byte at this place: whether it is taken, with all there then that refs reach, or
// refused with a number.
fn answer_to_changed(
    alloc: Global,
    at: &mut Scene,
    message: &Message,
    place: usize,
) -> Result<Answered, AllocError> {
    let bytes = changed(alloc, &message.bytes, place)?;
    let answer = brought(alloc, at, message.node, &bytes)?;
    let is_refused = match answer.as_bytes().first() {
        Some(letter) => letter.is_ascii_digit(),
        None => false,
    };
    if is_refused {
        return Ok(Answered::Refused);
    }
    if at.is_whole() {
        Ok(Answered::Taken)
    } else {
        Ok(Answered::Broken)
    }
}

// Brings a node a message of the exchange with one byte changed, for each byte. How many there are, if each is taken or refused with
// a number, and the message itself is taken after the refused ones as if nothing had come before it.
fn try_changes(
    out: &mut String,
    alloc: Global,
    at: &mut Scene,
    beside: &mut Scene,
    message: &Message,
    number: usize,
) -> Result<(), AllocError> {
    let count = message.bytes.len();
    for place in 0..count {
        match answer_to_changed(alloc, at, message, place)? {
            Answered::Refused => {}
            Answered::Broken => return write!(out, "not whole with byte {place} changed"),
            Answered::Taken => {
                up_to(alloc, at, number)?;
            }
        }
    }
    if !is_as_before(alloc, at, beside, message, number)? {
        return out.push_str("not as before");
    }
    write!(out, "{count} changes answered")
}

// What a node answers if a reader gives so many bytes of the message, after which it `fail`s or is at its `end`.
fn answer_to_broken(
    alloc: Global,
    at: &mut Scene,
    message: &Message,
    way: &str,
    length: usize,
) -> Result<String, AllocError> {
    let mut words = String::new(alloc);
    write!(words, "from {way} {length} ")?;
    read_from(alloc, at, message.node, words.as_str(), &message.bytes)
}

// What is to be answered there.
fn told_of_broken(way: &str, length: usize) -> &'static str {
    match way {
        "fail" => "115 ReadFailed",
        _ if length == 0 => "none",
        _ => "83 CutMessage",
    }
}

// Tries that at a node to which nothing came before. What it answers, if that is something else or a file is not as it was.
fn try_broken(
    alloc: Global,
    at: &mut Scene,
    before: &mut Scene,
    number: usize,
    way: &str,
    length: usize,
) -> Result<Option<String>, AllocError> {
    let Some(message) = up_to(alloc, at, number)? else {
        return Ok(Some(String::from_str(alloc, "no such message")?));
    };
    let mut answer = answer_to_broken(alloc, at, &message, way, length)?;
    if answer.as_str() == told_of_broken(way, length) {
        if at.is_like(before) {
            return Ok(None);
        }
        answer.push_str(", and files changed")?;
    }
    Ok(Some(answer))
}

// Brings a node the message, after every proper beginning of it from such a reader: what it answers.
fn answer_after(
    alloc: Global,
    at: &mut Scene,
    way: &str,
    number: usize,
) -> Result<Option<String>, AllocError> {
    let Some(message) = up_to(alloc, at, number)? else {
        return Ok(None);
    };
    for length in 0..message.bytes.len() {
        answer_to_broken(alloc, at, &message, way, length)?;
    }
    let answer = read_from(alloc, at, message.node, "next whole ", &message.bytes)?;
    Ok(Some(answer))
}

// Whether the message, of which every proper beginning came from such a reader, is taken from one that gives it whole, as it is
// if it comes at once and nothing came before it.
fn is_taken_after(
    alloc: Global,
    at: &mut Scene,
    beside: &mut Scene,
    way: &str,
    number: usize,
) -> Result<bool, AllocError> {
    let Some(answer) = answer_after(alloc, at, way, number)? else {
        return Ok(false);
    };
    let Some(expected) = answer_to_whole(alloc, beside, number)? else {
        return Ok(false);
    };
    let told = answer.as_str().strip_suffix(" | ");
    Ok(told == Some(expected.as_str()) && at.is_like(beside))
}

// Brings a node each proper beginning of a message of the exchange by a reader that fails after it, or ends. How many left the
// files as they were, if all did and the message was taken after them.
fn try_beginnings(
    out: &mut String,
    alloc: Global,
    at: &mut Scene,
    beside: &mut Scene,
    way: &str,
    number: usize,
) -> Result<(), AllocError> {
    let count = match up_to(alloc, beside, number)? {
        Some(message) => message.bytes.len(),
        None => return out.push_str("no such message"),
    };
    for length in 0..count {
        if let Some(answer) = try_broken(alloc, at, beside, number, way, length)? {
            return write!(out, "{} after {length} bytes", answer.as_str());
        }
    }
    if !is_taken_after(alloc, at, beside, way, number)? {
        return out.push_str("not as before");
    }
    write!(out, "{count} beginnings left nothing")
}

// How many of so many bytes a reader has given to the node that answered so. Of bytes that are no message the first fault is told,
// whatever comes after it.
fn given(alloc: Global, count: usize, answer: &str, rest: &str) -> Result<usize, AllocError> {
    if answer.starts_with('8') || answer.starts_with("3 ") {
        return Ok(count);
    }
    let rest = Vec::unescape_bytes(alloc, rest)?;
    Ok(count.saturating_sub(rest.len()))
}

// Whether what a reader brings is answered as it is if it comes at once, with the same files. If it ends sooner than the
// message did, so much of it comes at once.
fn is_read_so(
    alloc: Global,
    at: &mut Scene,
    beside: &mut Scene,
    node: &'static str,
    bytes: &[u8],
) -> Result<bool, AllocError> {
    let answer = read_from(alloc, at, node, "next drip ", bytes)?;
    let (answer, rest) = answer.as_str().split_once(" | ").unwrap_or(("", ""));
    let count = given(alloc, bytes.len(), answer, rest)?;
    let (front, _) = bytes.split_at(count.min(bytes.len()));
    let expected = brought(alloc, beside, node, front)?;
    Ok(answer == expected.as_str() && at.is_like(beside))
}

// Whether that is so of the message of this number with one byte changed at this place.
fn is_read_alike(
    alloc: Global,
    at: &mut Scene,
    beside: &mut Scene,
    number: usize,
    place: usize,
) -> Result<bool, AllocError> {
    up_to(alloc, beside, number)?;
    let Some(message) = up_to(alloc, at, number)? else {
        return Ok(false);
    };
    let bytes = changed(alloc, &message.bytes, place)?;
    is_read_so(alloc, at, beside, message.node, &bytes)
}

// A reader brings a node a message of the exchange with one byte changed, for each byte. How many there are, if each is answered as
// one that comes at once.
fn try_readings(
    out: &mut String,
    alloc: Global,
    at: &mut Scene,
    beside: &mut Scene,
    number: usize,
    count: usize,
) -> Result<(), AllocError> {
    for place in 0..count {
        if !is_read_alike(alloc, at, beside, number, place)? {
            return write!(out, "not alike with byte {place} changed");
        }
    }
    write!(out, "{count} changes read alike")
}

// What a node makes of a message of the exchange that is cut, or changed, or that a reader brings.
fn damaged(
    out: &mut String,
    alloc: Global,
    at: &mut Scene,
    beside: &mut Scene,
    verb: &str,
    text: &str,
) -> Result<(), AllocError> {
    let number = text.parse::<usize>().unwrap_or(1000);
    let Some(message) = up_to(alloc, at, number)? else {
        return out.push_str("no such message");
    };
    match verb {
        "cuts" => try_cuts(out, alloc, at, beside, &message, number),
        "changes" => try_changes(out, alloc, at, beside, &message, number),
        "fails" => try_beginnings(out, alloc, at, beside, "fail", number),
        "ends" => try_beginnings(out, alloc, at, beside, "end", number),
        _ => try_readings(out, alloc, at, beside, number, message.bytes.len()),
    }
}

/// A row about the exchange, which is played in one scene, and beside it in another.
pub fn row(
    out: &mut String,
    alloc: Global,
    at: &mut Scene,
    beside: &mut Scene,
    text: &str,
) -> Result<(), AllocError> {
    let (verb, rest) = text.split_once(' ').unwrap_or((text, ""));
    match verb {
        "stops" => stops(out, alloc, at, rest),
        "faults" => faults(out, alloc, at, rest),
        "cuts" | "changes" | "fails" | "ends" | "reads" => {
            damaged(out, alloc, at, beside, verb, rest)
        }
        _ => out.push_str("no such trial"),
    }
}
