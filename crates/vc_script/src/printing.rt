//! The lines that tell what was answered.
ghost use Rattle.std.specs.Prelude.{◌≡◌, ◌++◌, decimal, length, IfOk, OnErr, OnOk};
ghost use Rattle.vc_events.specs.declared.answers.Answer.TheVariants.{Sent};
ghost use Rattle.vc_message.specs.AnyMessage.{MessageText, SpellsMessage};
ghost use Rattle.vc_message.specs.AnyView.{message_text};
ghost use Rattle.vc_pkt.specs.Message.{IsSpelledBy};
ghost use Rattle.vc_pkt.specs.ObjectStreamView.{carried};
ghost use Rattle.vc_push.specs.PushView.{carried_view};
ghost use Rattle.vc_script.specs.Printing.{AddsFirst, AddsLine, AddsLines, AreWords, atomic_words, carried_words, count_words, deed_words, fault_words, letter_bytes, objects_words, moved_words, reason_words, refused_words, updated_words};

use std::alloc::{AllocError, Global};
use vc_events::{Answer, Deed, Letter};
use vc_files::Fault;
use vc_message::Message;
use vc_pkt::{CarriedObjects, PktError, StreamObject};
use vc_push::Reason;

// ---- words

// The words, and the digits of the number after them.
fn numbered(alloc: Global, words: &[u8], number: u64) -> Result<Vec<u8>, AllocError>
    ensures { IfOk result (λ line. line.items ≡ words.now ++ decimal number) }
{
    let number = number.to_string(alloc)?;
    let mut line = words.to_vec(alloc)?;
    line.extend_from_slice(number.as_bytes())?;
    Ok(line)
}

// The words, and these bytes after them.
fn joined(alloc: Global, words: &[u8], others: &[u8]) -> Result<Vec<u8>, AllocError>
    ensures { IfOk result (λ line. line.items ≡ words.now ++ others.now) }
{
    let mut line = words.to_vec(alloc)?;
    line.extend_from_slice(others)?;
    Ok(line)
}

// ---- what a node did

// Why a ref was not set, after its name.
fn reason_words(alloc: Global, reason: Reason) -> Result<Vec<u8>, AllocError>
    ensures { IfOk result (λ line. line.items ≡ reason_words reason) }
{
    let line = joined(alloc, b" ", reason.text())?;
    Ok(line)
}

// A ref was not set.
fn refusal_words(alloc: Global, name: &[u8], reason: Reason) -> Result<Vec<u8>, AllocError>
    ensures { IfOk result (λ line. line.items ≡ updated_words name.now (Some reason)) }
{
    let reason = reason_words(alloc, reason)?;
    let mut line = joined(alloc, b"ng ", name)?;
    line.extend_from_slice(&reason)?;
    Ok(line)
}

// A ref was set, or why it was not.
fn updated_words(alloc: Global, name: &[u8], found: Option<Reason>) -> Result<Vec<u8>, AllocError>
    ensures { IfOk result (λ line. line.items ≡ updated_words name.now found) }
{
    match found {
        None => joined(alloc, b"ok ", name),
        Some(reason) => refusal_words(alloc, name, reason),
    }
}

// No ref of an atomic push was set, and why.
fn atomic_words(alloc: Global, name: &[u8], reason: Reason) -> Result<Vec<u8>, AllocError>
    ensures { IfOk result (λ line. line.items ≡ atomic_words name.now reason) }
{
    let refusal = refusal_words(alloc, name, reason)?;
    let line = joined(alloc, b"atomic ", &refusal)?;
    Ok(line)
}

// The numbers that refused commands.
fn refused_words(alloc: Global, numbers: &[u16]) -> Result<Vec<u8>, AllocError>
    ensures { IfOk result (λ line. line.items ≡ refused_words numbers.now) }
{
    let mut line = Vec::new(alloc);
    'numbers: for number in numbers {
        let words = numbered(alloc, b" ng ", *number as u64)?;
        line.extend_from_slice(&words)?;
    }
    Ok(line)
}

// How many refs moved.
fn moved_words(alloc: Global, count: usize) -> Result<Vec<u8>, AllocError>
    ensures { IfOk result (λ line. line.items ≡ moved_words count) }
{
    let line = numbered(alloc, b"moved ", count as u64)?;
    Ok(line)
}

// What a report tells.
fn reported_words(alloc: Global, count: usize, numbers: &[u16]) -> Result<Vec<u8>, AllocError>
    ensures { IfOk result (λ line. line.items ≡ moved_words count ++ refused_words numbers.now) }
{
    let refused = refused_words(alloc, numbers)?;
    let mut line = moved_words(alloc, count)?;
    line.extend_from_slice(&refused)?;
    Ok(line)
}

// What a node did.
fn deed_words(alloc: Global, done: &Deed) -> Result<Vec<u8>, AllocError>
    ensures { IfOk result (λ line. line.items ≡ deed_words done.now) }
{
    match done {
        Deed::Stored => Vec::from_slice(alloc, b"done"),
        Deed::Made(_) => Vec::from_slice(alloc, b"done"),
        Deed::Same => Vec::from_slice(alloc, b"same"),
        Deed::Differs => Vec::from_slice(alloc, b"differ"),
        Deed::Opened(slot) => numbered(alloc, b"slot ", *slot as u64),
        Deed::Passed(count) => numbered(alloc, b"checked ", *count),
        Deed::Migrated => Vec::from_slice(alloc, b"migrated"),
        Deed::Updated(name, found) => updated_words(alloc, name, *found),
        Deed::Atomic(count) => numbered(alloc, b"atomic ok ", *count),
        Deed::AtomicRefused(name, reason) => atomic_words(alloc, name, *reason),
        Deed::Moved(count, _) => moved_words(alloc, *count),
        Deed::Reported(count, numbers) => reported_words(alloc, *count, numbers),
        Deed::Removed(count) => numbered(alloc, b"pruned ", *count),
    }
}

// ---- a message that was sent

// How many objects come.
fn count_words(alloc: Global, objects: &CarriedObjects) -> Result<Vec<u8>, AllocError>
    ensures { IfOk result (λ words. words.items ≡ count_words (length (carried objects.now))) }
{
    let words = numbered(alloc, b" objects ", objects.by_name.len() as u64)?;
    Ok(words)
}

// What a push carries.
fn carried_words(
    alloc: Global,
    carried: &Result<CarriedObjects, StreamObject>,
) -> Result<Vec<u8>, AllocError>
    ensures { IfOk result (λ words. words.items ≡ carried_words (carried_view carried.now)) }
{
    match carried {
        Ok(objects) => count_words(alloc, objects),
        Err(_) => numbered(alloc, b" objects ", 0),
    }
}

// What a message brings.
fn objects_words(alloc: Global, message: &Message) -> Result<Vec<u8>, AllocError>
    ensures { IfOk result (λ words. words.items ≡ objects_words (message_text message.now)) }
{
    match message {
        Message::Pack(pack) => count_words(alloc, &pack.objects),
        Message::Push(push) => carried_words(alloc, &push.carried),
        _ => Ok(Vec::new(alloc)),
    }
}

// What the message of the bytes brings.
fn brought_words(alloc: Global, bytes: &[u8]) -> Result<Vec<u8>, AllocError>
    ensures { IfOk result (λ words. (message : MessageText) → IsSpelledBy SpellsMessage message bytes.now → words.items ≡ objects_words message) }
{
    match Message::read(alloc, bytes) {
        Ok(message) => {
            let words = objects_words(alloc, &message)?;
            Ok(words)
        }
        Err(PktError::Memory) => Err(AllocError),
        Err(PktError::Refused(_)) => Ok(Vec::new(alloc)),
    }
}

// The bytes of a message that was sent.
fn letter_bytes(letter: &Letter) -> &[u8]
    ensures { result.now ≡ letter_bytes letter.now }
{
    match letter {
        Letter::ToShared(_, bytes) => bytes,
        Letter::ToClone(_, bytes) => bytes,
    }
}

// The number of a message, and what the message brings.
fn sent_words(alloc: Global, letters: &[Letter], number: usize) -> Result<Vec<u8>, AllocError>
    ensures { IfOk result (λ line. AreWords letters.now (Sent number) line.items) }
{
    let mut line = numbered(alloc, b"sent ", number as u64)?;
    let Some(letter) = letters.get(number) else {
        return Ok(line);
    };
    let objects = brought_words(alloc, letter_bytes(letter))?;
    line.extend_from_slice(&objects)?;
    Ok(line)
}

// ---- lines

// Which fault.
fn fault_words(alloc: Global, fault: Fault) -> Result<Vec<u8>, AllocError>
    ensures { IfOk result (λ line. line.items ≡ fault_words fault) }
{
    match fault {
        Fault::Memory => Vec::from_slice(alloc, b"fault memory"),
        Fault::Device => Vec::from_slice(alloc, b"fault device"),
    }
}

// The words of an answer.
fn answer_words(alloc: Global, answer: &Answer, letters: &[Letter]) -> Result<Vec<u8>, AllocError>
    ensures { IfOk result (λ line. AreWords letters.now answer.now line.items) }
{
    match answer {
        Answer::Did(done) => deed_words(alloc, done),
        Answer::Sent(number) => sent_words(alloc, letters, *number),
        Answer::Refused(number) => numbered(alloc, b"refused ", *number as u64),
        Answer::Fault(failed) => fault_words(alloc, *failed),
    }
}

// Adds a line for the answer, or nothing.
fn add_line(
    alloc: Global,
    answer: &Answer,
    letters: &[Letter],
    text: &mut Vec<u8>,
) -> Result<(), AllocError>
    ensures line { OnOk result (AddsLine letters.now answer.now text.old.items text.new.items) }
    ensures err { OnErr result (text.new.items ≡ text.old.items) }
{
    let mut line = answer_words(alloc, answer, letters)?;
    line.push(b'\n')?;
    text.extend_from_slice(&line)?;
    Ok(())
}

/// Adds a line for each answer after the text. `letters` are the messages that were sent, by their numbers. Where memory is short,
/// the text has the lines of the first answers, and nothing else.
pub fn add_lines(
    alloc: Global,
    answers: &[Answer],
    letters: &[Letter],
    text: &mut Vec<u8>,
) -> Result<(), AllocError>
    ensures lines { OnOk result (AddsLines letters.now answers.now text.old.items text.new.items) }
    ensures err { OnErr result (AddsFirst letters.now answers.now text.old.items text.new.items) }
{
    'answers: for answer in answers {
        add_line(alloc, answer, letters, text)?;
    }
    Ok(())
}
