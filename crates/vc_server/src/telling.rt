// What is written of an answer: the reply, or the line of an Error.
ghost use Rattle.std.specs.Prelude.{◌≡◌, ◌≤◌, IfErr, IfOk, OnOk, length};
ghost use Rattle.std.specs.Io.KnownBytes.{Appends};
ghost use Rattle.vc_server.specs.Telling.{TellsAnswer, TellsRefusal, error_bytes, refusal_words};

use crate::ending::shared_ending;
use crate::serve_fault::ServeFault;
use std::alloc::{AllocError, Global};
use std::io::Write;
use vc_fetch::Error;
use vc_object::ObjectId;
use vc_shared::{AcceptFault, SharedFault};

/// What came of one turn at a connection.
#[derive(Clone, Copy, Debug, PartialEq, Eq)]
pub enum Served {
    /// The reply to a message was written.
    Answered,
    /// The message was refused with this number, or the bytes that came are none, and an Error that says so was written.
    Refused(u16),
    /// The reader was at its end. Nothing was written.
    End,
}

// The words about a wanted id that no ref reaches.
fn not_ours_words(alloc: Global, id: &ObjectId) -> Result<Vec<u8>, AllocError>
    ensures words { IfOk result (λ words. words.items ≡ refusal_words (SharedFault.NotOurs id.now) 90) }
    ensures short { IfOk result (λ words. length words.items ≤ 52) }
{
    let mut words = Vec::new(alloc);
    words.extend_from_slice(b"not our ref ")?;
    words.extend_from_slice(&id.to_hex())?;
    Ok(words)
}

// The words about any other refusal.
fn refused_words(alloc: Global, number: u16) -> Result<Vec<u8>, AllocError>
    ensures words { IfOk result (λ words. words.items ≡ refusal_words SharedFault.Busy number) }
    ensures short { IfOk result (λ words. length words.items ≤ 52) }
{
    let number = number.to_string(alloc)?;
    let mut words = Vec::new(alloc);
    words.extend_from_slice(b"refused ")?;
    words.extend_from_slice(number.as_bytes())?;
    Ok(words)
}

// The words that tell of a refusal.
fn refusal_words(alloc: Global, fault: &SharedFault, number: u16) -> Result<Vec<u8>, AllocError>
    ensures words { IfOk result (λ words. words.items ≡ refusal_words fault.now number) }
    ensures short { IfOk result (λ words. length words.items ≤ 52) }
{
    match fault {
        SharedFault::NotOurs(id) => not_ours_words(alloc, id),
        _ => refused_words(alloc, number),
    }
}

/// The bytes of the Error that tells of a refusal of this number: `ERR not our ref <id>` for a wanted id that no ref reaches, and
/// `ERR refused <number>` for whatever else.
pub fn error_bytes(alloc: Global, fault: &SharedFault, number: u16) -> Result<Vec<u8>, AllocError>
    ensures { IfOk result (λ bytes. bytes.items ≡ error_bytes fault.now number) }
{
    let text = refusal_words(alloc, fault, number)?;
    let error = Error { text };
    let bytes = error.write(alloc)?;
    Ok(bytes)
}

/// Writes all of the bytes and flushes them. A writer that fails is 116.
pub fn send<W: Write>(writer: &mut W, bytes: &[u8]) -> Result<(), ServeFault>
    ensures sent { OnOk result (Appends (W.contents writer.old) (W.contents writer.new) bytes.now) }
    ensures fault { IfErr result (λ e. e ≡ ServeFault.WriteFailed) }
{
    if writer.write_all(bytes).is_err() {
        return Err(ServeFault::WriteFailed);
    }
    if writer.flush().is_err() {
        return Err(ServeFault::WriteFailed);
    }
    Ok(())
}

// A refusal is told by an Error, and a fault not at all.
fn refuse<W: Write>(
    alloc: Global,
    writer: &mut W,
    fault: &SharedFault,
) -> Result<Served, ServeFault>
    ensures { TellsRefusal W.contents writer.old writer.new fault.now result }
{
    let number = match shared_ending(fault) {
        Ok(number) => number,
        Err(fault) => return Err(ServeFault::Fault(fault)),
    };
    let bytes = error_bytes(alloc, fault, number)?;
    send(writer, &bytes)?;
    Ok(Served::Refused(number))
}

/// Tells what a node answered: a reply by its bytes, a refusal by the line of an Error, and a fault not at all. What was written is
/// flushed; a writer that fails is 116. Where nothing came, or the reader failed (115), nothing is written.
pub fn tell<W: Write>(
    alloc: Global,
    writer: &mut W,
    answered: &Result<Option<Vec<u8>>, AcceptFault>,
) -> Result<Served, ServeFault>
    ensures { TellsAnswer W.contents writer.old writer.new answered.now result }
{
    match answered {
        Ok(Some(reply)) => {
            send(writer, reply)?;
            Ok(Served::Answered)
        }
        Ok(None) => Ok(Served::End),
        Err(AcceptFault::ReadFailed) => Err(ServeFault::ReadFailed),
        Err(AcceptFault::Node(fault)) => refuse(alloc, writer, fault),
    }
}
