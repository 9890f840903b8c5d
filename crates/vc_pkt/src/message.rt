//! Messages that are read line by line.

ghost use Rattle.std.specs.Prelude.{◌≡◌, ◌++◌, ℕ, List, MatchResult};
ghost use Rattle.vc_pkt.specs.Line.{LineText, IsLine};
ghost use Rattle.vc_pkt.specs.LineView.{line_text};
ghost use Rattle.vc_pkt.specs.Message.{Steps, IsOwnFault, GivenBy, IsSpelledBy, Refuses};
ghost use Rattle.vc_pkt.specs.StepView.{stepped, Gives};
ghost use Rattle.vc_pkt.specs.Faults.{FaultAt};

use crate::fault::{PktError, PktFault};
use crate::line::{Line, parse_line};
use std::alloc::Global;

/// What a line does to a message that is being read.
#[derive(Drop)]
pub enum Step<R, M> {
    /// More lines are to come, for this reader.
    More(R),
    /// The message ends with this line.
    Done(M),
}

/// Reads one message, line by line.
pub trait MessageReader: Drop + Sized {
    /// The message.
    type Message: Drop;

    /// What was read so far.
    ghost State: { Type 0 };

    /// A message, apart from where it lies in memory.
    ghost Text: { Type 0 };

    ghost state_of: { Self → State };

    ghost text_of: { Self.Message → Text };

    /// The state before the first line.
    ghost start: { State };

    /// What a line does.
    ghost step: { Steps State Text };

    /// A reader before the first line.
    fn new(alloc: Global) -> Self
        ensures { state_of result ≡ start };

    /// Takes the next line, which has this number from 0.
    fn take(
        self,
        alloc: Global,
        line: Line<'_>,
        number: u64,
    ) -> Result<Step<Self, Self::Message>, PktError>
        ensures { Gives (stepped state_of text_of) result (step number (state_of self) (line_text line.entry)) };

    /// A line is at fault for what it says, and not for where the bytes end.
    ghost line_faults: { (number : ℕ) (state : State) (line : LineText) → IsOwnFault (step number state line) };
}

/// The line at the front of bytes that stand at this place.
fn line_at(bytes: &[u8], place: u64) -> Result<(Line<'_>, &[u8]), PktFault>
    ensures { MatchResult result (λ found. (spelled : List ℕ) × IsLine (line_text found.0) spelled × (bytes.now ≡ spelled ++ found.1.now)) (FaultAt place bytes.now) }
{
    match parse_line(bytes) {
        Ok(found) => Ok(found),
        Err(fault) => Err(match fault {
            PktFault::BadLength(_) => PktFault::BadLength(place),
            _ => PktFault::CutMessage,
        }),
    }
}

/// The message that is all of the bytes, or their first fault.
pub fn read_message<R: MessageReader>(alloc: Global, bytes: &[u8]) -> Result<R::Message, PktError>
    ensures { MatchResult result (λ message. IsSpelledBy (GivenBy R.step R.start) (R.text_of message) bytes.now) (Refuses R.step R.start bytes.now) }
{
    let mut rest = bytes;
    let mut number = 0u64;
    let mut reader = R::new(alloc);
    'lines: loop {
        let place = bytes.len() - rest.len();
        let (line, more) = line_at(rest, place as u64)?;
        match reader.take(alloc, line, number)? {
            Step::More(next) => reader = next,
            Step::Done(message) => {
                if !more.is_empty() {
                    return Err(PktFault::BadRecord(number + 1).into());
                }
                return Ok(message);
            }
        }
        rest = more;
        number += 1;
    }
}
