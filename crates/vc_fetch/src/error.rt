//! The message by which a server refuses: `ERR`, and a text.

ghost use Rattle.std.specs.Prelude.{◌≡◌, ◌≤◌, List, ℕ, vec_len, Ok, IfOk, IfErr};
ghost use Rattle.std.specs.List.{flat_map};
ghost use Rattle.vc_pkt.specs.Line.{spelling};
ghost use Rattle.vc_pkt.specs.Message.{IsSpelledBy, Refuses};
ghost use Rattle.vc_pkt.specs.StepView.{Gives};
ghost use Rattle.vc_fetch.specs.ErrorMessage.{SpellsError, error_step, error_step_own, error_lines, max_words};

use std::alloc::{AllocError, Global};
use vc_pkt::{Line, MessageReader, PktError, PktFault, Step, read_message, without_lf, write_text};

/// The message that refuses.
#[derive(Drop)]
pub struct Error {
    /// Any bytes, at most 65,511 of them where it is written.
    pub text: Vec<u8>,
}

/// Reads an error message, which is one line.
#[derive(Clone, Copy)]
pub struct ErrorReader;

impl MessageReader for ErrorReader {
    type Message = Error;

    ghost State = { Unit {0} };

    ghost Text = { List ℕ };

    ghost state_of = { λ _. tt };

    ghost text_of = { λ error. error.text.items };

    ghost start = { tt };

    ghost step = { error_step };

    fn new(_: Global) -> ErrorReader {
        ErrorReader
    }

    fn take(
        self,
        alloc: Global,
        line: Line<'_>,
        number: u64,
    ) -> Result<Step<ErrorReader, Error>, PktError> {
        let Line::Data(data) = line else {
            return Err(PktError::Refused(PktFault::BadRecord(number)));
        };
        let Some(words) = without_lf(data).strip_prefix(b"ERR ") else {
            return Err(PktError::Refused(PktFault::BadRecord(number)));
        };
        let text = words.to_vec(alloc)?;
        Ok(Step::Done(Error { text }))
    }

    ghost line_faults = { error_step_own };
}

impl Error {
    /// The message that is all of the bytes, or their first fault.
    pub fn read(alloc: Global, bytes: &[u8]) -> Result<Error, PktError>
        ensures spelled { IfOk result (λ error. IsSpelledBy SpellsError error.text.items bytes.now) }
        ensures read { (words : List ℕ) → IsSpelledBy SpellsError words bytes.now → Gives (λ error. error.text.items) result (Ok words) }
        ensures refused { IfErr result (Refuses error_step tt bytes.now) }
    {
        read_message::<ErrorReader>(alloc, bytes)
    }

    /// The message as it is written.
    pub fn write(&self, alloc: Global) -> Result<Vec<u8>, AllocError>
        requires short { vec_len self.now.text ≤ max_words }
        ensures { IfOk result (λ bytes. bytes.items ≡ flat_map spelling (error_lines self.now.text.items)) }
    {
        let mut words = Vec::new(alloc);
        words.extend_from_slice(b"ERR ")?;
        words.extend_from_slice(&self.text)?;
        let mut bytes = Vec::new(alloc);
        write_text(&mut bytes, &words)?;
        Ok(bytes)
    }
}
