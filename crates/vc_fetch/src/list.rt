//! The message by which a clone asks for all refs: `list`, and a flush.

ghost use Rattle.std.specs.Prelude.{◌≡◌, Bool, false, Ok, IfOk, IfErr};
ghost use Rattle.std.specs.List.{flat_map};
ghost use Rattle.vc_pkt.specs.Line.{spelling};
ghost use Rattle.vc_pkt.specs.Message.{IsSpelledBy, Refuses};
ghost use Rattle.vc_pkt.specs.StepView.{Gives};
ghost use Rattle.vc_fetch.specs.ListMessage.{ListText, list, SpellsList, list_step, list_step_own, list_lines};

use std::alloc::{AllocError, Global};
use vc_pkt::{
    Line, MessageReader, PktError, PktFault, Step, read_message, without_lf, write_flush,
    write_text,
};

/// The message that asks for all refs. This project's own: git asks by connecting.
#[derive(Clone, Copy)]
pub struct List;

/// Reads a list message line by line.
#[derive(Clone, Copy)]
pub struct ListReader {
    /// Whether the word has come.
    pub worded: bool,
}

impl MessageReader for ListReader {
    type Message = List;

    ghost State = { Bool };

    ghost Text = { ListText };

    ghost state_of = { λ reader. reader.worded };

    ghost text_of = { λ _. list };

    ghost start = { false };

    ghost step = { list_step };

    fn new(_: Global) -> ListReader {
        ListReader { worded: false }
    }

    fn take(
        self,
        _: Global,
        line: Line<'_>,
        number: u64,
    ) -> Result<Step<ListReader, List>, PktError> {
        match line {
            Line::Flush => {
                if self.worded {
                    return Ok(Step::Done(List));
                }
            }
            Line::Data(data) => {
                if !self.worded && without_lf(data) == b"list".as_slice() {
                    return Ok(Step::More(ListReader { worded: true }));
                }
            }
        }
        Err(PktError::Refused(PktFault::BadRecord(number)))
    }

    ghost line_faults = { list_step_own };
}

impl List {
    /// The message that is all of the bytes, or their first fault.
    pub fn read(alloc: Global, bytes: &[u8]) -> Result<List, PktError>
        ensures spelled { IfOk result (λ _. IsSpelledBy SpellsList list bytes.now) }
        ensures read { IsSpelledBy SpellsList list bytes.now → Gives (λ _. list) result (Ok list) }
        ensures refused { IfErr result (Refuses list_step false bytes.now) }
    {
        read_message::<ListReader>(alloc, bytes)
    }

    /// The message as it is written.
    pub fn write(self, alloc: Global) -> Result<Vec<u8>, AllocError>
        ensures { IfOk result (λ bytes. bytes.items ≡ flat_map spelling list_lines) }
    {
        let mut bytes = Vec::new(alloc);
        write_text(&mut bytes, b"list")?;
        write_flush(&mut bytes)?;
        Ok(bytes)
    }
}
