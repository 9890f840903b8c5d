//! The message by which a clone asks the shared node to change refs.

ghost use Rattle.std.specs.Prelude.{◌≡◌, ◌++◌, Ok, OnOk, IfOk, IfErr};
ghost use Rattle.std.specs.List.{All, flat_map};
ghost use Rattle.vc_pkt.specs.Line.{spelling};
ghost use Rattle.vc_pkt.specs.Message.{IsSpelledBy, Refuses};
ghost use Rattle.vc_pkt.specs.StepView.{Gives};
ghost use Rattle.vc_pkt.specs.StreamObjectView.{stored};
ghost use Rattle.vc_pkt.specs.Written.{stream_lines};
ghost use Rattle.vc_push.specs.Push.{FaultOf, IsShort, PushState, PushText, SpellsPush, brought, carry, commanding, no_commands, push_lines, push_step, push_step_own};
ghost use Rattle.vc_push.specs.PushView.{carried_view, command_of, incoming_view, push_state, push_text};

use crate::command::{Command, PushHead, command_line, only_deletes, push_command, write_commands};
use std::alloc::{AllocError, Global};
use vc_fetch::is_object;
use vc_object::{ObjectFault, check};
use vc_pkt::{
    CarriedObjects, IncomingObjects, Line, MessageReader, ObjectStep, PktError, PktFault, Step,
    StreamObject, StreamProgress, read_message, take_object_line, write_flush, write_object,
    write_objects,
};

/// The message that asks for refs to be changed, and brings the objects that they need.
#[derive(Drop)]
pub struct Push {
    /// Whether all refs are to be set, or none.
    pub atomic: bool,
    /// At least one, at most 256, where the message was read.
    pub commands: Vec<Command>,
    /// The objects, each with its body in the grammar of its kind; or the first in the stream whose body is not, and then
    /// none of the others. Where every new id is zero there is no stream, and nothing is carried.
    pub carried: Result<CarriedObjects, StreamObject>,
}

/// What a push carries, as it comes.
#[derive(Drop)]
pub struct PushStream {
    /// The objects that are full, or the first of them whose body is out of its kind's grammar.
    pub carried: Result<IncomingObjects, StreamObject>,
    /// The object that isn't full yet, if there is one.
    pub progress: StreamProgress,
}

/// Reads a push line by line.
#[derive(Drop)]
pub enum PushReader {
    /// The flush has not come yet.
    Commands(PushHead),
    /// The commands, and some of the objects.
    Objects(PushHead, PushStream),
}

/// One object more. The first that is at fault stays, and nothing else does then.
fn carry(
    alloc: Global,
    carried: Result<IncomingObjects, StreamObject>,
    object: StreamObject,
) -> Result<Result<IncomingObjects, StreamObject>, AllocError>
    ensures { IfOk result (λ r. incoming_view r ≡ carry (stored object) (incoming_view carried)) }
{
    match carried {
        Err(bad) => Ok(Err(bad)),
        Ok(objects) => {
            if !is_object(object.kind, &object.body) {
                return Ok(Err(object));
            }
            let objects = objects.add(alloc, object)?;
            Ok(Ok(objects))
        }
    }
}

/// What was carried, once the stream has ended.
fn all_carried(
    alloc: Global,
    carried: Result<IncomingObjects, StreamObject>,
) -> Result<Result<CarriedObjects, StreamObject>, AllocError>
    ensures { IfOk result (λ r. carried_view r ≡ incoming_view carried) }
{
    match carried {
        Err(object) => Ok(Err(object)),
        Ok(objects) => {
            let objects = objects.finish(alloc)?;
            Ok(Ok(objects))
        }
    }
}

/// Writes the stream of the objects, or of the one that is at fault.
fn write_carried(
    out: &mut Vec<u8>,
    carried: &Result<CarriedObjects, StreamObject>,
) -> Result<(), AllocError>
    ensures { OnOk result (out.new.items ≡ out.old.items ++ flat_map spelling (stream_lines (brought (carried_view carried.now)))) }
{
    match carried {
        Ok(objects) => write_objects(out, objects),
        Err(bad) => {
            write_object(out, bad.kind, &bad.body)?;
            write_flush(out)
        }
    }
}

impl MessageReader for PushReader {
    type Message = Push;

    ghost State = { PushState };

    ghost Text = { PushText };

    ghost state_of = { push_state };

    ghost text_of = { push_text };

    ghost start = { commanding no_commands };

    ghost step = { push_step };

    fn new(alloc: Global) -> PushReader {
        PushReader::Commands(PushHead {
            atomic: false,
            commands: Vec::new(alloc),
        })
    }

    fn take(
        self,
        alloc: Global,
        line: Line<'_>,
        number: u64,
    ) -> Result<Step<PushReader, Push>, PktError> {
        match self {
            PushReader::Commands(head) => {
                let mut head = head;
                let Line::Data(data) = line else {
                    if head.commands.is_empty() {
                        return Err(PktError::Refused(PktFault::BadRecord(number)));
                    }
                    if only_deletes(&head.commands) {
                        let PushHead { atomic, commands } = head;
                        let carried = Ok(CarriedObjects::new(alloc));
                        return Ok(Step::Done(Push {
                            atomic,
                            commands,
                            carried,
                        }));
                    }
                    let carried = Ok(IncomingObjects::new(alloc));
                    let progress = StreamProgress::Between;
                    let stream = PushStream { carried, progress };
                    return Ok(Step::More(PushReader::Objects(head, stream)));
                };
                let found = command_line(head.commands.is_empty(), data);
                push_command(alloc, &mut head, found, number)?;
                Ok(Step::More(PushReader::Commands(head)))
            }
            PushReader::Objects(head, stream) => {
                let PushStream { carried, progress } = stream;
                match take_object_line(alloc, progress, line, number)? {
                    ObjectStep::More(progress) => {
                        let stream = PushStream { carried, progress };
                        Ok(Step::More(PushReader::Objects(head, stream)))
                    }
                    ObjectStep::Object(_, object) => {
                        let carried = carry(alloc, carried, object)?;
                        let progress = StreamProgress::Between;
                        let stream = PushStream { carried, progress };
                        Ok(Step::More(PushReader::Objects(head, stream)))
                    }
                    ObjectStep::End => {
                        let carried = all_carried(alloc, carried)?;
                        let PushHead { atomic, commands } = head;
                        Ok(Step::Done(Push {
                            atomic,
                            commands,
                            carried,
                        }))
                    }
                }
            }
        }
    }

    ghost line_faults = { push_step_own };
}

impl Push {
    /// The message that is all of the bytes, or their first fault: 80 to 84 or 3, with 81 the number of its line from 0. A
    /// carried body that is out of its kind's grammar is no fault of the message: the message is read to its end, as its
    /// commands and the first such body.
    pub fn read(alloc: Global, bytes: &[u8]) -> Result<Push, PktError>
        ensures spelled { IfOk result (λ push. IsSpelledBy SpellsPush (push_text push) bytes.now) }
        ensures read { (push : PushText) → IsSpelledBy SpellsPush push bytes.now → Gives push_text result (Ok push) }
        ensures refused { IfErr result (Refuses push_step (commanding no_commands) bytes.now) }
    {
        read_message::<PushReader>(alloc, bytes)
    }

    /// The message as it is written, its objects in order of name, and `report-status-v2` after the first name, and then
    /// `atomic` if all refs are to be set or none. Each name has at most 65,409 bytes, so that its line isn't too long.
    pub fn write(&self, alloc: Global) -> Result<Vec<u8>, AllocError>
        requires short { All (λ c. IsShort (command_of c)) self.now.commands.items }
        ensures { IfOk result (λ bytes. bytes.items ≡ flat_map spelling (push_lines (push_text self.now))) }
    {
        let mut bytes = Vec::new(alloc);
        write_commands(&mut bytes, self.atomic, &self.commands)?;
        write_flush(&mut bytes)?;
        if only_deletes(&self.commands) {
            return Ok(bytes);
        }
        write_carried(&mut bytes, &self.carried)?;
        Ok(bytes)
    }

    /// Why the body at fault that is carried is none of its kind, where one is: 3 to 10. Then each command is refused, 109.
    pub fn fault(&self) -> Option<ObjectFault>
        ensures { FaultOf (push_text self.now).carried result }
    {
        match &self.carried {
            Ok(_) => None,
            Err(bad) => match check(bad.kind, &bad.body) {
                Ok(_) => None,
                Err(fault) => Some(fault),
            },
        }
    }
}
