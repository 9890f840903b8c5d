//! Object streams: a line for each object's kind and size, the lines of its body, and a flush at the end.

ghost use Rattle.std.specs.Prelude.{List, Ok, IfOk, IfErr};
ghost use Rattle.vc_object.specs.Decoding.{StoredObject};
ghost use Rattle.vc_pkt.specs.Message.{IsSpelledBy, Refuses};
ghost use Rattle.vc_pkt.specs.StepView.{Gives};
ghost use Rattle.vc_pkt.specs.ObjectStream.{SetState, SpellsObjects, is_any, set_step, no_objects};
ghost use Rattle.vc_pkt.specs.ObjectStreamView.{carried, set_state};

use crate::carried::CarriedObjects;
use crate::fault::PktError;
use crate::incoming::IncomingObjects;
use crate::line::Line;
use crate::message::{MessageReader, Step, read_message};
use crate::progress::{ObjectStep, StreamProgress, take_object_line};
use std::alloc::Global;

/// Reads an object stream line by line. Bodies may be out of their kind's grammar.
#[derive(Drop)]
pub struct ObjectStream {
    pub objects: IncomingObjects,
    pub progress: StreamProgress,
}

impl MessageReader for ObjectStream {
    ghost use Rattle.vc_pkt.specs.StreamFaults.{set_step_own};

    type Message = CarriedObjects;

    ghost State = { SetState };

    ghost Text = { List StoredObject };

    ghost state_of = { set_state };

    ghost text_of = { carried };

    ghost start = { no_objects };

    ghost step = { set_step is_any };

    fn new(alloc: Global) -> ObjectStream {
        ObjectStream {
            objects: IncomingObjects::new(alloc),
            progress: StreamProgress::Between,
        }
    }

    fn take(
        self,
        alloc: Global,
        line: Line<'_>,
        number: u64,
    ) -> Result<Step<ObjectStream, CarriedObjects>, PktError> {
        let ObjectStream { objects, progress } = self;
        match take_object_line(alloc, progress, line, number)? {
            ObjectStep::More(progress) => Ok(Step::More(ObjectStream { objects, progress })),
            ObjectStep::Object(_, object) => {
                let objects = objects.add(alloc, object)?;
                let progress = StreamProgress::Between;
                Ok(Step::More(ObjectStream { objects, progress }))
            }
            ObjectStep::End => {
                let objects = objects.finish(alloc)?;
                Ok(Step::Done(objects))
            }
        }
    }

    ghost line_faults = { set_step_own is_any };
}

impl ObjectStream {
    /// The objects of a stream that is all of the bytes, or the first fault of the bytes. It takes memory
    /// for the bodies, each copied once.
    pub fn read(alloc: Global, bytes: &[u8]) -> Result<CarriedObjects, PktError>
        // What is read is what the bytes spell.
        ensures spelled { IfOk result (λ objects. IsSpelledBy SpellsObjects (carried objects) bytes.now) }
        // What the bytes spell is read, unless memory is short.
        ensures read { (objects : List StoredObject) → IsSpelledBy SpellsObjects objects bytes.now → Gives carried result (Ok objects) }
        // What is refused has this first fault.
        ensures refused { IfErr result (Refuses (set_step is_any) no_objects bytes.now) }
    {
        read_message::<ObjectStream>(alloc, bytes)
    }
}
