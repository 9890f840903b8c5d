//! One line of an object stream.

ghost use Rattle.vc_pkt.specs.LineView.{line_text};
ghost use Rattle.vc_pkt.specs.StepView.{Gives};
ghost use Rattle.vc_pkt.specs.ObjectLine.{object_line};
ghost use Rattle.vc_pkt.specs.ObjectStream.{so_far, begun, object_step};
ghost use Rattle.vc_pkt.specs.ObjectStreamView.{progress_of, object_stepped};

use crate::carried::StreamObject;
use crate::fault::{PktError, PktFault};
use crate::line::Line;
use crate::object_line::object_line;
use std::alloc::Global;
use vc_object::{Kind, MAX_BODY};

/// An object of which some bytes were read, fewer than its size.
#[derive(Drop)]
pub struct Part {
    /// The number of the line that began it.
    pub first: u64,
    pub kind: Kind,
    pub size: usize,
    pub body: Vec<u8>,
}

/// Where a stream stands.
#[derive(Drop)]
pub enum StreamProgress {
    Between,
    Inside(Part),
}

/// What a line of a stream does.
#[derive(Drop)]
pub enum ObjectStep {
    More(StreamProgress),
    /// An object is full; the number is that of the line that began it.
    Object(u64, StreamObject),
    End,
}

/// An object's bytes so far.
fn so_far(first: u64, kind: Kind, size: usize, body: Vec<u8>) -> Result<ObjectStep, PktError>
    ensures { Gives object_stepped result (so_far first kind size body.items) }
{
    if body.len() > size {
        return Err(PktError::Refused(PktFault::SizeMismatch));
    }
    if body.len() < size {
        return Ok(ObjectStep::More(StreamProgress::Inside(Part {
            first,
            kind,
            size,
            body,
        })));
    }
    Ok(ObjectStep::Object(first, StreamObject { kind, body }))
}

/// The line that begins an object. Its body's buffer is made at once, in its full size.
fn begun(alloc: Global, number: u64, line: &[u8]) -> Result<ObjectStep, PktError>
    ensures { Gives object_stepped result (begun number (object_line line.now)) }
{
    let Some((kind, size)) = object_line(line) else {
        return Err(PktError::Refused(PktFault::BadRecord(number)));
    };
    if size > MAX_BODY {
        return Err(PktError::Refused(PktFault::TooLarge));
    }
    so_far(number, kind, size, Vec::with_capacity(alloc, size)?)
}

/// What the next line of a stream does; the line has this number. For readers of messages that hold a
/// stream, and for those that take its objects one by one.
pub fn take_object_line(
    alloc: Global,
    progress: StreamProgress,
    line: Line<'_>,
    number: u64,
) -> Result<ObjectStep, PktError>
    ensures { Gives object_stepped result (object_step number (progress_of progress) (line_text line.entry)) }
{
    match progress {
        StreamProgress::Between => match line {
            Line::Flush => Ok(ObjectStep::End),
            Line::Data(data) => begun(alloc, number, data),
        },
        StreamProgress::Inside(part) => match line {
            Line::Flush => Err(PktError::Refused(PktFault::SizeMismatch)),
            Line::Data(piece) => {
                if piece.is_empty() {
                    return Err(PktError::Refused(PktFault::BadRecord(number)));
                }
                if piece.len() > part.size.saturating_sub(part.body.len()) {
                    return Err(PktError::Refused(PktFault::SizeMismatch));
                }
                let Part {
                    first,
                    kind,
                    size,
                    body,
                } = part;
                let mut body = body;
                body.extend_from_slice(piece)?;
                so_far(first, kind, size, body)
            }
        },
    }
}
