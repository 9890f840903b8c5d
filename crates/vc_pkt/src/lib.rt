//! Lines of Git's protocol (gitprotocol-common): four hex digits of a length, and data.
#![tactic(auto)]

mod carried;
mod fault;
mod incoming;
mod laws;
mod line;
mod message;
mod object_line;
mod object_stream;
mod object_writer;
mod progress;
mod reader;
mod text;
mod whole;
mod write;

pub use carried::{CarriedObjects, StreamObject};
pub use fault::{BAD_LENGTH, BAD_RECORD, PktError, PktFault};
pub use incoming::{IncomingObjects, ObjectRow};
pub use laws::{
    carried_objects_are_sorted, carried_objects_count_once, flush_is_zeros, however_cut,
    no_list_of_bad, one_bad_place, one_first_fault, one_list, written_is_read,
    written_objects_are_read,
};
pub use line::{Line, MAX_DATA, parse_line};
pub use message::{MessageReader, Step, read_message};
pub use object_stream::ObjectStream;
pub use object_writer::{write_object, write_objects};
pub use progress::{ObjectStep, Part, StreamProgress, take_object_line};
pub use reader::PktReader;
pub use text::without_lf;
pub use whole::{OwnedLine, lines_of};
pub use write::{write_flush, write_line, write_text};
