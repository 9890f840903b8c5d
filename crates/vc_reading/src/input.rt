//! Bodies of objects, read from a stream or a file.
ghost use Rattle.std.specs.Prelude.{◌≡◌, take, IfOk, IfSome, IfErr};
ghost use Rattle.vc_object.specs.Object.{oversize};
ghost use Rattle.vc_cli.specs.Failure.{IsFault};
ghost use Rattle.vc_reading.specs.Bodies.{IsUnread};

use std::alloc::Global;
use std::fs::{self, OpenFile};
use std::io::{self, ErrorKind, Read};
use std::rt;
use vc_cli::{Failure, fault_of};
use vc_object::MAX_BODY;

/// The longest read of a body: one byte more than a body may have, which is enough to refuse it.
const LONGEST: u64 = 16_777_217;

/// A stream, and how many bytes it has left where that is known before it is read.
#[derive(Drop)]
pub struct Input<I> {
    pub stream: I,
    pub length: Option<usize>,
}

/// All bytes of the stream, or the first of them where they are more than a body may have. Room for as many as are
/// expected is made at once.
pub fn read_body<I: Read + Drop>(
    alloc: Global,
    stream: I,
    expected: usize,
) -> Result<Vec<u8>, Failure>
    ensures front { IfOk result (λ body. IfSome (I.remaining stream) (λ bytes. body.items ≡ take oversize bytes)) }
    ensures fault { IfErr result IsFault }
{
    let body = read_front(alloc, stream, LONGEST, expected)?;
    Ok(body)
}

// The first bytes of the stream, up to the limit.
fn read_front<I: Read + Drop>(
    alloc: Global,
    stream: I,
    limit: u64,
    expected: usize,
) -> Result<Vec<u8>, Failure>
    ensures front { IfOk result (λ body. IfSome (I.remaining stream) (λ bytes. body.items ≡ take limit bytes)) }
    ensures fault { IfErr result IsFault }
{
    let mut body = Vec::with_capacity(alloc, expected.min(MAX_BODY).saturating_add(1))?;
    stream.take(limit).read_to_end(&mut body)?;
    Ok(body)
}

/// Opens a file for its body. One that is missing, that may not be read, or that is a folder is no such path. The
/// length is known of a regular file that isn't empty: what the system makes as it is read has length 0.
pub fn open_body<R: rt::Files>(rt: &R, path: &str) -> Result<Input<R::File>, Failure>
    ensures unread { IfErr result IsUnread }
{
    let stream = match fs::open(rt, path) {
        Ok(stream) => stream,
        Err(error) => return Err(unreadable(&error)),
    };
    let metadata = match stream.metadata() {
        Ok(metadata) => metadata,
        Err(error) => return Err(unreadable(&error)),
    };
    if metadata.is_dir() {
        return Err(Failure::NoSuchPath);
    }
    let length = known_length(metadata.is_file(), metadata.len(), 0);
    Ok(Input { stream, length })
}

/// How many bytes an open file has left: known of a regular one that isn't empty.
pub fn known_length(is_file: bool, length: u64, place: u64) -> Option<usize> {
    if !is_file || length <= place {
        return None;
    }
    usize::try_from(length - place).ok()
}

// Why a file can't be read: nothing that may be read stands there, or it is a fault.
fn unreadable(error: &io::Error) -> Failure
    ensures { IsUnread result }
{
    match error.kind() {
        ErrorKind::NotFound | ErrorKind::NotADirectory | ErrorKind::IsADirectory => {
            Failure::NoSuchPath
        }
        ErrorKind::PermissionDenied | ErrorKind::FilesystemLoop => Failure::NoSuchPath,
        ErrorKind::InvalidFilename | ErrorKind::InvalidInput => Failure::NoSuchPath,
        _ => Failure::Fault(fault_of(error)),
    }
}
