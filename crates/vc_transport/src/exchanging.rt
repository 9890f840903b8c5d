//! One message sent, and one kept as it comes.

use crate::progress::{Counted, Progress};
use crate::spool::{Copying, Most, Spool, Spooled};
use std::fs::File;
use std::io::{self, Read, Write};
use std::rt;
use vc_files::Fault;
use vc_message::{Bound, Fallible, IncomingFault, skip_within};

/// What came of one message.
#[derive(Drop)]
pub struct Kept<F> {
    /// The bytes that came: the whole message, or those of what is none up to its first fault. None where they are more than are kept.
    pub bytes: Option<Spooled<F>>,
    /// How many came.
    pub count: u64,
    /// Whether a message came before the end of the stream; or why what came is none.
    pub message: Result<Option<()>, IncomingFault>,
}

/// Sends a message, and tells how much of it went out.
pub fn send<S: Write, W: Write>(
    stream: &mut S,
    bytes: &[u8],
    progress: &mut Progress<W>,
) -> io::Result<()> {
    let sent = Counted {
        stream,
        progress: &mut *progress,
    }
    .write_all(bytes);
    progress.end();
    sent
}

/// Keeps the next message of a stream, and tells how much of it came.
pub fn receive<R, S, W>(
    rt: &R,
    folder: &str,
    most: Most,
    bound: Bound,
    stream: &mut S,
    progress: &mut Progress<W>,
) -> Result<Kept<File>, Fault>
where
    R: rt::Files<File = File> + AllocGlobal + Clone + Drop,
    S: Read,
    W: Write,
{
    let mut counted = Counted {
        stream,
        progress: &mut *progress,
    };
    let kept = keep(rt, folder, most, bound, &mut counted);
    progress.end();
    kept
}

/// Keeps the next message of a stream, and takes no byte after it, unless it has more before its objects, or is larger, than it may.
/// What is long is kept in a file of the folder.
pub fn keep<R, S>(
    rt: &R,
    folder: &str,
    most: Most,
    bound: Bound,
    stream: &mut S,
) -> Result<Kept<File>, Fault>
where
    R: rt::Files<File = File> + AllocGlobal + Clone + Drop,
    S: Read,
{
    let spool = Spool::new(rt, folder, most)?;
    let mut copying = Fallible::new(Copying { stream, spool });
    let message = skip_within(rt.alloc(), &mut copying, bound);
    let spool = copying.into_inner().spool;
    let count = spool.count();
    let bytes = spool.finish()?;
    Ok(Kept {
        bytes,
        count,
        message,
    })
}
