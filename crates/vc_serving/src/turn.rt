//! One turn at a connection, of the shared node that files hold.
ghost use Rattle.std.specs.Prelude.{◌≡◌, Err, IsErrOf, true};
ghost use Rattle.vc_files.specs.Failures.{Writes};
ghost use Rattle.vc_message.specs.Source.{TellsLoss};
ghost use Rattle.vc_server.specs.Turn.{ends_in_fault};
ghost use Rattle.vc_server.specs.Telling.{TellsAnswer};
ghost use Rattle.vc_serving.specs.OneTurn.{ServesTurn};

use std::alloc::Global;
use std::io::Write;
use vc_files::{Fault, Files};
use vc_local::NodeFault;
use vc_message::Source;
use vc_server::{ServeFault, Served, serve_message, tell};
use vc_shared::{AcceptFault, Shared, SharedFault};

// Tells why the files are no shared node's: their fault, or the number that refuses them.
fn tell_unopened<W: Write>(
    alloc: Global,
    writer: &mut W,
    fault: NodeFault,
) -> Result<Served, ServeFault>
    ensures { TellsAnswer W.contents writer.old writer.new (Err (AcceptFault.Node (SharedFault.Node fault))) result }
{
    let answered = Err(AcceptFault::Node(SharedFault::Node(fault)));
    tell(alloc, writer, &answered)
}

/// Takes the next message of the reader at the shared node that the files hold, with no push open before it and none after it, and
/// writes the reply, or the Error that tells of a refusal. At the reader's end nothing is written. The files are handed back, and can
/// be opened as the node that it is then. If they are no shared node's, nothing is taken of the reader, and that is told.
pub fn serve_once<F: Files, R: Source, W: Write>(
    alloc: Global,
    files: F,
    reader: &mut R,
    writer: &mut W,
) -> (F, Result<Served, ServeFault>)
    ensures turn { ServesTurn F.honest F.content R.remaining W.contents files result.0 reader.old reader.new writer.old writer.new result.1 }
    ensures failures { TellsLoss R.failed R.can_fail reader.old reader.new (IsErrOf result.1 ServeFault.ReadFailed) (ends_in_fault result.1 ≡ true) }
    ensures wear { Writes F.honest F.content F.failed F.can_fail F.left files result.0 (IsErrOf result.1 (ServeFault.Fault Fault.Device)) }
{
    let mut shared = match Shared::open(alloc, files) {
        Ok(shared) => shared,
        Err((files, fault)) => return (files, tell_unopened(alloc, writer, fault)),
    };
    let served = serve_message(&mut shared, alloc, reader, writer);
    (shared.close(), served)
}
