//! A server that answers one message after the other, each in one turn of the node that its files hold.
ghost use Rattle.std.specs.Prelude.{◌≡◌};
ghost use Rattle.vc_serving.specs.InTurn.{AnswersOne, ServesInTurn, going_after};

use crate::clients::Clients;
use crate::serving::goes_on;
use crate::turn::serve_once;
use std::alloc::Global;
use std::io::Write;
use vc_files::{Fault, Files};
use vc_message::Source;
use vc_server::{ServeFault, Served};

// Whether more messages are taken on the connection, or the fault that ends the server.
fn goes_on_after(served: Result<Served, ServeFault>, kept: Result<(), Fault>) -> Result<bool, Fault>
    ensures { result ≡ going_after served kept }
{
    match kept {
        Ok(()) => goes_on(served),
        Err(fault) => Err(fault),
    }
}

// Answers a message, and closes its connection unless that goes on.
fn take_turn<F: Files, C: Clients<R, W>, R: Source + Drop, W: Write + Drop>(
    alloc: Global,
    files: F,
    clients: &mut C,
    mut reader: R,
    mut writer: W,
) -> (F, Result<(), Fault>)
    ensures { AnswersOne F.honest F.content F.failed F.can_fail F.left R.remaining R.failed R.can_fail W.contents C.heard files result.0 clients.old clients.new reader writer result.1 }
{
    let (files, served) = serve_once(alloc, files, &mut reader, &mut writer);
    let kept = clients.take(reader, writer, &served);
    match goes_on_after(served, kept) {
        Ok(true) => (files, Ok(())),
        Ok(false) => {
            clients.close();
            (files, Ok(()))
        }
        Err(fault) => {
            clients.close();
            (files, Err(fault))
        }
    }
}

/// Answers the messages of the clients one after the other, until no more comes, or a fault comes. Each is answered in one turn of the
/// node that the files hold, which is opened for it and closed after it. A connection is closed after its first answer that is no reply.
/// The files are handed back.
pub fn serve_in_turn<F: Files, C: Clients<R, W>, R: Source + Drop, W: Write + Drop>(
    alloc: Global,
    files: F,
    clients: &mut C,
) -> (F, Result<(), Fault>)
    ensures { ServesInTurn F.honest F.content F.failed F.can_fail F.left R.remaining R.failed R.can_fail W.contents C.heard files result.0 clients.old clients.new result.1 }
{
    let mut files = files;
    let mut left = u64::MAX;
    'messages: while left > 0 {
        let (reader, writer) = match clients.next() {
            Ok(Some(message)) => message,
            Ok(None) => return (files, Ok(())),
            Err(fault) => return (files, Err(fault)),
        };
        let (back, ended) = take_turn(alloc, files, clients, reader, writer);
        files = back;
        if let Err(fault) = ended {
            return (files, Err(fault));
        }
        left -= 1;
    }
    (files, Ok(()))
}
