//! One writer at a time: a command that writes to a store has it alone until it ends, and one that looks doesn't wait. And who
//! stands on objects that nothing names yet, whom a prune must not take them from.

ghost use Rattle.std.specs.Prelude.{IfErr};
ghost use Rattle.vc_cli.specs.Stores.{IsInUse, IsUnopened};

use crate::failure::Failure;
use crate::faults::Faults;
use crate::repository::refuse_store_of_git;
use std::alloc::{AllocError, Global};
use std::fs::File;
use std::io::Write;
use std::rt;
use vc_files::Fault;
use vc_folder::{FolderLock, FolderShare};

/// The right to write to the store in this folder, which is made where it isn't there. While another command has it,
/// this one waits. A folder that Git made is refused before anything is made in it.
pub fn only_writer<R, E>(
    rt: &R,
    store: &str,
    faults: &mut Faults<E>,
) -> Result<FolderLock<R>, Failure>
where
    R: rt::Files<File = File> + AllocGlobal + Clone + Drop,
    E: Write,
    ensures refused { IfErr result IsUnopened }
{
    refuse_store_of_git(rt, store)?;
    if let Some(lock) = FolderLock::try_take(rt, store)? {
        return Ok(lock);
    }
    let line = format!(in rt.alloc(); "waiting for another command on {store} to end")?;
    faults.tell(line.as_str())?;
    Ok(FolderLock::take(rt, store)?)
}

// The number of what refuses a prune, as of what refuses a push when too many are open: try again.
const BUSY: u16 = 110;

// The folder of a store's objects.
fn objects_of(alloc: Global, store: &str) -> Result<String, AllocError> {
    format!(in alloc; "{store}/objects")
}

/// Keeps every object of the store in this folder from being taken away by another process, as long as the value is held. Who stands
/// on objects that no ref names yet, and has let the store's lock go meanwhile, holds one: a server from its first look for an answer
/// to its last, and a clone from its first question to a server to its last answer. While a prune goes on, this waits.
pub fn keep_objects<R>(rt: &R, store: &str) -> Result<FolderShare, Fault>
where
    R: rt::Files<File = File> + AllocGlobal,
{
    let folder = objects_of(rt.alloc(), store)?;
    FolderShare::take(rt, folder.as_str())
}

/// The right to take objects away from the store in this folder, which nobody has while another process keeps them. It isn't waited
/// for: who serves a store may always be at an answer.
pub fn only_remover<R>(rt: &R, store: &str) -> Result<FolderLock<R>, Failure>
where
    R: rt::Files<File = File> + AllocGlobal + Clone + Drop,
    ensures refused { IfErr result IsInUse }
{
    let folder = objects_of(rt.alloc(), store)?;
    match FolderLock::try_take(rt, folder.as_str())? {
        Some(lock) => Ok(lock),
        None => Err(Failure::Busy(format!(in rt.alloc();
            "{BUSY} Busy: a server is answering in {store}, or a fetch or a push of it is under way"
        )?)),
    }
}
