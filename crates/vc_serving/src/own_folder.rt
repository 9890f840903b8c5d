// A folder of a server's own in the store that it serves.
use std::alloc::{AllocError, Global};
use std::fs::{self, File};
use std::io::ErrorKind;
use std::rt;
use vc_files::{Fault, Files};
use vc_folder::{FolderFiles, FolderLock, Syncs};
use vc_transport::fault_of;

// How many servers that were brought a push a store has at once, at most.
const MOST_SERVERS: u32 = 64;

// A folder that was taken.
#[derive(Drop)]
struct Taken<R: rt::Files<File = File> + Syncs<File> + AllocGlobal + Clone + Drop> {
    files: FolderFiles<R>,
    // Held as long as the files are used.
    lock: FolderLock<R>,
}

/// A folder of a server's own, for what a push brings: `serving.<n>` in the store's folder, with the lowest number that no other
/// server has. It is taken when the first file is put, and no command looks into it. The server holds the folder's lock from then on,
/// so no two have one folder. It goes with the value; what a killed server left in its folder goes when the next one starts.
#[derive(Drop)]
pub(crate) struct OwnFolder<R: rt::Files<File = File> + Syncs<File> + AllocGlobal + Clone + Drop> {
    rt: R,
    // The store's folder.
    store: String,
    taken: Option<Taken<R>>,
}

impl<R> OwnFolder<R>
where
    R: rt::Files<File = File> + Syncs<File> + AllocGlobal + Clone + Drop,
{
    /// None is taken yet in the folder of this store. What killed servers left there is removed.
    pub(crate) fn new(rt: &R, store: &str) -> Result<OwnFolder<R>, Fault> {
        sweep(rt, store)?;
        Ok(OwnFolder {
            rt: rt.clone()?,
            store: String::from_str(rt.alloc(), store)?,
            taken: None,
        })
    }

    pub(crate) fn get(&mut self, alloc: Global, path: &str) -> Result<Option<Vec<u8>>, Fault> {
        match &mut self.taken {
            Some(taken) => taken.files.get(alloc, path),
            None => Ok(None),
        }
    }

    pub(crate) fn put(&mut self, alloc: Global, path: &str, bytes: &[u8]) -> Result<(), Fault> {
        if self.taken.is_none() {
            self.taken = Some(take(&self.rt, self.store.as_str())?);
        }
        match &mut self.taken {
            Some(taken) => taken.files.put(alloc, path, bytes),
            None => Err(Fault::Device),
        }
    }

    pub(crate) fn remove(&mut self, alloc: Global, path: &str) -> Result<(), Fault> {
        match &mut self.taken {
            Some(taken) => taken.files.remove(alloc, path),
            None => Ok(()),
        }
    }

    pub(crate) fn list(&mut self, alloc: Global, prefix: &str) -> Result<Vec<String>, Fault> {
        match &mut self.taken {
            Some(taken) => taken.files.list(alloc, prefix),
            None => Ok(Vec::new(alloc)),
        }
    }
}

// The folder of this number.
fn path_of(alloc: Global, store: &str, number: u32) -> Result<String, AllocError> {
    format!(in alloc; "{store}/serving.{number}")
}

// Removes what killed servers left. What can't be removed now stays for the next server, and stands in nobody's way.
fn sweep<R>(rt: &R, store: &str) -> Result<(), Fault>
where
    R: rt::Files<File = File> + Syncs<File> + AllocGlobal + Clone + Drop,
{
    for number in 0..MOST_SERVERS {
        let path = path_of(rt.alloc(), store, number)?;
        if let Ok(true) = fs::exists(rt, path.as_str()) {
            let _ = try_take(rt, path);
        }
    }
    Ok(())
}

// Takes the first folder that no server has.
fn take<R>(rt: &R, store: &str) -> Result<Taken<R>, Fault>
where
    R: rt::Files<File = File> + Syncs<File> + AllocGlobal + Clone + Drop,
{
    for number in 0..MOST_SERVERS {
        let path = path_of(rt.alloc(), store, number)?;
        if let Some(taken) = try_take(rt, path)? {
            return Ok(taken);
        }
    }
    Err(Fault::Device)
}

// The folder with this path, in which nothing is then; none if another server has it.
fn try_take<R>(rt: &R, path: String) -> Result<Option<Taken<R>>, Fault>
where
    R: rt::Files<File = File> + Syncs<File> + AllocGlobal + Clone + Drop,
{
    let Some(lock) = FolderLock::try_take(rt, path.as_str())? else {
        return Ok(None);
    };
    empty(rt, path.as_str())?;
    let files = FolderFiles::new(rt.clone()?, path);
    Ok(Some(Taken { files, lock }))
}

// Removes all that a server was brought in this folder.
fn empty<R: rt::Files + AllocGlobal>(rt: &R, path: &str) -> Result<(), Fault> {
    let brought = format!(in rt.alloc(); "{path}/quarantine")?;
    match fs::remove_dir_all(rt, brought.as_str()) {
        Ok(()) => Ok(()),
        Err(error) => match error.kind() {
            ErrorKind::NotFound => Ok(()),
            _ => Err(fault_of(&error)),
        },
    }
}
