// Files in a real folder. Nothing is claimed of a disk.
ghost use Rattle.std.specs.Prelude.{◌≡◌, ◌≤◌, IsErrOf};
ghost use Rattle.vc_files.specs.Failures.{HasFailed, unstopped};

use crate::disk::Disk;
use crate::syncing::Syncs;
use std::alloc::Global;
use std::io::{self, ErrorKind};
use std::marker::Model;
use std::rt;
use vc_files::{Fault, Files};

/// Files in a folder. A file is written beside its place, as `<path>.lock`, and then renamed. Names that end in
/// `.lock` aren't listed. What a killed process left under such a name is removed, where a file is to be written
/// there, and with a folder that holds nothing else. Folders that became empty are removed. A path at which a
/// folder stands has no file.
///
/// A link, a pipe and whatever else is neither a file nor a folder, at a path or at a folder of it, is a failure of
/// the device in each call: never followed, opened, replaced or passed over. Names that aren't UTF-8 fail a listing.
/// The folder itself may be reached by links.
///
/// A file is durable when `put` returns, and so is all that was put before it, except for these:
/// - an object, below `objects/`, keeps its lock name until the next such file is put or `sync` is called; then
///   the contents of all that wait are made durable, then they are renamed, then their folders are made durable.
///   So no object is ever found in its place with less than its content. Until then only this value knows them.
///   Threads make the contents of many durable while more are put; what one fails at is given up with all that waits;
/// - a quarantined object, below `quarantine/`, is never made durable: a stop leaves nothing of it that is read.
///
/// Letting the value go syncs it too, and drops an error, so a program ends with `sync`. One process at a time
/// writes to a folder: the one that holds its `FolderLock`.
///
/// Before a name in the folder that isn't durable yet there is a mark, the file `unsynced.lock`, which goes when all names are
/// durable. It stays after a kill, and after a sync that failed: who takes the `FolderLock` next makes all names durable. So
/// what a writer stands on, or finds there already, is durable, whoever put it. A reader, who holds no lock, may see a name
/// that a loss of power takes away.
#[derive(Drop)]
pub struct FolderFiles<R: rt::Files + Syncs<R::File> + AllocGlobal + Clone + Drop> {
    disk: Disk<R>,
    failed: u64,
}

impl<R: rt::Files + Syncs<R::File> + AllocGlobal + Clone + Drop> Model for FolderFiles<R> {
    ghost use Rattle.std.specs.Prelude.{ℕ};

    ghost Value = { ℕ };

    ghost view = { λ s. s.failed };
}

impl<R: rt::Files + Syncs<R::File> + AllocGlobal + Clone + Drop> FolderFiles<R> {
    /// The files in the folder with this path, which is made when the first file is put.
    pub fn new(rt: R, root: String) -> Self
        ensures { result ≡ 0 }
    {
        FolderFiles {
            disk: Disk::new(rt, root),
            failed: 0,
        }
    }

    /// Makes all that was put durable.
    pub fn sync(&mut self, alloc: Global) -> Result<(), Fault>
        ensures later { self.old ≤ self.new }
        ensures device { IsErrOf result Fault.Device → HasFailed self.old self.new }
    {
        let done = self.disk.sync(alloc);
        self.settle(done)
    }

    /// Puts files in their order, no two at one path and none of them an object. When it returns they are durable, and so is all that was
    /// put before: one sync for all, and not one for each. A stop before leaves the first of them in place, and none with less than its
    /// content; after a loss of power any of them may be in place, or none.
    pub fn put_all(&mut self, alloc: Global, files: &[(String, Vec<u8>)]) -> Result<(), Fault>
        ensures later { self.old ≤ self.new }
        ensures device { IsErrOf result Fault.Device → HasFailed self.old self.new }
    {
        let done = self.disk.put_all(alloc, files);
        self.settle(done)
    }

    // Counts what the device failed to do.
    fn settle<T: Drop>(&mut self, done: io::Result<T>) -> Result<T, Fault>
        ensures later { self.old ≤ self.new }
        ensures device { IsErrOf result Fault.Device → HasFailed self.old self.new }
    {
        match done {
            Ok(value) => Ok(value),
            Err(e) => Err(self.fault(e)),
        }
    }

    fn fault(&mut self, e: io::Error) -> Fault
        ensures later { self.old ≤ self.new }
        ensures device { result ≡ Fault.Device → HasFailed self.old self.new }
    {
        match fault_of(&e) {
            Fault::Memory => Fault::Memory,
            Fault::Device => {
                self.failed = self.failed.saturating_add(1);
                Fault::Device
            }
        }
    }
}

/// What an error of the system is to the layers above.
pub(crate) fn fault_of(e: &io::Error) -> Fault {
    if e.kind() == ErrorKind::OutOfMemory {
        Fault::Memory
    } else {
        Fault::Device
    }
}

impl<R: rt::Files + Syncs<R::File> + AllocGlobal + Clone + Drop> Files for FolderFiles<R> {
    ghost use Rattle.std.specs.Prelude.{⊤};
    ghost use Rattle.std.specs.FinMap as files;

    ghost honest = { ⊥ };

    ghost content = { λ _. files.empty };

    ghost failed = { λ s. s };

    ghost can_fail = { λ _. ⊤ };

    ghost left = { unstopped };

    fn get(&mut self, alloc: Global, path: &str) -> Result<Option<Vec<u8>>, Fault> {
        let done = self.disk.get(alloc, path);
        self.settle(done)
    }

    fn put(&mut self, alloc: Global, path: &str, bytes: &[u8]) -> Result<(), Fault> {
        let done = self.disk.put(alloc, path, bytes);
        self.settle(done)
    }

    fn remove(&mut self, alloc: Global, path: &str) -> Result<(), Fault> {
        let done = self.disk.remove(alloc, path);
        self.settle(done)
    }

    fn list(&mut self, alloc: Global, prefix: &str) -> Result<Vec<String>, Fault> {
        let done = self.disk.list(alloc, prefix);
        self.settle(done)
    }

    fn failures(&self) -> u64 {
        self.failed
    }
}
