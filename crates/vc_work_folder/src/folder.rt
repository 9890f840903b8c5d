// A work tree in a real folder. Nothing is claimed of a disk.
ghost use Rattle.std.specs.Prelude.{◌≡◌, ◌≤◌, IsErrOf, length, string_bytes};
ghost use Rattle.vc_files.specs.Failures.{HasFailed, unstopped};

use crate::ahead::Ahead;
use crate::beside::Beside;
use crate::disk::Disk;
use crate::holding::is_held;
use crate::listed::Listed;
use crate::root::Root;
use crate::way::Way;
use std::alloc::Global;
use std::io::{self, ErrorKind};
use std::marker::Model;
use std::rt;
use vc_files::Fault;
use vc_object::ObjectId;
use vc_work_tree::WorkTree;

/// The work tree in a folder.
///
/// An entry `.git` at the top and the folder of the store that is worked on, whatever its name, both in any ASCII case, are
/// passed over: they aren't listed, nothing is read or removed there, and a write there is a fault. What has a name that isn't UTF-8 isn't listed, and neither is what is no file, link or folder.
///
/// No link in the work tree is followed. A link that somebody placed there by hand is a file whose content is the
/// text of the link: it is listed and read so, a write in its place puts a file there and leaves what it leads to
/// alone, and a write below it is a fault. The folder's own path may lead through links. Each call looks at the folder that a
/// path lies in, and at those above it if it isn't the very one (by its device and its number) that the calls before have
/// reached through no link. So what somebody moves away meanwhile, with a link in its place, is still worked on as what it was.
/// Reads of files that a listing found look at each folder once, while each file is still the very one that was found.
///
/// Where the work tree is large, a few threads list its folders, and name the files behind those whose names were asked for in a
/// row. So what somebody changes meanwhile may be seen as it was a moment before it was asked for; a write through here is always
/// seen.
///
/// A path that the system doesn't take here (a part over 255 bytes, a byte 0, over 4,095 bytes with the folder's own path) has
/// no file: `holds` says so, nothing is read or removed there, and a write there is a fault.
///
/// A file is written whole into the folder of the store, as `checkout.lock`, and then renamed onto its path, which replaces
/// a file or a link at once. So whenever a process is killed, no file of the work tree is cut short, and a write that fails
/// leaves the file or the link that stood there. What a killed process left as `checkout.lock` is removed by the next write.
/// One process at a time writes, since there is one such name: the one that may write to the store.
///
/// Where the two folders lie on different file systems a file can't be renamed. It is written in its place then, after what
/// stood there was removed, and a write that fails may leave none, or a part. Nothing is made durable.
#[derive(Drop)]
pub struct FolderTree<R: rt::Files + AllocGlobal + Clone + Drop> {
    disk: Disk<R>,
    // How many bytes the folder's own path has.
    above: usize,
    failed: u64,
}

impl<R: rt::Files + AllocGlobal + Clone + Drop> Model for FolderTree<R> {
    ghost use Rattle.std.specs.Prelude.{ℕ};

    ghost Value = { ℕ × ℕ };

    ghost view = { λ s. (s.failed, s.above) };
}

impl<R: rt::Files + Beside<R> + AllocGlobal + Clone + Drop> FolderTree<R> {
    /// The work tree in the folder with this path. `own` is the path that the folder of its store has in it, empty where it
    /// lies elsewhere. `store` is where that folder is, and it is there when a file is written.
    pub fn new(rt: R, path: String, own: String, store: String) -> Self
        ensures { result ≡ (0, length (string_bytes path)) }
    {
        let alloc = rt.alloc();
        let listed = Listed::new(alloc, Vec::new(alloc));
        let above = path.len();
        FolderTree {
            disk: Disk {
                root: Root { rt, path, own },
                store,
                listed,
                ahead: Ahead::new(alloc),
                way: Way::new(alloc),
            },
            above,
            failed: 0,
        }
    }

    // Counts what the device failed to do.
    fn settle<T: Drop>(&mut self, done: io::Result<T>) -> Result<T, Fault>
        ensures later { self.old.0 ≤ self.new.0 }
        ensures device { IsErrOf result Fault.Device → HasFailed self.old.0 self.new.0 }
        ensures above { self.new.1 ≡ self.old.1 }
    {
        match done {
            Ok(value) => Ok(value),
            Err(e) => Err(self.fault(e)),
        }
    }

    fn fault(&mut self, e: io::Error) -> Fault
        ensures later { self.old.0 ≤ self.new.0 }
        ensures device { result ≡ Fault.Device → HasFailed self.old.0 self.new.0 }
        ensures above { self.new.1 ≡ self.old.1 }
    {
        if e.kind() == ErrorKind::OutOfMemory {
            return Fault::Memory;
        }
        self.failed = self.failed.saturating_add(1);
        Fault::Device
    }
}

impl<R: rt::Files + Beside<R> + AllocGlobal + Clone + Drop> WorkTree for FolderTree<R> {
    ghost use Rattle.std.specs.Prelude.{⊤};
    ghost use Rattle.std.specs.FinMap as files;
    ghost use Rattle.std.specs.FinSet as set;
    ghost use Rattle.vc_work_folder.specs.Holding.{is_held};

    ghost honest = { ⊥ };

    ghost content = { λ _. files.empty };

    ghost folders = { λ _. set.empty };

    ghost can_hold = { λ s path. is_held s.1 path };

    ghost failed = { λ s. s.0 };

    ghost can_fail = { λ _. ⊤ };

    ghost left = { unstopped };

    fn holds(&self, path: &[u8]) -> bool {
        is_held(self.above, path)
    }

    fn read(&mut self, alloc: Global, path: &str) -> Result<Option<Vec<u8>>, Fault> {
        let done = self.disk.read(alloc, path);
        self.settle(done)
    }

    fn name(&mut self, alloc: Global, path: &str) -> Result<Option<ObjectId>, Fault> {
        let done = self.disk.name(alloc, path);
        self.settle(done)
    }

    fn write(&mut self, alloc: Global, path: &str, bytes: &[u8]) -> Result<(), Fault> {
        let done = self.disk.write(alloc, path, bytes);
        self.settle(done)
    }

    fn remove(&mut self, alloc: Global, path: &str) -> Result<(), Fault> {
        let done = self.disk.remove(alloc, path);
        self.settle(done)
    }

    fn make_folder(&mut self, alloc: Global, path: &str) -> Result<(), Fault> {
        let done = self.disk.make_folder(alloc, path);
        self.settle(done)
    }

    fn remove_folder(&mut self, alloc: Global, path: &str) -> Result<bool, Fault> {
        let done = self.disk.remove_folder(alloc, path);
        self.settle(done)
    }

    fn list(&mut self, alloc: Global) -> Result<Vec<String>, Fault> {
        let done = self.disk.list(alloc);
        self.settle(done)
    }

    fn failures(&self) -> u64 {
        self.failed
    }
}
