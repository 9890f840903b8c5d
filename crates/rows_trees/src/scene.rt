//! The work tree of the rows: in memory or in a real folder, of which a row may have one call fail.
ghost use Rattle.std.specs.Prelude.{◌≡◌, ◌≤◌, IsErrOf};
ghost use Rattle.vc_files.specs.Failures.{HasFailed, unstopped};
ghost use Rattle.vc_work_folder.specs.Holding.{is_held};

use crate::bench::Host;
use std::alloc::{AllocError, Global};
use std::marker::Model;
use vc_files::Fault;
use vc_object::ObjectId;
use vc_work_folder::FolderTree;
use vc_work_tree::{MemoryTree, WorkTree};

/// Two work trees, of which one is used. So many calls pass, the next one fails without effect, and all later ones pass.
#[derive(Drop)]
pub struct Scene<R: Host> {
    memory: MemoryTree,
    folder: FolderTree<R>,
    on_disk: bool,
    left: u64,
    failed: u64,
}

impl<R: Host> Model for Scene<R> {
    ghost use Rattle.std.specs.Prelude.{ℕ};

    ghost Value = { ℕ × ℕ };

    ghost view = { λ s. (s.failed, s.folder.1) };
}

impl<R: Host> Scene<R> {
    /// A work tree in memory; the other one is the folder `work`, whose store's folder is `store`.
    pub fn new(rt: &R) -> Result<Scene<R>, AllocError> {
        let path = String::from_str(rt.alloc(), "work")?;
        let store = String::from_str(rt.alloc(), "store")?;
        let rest = String::new(rt.alloc());
        Ok(Scene {
            folder: FolderTree::new(rt.clone()?, path, rest, store),
            memory: MemoryTree::new(rt.alloc()),
            on_disk: false,
            left: u64::MAX,
            failed: 0,
        })
    }

    /// Uses the one in memory, with no files, or the one in the folder as it is.
    pub fn start(&mut self, alloc: Global, on_disk: bool) {
        self.memory = MemoryTree::new(alloc);
        self.on_disk = on_disk;
    }

    /// The call after so many fails.
    pub fn fail_after(&mut self, calls: u64) {
        self.left = calls;
    }

    /// Whether the tree in memory has a folder at this path.
    pub fn has_folder(&self, path: &str) -> bool {
        self.memory.has_folder(path)
    }

    /// How often the folder has failed.
    pub fn folder_failures(&self) -> u64 {
        self.folder.failures()
    }

    // The call at the tree that is used. What this can hold stays as it was.
    fn read_there(&mut self, alloc: Global, path: &str) -> Result<Option<Vec<u8>>, Fault>
        ensures holds { is_held self.new.1 ≡ is_held self.old.1 }
        ensures count { self.new.0 ≡ self.old.0 }
    {
        if self.on_disk {
            self.folder.read(alloc, path)
        } else {
            self.memory.read(alloc, path)
        }
    }

    fn name_there(&mut self, alloc: Global, path: &str) -> Result<Option<ObjectId>, Fault>
        ensures holds { is_held self.new.1 ≡ is_held self.old.1 }
        ensures count { self.new.0 ≡ self.old.0 }
    {
        if self.on_disk {
            self.folder.name(alloc, path)
        } else {
            self.memory.name(alloc, path)
        }
    }

    fn list_there(&mut self, alloc: Global) -> Result<Vec<String>, Fault>
        ensures holds { is_held self.new.1 ≡ is_held self.old.1 }
        ensures count { self.new.0 ≡ self.old.0 }
    {
        if self.on_disk {
            self.folder.list(alloc)
        } else {
            self.memory.list(alloc)
        }
    }

    // Counts a call, and refuses the one that is to fail.
    fn pass(&mut self) -> Result<(), Fault>
        ensures later { self.old.0 ≤ self.new.0 }
        ensures device { IsErrOf result Fault.Device → HasFailed self.old.0 self.new.0 }
        ensures above { self.new.1 ≡ self.old.1 }
    {
        if self.left > 0 {
            self.left -= 1;
            return Ok(());
        }
        self.left = u64::MAX;
        self.settle(Err(Fault::Device))
    }

    // Counts what the device failed to do.
    fn settle<T>(&mut self, done: Result<T, Fault>) -> Result<T, Fault>
        ensures later { self.old.0 ≤ self.new.0 }
        ensures device { IsErrOf result Fault.Device → HasFailed self.old.0 self.new.0 }
        ensures above { self.new.1 ≡ self.old.1 }
    {
        match done {
            Ok(value) => Ok(value),
            Err(Fault::Memory) => Err(Fault::Memory),
            Err(Fault::Device) => {
                self.failed = self.failed.saturating_add(1);
                Err(Fault::Device)
            }
        }
    }
}

impl<R: Host> WorkTree for Scene<R> {
    ghost use Rattle.std.specs.Prelude.{⊤};
    ghost use Rattle.std.specs.FinMap as files;
    ghost use Rattle.std.specs.FinSet as set;
    ghost use Rattle.vc_work_folder.specs.Holding.{is_held};

    ghost honest = { ⊥ };

    ghost content = { λ _. files.empty };

    ghost folders = { λ _. set.empty };

    ghost can_hold = { λ s path. is_held s.1 path };

    ghost failed = { λ s. s.0 };

    ghost can_fail = { λ _. ⊤ };

    ghost left = { unstopped };

    // The one in memory holds what the folder holds.
    fn holds(&self, path: &[u8]) -> bool {
        self.folder.holds(path)
    }

    fn read(&mut self, alloc: Global, path: &str) -> Result<Option<Vec<u8>>, Fault> {
        self.pass()?;
        let done = self.read_there(alloc, path);
        self.settle(done)
    }

    fn name(&mut self, alloc: Global, path: &str) -> Result<Option<ObjectId>, Fault> {
        self.pass()?;
        let done = self.name_there(alloc, path);
        self.settle(done)
    }

    fn write(&mut self, alloc: Global, path: &str, bytes: &[u8]) -> Result<(), Fault> {
        self.pass()?;
        let done = match self.on_disk {
            true => self.folder.write(alloc, path, bytes),
            false => self.memory.write(alloc, path, bytes),
        };
        self.settle(done)
    }

    fn remove(&mut self, alloc: Global, path: &str) -> Result<(), Fault> {
        self.pass()?;
        let done = match self.on_disk {
            true => self.folder.remove(alloc, path),
            false => self.memory.remove(alloc, path),
        };
        self.settle(done)
    }

    fn make_folder(&mut self, alloc: Global, path: &str) -> Result<(), Fault> {
        self.pass()?;
        let done = match self.on_disk {
            true => self.folder.make_folder(alloc, path),
            false => self.memory.make_folder(alloc, path),
        };
        self.settle(done)
    }

    fn remove_folder(&mut self, alloc: Global, path: &str) -> Result<bool, Fault> {
        self.pass()?;
        let done = match self.on_disk {
            true => self.folder.remove_folder(alloc, path),
            false => self.memory.remove_folder(alloc, path),
        };
        self.settle(done)
    }

    fn list(&mut self, alloc: Global) -> Result<Vec<String>, Fault> {
        self.pass()?;
        let done = self.list_there(alloc);
        self.settle(done)
    }

    fn failures(&self) -> u64 {
        self.failed
    }
}
