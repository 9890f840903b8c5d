//! Files that others can look at while a node holds them.
ghost use Rattle.std.specs.Prelude.{◌≡◌, ◌≤◌, IsErrOf};
ghost use Rattle.vc_files.specs.Failures.{HasFailed, unstopped};

use anyhow::{Result, bail};
use std::alloc::Global;
use std::cell::RefCell;
use vc_files::{Fault, Files, FusedFiles, MemoryFiles};

/// What a node keeps its files on.
#[derive(Drop)]
pub struct Plate {
    files: FusedFiles<MemoryFiles>,
    /// How often a node called for its files.
    pub calls: u64,
    /// How many of these calls were writes.
    pub writes: u64,
}

/// A plate, which a node holds and others look at.
pub type Disk = RefCell<Plate>;

/// A disk with no files.
pub fn new_disk(alloc: Global) -> Disk {
    RefCell::new(Plate {
        files: FusedFiles::new(MemoryFiles::new(alloc)),
        calls: 0,
        writes: 0,
    })
}

/// How many calls and how many writes a disk has seen.
pub fn counts(disk: &Disk) -> Result<(u64, u64)> {
    let Ok(plate) = disk.try_borrow() else {
        bail!("a disk is in use");
    };
    Ok((plate.calls, plate.writes))
}

/// Lets so many more writes pass, after which the disk stops.
pub fn stop_after(disk: &Disk, writes: u64) -> Result<()> {
    let Ok(mut plate) = disk.try_borrow_mut() else {
        bail!("a disk is in use");
    };
    plate.files.stop_after(writes);
    Ok(())
}

/// Lets all calls pass again.
pub fn mend(disk: &Disk) -> Result<()> {
    let Ok(mut plate) = disk.try_borrow_mut() else {
        bail!("a disk is in use");
    };
    plate.files.mend();
    Ok(())
}

/// The files on a disk.
#[derive(Drop)]
pub struct OnDisk<'a> {
    disk: &'a Disk,
    // What a call counts.
    counted: u64,
    failed: u64,
}

impl<'a> OnDisk<'a> {
    /// As a node holds them.
    pub fn held(disk: &'a Disk) -> OnDisk<'a> {
        OnDisk {
            disk,
            counted: 1,
            failed: 0,
        }
    }

    /// As they are looked at, which counts no calls.
    pub fn seen(disk: &'a Disk) -> OnDisk<'a> {
        OnDisk {
            disk,
            counted: 0,
            failed: 0,
        }
    }

    // Counts what the disk failed to do.
    fn settle<T: Drop>(&mut self, done: Result<T, Fault>) -> Result<T, Fault>
        ensures later { self.old.failed ≤ self.new.failed }
        ensures device { IsErrOf result Fault.Device → HasFailed self.old.failed self.new.failed }
    {
        match done {
            Ok(value) => Ok(value),
            Err(Fault::Memory) => Err(Fault::Memory),
            Err(Fault::Device) => {
                self.failed = self.failed.saturating_add(1);
                Err(Fault::Device)
            }
        }
    }
}

impl<'a> Files for OnDisk<'a> {
    ghost use Rattle.std.specs.Prelude.{⊤};
    ghost use Rattle.std.specs.FinMap as files;

    // It stands for a device of which nothing is claimed.
    ghost honest = { ⊥ };

    ghost content = { λ _. files.empty };

    ghost failed = { λ s. s.failed };

    ghost can_fail = { λ _. ⊤ };

    ghost left = { unstopped };

    fn get(&mut self, alloc: Global, path: &str) -> Result<Option<Vec<u8>>, Fault> {
        let done = match self.disk.try_borrow_mut() {
            Ok(mut plate) => {
                plate.calls = plate.calls.saturating_add(self.counted);
                plate.files.get(alloc, path)
            }
            Err(_) => Err(Fault::Device),
        };
        self.settle(done)
    }

    fn put(&mut self, alloc: Global, path: &str, bytes: &[u8]) -> Result<(), Fault> {
        let done = match self.disk.try_borrow_mut() {
            Ok(mut plate) => {
                plate.calls = plate.calls.saturating_add(self.counted);
                plate.writes = plate.writes.saturating_add(self.counted);
                plate.files.put(alloc, path, bytes)
            }
            Err(_) => Err(Fault::Device),
        };
        self.settle(done)
    }

    fn remove(&mut self, alloc: Global, path: &str) -> Result<(), Fault> {
        let done = match self.disk.try_borrow_mut() {
            Ok(mut plate) => {
                plate.calls = plate.calls.saturating_add(self.counted);
                plate.writes = plate.writes.saturating_add(self.counted);
                plate.files.remove(alloc, path)
            }
            Err(_) => Err(Fault::Device),
        };
        self.settle(done)
    }

    fn list(&mut self, alloc: Global, prefix: &str) -> Result<Vec<String>, Fault> {
        let done = match self.disk.try_borrow_mut() {
            Ok(mut plate) => {
                plate.calls = plate.calls.saturating_add(self.counted);
                plate.files.list(alloc, prefix)
            }
            Err(_) => Err(Fault::Device),
        };
        self.settle(done)
    }

    fn failures(&self) -> u64 {
        self.failed
    }
}
