//! Files in memory that record what is written.
ghost use Rattle.std.specs.Prelude.{◌≡◌, ◌≤◌, IsErrOf};
ghost use Rattle.vc_files.specs.Failures.{HasFailed, unstopped};

use std::alloc::{AllocError, Global};
use vc_files::{Fault, Files, MemoryFiles};

/// Files in memory, and the calls of them that write.
#[derive(Drop)]
pub struct Recording {
    files: MemoryFiles,
    calls: String,
    failed: u64,
}

impl Recording {
    /// No files, and no calls.
    pub fn new(alloc: Global) -> Recording {
        Recording {
            files: MemoryFiles::new(alloc),
            calls: String::new(alloc),
            failed: 0,
        }
    }

    /// ` | put ` or ` | remove ` and the path, for each call that writes, in order.
    pub fn into_calls(self) -> String {
        let Recording {
            files: _,
            calls,
            failed: _,
        } = self;
        calls
    }

    fn note(&mut self, verb: &str, path: &str) -> Result<(), AllocError>
        ensures failed { self.new.failed ≡ self.old.failed }
    {
        self.calls.push_str(verb)?;
        self.calls.push_str(path)
    }

    // Counts what the files failed to do, though files in memory never do.
    fn settle<T: Drop>(&mut self, done: Result<T, Fault>) -> Result<T, Fault>
        ensures later { self.old.failed ≤ self.new.failed }
        ensures device { IsErrOf result Fault.Device → HasFailed self.old.failed self.new.failed }
    {
        match done {
            Ok(value) => Ok(value),
            Err(Fault::Memory) => Err(Fault::Memory),
            Err(Fault::Device) => {
                self.failed = self.failed.saturating_add(1);
                Err(Fault::Device)
            }
        }
    }
}

impl Files for Recording {
    ghost use Rattle.std.specs.Prelude.{⊤};
    ghost use Rattle.std.specs.FinMap as files;

    // It stands for a device of which nothing is claimed.
    ghost honest = { ⊥ };

    ghost content = { λ _. files.empty };

    ghost failed = { λ s. s.failed };

    ghost can_fail = { λ _. ⊤ };

    ghost left = { unstopped };

    fn get(&mut self, alloc: Global, path: &str) -> Result<Option<Vec<u8>>, Fault> {
        let done = self.files.get(alloc, path);
        self.settle(done)
    }

    fn put(&mut self, alloc: Global, path: &str, bytes: &[u8]) -> Result<(), Fault> {
        self.note(" | put ", path)?;
        let done = self.files.put(alloc, path, bytes);
        self.settle(done)
    }

    fn remove(&mut self, alloc: Global, path: &str) -> Result<(), Fault> {
        self.note(" | remove ", path)?;
        let done = self.files.remove(alloc, path);
        self.settle(done)
    }

    fn list(&mut self, alloc: Global, prefix: &str) -> Result<Vec<String>, Fault> {
        let done = self.files.list(alloc, prefix);
        self.settle(done)
    }

    fn failures(&self) -> u64 {
        self.failed
    }
}
