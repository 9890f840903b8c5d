// The files of a store as the node of its server meets them.
ghost use Rattle.std.specs.Prelude.{◌≡◌, ◌≤◌, IsErrOf};
ghost use Rattle.vc_files.specs.Failures.{HasFailed, unstopped};

use crate::brought::{BROUGHT, Brought, is_brought};
use crate::store::GroupStore;
use std::alloc::Global;
use std::fs::File;
use std::marker::Model;
use std::rt;
use std::sync::Wait;
use vc_files::{Fault, Files};
use vc_folder::Syncs;

// The store, and what pushes bring before it is taken there.
#[derive(Drop)]
struct Parts<'a, R: rt::Files<File = File> + Syncs<File> + Wait + AllocGlobal + Clone + Drop> {
    store: &'a GroupStore<R>,
    brought: Brought,
    // Whether the folder may have files that a push brought, too: those that found no room in memory.
    has_more: bool,
}

impl<'a, R> Parts<'a, R>
where
    R: rt::Files<File = File> + Syncs<File> + Wait + AllocGlobal + Clone + Drop,
{
    fn get(&mut self, alloc: Global, path: &str) -> Result<Option<Vec<u8>>, Fault> {
        if is_brought(path) {
            let found = self.brought.get(path)?;
            if found.is_some() || !self.has_more {
                return Ok(found);
            }
        }
        self.store.get(alloc, path)
    }

    fn put(&mut self, alloc: Global, path: &str, bytes: &[u8]) -> Result<(), Fault> {
        if !is_brought(path) {
            return self.store.put(alloc, path, bytes);
        }
        if self.brought.keep(path, bytes)? {
            return Ok(());
        }
        self.has_more = true;
        self.store.put_aside(alloc, path, bytes)
    }

    fn remove(&mut self, alloc: Global, path: &str) -> Result<(), Fault> {
        if !is_brought(path) {
            return self.store.remove(alloc, path);
        }
        self.brought.remove(path);
        if self.has_more {
            self.store.remove_aside(alloc, path)?;
        }
        Ok(())
    }

    fn list(&mut self, alloc: Global, prefix: &str) -> Result<Vec<String>, Fault> {
        if !is_brought(prefix) {
            return self.store.list(alloc, prefix);
        }
        let mut names = Vec::new(alloc);
        if self.has_more {
            names = self.store.list_aside(alloc, prefix)?;
        }
        self.brought.list(prefix, &mut names)?;
        names.sort()?;
        names.dedup();
        Ok(names)
    }
}

/// The files of a [`GroupStore`], of which nothing is claimed, as of a folder's. One value at a time has them, and threads may hand it on.
///
/// What is put may be on no disk yet when `put` returns: whoever tells of it waits first ([`GroupStore::settle`]). What a push brings,
/// below `quarantine/`, is in memory, or in the folder if it is long; it is never made durable. If the folder went away, nothing is written
/// where it stood, and nothing that is missing there is told as missing: both are a failure of the device.
#[derive(Drop)]
pub(crate) struct HomeFiles<
    'a,
    R: rt::Files<File = File> + Syncs<File> + Wait + AllocGlobal + Clone + Drop,
> {
    parts: Parts<'a, R>,
    failed: u64,
}

impl<'a, R: rt::Files<File = File> + Syncs<File> + Wait + AllocGlobal + Clone + Drop> Model
    for HomeFiles<'a, R> {
    ghost use Rattle.std.specs.Prelude.{ℕ};

    ghost Value = { ℕ };

    ghost view = { λ s. s.failed };
}

impl<'a, R> HomeFiles<'a, R>
where
    R: rt::Files<File = File> + Syncs<File> + Wait + AllocGlobal + Clone + Drop,
{
    /// The files of this store. What pushes brought to a server that was killed is removed.
    pub(crate) fn new(alloc: Global, store: &'a GroupStore<R>) -> Result<HomeFiles<'a, R>, Fault> {
        for path in store.list_aside(alloc, BROUGHT)? {
            store.remove_aside(alloc, path.as_str())?;
        }
        let parts = Parts {
            store,
            brought: Brought::new(alloc),
            has_more: false,
        };
        Ok(HomeFiles { parts, failed: 0 })
    }

    // Counts what a device failed to do.
    fn settle<T: Drop>(&mut self, done: Result<T, Fault>) -> Result<T, Fault>
        ensures later { self.old ≤ self.new }
        ensures device { IsErrOf result Fault.Device → HasFailed self.old self.new }
    {
        match done {
            Err(Fault::Device) => {
                self.failed = self.failed.saturating_add(1);
                Err(Fault::Device)
            }
            Err(Fault::Memory) => Err(Fault::Memory),
            Ok(value) => Ok(value),
        }
    }
}

impl<'a, R> Files for HomeFiles<'a, R>
where
    R: rt::Files<File = File> + Syncs<File> + Wait + AllocGlobal + Clone + Drop,
{
    ghost use Rattle.std.specs.Prelude.{⊤};
    ghost use Rattle.std.specs.FinMap as files;

    ghost honest = { ⊥ };

    ghost content = { λ _. files.empty };

    ghost failed = { λ s. s };

    ghost can_fail = { λ _. ⊤ };

    ghost left = { unstopped };

    fn get(&mut self, alloc: Global, path: &str) -> Result<Option<Vec<u8>>, Fault> {
        let done = self.parts.get(alloc, path);
        self.settle(done)
    }

    fn put(&mut self, alloc: Global, path: &str, bytes: &[u8]) -> Result<(), Fault> {
        let done = self.parts.put(alloc, path, bytes);
        self.settle(done)
    }

    fn remove(&mut self, alloc: Global, path: &str) -> Result<(), Fault> {
        let done = self.parts.remove(alloc, path);
        self.settle(done)
    }

    fn list(&mut self, alloc: Global, prefix: &str) -> Result<Vec<String>, Fault> {
        let done = self.parts.list(alloc, prefix);
        self.settle(done)
    }

    fn failures(&self) -> u64 {
        self.failed
    }
}
