// A store that its server keeps to itself, with one sync for all updates that come at the same time.
use crate::batch::{Batch, may_wait};
use crate::writes::{Turn, Writes};
use std::alloc::Global;
use std::fs::File;
use std::rt;
use std::sync::{Arc, Condvar, Mutex, Wait};
use vc_files::{Fault, Files};
use vc_folder::{FolderFiles, Syncs};
use vc_serving::home::Home;

// How many bytes wait in memory before they are put into the folder.
const MOST_WAITING: usize = 67_108_864;

/// The store in a folder that must stay where it is. One thread at a time writes to it, and any number of them wait until what was
/// written is durable.
#[derive(Drop)]
pub(crate) struct GroupStore<
    R: rt::Files<File = File> + Syncs<File> + Wait + AllocGlobal + Clone + Drop,
> {
    rt: R,
    folder: String,
    home: Home,
    writes: Mutex<Writes>,
    settled: Condvar,
}

impl<R> GroupStore<R>
where
    R: rt::Files<File = File> + Syncs<File> + Wait + AllocGlobal + Clone + Drop,
{
    /// The store in this folder, which is there.
    pub(crate) fn new(rt: &R, folder: &str) -> Result<GroupStore<R>, Fault> {
        let alloc = rt.alloc();
        Ok(GroupStore {
            rt: rt.clone()?,
            folder: String::from_str(alloc, folder)?,
            home: Home::open(rt, folder)?,
            writes: Mutex::new(Writes::new(alloc)),
            settled: Condvar::new(),
        })
    }

    // The files of the folder as it is now.
    fn open(&self) -> Result<FolderFiles<R>, Fault> {
        let root = String::from_str(self.rt.alloc(), self.folder.as_str())?;
        Ok(FolderFiles::new(self.rt.clone()?, root))
    }

    /// A folder that was moved, or whose disk is gone, is not the one that is served.
    pub(crate) fn look_home(&self) -> Result<(), Fault> {
        if self.home.is_there(&self.rt)? {
            Ok(())
        } else {
            Err(Fault::Device)
        }
    }

    /// Waits until all that was written is durable. The first thread that waits puts it into the folder; those that come meanwhile
    /// wait for it, and then one of them puts what was written meanwhile.
    pub(crate) fn settle(&self) -> Result<(), Fault> {
        let made = self.writes.lock(&self.rt).made();
        for _ in self.rt.forever() {
            let turn = self.writes.lock(&self.rt).turn(made);
            match turn {
                Turn::Done => return Ok(()),
                Turn::Lost(fault) => return Err(fault),
                Turn::Waits => self.wait(made),
                Turn::Puts(batch, durable) => self.put_batch(&batch, durable),
            }
        }
        unreachable!()
    }

    /// Why what was written is not durable, and never will be.
    pub(crate) fn lost(&self) -> Option<Fault> {
        self.writes.lock(&self.rt).lost()
    }

    // Waits until another thread has put its writes into the folder.
    fn wait(&self, made: u64) {
        let _ = self
            .settled
            .wait_while(&self.rt, self.writes.lock(&self.rt), |writes| {
                writes.is_waited_for(made)
            });
    }

    // Puts these into the folder, and tells those that wait.
    fn put_batch(&self, batch: &Batch, durable: u64) {
        let done = self.write(batch);
        self.writes.lock(&self.rt).settle(durable, done);
        self.settled.notify_all();
    }

    // The objects first, then the refs in their order.
    fn write(&self, batch: &Batch) -> Result<(), Fault> {
        let alloc = self.rt.alloc();
        self.look_home()?;
        let mut store = self.open()?;
        for (path, bytes) in batch.objects().iter() {
            store.put(alloc, path.as_str(), bytes.as_slice())?;
        }
        store.put_all(alloc, batch.refs())
    }

    /// The file at a path.
    pub(crate) fn get(&self, alloc: Global, path: &str) -> Result<Option<Vec<u8>>, Fault> {
        if let Some(bytes) = self.writes.lock(&self.rt).get(path)? {
            return Ok(Some(bytes));
        }
        let found = self.open()?.get(alloc, path)?;
        if found.is_none() {
            self.look_home()?;
        }
        Ok(found)
    }

    /// Puts a file. An object or a ref waits to be made durable with others; any other file is durable when this returns.
    pub(crate) fn put(&self, alloc: Global, path: &str, bytes: &[u8]) -> Result<(), Fault> {
        if !may_wait(path) {
            self.settle()?;
            self.look_home()?;
            return self.open()?.put(alloc, path, bytes);
        }
        if self.is_full(path) {
            self.settle()?;
        }
        self.writes.lock(&self.rt).put(path, bytes)
    }

    // Whether what waits has to be durable before one more is put.
    fn is_full(&self, path: &str) -> bool {
        let writes = self.writes.lock(&self.rt);
        writes.bytes() >= MOST_WAITING || writes.has_ref(path)
    }

    /// Removes a file, durably, after all that was written before.
    pub(crate) fn remove(&self, alloc: Global, path: &str) -> Result<(), Fault> {
        self.settle()?;
        self.look_home()?;
        self.open()?.remove(alloc, path)
    }

    /// The paths with this prefix.
    pub(crate) fn list(&self, alloc: Global, prefix: &str) -> Result<Vec<String>, Fault> {
        self.look_home()?;
        let mut names = self.writes.lock(&self.rt).list(prefix)?;
        let there = self.open()?.list(alloc, prefix)?;
        if names.is_empty() {
            return Ok(there);
        }
        for path in there {
            names.push(path)?;
        }
        names.sort()?;
        names.dedup();
        Ok(names)
    }

    /// Puts a file that is never made durable.
    pub(crate) fn put_aside(&self, alloc: Global, path: &str, bytes: &[u8]) -> Result<(), Fault> {
        self.look_home()?;
        self.open()?.put(alloc, path, bytes)
    }

    /// Removes such a file.
    pub(crate) fn remove_aside(&self, alloc: Global, path: &str) -> Result<(), Fault> {
        self.look_home()?;
        self.open()?.remove(alloc, path)
    }

    /// The paths of such files with this prefix.
    pub(crate) fn list_aside(&self, alloc: Global, prefix: &str) -> Result<Vec<String>, Fault> {
        self.look_home()?;
        self.open()?.list(alloc, prefix)
    }
}
