//! Stores in real folders. Nothing is claimed of a disk.
ghost use Rattle.std.specs.FinMap as maps;
ghost use Rattle.std.specs.Prelude.{⊤, string_bytes};

use crate::failure::Failure;
use crate::faults::Faults;
use crate::repository::open_store;
use crate::stores::Stores;
use crate::writer::{only_remover, only_writer};
use std::fs::File;
use std::io::Write;
use std::rt;
use vc_folder::{FolderFiles, FolderLock, Syncs};

/// The stores in the folders of this machine.
#[derive(Drop)]
pub struct FolderStores<'a, R> {
    rt: &'a R,
}

/// The lock of a store in a folder.
#[derive(Drop)]
pub struct StoreLock<R: rt::Files<File = File> + AllocGlobal + Clone + Drop> {
    /// The store's folder.
    pub store: String,
    /// What no other process holds meanwhile.
    pub lock: FolderLock<R>,
}

impl<'a, R> FolderStores<'a, R> {
    /// The stores in the folders of this machine.
    pub fn new(rt: &'a R) -> FolderStores<'a, R> {
        FolderStores { rt }
    }
}

impl<'a, R> Stores for FolderStores<'a, R>
where
    R: rt::Files<File = File> + Syncs<File> + AllocGlobal + Clone + Drop,
{
    type Files = FolderFiles<R>;

    type Lock = StoreLock<R>;

    type Remover = FolderLock<R>;

    ghost content = { λ _ _. maps.empty };

    ghost of = { λ lock. string_bytes lock.store };

    ghost is_durable = { λ _. ⊤ };

    fn lock<E: Write>(
        &mut self,
        store: &str,
        faults: &mut Faults<E>,
    ) -> Result<StoreLock<R>, Failure> {
        let folder = String::from_str(self.rt.alloc(), store)?;
        let lock = only_writer(self.rt, store, faults)?;
        Ok(StoreLock {
            store: folder,
            lock,
        })
    }

    fn open(&mut self, store: &str) -> Result<FolderFiles<R>, Failure> {
        open_store(self.rt, store)
    }

    fn open_locked(&mut self, lock: &StoreLock<R>) -> Result<FolderFiles<R>, Failure> {
        open_store(self.rt, lock.store.as_str())
    }

    fn remover(&mut self, lock: &StoreLock<R>) -> Result<FolderLock<R>, Failure> {
        only_remover(self.rt, lock.store.as_str())
    }

    fn settle(&mut self, files: &mut FolderFiles<R>) -> Result<(), Failure> {
        files.sync(self.rt.alloc())?;
        Ok(())
    }

    fn close(&mut self, _store: &str, _files: FolderFiles<R>) {}

    fn close_locked(&mut self, _lock: &StoreLock<R>, _files: FolderFiles<R>) {}
}
