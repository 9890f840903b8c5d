// What was written to a store, and how much of it is durable.
use crate::batch::Batch;
use std::alloc::Global;
use std::mem;
use std::sync::Arc;
use vc_files::Fault;

/// The writes to a store that may wait for one another's sync.
#[derive(Drop)]
pub(crate) struct Writes {
    alloc: Global,
    waiting: Batch,
    // What a thread puts into the folder now.
    going: Option<Arc<Batch>>,
    // How many were made, and how many of them are durable.
    made: u64,
    durable: u64,
    // Why what was written could not be made durable. From then on nothing is told.
    lost: Option<Fault>,
}

/// What a thread does that waits until writes are durable.
#[derive(Drop)]
pub(crate) enum Turn {
    /// They are.
    Done,
    /// Another thread puts some into the folder: it waits for that.
    Waits,
    /// It puts these into the folder, and then so many are durable.
    Puts(Arc<Batch>, u64),
    /// They never will be.
    Lost(Fault),
}

impl Writes {
    /// Nothing was written.
    pub(crate) fn new(alloc: Global) -> Writes {
        Writes {
            alloc,
            waiting: Batch::new(alloc),
            going: None,
            made: 0,
            durable: 0,
            lost: None,
        }
    }

    /// How many writes were made.
    pub(crate) fn made(&self) -> u64 {
        self.made
    }

    /// How many bytes wait.
    pub(crate) fn bytes(&self) -> usize {
        self.waiting.bytes()
    }

    /// Why no write is made durable any more.
    pub(crate) fn lost(&self) -> Option<Fault> {
        self.lost
    }

    // Once writes were lost, the folder doesn't have what the node was told that it has.
    fn unless_lost(&self) -> Result<(), Fault> {
        match self.lost {
            Some(fault) => Err(fault),
            None => Ok(()),
        }
    }

    /// Whether a ref waits at this path.
    pub(crate) fn has_ref(&self, path: &str) -> bool {
        self.waiting.has_ref(path)
    }

    /// One write more, which waits.
    pub(crate) fn put(&mut self, path: &str, bytes: &[u8]) -> Result<(), Fault> {
        self.unless_lost()?;
        self.waiting.put(self.alloc, path, bytes)?;
        self.made = self.made.saturating_add(1);
        Ok(())
    }

    /// What was put at a path and is not in the folder yet.
    pub(crate) fn get(&self, path: &str) -> Result<Option<Vec<u8>>, Fault> {
        self.unless_lost()?;
        if let Some(bytes) = self.waiting.get(path) {
            return Ok(Some(bytes.as_slice().to_vec(self.alloc)?));
        }
        let Some(going) = &self.going else {
            return Ok(None);
        };
        match going.get(path) {
            Some(bytes) => Ok(Some(bytes.as_slice().to_vec(self.alloc)?)),
            None => Ok(None),
        }
    }

    /// The paths with this prefix at which something was put that is not in the folder yet.
    pub(crate) fn list(&self, prefix: &str) -> Result<Vec<String>, Fault> {
        self.unless_lost()?;
        let mut names = Vec::new(self.alloc);
        self.waiting.list(prefix, &mut names)?;
        if let Some(going) = &self.going {
            going.list(prefix, &mut names)?;
        }
        Ok(names)
    }

    /// What a thread does that waits until so many writes are durable.
    pub(crate) fn turn(&mut self, made: u64) -> Turn {
        if let Some(fault) = self.lost {
            return Turn::Lost(fault);
        }
        if made <= self.durable {
            return Turn::Done;
        }
        if self.going.is_some() {
            return Turn::Waits;
        }
        match self.begin() {
            Ok(batch) => Turn::Puts(batch, self.made),
            Err(fault) => {
                // What waited is gone.
                self.lost = Some(fault);
                Turn::Lost(fault)
            }
        }
    }

    // What waits is on its way into the folder from now on.
    fn begin(&mut self) -> Result<Arc<Batch>, Fault> {
        let batch = mem::replace(&mut self.waiting, Batch::new(self.alloc));
        let Ok(batch) = Arc::new(self.alloc, batch) else {
            return Err(Fault::Memory);
        };
        self.going = Some(batch.clone()?);
        Ok(batch)
    }

    /// Whether another thread puts writes into the folder, and so many aren't durable yet.
    pub(crate) fn is_waited_for(&self, made: u64) -> bool {
        self.going.is_some() && self.lost.is_none() && self.durable < made
    }

    /// So many are durable, or why they never will be.
    pub(crate) fn settle(&mut self, durable: u64, done: Result<(), Fault>) {
        match done {
            Ok(()) => {
                self.durable = durable;
                self.going = None;
            }
            Err(fault) => self.lost = Some(fault),
        }
    }
}
