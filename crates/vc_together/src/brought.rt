// What pushes bring before it is taken into the store.
use std::alloc::{AllocError, Global};
use std::collections::BTreeMap;

// How many bytes are kept in memory.
const MOST_KEPT: usize = 67_108_864;

/// Files of pushes that are open, in memory.
#[derive(Drop)]
pub(crate) struct Brought {
    alloc: Global,
    files: BTreeMap<String, Vec<u8>>,
    bytes: usize,
}

/// What the paths of such files begin with.
pub(crate) const BROUGHT: &str = "quarantine/";

/// Whether this is what a push brought.
pub(crate) fn is_brought(path: &str) -> bool {
    path.starts_with(BROUGHT)
}

impl Brought {
    /// Nothing was brought.
    pub(crate) fn new(alloc: Global) -> Brought {
        Brought {
            alloc,
            files: BTreeMap::new(alloc),
            bytes: 0,
        }
    }

    /// The file at a path, if it is in memory.
    pub(crate) fn get(&self, path: &str) -> Result<Option<Vec<u8>>, AllocError> {
        match self.files.get(path) {
            Some(bytes) => Ok(Some(bytes.as_slice().to_vec(self.alloc)?)),
            None => Ok(None),
        }
    }

    /// Keeps a file in memory, and returns whether there was room.
    pub(crate) fn keep(&mut self, path: &str, bytes: &[u8]) -> Result<bool, AllocError> {
        self.remove(path);
        if self.bytes.saturating_add(bytes.len()) > MOST_KEPT {
            return Ok(false);
        }
        let copy = bytes.to_vec(self.alloc)?;
        self.files
            .insert(String::from_str(self.alloc, path)?, copy)?;
        self.bytes = self.bytes.saturating_add(bytes.len());
        Ok(true)
    }

    /// Removes a file from memory.
    pub(crate) fn remove(&mut self, path: &str) {
        if let Some(bytes) = self.files.remove(path) {
            self.bytes = self.bytes.saturating_sub(bytes.len());
        }
    }

    /// Adds the paths with this prefix.
    pub(crate) fn list(&self, prefix: &str, names: &mut Vec<String>) -> Result<(), AllocError> {
        for (path, _) in self.files.iter() {
            if path.as_str().starts_with(prefix) {
                names.push(path.clone()?)?;
            }
        }
        Ok(())
    }
}
