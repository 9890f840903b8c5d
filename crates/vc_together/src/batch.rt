// Files that are put into a folder together.
use std::alloc::{AllocError, Global};
use std::collections::BTreeMap;

/// Objects and refs that were put and wait to be made durable with one sync.
#[derive(Drop)]
pub(crate) struct Batch {
    objects: BTreeMap<String, Vec<u8>>,
    // In the order in which they were put, no two at one path.
    refs: Vec<(String, Vec<u8>)>,
    // How many bytes all of them have.
    bytes: usize,
}

// Whether this is the path of an object.
fn is_object(path: &str) -> bool {
    path.starts_with("objects/")
}

/// Whether a file may wait: whoever is told of it waits with it.
pub(crate) fn may_wait(path: &str) -> bool {
    is_object(path) || path.starts_with("refs/")
}

impl Batch {
    /// Nothing was put.
    pub(crate) fn new(alloc: Global) -> Batch {
        Batch {
            objects: BTreeMap::new(alloc),
            refs: Vec::new(alloc),
            bytes: 0,
        }
    }

    /// How many bytes the files have.
    pub(crate) fn bytes(&self) -> usize {
        self.bytes
    }

    /// What was put at a path.
    pub(crate) fn get(&self, path: &str) -> Option<&Vec<u8>> {
        if is_object(path) {
            return self.objects.get(path);
        }
        let found = self.refs.iter().find(|put| put.0.as_str() == path)?;
        Some(&found.1)
    }

    /// Whether a ref was put at this path. A second one is put once the first is durable.
    pub(crate) fn has_ref(&self, path: &str) -> bool {
        self.refs.iter().any(|put| put.0.as_str() == path)
    }

    /// Puts an object, or a ref at a path that has none here.
    pub(crate) fn put(
        &mut self,
        alloc: Global,
        path: &str,
        bytes: &[u8],
    ) -> Result<(), AllocError> {
        let key = String::from_str(alloc, path)?;
        let copy = bytes.to_vec(alloc)?;
        if is_object(path) {
            self.objects.insert(key, copy)?;
        } else {
            self.refs.push((key, copy))?;
        }
        self.bytes = self.bytes.saturating_add(bytes.len());
        Ok(())
    }

    /// Adds the paths with this prefix.
    pub(crate) fn list(&self, prefix: &str, names: &mut Vec<String>) -> Result<(), AllocError> {
        for (path, _) in self.objects.iter() {
            if path.as_str().starts_with(prefix) {
                names.push(path.clone()?)?;
            }
        }
        for (path, _) in &self.refs {
            if path.as_str().starts_with(prefix) {
                names.push(path.clone()?)?;
            }
        }
        Ok(())
    }

    /// The objects.
    pub(crate) fn objects(&self) -> &BTreeMap<String, Vec<u8>> {
        &self.objects
    }

    /// The refs in the order in which they were put.
    pub(crate) fn refs(&self) -> &[(String, Vec<u8>)] {
        self.refs.as_slice()
    }
}
