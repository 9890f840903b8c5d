// Files in memory.
ghost use Rattle.std.specs.Prelude.{◌≡◌, nat_eq};
ghost use Rattle.std.specs.List.{starts_with};
ghost use Rattle.std.specs.FinMap as files;

use crate::{Fault, Files};
use std::alloc::Global;
use std::collections::BTreeMap;
use std::marker::Model;

/// Files in memory, which are a finite map and never answer `Device`.
#[derive(Drop)]
pub struct MemoryFiles {
    map: BTreeMap<String, Vec<u8>>,
}

impl Model for MemoryFiles {
    ghost use Rattle.std.specs.Coded.{coded_ℕ, coded_list};
    ghost use Rattle.std.specs.FinMap.{code};
    ghost use Rattle.vc_files.specs.FileMap.{FileMap};
    ghost use Rattle.vc_files.specs.Memory.{files_of};

    ghost Value = { FileMap };

    ghost coded = { code (coded_list coded_ℕ) (coded_list coded_ℕ) };

    ghost view = { λ s. files_of s.map };
}

impl MemoryFiles {
    /// No files.
    pub fn new(alloc: Global) -> Self
        ensures { result ≡ files.empty }
    {
        MemoryFiles {
            map: BTreeMap::new(alloc),
        }
    }
}

fn begins_with(path: &str, prefix: &str) -> bool
    ensures { result ≡ starts_with nat_eq path.now prefix.now }
{
    path.as_bytes().starts_with(prefix.as_bytes())
}

impl Files for MemoryFiles {
    ghost use Rattle.std.specs.Prelude.{⊤};
    ghost use Rattle.vc_files.specs.Failures.{unstopped};

    ghost honest = { ⊤ };

    ghost content = { λ s. s };

    ghost failed = { λ _. 0 };

    ghost can_fail = { λ _. ⊥ };

    ghost left = { unstopped };

    fn get(&mut self, alloc: Global, path: &str) -> Result<Option<Vec<u8>>, Fault> {
        let Some(bytes) = self.map.get(path) else {
            return Ok(None);
        };
        Ok(Some(bytes.as_slice().to_vec(alloc)?))
    }

    fn put(&mut self, alloc: Global, path: &str, bytes: &[u8]) -> Result<(), Fault> {
        let key = String::from_str(alloc, path)?;
        let value = bytes.to_vec(alloc)?;
        self.map.insert(key, value)?;
        Ok(())
    }

    fn remove(&mut self, _alloc: Global, path: &str) -> Result<(), Fault> {
        let _ = self.map.remove(path);
        Ok(())
    }

    fn list(&mut self, alloc: Global, prefix: &str) -> Result<Vec<String>, Fault> {
        let mut listed = Vec::new(alloc);
        // What comes before the prefix doesn't begin with it: the refs of a node stand behind all its objects.
        let first = String::from_str(alloc, prefix)?;
        for (path, _) in self.map.range(first..) {
            if begins_with(path.as_str(), prefix) {
                listed.push(String::from_str(alloc, path.as_str())?)?;
            }
        }
        Ok(listed)
    }

    fn failures(&self) -> u64 {
        0
    }
}
