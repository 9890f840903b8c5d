// A work tree in memory.
ghost use Rattle.std.specs.Prelude.{◌≡◌, ◌↔◌, ◌⊎◌, ◌||◌, not, ℕ, List, IfErr, OnOk, OnErr, IsTrue, bytes_eq};
ghost use Rattle.std.specs.FinMap as files;
ghost use Rattle.std.specs.FinSet as set;
ghost use Rattle.vc_files.specs.Failures.{unstopped};
ghost use Rattle.vc_files.specs.Memory.{files_of};
ghost use Rattle.vc_files.specs.Path.{is_above};
ghost use Rattle.vc_index.specs.Path.{IsAbove};
ghost use Rattle.vc_work_tree.specs.Folders.{HoldsFile, IsFolder, IsNoted, folders_of};

use crate::WorkTree;
use crate::folder::folder_of;
use std::alloc::Global;
use std::collections::{BTreeMap, BTreeSet};
use std::marker::Model;
use vc_files::{Fault, is_above};
use vc_object::{Kind, ObjectId, name_of};

/// A work tree in memory, which is a finite map and never answers `Device`.
#[derive(Drop)]
pub struct MemoryTree {
    files: BTreeMap<String, Vec<u8>>,
    // The folders that were made, or that a file was taken out of.
    folders: BTreeSet<String>,
}

impl Model for MemoryTree {
    ghost use Rattle.std.specs.Coded.{coded_ℕ, coded_list, coded×};
    ghost use Rattle.std.specs.FinMap.{code};
    ghost use Rattle.std.specs.FinSet as set;
    ghost use Rattle.vc_files.specs.FileMap.{FileMap};
    ghost use Rattle.vc_files.specs.Memory.{files_of};
    ghost use Rattle.vc_work_tree.specs.Folders.{Folders, folders_of};

    ghost Value = { FileMap × Folders };

    ghost coded = { coded× (code (coded_list coded_ℕ) (coded_list coded_ℕ)) (set.code (coded_list coded_ℕ)) };

    ghost view = { λ s. (files_of s.files, folders_of s.folders) };
}

impl MemoryTree {
    /// No files and no folders.
    pub fn new(alloc: Global) -> Self
        ensures { result ≡ (files.empty, set.empty) }
    {
        MemoryTree {
            files: BTreeMap::new(alloc),
            folders: BTreeSet::new(alloc),
        }
    }

    /// Whether a folder has this path: it was made, or something lies in it.
    pub fn has_folder(&self, path: &str) -> bool
        ensures { IsTrue result ↔ IsFolder self.now.0 self.now.1 path.now }
    {
        self.folders.contains(path) || has_below(&self.files, &self.folders, path)
    }
}

// Whether the path lies in the folder.
fn is_below(path: &str, folder: &str) -> bool
    ensures { result ≡ is_above folder.now path.now }
{
    is_above(folder.as_bytes(), path.as_bytes())
}

// Whether the path is neither that of the folder nor below it.
fn is_beside(path: &str, folder: &str) -> bool
    ensures { result ≡ not (bytes_eq path.now folder.now || is_above folder.now path.now) }
{
    path != folder && !is_below(path, folder)
}

// Whether one of these files lies in the folder.
fn has_file_below(files: &BTreeMap<String, Vec<u8>>, folder: &str) -> bool
    ensures { IsTrue result ↔ HoldsFile (files_of files.now) folder.now }
{
    for path in files.keys() {
        if is_below(path.as_str(), folder) {
            return true;
        }
    }
    false
}

// Whether one of these folders lies in the folder.
fn has_folder_below(folders: &BTreeSet<String>, folder: &str) -> bool
    ensures { IsTrue result ↔ ((one : List ℕ) × IsAbove folder.now one × IsTrue (set.contains (folders_of folders.now) one)) }
{
    for path in folders {
        if is_below(path.as_str(), folder) {
            return true;
        }
    }
    false
}

// Whether a file or a folder lies in the folder.
fn has_below(files: &BTreeMap<String, Vec<u8>>, folders: &BTreeSet<String>, folder: &str) -> bool
    ensures { IsTrue result ↔ (HoldsFile (files_of files.now) folder.now ⊎ ((one : List ℕ) × IsAbove folder.now one × IsTrue (set.contains (folders_of folders.now) one))) }
{
    has_file_below(files, folder) || has_folder_below(folders, folder)
}

// Notes the folder that a path lies in, which stays when nothing is left in it.
fn note_folder(alloc: Global, folders: &mut BTreeSet<String>, path: &str) -> Result<(), Fault>
    ensures noted { OnOk result (IsNoted path.now (folders_of folders.old) (folders_of folders.new)) }
    ensures err { OnErr result (folders_of folders.new ≡ folders_of folders.old) }
    ensures memory { IfErr result (λ e. e ≡ Fault.Memory) }
{
    match folder_of(path) {
        None => Ok(()),
        Some(folder) => {
            folders.insert(String::from_str(alloc, folder)?)?;
            Ok(())
        }
    }
}

impl WorkTree for MemoryTree {
    ghost use Rattle.std.specs.Prelude.{ℕ, ⊤, true};

    ghost honest = { ⊤ };

    ghost content = { λ s. s.0 };

    ghost folders = { λ s. s.1 };

    ghost can_hold = { λ _ _. true };

    ghost failed = { λ _. 0 };

    ghost can_fail = { λ _. ⊥ };

    ghost left = { unstopped };

    fn holds(&self, _path: &[u8]) -> bool {
        true
    }

    fn read(&mut self, alloc: Global, path: &str) -> Result<Option<Vec<u8>>, Fault> {
        let Some(bytes) = self.files.get(path) else {
            return Ok(None);
        };
        Ok(Some(bytes.as_slice().to_vec(alloc)?))
    }

    fn name(&mut self, _alloc: Global, path: &str) -> Result<Option<ObjectId>, Fault> {
        let Some(bytes) = self.files.get(path) else {
            return Ok(None);
        };
        Ok(Some(name_of(Kind::Blob, bytes)))
    }

    fn write(&mut self, alloc: Global, path: &str, bytes: &[u8]) -> Result<(), Fault> {
        let key = String::from_str(alloc, path)?;
        let value = bytes.to_vec(alloc)?;
        self.files.insert(key, value)?;
        self.folders
            .retain(|folder| is_beside(folder.as_str(), path));
        Ok(())
    }

    fn remove(&mut self, alloc: Global, path: &str) -> Result<(), Fault> {
        if !self.files.contains_key(path) {
            return Ok(());
        }
        note_folder(alloc, &mut self.folders, path)?;
        let _ = self.files.remove(path);
        Ok(())
    }

    fn make_folder(&mut self, alloc: Global, path: &str) -> Result<(), Fault> {
        self.folders.insert(String::from_str(alloc, path)?)?;
        Ok(())
    }

    fn remove_folder(&mut self, alloc: Global, path: &str) -> Result<bool, Fault> {
        if has_below(&self.files, &self.folders, path) {
            return Ok(false);
        }
        if !self.folders.contains(path) {
            return Ok(true);
        }
        note_folder(alloc, &mut self.folders, path)?;
        let _ = self.folders.remove(path);
        Ok(true)
    }

    fn list(&mut self, alloc: Global) -> Result<Vec<String>, Fault> {
        let mut listed = Vec::new(alloc);
        for path in self.files.keys() {
            listed.push(String::from_str(alloc, path.as_str())?)?;
        }
        Ok(listed)
    }

    fn failures(&self) -> u64 {
        0
    }
}
