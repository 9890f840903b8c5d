// The index as a finite map from paths to modes and ids.
ghost use Rattle.std.specs.Prelude.{◌≡◌, ◌≢◌, ◌↔◌, OnOk, OnErr, IfOk, IfErr, IsOk, IsTrue, MatchResult, Result, ◌⊎◌, IsSome, Some, IsErrOf, map, codes, ℕ, List};
ghost use Rattle.std.specs.FinMap as paths;
ghost use Rattle.vc_files.specs.Failures.{Wears, Writes};
ghost use Rattle.vc_files.specs.FileMap.{SameOutside};
ghost use Rattle.vc_object_map.specs.Store.{objects, IsDamaged};
ghost use Rattle.vc_index.specs.Loading.{HasBlobs, IsOfList, IsOfLoad};
ghost use Rattle.vc_index.specs.TreeReading.{IsAnswered, IsIndexOfTree, ListsAs, ReadsAs, TreeFault, tree_fault};
ghost use Rattle.vc_index.specs.WrittenTrees.{IsWritten, IsBegun, IsOfWrite, MayHaveBegun};
ghost use Rattle.vc_index.specs.Path.{IsPath, IsAbove};
ghost use Rattle.vc_index.specs.Damage.{KeepsDamage};
ghost use Rattle.vc_index.specs.IndexMap.{HasConflict, HasFileAbove, IndexMap, IsFile, IsIndex, index_entry, index_of};
ghost use Rattle.std.specs.List.{AllByRecursion};
ghost use Rattle.vc_index.specs.IndexFault.{IsOfAdd, IsMemory};
ghost use Rattle.vc_index.specs.Reading.{AreInOrder, IsOfFiles, index_with, pairs, with_files};
ghost use Rattle.vc_index.specs.IndexText.{index_text, IsOfRead, TextFault};

use crate::loading::{Look, load};
use crate::path::is_path;
use crate::reading::{are_apart, read_text};
use crate::text::push_entry;
use crate::trees::write_trees;
use crate::{IndexEntry, IndexFault};
use std::alloc::{AllocError, Global};
use std::cmp::Ordering;
use std::collections::BTreeMap;
use std::collections::btree_map::Iter;
use std::marker::Model;
use std::ops::Bound;
use vc_files::{Fault, Files};
use vc_object::{Mode, ObjectId};
use vc_object_map::StoreFault;

/// Files by their paths, sorted by the bytes of the paths. No file's path is the folder of another's.
#[derive(Drop)]
pub struct Index {
    map: BTreeMap<Vec<u8>, IndexEntry>,
}

impl Model for Index {
    ghost use Rattle.vc_index.specs.IndexMap.{IndexMap, index_code, IsIndex, index_of};

    ghost Value = { IndexMap };

    ghost coded = { index_code };

    ghost view = { λ s. index_of s.map };

    ghost invariant = { λ s. IsIndex (index_of s.map) };
}

impl Index {
    /// An index with no files.
    pub fn new(alloc: Global) -> Index
        ensures { result ≡ paths.empty }
    {
        Index {
            map: BTreeMap::new(alloc),
        }
    }

    // The index of these files.
    pub(crate) fn of_files(
        alloc: Global,
        files: Vec<(Vec<u8>, IndexEntry)>,
    ) -> Result<Index, AllocError>
        requires order { AreInOrder files.items }
        requires index { IsIndex (index_with files.items) }
        ensures { IfOk result (λ index. index ≡ index_with files.items) }
    {
        let map = files.into_iter().collect(alloc)?;
        Ok(Index { map })
    }

    // The index of these files in any order, or 61 where one of them lies in another.
    pub(crate) fn from_files(
        alloc: Global,
        files: Vec<(Vec<u8>, IndexEntry)>,
    ) -> Result<Index, IndexFault>
        requires { AllByRecursion (λ e. IsFile e.0 e.1) (pairs files.items) }
        ensures ok { IfOk result (λ index. index ≡ with_files (pairs files.items)) }
        ensures refused { IfErr result (IsOfFiles (with_files (pairs files.items))) }
    {
        let map: BTreeMap<Vec<u8>, IndexEntry> = files.into_iter().collect(alloc)?;
        if !are_apart(alloc, &map)? {
            return Err(IndexFault::PathConflict);
        }
        Ok(Index { map })
    }

    /// The index that a text stands for: an entry for each file, `mode SP id SP 0 TAB path NUL`, in the order of the
    /// paths, as `git ls-files --stage -z` prints them. Other bytes are refused with the offset of the entry at fault.
    pub fn read(alloc: Global, bytes: &[u8]) -> Result<Index, IndexFault>
        ensures ok { IfOk result (λ index. bytes.now ≡ index_text index) }
        ensures index { IfOk result IsIndex }
        ensures refused { IfErr result (IsOfRead bytes.now) }
        ensures again { (m : IndexMap) → IsIndex m → bytes.now ≡ index_text m → MatchResult result (λ index. index ≡ m) IsMemory }
        ensures only { (place : ℕ) → TextFault bytes.now place → MatchResult result (λ _. ⊥) (λ e. (e ≡ IndexFault.BadIndex place) ⊎ IsMemory e) }
    {
        read_text(alloc, bytes)
    }

    /// The text of the index.
    pub fn write(&self, alloc: Global) -> Result<Vec<u8>, AllocError>
        ensures text { IfOk result (λ text. text.items ≡ index_text self.now) }
        ensures index { IsIndex self.now }
    {
        let mut text = Vec::new(alloc);
        for (path, entry) in &self.map {
            push_entry(&mut text, path, *entry)?;
        }
        Ok(text)
    }

    /// Stores the trees of the index, folder by folder and the lower ones first, and answers the name of the root's
    /// tree. No tree below the root is empty; the tree of an index with no files is. A tree whose spelling is over
    /// 16,777,216 bytes is 3, which is found before the first is stored, and no tree of an index is refused for another fault
    /// of its bytes.
    pub fn write_tree<F: Files>(&self, alloc: Global, files: &mut F) -> Result<ObjectId, IndexFault>
        ensures written { IfOk result (IsWritten F.honest self.now (objects (F.content files.old)) (objects (F.content files.new))) }
        ensures begun { OnErr result (IsBegun F.honest self.now (objects (F.content files.old)) (objects (F.content files.new))) }
        ensures refused { IfErr result (IsOfWrite self.now (λ id. F.honest → IsDamaged (F.content files.new) id)) }
        ensures outside { F.honest → SameOutside (codes "objects/") (F.content files.old) (F.content files.new) }
        ensures undamaged { F.honest → KeepsDamage (F.content files.old) (F.content files.new) }
        ensures wear { Writes F.honest F.content F.failed F.can_fail F.left files.old files.new (IsErrOf result (IndexFault.Store (StoreFault.Fault Fault.Device))) }
        ensures unchanged { F.honest → IfErr result (λ e. MayHaveBegun e ⊎ (F.content files.new ≡ F.content files.old)) }
    {
        write_trees(alloc, files, &self.map)
    }

    /// The index of the files of a tree. An entry that is a commit of another repository is kept and not followed.
    /// The tree is walked in the order of the paths, each object read once for each path that leads to it; at one
    /// entry a path that is too long (60) comes before an object of another kind (63) or one that is absent (40). No
    /// depth of nesting ends the program, since each level makes the paths longer.
    pub fn from_tree<F: Files>(
        alloc: Global,
        files: &mut F,
        root: &ObjectId,
    ) -> Result<Index, IndexFault>
        ensures files { F.honest → IfOk result (IsIndexOfTree (objects (F.content files.old)) root.now) }
        ensures reading { F.honest → IfOk result (λ index. ReadsAs (objects (F.content files.old)) root.now (Ok index)) }
        ensures first { F.honest → IfErr result (λ e. (fault : TreeFault) → tree_fault e ≡ Some fault → ReadsAs (objects (F.content files.old)) root.now (Err fault)) }
        ensures only { F.honest → (v : Result IndexMap TreeFault) → ReadsAs (objects (F.content files.old)) root.now v → IsAnswered v result }
        ensures blobs { F.honest → IfOk result (λ index. HasBlobs (objects (F.content files.old)) index) }
        ensures refused { IfErr result (IsOfLoad F.honest (F.content files.old) root.now) }
        ensures same { F.content files.new ≡ F.content files.old }
        ensures wear { Wears F.failed F.can_fail F.left files.old files.new (IsErrOf result (IndexFault.Store (StoreFault.Fault Fault.Device))) }
    {
        load(alloc, files, Look::All, root)
    }

    /// The index of the files that a tree lists, as `git ls-tree -r` shows them: the trees alone are opened, and whether
    /// the files are there is not asked. The walk and its faults are those of `from_tree`, but that no file's object can
    /// end it.
    pub fn list_tree<F: Files>(
        alloc: Global,
        files: &mut F,
        root: &ObjectId,
    ) -> Result<Index, IndexFault>
        ensures files { F.honest → IfOk result (IsIndexOfTree (objects (F.content files.old)) root.now) }
        ensures reading { F.honest → IfOk result (λ index. ListsAs (objects (F.content files.old)) root.now (Ok index)) }
        ensures first { F.honest → IfErr result (λ e. (fault : TreeFault) → tree_fault e ≡ Some fault → ListsAs (objects (F.content files.old)) root.now (Err fault)) }
        ensures only { F.honest → (v : Result IndexMap TreeFault) → ListsAs (objects (F.content files.old)) root.now v → IsAnswered v result }
        ensures refused { IfErr result (IsOfList F.honest (F.content files.old) root.now) }
        ensures same { F.content files.new ≡ F.content files.old }
        ensures wear { Wears F.failed F.can_fail F.left files.old files.new (IsErrOf result (IndexFault.Store (StoreFault.Fault Fault.Device))) }
    {
        load(alloc, files, Look::Trees, root)
    }

    /// What stands at a path.
    pub fn get(&self, path: &[u8]) -> Option<IndexEntry>
        ensures found { result ≡ paths.get self.now path.now }
        ensures index { IsIndex self.now }
    {
        self.map.get(path).copied()
    }

    /// The files in the order of their paths: each path, and what stands there.
    pub fn iter(&self) -> Iter<'_, Vec<u8>, IndexEntry>
        ensures files { map (λ e. (e.0.items, e.1)) result ≡ paths.entries self.now }
        ensures index { IsIndex self.now }
    {
        self.map.iter()
    }

    /// Puts a file, a link or a commit of another repository at a path, in place of what stands there. A path that
    /// may not stand in a tree (60) is refused before one that conflicts with a file of the index (61).
    pub fn add(
        &mut self,
        alloc: Global,
        path: &[u8],
        mode: Mode,
        id: ObjectId,
    ) -> Result<(), IndexFault>
        requires { mode ≢ Mode.Tree }
        ensures ok { OnOk result (self.new ≡ paths.insert self.old path.now (index_entry mode id)) }
        ensures legal { IsOk result → IsPath path.now }
        ensures free { IsOk result → ¬ (HasConflict self.old path.now) }
        ensures refused { IfErr result (IsOfAdd self.old path.now) }
        ensures err { OnErr result (self.new ≡ self.old) }
    {
        let id = id.named();
        if !is_path(path) {
            return Err(IndexFault::BadPath);
        }
        if has_conflict(alloc, &self.map, path)? {
            return Err(IndexFault::PathConflict);
        }
        let key = path.to_vec(alloc)?;
        self.map.insert(key, IndexEntry { mode, id })?;
        Ok(())
    }

    /// Takes away what stands at a path. Where nothing stands, nothing changes.
    pub fn remove(&mut self, path: &[u8])
        ensures { self.new ≡ paths.remove self.old path.now }
    {
        let _ = self.map.remove(path);
    }
}

// Whether a folder above the path is a file of the map.
fn has_file_above(map: &BTreeMap<Vec<u8>, IndexEntry>, path: &[u8]) -> bool
    ensures { IsTrue result ↔ HasFileAbove (index_of map.now) path.now }
{
    for (i, byte) in path.iter().enumerate() {
        if *byte == b'/' && map.contains_key(&path[..i]) {
            return true;
        }
    }
    false
}

// Whether a file of the map lies in the path as a folder.
fn has_file_below(
    alloc: Global,
    map: &BTreeMap<Vec<u8>, IndexEntry>,
    path: &[u8],
) -> Result<bool, AllocError>
    ensures { IfOk result (λ below. IsTrue below ↔ ((other : List ℕ) × IsSome (paths.get (index_of map.now) other) × IsAbove path.now other)) }
{
    let mut folder = path.to_vec(alloc)?;
    folder.push(b'/')?;
    match map
        .range((Bound::Included(&folder), Bound::Unbounded))
        .next()
    {
        Some((first, _)) => Ok(first.as_slice().starts_with(&folder)),
        None => Ok(false),
    }
}

// Whether a file of the map is a folder of the path, or lies in the path as a folder.
fn has_conflict(
    alloc: Global,
    map: &BTreeMap<Vec<u8>, IndexEntry>,
    path: &[u8],
) -> Result<bool, AllocError>
    ensures { IfOk result (λ conflict. IsTrue conflict ↔ HasConflict (index_of map.now) path.now) }
{
    if has_file_above(map, path) {
        return Ok(true);
    }
    let below = has_file_below(alloc, map, path)?;
    Ok(below)
}
