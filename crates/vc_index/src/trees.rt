// The trees that an index is written as.
ghost use Rattle.std.specs.Prelude.{◌≡◌, ◌≢◌, ◌⊎◌, ◌<◌, ◌≤◌, ◌-◌, ◌++◌, ◌∷◌, [], List, Some, length, drop, take, map, codes, slice_get, option_map, IfOk, IfErr, OnOk, OnErr, IsErrOf};
ghost use Rattle.std.specs.List.{AllByRecursion};
ghost use Rattle.vc_files.specs.Failures.{Writes};
ghost use Rattle.vc_files.specs.FileMap.{SameOutside};
ghost use Rattle.vc_object.specs.Bytes.{Without};
ghost use Rattle.vc_object.specs.Object.{max_body};
ghost use Rattle.vc_object.specs.Tree.{spelling};
ghost use Rattle.vc_object_map.specs.Store.{objects, IsDamaged};
ghost use Rattle.vc_index.specs.Building.{Closes, ClosesFolders, IsInside, IsLeft, IsNext, JoinsFolders, RefusesFolders, RefusesJoins, Stands, StandsBehind, open_length};
ghost use Rattle.vc_index.specs.Damage.{KeepsDamage};
ghost use Rattle.vc_index.specs.FolderTrees.{HasFitting};
ghost use Rattle.vc_index.specs.IndexMap.{IsIndex, index_of};
ghost use Rattle.vc_index.specs.Part.{EndsInSlash, part_entry, parts_size};
ghost use Rattle.vc_index.specs.WrittenTrees.{IsOfJoining, IsTooLong, IsWritten, IsBegun, IsOfWrite, MayHaveBegun};
ghost use Rattle.vc_index.specs.declared.trees.Part.{Part};

use crate::{IndexEntry, IndexFault};
use std::alloc::{AllocError, Global};
use std::collections::BTreeMap;
use vc_files::{Fault, Files};
use vc_object::{Kind, MAX_BODY, Mode, ObjectFault, ObjectId};
use vc_object_map::StoreFault;

/// A file, or a folder whose tree is stored: the folder above it, which ends in `/` or is empty, and its name.
#[derive(Clone, Copy)]
pub(crate) struct Part<'a> {
    folder: &'a [u8],
    name: &'a [u8],
    entry: IndexEntry,
}

// What a path has up to its last `/`, and what follows.
fn split_path(path: &[u8]) -> (&[u8], &[u8])
    ensures is { path.now ≡ result.0.now ++ result.1.now }
    ensures name { Without 47 result.1.now }
    ensures folder { EndsInSlash result.0.now }
{
    let mut end = path.len();
    while end > 0 && path[end - 1] != b'/' {
        end -= 1;
    }
    path.split_at(end)
}

// The entries of a folder's tree, spelled.
fn tree_body(alloc: Global, parts: &[Part<'_>]) -> Result<Vec<u8>, AllocError>
    ensures { IfOk result (λ body. body.items ≡ spelling (map part_entry parts.now)) }
{
    let mut body = Vec::new(alloc);
    for part in parts {
        body.extend_from_slice(part.entry.mode.text())?;
        body.push(b' ')?;
        body.extend_from_slice(part.name)?;
        body.push(0)?;
        body.extend_from_slice(&part.entry.id.0)?;
    }
    Ok(body)
}

// Refuses the parts of a folder whose tree is too large. An entry is its mode, a space, its name, a NUL and the 20 bytes of
// an id, whatever the id is.
fn check_size(parts: &[Part<'_>]) -> Result<(), IndexFault>
    ensures fits { OnOk result (parts_size parts.now ≤ max_body) }
    ensures refused { IfErr result (IsTooLong parts.now) }
{
    let mut size: usize = 0;
    for part in parts {
        size += part.entry.mode.text().len() + part.name.len() + 22;
        if size > MAX_BODY {
            return Err(IndexFault::Store(StoreFault::BadObject(ObjectFault::TooLarge)));
        }
    }
    Ok(())
}

// Where the parts of the last folder begin: those before lie in folders above it.
fn start_of(parts: &[Part<'_>], folder: &[u8]) -> usize
    ensures bound { result ≤ length parts.now }
    ensures inside { AllByRecursion (λ part. length part.folder.now ≡ length folder.now) (drop result parts.now) }
    ensures above { (front : List Part) (part : Part) → take result parts.now ≡ front ++ part ∷ [] → length part.folder.now ≢ length folder.now }
{
    let mut start = parts.len();
    while start > 0 && parts[start - 1].folder.len() == folder.len() {
        start -= 1;
    }
    start
}

// Puts one part in place of the parts of the last folder, if its tree fits. Only sizes are added up here, and the id of
// zeros stands for any.
fn join_folder<'a>(parts: &mut Vec<Part<'a>>, folder: &'a [u8]) -> Result<(), IndexFault>
    requires last { option_map (λ part. part.folder.now) (slice_get parts.old.items (length parts.old.items - 1)) ≡ Some folder.now }
    requires some { 0 < length folder.now }
    ensures joins { JoinsFolders (IsLeft folder.now) parts.old.items parts.new.items result }
    ensures shorter { OnOk result (open_length parts.new.items < length folder.now) }
    ensures refused { RefusesJoins (IsLeft folder.now) parts.old.items result }
    ensures fault { IfErr result IsOfJoining }
{
    let first = start_of(parts, folder);
    check_size(parts.as_slice().split_at(first).1)?;
    let (over, name) = split_path(folder.split_at(folder.len() - 1).0);
    parts.truncate(first);
    let mode = Mode::Tree;
    let id = ObjectId::ZERO;
    parts.push(Part {
        folder: over,
        name,
        entry: IndexEntry { mode, id },
    })?;
    Ok(())
}

// Puts one part in place of each of the last folders, as long as the next path lies not in them.
fn join_folders(parts: &mut Vec<Part<'_>>, next: &[u8]) -> Result<(), IndexFault>
    ensures joins { JoinsFolders (IsNext next.now) parts.old.items parts.new.items result }
    ensures inside { OnOk result (IsInside next.now parts.new.items) }
    ensures refused { RefusesJoins (IsNext next.now) parts.old.items result }
    ensures fault { IfErr result IsOfJoining }
{
    while let Some(last) = parts.last() {
        let open = last.folder;
        if next.starts_with(open) {
            return Ok(());
        }
        join_folder(parts, open)?;
    }
    Ok(())
}

// Refuses an index that has a tree which is too large. No tree is made for it, and none is hashed.
fn check_sizes(alloc: Global, map: &BTreeMap<Vec<u8>, IndexEntry>) -> Result<(), IndexFault>
    requires { IsIndex (index_of map.now) }
    ensures fits { OnOk result (HasFitting (index_of map.now)) }
    ensures refused { IfErr result (IsOfWrite (index_of map.now) (λ _. ⊥)) }
    ensures fault { IfErr result IsOfJoining }
{
    let mut parts = Vec::new(alloc);
    for (path, entry) in map {
        join_folders(&mut parts, path)?;
        let (folder, name) = split_path(path);
        let mode = entry.mode;
        let id = ObjectId::ZERO;
        parts.push(Part {
            folder,
            name,
            entry: IndexEntry { mode, id },
        })?;
    }
    join_folders(&mut parts, b"")?;
    check_size(&parts)?;
    Ok(())
}

// Stores the tree of the last folder, and puts the tree in place of the folder's parts.
fn close_folder<'a, F: Files>(
    alloc: Global,
    files: &mut F,
    parts: &mut Vec<Part<'a>>,
    folder: &'a [u8],
) -> Result<(), IndexFault>
    requires last { option_map (λ part. part.folder.now) (slice_get parts.old.items (length parts.old.items - 1)) ≡ Some folder.now }
    requires some { 0 < length folder.now }
    ensures closes { ClosesFolders (IsLeft folder.now) F.honest parts.old.items parts.new.items (objects (F.content files.old)) (objects (F.content files.new)) result }
    ensures stands { StandsBehind (IsLeft folder.now) F.honest parts.old.items (objects (F.content files.old)) (objects (F.content files.new)) }
    ensures shorter { OnOk result (open_length parts.new.items < length folder.now) }
    ensures refused { RefusesFolders (IsLeft folder.now) parts.old.items (λ id. F.honest → IsDamaged (F.content files.new) id) result }
    ensures outside { F.honest → SameOutside (codes "objects/") (F.content files.old) (F.content files.new) }
    ensures undamaged { F.honest → KeepsDamage (F.content files.old) (F.content files.new) }
    ensures wear { Writes F.honest F.content F.failed F.can_fail F.left files.old files.new (IsErrOf result (IndexFault.Store (StoreFault.Fault Fault.Device))) }
{
    let start = start_of(parts, folder);
    let body = tree_body(alloc, parts.as_slice().split_at(start).1)?;
    let stored = vc_store::put(files, alloc, Kind::Tree, &body)?;
    let id = stored.named();
    let (above, name) = split_path(folder.split_at(folder.len() - 1).0);
    parts.truncate(start);
    let mode = Mode::Tree;
    parts.push(Part {
        folder: above,
        name,
        entry: IndexEntry { mode, id },
    })?;
    Ok(())
}

// Stores the trees of the last folders, as long as the next path lies not in them.
fn close_folders<F: Files>(
    alloc: Global,
    files: &mut F,
    parts: &mut Vec<Part<'_>>,
    next: &[u8],
) -> Result<(), IndexFault>
    ensures closes { ClosesFolders (IsNext next.now) F.honest parts.old.items parts.new.items (objects (F.content files.old)) (objects (F.content files.new)) result }
    ensures inside { OnOk result (IsInside next.now parts.new.items) }
    ensures stands { StandsBehind (IsNext next.now) F.honest parts.old.items (objects (F.content files.old)) (objects (F.content files.new)) }
    ensures refused { RefusesFolders (IsNext next.now) parts.old.items (λ id. F.honest → IsDamaged (F.content files.new) id) result }
    ensures outside { F.honest → SameOutside (codes "objects/") (F.content files.old) (F.content files.new) }
    ensures undamaged { F.honest → KeepsDamage (F.content files.old) (F.content files.new) }
    ensures wear { Writes F.honest F.content F.failed F.can_fail F.left files.old files.new (IsErrOf result (IndexFault.Store (StoreFault.Fault Fault.Device))) }
{
    while let Some(last) = parts.last() {
        let folder = last.folder;
        if next.starts_with(folder) {
            return Ok(());
        }
        close_folder(alloc, files, parts, folder)?;
    }
    Ok(())
}

// Cuts the paths of an index into the parts of its root, and stores the trees of all folders below.
fn root_parts<'a, F: Files>(
    alloc: Global,
    files: &mut F,
    map: &'a BTreeMap<Vec<u8>, IndexEntry>,
) -> Result<Vec<Part<'a>>, IndexFault>
    requires { IsIndex (index_of map.now) }
    ensures closed { IfOk result (λ parts. Closes F.honest (index_of map.now) [] [] parts.items (objects (F.content files.old)) (objects (F.content files.new))) }
    ensures inside { IfOk result (λ parts. IsInside [] parts.items) }
    ensures stands { Stands F.honest (index_of map.now) [] (objects (F.content files.old)) (objects (F.content files.new)) }
    ensures refused { IfErr result (IsOfWrite (index_of map.now) (λ id. F.honest → IsDamaged (F.content files.new) id)) }
    ensures outside { F.honest → SameOutside (codes "objects/") (F.content files.old) (F.content files.new) }
    ensures undamaged { F.honest → KeepsDamage (F.content files.old) (F.content files.new) }
    ensures wear { Writes F.honest F.content F.failed F.can_fail F.left files.old files.new (IsErrOf result (IndexFault.Store (StoreFault.Fault Fault.Device))) }
{
    let mut parts = Vec::new(alloc);
    for (path, entry) in map {
        close_folders(alloc, files, &mut parts, path)?;
        let (folder, name) = split_path(path);
        let entry = *entry;
        parts.push(Part {
            folder,
            name,
            entry,
        })?;
    }
    close_folders(alloc, files, &mut parts, b"")?;
    Ok(parts)
}

/// Stores the trees of an index, the lower ones first, and answers the root's name. That each tree fits is found before the
/// first is stored.
pub(crate) fn write_trees<F: Files>(
    alloc: Global,
    files: &mut F,
    map: &BTreeMap<Vec<u8>, IndexEntry>,
) -> Result<ObjectId, IndexFault>
    requires { IsIndex (index_of map.now) }
    ensures written { IfOk result (IsWritten F.honest (index_of map.now) (objects (F.content files.old)) (objects (F.content files.new))) }
    ensures begun { OnErr result (IsBegun F.honest (index_of map.now) (objects (F.content files.old)) (objects (F.content files.new))) }
    ensures refused { IfErr result (IsOfWrite (index_of map.now) (λ id. F.honest → IsDamaged (F.content files.new) id)) }
    ensures outside { F.honest → SameOutside (codes "objects/") (F.content files.old) (F.content files.new) }
    ensures undamaged { F.honest → KeepsDamage (F.content files.old) (F.content files.new) }
    ensures wear { Writes F.honest F.content F.failed F.can_fail F.left files.old files.new (IsErrOf result (IndexFault.Store (StoreFault.Fault Fault.Device))) }
    ensures unchanged { F.honest → IfErr result (λ e. MayHaveBegun e ⊎ (F.content files.new ≡ F.content files.old)) }
{
    check_sizes(alloc, map)?;
    let parts = root_parts(alloc, files, map)?;
    let body = tree_body(alloc, &parts)?;
    let id = vc_store::put(files, alloc, Kind::Tree, &body)?;
    Ok(id.named())
}
