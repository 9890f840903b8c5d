// The index of a tree's files, with all that the tree names or with the trees alone.
ghost use Rattle.std.specs.Prelude.{◌≡◌, ◌≤◌, Some, ◌≢◌, length, map, reverse, IfOk, IfErr, OnOk, IsErrOf};
ghost use Rattle.std.specs.FinMap as paths;
ghost use Rattle.vc_files.specs.Failures.{Wears};
ghost use Rattle.vc_object.specs.Decoding.{stored_object};
ghost use Rattle.vc_object.specs.Entries.{entries_of};
ghost use Rattle.vc_object_map.specs.Store.{objects};
ghost use Rattle.vc_index.specs.HeldFiles.{placed, under};
ghost use Rattle.vc_index.specs.Loading.{HasBlobs, IsOfLook, IsOfLoadIn, IsOpened, IsBlobIfDue, item_pair};
ghost use Rattle.vc_index.specs.TreeReading.{IsIndexOfTree, ReadsIn, TreeFault, tree_fault};

use crate::{Index, IndexEntry, IndexFault, MAX_PATH};
use std::alloc::{AllocError, Global};
use vc_files::{Fault, Files};
use vc_object::{Kind, Mode, ObjectId, Tree, tree_of};
use vc_object_map::StoreFault;
use vc_store::Stored;

/// Which objects are looked for: those of the trees alone, or also the blob of each file and each link.
#[derive(Clone, Copy, PartialEq)]
pub(crate) enum Look {
    Trees,
    All,
}

/// An entry that is still to be looked at, by its path from the root.
#[derive(Drop)]
pub(crate) struct Item {
    path: Vec<u8>,
    entry: IndexEntry,
}

// The object of an item, of the kind that its mode asks for.
fn find_object<F: Files>(
    alloc: Global,
    files: &mut F,
    item: &Item,
    kind: Kind,
) -> Result<Stored, IndexFault>
    ensures kind { IfOk result (λ s. s.kind ≡ kind) }
    ensures found { F.honest → IfOk result (λ s. objects (F.content files.old) item.now.entry.id ≡ Some (stored_object kind s.body.items)) }
    ensures refused { IfErr result (IsOfLook F.honest (F.content files.old) kind item.now) }
    ensures same { F.content files.new ≡ F.content files.old }
    ensures wear { Wears F.failed F.can_fail F.left files.old files.new (IsErrOf result (IndexFault.Store (StoreFault.Fault Fault.Device))) }
{
    let id = item.entry.id;
    let Some(stored) = vc_store::find(files, alloc, &id)? else {
        return Err(IndexFault::Missing(id));
    };
    if stored.kind != kind {
        let path = item.path.as_slice().to_vec(alloc)?;
        return Err(IndexFault::WrongEntry(path));
    }
    Ok(stored)
}

// What stands before the names in a folder of this path.
fn folder_of(alloc: Global, path: &[u8]) -> Result<Vec<u8>, AllocError>
    ensures { IfOk result (λ folder. folder.items ≡ under path.now) }
{
    if path.is_empty() {
        return Ok(Vec::new(alloc));
    }
    let mut folder = path.to_vec(alloc)?;
    folder.push(b'/')?;
    Ok(folder)
}

// The entries of a tree whose path is given, the last one first.
fn items_of(alloc: Global, path: &[u8], tree: Tree<'_>) -> Result<Vec<Item>, AllocError>
    ensures items { IfOk result (λ items. map item_pair items.items ≡ reverse (map (placed (under path.now)) (entries_of tree.entry.body.now))) }
    ensures few { IfOk result (λ items. length items.items ≤ length tree.entry.body.now) }
{
    let folder = folder_of(alloc, path)?;
    let mut items = Vec::new(alloc);
    for entry in tree.entries() {
        let mut path = folder.as_slice().to_vec(alloc)?;
        path.extend_from_slice(entry.name)?;
        let mode = entry.mode;
        let id = entry.id;
        items.push(Item {
            path,
            entry: IndexEntry { mode, id },
        })?;
    }
    items.reverse();
    Ok(items)
}

// Puts the entries of the item's tree on the items, the first one last.
fn open_folder<F: Files>(
    alloc: Global,
    files: &mut F,
    items: &mut Vec<Item>,
    item: &Item,
) -> Result<(), IndexFault>
    ensures opened { OnOk result (IsOpened F.honest (F.content files.old) item.now items.old.items items.new.items) }
    ensures refused { IfErr result (IsOfLook F.honest (F.content files.old) Kind.Tree item.now) }
    ensures same { F.content files.new ≡ F.content files.old }
    ensures wear { Wears F.failed F.can_fail F.left files.old files.new (IsErrOf result (IndexFault.Store (StoreFault.Fault Fault.Device))) }
{
    let stored = find_object(alloc, files, item, Kind::Tree)?;
    let Some(tree) = tree_of(&stored.object()) else {
        unreachable!();
    };
    let mut more = items_of(alloc, &item.path, tree)?;
    items.append(&mut more)?;
    Ok(())
}

// Looks for the blob of a file or a link, where blobs are looked for. A commit of another repository is not.
fn look_for_blob<F: Files>(
    alloc: Global,
    files: &mut F,
    look: Look,
    item: &Item,
) -> Result<(), IndexFault>
    ensures refused { IfErr result (λ e. (look ≡ Look.All) × (item.now.entry.mode ≢ Mode.Commit) × IsOfLook F.honest (F.content files.old) Kind.Blob item.now e) }
    ensures blob { F.honest → OnOk result (look ≡ Look.All → IsBlobIfDue (objects (F.content files.old)) item.now.entry) }
    ensures same { F.content files.new ≡ F.content files.old }
    ensures wear { Wears F.failed F.can_fail F.left files.old files.new (IsErrOf result (IndexFault.Store (StoreFault.Fault Fault.Device))) }
{
    if look == Look::Trees {
        return Ok(());
    }
    if item.entry.mode == Mode::Commit {
        return Ok(());
    }
    find_object(alloc, files, item, Kind::Blob)?;
    Ok(())
}

/// The index of the files of a tree.
pub(crate) fn load<F: Files>(
    alloc: Global,
    files: &mut F,
    look: Look,
    root: &ObjectId,
) -> Result<Index, IndexFault>
    ensures files { F.honest → IfOk result (IsIndexOfTree (objects (F.content files.old)) root.now) }
    ensures reading { F.honest → IfOk result (λ index. ReadsIn look (objects (F.content files.old)) root.now (Ok index)) }
    ensures first { F.honest → IfErr result (λ e. (fault : TreeFault) → tree_fault e ≡ Some fault → ReadsIn look (objects (F.content files.old)) root.now (Err fault)) }
    ensures blobs { F.honest → look ≡ Look.All → IfOk result (λ index. HasBlobs (objects (F.content files.old)) index) }
    ensures refused { IfErr result (IsOfLoadIn look F.honest (F.content files.old) root.now) }
    ensures same { F.content files.new ≡ F.content files.old }
    ensures wear { Wears F.failed F.can_fail F.left files.old files.new (IsErrOf result (IndexFault.Store (StoreFault.Fault Fault.Device))) }
{
    let mut found = Vec::new(alloc);
    let mut items = Vec::new(alloc);
    let (top, mode, id) = (Vec::new(alloc), Mode::Tree, *root);
    items.push(Item {
        path: top,
        entry: IndexEntry { mode, id },
    })?;
    while let Some(item) = items.pop() {
        if item.path.len() > MAX_PATH {
            return Err(IndexFault::BadPath);
        }
        if item.entry.mode == Mode::Tree {
            open_folder(alloc, files, &mut items, &item)?;
        } else {
            look_for_blob(alloc, files, look, &item)?;
            let Item { path, entry } = item;
            let (mode, id) = (entry.mode, entry.id.named());
            found.push((path, IndexEntry { mode, id }))?;
        }
    }
    let index = Index::from_files(alloc, found)?;
    Ok(index)
}
