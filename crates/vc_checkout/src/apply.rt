// Bringing a work tree to the files of a tree.
ghost use Rattle.std.specs.Prelude.{◌≡◌, ◌⊎◌, ℕ, List, None, IfErr, OnOk, OnErr, IsUtf8};
ghost use Rattle.std.specs.FinMap as maps;
ghost use Rattle.vc_files.specs.Failures.{Wears, unstopped};
ghost use Rattle.vc_object_map.specs.Store.{objects};
ghost use Rattle.vc_index.specs.IndexMap.{IsIndex};
ghost use Rattle.vc_index.specs.Loading.{IsBlobIfDue};
ghost use Rattle.vc_index.specs.Path.{IsAbove};
ghost use Rattle.vc_checkout.specs.Blobs.{HasDueBlob, HasDueBlobs};
ghost use Rattle.vc_checkout.specs.CheckedOut.{file_of, left_of};
ghost use Rattle.vc_checkout.specs.CheckoutFault.{IsFault, IsOfCheckout, TellsDevice};
ghost use Rattle.vc_checkout.specs.Devices.{WearsEither};
ghost use Rattle.vc_checkout.specs.FoldersAfter.{GivesWayBy, IsFolderFor, IsLeftBy, IsLink, IsMadeBy, TakesPlace};
ghost use Rattle.vc_checkout.specs.Holding.{HoldsDue};
ghost use Rattle.vc_checkout.specs.Refusal.{IsClear, IsDue};
ghost use Rattle.vc_checkout.specs.Steps.{Begins, Brings, BringsPart, ChangesFolders, Clears, Does, EndsFolders, GivesWayAt, IsAllowed, IsClearedAt, IsLeftAt, IsLinkedAt, IsMadeAt, IsUnwritten, IsWrittenAt, LosesFolders, MayChangeFolders, MayClear, MayDo, MayLoseFolders, MayWriteDue, WritesDue};
ghost use Rattle.vc_checkout.specs.WorkTree.{HasTextPaths};

use crate::CheckoutFault;
use crate::blobs::{blob_of, check_blobs};
use crate::clear::check_all;
use crate::holding::check_held;
use std::alloc::Global;
use std::str;
use vc_files::Files;
use vc_index::{Index, IndexCursor, IndexEntry};
use vc_object::Mode;
use vc_work_tree::{WorkTree, folder_of};

// Takes the folders above a path away, from the lowest on, as long as nothing is in them.
fn remove_empty_above<T: WorkTree>(
    alloc: Global,
    work: &mut T,
    path: &str,
) -> Result<(), CheckoutFault>
    ensures fault { IfErr result IsFault }
    ensures same { T.content work.new ≡ T.content work.old }
    ensures folders { T.honest → OnOk result (LosesFolders T.content T.folders (λ one. IsAbove one path.now) work.old work.new) }
    ensures between { T.honest → MayLoseFolders T.content T.folders (λ one. IsAbove one path.now) work.old work.new }
    ensures wear { Wears T.failed T.can_fail unstopped work.old work.new (TellsDevice result) }
{
    let mut below = path;
    while let Some(folder) = folder_of(below) {
        if !work.remove_folder(alloc, folder)? {
            return Ok(());
        }
        below = folder;
    }
    Ok(())
}

// Takes away the file of an entry, or the folder of a commit of another repository if it is empty.
fn take_out<T: WorkTree>(
    alloc: Global,
    work: &mut T,
    path: &[u8],
    entry: IndexEntry,
) -> Result<(), CheckoutFault>
    requires { T.honest → HasTextPaths (T.content work.old) }
    ensures done { T.honest → OnOk result (Does T.content (λ file after. after ≡ left_of entry.mode file) path.now work.old work.new) }
    ensures begun { T.honest → OnErr result (MayDo T.content (λ file after. after ≡ left_of entry.mode file) path.now work.old work.new) }
    ensures fault { IfErr result IsFault }
    ensures folders { T.honest → OnOk result (LosesFolders T.content T.folders (λ one. IsUtf8 path.now × IsFolderFor entry path.now one) work.old work.new) }
    ensures between { T.honest → MayLoseFolders T.content T.folders (λ one. IsUtf8 path.now × IsFolderFor entry path.now one) work.old work.new }
    ensures wear { Wears T.failed T.can_fail unstopped work.old work.new (TellsDevice result) }
{
    let Ok(text) = str::from_utf8(path) else {
        return Ok(());
    };
    if entry.mode == Mode::Commit {
        work.remove_folder(alloc, text)?;
    } else {
        work.remove(alloc, text)?;
    }
    remove_empty_above(alloc, work, text)?;
    Ok(())
}

// Takes away what the index has at a path and the tree lacks.
fn clear_path<T: WorkTree>(
    alloc: Global,
    work: &mut T,
    index: &mut IndexCursor<'_>,
    tree: &mut IndexCursor<'_>,
    path: &[u8],
) -> Result<(), CheckoutFault>
    requires { T.honest → HasTextPaths (T.content work.old) }
    ensures done { T.honest → OnOk result (Does T.content (IsClearedAt index.old tree.old path.now) path.now work.old work.new) }
    ensures begun { T.honest → OnErr result (MayDo T.content (IsClearedAt index.old tree.old path.now) path.now work.old work.new) }
    ensures fault { IfErr result IsFault }
    ensures folders { T.honest → OnOk result (LosesFolders T.content T.folders (IsLeftAt index.old tree.old path.now) work.old work.new) }
    ensures between { T.honest → MayLoseFolders T.content T.folders (IsLeftAt index.old tree.old path.now) work.old work.new }
    ensures cursors { (index.new ≡ index.old) × (tree.new ≡ tree.old) }
    ensures wear { Wears T.failed T.can_fail unstopped work.old work.new (TellsDevice result) }
{
    let Some(old) = index.get(path) else {
        return Ok(());
    };
    if tree.get(path).is_some() {
        return Ok(());
    }
    take_out(alloc, work, path, old)?;
    Ok(())
}

// Takes away all that the index has and the tree lacks.
fn clear_all<T: WorkTree>(
    alloc: Global,
    work: &mut T,
    index: &Index,
    tree: &Index,
) -> Result<(), CheckoutFault>
    requires { T.honest → HasTextPaths (T.content work.old) }
    ensures done { T.honest → OnOk result (Clears T.content index.now tree.now work.old work.new) }
    ensures begun { T.honest → MayClear T.content index.now tree.now work.old work.new }
    ensures fault { IfErr result IsFault }
    ensures folders { T.honest → OnOk result (LosesFolders T.content T.folders (IsLeftBy index.now tree.now) work.old work.new) }
    ensures between { T.honest → MayLoseFolders T.content T.folders (IsLeftBy index.now tree.now) work.old work.new }
    ensures wear { Wears T.failed T.can_fail unstopped work.old work.new (TellsDevice result) }
{
    let (mut old, mut new) = (IndexCursor::new(index), IndexCursor::new(tree));
    for (path, _) in index.iter() {
        clear_path(alloc, work, &mut old, &mut new, path)?;
    }
    Ok(())
}

// Writes the file of an entry, or makes the empty folder of a commit of another repository.
fn put_in<T: WorkTree, F: Files>(
    alloc: Global,
    work: &mut T,
    files: &mut F,
    path: &[u8],
    entry: IndexEntry,
) -> Result<(), CheckoutFault>
    requires text { IsUtf8 path.now }
    requires blob { F.honest → IsBlobIfDue (objects (F.content files.old)) entry }
    ensures done { T.honest → F.honest → OnOk result (Does T.content (λ _ after. after ≡ file_of (objects (F.content files.old)) entry.mode entry.id) path.now work.old work.new) }
    ensures begun { T.honest → F.honest → OnErr result (MayDo T.content (λ _ after. after ≡ file_of (objects (F.content files.old)) entry.mode entry.id) path.now work.old work.new) }
    ensures refused { IfErr result (λ e. F.honest → IsFault e) }
    ensures same { F.content files.new ≡ F.content files.old }
    ensures folders { T.honest → OnOk result (ChangesFolders T.content T.folders (IsLink entry path.now) (TakesPlace entry path.now) work.old work.new) }
    ensures between { T.honest → MayChangeFolders T.content T.folders (IsFolderFor entry path.now) (TakesPlace entry path.now) work.old work.new }
    ensures wear { WearsEither T.failed T.can_fail unstopped F.failed F.can_fail F.left work.old work.new files.old files.new (TellsDevice result) }
{
    let Ok(text) = str::from_utf8(path) else {
        unreachable!();
    };
    if entry.mode == Mode::Commit {
        work.remove(alloc, text)?;
        work.make_folder(alloc, text)?;
        return Ok(());
    }
    let body = blob_of(alloc, files, path, &entry.id)?;
    work.write(alloc, text, &body)?;
    Ok(())
}

// Writes what is due at a path.
fn write_path<T: WorkTree, F: Files>(
    alloc: Global,
    work: &mut T,
    files: &mut F,
    index: &mut IndexCursor<'_>,
    tree: &mut IndexCursor<'_>,
    path: &[u8],
) -> Result<(), CheckoutFault>
    requires text { IsDue (maps.get index.old path.now) (maps.get tree.old path.now) → IsUtf8 path.now }
    requires blob { F.honest → HasDueBlob (objects (F.content files.old)) (maps.get index.old path.now) (maps.get tree.old path.now) }
    ensures done { T.honest → F.honest → OnOk result (Does T.content (IsWrittenAt (objects (F.content files.old)) index.old tree.old path.now) path.now work.old work.new) }
    ensures begun { T.honest → F.honest → OnErr result (MayDo T.content (IsWrittenAt (objects (F.content files.old)) index.old tree.old path.now) path.now work.old work.new) }
    ensures refused { IfErr result (λ e. F.honest → IsFault e) }
    ensures same { (F.content files.new ≡ F.content files.old) × (index.new ≡ index.old) × (tree.new ≡ tree.old) }
    ensures folders { T.honest → OnOk result (ChangesFolders T.content T.folders (IsLinkedAt index.old tree.old path.now) (GivesWayAt index.old tree.old path.now) work.old work.new) }
    ensures between { T.honest → MayChangeFolders T.content T.folders (IsMadeAt index.old tree.old path.now) (GivesWayAt index.old tree.old path.now) work.old work.new }
    ensures due { OnOk result (((maps.get index.old path.now ≡ maps.get tree.old path.now) ⊎ (maps.get tree.old path.now ≡ None)) ⊎ IsDue (maps.get index.old path.now) (maps.get tree.old path.now)) }
    ensures wear { WearsEither T.failed T.can_fail unstopped F.failed F.can_fail F.left work.old work.new files.old files.new (TellsDevice result) }
{
    let Some(new) = tree.get(path) else {
        return Ok(());
    };
    if index.get(path) == Some(new) {
        return Ok(());
    }
    put_in(alloc, work, files, path, new)?;
    Ok(())
}

// Writes all that is due.
fn write_all<T: WorkTree, F: Files>(
    alloc: Global,
    work: &mut T,
    files: &mut F,
    index: &Index,
    tree: &Index,
) -> Result<(), CheckoutFault>
    requires text { (path : List ℕ) → IsDue (maps.get index.now path) (maps.get tree.now path) → IsUtf8 path }
    requires blobs { F.honest → HasDueBlobs (objects (F.content files.old)) index.now tree.now }
    ensures done { T.honest → F.honest → OnOk result (WritesDue T.content (objects (F.content files.old)) index.now tree.now work.old work.new) }
    ensures begun { T.honest → F.honest → MayWriteDue T.content (objects (F.content files.old)) index.now tree.now work.old work.new }
    ensures refused { IfErr result (λ e. F.honest → IsFault e) }
    ensures same { F.content files.new ≡ F.content files.old }
    ensures folders { T.honest → F.honest → OnOk result (EndsFolders T.content T.folders index.now tree.now work.old work.new) }
    ensures between { T.honest → MayChangeFolders T.content T.folders (IsMadeBy index.now tree.now) (GivesWayBy index.now tree.now) work.old work.new }
    ensures index { IsIndex tree.now }
    ensures wear { WearsEither T.failed T.can_fail unstopped F.failed F.can_fail F.left work.old work.new files.old files.new (TellsDevice result) }
{
    let (mut old, mut new) = (IndexCursor::new(index), IndexCursor::new(tree));
    for (path, _) in tree.iter() {
        write_path(alloc, work, files, &mut old, &mut new, path)?;
    }
    Ok(())
}

/// Whether a checkout from the files of an index to those of another one may begin: nothing is written. What refuses it, and in
/// which order, is what [`checkout`] says.
pub fn check<T: WorkTree, F: Files>(
    alloc: Global,
    work: &mut T,
    files: &mut F,
    index: &Index,
    tree: &Index,
) -> Result<(), CheckoutFault>
    ensures allowed { T.honest → F.honest → OnOk result (IsAllowed (T.can_hold work.old) (objects (F.content files.old)) index.now tree.now (T.content work.old)) }
    ensures holds { OnOk result (HoldsDue (T.can_hold work.old) index.now tree.now) }
    ensures blobs { F.honest → OnOk result (HasDueBlobs (objects (F.content files.old)) index.now tree.now) }
    ensures clear { T.honest → OnOk result ((path : List ℕ) → IsClear index.now tree.now (T.content work.old) path) }
    ensures text { OnOk result ((path : List ℕ) → IsDue (maps.get index.now path) (maps.get tree.now path) → IsUtf8 path) }
    ensures texts { T.honest → OnOk result (HasTextPaths (T.content work.old)) }
    ensures refused { F.honest → IfErr result (IsOfCheckout T.honest (T.can_hold work.old) (T.content work.old) (F.content files.old) index.now tree.now) }
    ensures unwritten { IsUnwritten T.content T.folders T.left work.old work.new }
    ensures files { F.content files.new ≡ F.content files.old }
    ensures wear { WearsEither T.failed T.can_fail T.left F.failed F.can_fail F.left work.old work.new files.old files.new (TellsDevice result) }
{
    check_held(alloc, work, index, tree)?;
    check_blobs(alloc, files, index, tree)?;
    check_all(alloc, work, index, tree)?;
    Ok(())
}

/// Does a checkout that [`check`] has allowed.
pub fn bring<T: WorkTree, F: Files>(
    alloc: Global,
    work: &mut T,
    files: &mut F,
    index: &Index,
    tree: &Index,
) -> Result<(), CheckoutFault>
    requires clear { T.honest → (path : List ℕ) → IsClear index.now tree.now (T.content work.old) path }
    requires blobs { F.honest → HasDueBlobs (objects (F.content files.old)) index.now tree.now }
    requires text { (path : List ℕ) → IsDue (maps.get index.now path) (maps.get tree.now path) → IsUtf8 path }
    requires texts { T.honest → HasTextPaths (T.content work.old) }
    ensures brought { T.honest → F.honest → OnOk result (Brings T.content T.folders (objects (F.content files.old)) index.now tree.now work.old work.new) }
    ensures refused { F.honest → IfErr result IsFault }
    ensures begun { T.honest → F.honest → OnErr result (Begins T.content T.folders (objects (F.content files.old)) index.now tree.now work.old work.new) }
    ensures files { F.content files.new ≡ F.content files.old }
    ensures wear { WearsEither T.failed T.can_fail unstopped F.failed F.can_fail F.left work.old work.new files.old files.new (TellsDevice result) }
{
    clear_all(alloc, work, index, tree)?;
    write_all(alloc, work, files, index, tree)?;
    Ok(())
}

/// Brings the work tree from the files of an index to those of another one, such as `Index::list_tree` answers of a tree.
///
/// A path of the tree is due if the index has nothing there, or something else. Before the first write, over the paths of
/// the tree in the order of their bytes: 60 is a due path that the work tree can't hold. Then, in the same order: 40 and 63
/// are a file or a link that is due and whose blob is absent or no blob, 12 one whose blob is damaged; no other blob is
/// opened. Then, over the paths of both in that order, and at each path in this
/// one: 72 is a due path that is not UTF-8; 70 is a file that the index has and the tree lacks or has otherwise, and whose
/// content is neither of the two; 71 is a file that the index lacks, or that lies where it has a commit of another
/// repository, in the place of a due path: at the path with another content, above it or below it. Contents are compared
/// by the names that they have as blobs. Where all is clear, files of the index that the tree lacks are removed, then what
/// is due is written: a link as a file that holds its text, an executable without the right to be run, a commit of another
/// repository as an empty folder. A folder that an entry which goes lies in, or that is its own, goes if nothing is left in
/// it; every other folder stays, but where a file is written in its place. What isn't due stays as it is.
///
/// All is looked at before the first write, so what refuses the checkout leaves the work tree with none made. A fault may
/// leave any part of this done, but only where all was clear; each path then has its old file or its new one, no file lies
/// below another one where none did, and no folder is gone or made that would not have been.
pub fn checkout<T: WorkTree, F: Files>(
    alloc: Global,
    work: &mut T,
    files: &mut F,
    index: &Index,
    tree: &Index,
) -> Result<(), CheckoutFault>
    ensures brought { T.honest → F.honest → OnOk result (Brings T.content T.folders (objects (F.content files.old)) index.now tree.now work.old work.new) }
    ensures holds { OnOk result (HoldsDue (T.can_hold work.old) index.now tree.now) }
    ensures blobs { F.honest → OnOk result (HasDueBlobs (objects (F.content files.old)) index.now tree.now) }
    ensures clear { T.honest → OnOk result ((path : List ℕ) → IsClear index.now tree.now (T.content work.old) path) }
    ensures refused { F.honest → IfErr result (IsOfCheckout T.honest (T.can_hold work.old) (T.content work.old) (F.content files.old) index.now tree.now) }
    ensures unchanged { F.honest → IfErr result (λ e. IsFault e ⊎ IsUnwritten T.content T.folders T.left work.old work.new) }
    ensures begun { T.honest → F.honest → OnErr result (BringsPart T.content T.folders T.left T.can_hold (objects (F.content files.old)) index.now tree.now work.old work.new) }
    ensures files { F.content files.new ≡ F.content files.old }
    ensures wear { WearsEither T.failed T.can_fail unstopped F.failed F.can_fail F.left work.old work.new files.old files.new (TellsDevice result) }
{
    check(alloc, work, files, index, tree)?;
    bring(alloc, work, files, index, tree)?;
    Ok(())
}
