// Whether the blobs that a checkout writes are there.
ghost use Rattle.std.specs.Prelude.{◌≡◌, Some, IfOk, IfErr, OnOk};
ghost use Rattle.std.specs.FinMap as maps;
ghost use Rattle.vc_files.specs.Failures.{Wears};
ghost use Rattle.vc_object.specs.Decoding.{stored_object};
ghost use Rattle.vc_object_map.specs.Store.{objects};
ghost use Rattle.vc_checkout.specs.Blobs.{BlamesBlob, BlamesBlobs, BlamesDue, HasDueBlob, HasDueBlobs};
ghost use Rattle.vc_checkout.specs.CheckoutFault.{IsFaultOr, TellsDevice};

use crate::CheckoutFault;
use std::alloc::Global;
use vc_files::Files;
use vc_index::{Index, IndexCursor, IndexFault};
use vc_object::{Kind, Mode, ObjectId};

/// The content of the blob of this name, for the file at the path.
pub(crate) fn blob_of<F: Files>(
    alloc: Global,
    files: &mut F,
    path: &[u8],
    id: &ObjectId,
) -> Result<Vec<u8>, CheckoutFault>
    ensures blob { F.honest → IfOk result (λ body. objects (F.content files.old) id.now ≡ Some (stored_object Kind.Blob body.items)) }
    ensures refused { F.honest → IfErr result (IsFaultOr (BlamesBlob (F.content files.old) path.now id.now)) }
    ensures same { F.content files.new ≡ F.content files.old }
    ensures wear { Wears F.failed F.can_fail F.left files.old files.new (TellsDevice result) }
{
    let Some(stored) = vc_store::find(files, alloc, id)? else {
        return Err(CheckoutFault::Index(IndexFault::Missing(*id)));
    };
    if stored.kind != Kind::Blob {
        let path = path.to_vec(alloc)?;
        return Err(CheckoutFault::Index(IndexFault::WrongEntry(path)));
    }
    Ok(stored.body)
}

// Refuses the checkout where a file or a link is due at the path, and its blob is not there.
fn check_due<F: Files>(
    alloc: Global,
    files: &mut F,
    index: &mut IndexCursor<'_>,
    tree: &mut IndexCursor<'_>,
    path: &[u8],
) -> Result<(), CheckoutFault>
    ensures blob { F.honest → OnOk result (HasDueBlob (objects (F.content files.old)) (maps.get index.old path.now) (maps.get tree.old path.now)) }
    ensures refused { F.honest → IfErr result (IsFaultOr (BlamesDue (F.content files.old) (maps.get index.old path.now) (maps.get tree.old path.now) path.now)) }
    ensures same { F.content files.new ≡ F.content files.old }
    ensures cursors { (index.new ≡ index.old) × (tree.new ≡ tree.old) }
    ensures wear { Wears F.failed F.can_fail F.left files.old files.new (TellsDevice result) }
{
    let Some(new) = tree.get(path) else {
        return Ok(());
    };
    if index.get(path) == Some(new) {
        return Ok(());
    }
    if new.mode == Mode::Commit {
        return Ok(());
    }
    blob_of(alloc, files, path, &new.id)?;
    Ok(())
}

/// Refuses the checkout for the first file or link, by the bytes of the paths, that is due and whose blob is not there.
/// No other blob is opened.
pub(crate) fn check_blobs<F: Files>(
    alloc: Global,
    files: &mut F,
    index: &Index,
    tree: &Index,
) -> Result<(), CheckoutFault>
    ensures blobs { F.honest → OnOk result (HasDueBlobs (objects (F.content files.old)) index.now tree.now) }
    ensures refused { F.honest → IfErr result (IsFaultOr (BlamesBlobs (F.content files.old) index.now tree.now)) }
    ensures same { F.content files.new ≡ F.content files.old }
    ensures wear { Wears F.failed F.can_fail F.left files.old files.new (TellsDevice result) }
{
    let (mut old, mut new) = (IndexCursor::new(index), IndexCursor::new(tree));
    for (path, _) in tree.iter() {
        check_due(alloc, files, &mut old, &mut new, path)?;
    }
    Ok(())
}
