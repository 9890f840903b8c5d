//! The note of a checkout that is not done: the tree that it brings. It is a file in the store's folder, which is there from before
//! the first change of the work tree until after the last one of the store.
ghost use Rattle.std.specs.Prelude.{◌≡◌, IfOk, OnErr, OnOk, IsErrOf, Some};
ghost use Rattle.vc_files.specs.Failures.{Wears, Writes};
ghost use Rattle.vc_refs.specs.RefFile.{id_in, without_lf};
ghost use Rattle.vc_working.specs.Begun.{begun_in, with_note, without_note};

use std::alloc::Global;
use vc_files::{Fault, Files};
use vc_object::ObjectId;

/// The path of the note.
const NOTE: &str = "begun-checkout";

/// What `status` tells a person of a checkout that was begun and is not done.
pub const CUT_SHORT: &str =
    "a checkout was cut short, and files may be of either tree: the next checkout mends them";

// The text without the LF that it may end with.
fn without_lf(text: &[u8]) -> &[u8]
    ensures { result.now ≡ without_lf text.now }
{
    text.strip_suffix(b"\n").unwrap_or(text)
}

// The id that the text spells.
fn id_in(text: &[u8]) -> Option<ObjectId>
    ensures { result ≡ id_in text.now }
{
    ObjectId::from_hex(without_lf(text))
}

/// The tree that a checkout began to bring. There is none if the note isn't there, or is no id.
pub fn begun<F: Files>(alloc: Global, files: &mut F) -> Result<Option<ObjectId>, Fault>
    ensures found { F.honest → IfOk result (λ tree. tree ≡ begun_in (F.content files.old)) }
    ensures same { F.content files.new ≡ F.content files.old }
    ensures wear { Wears F.failed F.can_fail F.left files.old files.new (IsErrOf result Fault.Device) }
{
    let Some(text) = files.get(alloc, NOTE)? else {
        return Ok(None);
    };
    Ok(id_in(&text))
}

/// Notes that a checkout begins to bring a tree, in place of another note.
pub fn begin<F: Files>(alloc: Global, files: &mut F, tree: &ObjectId) -> Result<(), Fault>
    ensures noted { F.honest → OnOk result (F.content files.new ≡ with_note (F.content files.old) tree.now) }
    ensures says { F.honest → OnOk result (begun_in (F.content files.new) ≡ Some tree.now) }
    ensures err { F.honest → OnErr result (F.content files.new ≡ F.content files.old) }
    ensures wear { Writes F.honest F.content F.failed F.can_fail F.left files.old files.new (IsErrOf result Fault.Device) }
{
    let mut text = Vec::new(alloc);
    text.extend_from_slice(&tree.named().to_hex())?;
    text.push(b'\n')?;
    files.put(alloc, NOTE, &text)?;
    Ok(())
}

/// Takes the note away, after the checkout.
pub fn end<F: Files>(alloc: Global, files: &mut F) -> Result<(), Fault>
    ensures gone { F.honest → OnOk result (F.content files.new ≡ without_note (F.content files.old)) }
    ensures err { F.honest → OnErr result (F.content files.new ≡ F.content files.old) }
    ensures wear { Writes F.honest F.content F.failed F.can_fail F.left files.old files.new (IsErrOf result Fault.Device) }
{
    files.remove(alloc, NOTE)?;
    Ok(())
}
