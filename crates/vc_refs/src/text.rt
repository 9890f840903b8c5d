// The texts of ref files.
ghost use Rattle.std.specs.Prelude.{◌≡◌, IfOk, string_bytes};
ghost use Rattle.vc_refs.specs.RefFile.{without_lf, id_in, id_text};

use std::alloc::{AllocError, Global};
use vc_object::ObjectId;

// The bytes without the LF that they may end with.
pub(crate) fn without_lf(bytes: &[u8]) -> &[u8]
    ensures { result.now ≡ without_lf bytes.now }
{
    bytes.strip_suffix(b"\n").unwrap_or(bytes)
}

// The id that the text of a ref's file spells.
pub(crate) fn id_in(bytes: &[u8]) -> Option<ObjectId>
    ensures { result ≡ id_in bytes.now }
{
    ObjectId::from_hex(without_lf(bytes))
}

// The text of the file of a ref with this id.
pub(crate) fn id_text(alloc: Global, id: &ObjectId) -> Result<String, AllocError>
    ensures { IfOk result (λ text. string_bytes text ≡ id_text id.now) }
{
    let mut text = hex::encode(alloc, id.0.as_slice())?;
    text.push('\n')?;
    Ok(text)
}
