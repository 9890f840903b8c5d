//! The name of a blob that is read in pieces: it takes the memory of one piece, however long the blob is.
ghost use Rattle.std.specs.Prelude.{◌≡◌, ◌<◌, length, IfSome, IfOk, IfErr, OnOk};
ghost use Rattle.vc_object.specs.Object.{object_name};
ghost use Rattle.vc_cli.specs.Failure.{IsFault};
ghost use Rattle.vc_object.specs.declared.kind.Kind.TheVariants.{Blob};

use std::alloc::{AllocError, Global};
use std::io::Read;
use vc_cli::Failure;
use vc_files::Fault;
use vc_object::{Kind, NameHasher, ObjectId};

/// Bytes that are read at once.
const PIECE: usize = 131_072;

/// The name of the blob that the input is, where the input has as many bytes as was said. Where it has more or
/// fewer, it changed while it was read, and that is a fault of the device.
pub fn name_pieces<I: Read + Drop>(
    alloc: Global,
    input: I,
    size: usize,
) -> Result<ObjectId, Failure>
    ensures name { IfOk result (λ id. IfSome (I.remaining input) (λ body. id ≡ object_name Blob body)) }
    ensures length { OnOk result (IfSome (I.remaining input) (λ body. length body ≡ size)) }
    ensures fault { IfErr result IsFault }
{
    let mut piece = piece_buffer(alloc)?;
    let id = hash_pieces(input, &mut piece, size)?;
    Ok(id)
}

// Reads piece by piece into the buffer, and hashes each.
fn hash_pieces<I: Read + Drop>(
    mut input: I,
    piece: &mut [u8],
    size: usize,
) -> Result<ObjectId, Failure>
    requires { 0 < length piece.old }
    ensures name { IfOk result (λ id. IfSome (I.remaining input) (λ body. id ≡ object_name Blob body)) }
    ensures length { OnOk result (IfSome (I.remaining input) (λ body. length body ≡ size)) }
    ensures fault { IfErr result IsFault }
{
    let mut hasher = NameHasher::new(Kind::Blob, size);
    let mut left = size;
    for _ in 0..u64::MAX {
        let count = input.read(piece)?;
        if count == 0 {
            if left == 0 {
                return Ok(hasher.finish());
            }
            return Err(Failure::Fault(Fault::Device));
        }
        if left < count {
            return Err(Failure::Fault(Fault::Device));
        }
        hasher.update(&piece[..count]);
        left -= count;
    }
    Err(Failure::Fault(Fault::Device))
}

// Room for one piece.
fn piece_buffer(alloc: Global) -> Result<Vec<u8>, AllocError>
    ensures { IfOk result (λ piece. 0 < length piece.items) }
{
    vec![in alloc; 0u8; PIECE]
}
