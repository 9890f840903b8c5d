//! The name of an object: the SHA-1 of its bytes.

ghost use Rattle.std.specs.Prelude.{◌≡◌, true};
ghost use Rattle.vc_object.specs.Object.{object_name};
ghost use Rattle.vc_object.specs.ObjectId.{is_id};

use crate::hasher::NameHasher;
use crate::id::ObjectId;
use crate::kind::Kind;

/// The name of the object of this kind and body, whether or not the body is in the kind's grammar.
///
/// The header and the body go to the digest as they are: nothing is copied, and no memory is taken.
pub fn name_of(kind: Kind, body: &[u8]) -> ObjectId
    ensures name { result ≡ object_name kind body.now }
    ensures valid { is_id result ≡ true }
{
    let mut hasher = NameHasher::new(kind, body.len());
    hasher.update(body);
    hasher.finish()
}
