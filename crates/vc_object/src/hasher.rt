//! The name of an object whose body comes in pieces.
ghost use Rattle.std.specs.Prelude.{◌≡◌, ◌++◌, [], ℕ, List, length, true};
ghost use Rattle.vc_object.specs.Object.{object_name};
ghost use Rattle.vc_object.specs.ObjectId.{is_id};
ghost use Rattle.vc_object.specs.NameHasher.{HasTaken};
ghost use Rattle.vc_object.specs.declared.kind.Kind.{Kind};

use crate::digits::write_decimal;
use crate::id::ObjectId;
use crate::kind::Kind;
use sha1::Sha1;

/// Names an object piece by piece: `new` takes the kind and the length of the whole body, `update` each piece in
/// turn, and `finish` gives the name. It takes no memory, however long the body is.
#[derive(Drop)]
pub struct NameHasher {
    hasher: Sha1,
}

impl NameHasher {
    /// The hasher of an object of this kind whose body will have so many bytes.
    pub fn new(kind: Kind, length: usize) -> NameHasher
        ensures { HasTaken result kind length [] }
    {
        let mut place = [0; 20];
        let from = write_decimal(length, &mut place);
        let mut hasher = Sha1::new();
        hasher.update(kind.front());
        hasher.update(&place[from..]);
        hasher.update(b"\0");
        NameHasher { hasher }
    }

    /// Takes the next piece of the body.
    pub fn update(&mut self, piece: &[u8])
        ensures { (kind : Kind) (size : ℕ) (body : List ℕ) → HasTaken self.old kind size body → HasTaken self.new kind size (body ++ piece.now) }
    {
        self.hasher.update(piece);
    }

    /// The name of the object. It is right where the pieces had together the length that `new` was told.
    pub fn finish(self) -> ObjectId
        ensures name { (kind : Kind) (body : List ℕ) → HasTaken self kind (length body) body → result ≡ object_name kind body }
        ensures valid { is_id result ≡ true }
    {
        let NameHasher { hasher } = self;
        ObjectId(hasher.finalize())
    }
}
