//! Object ids: twenty bytes, written as forty hex digits.

ghost use Rattle.std.specs.Prelude.{◌≡◌, ◌↔◌, true, length, Some, IsSome, IfSome};
ghost use Rattle.std.specs.List.{AllPass, IsDistinct};
ghost use Rattle.hex.specs.Hex.{decode_of, encode_lower, is_hex_digit};
ghost use Rattle.vc_object.specs.Lines.{IsId, lower_id};
ghost use Rattle.vc_object.specs.declared.id.ObjectId.{ObjectId};
ghost use Rattle.vc_object.specs.ObjectId.{is_id, id_eq, IsSortedByName, HasSameNames};

use hex::FromHex;

/// The name of an object, or what a ref or a message says is one. Ids are ordered by their bytes.
#[derive(Clone, Copy, Debug, PartialEq, Eq, PartialOrd, Ord, Hash)]
pub struct ObjectId(pub [u8; 20]);

impl ObjectId {
    /// The id of zeros, which stands for no object.
    pub const ZERO: ObjectId = ObjectId([0; 20]);

    /// The id that forty hex digits of either case write; none for any other text.
    pub fn from_hex(text: &[u8]) -> Option<ObjectId>
        ensures value { IfSome result (λ id. decode_of text.now ≡ Ok id.0) }
        ensures found { IsSome result ↔ ((length text.now ≡ 40) × AllPass is_hex_digit text.now) }
        ensures again { (id : ObjectId) → IsId id → text.now ≡ encode_lower id.0 → result ≡ Some id }
    {
        match <[u8; 20] as FromHex>::from_hex(text) {
            Ok(bytes) => Some(ObjectId(bytes)),
            Err(_) => None,
        }
    }

    /// The id that forty lower-case hex digits write, as objects and the index spell ids; none for any other text.
    #[tactic(auto, unfolding(crate::specs::Lines::lower_id))]
    pub fn from_lower_hex(text: &[u8]) -> Option<ObjectId>
        ensures value { result ≡ lower_id text.now }
        ensures valid { IfSome result (λ id. is_id id ≡ true) }
    {
        let Ok(bytes) = <[u8; 20] as FromHex>::from_hex(text) else {
            return None;
        };
        let id = ObjectId(bytes).named();
        if id.to_hex().as_slice() == text {
            Some(id)
        } else {
            None
        }
    }

    /// The forty hex digits of the id, in lower case.
    pub fn to_hex(self) -> [u8; 40]
        ensures digits { result ≡ encode_lower self.0 }
        ensures id { IsId self }
    {
        let mut text = [0; 40];
        hex::encode_to_slice(self.0, &mut text).unwrap();
        text
    }

    /// The id itself. The caller learns that it is twenty bytes, which an id behind a reference does not tell.
    pub fn named(self) -> ObjectId
        ensures same { result ≡ self }
        ensures valid { is_id self ≡ true }
    {
        ObjectId(self.0)
    }
}

/// Sorts ids by their bytes. They are all different, as those of a set are. Takes no memory.
pub fn sorted_by_name(mut names: Vec<ObjectId>) -> Vec<ObjectId>
    requires distinct { IsDistinct id_eq names.items }
    ensures same_names { HasSameNames names.items result.items }
    ensures sorted { IsSortedByName result.items }
{
    names.sort_unstable();
    names
}
