//! Ids in lines of text.

ghost use Rattle.std.specs.Prelude.{◌≡◌};
ghost use Rattle.vc_fetch.specs.Ids.{id_of, id_line, first_id_line};

use hex::FromHex;
use vc_object::ObjectId;
use vc_pkt::without_lf;

/// The id that forty digits of either case write.
#[tactic(auto, unfolding(crate::specs::Ids::id_of))]
pub fn id_of(digits: &[u8]) -> Option<ObjectId>
    ensures { result ≡ id_of digits.now }
{
    match <[u8; 20] as FromHex>::from_hex(digits) {
        Ok(bytes) => Some(ObjectId(bytes)),
        Err(_) => None,
    }
}

/// The id of a line of this word and an id.
#[tactic(auto, unfolding(crate::specs::Ids::id_line))]
pub fn id_line(word: &[u8], line: &[u8]) -> Option<ObjectId>
    ensures { result ≡ id_line word.now line.now }
{
    let digits = without_lf(line).strip_prefix(word)?;
    id_of(digits)
}

/// The same of a line that may have a space and more after the id.
#[tactic(auto, unfolding(crate::specs::Ids::first_id_line))]
pub(crate) fn first_id_line(word: &[u8], line: &[u8]) -> Option<ObjectId>
    ensures { result ≡ first_id_line word.now line.now }
{
    let text = without_lf(line).strip_prefix(word)?;
    let (digits, tail) = text.split_at_checked(40)?;
    let id = id_of(digits)?;
    match tail {
        [] => Some(id),
        [b' ', ..] => Some(id),
        _ => None,
    }
}
