//! What comes before an object's body.

ghost use Rattle.std.specs.Prelude.{◌≡◌, ◌≤◌, ◌++◌, ◌∷◌, List, ℕ, length, take, drop, min, MatchResult};
ghost use Rattle.std.specs.List.{AllByRecursion};
ghost use Rattle.vc_object.specs.Kind.{front};
ghost use Rattle.vc_object.specs.Header.{IsDigit, NoDigitFirst, IsSize, number, header, HeaderFault, FrontFault, SizeFault};
ghost use Rattle.vc_object.specs.Object.{oversize};

use crate::bytes::{Start, start_of};
use crate::fault::ObjectFault;
use crate::kind::Kind;

/// own: the bytes that a body has at most, 16 MiB.
pub const MAX_BODY: usize = 16_777_216;

/// How many digits come first.
fn digit_count(text: &[u8]) -> usize
    ensures within { result ≤ length text.now }
    ensures digits { AllByRecursion IsDigit (take result text.now) }
    ensures rest { NoDigitFirst (drop result text.now) }
{
    for (i, x) in text.iter().enumerate() {
        if !(b'0'..=b'9').contains(x) {
            return i;
        }
    }
    text.len()
}

/// The number that digits write, or one above the limit in place of a greater one.
fn number_of(digits: &[u8]) -> usize
    requires { AllByRecursion IsDigit digits.now }
    ensures { result ≡ min (number digits.now) oversize }
{
    let mut number = 0;
    for d in digits {
        number = (number * 10 + (*d - b'0') as usize).min(MAX_BODY + 1);
    }
    number
}

/// The size at the front, or one above the limit, and what follows its NUL.
fn size_at(text: &[u8]) -> Result<(usize, &[u8]), ObjectFault>
    ensures { MatchResult result (λ found. (size : List ℕ) × IsSize size × (found.0 ≡ min (number size) oversize) × (text.now ≡ size ++ 0 ∷ found.1.now)) (SizeFault text.now) }
{
    let (digits, rest) = text.split_at(digit_count(text));
    if digits.len() > 1 && digits[0] == b'0' {
        return Err(ObjectFault::BadHeader);
    }
    if rest.is_empty() {
        return Err(ObjectFault::Cut);
    }
    if digits.is_empty() || rest[0] != 0 {
        return Err(ObjectFault::BadHeader);
    }
    Ok((number_of(digits), &rest[1..]))
}

/// The kind at the front, and what follows its space.
fn kind_at(text: &[u8]) -> Result<(Kind, &[u8]), ObjectFault>
    ensures { MatchResult result (λ found. text.now ≡ front found.0 ++ found.1.now) (FrontFault text.now) }
{
    match start_of(text, Kind::Blob.front()) {
        Start::Whole(rest) => return Ok((Kind::Blob, rest)),
        Start::Begun => return Err(ObjectFault::Cut),
        Start::Other => {}
    }
    match start_of(text, Kind::Tree.front()) {
        Start::Whole(rest) => return Ok((Kind::Tree, rest)),
        Start::Begun => return Err(ObjectFault::Cut),
        Start::Other => {}
    }
    match start_of(text, Kind::Commit.front()) {
        Start::Whole(rest) => return Ok((Kind::Commit, rest)),
        Start::Begun => return Err(ObjectFault::Cut),
        Start::Other => {}
    }
    match start_of(text, Kind::Tag.front()) {
        Start::Whole(rest) => Ok((Kind::Tag, rest)),
        Start::Begun => Err(ObjectFault::Cut),
        Start::Other => Err(ObjectFault::BadHeader),
    }
}

/// The kind and the size that the header gives, and what follows it. A size above the limit is given
/// as one above it.
pub(crate) fn header_of(bytes: &[u8]) -> Result<(Kind, usize, &[u8]), ObjectFault>
    ensures { MatchResult result (λ found. (size : List ℕ) × IsSize size × (found.1 ≡ min (number size) oversize) × (bytes.now ≡ header found.0 size ++ found.2.now)) (HeaderFault bytes.now) }
{
    let (kind, rest) = kind_at(bytes)?;
    let (size, body) = size_at(rest)?;
    Ok((kind, size, body))
}
