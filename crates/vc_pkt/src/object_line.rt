//! The line that begins an object in a stream.

ghost use Rattle.std.specs.Prelude.{◌≡◌};
ghost use Rattle.std.specs.Option.{option_map};
ghost use Rattle.vc_pkt.specs.ObjectLine.{kind_at, size_of, object_line};

use crate::text::without_lf;
use vc_object::{Kind, MAX_BODY};

/// The kind that the text names, and what follows it.
#[tactic(auto, unfolding(crate::specs::ObjectLine::kind_at))]
fn kind_at(text: &[u8]) -> Option<(Kind, &[u8])>
    ensures { option_map (λ found. (found.0, found.1.now)) result ≡ kind_at text.now }
{
    if let Some(rest) = text.strip_prefix(b"obj blob ") {
        return Some((Kind::Blob, rest));
    }
    if let Some(rest) = text.strip_prefix(b"obj tree ") {
        return Some((Kind::Tree, rest));
    }
    if let Some(rest) = text.strip_prefix(b"obj commit ") {
        return Some((Kind::Commit, rest));
    }
    if let Some(rest) = text.strip_prefix(b"obj tag ") {
        return Some((Kind::Tag, rest));
    }
    None
}

/// The size that decimal digits write, or one above the limit in place of a greater one.
fn size_of(digits: &[u8]) -> Option<usize>
    ensures { result ≡ size_of digits.now }
{
    if digits.is_empty() || (digits.len() > 1 && digits[0] == b'0') {
        return None;
    }
    let mut size = 0;
    'digits: for d in digits {
        if *d < b'0' || *d > b'9' {
            return None;
        }
        size = (size * 10 + (*d - b'0') as usize).min(MAX_BODY + 1);
    }
    Some(size)
}

/// The kind and the size that the line gives, a size above the limit as one above it.
#[tactic(auto, unfolding(crate::specs::ObjectLine::object_line))]
pub(crate) fn object_line(line: &[u8]) -> Option<(Kind, usize)>
    ensures { result ≡ object_line line.now }
{
    let (kind, digits) = kind_at(without_lf(line))?;
    let size = size_of(digits)?;
    Some((kind, size))
}
