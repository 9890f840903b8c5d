//! The step at the front of a text.

ghost use Rattle.std.specs.Prelude.{◌≡◌};
ghost use Rattle.vc_expression.specs.Steps.{step_at, braced_at, counted_at};
ghost use Rattle.vc_expression.specs.Reading.{seen};
ghost use Rattle.std.specs.Option.{option_map};

use crate::digits::{number_of, split_digits};
use crate::token::Step;
use vc_object::Kind;

/// What stands at the front of a text.
pub(crate) enum Reading<'a> {
    /// A step, and what follows it.
    Found(Step, &'a [u8]),
    /// No step begins here.
    Other,
    /// A step begins here and goes wrong.
    Fault,
}

/// A step in braces, behind the opening one.
fn braced(text: &[u8]) -> Reading<'_>
    ensures { seen result ≡ braced_at text.now }
{
    if let Some(rest) = text.strip_prefix(b"}") {
        return Reading::Found(Step::Peel, rest);
    }
    if let Some(rest) = text.strip_prefix(b"commit}") {
        return Reading::Found(Step::PeelTo(Kind::Commit), rest);
    }
    if let Some(rest) = text.strip_prefix(b"tree}") {
        return Reading::Found(Step::PeelTo(Kind::Tree), rest);
    }
    if let Some(rest) = text.strip_prefix(b"blob}") {
        return Reading::Found(Step::PeelTo(Kind::Blob), rest);
    }
    if let Some(rest) = text.strip_prefix(b"tag}") {
        return Reading::Found(Step::PeelTo(Kind::Tag), rest);
    }
    Reading::Fault
}

/// The number at the front, 1 if no digit stands there, and what follows it; nothing for too many digits.
pub(crate) fn counted(text: &[u8]) -> Option<(u32, &[u8])>
    ensures { option_map (λ found. (found.0, found.1.now)) result ≡ counted_at text.now }
{
    let (digits, rest) = split_digits(text);
    if digits.is_empty() {
        return Some((1, rest));
    }
    if digits.len() > 9 {
        return None;
    }
    Some((number_of(digits), rest))
}

/// The step at the front.
pub(crate) fn read_step(text: &[u8]) -> Reading<'_>
    ensures { seen result ≡ step_at text.now }
{
    match text {
        [b'^', b'@' | b'!' | b'-', ..] => Reading::Other,
        [b'^', b'{', rest @ ..] => braced(rest),
        [b'^', rest @ ..] => match counted(rest) {
            Some((n, rest)) => Reading::Found(Step::Parent(n), rest),
            None => Reading::Fault,
        },
        [b'~', rest @ ..] => match counted(rest) {
            Some((n, rest)) => Reading::Found(Step::Ancestor(n), rest),
            None => Reading::Fault,
        },
        _ => Reading::Other,
    }
}
