//! How a term of a set begins, and how it ends behind a base and its steps.

ghost use Rattle.std.specs.Prelude.{◌≡◌};
ghost use Rattle.std.specs.Option.{option_map};
ghost use Rattle.vc_expression.specs.SetReading.{behind_at, dots_at, front_at, since_at};
ghost use Rattle.vc_expression.specs.Steps.{counted_at};
ghost use Rattle.vc_expression.specs.BehindView.{behind_view, front_view};

use crate::step::counted;

/// The dots of a range.
#[derive(Clone, Copy)]
pub(crate) enum Dots {
    Two,
    Three,
}

/// The beginning of a term, and what follows it.
pub(crate) enum Prefix<'a> {
    /// `^`
    Excludes(&'a [u8]),
    /// `..` or `...`
    Dots(Dots, &'a [u8]),
    /// A base has to stand here.
    Base,
}

/// The end of a term, and what follows it.
pub(crate) enum Suffix<'a> {
    /// `^@`
    Parents(&'a [u8]),
    /// `^!`
    Only(&'a [u8]),
    /// `^-` and a number
    Since(u32, &'a [u8]),
    /// `..` or `...`
    Dots(Dots, &'a [u8]),
    /// No end of a term begins here.
    Nothing,
    /// One begins here and goes wrong.
    Fault,
}

/// The dots at the front, and what follows them. A third dot belongs to them.
fn dots_at(text: &[u8]) -> Option<(Dots, &[u8])>
    ensures { option_map (λ found. (found.0, found.1.now)) result ≡ dots_at text.now }
{
    if let Some(rest) = text.strip_prefix(b"...") {
        return Some((Dots::Three, rest));
    }
    let rest = text.strip_prefix(b"..")?;
    Some((Dots::Two, rest))
}

/// The beginning of the term at the front.
pub(crate) fn prefix_at(text: &[u8]) -> Prefix<'_>
    ensures { front_view result ≡ front_at text.now }
{
    if let Some(rest) = text.strip_prefix(b"^") {
        return Prefix::Excludes(rest);
    }
    match dots_at(text) {
        Some((dots, rest)) => Prefix::Dots(dots, rest),
        None => Prefix::Base,
    }
}

/// The number behind `^-`, which is not 0.
fn since_at(text: &[u8]) -> Suffix<'_>
    ensures { behind_view result ≡ since_at (counted_at text.now) }
{
    match counted(text) {
        Some((0, _)) | None => Suffix::Fault,
        Some((n, rest)) => Suffix::Since(n, rest),
    }
}

/// The end of a term at the front.
pub(crate) fn suffix_at(text: &[u8]) -> Suffix<'_>
    ensures { behind_view result ≡ behind_at text.now }
{
    if let Some(rest) = text.strip_prefix(b"^@") {
        return Suffix::Parents(rest);
    }
    if let Some(rest) = text.strip_prefix(b"^!") {
        return Suffix::Only(rest);
    }
    if let Some(rest) = text.strip_prefix(b"^-") {
        return since_at(rest);
    }
    match dots_at(text) {
        Some((dots, rest)) => Suffix::Dots(dots, rest),
        None => Suffix::Nothing,
    }
}
