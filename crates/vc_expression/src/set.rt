//! Sets.

ghost use Rattle.std.specs.Prelude.{◌≡◌, ◌⊎◌, ◌∷◌, ◌++◌, [], IfOk, IfErr, MatchResult, List, ℕ, codes};
ghost use Rattle.vc_expression.specs.Outcome.{Read, FaultAt, Then};
ghost use Rattle.vc_expression.specs.Faults.{ReadsRev};
ghost use Rattle.vc_expression.specs.SetGrammar.{IsSet, TermText, dots_text};
ghost use Rattle.vc_expression.specs.SetReading.{ReadsTerm, ReadsFrom, ReadsBehind, ReadsSet, Done, SetError, IsBadSetAt, range_view, excluded_at, behind_at, after_spaces};
ghost use Rattle.vc_expression.specs.SetGrammar as texts;
ghost use Rattle.vc_expression.specs.SetViews.{term_view, ends_view, terms_view, StandsEnds, StandsTerm, SetSlices};
ghost use Rattle.vc_expression.specs.Views.{IsEnd, StandsRev, rev_view};

use crate::base::split_name;
use crate::expr::read_rev;
use crate::fault::ParseFault;
use crate::suffix::{Dots, Prefix, Suffix, prefix_at, suffix_at};
use crate::token::{Ends, Rev, SetExpr, Term};
use std::alloc::Global;

/// The range of these dots and ends.
fn range<'a>(dots: Dots, ends: Ends<'a>) -> Term<'a>
    ensures term { term_view result ≡ range_view dots (ends_view ends.entry) }
    ensures stands { (source text rest : List ℕ) → StandsEnds (dots_text dots) source text ends.entry rest → StandsTerm source text result rest }
{
    match dots {
        Dots::Two => Term::Range(ends),
        Dots::Three => Term::Symmetric(ends),
    }
}

/// The term that excludes what is at hand, from what follows it.
fn excluded<'a>(rev: Rev<'a>, text: &'a [u8]) -> (Term<'a>, &'a [u8])
    ensures term { Read (term_view result.0) result.1.now ≡ excluded_at (rev_view rev.entry) text.now }
    ensures stands { (source behind : List ℕ) → StandsRev source behind rev.entry text.now → StandsTerm source (codes "^" ++ behind) result.0 result.1.now }
{
    match text.strip_prefix(b"^@") {
        Some(rest) => (Term::ExcludeParents(rev), rest),
        None => (Term::Exclude(rev), text),
    }
}

/// A term that excludes, behind its `^`.
fn read_excluded<'a>(
    alloc: Global,
    source: &'a [u8],
    text: &'a [u8],
) -> Result<(Term<'a>, &'a [u8]), ParseFault>
    requires { IsEnd text.now source.now }
    ensures ok { IfOk result (λ found. Then (ReadsRev text.now) (λ rev rest o. o ≡ excluded_at rev rest) (Read (term_view found.0) found.1.now)) }
    ensures stands { IfOk result (λ found. StandsTerm source.now (codes "^" ++ text.now) found.0 found.1.now) }
    ensures fault { IfErr result (FaultAt source.now (Then (ReadsRev text.now) (λ rev rest o. o ≡ excluded_at rev rest))) }
{
    let (rev, rest) = read_rev(alloc, source, text)?;
    Ok(excluded(rev, rest))
}

/// A range whose first end is left out, behind its dots.
fn read_to<'a>(
    alloc: Global,
    source: &'a [u8],
    dots: Dots,
    text: &'a [u8],
) -> Result<(Term<'a>, &'a [u8]), ParseFault>
    requires { IsEnd text.now source.now }
    ensures ok { IfOk result (λ found. Then (ReadsRev text.now) (λ rev rest o. o ≡ Read (range_view dots (texts.To rev)) rest) (Read (term_view found.0) found.1.now)) }
    ensures stands { IfOk result (λ found. StandsTerm source.now (dots_text dots ++ text.now) found.0 found.1.now) }
    ensures fault { IfErr result (FaultAt source.now (Then (ReadsRev text.now) (λ rev rest o. o ≡ Read (range_view dots (texts.To rev)) rest))) }
{
    let (rev, rest) = read_rev(alloc, source, text)?;
    Ok((range(dots, Ends::To(rev)), rest))
}

/// A range whose first end is at hand, from what follows its dots.
fn read_from<'a>(
    alloc: Global,
    source: &'a [u8],
    dots: Dots,
    first: Rev<'a>,
    text: &'a [u8],
) -> Result<(Term<'a>, &'a [u8]), ParseFault>
    requires { IsEnd text.now source.now }
    ensures ok { IfOk result (λ found. ReadsFrom dots (rev_view first.entry) text.now (Read (term_view found.0) found.1.now)) }
    ensures stands { IfOk result (λ found. (front : List ℕ) → StandsRev source.now front first.entry (dots_text dots ++ text.now) → StandsTerm source.now front found.0 found.1.now) }
    ensures fault { IfErr result (FaultAt source.now (ReadsFrom dots (rev_view first.entry) text.now)) }
{
    let (name, _) = split_name(text);
    if name.is_empty() {
        return Ok((range(dots, Ends::From(first)), text));
    }
    let (second, rest) = read_rev(alloc, source, text)?;
    Ok((range(dots, Ends::Both(first, second)), rest))
}

/// A term that begins with a base, behind that base and its steps.
fn read_behind<'a>(
    alloc: Global,
    source: &'a [u8],
    rev: Rev<'a>,
    text: &'a [u8],
) -> Result<(Term<'a>, &'a [u8]), ParseFault>
    requires { IsEnd text.now source.now }
    ensures ok { IfOk result (λ found. ReadsBehind (rev_view rev.entry) text.now (behind_at text.now) (Read (term_view found.0) found.1.now)) }
    ensures stands { IfOk result (λ found. (front : List ℕ) → StandsRev source.now front rev.entry text.now → StandsTerm source.now front found.0 found.1.now) }
    ensures fault { IfErr result (FaultAt source.now (ReadsBehind (rev_view rev.entry) text.now (behind_at text.now))) }
{
    match suffix_at(text) {
        Suffix::Parents(rest) => Ok((Term::Parents(rev), rest)),
        Suffix::Only(rest) => Ok((Term::Only(rev), rest)),
        Suffix::Since(n, rest) => Ok((Term::Since(rev, n), rest)),
        Suffix::Dots(dots, rest) => read_from(alloc, source, dots, rev, rest),
        Suffix::Nothing => Ok((Term::Include(rev), text)),
        Suffix::Fault => Err(ParseFault::BadSyntax(source.len() - text.len())),
    }
}

/// A term that begins with a base.
fn read_based<'a>(
    alloc: Global,
    source: &'a [u8],
    text: &'a [u8],
) -> Result<(Term<'a>, &'a [u8]), ParseFault>
    requires { IsEnd text.now source.now }
    ensures ok { IfOk result (λ found. Then (ReadsRev text.now) (λ rev rest o. ReadsBehind rev rest (behind_at rest) o) (Read (term_view found.0) found.1.now)) }
    ensures stands { IfOk result (λ found. StandsTerm source.now text.now found.0 found.1.now) }
    ensures fault { IfErr result (FaultAt source.now (Then (ReadsRev text.now) (λ rev rest o. ReadsBehind rev rest (behind_at rest) o))) }
{
    let (rev, rest) = read_rev(alloc, source, text)?;
    read_behind(alloc, source, rev, rest)
}

/// The term at the front of an end of the source, and what follows it.
fn read_term<'a>(
    alloc: Global,
    source: &'a [u8],
    text: &'a [u8],
) -> Result<(Term<'a>, &'a [u8]), ParseFault>
    requires { IsEnd text.now source.now }
    ensures ok { IfOk result (λ found. ReadsTerm text.now (Read (term_view found.0) found.1.now)) }
    ensures stands { IfOk result (λ found. StandsTerm source.now text.now found.0 found.1.now) }
    ensures fault { IfErr result (FaultAt source.now (ReadsTerm text.now)) }
{
    match prefix_at(text) {
        Prefix::Excludes(rest) => read_excluded(alloc, source, rest),
        Prefix::Dots(dots, rest) => read_to(alloc, source, dots, rest),
        Prefix::Base => read_based(alloc, source, text),
    }
}

/// What follows the spaces at the front.
fn after_spaces(text: &[u8]) -> &[u8]
    ensures { result.now ≡ after_spaces text.now }
{
    let mut rest = text;
    'spaces: while let Some(others) = rest.strip_prefix(b" ") {
        rest = others;
    }
    rest
}

/// The terms of a source, or where it goes wrong.
fn read_set(alloc: Global, source: &[u8]) -> Result<SetExpr<'_>, ParseFault>
    ensures ok { IfOk result (λ set. (before : List TermText) × (last : TermText) × (terms_view set ≡ before ++ last ∷ []) × ReadsSet source.now before (Done last)) }
    ensures slices { IfOk result (SetSlices source.now) }
    ensures fault { IfErr result (SetError source.now) }
{
    let mut terms = Vec::new(alloc);
    let mut rest = source;
    'terms: loop {
        let (term, after) = read_term(alloc, source, rest)?;
        terms.push(term)?;
        if after.is_empty() {
            return Ok(SetExpr { terms });
        }
        if !after.starts_with(b" ") {
            return Err(ParseFault::BadSyntax(source.len() - after.len()));
        }
        rest = after_spaces(after);
    }
}

/// The set that the source is, as `git rev-list` takes its words, joined by spaces.
///
/// Each token lends its text from the source. The time is linear in the source's length.
pub fn parse_set(alloc: Global, source: &[u8]) -> Result<SetExpr<'_>, ParseFault>
    // What is read is in the grammar, and its tokens stand one behind another in the source, from its front to its end.
    ensures ok { IfOk result (λ set. IsSet source.now (terms_view set)) }
    ensures slices { IfOk result (SetSlices source.now) }

    // What is in the grammar is read, unless memory runs out.
    ensures found { (terms : List TermText) → IsSet source.now terms → MatchResult result (λ set. terms_view set ≡ terms) (λ e. e ≡ ParseFault.Memory) }

    // Where the text goes wrong, both ways.
    ensures fault { IfErr result (SetError source.now) }
    ensures only { (place : ℕ) → IsBadSetAt source.now place → MatchResult result (λ _. ⊥) (λ e. (e ≡ ParseFault.BadSyntax place) ⊎ (e ≡ ParseFault.Memory)) }
{
    read_set(alloc, source)
}
