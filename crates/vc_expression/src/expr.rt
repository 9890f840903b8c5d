//! One expression.

ghost use Rattle.std.specs.Prelude.{◌≡◌, ◌⊎◌, ℕ, IfOk, IfErr, MatchResult};
ghost use Rattle.vc_expression.specs.Grammar.{IsExpr, ExprText};
ghost use Rattle.vc_expression.specs.Faults.{ExprError, IsBadAt, Reads, ReadsRev, ReadsSteps, RevRead, ReadsExpr, IndexPath, NoColon};
ghost use Rattle.vc_expression.specs.Outcome.{FaultAt};
ghost use Rattle.vc_expression.specs.Views.{expr_view, rev_view, steps_view, ExprSlices, StandsRev, StandsSteps, IsEnd};
ghost use Rattle.vc_expression.specs.Steps.{step_at};
ghost use Rattle.vc_expression.specs.Seen as reads;

use crate::base::{is_base, split_name};
use crate::fault::ParseFault;
use crate::step::{Reading, read_step};
use crate::token::{BaseToken, Expr, PathToken, Rev, StepToken};
use std::alloc::Global;

/// The steps at the front of an end of the source, and what follows them.
fn read_steps<'a>(
    alloc: Global,
    source: &'a [u8],
    text: &'a [u8],
) -> Result<(Vec<StepToken<'a>>, &'a [u8]), ParseFault>
    requires { IsEnd text.now source.now }
    ensures ok { IfOk result (λ found. Reads text.now (steps_view found.0) found.1.now) }
    ensures other { IfOk result (λ found. step_at found.1.now ≡ reads.Other) }
    ensures rest { IfOk result (λ found. IsEnd found.1.now source.now) }
    ensures slices { IfOk result (λ found. StandsSteps source.now text.now found.0.items found.1.now) }
    ensures fault { IfErr result (FaultAt source.now (ReadsSteps text.now)) }
{
    let mut tokens = Vec::new(alloc);
    let mut rest = text;
    'steps: loop {
        match read_step(rest) {
            Reading::Found(step, after) => {
                let start = source.len() - rest.len();
                let text = &rest[..rest.len() - after.len()];
                tokens.push(StepToken { step, start, text })?;
                rest = after;
            }
            Reading::Other => return Ok((tokens, rest)),
            Reading::Fault => return Err(ParseFault::BadSyntax(source.len() - rest.len())),
        }
    }
}

/// The base and the steps at the front of an end of the source, and what follows them.
pub(crate) fn read_rev<'a>(
    alloc: Global,
    source: &'a [u8],
    text: &'a [u8],
) -> Result<(Rev<'a>, &'a [u8]), ParseFault>
    requires { IsEnd text.now source.now }
    ensures ok { IfOk result (λ found. RevRead text.now (rev_view found.0) found.1.now) }
    ensures rest { IfOk result (λ found. IsEnd found.1.now source.now) }
    ensures stands { IfOk result (λ found. StandsRev source.now text.now found.0 found.1.now) }
    ensures fault { IfErr result (FaultAt source.now (ReadsRev text.now)) }
{
    let (name, rest) = split_name(text);
    if !is_base(alloc, name)? {
        return Err(ParseFault::BadSyntax(source.len() - text.len()));
    }
    let (steps, rest) = read_steps(alloc, source, rest)?;
    let start = source.len() - text.len();
    Ok((
        Rev {
            base: BaseToken { start, text: name },
            steps,
        },
        rest,
    ))
}

/// What a colon at the start names, from what follows it: where the path begins, and the path.
fn index_path(path: &[u8]) -> Option<(usize, &[u8])>
    ensures { IndexPath path.now result }
{
    match path {
        [] | [b'/', ..] | [b'1' | b'2' | b'3', b':', ..] => None,
        [b'0', b':', rest @ ..] => Some((3, rest)),
        _ => Some((1, path)),
    }
}

/// The expression that a source without a colon at its start is, or where it goes wrong.
fn read_object(alloc: Global, source: &[u8]) -> Result<Expr<'_>, ParseFault>
    requires { NoColon source.now }
    ensures ok { IfOk result (λ expr. ReadsExpr source.now (expr_view expr)) }
    ensures slices { IfOk result (ExprSlices source.now) }
    ensures fault { IfErr result (ExprError source.now) }
{
    let (rev, rest) = read_rev(alloc, source, source)?;
    if rest.is_empty() {
        return Ok(Expr::Object(rev));
    }
    let Some(text) = rest.strip_prefix(b":") else {
        return Err(ParseFault::BadSyntax(source.len() - rest.len()));
    };
    let start = source.len() - text.len();
    Ok(Expr::InTree(rev, PathToken { start, text }))
}

/// The expression that the source is, or where it goes wrong.
fn read(alloc: Global, source: &[u8]) -> Result<Expr<'_>, ParseFault>
    ensures ok { IfOk result (λ expr. ReadsExpr source.now (expr_view expr)) }
    ensures slices { IfOk result (ExprSlices source.now) }
    ensures fault { IfErr result (ExprError source.now) }
{
    let Some(path) = source.strip_prefix(b":") else {
        return read_object(alloc, source);
    };
    match index_path(path) {
        Some((start, text)) => Ok(Expr::InIndex(PathToken { start, text })),
        None => Err(ParseFault::BadSyntax(0)),
    }
}

/// The expression that the source is: one `rev` of the profile of gitrevisions that docs/DIFFERENCES.md states.
///
/// Each token lends its text from the source. The time is linear in the source's length.
pub fn parse(alloc: Global, source: &[u8]) -> Result<Expr<'_>, ParseFault>
    // What is read is in the grammar, and its tokens stand one behind another in the source, from its front to its end.
    ensures ok { IfOk result (λ expr. IsExpr source.now (expr_view expr)) }
    ensures slices { IfOk result (ExprSlices source.now) }

    // What is in the grammar is read, unless memory runs out.
    ensures found { (expr : ExprText) → IsExpr source.now expr → MatchResult result (λ read. expr_view read ≡ expr) (λ e. e ≡ ParseFault.Memory) }

    // Where the text goes wrong, both ways.
    ensures fault { IfErr result (ExprError source.now) }
    ensures only { (place : ℕ) → IsBadAt source.now place → MatchResult result (λ _. ⊥) (λ e. (e ≡ ParseFault.BadSyntax place) ⊎ (e ≡ ParseFault.Memory)) }
{
    read(alloc, source)
}
