//! Expressions and sets as they are read, token by token.

use bstr::ByteSlice;
use std::alloc::{AllocError, Global};
use vc_expression::{Ends, Expr, ParseFault, PathToken, Rev, Step, Term, parse, parse_set};

/// The tokens of an expression, or why it is none.
pub fn expr_tokens(alloc: Global, source: &[u8]) -> Result<String, AllocError> {
    let mut text = String::from_str(alloc, " = ")?;
    match parse(alloc, source) {
        Ok(Expr::Object(rev)) => add_rev(&mut text, &rev)?,
        Ok(Expr::InTree(rev, path)) => {
            add_rev(&mut text, &rev)?;
            text.push_str(", ")?;
            add_path(&mut text, path)?;
        }
        Ok(Expr::InIndex(path)) => add_path(&mut text, path)?,
        Err(fault) => add_fault(&mut text, fault)?,
    }
    Ok(text)
}

/// The terms of a set, or why it is none.
pub fn set_tokens(alloc: Global, source: &[u8]) -> Result<String, AllocError> {
    let mut text = String::new(alloc);
    match parse_set(alloc, source) {
        Ok(set) => {
            for term in set.terms.iter() {
                text.push_str(if text.is_empty() { " = " } else { "; " })?;
                add_term(&mut text, term)?;
            }
        }
        Err(fault) => {
            text.push_str(" = ")?;
            add_fault(&mut text, fault)?;
        }
    }
    Ok(text)
}

// The text of a fault of reading, and where it is.
fn add_fault(text: &mut String, fault: ParseFault) -> Result<(), AllocError> {
    match fault {
        ParseFault::BadSyntax(place) => write!(text, "{fault} at {place}"),
        ParseFault::Memory => write!(text, "{fault}"),
    }
}

fn add_path(text: &mut String, path: PathToken<'_>) -> Result<(), AllocError> {
    write!(text, "{} {} path", path.start, path.text.escape_bytes())
}

// A base, and the steps from it.
fn add_rev(text: &mut String, rev: &Rev<'_>) -> Result<(), AllocError> {
    write!(text, "{} {}", rev.base.start, rev.base.text.escape_bytes())?;
    for token in rev.steps.iter() {
        write!(text, ", {} {} ", token.start, token.text.escape_bytes())?;
        add_step(text, token.step)?;
    }
    Ok(())
}

fn add_step(text: &mut String, step: Step) -> Result<(), AllocError> {
    match step {
        Step::Parent(n) => write!(text, "parent {n}"),
        Step::Ancestor(n) => write!(text, "ancestor {n}"),
        Step::Peel => text.push_str("object"),
        Step::PeelTo(kind) => write!(text, "{}", kind.word().escape_bytes()),
    }
}

fn add_term(text: &mut String, term: &Term<'_>) -> Result<(), AllocError> {
    match term {
        Term::Include(rev) => add_named(text, "include ", rev),
        Term::Exclude(rev) => add_named(text, "exclude ", rev),
        Term::Parents(rev) => add_named(text, "parents of ", rev),
        Term::ExcludeParents(rev) => add_named(text, "exclude parents of ", rev),
        Term::Only(rev) => add_named(text, "only ", rev),
        Term::Since(rev, n) => {
            write!(text, "since parent {n} of ")?;
            add_rev(text, rev)
        }
        Term::Range(ends) => add_ends(text, "range ", ends),
        Term::Symmetric(ends) => add_ends(text, "symmetric ", ends),
    }
}

fn add_named(text: &mut String, name: &str, rev: &Rev<'_>) -> Result<(), AllocError> {
    text.push_str(name)?;
    add_rev(text, rev)
}

// A range. An end that is left out is HEAD.
fn add_ends(text: &mut String, name: &str, ends: &Ends<'_>) -> Result<(), AllocError> {
    text.push_str(name)?;
    match ends {
        Ends::Both(from, to) => {
            add_rev(text, from)?;
            add_named(text, " to ", to)
        }
        Ends::From(from) => {
            add_rev(text, from)?;
            text.push_str(" to HEAD")
        }
        Ends::To(to) => add_named(text, "HEAD to ", to),
    }
}
