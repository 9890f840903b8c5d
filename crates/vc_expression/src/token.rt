//! What a revision expression is read as: tokens, each with its place in the source.

use vc_object::Kind;

/// A step from an object to another.
#[derive(Clone, Copy)]
pub enum Step {
    /// `^n`, and `^` for `^1`.
    Parent(u32),
    /// `~n`, and `~` for `~1`.
    Ancestor(u32),
    /// `^{}`.
    Peel,
    /// `^{kind}`.
    PeelTo(Kind),
}

/// Where an expression starts: `@`, or a name.
#[derive(Clone, Copy)]
pub struct BaseToken<'a> {
    pub start: usize,
    pub text: &'a [u8],
}

/// A step as it is written.
#[derive(Clone, Copy)]
pub struct StepToken<'a> {
    pub step: Step,
    pub start: usize,
    pub text: &'a [u8],
}

/// The path behind a colon.
#[derive(Clone, Copy)]
pub struct PathToken<'a> {
    pub start: usize,
    pub text: &'a [u8],
}

/// A base, and the steps from it.
#[derive(Drop)]
pub struct Rev<'a> {
    pub base: BaseToken<'a>,
    pub steps: Vec<StepToken<'a>>,
}

/// A revision expression.
#[derive(Drop)]
pub enum Expr<'a> {
    /// What the steps lead to.
    Object(Rev<'a>),
    /// What stands at the path in that tree.
    InTree(Rev<'a>, PathToken<'a>),
    /// What stands at the path in the index.
    InIndex(PathToken<'a>),
}

/// The ends of a range. One that is left out is HEAD.
#[derive(Drop)]
pub enum Ends<'a> {
    Both(Rev<'a>, Rev<'a>),
    From(Rev<'a>),
    To(Rev<'a>),
}

/// A term of a set.
#[derive(Drop)]
pub enum Term<'a> {
    /// `r`
    Include(Rev<'a>),
    /// `^r`
    Exclude(Rev<'a>),
    /// `r^@`
    Parents(Rev<'a>),
    /// `^r^@`
    ExcludeParents(Rev<'a>),
    /// `r^!`
    Only(Rev<'a>),
    /// `r^-n`, and `r^-` for `r^-1`
    Since(Rev<'a>, u32),
    /// `a..b`
    Range(Ends<'a>),
    /// `a...b`
    Symmetric(Ends<'a>),
}

/// A set of commits, by its terms.
#[derive(Drop)]
pub struct SetExpr<'a> {
    pub terms: Vec<Term<'a>>,
}
