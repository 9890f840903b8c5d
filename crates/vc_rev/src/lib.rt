//! What a revision expression denotes: its value, or its refusal.
#![tactic(auto)]

ghost use Rattle.vc_rev.specs.Value.{HasOneValue};

mod names;
mod object;
mod refusal;
mod repository;
mod steps;
mod value;

pub use refusal::{Refusal, RevFault, SourceFault};
pub use repository::Repository;
pub use steps::peel;
pub use value::{resolve, rev_value};

/// Over refs, HEAD, an index and objects a text has one value or one refusal at most, and never both: what an expression
/// denotes is a rule that leaves nothing to choice.
pub fn an_expression_has_one_value()
    ensures { HasOneValue }
{}
