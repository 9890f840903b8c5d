//! Revision expressions as they are written: their grammar, and what a text is read as.
#![tactic(auto)]

mod base;
mod digits;
mod expr;
mod fault;
mod set;
mod step;
mod suffix;
mod token;

pub use expr::parse;
pub use fault::ParseFault;
pub use set::parse_set;
pub use token::{BaseToken, Ends, Expr, PathToken, Rev, SetExpr, Step, StepToken, Term};
