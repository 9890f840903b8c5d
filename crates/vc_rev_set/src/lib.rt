//! What a set of revision expressions selects: the commits that its terms include and none of them excludes.
#![tactic(auto)]

mod roots;
mod selected;
mod terms;

pub use selected::resolve_set;
