//! The answer to a want, and the judgement of a pack.
//!
//! A node sends what it is asked for only where one of its refs reaches it, and leaves out what the asker has only where
//! one of its refs reaches that too: what lies below an object that it merely stores may be absent at the asker.
#![tactic(auto)]

mod answer;
mod counting;
mod fault;
mod judge;
mod ours;
mod pack_objects;
mod reading;
mod values;

pub use answer::answer_want;
pub use counting::is_among;
pub use fault::AnswerFault;
pub use judge::{judge_pack, names_reached};
pub use pack_objects::PackObjects;
pub use reading::sent_beyond;
pub use values::ref_values;
