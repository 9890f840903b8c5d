//! What is true of any list, option or text of bytes, and is said in no layer's terms.
//!
//! There is no code here: the lemmas are in `proofs/`, for all crates.
#![tactic(auto)]
