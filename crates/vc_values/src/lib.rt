//! The rules of the machine at Git's object format: which bodies are refused and with which number, the trees of an index,
//! the index of a tree, and what an expression denotes. Each is the relation by which the layer below says it
//! (`vc_object`, `vc_index`, `vc_rev`), so what a node answers in the machine's terms it answers in theirs.
//!
//! Nothing here is program code. The crates that say what a node answers say it by these rules.
#![tactic(auto)]

ghost use Rattle.vc_values.specs.Laws.{GitLaws};

/// What the layers give is as the machine asks of its rules. A body has one fault at most, a tree one index or number, an
/// index one list of trees or number, an expression one value or refusal. An index comes only of a tree of which all is
/// there, and which reaches the index's files. The trees of an index stand under their names, each is a body of a tree, and
/// the root reaches nothing that is absent but what the index's files do.
pub fn the_layers_give_what_the_machine_asks()
    ensures { GitLaws }
{}
