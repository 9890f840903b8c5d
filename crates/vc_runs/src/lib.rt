//! Runs of the exact machine at Git's object format, by Git's own objects and names and the rules that are the layers' own
//! relations: each is safe, and there is one, so what is promised of every such run is promised of something.
//!
//! Nothing here is program code. Each law is the contract of a function with an empty body.
#![tactic(auto)]

ghost use Rattle.vc_runs.specs.Names.{NamesAreKnown};
ghost use Rattle.vc_runs.specs.Safety.{EveryExactGitRunIsSafe};
ghost use Rattle.vc_runs.specs.Witness.{RunsExist, PremisesAreMet};

/// The file, the tree and the commit of the run below have the names that git prints of them, computed through the
/// definition of SHA-1.
pub fn three_names_are_gits()
    ensures { NamesAreKnown }
{}

/// From each new world of two clones or more in which no stop is set, however bytes are read, there is an exact run with
/// the events and answers that `told` lists: one clone stages a file, commits and pushes, the push is accepted and reported,
/// the shared node is stopped at a write and restarts, another clone fetches, and last come a question, a packing of refs
/// and a prune. At its end the branch has the commit, both clones know it, and the second one has all of it.
///
/// It has what the laws of exact runs ask: no two different objects that occur have one name, and nothing is forged.
pub fn an_exact_run_exists()
    ensures { RunsExist }
{}

/// Its premises can be met: bytes may be read in some way, and for each number of clones there is such a new world.
pub fn the_runs_premises_are_met()
    ensures { PremisesAreMet }
{}

/// Every exact run of a new world is safe, at Git's objects and names and by the layers' own rules: what is promised of
/// every event, answer and refusal, and what is promised of commits, hold together. The premises are that no two different
/// objects that occur have one name, and that nothing is forged; the run above meets them.
pub fn every_exact_run_of_git_objects_is_safe()
    ensures { EveryExactGitRunIsSafe }
{}
