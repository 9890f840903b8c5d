//! What chains of calls come to at Git's objects, by the layers' own rules.

ghost use Rattle.vc_model.specs.Exchange.{BranchesCanBeTracked};
ghost use Rattle.vc_values.proofs.GitLaws.{git_rules};
ghost use Rattle.vc_rules.specs.Git.{git};
ghost use Rattle.vc_trail.specs.Laws.{TrailKeeps, TrailStaysSound, TrailTracks};
ghost use Rattle.vc_world.specs.Laws.{ChainIsFetch, ChainIsPush};

/// A fetch between nodes that are ready and up is the machine's, call by call, and catches up, or ends with a fault.
pub fn a_chain_of_calls_is_a_fetch()
    ensures { ChainIsFetch git git_rules }
{}

/// A push between sound nodes that agree on objects is the machine's, call by call.
pub fn a_chain_of_calls_is_a_push()
    ensures { ChainIsPush git git_rules }
{}

/// A branch whose name a push may set has a legal tracking name.
pub fn a_branch_that_may_be_pushed_can_be_tracked()
    ensures { BranchesCanBeTracked git }
{}

/// What a trail of exchanges leaves of a clone, whoever answered: it is sound at each moment, from each moment to each later one it keeps
/// its own, and no tracking ref has a value that nobody told.
pub fn a_trail_keeps_a_clone()
    ensures sound { TrailStaysSound git git_rules }
    ensures kept { TrailKeeps git git_rules }
    ensures told { TrailTracks git git_rules }
{}
