// What holds along the life of a served store.
ghost use Rattle.vc_life.specs.Laws.{LifeGoesForward, LifeIsLog, LifeReportsPushes, LifeStaysSound, LifeTellsWhatIsSet};
ghost use Rattle.vc_rules.specs.Git.{git};
ghost use Rattle.vc_serving.specs.Safe.{EachExchangeIsSafe};
ghost use Rattle.vc_values.proofs.GitLaws.{git_rules};

use std::io::Write;
use vc_files::Files;
use vc_message::Source;

/// What the turns of a server leave of its store, whatever its clients send: its calls are a log of the machine, it is sound at each
/// moment, no object is gone at a later moment and no branch goes back, and what is reported as accepted was set, and nothing else. The
/// premise is that the store was a sound node's, and that no two different objects that it had, or that came, have one name.
pub fn a_served_store_is_safe()
    ensures log { LifeIsLog git git_rules }
    ensures sound { LifeStaysSound git git_rules }
    ensures forward { LifeGoesForward git git_rules }
    ensures told { LifeTellsWhatIsSet git git_rules }
    ensures reported { LifeReportsPushes git git_rules }
{}

/// Each exchange of such a server leads from files that can be opened as the node's to files that can be opened as a sound one's: no
/// object is gone, no branch went back, and what the client was told by a report was set, and nothing else.
pub fn each_exchange_is_safe<F: Files, R: Source, W: Write>()
    ensures { EachExchangeIsSafe F.content R.remaining W.contents }
{}
