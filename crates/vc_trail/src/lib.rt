//! A clone alone: what a fetch or a push leaves of it, whoever answers, and whatever is sent.
//!
//! Nothing here is program code. An exchange says in its contract that the calls of its clone are a trail of the machine; what is proved
//! here of every such trail then holds of the exchange.
#![tactic(auto)]

ghost use Rattle.vc_model.specs.Object.{Format};
ghost use Rattle.vc_model.specs.Rules.{Tests, rules_by};
ghost use Rattle.vc_trail.specs.Laws.{TrailKeeps, TrailStaysSound, TrailTracks};

/// At each moment the clone is sound: what its refs, HEAD and index reach is there.
pub fn a_clone_alone_stays_sound()
    ensures { (fmt : Format) (tests : Tests fmt) → TrailStaysSound fmt (rules_by fmt tests) }
{}

/// No object is gone at a later moment, HEAD, the index and all refs but tracking refs and new tags are as they were, and tracking refs
/// only move to descendants.
pub fn a_clone_alone_keeps_its_own()
    ensures { (fmt : Format) (tests : Tests fmt) → TrailKeeps fmt (rules_by fmt tests) }
{}

/// A tracking ref has the value that it had, or one that the clone awaited, or that a message said which came.
pub fn a_clone_alone_tracks_what_came()
    ensures { (fmt : Format) (tests : Tests fmt) → TrailTracks fmt (rules_by fmt tests) }
{}
