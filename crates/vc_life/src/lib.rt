//! A served node, turn by turn: what holds along its life, whatever its clients send.
//!
//! Nothing here is program code. A server says in its contract that its turns are a life of the node; what is proved here of every life
//! then holds of it.
#![tactic(auto)]

ghost use Rattle.vc_model.specs.Object.{Format};
ghost use Rattle.vc_model.specs.Rules.{Tests, rules_by};
ghost use Rattle.vc_life.specs.Laws.{LifeGoesForward, LifeIsLog, LifeReportsPushes, LifeStaysSound, LifeTellsWhatIsSet, TurnsAreMoments};

/// What is stored after some of the turns is what is stored at a moment of the log.
pub fn turns_are_moments()
    ensures { TurnsAreMoments }
{}

/// The calls of the node are an exact log, in which no names collide.
pub fn a_life_is_a_log()
    ensures { (fmt : Format) (tests : Tests fmt) → LifeIsLog fmt (rules_by fmt tests) }
{}

/// At each moment the node is sound: what its refs, HEAD and index reach is there.
pub fn a_served_node_stays_sound()
    ensures { (fmt : Format) (tests : Tests fmt) → LifeStaysSound fmt (rules_by fmt tests) }
{}

/// No object is gone at a later moment, a branch that has a value has one ever after, which descends from it, tags keep their values, and
/// HEAD and the index stay.
pub fn a_served_node_goes_forward()
    ensures { (fmt : Format) (tests : Tests fmt) → LifeGoesForward fmt (rules_by fmt tests) }
{}

/// The report on a push has one line of each command, and what it says was accepted was set, and no other ref was.
pub fn what_is_told_is_set()
    ensures { (fmt : Format) (tests : Tests fmt) → LifeTellsWhatIsSet fmt (rules_by fmt tests) }
{}

/// A report is sent in the turn of a push alone, and is of that push.
pub fn each_report_is_of_a_push()
    ensures { (fmt : Format) (tests : Tests fmt) → LifeReportsPushes fmt (rules_by fmt tests) }
{}
