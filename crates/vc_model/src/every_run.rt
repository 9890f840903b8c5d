//! What holds of every run of the world, whatever is delivered late, repeatedly or never, and wherever a node stops.

ghost use Rattle.vc_model.specs.Apart.{RefsStayApart};
ghost use Rattle.vc_model.specs.Race.{TheRace};
ghost use Rattle.vc_model.specs.Safe.{EveryRunIsSafe, EveryRunIsGuarded, Closed, StaysSound, Monotone, HonestTracking, InLine, Steady, Together, NewIsSound, ARunExists};

/// Every run of a new world is safe: each node has all that its refs and HEAD reach, a branch of the shared node
/// only moves to descendants, and what a clone knows as a branch's value was its value.
///
/// Two premises: no two different objects that occur have one name, and nothing is forged to a clone. Bytes from
/// anyone may come to the shared node. The functions below state each part by itself, from the weakest premises.
pub fn every_run_is_safe()
    ensures { EveryRunIsSafe }
{}

/// Every run from sound nodes is guarded, whoever forges what to whom: each node has all that its refs and HEAD reach, a
/// branch of the shared node only moves to descendants, and the refs of an atomic push are set together or not at all.
pub fn every_run_is_guarded()
    ensures { EveryRunIsGuarded }
{}

/// At each moment, also while it is down, each node's objects are closed under all its refs and its HEAD: what they
/// reach is there. Whoever forges what to whom.
pub fn every_node_is_closed()
    ensures { Closed }
{}

/// At each moment each node is sound: closed under its index too, with commits alone in the histories of its
/// branches, and with each object under its own name.
pub fn every_node_stays_sound()
    ensures { StaysSound }
{}

/// A branch of the shared node that has a value has one at every later moment, and the earlier value is an ancestor
/// of the later one among the objects that occurred by then. So no branch ever disappears, and no commit that was
/// on one is lost, whoever forges what to whom.
pub fn branches_only_move_to_descendants()
    ensures { Monotone }
{}

/// A clone's tracking value of a branch was the branch's value at that moment or an earlier one. It needs that
/// nothing is forged to a clone, and not that names don't collide.
pub fn tracking_values_were_values()
    ensures { HonestTracking }
{}

/// Any two tracking values of one branch, at whichever clones and moments, are equal, or one is an ancestor of the
/// other: no two copies ever disagree about a branch.
pub fn tracking_values_are_in_line()
    ensures { InLine }
{}

/// A clone's tracking ref, once set, stays set and only moves to descendants, also where messages are forged to it.
pub fn tracking_refs_only_move_to_descendants()
    ensures { Steady }
{}

/// The refs of an atomic push are set together or not at all, at each step and wherever it is stopped.
pub fn atomic_pushes_are_set_together()
    ensures { Together }
{}

/// At no moment is one ref of a node a folder of another, as `a` beside `a/b`.
pub fn refs_stay_apart()
    ensures { RefsStayApart }
{}

/// A new world starts sound: what is said above of a sound start holds from a new world.
pub fn a_new_world_is_sound()
    ensures { NewIsSound }
{}

/// There is a run with all that the laws ask, in which a clone comes to track a branch: they are not about nothing.
pub fn a_run_exists()
    ensures { ARunExists }
{}

/// Two clones that made different commits on one value of a branch push them at once, and their pushes take turns,
/// computed event by event through the definitions: both are checked and stored, the one that comes first to its
/// update is accepted, the other is stale; the branch and the winner's tracking ref move, the other clone's stays.
pub fn the_race_of_two_pushes()
    ensures { TheRace }
{}
