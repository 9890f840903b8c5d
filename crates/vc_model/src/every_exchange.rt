//! What an exchange between a clone and the shared node ends with, call by call of the exact relation, where both are good,
//! no two different objects stored at them have one name, and the clone is behind: each of its tracking refs belongs to a
//! branch of the shared node, and its value is an ancestor of the branch's.

ghost use Rattle.vc_model.specs.Exchange.{RoundEndsWell, FetchCatchesUp, PushSucceeds};

/// A round of a fetch is never refused: refs move, and fewer ids are left that are not closed at the clone than were, where
/// any were; or a fault ends it. Either way the nodes are left as good and the clone as far behind at most, and what the
/// shared node stores is as it was.
pub fn a_round_of_a_fetch_ends_well()
    ensures { RoundEndsWell }
{}

/// A fetch goes in rounds until none is left, or no fewer than after the round before. Unless a fault ends it none is left,
/// and for each branch of the shared node the clone has a tracking ref equal to it.
pub fn a_fetch_catches_up()
    ensures { FetchCatchesUp }
{}

/// A push of one new value to one branch, atomic or not. Unless a fault ends it the report says ok, the branch has the new
/// value, and so has the clone's tracking ref. What it needs: a free slot, a tracking value that is the branch's (or neither
/// has one), a new value that is closed at the clone, with commits alone in its history and the tracking value among its
/// ancestors, and for the branch a name that is legal and conflicts with no ref of the shared node.
pub fn a_push_succeeds()
    ensures { PushSucceeds }
{}
