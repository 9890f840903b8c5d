//! What holds of every run of the shared node alone, whoever its messages come from, from any sound node with no push open.

ghost use Rattle.vc_model.specs.Desk.{DeskClosed, DeskForward, ExactLogIsLog};

/// At each moment of the log the node is closed under its refs and HEAD.
pub fn a_served_node_stays_closed()
    ensures { DeskClosed }
{}

/// A branch that has a value has one at every later moment of the log, of which the earlier value is an ancestor.
pub fn a_served_branch_only_moves_to_descendants()
    ensures { DeskForward }
{}

/// A log of calls, of which each answer is the exact one, is a log of the machine, with the same answers, messages and
/// nodes: what is said above of each log holds of it.
pub fn an_exact_log_is_a_log()
    ensures { ExactLogIsLog }
{}
