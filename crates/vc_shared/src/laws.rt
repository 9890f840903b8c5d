//! Laws of the definitions: functions with no work to do, whose contracts are the laws.

ghost use Rattle.vc_local.specs.NodeFault.{TellsDevice as TellsNodeDevice};
ghost use Rattle.vc_local.specs.Told.{FoundAs, RestartedAs};
ghost use Rattle.vc_pruning.specs.Pruning.{PrunedAs};
ghost use Rattle.vc_shared.specs.Burning.{CleanSuffices, OpeningBurns, SharedBurns, StepMayWrite, StepSuffices};
ghost use Rattle.vc_shared.specs.Calls.{AcceptedAs, SteppedAs};
ghost use Rattle.vc_shared.specs.Faults.{TellsDevice, fault_answer};
ghost use Rattle.vc_shared.specs.Laws.{DownAnswers, DueIsLearnt, HeldSharedOpen, SetIsDue, StepsAnswer};

use vc_files::Files;

/// A step of the push in a slot is the machine's: where the session's step is told so, or refused so, whatever node was held
/// leads by the machine's answer to one that is held then. An empty slot is 111; over clean files a step ends early for a fault
/// alone, and leaves what a stop of the machine's may leave; the report of a push that is at its end is sent, and its slot is
/// free. A node that is down answers 112.
pub fn a_step_in_a_slot_is_the_machines()
    ensures up { StepsAnswer }
    ensures down { DownAnswers }
{}

/// The files of a node can be opened as its repository after any call, also one that a stop ended: no push is open then.
pub fn a_held_shared_node_can_be_opened()
    ensures { HeldSharedOpen }
{}

/// What a step learns (`step`: `learns`), of a value that a branch was set to: once its push has told the report it is due, and the
/// check of a later push leaves each commit of its history with its generation, where that history is whole.
pub fn a_value_that_was_set_is_learnt()
    ensures due { SetIsDue }
    ensures learnt { DueIsLearnt }
{}

/// A call of a held node, other than its opening, spends of the writes left what the machine allows; and a step of a push may write only
/// where the machine's wants to.
pub fn a_call_of_the_shared_node_spends_what_the_machine_allows<F: Files>()
    ensures accepted { SharedBurns F.honest F.content F.failed F.can_fail F.left AcceptedAs (λ r. TellsDevice r) }
    ensures stepped { SharedBurns F.honest F.content F.failed F.can_fail F.left SteppedAs (λ r. TellsDevice r) }
    ensures found { SharedBurns F.honest F.content F.failed F.can_fail F.left (FoundAs fault_answer) (λ r. TellsDevice r) }
    ensures packed { SharedBurns F.honest F.content F.failed F.can_fail F.left RestartedAs (λ r. TellsNodeDevice r) }
    ensures pruned { SharedBurns F.honest F.content F.failed F.can_fail F.left PrunedAs (λ r. TellsNodeDevice r) }
    ensures step { StepMayWrite }
    ensures clean { CleanSuffices }
    ensures enough { StepSuffices }
    ensures opened { OpeningBurns F.honest F.content F.failed F.can_fail F.left RestartedAs (λ r. TellsNodeDevice r) }
{}
