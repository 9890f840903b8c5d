//! The exact relation of calls and answers: that it lies within the machine, and that it leaves no answer to choice.

ghost use Rattle.vc_model.specs.Exact.{CloneAnswerIsStep, CloneHasOneAnswer, SharedAnswerIsStep, SharedHasOneAnswer, ExactRunIsRun, ExactRunIsSafe, WorldHasOneAnswer, DeviceNeedsAStop, ExactRunStaysSound, NoWriteIsLeft};
ghost use Rattle.vc_model.specs.Good.{CloneAnswerKeepsGood, SharedAnswerKeepsGood, ExactRunStaysGood, NewIsGood};

/// What a clone answers to a call, exactly, is a step of the machine.
pub fn a_clones_answer_is_a_step()
    ensures { CloneAnswerIsStep }
{}

/// But for faults, a clone's answer to a call, the node after it and what is sent are determined.
pub fn a_clone_has_one_answer()
    ensures { CloneHasOneAnswer }
{}

/// What the shared node answers to a call, exactly, is a step of the machine.
pub fn a_shared_nodes_answer_is_a_step()
    ensures { SharedAnswerIsStep }
{}

/// But for faults, the shared node's answer to a call, the node after it and what is sent are determined.
pub fn a_shared_node_has_one_answer()
    ensures { SharedHasOneAnswer }
{}

/// A run of the exact relation, from sound nodes, is a run of the machine with the same answers and worlds, moment by
/// moment. The premise is that no two different objects that occur have one name, those counted that a clone's order
/// makes.
pub fn an_exact_run_is_a_run()
    ensures { ExactRunIsRun }
{}

/// So an exact run of a new world is safe: what is promised of every event, answer and refusal, and what is promised
/// of commits, hold together.
pub fn an_exact_run_is_safe()
    ensures { ExactRunIsSafe }
{}

/// But for stops and faults, an event of the world has one answer and leads to one world.
pub fn an_event_has_one_answer()
    ensures { WorldHasOneAnswer }
{}

/// Where no stop was ever set, a device that is not frail never fails.
pub fn the_device_fails_only_after_a_stop()
    ensures { DeviceNeedsAStop }
{}

/// At each moment of an exact run from sound nodes every node is sound.
pub fn an_exact_run_stays_sound()
    ensures { ExactRunStaysSound }
{}

/// A node that a stop left no more writes stores what it stored, whatever comes to it.
pub fn nothing_changes_without_writes()
    ensures { NoWriteIsLeft }
{}

/// An exact answer of a clone keeps it good: sound, with no object whose body is refused, and no ref that is a folder of
/// another.
pub fn an_answer_keeps_a_clone_good()
    ensures { CloneAnswerKeepsGood }
{}

/// An exact answer of the shared node keeps it good, its refs such as clones can track and hold, and its open pushes able to
/// go on.
pub fn an_answer_keeps_the_shared_node_good()
    ensures { SharedAnswerKeepsGood }
{}

/// At each moment of an exact run from good nodes every node is good. The premise is that no two different objects that
/// occur have one name.
pub fn an_exact_run_stays_good()
    ensures { ExactRunStaysGood }
{}

/// A new world is good: what is said above of a good start holds from a new world.
pub fn a_new_world_is_good()
    ensures { NewIsGood }
{}
