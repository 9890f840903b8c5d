// What a clone learns of a value that a message has set a ref to.
ghost use Rattle.vc_node.specs.Learning.{DueIsLearnt, SetIsDue};

/// What a clone learns from a message (`receive`, `receive_from`, `receive_message`, `receive_report`: `settles`), of a value that a
/// ref was set to by it: it is due, and the next message that is judged leaves each commit of its history with its generation, if
/// that history is whole.
pub fn a_value_that_a_ref_was_set_to_is_learnt()
    ensures due { SetIsDue }
    ensures learnt { DueIsLearnt }
{}
