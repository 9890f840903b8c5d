//! What one step of a node keeps, for the node's own invariant, and words that the crates on graphs share with the machine.

ghost use Rattle.vc_model.specs.Keeping.{SharedStepKeeps, CloneStepKeeps};
ghost use Rattle.vc_model.specs.Graph.{SameWords};

/// A step of the shared node keeps it sound, its refs branches and tags alone, and its open pushes able to go on.
pub fn a_step_keeps_the_shared_node()
    ensures { SharedStepKeeps }
{}

/// A step of a clone keeps it sound.
pub fn a_step_keeps_a_clone()
    ensures { CloneStepKeeps }
{}

/// Reachability, closedness and histories over a function from ids to links are those over objects.
pub fn objects_and_links_give_one_graph()
    ensures { SameWords }
{}
