// What can be opened as a clone.
ghost use Rattle.vc_local.specs.Opening.{HeldNodesOpen, NewFilesOpen};

/// Files that hold a clone can be opened again as its repository, whatever it awaits, and whether it is up or down.
pub fn a_held_node_can_be_opened()
    ensures { HeldNodesOpen }
{}

/// No files at all can be opened as a new repository.
pub fn new_files_can_be_opened()
    ensures { NewFilesOpen }
{}
