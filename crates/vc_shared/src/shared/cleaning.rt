// The shared node's prune.
ghost use Rattle.std.specs.Prelude.{◌≡◌, Err, IfErr, IfOk, true};
ghost use Rattle.vc_files.specs.Failures.{Writes};
ghost use Rattle.vc_local.specs.Clean.{KeepsClean};
ghost use Rattle.vc_local.specs.Machine.{up_after};
ghost use Rattle.vc_local.specs.NodeFault.{TellsDevice};
ghost use Rattle.vc_model.specs.SharedCall.SharedCall.{Prune};
ghost use Rattle.vc_pruning.specs.Pruning.{PrunedAs};
ghost use Rattle.vc_shared.specs.Cleaning.{EndsPruneOf, PrunesNode, SettlesForgetting};
ghost use Rattle.vc_shared.specs.Node.{AnswersCall};
ghost use Rattle.vc_shared.specs.Pruning.{BlamesNeeds};

use super::Shared;
use crate::pruning;
use vc_files::Files;
use vc_history::Generations;
use vc_known::Known;
use vc_local::NodeFault;

impl<F: Files> Shared<F> {
    /// Takes away each stored object that nothing needs, and returns how many these were. Needed is what a ref, a detached HEAD or a file
    /// of the index reaches through what is stored, and what the new id of an open push's command reaches through that and what the push
    /// carries, unless the command was refused. What was learnt of generations, and of what refs reach, is forgotten first. Each open push stays, and so does each
    /// other file, wherever it stops.
    ///
    /// 33 and 34 for a bad file of the refs or of HEAD, 62 for a bad index: then no file has changed. 12 for a damaged object: then, as after
    /// a fault, some of what nothing needs may be gone. 112 if the node is down.
    pub fn prune(&mut self) -> Result<u64, NodeFault>
        ensures answers { F.honest → AnswersCall F.content Prune (PrunedAs result) self.old self.new }
        ensures pruned { F.honest → IfOk result (PrunesNode F.content self.old self.new) }
        ensures early { F.honest → IfErr result (EndsPruneOf F.content self.old self.new) }
        ensures refused { F.honest → self.old.is_up ≡ true → IfErr result (BlamesNeeds (F.content self.old.files) self.old.slots) }
        ensures settles { SettlesForgetting (result ≡ Err NodeFault.Down) (up_after result) self.old self.new }
        ensures clean { F.honest → KeepsClean (F.content self.old.files) (F.content self.new.files) }
        ensures wear { Writes F.honest F.content F.failed F.can_fail F.left self.old.files self.new.files (TellsDevice result) }
    {
        if !self.is_up {
            return Err(NodeFault::Down);
        }
        self.generations = Generations::new(self.alloc);
        self.due = Vec::new(self.alloc);
        self.known = Known::new(self.alloc);
        match pruning::prune(self.alloc, &mut self.files, &self.slots) {
            Ok(removed) => Ok(removed),
            Err(fault) => {
                self.is_up = !fault.takes_down();
                Err(fault)
            }
        }
    }
}
