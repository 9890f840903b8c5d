// A clone's prune.
ghost use Rattle.std.specs.Prelude.{◌≡◌, ◌⊎◌, Err, IfErr, IfOk, OnOk, true};
ghost use Rattle.vc_model.specs.Clone.{IsReached};
ghost use Rattle.vc_model.specs.CloneCall.CloneCall.{Prune};
ghost use Rattle.vc_files.specs.Failures.{Writes};
ghost use Rattle.vc_local.specs.Clean.{KeepsClean};
ghost use Rattle.vc_local.specs.Machine.{up_after};
ghost use Rattle.vc_local.specs.NodeFault.{TellsDevice};
ghost use Rattle.vc_node.specs.Cleaning.{SettlesForgetting};
ghost use Rattle.vc_node.specs.Node.{AnswersCall, Looks, MayCall};
ghost use Rattle.vc_pruning.specs.Pruning.{PrunedAs, Prunes, PrunesSome};
ghost use Rattle.vc_pruning.specs.Roots.{AreWhole, BlamesPrune, EndsRemoval, IsReadable};
ghost use Rattle.vc_rules.specs.Git.{git};

use super::CloneNode;
use vc_files::Files;
use vc_history::Generations;
use vc_known::Known;
use vc_local::NodeFault;

impl<F: Files> CloneNode<F> {
    /// Takes away each object that neither a ref, nor a detached HEAD, nor a file of the index reaches, and returns how many went. 33 and
    /// 34 for a file of the refs or of HEAD that stands for none, 62 for a bad index: then nothing goes. 12 for a damaged object that is
    /// reached, or that would go. What is known of generations, and of what tracking refs reach, is forgotten before the first goes. If it
    /// ends early, some of them may be gone, and nothing else.
    pub fn prune(&mut self) -> Result<u64, NodeFault>
        ensures answers { F.honest → AnswersCall F.content Prune (PrunedAs result) self.old self.new }
        ensures pruned { F.honest → IfOk result (Prunes (IsReached git) (F.content self.old.files) (F.content self.new.files)) }
        ensures some { F.honest → PrunesSome (IsReached git) (F.content self.old.files) (F.content self.new.files) }
        ensures read { F.honest → OnOk result (IsReadable (F.content self.old.files) × AreWhole (F.content self.old.files)) }
        ensures refused { F.honest → self.old.is_up ≡ true → IfErr result (BlamesPrune (F.content self.old.files)) }
        ensures err { F.honest → IfErr result (λ e. EndsRemoval e ⊎ (F.content self.new.files ≡ F.content self.old.files)) }
        ensures settles { SettlesForgetting (result ≡ Err NodeFault.Down) (up_after result) self.old self.new }
        ensures clean { F.honest → KeepsClean (F.content self.old.files) (F.content self.new.files) }
        ensures wear { Writes F.honest F.content F.failed F.can_fail F.left self.old.files self.new.files (TellsDevice result) }
        ensures looks { F.honest → MayCall F.content Prune self.old (Looks F.failed F.can_fail F.left self.old self.new result) }
    {
        if !self.is_up {
            return Err(NodeFault::Down);
        }
        self.index = None;
        self.known = Known::new(self.alloc);
        self.generations = Generations::new(self.alloc);
        self.due = Vec::new(self.alloc);
        match vc_pruning::prune(self.alloc, &mut self.files) {
            Ok(removed) => Ok(removed),
            Err(fault) => Err(self.fail(fault)),
        }
    }
}
