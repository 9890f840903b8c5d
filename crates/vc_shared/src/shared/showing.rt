// What the shared node shows.
ghost use Rattle.std.specs.Prelude.{◌≡◌, Err, IfErr, IfOk, true};
ghost use Rattle.vc_files.specs.Failures.{Wears};
ghost use Rattle.vc_local.specs.Machine.{up_after};
ghost use Rattle.vc_local.specs.NodeFault.{TellsDevice};
ghost use Rattle.vc_shared.specs.Node.{Settles};
ghost use Rattle.vc_shared.specs.Opening.{BlamesOpening, OnlyFaults, ShowsFiles, TellsOpening, opening_text};

use super::Shared;
use crate::opening::{Opening, read_opening};
use vc_files::Files;
use vc_local::NodeFault;

impl<F: Files> Shared<F> {
    /// Its refs, HEAD and the names of its objects; no file changes. 33 for a file of the refs or of HEAD that stands for none, 34 for a
    /// HEAD that names HEAD, 112 if the node is down.
    pub fn opening(&mut self) -> Result<Opening, NodeFault>
        ensures held { F.honest → IfOk result (λ opening. TellsOpening F.content self.old (opening_text opening)) }
        ensures shows { F.honest → IfOk result (λ opening. ShowsFiles (F.content self.old.files) (opening_text opening)) }
        ensures only { F.honest → OnlyFaults F.content self.old result }
        ensures refused { F.honest → self.old.is_up ≡ true → IfErr result (BlamesOpening (F.content self.old.files)) }
        ensures settles { Settles (result ≡ Err NodeFault.Down) (up_after result) self.old self.new }
        ensures same { F.content self.new.files ≡ F.content self.old.files }
        ensures wear { Wears F.failed F.can_fail F.left self.old.files self.new.files (TellsDevice result) }
    {
        if !self.is_up {
            return Err(NodeFault::Down);
        }
        match read_opening(self.alloc, &mut self.files) {
            Ok(opening) => Ok(opening),
            Err(fault) => {
                self.is_up = !fault.takes_down();
                Err(fault)
            }
        }
    }
}
