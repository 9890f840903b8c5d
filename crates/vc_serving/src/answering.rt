//! Files that are made a shared node's.
ghost use Rattle.std.specs.Prelude.{IfErr, OnOk};
ghost use Rattle.vc_files.specs.Failures.{Writes};
ghost use Rattle.vc_model.specs.Repository.{Repository};
ghost use Rattle.vc_local.specs.Blames.{BlamesOpen};
ghost use Rattle.vc_local.specs.Clean.{KeepsClean};
ghost use Rattle.vc_local.specs.NodeFault.{TellsDevice as TellsNodeDevice};
ghost use Rattle.vc_local.specs.Opening.{IsOpenable, OpenableAs};
ghost use Rattle.vc_serving.specs.Answering.{HoldsOpened};

use std::alloc::Global;
use vc_files::Files;
use vc_local::NodeFault;
use vc_shared::Shared;

/// Makes the files those of a shared node in which no push is open, or tells why they are none. They are handed back.
pub fn make_shared<F: Files>(alloc: Global, files: F) -> (F, Result<(), NodeFault>)
    ensures made { F.honest → (r : Repository) → IsOpenable (F.content files) r → OnOk result.1 (HoldsOpened (F.content result.0) r) }
    ensures refused { F.honest → IfErr result.1 (BlamesOpen (F.content files)) }
    ensures clean { F.honest → OnOk result.1 (KeepsClean (F.content files) (F.content result.0)) }
    ensures openable { F.honest → OpenableAs (F.content files) (IsOpenable (F.content result.0)) }
    ensures wear { Writes F.honest F.content F.failed F.can_fail F.left files result.0 (TellsNodeDevice result.1) }
{
    match Shared::open(alloc, files) {
        Ok(shared) => (shared.close(), Ok(())),
        Err((files, fault)) => (files, Err(fault)),
    }
}
