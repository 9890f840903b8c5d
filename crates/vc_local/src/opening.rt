// Opening the files of a node.
ghost use Rattle.std.specs.Prelude.{◌≡◌, IfErr, IfOk, OnErr, OnOk, IsErrOf};
ghost use Rattle.vc_files.specs.Failures.{Writes};
ghost use Rattle.vc_local.specs.Blames.{BlamesOpen};
ghost use Rattle.vc_local.specs.Clean.{KeepsClean};
ghost use Rattle.vc_local.specs.Emptying.{AreEmpty, IsOpened, LosesCarried};
ghost use Rattle.vc_local.specs.IndexFile.{SpellsIndex};
ghost use Rattle.vc_local.specs.NodeFault.{TellsDevice};
ghost use Rattle.vc_local.specs.Shown.{IsReady};

use crate::fault::NodeFault;
use crate::index_file::read_index;
use std::alloc::Global;
use vc_files::{Fault, Files};
use vc_index::Index;
use vc_object_map::StoreFault;
use vc_refname::RefName;
use vc_refs::Head;

// Takes away all that stands in a quarantine. A call that ends early has taken away some of it.
fn empty_quarantines<F: Files>(files: &mut F, alloc: Global) -> Result<(), Fault>
    ensures empty { F.honest → OnOk result (AreEmpty (F.content files.new)) }
    ensures loses { F.honest → LosesCarried (F.content files.old) (F.content files.new) }
    ensures wear { Writes F.honest F.content F.failed F.can_fail F.left files.old files.new (IsErrOf result Fault.Device) }
{
    let paths = files.list(alloc, "quarantine/")?;
    for path in &paths {
        files.remove(alloc, path.as_str())?;
    }
    Ok(())
}

// Makes HEAD name the branch `main` where there is none, and answers the index that the files spell. Where they are none of a node's
// (33 and 34: HEAD, 62: the index), or a fault comes, they stay as they are.
fn make_ready<F: Files>(alloc: Global, files: &mut F) -> Result<Index, NodeFault>
    ensures ready { F.honest → OnOk result (IsReady (F.content files.old) (F.content files.new)) }
    ensures spelled { F.honest → IfOk result (SpellsIndex (F.content files.new)) }
    ensures refused { F.honest → IfErr result (BlamesOpen (F.content files.old)) }
    ensures err { F.honest → OnErr result (F.content files.new ≡ F.content files.old) }
    ensures clean { F.honest → OnOk result (KeepsClean (F.content files.old) (F.content files.new)) }
    ensures wear { Writes F.honest F.content F.failed F.can_fail F.left files.old files.new (TellsDevice result) }
{
    let index = read_index(alloc, files)?;
    if vc_refs::head(files, alloc)?.is_some() {
        return Ok(index);
    }
    let Ok(main) = RefName::new(alloc, "refs/heads/main") else {
        // The text is a legal name, so it was memory.
        return Err(NodeFault::Store(StoreFault::Fault(Fault::Memory)));
    };
    vc_refs::set_head(files, alloc, &Head::Branch(main))?;
    Ok(index)
}

/// Makes the files those of a node, and answers the index that they spell: nothing is in quarantine, and HEAD, where there is none, names
/// the branch `main`. Where they are none of a node's (33 and 34: HEAD, 62: the index), or a fault comes, all but the quarantines stays
/// as it is, and some of what stood in these may be gone.
pub fn open_files<F: Files>(alloc: Global, files: &mut F) -> Result<Index, NodeFault>
    ensures opened { F.honest → OnOk result (IsOpened (F.content files.old) (F.content files.new)) }
    ensures spelled { F.honest → IfOk result (SpellsIndex (F.content files.new)) }
    ensures refused { F.honest → IfErr result (BlamesOpen (F.content files.old)) }
    ensures err { F.honest → OnErr result (LosesCarried (F.content files.old) (F.content files.new)) }
    ensures clean { F.honest → KeepsClean (F.content files.old) (F.content files.new) }
    ensures wear { Writes F.honest F.content F.failed F.can_fail F.left files.old files.new (TellsDevice result) }
{
    empty_quarantines(files, alloc)?;
    make_ready(alloc, files)
}
