// What refs, HEAD and the index name.
ghost use Rattle.std.specs.Prelude.{◌≡◌, ◌++◌, filter_map, IfErr, IfOk, OnOk};
ghost use Rattle.std.specs.FinMap.{entries};
ghost use Rattle.vc_files.specs.Failures.{Wears};
ghost use Rattle.vc_local.specs.NodeFault.{TellsDevice};
ghost use Rattle.vc_pruning.specs.Roots.{AreRoots, BlamesRoots, staged_in};

use std::alloc::{AllocError, Global};
use vc_files::Files;
use vc_index::Index;
use vc_local::{NodeFault, read_index};
use vc_object::{Mode, ObjectId};
use vc_pack::ref_values;

// Adds the ids that files of the index have; what is a commit of another repository is left out.
fn push_staged(ids: &mut Vec<ObjectId>, index: &Index) -> Result<(), AllocError>
    ensures { OnOk result (ids.new.items ≡ ids.old.items ++ filter_map staged_in (entries index.now)) }
{
    for (_, entry) in index.iter() {
        if entry.mode != Mode::Commit {
            ids.push(entry.id)?;
        }
    }
    Ok(())
}

/// The ids that refs, a detached HEAD and the files of the index have, in no order; one may stand there more than once. 33 and 34 for a
/// file of the refs or of HEAD that stands for none, 62 for a bad index.
pub fn roots<F: Files>(alloc: Global, files: &mut F) -> Result<Vec<ObjectId>, NodeFault>
    ensures roots { F.honest → IfOk result (λ ids. AreRoots (F.content files.old) ids.items) }
    ensures refused { F.honest → IfErr result (BlamesRoots (F.content files.old)) }
    ensures same { F.content files.new ≡ F.content files.old }
    ensures wear { Wears F.failed F.can_fail F.left files.old files.new (TellsDevice result) }
{
    let mut ids = ref_values(alloc, files)?;
    let index = read_index(alloc, files)?;
    push_staged(&mut ids, &index)?;
    Ok(ids)
}
