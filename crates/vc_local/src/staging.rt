// Putting many files into the index at once: it is read and written once for all of them.
ghost use Rattle.std.specs.Prelude.{◌≡◌, ◌≢◌, ◌⊎◌, [], Ok, IfErr, OnOk, IsOk};
ghost use Rattle.std.specs.List.{All};
ghost use Rattle.vc_files.specs.Failures.{Wears, Writes};
ghost use Rattle.vc_index.specs.IndexMap.{IndexMap};
ghost use Rattle.vc_local.specs.Clean.{Spares};
ghost use Rattle.vc_local.specs.IndexFile.{SpellsIndex};
ghost use Rattle.vc_local.specs.NodeFault.{TellsDevice};
ghost use Rattle.vc_local.specs.Reads.{NoneRead, TellsRead};
ghost use Rattle.vc_object_map.specs.Store.{objects};
ghost use Rattle.vc_local.specs.Staging.{AreStaged, BlamesStaging, MayStandAll, RefusesFirst, places, with_all};

use crate::NodeFault;
use crate::index_file::{read_index, write_index};
use std::alloc::Global;
use vc_files::Files;
use vc_index::{Index, IndexFault};
use vc_object::{Mode, ObjectId};

/// A file that is to stand in the index: its path, how it stands there, and the name of its blob, which is stored already.
#[derive(Drop)]
pub struct Staged {
    pub path: Vec<u8>,
    pub mode: Mode,
    pub id: ObjectId,
}

// Puts the files into the index, in their order.
fn put_all(alloc: Global, index: &mut Index, files: &[Staged]) -> Result<(), IndexFault>
    requires { All (λ file. file.mode ≢ Mode.Tree) files.now }
    ensures put { OnOk result (index.new ≡ with_all index.old (places files.now)) }
    ensures may { IsOk result → MayStandAll index.old (places files.now) }
    ensures refused { IfErr result (RefusesFirst index.old (places files.now)) }
{
    for file in files {
        index.add(alloc, &file.path, file.mode, file.id)?;
    }
    Ok(())
}

/// Puts files into the index, in their order, whose blobs are stored already.
pub fn stage_all<F: Files>(alloc: Global, files: &mut F, staged: &[Staged]) -> Result<(), NodeFault>
    requires { All (λ file. file.mode ≢ Mode.Tree) staged.now }
    ensures staged { F.honest → (m : IndexMap) → SpellsIndex (F.content files.old) m → OnOk result (AreStaged (F.content files.old) m (places staged.now) (F.content files.new)) }
    ensures refused { F.honest → (m : IndexMap) → SpellsIndex (F.content files.old) m → IfErr result (BlamesStaging m (places staged.now)) }
    ensures kept { F.honest → Spares result (F.content files.old) (F.content files.new) }
    ensures none { staged.now ≡ [] → (result ≡ Ok tt) × (files.new ≡ files.old) }
    ensures objects { F.honest → objects (F.content files.new) ≡ objects (F.content files.old) }
    ensures file { IfErr result (TellsRead NoneRead NoneRead) }
    ensures wear { Writes F.honest F.content F.failed F.can_fail F.left files.old files.new (TellsDevice result) }
    ensures looks { F.honest → (m : IndexMap) → SpellsIndex (F.content files.old) m → MayStandAll m (places staged.now) ⊎ Wears F.failed F.can_fail F.left files.old files.new (TellsDevice result) }
{
    if staged.is_empty() {
        return Ok(());
    }
    let mut index = read_index(alloc, files)?;
    put_all(alloc, &mut index, staged)?;
    write_index(alloc, files, &index)?;
    Ok(())
}
