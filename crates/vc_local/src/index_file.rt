// The file of a clone's index.
ghost use Rattle.std.specs.Prelude.{◌≡◌, IfOk, IfErr, IfSome, OnOk, OnErr, IsErrOf, codes};
ghost use Rattle.std.specs.FinMap as paths;
ghost use Rattle.vc_files.specs.Failures.{Wears, Writes};
ghost use Rattle.vc_index.specs.IndexMap.{IndexMap, IsIndex};
ghost use Rattle.vc_index.specs.IndexText.{index_text};
ghost use Rattle.vc_local.specs.IndexFile.{SpellsIndex, BlamesIndex, index_bytes};
ghost use Rattle.vc_local.specs.NodeFault.{TellsDevice};
ghost use Rattle.vc_local.specs.Reads.{NoneRead, TellsRead};

use crate::NodeFault;
use std::alloc::Global;
use vc_files::{Fault, Files};
use vc_index::Index;
use vc_repository::INDEX;

// The bytes of the file; none where it is absent.
fn index_bytes<F: Files>(alloc: Global, files: &mut F) -> Result<Vec<u8>, Fault>
    ensures found { F.honest → IfOk result (λ bytes. bytes.items ≡ index_bytes (F.content files.old)) }
    ensures same { F.content files.new ≡ F.content files.old }
    ensures wear { Wears F.failed F.can_fail F.left files.old files.new (IsErrOf result Fault.Device) }
{
    match files.get(alloc, INDEX)? {
        Some(bytes) => Ok(bytes),
        None => Ok(Vec::new(alloc)),
    }
}

/// The index that the file spells: one with no files where the file is absent.
pub fn read_index<F: Files>(alloc: Global, files: &mut F) -> Result<Index, NodeFault>
    ensures spelled { F.honest → IfOk result (SpellsIndex (F.content files.old)) }
    ensures again { F.honest → (m : IndexMap) → SpellsIndex (F.content files.old) m → IfOk result (λ index. index ≡ m) }
    ensures refused { F.honest → IfErr result (BlamesIndex (F.content files.old)) }
    ensures same { F.content files.new ≡ F.content files.old }
    ensures file { IfErr result (TellsRead NoneRead NoneRead) }
    ensures wear { Wears F.failed F.can_fail F.left files.old files.new (TellsDevice result) }
{
    let bytes = index_bytes(alloc, files)?;
    let index = Index::read(alloc, &bytes)?;
    Ok(index)
}

/// The index that is kept, and where there is none the one that the file spells.
pub(crate) fn kept_or_read<F: Files>(
    alloc: Global,
    files: &mut F,
    kept: Option<Index>,
) -> Result<Index, NodeFault>
    requires { F.honest → IfSome kept (SpellsIndex (F.content files.old)) }
    ensures spelled { F.honest → IfOk result (SpellsIndex (F.content files.old)) }
    ensures refused { F.honest → IfErr result (BlamesIndex (F.content files.old)) }
    ensures same { F.content files.new ≡ F.content files.old }
    ensures file { IfErr result (TellsRead NoneRead NoneRead) }
    ensures wear { Wears F.failed F.can_fail F.left files.old files.new (TellsDevice result) }
{
    match kept {
        Some(index) => Ok(index),
        None => {
            let index = read_index(alloc, files)?;
            Ok(index)
        }
    }
}

/// Writes the file of the index.
pub fn write_index<F: Files>(alloc: Global, files: &mut F, index: &Index) -> Result<(), Fault>
    ensures written { F.honest → OnOk result (F.content files.new ≡ paths.insert (F.content files.old) (codes "index") (index_text index.now)) }
    ensures index { OnOk result (IsIndex index.now) }
    ensures err { F.honest → OnErr result (F.content files.new ≡ F.content files.old) }
    ensures wear { Writes F.honest F.content F.failed F.can_fail F.left files.old files.new (IsErrOf result Fault.Device) }
{
    let text = index.write(alloc)?;
    files.put(alloc, INDEX, &text)?;
    Ok(())
}
