// The packed file: read and write.
ghost use Rattle.std.specs.Prelude.{◌≡◌, Some, IfOk, IfErr, OnOk, OnErr, IsErrOf};
ghost use Rattle.std.specs.FinMap as names;
ghost use Rattle.vc_files.specs.Failures.{Wears, Writes};
ghost use Rattle.vc_refs.specs.RefFault.{BlamesPacked};
ghost use Rattle.vc_refs.specs.Refs.{packed_map, packed_path};
ghost use Rattle.vc_refs.specs.Packed.{packed_refs, packed_text};
ghost use Rattle.vc_refs.specs.RefMap.{IsRefMap};

use crate::{PackedRefs, RefFault};
use std::alloc::Global;
use std::marker::Model;
use vc_files::{Fault, Files};
use vc_object::ObjectId;
use vc_refname::RefName;

// The path of the packed file.
const PACKED: &str = "packed-refs";

/// What was read of the packed file last: its text, and the refs that the text stands for. One who looks up several refs
/// keeps one. Each look reads the file, since another process may have packed a ref whose own file was there before; only a text
/// that has changed is parsed anew.
#[derive(Drop)]
pub struct PackedCache {
    text: Vec<u8>,
    refs: PackedRefs,
}

impl Model for PackedCache {
    ghost use Rattle.std.specs.Prelude.{◌≡◌, Some};
    ghost use Rattle.vc_refs.specs.Packed.{PackedMap, packed_code, packed_refs};

    ghost Value = { PackedMap };

    ghost coded = { packed_code };

    ghost view = { λ cache. cache.refs };

    ghost invariant = { λ cache. packed_refs cache.text.items ≡ Some cache.refs };
}

impl PackedCache {
    /// Nothing that was read.
    #[tactic(auto, using(crate::proofs::PackedTextLemmas::no_text))]
    pub fn new(alloc: Global) -> PackedCache
        ensures { result ≡ names.empty }
    {
        PackedCache {
            text: Vec::new(alloc),
            refs: PackedRefs::new(alloc),
        }
    }

    // Reads the packed file. Its refs are none at all if there is no such file.
    pub(super) fn refresh<F: Files>(&mut self, files: &mut F, alloc: Global) -> Result<(), RefFault>
        ensures found { F.honest → OnOk result (packed_map (F.content files.old) ≡ Some self.new) }
        ensures refused { F.honest → IfErr result (BlamesPacked (F.content files.old)) }
        ensures same { F.content files.new ≡ F.content files.old }
        ensures wear { Wears F.failed F.can_fail F.left files.old files.new (IsErrOf result (RefFault.Fault Fault.Device)) }
    {
        let Some(text) = files.get(alloc, PACKED)? else {
            *self = PackedCache::new(alloc);
            return Ok(());
        };
        if text == self.text {
            return Ok(());
        }
        let Some(refs) = PackedRefs::read(alloc, &text)? else {
            return Err(RefFault::BadRefFile(String::from_str(alloc, PACKED)?));
        };
        *self = PackedCache { text, refs };
        Ok(())
    }

    // The id that the name stands for in the file that was read.
    pub(super) fn get(&self, name: &RefName) -> Option<ObjectId>
        ensures { result ≡ names.get self.now name.now }
    {
        self.refs.get(name)
    }
}

/// The packed refs, or none at all if there is no packed file.
pub fn read_packed<F: Files>(files: &mut F, alloc: Global) -> Result<PackedRefs, RefFault>
    ensures found { F.honest → IfOk result (λ refs. packed_map (F.content files.old) ≡ Some refs) }
    ensures refused { F.honest → IfErr result (BlamesPacked (F.content files.old)) }
    ensures same { F.content files.new ≡ F.content files.old }
    ensures wear { Wears F.failed F.can_fail F.left files.old files.new (IsErrOf result (RefFault.Fault Fault.Device)) }
{
    let mut cache = PackedCache::new(alloc);
    cache.refresh(files, alloc)?;
    let PackedCache { text: _, refs } = cache;
    Ok(refs)
}

// Writes the packed file. It can be read, if none of the names is a folder of another.
pub(super) fn write_packed<F: Files>(
    files: &mut F,
    alloc: Global,
    refs: &PackedRefs,
) -> Result<(), Fault>
    ensures written { F.honest → OnOk result (F.content files.new ≡ names.insert (F.content files.old) packed_path (packed_text refs.now)) }
    ensures read { IsRefMap (names.get refs.now) → packed_refs (packed_text refs.now) ≡ Some refs.now }
    ensures err { F.honest → OnErr result (F.content files.new ≡ F.content files.old) }
    ensures wear { Writes F.honest F.content F.failed F.can_fail F.left files.old files.new (IsErrOf result Fault.Device) }
{
    let text = refs.write(alloc)?;
    files.put(alloc, PACKED, &text)?;
    Ok(())
}
