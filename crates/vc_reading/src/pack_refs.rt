//! The subcommand `pack-refs`: the refs of a store in one file.
ghost use Rattle.std.specs.Prelude.{◌≡◌, IfErr, OnOk};
ghost use Rattle.vc_refs.specs.Head.{KeepsOutside};
ghost use Rattle.vc_refs.specs.Packing.{IsPackedFrom};
ghost use Rattle.vc_refs.specs.Refs.{refs};
ghost use Rattle.vc_reading.specs.Shown.{IsOfPacking};
ghost use Rattle.vc_files.specs.Failures.{Writes};
ghost use Rattle.vc_cli.specs.Failure.{TellsDevice};
ghost use Rattle.vc_cli.specs.Stores.{OrUnopened, OthersStay};

use std::alloc::Global;
use vc_cli::{Failure, Stores};
use vc_files::Files;
use vc_refs::Refs;

/// Puts the refs of the store of this lock into one file.
pub fn pack_refs<S: Stores>(alloc: Global, stores: &mut S, lock: &S::Lock) -> Result<(), Failure>
    ensures packed { S.Files.honest → OnOk result (IsPackedFrom (S.content stores.old (S.of lock.now)) (S.content stores.new (S.of lock.now))) }
    ensures refused { S.Files.honest → IfErr result (OrUnopened (IsOfPacking (S.content stores.old (S.of lock.now)))) }
    ensures kept { S.Files.honest → refs (S.content stores.new (S.of lock.now)) ≡ refs (S.content stores.old (S.of lock.now)) }
    ensures rest { S.Files.honest → KeepsOutside (S.content stores.old (S.of lock.now)) (S.content stores.new (S.of lock.now)) }
    ensures others { OthersStay (S.of lock.now) (S.content stores.old) (S.content stores.new) }
{
    let mut files = stores.open_locked(lock)?;
    let packed = pack_in(alloc, &mut files);
    stores.close_locked(lock, files);
    packed
}

/// Puts the refs of these files into one file. None of them changes, wherever it stops, and neither does any other file.
pub fn pack_in<F: Files>(alloc: Global, files: &mut F) -> Result<(), Failure>
    ensures packed { F.honest → OnOk result (IsPackedFrom (F.content files.old) (F.content files.new)) }
    ensures refused { F.honest → IfErr result (IsOfPacking (F.content files.old)) }
    ensures kept { F.honest → refs (F.content files.new) ≡ refs (F.content files.old) }
    ensures rest { F.honest → KeepsOutside (F.content files.old) (F.content files.new) }
    ensures wear { Writes F.honest F.content F.failed F.can_fail F.left files.old files.new (TellsDevice result) }
{
    match Refs::new(alloc, files).pack() {
        Ok(()) => Ok(()),
        Err(fault) => Err(Failure::Refs(fault)),
    }
}
