//! What a push sees: what is stored, and what it carries.
ghost use Rattle.std.specs.Prelude.{◌≡◌, IfOk, IfErr, IsErrOf, option_map};
ghost use Rattle.vc_files.specs.Failures.{Wears};
ghost use Rattle.vc_object.specs.Decoding.{stored_object};
ghost use Rattle.vc_object_map.specs.StoreFault.{IsRefused};
ghost use Rattle.vc_quarantine.specs.PushState.{IsDamagedSeen};
ghost use Rattle.vc_push_rules.specs.Quarantine.{objects_seen};

use crate::quarantine::find_in_quarantine;
use std::alloc::Global;
use vc_files::{Fault, Files};
use vc_object::ObjectId;
use vc_object_map::{Commits, Objects, Parents, StoreFault};
use vc_store::{Stored, find};

/// The stored objects and, for names that the store lacks, those in the quarantine of a slot. Both are read from the files
/// when they are asked for, so that no more than one object is in memory.
#[derive(Drop)]
pub struct PushObjects<'a, F> {
    pub files: &'a mut F,
    pub slot: u8,
    /// What its calls allocate with.
    pub alloc: Global,
}

// The stored object with this name, else the carried one, or none.
fn find_seen<F: Files>(
    files: &mut F,
    alloc: Global,
    slot: u8,
    id: &ObjectId,
) -> Result<Option<Stored>, StoreFault>
    ensures found { F.honest → IfOk result (λ found. option_map (λ s. stored_object s.kind s.body.items) found ≡ objects_seen (F.content files.old) slot id.now) }
    ensures refused { IfErr result (IsRefused id.now (F.honest → IsDamagedSeen (F.content files.old) slot id.now)) }
    ensures same { F.content files.new ≡ F.content files.old }
    ensures wear { Wears F.failed F.can_fail F.left files.old files.new (IsErrOf result (StoreFault.Fault Fault.Device)) }
{
    if let Some(stored) = find(files, alloc, id)? {
        return Ok(Some(stored));
    }
    let carried = find_in_quarantine(files, alloc, slot, id)?;
    Ok(carried)
}

impl<F: Files> Objects for PushObjects<'_, F> {
    ghost use Rattle.vc_quarantine.specs.PushState.{IsDamagedSeen, SeenState, seen_state};
    ghost use Rattle.vc_push_rules.specs.Quarantine.{objects_seen};

    ghost is_honest = { F.honest };

    ghost State = { SeenState };

    ghost state_of = { λ s. seen_state s.files.ghost_name (F.content s.files.now) s.slot };

    ghost objects = { λ state. objects_seen state.content state.slot };

    ghost damaged = { λ state id. IsDamagedSeen state.content state.slot id };

    ghost failed = { λ s. F.failed s.files.now };

    ghost can_fail = { λ s. F.can_fail s.files.now };

    ghost left = { λ s. F.left s.files.now };

    fn links(&mut self, id: &ObjectId) -> Result<Option<Vec<ObjectId>>, StoreFault> {
        let Some(found) = find_seen(self.files, self.alloc, self.slot, id)? else {
            return Ok(None);
        };
        let links = vc_object::links(self.alloc, &found.object())?;
        Ok(Some(links))
    }
}

impl<F: Files> Commits for PushObjects<'_, F> {
    fn parents(&mut self, id: &ObjectId) -> Result<Option<Parents>, StoreFault> {
        let Some(found) = find_seen(self.files, self.alloc, self.slot, id)? else {
            return Ok(None);
        };
        let parents = vc_object::parents(self.alloc, &found.object())?;
        match parents {
            Some(ids) => Ok(Some(Parents::Of(ids))),
            None => Ok(Some(Parents::NotCommit)),
        }
    }
}
