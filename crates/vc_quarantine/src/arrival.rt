//! A push that comes: its objects go into the quarantine of its slot one by one.
ghost use Rattle.std.specs.Prelude.{◌≡◌, [], None, Ok, IfOk, IfSome, IfNone, IsErrOf, OnOk, true, false};
ghost use Rattle.vc_fetch.specs.Pack.{is_object};
ghost use Rattle.vc_files.specs.FileMap.{SameOutside};
ghost use Rattle.vc_files.specs.Failures.{Writes};
ghost use Rattle.vc_object.specs.ObjectFault.{BodyFault};
ghost use Rattle.vc_pkt.specs.StreamObjectView.{stored};
ghost use Rattle.vc_quarantine.specs.Arrival.{HasArrived, HoldsMore, TakesObject};
ghost use Rattle.vc_quarantine.specs.Clean.{IsQuarantineClean, MakesNoneBad};
ghost use Rattle.vc_push_rules.specs.Quarantine.{quarantine_folder};

use crate::quarantine::{drop_quarantine, put_named};
use indexmap::IndexSet;
use std::alloc::Global;
use vc_files::{Fault, Files};
use vc_object::{ObjectFault, ObjectId, check, name_of};
use vc_pkt::StreamObject;

// Puts an object that came into a slot's quarantine, and its name after those that are there. Of two with one name the first
// stays. Where its body is not in the grammar of its kind, nothing is put there, and it is told why. No file becomes bad.
fn keep_arrived<F: Files>(
    files: &mut F,
    alloc: Global,
    slot: u8,
    names: &mut IndexSet<ObjectId>,
    object: &StreamObject,
) -> Result<Option<ObjectFault>, Fault>
    ensures good { IfOk result (λ found. IfNone found (is_object (stored object.now) ≡ true)) }
    ensures bad_body { IfOk result (λ found. IfSome found (λ fault. (is_object (stored object.now) ≡ false) × BodyFault object.now.kind object.now.body.items fault)) }
    ensures brought { F.honest → IfOk result (λ found. IfNone found (HoldsMore (stored object.now) slot (F.content files.old) names.old.keys (F.content files.new) names.new.keys)) }
    ensures outside { F.honest → SameOutside (quarantine_folder slot) (F.content files.old) (F.content files.new) }
    ensures bad { F.honest → MakesNoneBad (F.content files.old) (F.content files.new) }
    ensures wear { Writes F.honest F.content F.failed F.can_fail F.left files.old files.new (IsErrOf result Fault.Device) }
{
    let checked = match check(object.kind, &object.body) {
        Ok(checked) => checked,
        Err(fault) => return Ok(Some(fault)),
    };
    let id = name_of(object.kind, &object.body);
    if names.contains(&id) {
        return Ok(None);
    }
    put_named(files, alloc, slot, &id, &checked)?;
    names.insert(id)?;
    Ok(None)
}

/// A push that comes: what it carries goes into the quarantine of its slot, object by object.
#[derive(Drop)]
pub struct Arriving {
    pub slot: u8,
    /// The names of the objects that came, unless one was at fault.
    pub names: IndexSet<ObjectId>,
    /// Why the first body at fault is none of its kind.
    pub fault: Option<ObjectFault>,
}

impl Arriving {
    /// Nothing came yet. What stood in the slot's quarantine is gone, so that it has no bad file. No file becomes bad.
    pub fn begin<F: Files>(files: &mut F, alloc: Global, slot: u8) -> Result<Arriving, Fault>
        ensures slot { IfOk result (λ arriving. arriving.slot ≡ slot) }
        ensures calm { IfOk result (λ arriving. arriving.fault ≡ None) }
        ensures none { F.honest → IfOk result (λ arriving. HasArrived (F.content files.new) slot arriving.names.keys arriving.fault (Ok [])) }
        ensures clean { F.honest → OnOk result (IsQuarantineClean (F.content files.new) slot) }
        ensures outside { F.honest → SameOutside (quarantine_folder slot) (F.content files.old) (F.content files.new) }
        ensures bad { F.honest → MakesNoneBad (F.content files.old) (F.content files.new) }
        ensures wear { Writes F.honest F.content F.failed F.can_fail F.left files.old files.new (IsErrOf result Fault.Device) }
    {
        drop_quarantine(files, alloc, slot)?;
        Ok(Arriving {
            slot,
            names: IndexSet::new(alloc),
            fault: None,
        })
    }

    /// The next object. The first whose body is not in the grammar of its kind takes all away that came, and nothing else is
    /// put there any more. No file becomes bad.
    pub fn take<F: Files>(
        &mut self,
        files: &mut F,
        alloc: Global,
        object: &StreamObject,
    ) -> Result<(), Fault>
        ensures slot { self.new.slot ≡ self.old.slot }
        ensures good { OnOk result (self.old.fault ≡ None → IfNone self.new.fault (is_object (stored object.now) ≡ true)) }
        ensures wrong { OnOk result (self.old.fault ≡ None → IfSome self.new.fault (λ fault. is_object (stored object.now) ≡ false)) }
        ensures brought { F.honest → OnOk result (TakesObject (stored object.now) (F.content files.old) self.old (F.content files.new) self.new) }
        ensures outside { F.honest → SameOutside (quarantine_folder self.old.slot) (F.content files.old) (F.content files.new) }
        ensures bad { F.honest → MakesNoneBad (F.content files.old) (F.content files.new) }
        ensures wear { Writes F.honest F.content F.failed F.can_fail F.left files.old files.new (IsErrOf result Fault.Device) }
    {
        if self.fault.is_some() {
            return Ok(());
        }
        let Some(fault) = keep_arrived(files, alloc, self.slot, &mut self.names, object)? else {
            return Ok(());
        };
        drop_quarantine(files, alloc, self.slot)?;
        self.names = IndexSet::new(alloc);
        self.fault = Some(fault);
        Ok(())
    }
}
