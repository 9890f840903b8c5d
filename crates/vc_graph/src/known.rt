//! What is reached from a root beyond names that are known to be whole: all that these reach is there. What is known is not
//! read again, nor is what lies below it.
ghost use Rattle.std.specs.Prelude.{◌≡◌, ◌↔◌, ◌⊎◌, ◌∷◌, [], length, take, IsTrue, IfOk, IfErr, IsErrOf, OnOk, Contains};
ghost use Rattle.vc_files.specs.Failures.{Wears};
ghost use Rattle.vc_object_map.specs.Complete.{AreComplete, AreCompleteBeyond, KnowsIfYes};
ghost use Rattle.vc_object_map.specs.Graph.{IsLinkOf, IsMetBeyond, TellsBeyond};
ghost use Rattle.vc_object_map.specs.StoreFault.{IsMet, IsMetFrom};
ghost use Rattle.vc_object.specs.ObjectMap.{links_in};
ghost use Rattle.vc_object.specs.declared.id.ObjectId.{ObjectId as Id};

use indexmap::IndexSet;
use vc_files::Fault;
use vc_object::ObjectId;
use vc_object_map::{Objects, StoreFault, add_names};

/// Whether every name that is reached from the root is there, where all that the known names reach is known to be. What is
/// known is not read again, nor is what lies below it. Where the answer is yes, what was met is known from then on; else the
/// known names stay as they are.
pub fn is_complete_beyond<O: Objects>(
    objects: &mut O,
    known: &mut IndexSet<ObjectId>,
    root: &ObjectId,
) -> Result<bool, StoreFault>
    ensures complete { IfOk result (λ answer. O.is_honest → TellsBeyond (links_in (O.objects (O.state_of objects.old))) known.old.keys root.now answer) }
    ensures known { O.is_honest → AreCompleteBeyond (O.objects (O.state_of objects.old)) known.old.keys known.new.keys }
    ensures grown { KnowsIfYes known.old.keys root.now known.new.keys result }
    ensures met { IfOk result (λ answer. O.is_honest → IsTrue answer → IsMetBeyond (links_in (O.objects (O.state_of objects.old))) known.old.keys root.now known.new.keys) }
    ensures refused { IfErr result (λ e. O.is_honest → IsMetFrom (O.objects (O.state_of objects.old)) (O.damaged (O.state_of objects.old)) (root.now ∷ []) e) }

    ensures kept { O.state_of objects.new ≡ O.state_of objects.old }
    ensures wear { Wears O.failed O.can_fail O.left objects.old objects.new (IsErrOf result (StoreFault.Fault Fault.Device)) }
{
    let before = known.len();
    match walk_beyond(objects, known, root) {
        Ok(true) => Ok(true),
        Ok(false) => {
            known.truncate(before);
            Ok(false)
        }
        Err(fault) => {
            known.truncate(before);
            Err(fault)
        }
    }
}

/// Adds the links of each of these names that is there to the known names: they are whole where what they are linked from
/// is.
pub fn learn_links<O: Objects>(
    objects: &mut O,
    known: &mut IndexSet<ObjectId>,
    names: &[ObjectId],
) -> Result<(), StoreFault>
    ensures learnt { OnOk result (O.is_honest → (id : Id) → Contains known.new.keys id ↔ (Contains known.old.keys id ⊎ IsLinkOf (links_in (O.objects (O.state_of objects.old))) names.now id)) }
    ensures known { O.is_honest → AreComplete (O.objects (O.state_of objects.old)) known.old.keys → AreCompleteBeyond (O.objects (O.state_of objects.old)) names.now known.new.keys }
    ensures refused { IfErr result (λ e. O.is_honest → IsMet (Contains names.now) (O.damaged (O.state_of objects.old)) e) }
    ensures front { take (length known.old.keys) known.new.keys ≡ known.old.keys }

    ensures kept { O.state_of objects.new ≡ O.state_of objects.old }
    ensures wear { Wears O.failed O.can_fail O.left objects.old objects.new (IsErrOf result (StoreFault.Fault Fault.Device)) }
{
    for name in names {
        if let Some(links) = objects.links(name)? {
            add_names(known, &links)?;
        }
    }
    Ok(())
}

// Adds to the known names the root and what it reaches beyond them, and ends at the first name that is absent. Whether it
// met none.
fn walk_beyond<O: Objects>(
    objects: &mut O,
    known: &mut IndexSet<ObjectId>,
    root: &ObjectId,
) -> Result<bool, StoreFault>
    ensures complete { IfOk result (λ answer. O.is_honest → TellsBeyond (links_in (O.objects (O.state_of objects.old))) known.old.keys root.now answer) }
    ensures known { IfOk result (λ answer. O.is_honest → IsTrue answer → AreCompleteBeyond (O.objects (O.state_of objects.old)) known.old.keys known.new.keys) }
    ensures root { IfOk result (λ answer. IsTrue answer → Contains known.new.keys root.now) }
    ensures met { IfOk result (λ answer. O.is_honest → IsTrue answer → IsMetBeyond (links_in (O.objects (O.state_of objects.old))) known.old.keys root.now known.new.keys) }
    ensures refused { IfErr result (λ e. O.is_honest → IsMetFrom (O.objects (O.state_of objects.old)) (O.damaged (O.state_of objects.old)) (root.now ∷ []) e) }
    ensures front { take (length known.old.keys) known.new.keys ≡ known.old.keys }

    ensures kept { O.state_of objects.new ≡ O.state_of objects.old }
    ensures wear { Wears O.failed O.can_fail O.left objects.old objects.new (IsErrOf result (StoreFault.Fault Fault.Device)) }
{
    let mut next = known.len();
    add_names(known, &[*root])?;
    while next < known.len() {
        let id = known[next];
        let Some(links) = objects.links(&id)? else {
            return Ok(false);
        };
        add_names(known, &links)?;
        next += 1;
    }
    Ok(true)
}
