// A world over files of any kind, one list of them for all its nodes.
ghost use Rattle.std.specs.List.{AllByRecursion};
ghost use Rattle.std.specs.Prelude.{◌≡◌, ◌+◌, ◌-◌, ◌<◌, Bool, IfErr, IfOk, length};
ghost use Rattle.vc_events.specs.World.{IsNewWorld, clones_of, fresh_clone, fresh_shared};
ghost use Rattle.vc_rules.specs.Stops.{IsBelow};
ghost use Rattle.vc_simulation.specs.Nodes.{BeginsAs, IsEmpty, IsMemoryUnless, fault_of, seen_cloned, seen_served};

use crate::{WorldClone, WorldShared};
use std::alloc::Global;
use vc_events::World;
use vc_files::{Fault, Files, FusedFiles};
use vc_local::NodeFault;
use vc_object_map::StoreFault;
use vc_refs::RefFault;

/// A world whose nodes keep what they store in files of this kind, for which a stop can be set.
pub type FileWorld<F> = World<WorldShared<FusedFiles<F>>, WorldClone<FusedFiles<F>>>;

// The fault for which a node was not opened. Files that hold what nobody stored there are a device that failed.
fn fault_of(fault: &NodeFault) -> Fault
    ensures { result ≡ fault_of fault.now }
{
    match fault {
        NodeFault::Store(StoreFault::Fault(fault)) => *fault,
        NodeFault::Ref(RefFault::Fault(fault)) => *fault,
        _ => Fault::Device,
    }
}

fn new_shared<F: Files + Drop>(alloc: Global, files: F) -> Result<WorldShared<FusedFiles<F>>, Fault>
    ensures new { F.honest → (frail : Bool) → IsBelow F.can_fail F.left frail → IsEmpty F.content files → IfOk result (λ shared. BeginsAs (seen_served F.content F.can_fail F.left) frail shared fresh_shared) }
    ensures fault { F.honest → (frail : Bool) → IsBelow F.can_fail F.left frail → IsEmpty F.content files → IfErr result (IsMemoryUnless frail) }
{
    match WorldShared::over(alloc, files) {
        Ok(shared) => Ok(shared),
        Err(back) => Err(fault_of(&back.1)),
    }
}

fn new_clone<F: Files + Drop>(alloc: Global, files: F) -> Result<WorldClone<FusedFiles<F>>, Fault>
    ensures new { F.honest → (frail : Bool) → IsBelow F.can_fail F.left frail → IsEmpty F.content files → IfOk result (λ clone. BeginsAs (seen_cloned F.content F.can_fail F.left) frail clone fresh_clone) }
    ensures fault { F.honest → (frail : Bool) → IsBelow F.can_fail F.left frail → IsEmpty F.content files → IfErr result (IsMemoryUnless frail) }
{
    match WorldClone::over(alloc, files) {
        Ok(clone) => Ok(clone),
        Err(back) => Err(fault_of(&back.1)),
    }
}

fn new_clones<F: Files + Drop>(
    alloc: Global,
    files: Vec<F>,
) -> Result<Vec<WorldClone<FusedFiles<F>>>, Fault>
    ensures new { F.honest → (frail : Bool) → IsBelow F.can_fail F.left frail → AllByRecursion (IsEmpty F.content) files.items → IfOk result (λ clones. AllByRecursion (λ c. BeginsAs (seen_cloned F.content F.can_fail F.left) frail c fresh_clone) clones.items) }
    ensures count { IfOk result (λ clones. length clones.items ≡ length files.items) }
    ensures fault { F.honest → (frail : Bool) → IsBelow F.can_fail F.left frail → AllByRecursion (IsEmpty F.content) files.items → IfErr result (IsMemoryUnless frail) }
{
    let mut clones = Vec::new(alloc);
    for file in files {
        let clone = new_clone(alloc, file)?;
        clones.push(clone)?;
    }
    Ok(clones)
}

/// A new world over these files: the shared node's come first, then each clone's, and there is one clone at least. Nothing is stored in
/// them yet, and no stop is set for any of them. Where a fault comes they are dropped.
pub fn world_over<F: Files + Drop>(alloc: Global, mut files: Vec<F>) -> Result<FileWorld<F>, Fault>
    requires some { 1 < length files.items }
    ensures new { F.honest → (frail : Bool) → IsBelow F.can_fail F.left frail → AllByRecursion (IsEmpty F.content) files.items → IfOk result (λ world. IsNewWorld (seen_served F.content F.can_fail F.left) (seen_cloned F.content F.can_fail F.left) (length files.items - 1) frail world) }
    ensures count { IfOk result (λ world. clones_of world + 1 ≡ length files.items) }
    ensures fault { F.honest → (frail : Bool) → IsBelow F.can_fail F.left frail → AllByRecursion (IsEmpty F.content) files.items → IfErr result (IsMemoryUnless frail) }
{
    let shared = new_shared(alloc, files.remove(0))?;
    let clones = new_clones(alloc, files)?;
    Ok(World::over(alloc, shared, clones))
}
