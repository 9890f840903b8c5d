//! What is known to be whole before anything is read.
ghost use Rattle.std.specs.Prelude.{◌≡◌, ⊤, [], IfOk, IfErr, IsErrOf};
ghost use Rattle.vc_files.specs.Failures.{Wears};
ghost use Rattle.vc_object_map.specs.StoreFault.{IsMet};
ghost use Rattle.vc_refs.specs.RefFault.{BlamesList};
ghost use Rattle.vc_push_rules.specs.Known.{AreRefsWhole};
ghost use Rattle.vc_quarantine.specs.Known.{AreWhole};
ghost use Rattle.vc_object_map.specs.Store.{objects};

use indexmap::IndexSet;
use std::alloc::Global;
use vc_files::{Fault, Files};
use vc_graph::learn_links;
use vc_object::ObjectId;
use vc_object_map::{Commits, StoreFault};
use vc_push::Command;
use vc_refs::{RefFault, list};

/// Names of which it is known that all that they reach is there. The walk of a check stops at them.
#[derive(Drop)]
pub struct Known {
    /// All that these link to, and so on, is there.
    pub objects: IndexSet<ObjectId>,
    /// These are commits with commits alone along their parent links.
    pub histories: IndexSet<ObjectId>,
}

impl Known {
    /// Nothing is known.
    pub fn nothing(alloc: Global) -> Known
        ensures objects { result.objects.keys ≡ [] }
        ensures histories { result.histories.keys ≡ [] }
    {
        Known {
            objects: IndexSet::new(alloc),
            histories: IndexSet::new(alloc),
        }
    }

    /// The values of all refs, and as commits those of all but the tags. The packed file and each file in `refs/` are read once.
    pub fn by_refs<F: Files>(files: &mut F, alloc: Global) -> Result<Known, RefFault>
        ensures whole { F.honest → IfOk result (λ known. AreRefsWhole (F.content files.old) → AreWhole (objects (F.content files.old)) known) }
        ensures refused { F.honest → IfErr result (BlamesList (F.content files.old)) }
        ensures same { F.content files.new ≡ F.content files.old }
        ensures wear { Wears F.failed F.can_fail F.left files.old files.new (IsErrOf result (RefFault.Fault Fault.Device)) }
    {
        let mut known = Known::nothing(alloc);
        for (name, id) in &list(files, alloc)? {
            known.objects.insert(*id)?;
            if !name.is_tag() {
                known.histories.insert(*id)?;
            }
        }
        Ok(known)
    }

    /// What [`by_refs`](Known::by_refs) tells, or nothing where a file in `refs/` is bad: then a walk goes all the way down.
    pub fn by_good_refs<F: Files>(files: &mut F, alloc: Global) -> Result<Known, Fault>
        ensures whole { F.honest → IfOk result (λ known. AreRefsWhole (F.content files.old) → AreWhole (objects (F.content files.old)) known) }
        ensures same { F.content files.new ≡ F.content files.old }
        ensures wear { Wears F.failed F.can_fail F.left files.old files.new (IsErrOf result Fault.Device) }
    {
        match Known::by_refs(files, alloc) {
            Ok(known) => Ok(known),
            Err(RefFault::Fault(fault)) => Err(fault),
            Err(_) => Ok(Known::nothing(alloc)),
        }
    }

    /// Adds what the old values of the commands link to, where they are known, and what that links to: the trees of the
    /// tips that a push builds on, and what stands in them. Those are most of what the new trees hold.
    pub fn learn_tips<C: Commits>(
        &mut self,
        alloc: Global,
        commits: &mut C,
        commands: &[Command],
    ) -> Result<(), StoreFault>
        ensures whole { C.is_honest → AreWhole (C.objects (C.state_of commits.old)) self.old → AreWhole (C.objects (C.state_of commits.old)) self.new }
        ensures refused { IfErr result (λ e. C.is_honest → IsMet (λ id. ⊤) (C.damaged (C.state_of commits.old)) e) }
        ensures kept { C.state_of commits.new ≡ C.state_of commits.old }
        ensures wear { Wears C.failed C.can_fail C.left commits.old commits.new (IsErrOf result (StoreFault.Fault Fault.Device)) }
    {
        let mut tips = Vec::new(alloc);
        for command in commands {
            if self.objects.contains(&command.old) {
                tips.push(command.old)?;
            }
        }
        let place = self.objects.len();
        learn_links(commits, &mut self.objects, &tips)?;
        let (_, linked) = self.objects.as_slice().split_at(place);
        let linked = linked.to_vec(alloc)?;
        learn_links(commits, &mut self.objects, &linked)?;
        Ok(())
    }
}
