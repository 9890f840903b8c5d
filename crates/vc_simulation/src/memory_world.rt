// A world in memory, from its beginning.
ghost use Rattle.std.specs.FinMap.{empty as no_files};
ghost use Rattle.std.specs.List.{AllByRecursion};
ghost use Rattle.std.specs.Prelude.{◌≡◌, ◌⊎◌, ◌+◌, ◌<◌, All, IfErr, IfOk, false, length};
ghost use Rattle.vc_events.specs.Events.{IsInWorld};
ghost use Rattle.vc_events.specs.World.{IsFull, IsNewWorld, clones_of};
ghost use Rattle.vc_simulation.specs.Memory.{PlaysSafely, done_by, memory_clone, memory_shared};

use crate::{FileWorld, world_over};
use std::alloc::Global;
use vc_events::{Answer, Event};
use vc_files::{Fault, FusedFiles, MemoryFiles};

/// Files in memory, for which a stop can be set.
pub type MemoryDevice = FusedFiles<MemoryFiles>;

/// A world whose nodes keep their files in memory.
pub type MemoryWorld = FileWorld<MemoryFiles>;

/// What came of events in a new world.
#[derive(Drop)]
pub struct Played {
    /// What each event was answered by, in order.
    pub answers: Vec<Answer>,
    /// The world after them.
    pub world: MemoryWorld,
    /// Whether all events were done. Where the world's own lists couldn't grow, those with an answer were.
    pub is_whole: bool,
}

// Files for the shared node and so many clones, with nothing stored in them.
fn empty_files(alloc: Global, clones: usize) -> Result<Vec<MemoryFiles>, Fault>
    ensures empty { IfOk result (λ files. AllByRecursion (λ f. f ≡ no_files) files.items) }
    ensures count { IfOk result (λ files. length files.items ≡ clones + 1) }
    ensures fault { IfErr result (λ e. e ≡ Fault.Memory) }
{
    let mut files = Vec::new(alloc);
    files.push(MemoryFiles::new(alloc))?;
    for _ in 0..clones {
        files.push(MemoryFiles::new(alloc))?;
    }
    Ok(files)
}

/// A new world in memory, of a shared node and so many clones, each over files that no stop is set for yet.
pub fn new_world(alloc: Global, clones: usize) -> Result<MemoryWorld, Fault>
    requires some { 0 < clones }
    ensures new { IfOk result (λ world. IsNewWorld memory_shared memory_clone clones false world) }
    ensures count { IfOk result (λ world. clones_of world ≡ clones) }
    ensures fault { IfErr result (λ e. e ≡ Fault.Memory) }
{
    let files = empty_files(alloc, clones)?;
    let world = world_over(alloc, files)?;
    Ok(world)
}

/// The events, one after the other, in a new world in memory of so many clones. A fault that comes before the first event ends it; a
/// later one of a node is the answer to its event.
pub fn run_new_world(alloc: Global, clones: usize, events: &[Event]) -> Result<Played, Fault>
    requires some { 0 < clones }
    requires events { All (IsInWorld clones) events.now }
    ensures safe { IfOk result (λ played. PlaysSafely clones (done_by events.now played) played.answers.items played.world) }
    ensures full { IfOk result (λ played. played.is_whole ≡ false → IsFull played.answers ⊎ IsFull played.world.letters) }
    ensures fault { IfErr result (λ e. e ≡ Fault.Memory) }
{
    let mut world = new_world(alloc, clones)?;
    match world.run(alloc, events) {
        Ok(answers) => Ok(Played {
            answers,
            world,
            is_whole: true,
        }),
        Err(answers) => Ok(Played {
            answers,
            world,
            is_whole: false,
        }),
    }
}
