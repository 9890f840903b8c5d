// A script, played in a new world.
ghost use Rattle.std.specs.Prelude.{◌≡◌, ◌⊎◌, Err, IfErr, OnErr, OnOk};
ghost use Rattle.vc_script.specs.Script.{IsNoScript, IsReadFault};
ghost use Rattle.vc_script.specs.declared.fault.ScriptFault.TheVariants.{BadScript};
ghost use Rattle.vc_simulation.specs.Playing.{Plays, PlaysFront};

use crate::memory_world::run_new_world;
use std::alloc::Global;
use vc_files::Fault;
use vc_script::{ScriptFault, add_lines, read_script};

/// Plays the script that the text is in a new world in memory, and puts a line for each answer after the output. A text that is no
/// script is refused (114) before anything is done. Where memory is short the first of the answers are told, as many as were made
/// and could be.
pub fn run_script(alloc: Global, text: &[u8], output: &mut Vec<u8>) -> Result<(), ScriptFault>
    ensures plays { OnOk result (Plays text.now output.old.items output.new.items) }
    ensures refused { result ≡ Err BadScript → IsNoScript text.now × (output.new.items ≡ output.old.items) }
    ensures fault { OnErr result ((output.new.items ≡ output.old.items) ⊎ PlaysFront text.now output.old.items output.new.items) }
    ensures only { IfErr result IsReadFault }
{
    let script = match read_script(alloc, text) {
        Ok(script) => script,
        Err(fault) => return Err(fault),
    };
    let played = match run_new_world(alloc, script.clones, &script.events) {
        Ok(played) => played,
        Err(fault) => return Err(ScriptFault::Fault(fault)),
    };
    add_lines(alloc, &played.answers, played.world.letters(), output)?;
    if played.is_whole {
        Ok(())
    } else {
        Err(ScriptFault::Fault(Fault::Memory))
    }
}
