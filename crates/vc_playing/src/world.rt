//! The subcommand `world`: a script of a world of nodes, played in memory.
ghost use Rattle.std.specs.Prelude.{◌≡◌, ◌⊎◌, IfErr, IfOk, IfSome, OnErr, OnOk};
ghost use Rattle.std.specs.Io.KnownBytes.{Appends, Keeps};
ghost use Rattle.vc_cli.specs.Failure.{IsFault};
ghost use Rattle.vc_cli.specs.Printed.{PrintsFront};
ghost use Rattle.vc_playing.specs.PlayedWorld.{IsOfScript, PrintsFirst, PrintsPlayed};

use std::alloc::Global;
use std::io::{Read, Write};
use vc_cli::{Failure, print_text};
use vc_object::MAX_BODY;
use vc_reading::Input;
use vc_script::ScriptFault;
use vc_simulation::run_script;

/// Plays the script that the input holds, and prints what each of its events is answered.
pub fn world<I: Read + Drop, O: Write>(
    alloc: Global,
    input: Input<I>,
    output: &mut O,
) -> Result<(), Failure>
    ensures printed { OnOk result (IfSome (I.remaining input.stream) (λ script. PrintsPlayed script (Appends (O.contents output.old) (O.contents output.new)))) }
    ensures refused { IfErr result (λ e. IfSome (I.remaining input.stream) (λ script. IsOfScript script e)) }
    ensures nothing_printed { IfErr result (λ e. IsFault e ⊎ Keeps (O.contents output.old) (O.contents output.new)) }
    ensures front { OnErr result (IfSome (I.remaining input.stream) (λ script. PrintsFront (PrintsFirst script) (O.contents output.old) (O.contents output.new))) }
{
    let Input { stream, length } = input;
    let script = read_all(alloc, stream, length.unwrap_or(0))?;
    print_played(alloc, &script, output)
}

// All bytes of the stream. Room for as many as are expected is made at once, if these aren't far too many.
fn read_all<I: Read + Drop>(
    alloc: Global,
    mut stream: I,
    expected: usize,
) -> Result<Vec<u8>, Failure>
    ensures all { IfOk result (λ text. IfSome (I.remaining stream) (λ bytes. text.items ≡ bytes)) }
    ensures fault { IfErr result IsFault }
{
    let mut text = Vec::with_capacity(alloc, expected.min(MAX_BODY).saturating_add(1))?;
    stream.read_to_end(&mut text)?;
    Ok(text)
}

/// Plays the script that the text is, and prints what each of its events is answered, one a line. Of a text that is none nothing is
/// printed; where memory runs out, or a device fails, the answers up to there are.
pub fn print_played<O: Write>(alloc: Global, script: &[u8], output: &mut O) -> Result<(), Failure>
    ensures printed { OnOk result (PrintsPlayed script.now (Appends (O.contents output.old) (O.contents output.new))) }
    ensures refused { IfErr result (IsOfScript script.now) }
    ensures nothing_printed { IfErr result (λ e. IsFault e ⊎ Keeps (O.contents output.old) (O.contents output.new)) }
    ensures front { OnErr result (PrintsFront (PrintsFirst script.now) (O.contents output.old) (O.contents output.new)) }
{
    let mut lines = Vec::new(alloc);
    let played = run_script(alloc, script, &mut lines);
    match played {
        Ok(()) => print_text(&lines, output),
        Err(ScriptFault::BadScript) => Err(Failure::BadScript),
        Err(ScriptFault::Fault(fault)) => {
            print_text(&lines, output)?;
            Err(Failure::Fault(fault))
        }
    }
}
