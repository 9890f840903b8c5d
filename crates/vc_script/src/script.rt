//! Reading a script.
ghost use Rattle.std.specs.Prelude.{◌≡◌, ◌≤◌, map, option_map, All, Err, IfErr, IfOk, IfSome, Some};
ghost use Rattle.vc_events.specs.Events.{event_of, IsInWorld};
ghost use Rattle.vc_script.specs.Script.{clones_in, events_in, IsNoScript, IsReadFault, lines, script_in, script_of, script_view, world_in};
ghost use Rattle.vc_script.specs.Words.{texts};
ghost use Rattle.vc_script.specs.declared.fault.ScriptFault.TheVariants.{BadScript};

use crate::ScriptFault;
use crate::events::line_event;
use crate::words::{first_of, number_in, pair, words_of};
use std::alloc::{AllocError, Global};
use vc_events::Event;
use vc_pkt::without_lf;

/// How many clones a world is to have, and what is to happen there.
#[derive(Drop)]
pub struct Script {
    /// 1 to 16.
    pub clones: usize,
    pub events: Vec<Event>,
}

// The clones that a world has at most.
const MAX_CLONES: usize = 16;

// The lines of a text.
fn lines_of<'a>(alloc: Global, text: &'a [u8]) -> Result<Vec<&'a [u8]>, AllocError>
    ensures { IfOk result (λ found. texts found.items ≡ lines text.now) }
{
    without_lf(text).split(|byte| *byte == b'\n').collect(alloc)
}

// The number of clones that the word tells.
#[tactic(auto, unfolding(crate::specs::Script::clones_in))]
fn clones_in(word: &[u8]) -> Option<usize>
    ensures clones { result ≡ clones_in word.now }
    ensures few { IfSome result (λ clones. (1 ≤ clones) × (clones ≤ 16)) }
{
    let clones = number_in(word)?;
    if clones < 1 {
        return None;
    }
    if clones > MAX_CLONES {
        return None;
    }
    Some(clones)
}

// The number of clones that the first line tells.
#[tactic(auto, unfolding(crate::specs::Script::world_in))]
fn world_in(alloc: Global, line: &[u8]) -> Result<Option<usize>, AllocError>
    ensures clones { IfOk result (λ found. found ≡ world_in line.now) }
    ensures few { IfOk result (λ found. IfSome found (λ clones. (1 ≤ clones) × (clones ≤ 16))) }
{
    let words = words_of(alloc, line)?;
    let Some((word, number)) = pair(&words) else {
        return Ok(None);
    };
    if word != b"world".as_slice() {
        return Ok(None);
    }
    Ok(clones_in(number))
}

// The events that the lines tell, in a world of so many clones.
fn events_in(
    alloc: Global,
    clones: usize,
    lines: &[&[u8]],
) -> Result<Option<Vec<Event>>, AllocError>
    ensures events { IfOk result (λ found. option_map (λ events. map event_of events.items) found ≡ events_in clones (texts lines.now)) }
    ensures in_world { IfOk result (λ found. IfSome found (λ events. All (IsInWorld clones) events.items)) }
{
    let mut events = Vec::new(alloc);
    for line in lines {
        let Some(event) = line_event(alloc, clones, line)? else {
            return Ok(None);
        };
        events.push(event)?;
    }
    Ok(Some(events))
}

// The script that the lines are.
#[tactic(auto, unfolding(crate::specs::Script::script_in))]
fn script_in(alloc: Global, lines: &[&[u8]]) -> Result<Option<Script>, AllocError>
    ensures script { IfOk result (λ found. option_map script_view found ≡ script_in (texts lines.now)) }
    ensures clones { IfOk result (λ found. IfSome found (λ script. (1 ≤ script.clones) × (script.clones ≤ 16))) }
    ensures in_world { IfOk result (λ found. IfSome found (λ script. All (IsInWorld script.clones) script.events.items)) }
{
    let Some((first, others)) = first_of(lines) else {
        return Ok(None);
    };
    let Some(clones) = world_in(alloc, first)? else {
        return Ok(None);
    };
    let Some(events) = events_in(alloc, clones, others)? else {
        return Ok(None);
    };
    Ok(Some(Script { clones, events }))
}

/// The script that a text is. It takes time linear in the text's length, and copies what it keeps.
#[tactic(auto, unfolding(crate::specs::Script::script_of))]
pub fn read_script(alloc: Global, text: &[u8]) -> Result<Script, ScriptFault>
    ensures read { IfOk result (λ script. script_of text.now ≡ Some (script_view script)) }
    ensures clones { IfOk result (λ script. (1 ≤ script.clones) × (script.clones ≤ 16)) }
    ensures in_world { IfOk result (λ script. All (IsInWorld script.clones) script.events.items) }
    ensures refused { result ≡ Err BadScript → IsNoScript text.now }
    ensures fault { IfErr result IsReadFault }
{
    let lines = lines_of(alloc, text)?;
    let Some(script) = script_in(alloc, &lines)? else {
        return Err(ScriptFault::BadScript);
    };
    Ok(script)
}
