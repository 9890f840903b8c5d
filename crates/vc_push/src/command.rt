//! Commands that change refs.

ghost use Rattle.std.specs.Prelude.{◌≡◌, ◌≤◌, ◌+◌, ◌++◌, [], length, map, OnOk};
ghost use Rattle.std.specs.List.{All, flat_map};
ghost use Rattle.std.specs.Option.{option_map};
ghost use Rattle.vc_pkt.specs.Line.{spelling};
ghost use Rattle.vc_pkt.specs.Message.{onward};
ghost use Rattle.vc_pkt.specs.StepView.{Gives};
ghost use Rattle.vc_push.specs.Push.{IsShort, asks_atomic, capabilities, command_line, command_lines, commanding, name_cut, one_more, only_deletes, written_command, zero_id};
ghost use Rattle.vc_object.specs.ObjectId.{id_eq};
ghost use Rattle.vc_push.specs.PushView.{command_lent, command_of, commands_of, head_text};

use std::alloc::{AllocError, Global};
use vc_fetch::{id_of, is_name};
use vc_object::{ObjectId, cut_at};
use vc_pkt::{PktError, PktFault, without_lf, write_text};

/// The commands of one push, at most.
pub const MAX_COMMANDS: usize = 256;

/// What a ref is to become. [`ObjectId::ZERO`] stands for no value: a new ref has it as its old id, and one that is to be
/// deleted as its new one.
#[derive(Drop)]
pub struct Command {
    /// The value that the sender takes the ref to have.
    pub old: ObjectId,
    /// The value that it is to have.
    pub new: ObjectId,
    /// The ref's name as it came, legal or not. Where the message was read, it isn't empty, and holds no NUL, LF or space.
    pub name: Vec<u8>,
}

/// What stands before the objects of a push.
#[derive(Drop)]
pub struct PushHead {
    /// Whether all refs are to be set, or none.
    pub atomic: bool,
    /// At least one, at most 256, where the message was read.
    pub commands: Vec<Command>,
}

/// A command as a line lends it.
#[derive(Clone, Copy)]
pub(crate) struct CommandLine<'a> {
    pub(crate) old: ObjectId,
    pub(crate) new: ObjectId,
    pub(crate) name: &'a [u8],
    /// Whether the line asks for an atomic push.
    pub(crate) atomic: bool,
}

/// What is written after the first name: a NUL, and the words that tell what the sender can do and asks for.
fn capabilities(atomic: bool) -> &'static [u8]
    ensures words { result.now ≡ capabilities atomic }
    ensures few { length result.now ≤ 24 }
{
    match atomic {
        true => b"\0report-status-v2 atomic",
        false => b"\0report-status-v2",
    }
}

/// Whether the word `atomic` is among these, which spaces part.
fn asks_atomic(capabilities: &[u8]) -> bool
    ensures { result ≡ asks_atomic capabilities.now }
{
    capabilities
        .split(|byte| *byte == b' ')
        .any(|word| word == b"atomic".as_slice())
}

/// The name and the capabilities, which stand after a NUL in the first line.
fn name_cut(is_first: bool, words: &[u8]) -> Option<(&[u8], &[u8])>
    ensures { option_map (λ parts. (parts.0.now, parts.1.now)) result ≡ name_cut is_first words.now }
{
    if is_first {
        return cut_at(words, 0);
    }
    Some((words, b""))
}

/// The command of a line.
#[tactic(auto, unfolding(crate::specs::Push::command_line))]
pub(crate) fn command_line(is_first: bool, line: &[u8]) -> Option<CommandLine<'_>>
    ensures { option_map command_lent result ≡ command_line is_first line.now }
{
    let (digits, rest) = without_lf(line).split_at_checked(40)?;
    let old = id_of(digits)?;
    let rest = rest.strip_prefix(b" ")?;
    let (digits, rest) = rest.split_at_checked(40)?;
    let new = id_of(digits)?;
    let words = rest.strip_prefix(b" ")?;
    let (name, capabilities) = name_cut(is_first, words)?;
    if !is_name(name) {
        return None;
    }
    let atomic = asks_atomic(capabilities);
    Some(CommandLine {
        old,
        new,
        name,
        atomic,
    })
}

/// Adds the command of a line, if the line has one and there is room.
pub(crate) fn push_command(
    alloc: Global,
    head: &mut PushHead,
    found: Option<CommandLine<'_>>,
    number: u64,
) -> Result<(), PktError>
    ensures { Gives (λ _. onward (commanding (head_text head.new))) result (one_more number (head_text head.old) (option_map command_lent found.entry)) }
{
    let Some(line) = found else {
        return Err(PktError::Refused(PktFault::BadRecord(number)));
    };
    if head.commands.len() >= MAX_COMMANDS {
        return Err(PktError::Refused(PktFault::TooMany));
    }
    let name = line.name.to_vec(alloc)?;
    head.commands.push(Command {
        old: line.old,
        new: line.new,
        name,
    })?;
    head.atomic = head.atomic || line.atomic;
    Ok(())
}

/// Whether the id stands for no value.
fn is_zero(id: ObjectId) -> bool
    ensures { result ≡ id_eq id zero_id }
{
    id == ObjectId::ZERO
}

/// Whether every new id is zero: then nothing is carried.
pub(crate) fn only_deletes(commands: &[Command]) -> bool
    ensures { result ≡ only_deletes (commands_of commands.now) }
{
    commands.iter().all(|command| is_zero(command.new))
}

/// Writes the line of a command, with this tail after its name.
fn write_command(out: &mut Vec<u8>, tail: &[u8], command: &Command) -> Result<(), AllocError>
    requires short { length command.now.name.items + length tail.now ≤ 65433 }
    ensures { OnOk result (out.new.items ≡ out.old.items ++ spelling (written_command tail.now (command_of command.now))) }
{
    let mut words = Vec::new(*out.allocator());
    words.extend_from_slice(&command.old.to_hex())?;
    words.push(b' ')?;
    words.extend_from_slice(&command.new.to_hex())?;
    words.push(b' ')?;
    words.extend_from_slice(&command.name)?;
    words.extend_from_slice(tail)?;
    write_text(out, &words)
}

/// Writes the lines of commands after the first.
fn write_others(out: &mut Vec<u8>, commands: &[Command]) -> Result<(), AllocError>
    requires short { All (λ c. IsShort (command_of c)) commands.now }
    ensures { OnOk result (out.new.items ≡ out.old.items ++ flat_map spelling (map (written_command []) (commands_of commands.now))) }
{
    'commands: for command in commands {
        write_command(out, b"", command)?;
    }
    Ok(())
}

/// Writes a line for each command, the capabilities after the first name.
pub(crate) fn write_commands(
    out: &mut Vec<u8>,
    atomic: bool,
    commands: &[Command],
) -> Result<(), AllocError>
    requires short { All (λ c. IsShort (command_of c)) commands.now }
    ensures { OnOk result (out.new.items ≡ out.old.items ++ flat_map spelling (command_lines atomic (commands_of commands.now))) }
{
    let Some((first, others)) = commands.split_first() else {
        return Ok(());
    };
    write_command(out, capabilities(atomic), first)?;
    write_others(out, others)?;
    Ok(())
}
