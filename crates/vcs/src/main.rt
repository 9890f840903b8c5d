//! The program `vcs`: Git's object model in a folder, one subcommand a run.
#![tactic(auto)]

use std::io::{ErrorKind, IsTerminal};
use std::process::ExitCode;
use std::{env, fs};
use vc_commands::{Failure, Faults, Input, known_length, run, tell};

fn main(rt: HostRuntime) -> ExitCode {
    let mut faults = Faults {
        stream: rt.stderr(),
        is_terminal: rt.stderr().is_terminal(),
    };
    // The same stream, for what is told while a run goes on.
    let progress = Faults {
        stream: rt.stderr(),
        is_terminal: faults.is_terminal,
    };
    let input = Input {
        stream: rt.reader(),
        length: length_of_input(&rt),
    };
    ExitCode::from(match words(&rt) {
        Ok(words) => run(&rt, &words, input, &mut rt.stdout(), &mut faults, progress),
        Err(failure) => tell(&failure, None, &mut faults),
    })
}

// How many bytes standard input has left, where it is a file: the system tells its length and the place in it.
fn length_of_input(rt: &HostRuntime) -> Option<usize> {
    let metadata = fs::metadata(rt, "/proc/self/fd/0").ok()?;
    if !metadata.is_file() {
        return None;
    }
    let told = fs::read_to_string(rt, "/proc/self/fdinfo/0").ok()?;
    let place = told.as_str().strip_prefix("pos:")?.lines().next()?;
    let place = place.trim().parse::<u64>().ok()?;
    known_length(true, metadata.len(), place)
}

// The words of the command line. Words that aren't text are no command line of this program.
fn words(rt: &HostRuntime) -> Result<Vec<String>, Failure> {
    let words = match env::args(rt) {
        Ok(words) => words,
        Err(error) if error.kind() == ErrorKind::InvalidData => {
            let text = "the words of the command line aren't all UTF-8";
            return Err(Failure::Usage(String::from_str(rt.alloc(), text)?));
        }
        Err(error) => return Err(Failure::from(error)),
    };
    Ok(words.collect(rt.alloc())?)
}
