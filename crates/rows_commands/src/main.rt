//! Scripts of command lines: each line is run as the program `vcs` runs it, and the transcript is printed.
//!
//! The arguments name the scripts. A line of a script is blank, or one of these:
//!
//! ```text
//! # text          a comment
//! $ vcs words     a command line; behind it stand what it printed, its faults, and a status that isn't 0
//! < bytes         what the next command line has on standard input
//! & path          keeps the objects of the store at the path during the next command line, as a server that is at an answer
//! > path bytes    writes a file, and makes the folders above it
//! - path          removes a file
//! ? path          shows a file
//! ```
//!
//! Words are parted by spaces; one in single quotes may hold spaces and escapes. Bytes are escaped, as `\n` and `\xFF`.
#![tactic(auto)]

use bstr::{ByteSlice, ByteVec};
use std::alloc::AllocError;
use std::fs::File;
use std::io::{self, BufWriter, ErrorKind, Write};
use std::net::Net;
use std::sync::Wait;
use std::thread::Threads;
use std::time::Clock;
use std::{env, fs, rt};
use vc_cli::keep_objects;
use vc_commands::{Faults, Input, run};
use vc_folder::FolderShare;
use vc_work_folder::Beside;

fn main(rt: HostRuntime) -> io::Result<()> {
    let mut out = BufWriter::new(rt.alloc(), rt.stdout())?;
    for name in env::args(&rt)?.skip(1) {
        let script = fs::read_to_string(&rt, name.as_str())?;
        run_script(&rt, script.as_str(), &mut out)?;
        out.flush()?;
    }
    Ok(())
}

fn run_script<R, W>(rt: &R, script: &str, out: &mut W) -> io::Result<()>
where
    R: rt::Files<File = File>
        + Threads
        + Wait
        + Net
        + Clock
        + Beside<R>
        + AllocGlobal
        + Clone
        + Drop
        + Send
        + Sync,
    R::Stream: Send,
    R::Listener: Sync,
    R::Dir: Send,
    W: Write,
{
    let mut next = Next {
        input: Vec::new(rt.alloc()),
        kept: None,
    };
    for line in script.lines() {
        if let Some(path) = line.strip_prefix("? ") {
            show_file(rt, path, out)?;
        } else {
            writeln!(out, "{line}")?;
            follow(rt, line, &mut next, out)?;
        }
    }
    Ok(())
}

// What the next command line meets.
#[derive(Drop)]
struct Next {
    // What it has on standard input.
    input: Vec<u8>,
    // Whose objects stay meanwhile, if any.
    kept: Option<FolderShare>,
}

// Does what a line says. One that is neither blank nor of a known form is a mistake in the script.
fn follow<R, W>(rt: &R, line: &str, next: &mut Next, out: &mut W) -> io::Result<()>
where
    R: rt::Files<File = File>
        + Threads
        + Wait
        + Net
        + Clock
        + Beside<R>
        + AllocGlobal
        + Clone
        + Drop
        + Send
        + Sync,
    R::Stream: Send,
    R::Listener: Sync,
    R::Dir: Send,
    W: Write,
{
    let Some((form, rest)) = line.split_once(' ') else {
        return Ok(());
    };
    match form {
        "#" => Ok(()),
        "$" => {
            run_words(rt, rest, &next.input, out)?;
            next.input.clear();
            next.kept = None;
            Ok(())
        }
        "<" => {
            next.input = Vec::unescape_bytes(rt.alloc(), rest)?;
            Ok(())
        }
        "&" => match keep_objects(rt, rest) {
            Ok(kept) => {
                next.kept = Some(kept);
                Ok(())
            }
            Err(_) => Err(io::Error::from(ErrorKind::Other)),
        },
        ">" => write_file(rt, rest),
        "-" => fs::remove_file(rt, rest),
        _ => Err(io::Error::from(ErrorKind::InvalidInput)),
    }
}

// Runs a command line over this input, and prints what it printed.
fn run_words<R, W>(rt: &R, line: &str, input: &[u8], out: &mut W) -> io::Result<()>
where
    R: rt::Files<File = File>
        + Threads
        + Wait
        + Net
        + Clock
        + Beside<R>
        + AllocGlobal
        + Clone
        + Drop
        + Send
        + Sync,
    R::Stream: Send,
    R::Listener: Sync,
    R::Dir: Send,
    W: Write,
{
    let words = words_of(rt, line)?;
    let mut output = Vec::new(rt.alloc());
    let mut faults = Faults {
        stream: Vec::new(rt.alloc()),
        is_terminal: false,
    };
    let input = Input {
        stream: input,
        length: None,
    };
    let progress = Faults {
        stream: Vec::new(rt.alloc()),
        is_terminal: false,
    };
    let status = run(rt, &words, input, &mut output, &mut faults, progress);
    print_text(&output, out)?;
    print_text(&faults.stream, out)?;
    if status != 0 {
        writeln!(out, "status {status}")?;
    }
    Ok(())
}

// The words of a command line: what stands in single quotes is one word, and of the rest each space ends one.
fn words_of<R: AllocGlobal>(rt: &R, line: &str) -> Result<Vec<String>, AllocError> {
    let mut words = Vec::new(rt.alloc());
    for (place, part) in line.split('\'').enumerate() {
        if place % 2 == 1 {
            words.push(Vec::unescape_bytes(rt.alloc(), part)?.into_string_lossy()?)?;
        } else {
            for word in part.split_ascii_whitespace() {
                words.push(String::from_str(rt.alloc(), word)?)?;
            }
        }
    }
    Ok(words)
}

// Prints line by line. Behind a last one that lacks its line feed stands a backslash.
fn print_text<W: Write>(text: &[u8], out: &mut W) -> io::Result<()> {
    for line in text.lines_with_terminator() {
        match line.strip_suffix(b"\n") {
            Some(line) => print_escaped(line, "\n", out)?,
            None => print_escaped(line, "\\\n", out)?,
        }
    }
    Ok(())
}

// Prints bytes and what stands behind them. Spaces stay, and everything else is escaped, so plain text stays as it is.
fn print_escaped<W: Write>(bytes: &[u8], end: &str, out: &mut W) -> io::Result<()> {
    for (place, word) in bytes.split_str(b" ").enumerate() {
        if place > 0 {
            write!(out, " ")?;
        }
        write!(out, "{}", word.escape_bytes())?;
    }
    write!(out, "{end}")
}

// Writes a file: its path, a space, its bytes.
fn write_file<R: rt::Files + AllocGlobal>(rt: &R, words: &str) -> io::Result<()> {
    let (path, bytes) = words.split_once(' ').unwrap_or((words, ""));
    if let Some((folder, _)) = path.rsplit_once('/') {
        fs::create_dir_all(rt, folder)?;
    }
    fs::write(rt, path, Vec::unescape_bytes(rt.alloc(), bytes)?)
}

// Prints the path and what the file there holds.
fn show_file<R, W>(rt: &R, path: &str, out: &mut W) -> io::Result<()>
where
    R: rt::Files + AllocGlobal,
    W: Write,
{
    write!(out, "? {path} = ")?;
    match fs::read(rt, path) {
        Ok(bytes) => print_escaped(&bytes, "\n", out),
        Err(error) if error.kind() == ErrorKind::NotFound => writeln!(out, "absent"),
        Err(error) => Err(error),
    }
}
