//! Plays scripts of worlds, and prints each of their lines with what was answered.
//!
//! A script is the rows up to a blank one, a line a row. `N* LINE` stands for N times the line, and its answers stand on one row,
//! where `N* ` stands before an answer that came N times in turn. A row `text TEXT` is a script by itself, whose bytes are
//! escaped, as `\n` and `\xFF`. What begins with `#` is a comment.
#![tactic(auto)]

use bstr::ByteVec;
use std::alloc::{AllocError, Global};
use std::io::{self, BufRead, BufReader, BufWriter, Write};
use vc_script::ScriptFault;
use vc_simulation::run_script;

/// A row of a script, and how many lines it stands for.
#[derive(Drop)]
struct Row {
    text: String,
    times: usize,
}

impl Row {
    fn read(alloc: Global, text: &str) -> Result<Row, AllocError> {
        let (times, _) = times_of(text);
        let text = String::from_str(alloc, text)?;
        Ok(Row { text, times })
    }
}

// How often a row's line comes, and the line.
fn times_of(row: &str) -> (usize, &str) {
    if let Some((front, line)) = row.split_once("* ") {
        if let Ok(times) = front.parse::<usize>() {
            return (times.min(20_000), line);
        }
    }
    (1, row)
}

// The script that the rows are.
fn text_of(alloc: Global, rows: &[Row]) -> Result<Vec<u8>, AllocError> {
    let mut text = Vec::new(alloc);
    for row in rows {
        let (times, line) = times_of(row.text.as_str());
        for _ in 0..times {
            text.extend_from_slice(line.as_bytes())?;
            text.push(b'\n')?;
        }
    }
    Ok(text)
}

// Prints an answer, and before it how often it came.
fn print_answer<W: Write>(answer: &[u8], times: usize, out: &mut W) -> io::Result<()> {
    if times > 1 {
        write!(out, "{times}* ")?;
    }
    out.write_all(answer)
}

// Prints the answers of a row, those that are the same in turn once.
fn print_answers<W: Write>(answers: &[&[u8]], out: &mut W) -> io::Result<()> {
    let mut times: usize = 0;
    for (place, answer) in answers.iter().enumerate() {
        times = times.saturating_add(1);
        let next = answers.get(place.saturating_add(1));
        if next != Some(answer) {
            print_answer(answer, times, out)?;
            times = 0;
            if next.is_some() {
                out.write_all(b", ")?;
            }
        }
    }
    Ok(())
}

// So many of the answers, from this one on.
fn cut<'a, 'b>(answers: &'a [&'b [u8]], first: usize, count: usize) -> &'a [&'b [u8]] {
    let (_, behind) = answers.split_at(first.min(answers.len()));
    let (mine, _) = behind.split_at(count.min(behind.len()));
    mine
}

// Prints a row, and its answers after it.
fn print_row<W: Write>(row: &Row, answers: &[&[u8]], out: &mut W) -> io::Result<()> {
    out.write_all(row.text.as_bytes())?;
    if !answers.is_empty() {
        out.write_all(b" = ")?;
        print_answers(answers, out)?;
    }
    out.write_all(b"\n")
}

// Prints the rows, each with its answers. The first row tells of the world, and has none.
fn print_rows<W: Write>(rows: &[Row], answers: &[&[u8]], out: &mut W) -> io::Result<()> {
    let mut first: usize = 0;
    for (place, row) in rows.iter().enumerate() {
        let count = if place == 0 { 0 } else { row.times };
        print_row(row, cut(answers, first, count), out)?;
        first = first.saturating_add(count);
    }
    Ok(())
}

// Prints why a script is not played to its end.
fn print_fault<W: Write>(played: Result<(), ScriptFault>, out: &mut W) -> io::Result<()> {
    match played {
        Ok(()) => Ok(()),
        Err(fault) => writeln!(out, "{fault}"),
    }
}

// The lines of what was told.
fn lines_of(alloc: Global, said: &[u8]) -> Result<Vec<&[u8]>, AllocError> {
    let mut lines = Vec::new(alloc);
    for line in said.split(|byte| *byte == b'\n') {
        if !line.is_empty() {
            lines.push(line)?;
        }
    }
    Ok(lines)
}

// Plays the script that the rows are.
fn play<W: Write>(alloc: Global, rows: &[Row], out: &mut W) -> io::Result<()> {
    let mut said = Vec::new(alloc);
    let played = run_script(alloc, &text_of(alloc, rows)?, &mut said);
    print_rows(rows, &lines_of(alloc, &said)?, out)?;
    print_fault(played, out)
}

// Plays a script that a row holds whole.
fn play_text<W: Write>(alloc: Global, row: &str, escaped: &str, out: &mut W) -> io::Result<()> {
    let text = Vec::unescape_bytes(alloc, escaped)?;
    let mut said = Vec::new(alloc);
    let played = run_script(alloc, &text, &mut said);
    write!(out, "{row} = ")?;
    print_answers(&lines_of(alloc, &said)?, out)?;
    if played.is_ok() {
        out.write_all(b"\n")?;
    }
    print_fault(played, out)
}

fn main(rt: HostRuntime) -> io::Result<()> {
    let alloc = rt.alloc();
    let mut out = BufWriter::new(alloc, rt.stdout())?;
    let mut rows = Vec::new(alloc);
    for row in BufReader::new(alloc, rt.reader())?.lines(alloc) {
        let row = row?;
        let row = row.as_str();
        if row.is_empty() {
            play(alloc, &rows, &mut out)?;
            rows.clear();
            out.write_all(b"\n")?;
        } else if let Some(escaped) = row.strip_prefix("text ") {
            play_text(alloc, row, escaped, &mut out)?;
        } else if row.starts_with('#') {
            writeln!(out, "{row}")?;
        } else {
            rows.push(Row::read(alloc, row)?)?;
        }
    }
    out.flush()
}
