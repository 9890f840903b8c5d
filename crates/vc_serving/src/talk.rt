//! What is told of a connection once it has ended.
use std::io::{self, Write};
use std::net::SocketAddr;
use std::time::{Clock, Duration};
use vc_server::{ServeFault, Served};

/// What went over a connection.
#[derive(Clone, Copy)]
pub struct Talk {
    /// How many messages came whole.
    pub messages: u64,
    /// What came last.
    pub asked: &'static str,
    /// What became of it.
    pub told: Told,
    /// How many bytes came, and how many went out.
    pub came: u64,
    pub went: u64,
}

/// What became of a message.
#[derive(Clone, Copy)]
pub enum Told {
    Nothing,
    Answered,
    Refused(u16),
    ReadFailed,
    WriteFailed,
    Fault,
}

impl Talk {
    /// Nothing came yet.
    pub fn new() -> Talk {
        Talk {
            messages: 0,
            asked: "nothing",
            told: Told::Nothing,
            came: 0,
            went: 0,
        }
    }

    /// This became of what came last. The end of a connection leaves what was told before.
    pub fn note(&mut self, served: &Result<Served, ServeFault>) {
        self.told = match served {
            Ok(Served::End) => return,
            Ok(Served::Answered) => Told::Answered,
            Ok(Served::Refused(number)) => Told::Refused(*number),
            Err(ServeFault::ReadFailed) => Told::ReadFailed,
            Err(ServeFault::WriteFailed) => Told::WriteFailed,
            Err(_) => Told::Fault,
        };
    }
}

/// What bytes ask for, by the first of them.
pub fn kind_of(front: &[u8]) -> &'static str {
    let Some((_, words)) = front.split_at_checked(4) else {
        return "other";
    };
    if words.starts_with(b"list") {
        return "list";
    }
    if words.starts_with(b"want ") {
        return "want";
    }
    match words.first() {
        Some(letter) if letter.is_ascii_hexdigit() => "push",
        _ => "other",
    }
}

/// Tells of a connection in one line: the seconds since 1970, its other end, what was asked last and what became of it, how many bytes
/// came and went, and how many milliseconds it lasted. It goes out with one write, since others may write there too.
pub fn log<R: Clock + AllocGlobal, W: Write>(
    rt: &R,
    stream: &mut W,
    peer: &SocketAddr,
    begun: Duration,
    talk: &Talk,
) -> io::Result<()> {
    let now = rt.since_1970()?.as_secs();
    let lasted = millis(rt.monotonic()?.saturating_sub(begun));
    let mut line = Vec::new(rt.alloc());
    write!(line, "{now} {peer} {} ", talk.asked)?;
    write_told(&mut line, talk.told)?;
    writeln!(line, " {} {} {lasted}", talk.came, talk.went)?;
    stream.write_all(&line)
}

// How many milliseconds this is.
fn millis(lasted: Duration) -> u64 {
    let whole = lasted.as_secs().saturating_mul(1_000);
    whole.saturating_add(lasted.subsec_millis() as u64)
}

// What became of a message, in one word.
fn write_told<W: Write>(stream: &mut W, told: Told) -> io::Result<()> {
    match told {
        Told::Nothing => write!(stream, "nothing"),
        Told::Answered => write!(stream, "answered"),
        Told::Refused(number) => write!(stream, "refused:{number}"),
        Told::ReadFailed => write!(stream, "failed:115"),
        Told::WriteFailed => write!(stream, "failed:116"),
        Told::Fault => write!(stream, "fault"),
    }
}
