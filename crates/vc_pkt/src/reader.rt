//! Lines that come in pieces.

ghost use Rattle.std.specs.Prelude.{◌≡◌, ◌≤◌, ◌+◌, ◌++◌, [], ℕ, List, length, drop, OnOk, OnErr, IfErr, MatchResult};
ghost use Rattle.vc_pkt.specs.Line.{LineText, IsLineList, IsBadAt};

use crate::fault::{PktError, PktFault};
use crate::line::{Line, parse_line};
use std::alloc::Global;
use std::marker::Model;

/// Takes a stream in pieces, cut as they like, and gives its lines one by one.
///
/// Contracts see the bytes that were fed and not yet given, and the place of the first of them in the
/// stream. The buffer grows to what is held at once; it is not given back. A byte is looked at a bounded
/// number of times, however many pieces and lines there are.
#[derive(Drop)]
pub struct PktReader {
    buffer: Vec<u8>,
    start: usize,
    scanned: usize,
    place: u64,
}

impl Model for PktReader {
    ghost use Rattle.vc_pkt.specs.Held.{Held};

    ghost Value = { Held };

    ghost use Rattle.vc_pkt.specs.Reader.{held, IsReader};

    ghost view = { held };

    ghost invariant = { IsReader };
}

/// How many bytes of whole lines come first, or where a bad length stands.
fn lines_len(bytes: &[u8]) -> Result<usize, usize>
    ensures { MatchResult result (λ n. (lines : List LineText) × (rest : List ℕ) × IsLineList bytes.now lines rest × (n + length rest ≡ length bytes.now)) (λ place. IsBadAt bytes.now place) }
{
    let mut rest = bytes;
    'lines: loop {
        match parse_line(rest) {
            Ok((_, more)) => rest = more,
            Err(fault) => {
                let n = bytes.len() - rest.len();
                return match fault {
                    PktFault::BadLength(_) => Err(n),
                    _ => Ok(n),
                };
            }
        }
    }
}

/// Takes the first bytes away.
fn remove_front(buffer: &mut Vec<u8>, n: usize)
    requires { n ≤ length buffer.old.items }
    ensures { buffer.new.items ≡ drop n buffer.old.items }
{
    drop(buffer.drain(..n));
}

/// What stands behind the first bytes.
fn behind(buffer: &Vec<u8>, n: usize) -> &[u8]
    requires { n ≤ length buffer.now.items }
    ensures { result.now ≡ drop n buffer.now.items }
{
    &buffer[n..]
}

impl PktReader {
    ghost use Rattle.vc_pkt.specs.Held.{Held};
    ghost use Rattle.vc_pkt.specs.Faults.{FeedFault};
    ghost use Rattle.std.specs.Borrow.{sem};
    ghost use Rattle.std.specs.Io.BufRead.{Rests};
    ghost use Rattle.vc_pkt.specs.Taken.{Took};
    ghost use Rattle.vc_pkt.specs.contracts.reader.PktReader.{the_row};

    /// A reader at the start of a stream. It takes no memory yet.
    pub fn new(alloc: Global) -> PktReader
        ensures { result ≡ record { bytes = []; place = 0 } }
    {
        PktReader {
            buffer: Vec::new(alloc),
            start: 0,
            scanned: 0,
            place: 0,
        }
    }

    /// Moves what is held to the front of the buffer, where that costs no more than what was given since.
    fn compact(&mut self)
        ensures { self.new ≡ self.old }
    {
        if self.start >= self.buffer.len() - self.start {
            remove_front(&mut self.buffer, self.start);
            self.scanned -= self.start;
            self.start = 0;
        }
    }

    /// Takes the next piece, or refuses it where a bad length stands in it or is completed by it: 80 at
    /// its place in the stream. A refused piece is not taken, and the reader is as before; the same holds
    /// where memory is short.
    pub fn feed(&mut self, piece: &[u8]) -> Result<(), PktError>
        ensures ok { OnOk result (self.new ≡ record self.old { bytes = self.old.bytes ++ piece.now }) }
        ensures lines { OnOk result ((lines : List LineText) × (rest : List ℕ) × IsLineList self.new.bytes lines rest) }
        ensures err { OnErr result (self.new ≡ self.old) }
        ensures fault { IfErr result (FeedFault self.old.place (self.old.bytes ++ piece.now)) }
    {
        self.compact();
        let before = self.buffer.len();
        self.buffer.extend_from_slice(piece)?;
        match lines_len(behind(&self.buffer, self.scanned)) {
            Ok(n) => {
                self.scanned += n;
                Ok(())
            }
            Err(n) => {
                self.buffer.truncate(before);
                let ahead = self.scanned - self.start + n;
                let place = self.place.saturating_add(ahead as u64);
                Err(PktError::Refused(PktFault::BadLength(place)))
            }
        }
    }

    /// Takes the first line off; none where less than a line is held. The data are lent from the reader's
    /// buffer until its next use. It takes no memory.
    pub fn next_line(&mut self) -> Option<Line<'_>>
        ensures* { sem 𝓛 (Rests the_row self.entry (λ new. Took self.old result new)) }
    {
        let held = behind(&self.buffer, self.start);
        match parse_line(held) {
            Ok((line, more)) => {
                let n = held.len() - more.len();
                self.start += n;
                self.place = self.place.saturating_add(n as u64);
                Some(line)
            }
            Err(_) => None,
        }
    }

    /// How many bytes of an unfinished line are held. It takes no memory.
    pub fn rest_len(&self) -> usize
        ensures { (lines : List LineText) × (rest : List ℕ) × IsLineList self.now.bytes lines rest × (result ≡ length rest) }
    {
        self.buffer.len() - self.scanned
    }
}
