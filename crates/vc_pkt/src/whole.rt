//! All lines of a stream that comes in pieces.

ghost use Rattle.std.specs.Prelude.{◌≡◌, ℕ, List, map, OnOk, IfOk, IfErr};
ghost use Rattle.std.specs.List.{flat_map};
ghost use Rattle.vc_pkt.specs.Line.{IsLineList};
ghost use Rattle.vc_pkt.specs.LineView.{line_text};
ghost use Rattle.vc_pkt.specs.OwnedView.{owned_text};
ghost use Rattle.vc_pkt.specs.Whole.{TakesLines};
ghost use Rattle.vc_pkt.specs.Faults.{FeedFault};

use crate::fault::PktError;
use crate::line::Line;
use crate::reader::PktReader;
use std::alloc::{AllocError, Global};

/// A line with data of its own.
#[derive(Drop)]
pub enum OwnedLine {
    Flush,
    Data(Vec<u8>),
}

/// The line with a copy of its data.
fn owned(alloc: Global, line: Line<'_>) -> Result<OwnedLine, AllocError>
    ensures { IfOk result (λ owned. owned_text owned ≡ line_text line.entry) }
{
    match line {
        Line::Flush => Ok(OwnedLine::Flush),
        Line::Data(body) => Ok(OwnedLine::Data(body.to_vec(alloc)?)),
    }
}

/// Takes all lines that the reader holds.
fn take_lines(
    alloc: Global,
    reader: &mut PktReader,
    out: &mut Vec<OwnedLine>,
) -> Result<(), AllocError>
    ensures { OnOk result (TakesLines reader.old reader.new (map owned_text out.old.items) (map owned_text out.new.items)) }
{
    'lines: while let Some(line) = reader.next_line() {
        out.push(owned(alloc, line)?)?;
    }
    Ok(())
}

/// The lines of a stream that comes in pieces, each copied, without the unfinished line behind them. 80
/// where a bad length stands in the stream.
pub fn lines_of(alloc: Global, pieces: &[Vec<u8>]) -> Result<Vec<OwnedLine>, PktError>
    ensures lines { IfOk result (λ lines. (rest : List ℕ) × IsLineList (flat_map (λ piece. piece.items) pieces.now) (map owned_text lines.items) rest) }
    ensures fault { IfErr result (FeedFault 0 (flat_map (λ piece. piece.items) pieces.now)) }
{
    let mut reader = PktReader::new(alloc);
    let mut lines = Vec::new(alloc);
    'pieces: for piece in pieces {
        reader.feed(piece)?;
        take_lines(alloc, &mut reader, &mut lines)?;
    }
    Ok(lines)
}
