//! One line at the front of bytes.

ghost use Rattle.std.specs.Prelude.{◌≡◌, ◌++◌, ℕ, List, length, MatchOption, MatchResult};
ghost use Rattle.vc_pkt.specs.Line.{IsLength, IsLine};
ghost use Rattle.vc_pkt.specs.LineView.{line_text};
ghost use Rattle.vc_pkt.specs.Faults.{LineFault};

use crate::fault::PktFault;
use hex::FromHex;

/// The bytes of data that a line holds at most.
pub const MAX_DATA: usize = 65_516;

/// A line of Git's protocol (pkt-line of gitprotocol-common): a flush, `0000`, or data behind four hex
/// digits that write the length of the whole line. The data are lent from the bytes that were read; an
/// empty data line, `0004`, is read and never written.
#[derive(Clone, Copy)]
pub enum Line<'a> {
    Flush,
    Data(&'a [u8]),
}

/// The number that four hex digits write.
fn stated_length(digits: &[u8]) -> Option<usize>
    requires { length digits.now ≡ 4 }
    ensures { MatchOption result ((n : ℕ) → IsLength digits.now n → ⊥) (λ n. IsLength digits.now n) }
{
    match <[u8; 2] as FromHex>::from_hex(digits) {
        Ok(bytes) => Some(u16::from_be_bytes(bytes) as usize),
        Err(_) => None,
    }
}

/// The line at the front, and what follows it. Both are slices of the bytes, and no memory is taken.
///
/// [`PktFault::BadLength`] at 0 if no line begins with the first four bytes; [`PktFault::CutMessage`] if
/// less than a line is there. It gives no other fault.
pub fn parse_line(bytes: &[u8]) -> Result<(Line<'_>, &[u8]), PktFault>
    ensures { MatchResult result (λ found. (spelled : List ℕ) × IsLine (line_text found.0) spelled × (bytes.now ≡ spelled ++ found.1.now)) (LineFault bytes.now) }
{
    let Some((digits, rest)) = bytes.split_at_checked(4) else {
        return Err(PktFault::CutMessage);
    };
    let Some(length) = stated_length(digits) else {
        return Err(PktFault::BadLength(0));
    };
    if length == 0 {
        return Ok((Line::Flush, rest));
    }
    if length < 4 || length - 4 > MAX_DATA {
        return Err(PktFault::BadLength(0));
    }
    match rest.split_at_checked(length - 4) {
        Some((body, rest)) => Ok((Line::Data(body), rest)),
        None => Err(PktFault::CutMessage),
    }
}
