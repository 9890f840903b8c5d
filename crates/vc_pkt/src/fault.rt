//! Why bytes are refused, by the numbers that a program prints.
ghost use Rattle.std.specs.Prelude.{Some};
ghost use Rattle.vc_pkt.specs.Printed.{pkt_fault_text};

use std::alloc::{AllocError, AllocFailed};
use std::error::Error;
use std::fmt;
use vc_object::ObjectFault;

/// The number and the name of four bytes that begin no line, as they are printed.
pub const BAD_LENGTH: &str = "80 BadLength";

/// The number and the name of a line that the message has not at its place, as they are printed.
pub const BAD_RECORD: &str = "81 BadRecord";

/// Why bytes are no lines, or lines no message. Of several causes the first in the bytes is given.
#[derive(Clone, Copy, Debug)]
pub enum PktFault {
    /// 80: four bytes stand where a line begins, and no line begins with them: they are not hex digits,
    /// or write 1, 2, 3 or more than 65,520. The place is that of the first of them, counted from the
    /// stream's beginning (from the slice's, where a slice is read). It stays at the greatest `u64`.
    BadLength(u64),
    /// 81: a line that the message has not at this place, or a byte behind the message's end. Lines are
    /// numbered from 0.
    BadRecord(u64),
    /// 82: a data line goes past the size that its object's line states, or a flush comes before it.
    SizeMismatch,
    /// 83: the input ends before its message does.
    CutMessage,
    /// 84: more records than a message may have.
    TooMany,
    /// 3: an object's line states a size of more than 16,777,216 bytes.
    TooLarge,
}

impl fmt::Display for PktFault {
    ghost output = { λ fault. Some (pkt_fault_text fault) };

    fn fmt<W: fmt::Write>(&self, f: &mut fmt::Formatter<W>) -> fmt::Result {
        match self {
            PktFault::BadLength(place) => write!(f, "{BAD_LENGTH}({place})"),
            PktFault::BadRecord(place) => write!(f, "{BAD_RECORD}({place})"),
            PktFault::SizeMismatch => f.write_str("82 SizeMismatch"),
            PktFault::CutMessage => f.write_str("83 CutMessage"),
            PktFault::TooMany => f.write_str("84 TooMany"),
            PktFault::TooLarge => fmt::Display::fmt(&ObjectFault::TooLarge, f),
        }
    }
}

impl Error for PktFault {}

/// A refusal, or want of memory.
#[derive(Clone, Copy, Debug)]
pub enum PktError {
    /// A growth was refused.
    Memory,
    /// The bytes are refused.
    Refused(PktFault),
}

impl fmt::Display for PktError {
    fn fmt<W: fmt::Write>(&self, f: &mut fmt::Formatter<W>) -> fmt::Result {
        match self {
            PktError::Memory => f.write_str("memory"),
            PktError::Refused(fault) => fmt::Display::fmt(fault, f),
        }
    }
}

impl Error for PktError {}

impl From<PktFault> for PktError {
    ghost use Rattle.std.specs.Prelude.{◌≡◌};
    ghost use Rattle.vc_pkt.specs.declared.fault.PktError.TheVariants.{Refused};

    ghost from_gives = { λ fault e. e ≡ Refused fault };

    fn from(fault: PktFault) -> PktError {
        PktError::Refused(fault)
    }
}

impl From<AllocError> for PktError {
    ghost use Rattle.std.specs.Prelude.{◌≡◌};
    ghost use Rattle.vc_pkt.specs.declared.fault.PktError.TheVariants.{Memory};

    ghost from_gives = { λ _ e. e ≡ Memory };

    fn from(_: AllocError) -> PktError {
        PktError::Memory
    }
}

impl<T: Drop> From<AllocFailed<T>> for PktError {
    ghost use Rattle.std.specs.Prelude.{◌≡◌};
    ghost use Rattle.vc_pkt.specs.declared.fault.PktError.TheVariants.{Memory};

    ghost from_gives = { λ _ e. e ≡ Memory };

    fn from(_: AllocFailed<T>) -> PktError {
        PktError::Memory
    }
}
