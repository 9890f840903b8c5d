//! Why a text is no expression.

ghost use Rattle.std.specs.Prelude.{◌≡◌, Some};
ghost use Rattle.vc_expression.specs.Printed.{parse_fault_text};
ghost use Rattle.vc_expression.specs.declared.fault.ParseFault.TheVariants.{Memory};

use std::alloc::{AllocError, AllocFailed};
use std::error::Error;
use std::fmt;

/// Why a text was not read.
#[derive(Clone, Copy, Debug)]
pub enum ParseFault {
    /// 50: the text goes wrong at this byte, counted from 0.
    BadSyntax(usize),
    /// A growth was refused.
    Memory,
}

impl fmt::Display for ParseFault {
    ghost output = { λ e. Some (parse_fault_text e) };

    fn fmt<W: fmt::Write>(&self, f: &mut fmt::Formatter<W>) -> fmt::Result {
        match self {
            ParseFault::BadSyntax(_) => f.write_str("50 BadSyntax"),
            ParseFault::Memory => f.write_str("memory"),
        }
    }
}

impl Error for ParseFault {}

impl From<AllocError> for ParseFault {
    ghost from_gives = { λ _ e. e ≡ Memory };

    fn from(_: AllocError) -> Self {
        ParseFault::Memory
    }
}

impl<T: Drop> From<AllocFailed<T>> for ParseFault {
    ghost from_gives = { λ _ e. e ≡ Memory };

    fn from(_: AllocFailed<T>) -> Self {
        ParseFault::Memory
    }
}
