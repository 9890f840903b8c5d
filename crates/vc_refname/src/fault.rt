//! The rules that a text may break, by their numbers.
ghost use Rattle.std.specs.Prelude.{◌≡◌, Some};
ghost use Rattle.vc_refname.specs.Printed.{name_fault_text};

use std::error::Error;
use std::fmt;

/// What is printed where a file of refs, or of HEAD, stands for none: of the crates that refuse it neither stands on the other.
pub const BAD_REF_FILE: &str = "33 BadRefFile";
/// What is printed where HEAD names HEAD.
pub const HEAD_LOOP: &str = "34 HeadLoop";

/// The rule that a text breaks. The first rule that is broken is told, by number.
#[derive(Clone, Copy, Debug)]
pub enum NameFault {
    /// 20: the whole text is `@`.
    SingleAt,
    /// 21: there is no `/`.
    NoSlash,
    /// 22: a component, which is what stands between slashes, begins with `.`.
    DotBegin,
    /// 23: a component ends with `.lock`.
    LockEnd,
    /// 24: two dots stand side by side.
    TwoDots,
    /// 25: it holds a control byte, DEL, a space, or one of `~` `^` `:` `?` `*` `[` `\`.
    BadByte,
    /// 26: it holds `@{`.
    AtBrace,
    /// 27: it begins or ends with `/`.
    EdgeSlash,
    /// 28: two slashes stand side by side.
    TwoSlashes,
    /// 29: it ends with `.`.
    FinalDot,
    /// 30: it has more than 255 bytes. Git has no such rule.
    TooLong,
}

impl NameFault {
    // The number and the name, as they are printed.
    fn number_and_name(self) -> &'static str
        ensures { result.now ≡ name_fault_text self }
    {
        match self {
            NameFault::SingleAt => "20 SingleAt",
            NameFault::NoSlash => "21 NoSlash",
            NameFault::DotBegin => "22 DotBegin",
            NameFault::LockEnd => "23 LockEnd",
            NameFault::TwoDots => "24 TwoDots",
            NameFault::BadByte => "25 BadByte",
            NameFault::AtBrace => "26 AtBrace",
            NameFault::EdgeSlash => "27 EdgeSlash",
            NameFault::TwoSlashes => "28 TwoSlashes",
            NameFault::FinalDot => "29 FinalDot",
            NameFault::TooLong => "30 TooLong",
        }
    }
}

impl fmt::Display for NameFault {
    ghost output = { λ fault. Some (name_fault_text fault) };

    fn fmt<W: fmt::Write>(&self, f: &mut fmt::Formatter<W>) -> fmt::Result {
        f.write_str(self.number_and_name())
    }
}

impl Error for NameFault {}

/// Why no name was made.
#[derive(Clone, Copy, Debug)]
pub enum NewNameError {
    /// The text is no name.
    Refused(NameFault),
    /// A growth was refused.
    Memory,
}

impl fmt::Display for NewNameError {
    fn fmt<W: fmt::Write>(&self, f: &mut fmt::Formatter<W>) -> fmt::Result {
        match self {
            NewNameError::Refused(fault) => fmt::Display::fmt(fault, f),
            NewNameError::Memory => f.write_str("memory"),
        }
    }
}

impl Error for NewNameError {}
