//! Why an expression has no value.

ghost use Rattle.std.specs.Prelude.{◌≡◌, Some};
ghost use Rattle.vc_rev.specs.Printed.{refusal_text, rev_fault_text, source_text};
ghost use Rattle.vc_rev.specs.WalkFault.{of_history};
ghost use Rattle.vc_rev.specs.declared.refusal.RevFault.TheVariants.{Refused, Source};
ghost use Rattle.vc_rev.specs.declared.refusal.SourceFault.TheVariants.{Store};
ghost use Rattle.vc_object_map.specs.declared.faults.StoreFault.TheVariants.{Fault};
ghost use Rattle.vc_files.specs.declared.faults.Fault.TheVariants.{Memory};

use std::alloc::{AllocError, AllocFailed};
use std::error::Error;
use std::fmt;
use vc_history::{HistoryFault, NOT_A_COMMIT};
use vc_object::ObjectId;
use vc_object_map::{MISSING, StoreFault};
use vc_refname::{BAD_REF_FILE, HEAD_LOOP};

/// Why an expression has no value, though the repository answered.
#[derive(Clone, Copy, Debug)]
pub enum Refusal {
    /// 51: the name names nothing, or an object that must be read is absent.
    Unknown,
    /// 52: several stored objects have names that begin with these digits.
    Ambiguous,
    /// 53: fewer than four digits name no object.
    TooShort,
    /// 54: the commit has no such parent.
    NoSuchParent,
    /// 55: the object is of another kind, or tags lead back to themselves.
    WrongKind,
    /// 56: nothing stands at the path.
    NoSuchPath,
}

impl Refusal {
    // The number and the name, as they are printed.
    fn text(self) -> &'static str
        ensures { result.now ≡ refusal_text self }
    {
        match self {
            Refusal::Unknown => "51 Unknown",
            Refusal::Ambiguous => "52 Ambiguous",
            Refusal::TooShort => "53 TooShort",
            Refusal::NoSuchParent => "54 NoSuchParent",
            Refusal::WrongKind => "55 WrongKind",
            Refusal::NoSuchPath => "56 NoSuchPath",
        }
    }
}

impl fmt::Display for Refusal {
    ghost output = { λ e. Some (refusal_text e) };

    fn fmt<W: fmt::Write>(&self, f: &mut fmt::Formatter<W>) -> fmt::Result {
        f.write_str(self.text())
    }
}

impl Error for Refusal {}

/// Why a repository gave no answer.
#[derive(Debug, Drop)]
pub enum SourceFault {
    /// 12, or a fault of memory or device.
    Store(StoreFault),
    /// 33: a file of refs with this path is in none of its forms.
    BadRefFile(String),
    /// 34: HEAD names HEAD.
    HeadLoop,
    /// 62: the index goes wrong at this byte.
    BadIndex(usize),
}

impl fmt::Display for SourceFault {
    ghost output = { λ fault. Some (source_text fault) };

    fn fmt<W: fmt::Write>(&self, f: &mut fmt::Formatter<W>) -> fmt::Result {
        match self {
            SourceFault::Store(fault) => fmt::Display::fmt(fault, f),
            SourceFault::BadRefFile(_) => f.write_str(BAD_REF_FILE),
            SourceFault::HeadLoop => f.write_str(HEAD_LOOP),
            SourceFault::BadIndex(_) => f.write_str("62 BadIndex"),
        }
    }
}

impl Error for SourceFault {}

/// Why an expression or a set has no value.
#[derive(Debug, Drop)]
pub enum RevFault {
    /// 51 to 56.
    Refused(Refusal),
    /// 40: the walk of a set met a name that is absent.
    Missing(ObjectId),
    /// 41: the walk of a set met an object that is no commit.
    NotACommit(ObjectId),
    /// The repository gave no answer, or memory ran out.
    Source(SourceFault),
}

impl fmt::Display for RevFault {
    ghost output = { λ fault. Some (rev_fault_text fault) };

    fn fmt<W: fmt::Write>(&self, f: &mut fmt::Formatter<W>) -> fmt::Result {
        match self {
            RevFault::Refused(fault) => fmt::Display::fmt(fault, f),
            RevFault::Missing(_) => f.write_str(MISSING),
            RevFault::NotACommit(_) => f.write_str(NOT_A_COMMIT),
            RevFault::Source(fault) => fmt::Display::fmt(fault, f),
        }
    }
}

impl Error for RevFault {}

impl From<Refusal> for RevFault {
    ghost from_gives = { λ refusal e. e ≡ Refused refusal };

    fn from(refusal: Refusal) -> Self {
        RevFault::Refused(refusal)
    }
}

impl From<SourceFault> for RevFault {
    ghost from_gives = { λ fault e. e ≡ Source fault };

    fn from(fault: SourceFault) -> Self {
        RevFault::Source(fault)
    }
}

impl From<HistoryFault> for RevFault {
    ghost from_gives = { λ fault e. e ≡ of_history fault };

    fn from(fault: HistoryFault) -> Self {
        match fault {
            HistoryFault::Missing(id) => RevFault::Missing(id),
            HistoryFault::NotACommit(id) => RevFault::NotACommit(id),
            HistoryFault::Store(fault) => RevFault::Source(SourceFault::Store(fault)),
        }
    }
}

impl From<AllocError> for RevFault {
    ghost from_gives = { λ _ e. e ≡ Source (Store (Fault Memory)) };

    fn from(_: AllocError) -> Self {
        RevFault::Source(SourceFault::Store(StoreFault::Fault(vc_files::Fault::Memory)))
    }
}

impl<T: Drop> From<AllocFailed<T>> for RevFault {
    ghost from_gives = { λ _ e. e ≡ Source (Store (Fault Memory)) };

    fn from(_: AllocFailed<T>) -> Self {
        RevFault::Source(SourceFault::Store(StoreFault::Fault(vc_files::Fault::Memory)))
    }
}
