//! Why a script is not played to its end.
ghost use Rattle.std.specs.Prelude.{◌≡◌, Some};
ghost use Rattle.vc_files.specs.declared.faults.Fault.TheVariants.{Memory};
ghost use Rattle.vc_script.specs.ScriptFault.{script_fault_text};
ghost use Rattle.vc_script.specs.declared.fault.ScriptFault.TheVariants.{Fault as Failed};

use std::alloc::AllocError;
use std::error::Error;
use std::fmt;
use vc_files::Fault;

/// Why a script is not played to its end.
#[derive(Clone, Copy, Debug)]
pub enum ScriptFault {
    /// 114: the text is no script.
    BadScript,
    /// Want of memory, or a device that failed.
    Fault(Fault),
}

impl fmt::Display for ScriptFault {
    ghost output = { λ fault. Some (script_fault_text fault) };

    fn fmt<W: fmt::Write>(&self, f: &mut fmt::Formatter<W>) -> fmt::Result {
        match self {
            ScriptFault::BadScript => f.write_str("114 BadScript"),
            ScriptFault::Fault(fault) => fmt::Display::fmt(fault, f),
        }
    }
}

impl Error for ScriptFault {}

impl From<AllocError> for ScriptFault {
    ghost from_gives = { λ _ e. e ≡ Failed Memory };

    fn from(_: AllocError) -> Self {
        ScriptFault::Fault(Fault::Memory)
    }
}
