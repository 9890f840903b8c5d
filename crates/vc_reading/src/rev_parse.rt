//! The subcommand `rev-parse`: the object that a revision names.
ghost use Rattle.std.specs.Prelude.{◌≡◌, ◌⊎◌, IfErr, OnErr, OnOk};
ghost use Rattle.std.specs.Io.KnownBytes.{Appends, Keeps};
ghost use Rattle.vc_cli.specs.Failure.{IsFault, TellsOfFiles};
ghost use Rattle.vc_cli.specs.Printed.{PrintsFront};
ghost use Rattle.vc_cli.specs.Stores.{OrUnopened, StoresStay};
ghost use Rattle.vc_reading.specs.Shown.{IsOfPrinting, PrintsValue};
ghost use Rattle.vc_files.specs.Failures.{Wears};

use std::alloc::Global;
use std::io::Write;
use vc_cli::{Failure, Stores, print_id, resolve_bytes};
use vc_files::Files;

/// Prints the id that the revision names in this store.
pub fn rev_parse<S: Stores, O: Write>(
    alloc: Global,
    stores: &mut S,
    store: &str,
    revision: &str,
    output: &mut O,
) -> Result<(), Failure>
    ensures printed { S.Files.honest → OnOk result (PrintsValue (S.content stores.old store.now) revision.now (Appends (O.contents output.old) (O.contents output.new))) }
    ensures refused { S.Files.honest → IfErr result (OrUnopened (IsOfPrinting (S.content stores.old store.now) revision.now)) }
    ensures nothing_printed { IfErr result (λ e. IsFault e ⊎ Keeps (O.contents output.old) (O.contents output.new)) }
    ensures front { S.Files.honest → OnErr result (PrintsFront (PrintsValue (S.content stores.old store.now) revision.now) (O.contents output.old) (O.contents output.new)) }
    ensures same { StoresStay (S.content stores.old) (S.content stores.new) }
{
    let mut files = stores.open(store)?;
    let printed = print_value(alloc, &mut files, revision.as_bytes(), output);
    stores.close(store, files);
    printed
}

/// Prints the id that the revision names, with LF. It need not be stored where the revision reads nothing of it.
pub fn print_value<F: Files, O: Write>(
    alloc: Global,
    files: &mut F,
    revision: &[u8],
    output: &mut O,
) -> Result<(), Failure>
    ensures printed { F.honest → OnOk result (PrintsValue (F.content files.old) revision.now (Appends (O.contents output.old) (O.contents output.new))) }
    ensures refused { F.honest → IfErr result (IsOfPrinting (F.content files.old) revision.now) }
    ensures nothing_printed { IfErr result (λ e. IsFault e ⊎ Keeps (O.contents output.old) (O.contents output.new)) }
    ensures front { F.honest → OnErr result (PrintsFront (PrintsValue (F.content files.old) revision.now) (O.contents output.old) (O.contents output.new)) }
    ensures same { F.content files.new ≡ F.content files.old }
    ensures wear { Wears F.failed F.can_fail F.left files.old files.new (TellsOfFiles result) }
{
    match resolve_bytes(alloc, files, revision) {
        Ok(id) => print_id(&id, output),
        Err(failure) => Err(failure),
    }
}
