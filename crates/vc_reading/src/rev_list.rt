//! The subcommand `rev-list`: the commits that some terms select.
ghost use Rattle.std.specs.Prelude.{◌≡◌, ◌⊎◌, IfErr, OnErr, OnOk};
ghost use Rattle.std.specs.Io.KnownBytes.{Appends, Keeps};
ghost use Rattle.vc_cli.specs.Failure.{IsFault, TellsOfFiles};
ghost use Rattle.vc_cli.specs.Printed.{PrintsFront};
ghost use Rattle.vc_cli.specs.Revisions.{IsOfTerms};
ghost use Rattle.vc_cli.specs.Stores.{OrUnopened, StoresStay};
ghost use Rattle.vc_reading.specs.Shown.{PrintsSelected};
ghost use Rattle.vc_files.specs.Failures.{Wears};

use std::alloc::Global;
use std::io::Write;
use vc_cli::{Failure, Stores, id_lines, print_text, select};
use vc_files::Files;

/// Prints the commits that the terms select in this store.
pub fn rev_list<S: Stores, O: Write>(
    alloc: Global,
    stores: &mut S,
    store: &str,
    terms: &str,
    output: &mut O,
) -> Result<(), Failure>
    ensures printed { S.Files.honest → OnOk result (PrintsSelected (S.content stores.old store.now) terms.now (Appends (O.contents output.old) (O.contents output.new))) }
    ensures refused { S.Files.honest → IfErr result (OrUnopened (IsOfTerms (S.content stores.old store.now) terms.now)) }
    ensures nothing_printed { IfErr result (λ e. IsFault e ⊎ Keeps (O.contents output.old) (O.contents output.new)) }
    ensures front { S.Files.honest → OnErr result (PrintsFront (PrintsSelected (S.content stores.old store.now) terms.now) (O.contents output.old) (O.contents output.new)) }
    ensures same { StoresStay (S.content stores.old) (S.content stores.new) }
{
    let mut files = stores.open(store)?;
    let printed = print_selected(alloc, &mut files, terms.as_bytes(), output);
    stores.close(store, files);
    printed
}

/// Prints the commits that the terms select, sorted by name, one a line.
pub fn print_selected<F: Files, O: Write>(
    alloc: Global,
    files: &mut F,
    terms: &[u8],
    output: &mut O,
) -> Result<(), Failure>
    ensures printed { F.honest → OnOk result (PrintsSelected (F.content files.old) terms.now (Appends (O.contents output.old) (O.contents output.new))) }
    ensures refused { F.honest → IfErr result (IsOfTerms (F.content files.old) terms.now) }
    ensures nothing_printed { IfErr result (λ e. IsFault e ⊎ Keeps (O.contents output.old) (O.contents output.new)) }
    ensures front { F.honest → OnErr result (PrintsFront (PrintsSelected (F.content files.old) terms.now) (O.contents output.old) (O.contents output.new)) }
    ensures same { F.content files.new ≡ F.content files.old }
    ensures wear { Wears F.failed F.can_fail F.left files.old files.new (TellsOfFiles result) }
{
    let ids = match select(alloc, files, terms) {
        Ok(ids) => ids,
        Err(failure) => return Err(failure),
    };
    let lines = id_lines(alloc, &ids)?;
    print_text(&lines, output)?;
    Ok(())
}
