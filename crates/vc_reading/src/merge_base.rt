//! The subcommand `merge-base`: the best common ancestors of two commits.
ghost use Rattle.std.specs.Prelude.{◌≡◌, ◌⊎◌, IfOk, IfErr, OnErr};
ghost use Rattle.std.specs.Io.KnownBytes.{Appends, Keeps};
ghost use Rattle.vc_object_map.specs.Store.{objects};
ghost use Rattle.vc_cli.specs.Failure.{IsFault, TellsOfFiles};
ghost use Rattle.vc_cli.specs.Printed.{PrintsFront};
ghost use Rattle.vc_cli.specs.Stores.{OrUnopened, StoresStay};
ghost use Rattle.vc_reading.specs.Shown.{IsOfBases, IsOfCommon, PrintsBases, PrintsCommon, SomeBases, SomeCommon};
ghost use Rattle.vc_files.specs.Failures.{Wears};

use std::alloc::Global;
use std::io::Write;
use vc_cli::{Failure, Stores, id_lines, print_text, resolve};
use vc_files::Files;
use vc_history::Generations;
use vc_object::ObjectId;
use vc_selection::merge_bases;
use vc_store::Store;

/// Prints the best common ancestors of the commits that two revisions name in this store, and tells whether there is one.
pub fn merge_base<S: Stores, O: Write>(
    alloc: Global,
    stores: &mut S,
    store: &str,
    first: &str,
    second: &str,
    output: &mut O,
) -> Result<bool, Failure>
    ensures printed { S.Files.honest → IfOk result (λ some. PrintsCommon (S.content stores.old store.now) first.now second.now some (Appends (O.contents output.old) (O.contents output.new))) }
    ensures refused { S.Files.honest → IfErr result (OrUnopened (IsOfCommon (S.content stores.old store.now) first.now second.now)) }
    ensures nothing_printed { IfErr result (λ e. IsFault e ⊎ Keeps (O.contents output.old) (O.contents output.new)) }
    ensures front { S.Files.honest → OnErr result (PrintsFront (SomeCommon (S.content stores.old store.now) first.now second.now) (O.contents output.old) (O.contents output.new)) }
    ensures same { StoresStay (S.content stores.old) (S.content stores.new) }
{
    let mut files = stores.open(store)?;
    let printed = print_common(alloc, &mut files, first, second, output);
    stores.close(store, files);
    printed
}

/// Prints the best common ancestors of the commits that two revisions name, and tells whether there is one.
pub fn print_common<F: Files, O: Write>(
    alloc: Global,
    files: &mut F,
    first: &str,
    second: &str,
    output: &mut O,
) -> Result<bool, Failure>
    ensures printed { F.honest → IfOk result (λ some. PrintsCommon (F.content files.old) first.now second.now some (Appends (O.contents output.old) (O.contents output.new))) }
    ensures refused { F.honest → IfErr result (IsOfCommon (F.content files.old) first.now second.now) }
    ensures nothing_printed { IfErr result (λ e. IsFault e ⊎ Keeps (O.contents output.old) (O.contents output.new)) }
    ensures front { F.honest → OnErr result (PrintsFront (SomeCommon (F.content files.old) first.now second.now) (O.contents output.old) (O.contents output.new)) }
    ensures same { F.content files.new ≡ F.content files.old }
{
    let a = resolve(alloc, files, first)?;
    let b = resolve(alloc, files, second)?;
    print_bases(alloc, files, &a, &b, output)
}

/// Prints the best common ancestors by name, one a line, and tells whether there is one.
pub fn print_bases<F: Files, O: Write>(
    alloc: Global,
    files: &mut F,
    first: &ObjectId,
    second: &ObjectId,
    output: &mut O,
) -> Result<bool, Failure>
    ensures printed { F.honest → IfOk result (λ some. PrintsBases (objects (F.content files.old)) first.now second.now some (Appends (O.contents output.old) (O.contents output.new))) }
    ensures refused { F.honest → IfErr result (IsOfBases (F.content files.old) first.now second.now) }
    ensures nothing_printed { IfErr result (λ e. IsFault e ⊎ Keeps (O.contents output.old) (O.contents output.new)) }
    ensures front { F.honest → OnErr result (PrintsFront (SomeBases (objects (F.content files.old)) first.now second.now) (O.contents output.old) (O.contents output.new)) }
    ensures same { F.content files.new ≡ F.content files.old }
    ensures wear { Wears F.failed F.can_fail F.left files.old files.new (TellsOfFiles result) }
{
    let generations = Generations::new(alloc);
    let mut commits = Store::new(alloc, files);
    let bases = match merge_bases(alloc, &mut commits, first, second, &generations) {
        Ok(bases) => bases,
        Err(fault) => return Err(Failure::History(fault)),
    };
    let lines = id_lines(alloc, &bases)?;
    print_text(&lines, output)?;
    Ok(!bases.is_empty())
}
