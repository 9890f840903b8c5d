//! The subcommand `show-ref`: the refs of a store.
ghost use Rattle.std.specs.Prelude.{◌≡◌, ◌⊎◌, IfErr, IfOk, OnErr, OnOk};
ghost use Rattle.std.specs.List.{flat_map};
ghost use Rattle.std.specs.Io.KnownBytes.{Appends, Keeps};
ghost use Rattle.vc_refs.specs.Refs.{refs};
ghost use Rattle.vc_cli.specs.Failure.{IsFault, TellsOfFiles};
ghost use Rattle.vc_cli.specs.Printed.{PrintsFront};
ghost use Rattle.vc_cli.specs.Stores.{OrUnopened, StoresStay};
ghost use Rattle.vc_reading.specs.Shown.{ref_line, IsOfList, PrintsRefs};
ghost use Rattle.vc_files.specs.Failures.{Wears};

use std::alloc::{AllocError, Global};
use std::io::Write;
use vc_cli::{Failure, Stores, print_text};
use vc_files::Files;
use vc_object::ObjectId;
use vc_refname::RefName;
use vc_refs::Refs;

/// Prints the refs of this store.
pub fn show_ref<S: Stores, O: Write>(
    alloc: Global,
    stores: &mut S,
    store: &str,
    output: &mut O,
) -> Result<(), Failure>
    ensures printed { S.Files.honest → OnOk result (PrintsRefs (refs (S.content stores.old store.now)) (Appends (O.contents output.old) (O.contents output.new))) }
    ensures refused { S.Files.honest → IfErr result (OrUnopened (IsOfList (S.content stores.old store.now))) }
    ensures nothing_printed { IfErr result (λ e. IsFault e ⊎ Keeps (O.contents output.old) (O.contents output.new)) }
    ensures front { S.Files.honest → OnErr result (PrintsFront (PrintsRefs (refs (S.content stores.old store.now))) (O.contents output.old) (O.contents output.new)) }
    ensures same { StoresStay (S.content stores.old) (S.content stores.new) }
{
    let mut files = stores.open(store)?;
    let printed = print_refs(alloc, &mut files, output);
    stores.close(store, files);
    printed
}

/// Prints the refs by name, each with its id before it; of none, nothing.
pub fn print_refs<F: Files, O: Write>(
    alloc: Global,
    files: &mut F,
    output: &mut O,
) -> Result<(), Failure>
    ensures printed { F.honest → OnOk result (PrintsRefs (refs (F.content files.old)) (Appends (O.contents output.old) (O.contents output.new))) }
    ensures refused { F.honest → IfErr result (IsOfList (F.content files.old)) }
    ensures nothing_printed { IfErr result (λ e. IsFault e ⊎ Keeps (O.contents output.old) (O.contents output.new)) }
    ensures front { F.honest → OnErr result (PrintsFront (PrintsRefs (refs (F.content files.old))) (O.contents output.old) (O.contents output.new)) }
    ensures same { F.content files.new ≡ F.content files.old }
    ensures wear { Wears F.failed F.can_fail F.left files.old files.new (TellsOfFiles result) }
{
    let listed = match Refs::new(alloc, files).list() {
        Ok(listed) => listed,
        Err(fault) => return Err(Failure::Refs(fault)),
    };
    let lines = ref_lines(alloc, &listed)?;
    print_text(&lines, output)
}

// The lines of these refs.
fn ref_lines(alloc: Global, listed: &[(RefName, ObjectId)]) -> Result<Vec<u8>, AllocError>
    ensures { IfOk result (λ text. text.items ≡ flat_map ref_line listed.now) }
{
    let mut lines = Vec::new(alloc);
    for (name, id) in listed {
        lines.extend_from_slice(&id.to_hex())?;
        lines.push(b' ')?;
        lines.extend_from_slice(name.as_str().as_bytes())?;
        lines.push(b'\n')?;
    }
    Ok(lines)
}
