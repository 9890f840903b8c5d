//! The subcommand `cat-file`: what a store has under a name.
ghost use Rattle.std.specs.Prelude.{◌≡◌, ◌⊎◌, IfErr, OnErr, OnOk};
ghost use Rattle.std.specs.Io.KnownBytes.{Appends, Keeps};
ghost use Rattle.vc_object.specs.Decoding.{stored_object};
ghost use Rattle.vc_cli.specs.Failure.{IsFault, TellsOfFiles};
ghost use Rattle.vc_cli.specs.Printed.{AppendsFront, PrintsFront};
ghost use Rattle.vc_cli.specs.Stores.{OrUnopened, StoresStay};
ghost use Rattle.vc_reading.specs.Shown.{part_text, IsOfLook, IsOfNamed, PrintsNamed, PrintsObject};
ghost use Rattle.vc_files.specs.Failures.{Wears};

use std::alloc::Global;
use std::io::Write;
use vc_arguments::Part;
use vc_cli::{Failure, Stores, print_text, resolve};
use vc_files::Files;
use vc_object::ObjectId;
use vc_store::{Store, Stored};

/// Prints one part of the object that the revision names in this store.
pub fn cat_file<S: Stores, O: Write>(
    alloc: Global,
    stores: &mut S,
    store: &str,
    part: Part,
    revision: &str,
    output: &mut O,
) -> Result<(), Failure>
    ensures printed { S.Files.honest → OnOk result (PrintsNamed (S.content stores.old store.now) revision.now part (Appends (O.contents output.old) (O.contents output.new))) }
    ensures refused { S.Files.honest → IfErr result (OrUnopened (IsOfNamed (S.content stores.old store.now) revision.now)) }
    ensures nothing_printed { IfErr result (λ e. IsFault e ⊎ Keeps (O.contents output.old) (O.contents output.new)) }
    ensures front { S.Files.honest → OnErr result (PrintsFront (PrintsNamed (S.content stores.old store.now) revision.now part) (O.contents output.old) (O.contents output.new)) }
    ensures same { StoresStay (S.content stores.old) (S.content stores.new) }
{
    let mut files = stores.open(store)?;
    let printed = print_named(alloc, &mut files, revision, part, output);
    stores.close(store, files);
    printed
}

/// Prints one part of the object that the revision names.
pub fn print_named<F: Files, O: Write>(
    alloc: Global,
    files: &mut F,
    revision: &str,
    part: Part,
    output: &mut O,
) -> Result<(), Failure>
    ensures printed { F.honest → OnOk result (PrintsNamed (F.content files.old) revision.now part (Appends (O.contents output.old) (O.contents output.new))) }
    ensures refused { F.honest → IfErr result (IsOfNamed (F.content files.old) revision.now) }
    ensures nothing_printed { IfErr result (λ e. IsFault e ⊎ Keeps (O.contents output.old) (O.contents output.new)) }
    ensures front { F.honest → OnErr result (PrintsFront (PrintsNamed (F.content files.old) revision.now part) (O.contents output.old) (O.contents output.new)) }
    ensures same { F.content files.new ≡ F.content files.old }
{
    let id = resolve(alloc, files, revision)?;
    print_object(alloc, files, &id, part, output)
}

/// Prints one part of the object with this name: its kind or its size with LF, or its body as it is. Of an object
/// that is absent or damaged nothing is printed.
pub fn print_object<F: Files, O: Write>(
    alloc: Global,
    files: &mut F,
    id: &ObjectId,
    part: Part,
    output: &mut O,
) -> Result<(), Failure>
    ensures printed { F.honest → OnOk result (PrintsObject (F.content files.old) id.now part (Appends (O.contents output.old) (O.contents output.new))) }
    ensures refused { F.honest → IfErr result (IsOfLook (F.content files.old) id.now) }
    ensures nothing_printed { IfErr result (λ e. IsFault e ⊎ Keeps (O.contents output.old) (O.contents output.new)) }
    ensures front { F.honest → OnErr result (PrintsFront (PrintsObject (F.content files.old) id.now part) (O.contents output.old) (O.contents output.new)) }
    ensures same { F.content files.new ≡ F.content files.old }
    ensures wear { Wears F.failed F.can_fail F.left files.old files.new (TellsOfFiles result) }
{
    match Store::new(alloc, files).get(id) {
        Ok(object) => print_part(alloc, &object, part, output),
        Err(fault) => Err(Failure::Store(fault)),
    }
}

// Prints one part of the object.
fn print_part<O: Write>(
    alloc: Global,
    object: &Stored,
    part: Part,
    output: &mut O,
) -> Result<(), Failure>
    ensures printed { OnOk result (Appends (O.contents output.old) (O.contents output.new) (part_text part (stored_object object.now.kind object.now.body.items))) }
    ensures front { OnErr result (AppendsFront (O.contents output.old) (O.contents output.new) (part_text part (stored_object object.now.kind object.now.body.items))) }
    ensures fault { IfErr result IsFault }
{
    match part {
        Part::Kind => {
            let mut line = Vec::new(alloc);
            line.extend_from_slice(object.kind.word())?;
            line.push(b'\n')?;
            print_text(&line, output)
        }
        Part::Size => {
            let size = object.body.len();
            let line = format!(in alloc; "{size}\n")?;
            print_text(line.as_bytes(), output)
        }
        Part::Body => print_text(&object.body, output),
    }
}
