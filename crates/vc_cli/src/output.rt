//! What every command prints with: all of a text at once.
ghost use Rattle.std.specs.Prelude.{◌≡◌, IfOk, IfErr, OnErr, OnOk};
ghost use Rattle.std.specs.List.{flat_map};
ghost use Rattle.std.specs.Io.KnownBytes.{Appends};
ghost use Rattle.vc_cli.specs.Failure.{IsFault};
ghost use Rattle.vc_cli.specs.Printed.{AppendsFront, id_line};

use crate::failure::Failure;
use std::alloc::{AllocError, Global};
use std::io::{ErrorKind, Write};
use vc_files::Fault;
use vc_object::ObjectId;

/// Prints the text and sees that it went out. If it can't be printed, a front of it may have gone out.
pub fn print_text<O: Write>(text: &[u8], output: &mut O) -> Result<(), Failure>
    ensures text { OnOk result (Appends (O.contents output.old) (O.contents output.new) text.now) }
    ensures front { OnErr result (AppendsFront (O.contents output.old) (O.contents output.new) text.now) }
    ensures fault { IfErr result IsFault }
{
    write_text(text, output)?;
    output.flush()?;
    Ok(())
}

// Writes the text piece by piece, as `write_all` does, which says nothing of what went out before an error.
fn write_text<O: Write>(text: &[u8], output: &mut O) -> Result<(), Failure>
    ensures text { OnOk result (Appends (O.contents output.old) (O.contents output.new) text.now) }
    ensures front { OnErr result (AppendsFront (O.contents output.old) (O.contents output.new) text.now) }
    ensures fault { IfErr result IsFault }
{
    let mut rest = text;
    for _ in 0..u64::MAX {
        if rest.is_empty() {
            return Ok(());
        }
        match output.write(rest) {
            Ok(0) => return Err(Failure::Fault(Fault::Device)),
            Ok(count) => rest = &rest[count..],
            Err(error) => {
                if error.kind() != ErrorKind::Interrupted {
                    return Err(Failure::from(error));
                }
            }
        }
    }
    Err(Failure::Fault(Fault::Device))
}

/// Prints an id and LF.
pub fn print_id<O: Write>(id: &ObjectId, output: &mut O) -> Result<(), Failure>
    ensures line { OnOk result (Appends (O.contents output.old) (O.contents output.new) (id_line id.now)) }
    ensures front { OnErr result (AppendsFront (O.contents output.old) (O.contents output.new) (id_line id.now)) }
    ensures fault { IfErr result IsFault }
{
    let id = id.named();
    let mut line = [b'\n'; 41];
    line[..40].copy_from_slice(&id.to_hex());
    print_text(&line, output)
}

/// The ids, each with LF behind it.
pub fn id_lines(alloc: Global, ids: &[ObjectId]) -> Result<Vec<u8>, AllocError>
    ensures { IfOk result (λ text. text.items ≡ flat_map id_line ids.now) }
{
    let mut text = Vec::with_capacity(alloc, ids.len().saturating_mul(41))?;
    for id in ids {
        text.extend_from_slice(&id.to_hex())?;
        text.push(b'\n')?;
    }
    Ok(text)
}
