//! What became of a push, as it is printed.
ghost use Rattle.std.specs.Prelude.{◌≡◌, ◌++◌, IfOk, OnOk, map};
ghost use Rattle.std.specs.List.{flat_map, list_all};
ghost use Rattle.vc_push.specs.ReportView.{told_of};
ghost use Rattle.vc_transport.specs.Printed.{is_accepted, told_line};

use std::alloc::{AllocError, Global};
use vc_push::{Report, Told};

/// Whether each command was done.
pub fn is_done(report: &Report) -> bool
    ensures { result ≡ list_all is_accepted report.now.told.items }
{
    report.told.iter().all(|told| is_accepted(told))
}

// Whether a command was done.
fn is_accepted(told: &Told) -> bool
    ensures { result ≡ is_accepted told.now }
{
    told.outcome.is_ok()
}

/// A line for each command: `ok` and its ref, or `ng`, its ref and the reason.
pub fn report_lines(alloc: Global, report: &Report) -> Result<Vec<u8>, AllocError>
    ensures { IfOk result (λ text. text.items ≡ flat_map told_line (map told_of report.now.told.items)) }
{
    let mut text = Vec::new(alloc);
    for told in &report.told {
        push_line(&mut text, told)?;
    }
    Ok(text)
}

// Adds the line of a command.
fn push_line(text: &mut Vec<u8>, told: &Told) -> Result<(), AllocError>
    ensures { OnOk result (text.new.items ≡ text.old.items ++ told_line (told_of told.now)) }
{
    match &told.outcome {
        Ok(_) => {
            text.extend_from_slice(b"ok ")?;
            text.extend_from_slice(&told.name)?;
        }
        Err(reason) => {
            text.extend_from_slice(b"ng ")?;
            text.extend_from_slice(&told.name)?;
            text.push(b' ')?;
            text.extend_from_slice(reason)?;
        }
    }
    text.push(b'\n')?;
    Ok(())
}
