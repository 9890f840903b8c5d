//! What `status` prints of files and of a work tree.
ghost use Rattle.std.specs.Prelude.{◌≡◌, ◌⊎◌, ◌++◌, IfOk, IfErr, OnErr, OnOk, map};
ghost use Rattle.std.specs.List.{flat_map};
ghost use Rattle.std.specs.Io.KnownBytes.{Keeps};
ghost use Rattle.vc_checkout.specs.Devices.{WearsEither};
ghost use Rattle.vc_checkout.specs.Status.{seen};
ghost use Rattle.vc_checkout.specs.Steps.{IsUntouched};
ghost use Rattle.vc_cli.specs.Failure.{TellsDevice, TellsOfFiles, status_of};
ghost use Rattle.vc_cli.specs.Printed.{PrintsFront};
ghost use Rattle.vc_working.specs.StatusLines.{IsHeadTree, IsOfHeadTree, PrintsStatus, RefusesStatus, TellsStatus, change_lines, index_letter, line, lost_line, unknown_line};
ghost use Rattle.vc_files.specs.Failures.{Wears};

use crate::checkout::peel;
use std::alloc::{AllocError, Global};
use std::io::Write;
use vc_checkout::{Change, IndexChange, WorkChange};
use vc_cli::{Failure, print_text};
use vc_files::Files;
use vc_local::read_index;
use vc_object::{Kind, ObjectId};
use vc_work_folder::is_own;
use vc_work_tree::WorkTree;

// The letter of a change of the index.
fn index_letter(change: IndexChange) -> u8
    ensures { result ≡ index_letter change }
{
    match change {
        IndexChange::Same => b' ',
        IndexChange::Added => b'A',
        IndexChange::Removed => b'D',
        IndexChange::Changed => b'M',
    }
}

// Adds a line.
fn push_line(lines: &mut Vec<u8>, staged: u8, unstaged: u8, path: &[u8]) -> Result<(), AllocError>
    ensures { OnOk result (lines.new.items ≡ lines.old.items ++ line staged unstaged path.now) }
{
    lines.push(staged)?;
    lines.push(unstaged)?;
    lines.push(b' ')?;
    lines.extend_from_slice(path)?;
    lines.push(b'\n')?;
    Ok(())
}

// Adds the line of what the index lost, at a path that it lacks.
fn push_lost(lines: &mut Vec<u8>, staged: IndexChange, path: &[u8]) -> Result<(), AllocError>
    ensures { OnOk result (lines.new.items ≡ lines.old.items ++ lost_line staged path.now) }
{
    match staged {
        IndexChange::Same => Ok(()),
        IndexChange::Added => push_line(lines, b'A', b' ', path),
        IndexChange::Removed => push_line(lines, b'D', b' ', path),
        IndexChange::Changed => push_line(lines, b'M', b' ', path),
    }
}

// Adds the line of a file that the index lacks.
fn push_unknown(lines: &mut Vec<u8>, own: &[u8], path: &[u8]) -> Result<(), AllocError>
    ensures { OnOk result (lines.new.items ≡ lines.old.items ++ unknown_line own.now path.now) }
{
    if is_own(own, path) {
        return Ok(());
    }
    push_line(lines, b'?', b'?', path)
}

// Adds the lines of a change.
fn push_change(lines: &mut Vec<u8>, own: &[u8], change: &Change) -> Result<(), AllocError>
    ensures { OnOk result (lines.new.items ≡ lines.old.items ++ change_lines own.now (seen change.now)) }
{
    let staged = index_letter(change.index);
    match change.work {
        WorkChange::Same => push_line(lines, staged, b' ', &change.path),
        WorkChange::Gone => push_line(lines, staged, b'D', &change.path),
        WorkChange::Changed => push_line(lines, staged, b'M', &change.path),
        WorkChange::Untracked => {
            push_lost(lines, change.index, &change.path)?;
            push_unknown(lines, own, &change.path)
        }
    }
}

// The lines of the changes.
fn status_lines(alloc: Global, own: &[u8], changes: &[Change]) -> Result<Vec<u8>, AllocError>
    ensures { IfOk result (λ lines. lines.items ≡ flat_map (change_lines own.now) (map seen changes.now)) }
{
    let mut lines = Vec::new(alloc);
    for change in changes {
        push_change(&mut lines, own, change)?;
    }
    Ok(lines)
}

// The tree of HEAD's commit, where there is one.
fn head_tree<F: Files>(alloc: Global, files: &mut F) -> Result<Option<ObjectId>, Failure>
    ensures tree { F.honest → IfOk result (IsHeadTree (F.content files.old)) }
    ensures refused { F.honest → IfErr result (IsOfHeadTree (F.content files.old)) }
    ensures same { F.content files.new ≡ F.content files.old }
    ensures wear { Wears F.failed F.can_fail F.left files.old files.new (TellsDevice result) }
{
    let Some(commit) = vc_refs::resolve_head(files, alloc)? else {
        return Ok(None);
    };
    let tree = peel(alloc, files, &commit, Kind::Tree)?;
    Ok(Some(tree))
}

/// Prints a line for each path at which HEAD's tree, the index and the work tree differ, in the order of the paths: how
/// the index differs from HEAD's tree, how the file differs from the index, a space, the path. A file that the index lacks
/// has a line of its own, also behind one for what the index lost. `own` is the path of the store's folder in the work tree,
/// empty where it lies elsewhere: the files there are no part of the work tree.
///
/// These are looked at in turn, and the first that is at fault is told: the file of the index (62), HEAD's and its branch's
/// (33, 34), what HEAD leads to and its tree (51, 55), the tree and those below it (40, 60, 63). Of what their entries name
/// the trees alone are looked at: a file is told by its id, and one that is absent refuses nothing.
pub fn print_status<F: Files, W: WorkTree, O: Write>(
    alloc: Global,
    files: &mut F,
    work: &mut W,
    own: &[u8],
    output: &mut O,
) -> Result<(), Failure>
    ensures printed { W.honest → F.honest → OnOk result (PrintsStatus (F.content files.old) (W.content work.old) own.now (O.contents output.old) (O.contents output.new)) }
    ensures refused { F.honest → IfErr result (RefusesStatus (F.content files.old)) }
    ensures front { W.honest → F.honest → OnErr result (PrintsFront (TellsStatus (F.content files.old) (W.content work.old) own.now) (O.contents output.old) (O.contents output.new)) }
    ensures nothing_printed { IfErr result (λ e. (status_of e ≡ 3) ⊎ Keeps (O.contents output.old) (O.contents output.new)) }
    ensures files { F.content files.new ≡ F.content files.old }
    ensures untouched { IsUntouched W.content W.folders work.old work.new }
    ensures wear { WearsEither W.failed W.can_fail W.left F.failed F.can_fail F.left work.old work.new files.old files.new (TellsOfFiles result) }
{
    let index = read_index(alloc, files)?;
    let tree = head_tree(alloc, files)?;
    let changes = vc_checkout::status(alloc, work, files, &index, tree)?;
    let lines = status_lines(alloc, own, &changes)?;
    print_text(&lines, output)?;
    Ok(())
}
