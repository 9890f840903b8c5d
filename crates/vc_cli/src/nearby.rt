//! Which store a command works on where none is named.
ghost use Rattle.std.specs.Prelude.{IfErr};
ghost use Rattle.vc_cli.specs.Failure.{IsFault};
ghost use Rattle.vc_cli.specs.Stores.{IsUnopened};

use crate::failure::{Failure, fault_of};
use crate::repository::is_of_git;
use std::io::ErrorKind;
use std::{fs, rt};
use vc_arguments::DEFAULT_STORE;

// How many folders above the current one are looked at.
const LEVELS: u32 = 100;

/// Refuses to begin a second store below the folder of another one: where nothing stands in the default place, and a folder
/// above has a store of this program there.
pub fn refuse_second_store<R>(rt: &R) -> Result<(), Failure>
where
    R: rt::Files + AllocGlobal + Clone + Drop,
    ensures refused { IfErr result IsUnopened }
{
    if is_there(rt, DEFAULT_STORE)? {
        return Ok(());
    }
    match folder_with_store(rt)? {
        Some(folder) => Err(second_store(rt, folder.as_str())),
        None => Ok(()),
    }
}

// What is told of a folder above that has a store.
fn second_store<R>(rt: &R, folder: &str) -> Failure
where
    R: rt::Files + AllocGlobal + Clone + Drop,
    ensures { IsUnopened result }
{
    let line = format!(in rt.alloc();
        "no store is in {DEFAULT_STORE}, but one is in {folder}/{DEFAULT_STORE}: name it by --store {folder}/{DEFAULT_STORE} --work {folder}, or begin a new one by vcs init"
    );
    match line {
        Ok(line) => Failure::Usage(line),
        Err(error) => Failure::from(error),
    }
}

// The nearest folder above the current one that has a store of this program, as a path of `..`. The root of the file system
// is its own parent, so to look too far up finds nothing new.
fn folder_with_store<R>(rt: &R) -> Result<Option<String>, Failure>
where
    R: rt::Files + AllocGlobal + Clone + Drop,
    ensures { IfErr result IsFault }
{
    let mut folder = String::from_str(rt.alloc(), "..")?;
    for _ in 0..LEVELS {
        if has_store(rt, folder.as_str())? {
            return Ok(Some(folder));
        }
        folder.push_str("/..")?;
    }
    Ok(None)
}

// Whether a store of this program is in the default place of a folder.
fn has_store<R>(rt: &R, folder: &str) -> Result<bool, Failure>
where
    R: rt::Files + AllocGlobal + Clone + Drop,
    ensures { IfErr result IsFault }
{
    let store = format!(in rt.alloc(); "{folder}/{DEFAULT_STORE}")?;
    if !is_there(rt, store.as_str())? {
        return Ok(false);
    }
    for name in ["HEAD", "objects", "refs"] {
        let path = format!(in rt.alloc(); "{store}/{name}")?;
        if is_there(rt, path.as_str())? {
            return Ok(!is_of_git(rt, store.as_str())?);
        }
    }
    Ok(false)
}

// Whether something stands there. Of a folder that may not be looked into, nothing is known.
fn is_there<R: rt::Files>(rt: &R, path: &str) -> Result<bool, Failure>
    ensures { IfErr result IsFault }
{
    match fs::exists(rt, path) {
        Ok(is_there) => Ok(is_there),
        Err(error) => match error.kind() {
            ErrorKind::NotADirectory | ErrorKind::PermissionDenied => Ok(false),
            _ => Err(Failure::Fault(fault_of(&error))),
        },
    }
}
