//! Where the folder of a store lies in a work tree: that folder is no part of the work tree.

ghost use Rattle.std.specs.Prelude.{◌≡◌, ◌↔◌, None, IfErr, IfSome};
ghost use Rattle.std.specs.Path.{PathStartsWith};
ghost use Rattle.vc_cli.specs.Failure.{IsFault};
ghost use Rattle.vc_cli.specs.Stores.{IsUnopened};
ghost use Rattle.vc_working.specs.OwnPath.{IsOwnPath};

use std::alloc::Global;
use std::io::ErrorKind;
use std::path::{Component, Path, PathBuf};
use std::{fs, rt};
use vc_cli::{Failure, fault_of};
use vc_work_folder::is_own;

/// The path that the folder of the store has in the work tree; an empty one where it lies elsewhere, or in `.git`, which no
/// path of a work tree leads to. A work tree that is the store's folder, or lies in it, is refused: its files could be
/// the store's own.
pub fn own_folder<R>(rt: &R, store: &str, work: &str) -> Result<String, Failure>
where
    R: rt::Files + AllocGlobal + Clone + Drop,
    ensures refused { IfErr result IsUnopened }
{
    let alloc = rt.alloc();
    let store_place = place_of(rt, store)?;
    let work_place = place_of(rt, work)?;
    match own_path(store_place.as_str(), work_place.as_str()) {
        Some(own) => Ok(String::from_str(alloc, own)?),
        None => Err(Failure::Usage(format!(in alloc;
            "the work tree {work} lies in the store {store}: name another folder by --work"
        )?)),
    }
}

// The path that the folder of the store has in the work tree, from where the two lie; none where the work tree lies in the
// store.
fn own_path<'a>(store: &'a str, work: &str) -> Option<&'a str>
    ensures refused { result ≡ None ↔ PathStartsWith work.now store.now }
    ensures value { IfSome result (λ own. IsOwnPath store.now work.now own.now) }
{
    if Path::new(work).starts_with(store) {
        return None;
    }
    let Ok(own) = Path::new(store).strip_prefix(work) else {
        return Some("");
    };
    let own = own.as_str();
    if is_own(b".git", own.as_bytes()) {
        return Some("");
    }
    Some(own)
}

// Where a folder lies, with each link on the way followed. It need not be there yet.
fn place_of<R>(rt: &R, path: &str) -> Result<PathBuf<Global>, Failure>
where
    R: rt::Files + AllocGlobal,
    ensures fault { IfErr result IsFault }
{
    let start = if path.starts_with('/') { "/" } else { "." };
    let mut place = there(rt, start)?.unwrap_or(PathBuf::new(rt.alloc()));
    for part in Path::new(path).components() {
        match part {
            Component::RootDir | Component::CurDir => {}
            Component::ParentDir => {
                place.pop();
            }
            Component::Normal(name) => {
                place.push(name)?;
                if let Some(found) = there(rt, place.as_str())? {
                    place = found;
                }
            }
        }
    }
    Ok(place)
}

// Where the path leads, or none where nothing is there.
fn there<R>(rt: &R, path: &str) -> Result<Option<PathBuf<Global>>, Failure>
where
    R: rt::Files + AllocGlobal,
    ensures fault { IfErr result IsFault }
{
    match fs::canonicalize(rt, path) {
        Ok(found) => Ok(Some(found)),
        Err(error) => match error.kind() {
            ErrorKind::NotFound | ErrorKind::NotADirectory => Ok(None),
            _ => Err(Failure::Fault(fault_of(&error))),
        },
    }
}
