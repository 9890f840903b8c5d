// What a process that was killed leaves in a folder: lock files that nobody waits for, and empty folders.
use crate::root::{Held, LOCK, Root, Walk};
use std::alloc::Global;
use std::collections::BTreeSet;
use std::io::{self, ErrorKind};
use std::{fs, rt};

/// Removes the folder at a path with all folders in it and the lock files that were left there, if nothing else is
/// among them.
pub(crate) fn clear<R: rt::Files + AllocGlobal + Clone + Drop>(
    root: &Root<R>,
    waiting: &BTreeSet<String>,
    alloc: Global,
    path: &str,
) -> io::Result<()> {
    let walk = walk_below(root, alloc, path)?;
    if !walk.files.is_empty() || is_any_awaited(waiting, &walk.locks) {
        return Err(io::Error::from(ErrorKind::DirectoryNotEmpty));
    }
    remove_all(root, alloc, &walk.locks)?;
    for folder in walk.folders.iter().rev() {
        fs::remove_dir(&root.rt, root.place(alloc, folder.as_str())?.as_str())?;
    }
    Ok(())
}

// All that stands below a path; a folder comes behind those that it is in.
fn walk_below<R: rt::Files + AllocGlobal + Clone + Drop>(
    root: &Root<R>,
    alloc: Global,
    path: &str,
) -> io::Result<Walk> {
    let mut walk = Walk::new(alloc);
    walk.folders.push(format!(in alloc; "{path}/")?)?;
    let mut next = 0;
    for _ in 0..u64::MAX {
        if next >= walk.folders.len() {
            break;
        }
        let folder = walk.folders[next].clone()?;
        next += 1;
        root.walk_in(alloc, folder.as_str(), "", &mut walk)?;
    }
    Ok(walk)
}

/// What is left above a file that was taken away.
#[derive(Drop)]
pub(crate) struct Left {
    /// Where the lowest folder stands that stays.
    pub place: String,
    /// The path of something that was seen in the file's own folder and keeps it there.
    pub beside: Option<String>,
}

// What becomes of a folder from which a file was taken away.
#[derive(Drop)]
enum Emptied {
    Removed,
    // It stays: for what stands in it at this path, or for another reason.
    Stays(Option<String>),
}

/// Removes the folders of a path, from the lowest on, as long as they hold nothing but lock files that were left,
/// and answers what is left.
pub(crate) fn remove_empty<R: rt::Files + AllocGlobal + Clone + Drop>(
    root: &Root<R>,
    waiting: &BTreeSet<String>,
    alloc: Global,
    path: &str,
) -> io::Result<Left> {
    let mut below = path;
    for level in 0..path.len() {
        let Some((folder, _)) = below.rsplit_once('/') else {
            break;
        };
        let place = root.place(alloc, folder)?;
        if let Emptied::Stays(held) = remove_if_empty(
            root,
            waiting,
            alloc,
            folder,
            place.as_str(),
        ) {
            let beside = if level == 0 { held } else { None };
            return Ok(Left { place, beside });
        }
        below = folder;
    }
    Ok(Left {
        place: root.path.clone()?,
        beside: None,
    })
}

// Removes a folder, unless it holds something that counts. That it stays, for whatever reason, harms nothing.
fn remove_if_empty<R: rt::Files + AllocGlobal + Clone + Drop>(
    root: &Root<R>,
    waiting: &BTreeSet<String>,
    alloc: Global,
    folder: &str,
    place: &str,
) -> Emptied {
    match fs::remove_dir(&root.rt, place) {
        Ok(()) => return Emptied::Removed,
        Err(e) if e.kind() == ErrorKind::DirectoryNotEmpty => {}
        Err(_) => return Emptied::Stays(None),
    }
    match root.held_in(alloc, folder) {
        Ok(Held::Locks(locks)) => {
            if is_removed(root, waiting, alloc, place, &locks) {
                Emptied::Removed
            } else {
                Emptied::Stays(None)
            }
        }
        Ok(Held::More(path)) => Emptied::Stays(Some(path)),
        Err(_) => Emptied::Stays(None),
    }
}

// Removes a folder that holds these lock files alone, unless one of them is awaited.
fn is_removed<R: rt::Files + AllocGlobal + Clone + Drop>(
    root: &Root<R>,
    waiting: &BTreeSet<String>,
    alloc: Global,
    place: &str,
    locks: &[String],
) -> bool {
    !is_any_awaited(waiting, locks)
        && remove_all(root, alloc, locks).is_ok()
        && fs::remove_dir(&root.rt, place).is_ok()
}

fn is_any_awaited(waiting: &BTreeSet<String>, locks: &[String]) -> bool {
    for lock in locks {
        if let Some(path) = lock.as_str().strip_suffix(LOCK) {
            if waiting.contains(path) {
                return true;
            }
        }
    }
    false
}

fn remove_all<R: rt::Files + AllocGlobal + Clone + Drop>(
    root: &Root<R>,
    alloc: Global,
    paths: &[String],
) -> io::Result<()> {
    for path in paths {
        root.remove(root.place(alloc, path.as_str())?.as_str())?;
    }
    Ok(())
}
