// The mark that a folder may have names which a loss of power takes away.
//
// Contents are made durable before they get their names, and names only after that. Who is killed in between leaves names that
// everybody sees and that are on no disk yet. So the mark is made before the first such name, and taken away once all are
// durable; who finds it with the right to write makes durable all that may have been left, before anything stands on it.
//
// The mark is never synced itself. A process that is killed leaves it to those that come; after a loss of power only what
// was on the disk is seen, with it or without it.
use crate::root::{Root, above, is_absence};
use std::alloc::Global;
use std::fs::{self, File, OpenFile};
use std::io::{self, ErrorKind};
use std::rt;

// The path whose lock name the mark has. No file of a store has it, and what ends so is listed nowhere.
const MARKED: &str = "unsynced";

// The folders of a store in which names are made durable, with all that are in them. What else stands beside them is never
// looked at, and objects in quarantine are never made durable.
const KEPT: [&str; 2] = ["objects", "refs"];

/// Makes the mark, and returns whether it wasn't there.
pub(crate) fn set<R: rt::Files + AllocGlobal + Clone + Drop>(
    root: &Root<R>,
    alloc: Global,
) -> io::Result<bool> {
    let mark = root.lock(alloc, MARKED)?;
    match File::create_new(&root.rt, mark.as_str()) {
        Ok(_) => Ok(true),
        Err(e) if e.kind() == ErrorKind::AlreadyExists => Ok(false),
        Err(e) => Err(e),
    }
}

/// Takes the mark away. One that stays for whatever reason costs the next writer time, and nothing else.
pub(crate) fn clear<R: rt::Files + AllocGlobal + Clone + Drop>(
    root: &Root<R>,
    alloc: Global,
) -> io::Result<()> {
    let mark = root.lock(alloc, MARKED)?;
    let _ = root.remove(mark.as_str());
    Ok(())
}

/// If the mark stands, makes all names durable and takes it away.
pub(crate) fn settle<R: rt::Files + AllocGlobal + Clone + Drop>(
    root: &Root<R>,
    alloc: Global,
) -> io::Result<()> {
    let mark = root.lock(alloc, MARKED)?;
    match fs::symlink_metadata(&root.rt, mark.as_str()) {
        Ok(_) => {}
        Err(e) if is_absence(&e) => return Ok(()),
        Err(e) => return Err(e),
    }
    sync_above(&root.rt, root.path.as_str())?;
    root.sync(root.path.as_str())?;
    for folder in KEPT {
        sync_below(root, alloc, folder)?;
    }
    root.remove(mark.as_str())?;
    Ok(())
}

/// Makes the name of a folder durable. One that stands where nobody may look was made by somebody else.
pub(crate) fn sync_above<R: rt::Files>(rt: &R, folder: &str) -> io::Result<()> {
    match File::open(rt, above(folder.trim_end_matches('/'))) {
        Ok(above) => above.sync_all(),
        Err(e) if e.kind() == ErrorKind::PermissionDenied => Ok(()),
        Err(e) => Err(e),
    }
}

// Makes all names durable in a folder and in those that are in it. No link is followed.
fn sync_below<R: rt::Files + AllocGlobal + Clone + Drop>(
    root: &Root<R>,
    alloc: Global,
    folder: &str,
) -> io::Result<()> {
    let mut left = Vec::new(alloc);
    left.push(root.place(alloc, folder)?)?;
    for _ in 0..u64::MAX {
        let Some(place) = left.pop() else {
            break;
        };
        if is_folder(&root.rt, place.as_str())? {
            add_all_in(&root.rt, alloc, place.as_str(), &mut left)?;
            root.sync(place.as_str())?;
        }
    }
    Ok(())
}

fn is_folder<R: rt::Files>(rt: &R, place: &str) -> io::Result<bool> {
    match fs::symlink_metadata(rt, place) {
        Ok(metadata) => Ok(metadata.is_dir()),
        Err(e) if is_absence(&e) => Ok(false),
        Err(e) => Err(e),
    }
}

// Adds the places of all that stands in a folder. What has a name that isn't UTF-8 is no file of ours.
fn add_all_in<R: rt::Files + AllocGlobal + Clone + Drop>(
    rt: &R,
    alloc: Global,
    folder: &str,
    places: &mut Vec<String>,
) -> io::Result<()> {
    for entry in fs::read_dir(rt, folder)? {
        let entry = match entry {
            Ok(entry) => entry,
            Err(e) if e.kind() == ErrorKind::InvalidFilename => continue,
            Err(e) => return Err(e),
        };
        let name = entry.file_name();
        places.push(format!(in alloc; "{folder}/{name}")?)?;
    }
    Ok(())
}
