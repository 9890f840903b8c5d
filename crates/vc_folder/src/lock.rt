// The right to write to a folder.
use crate::folder::fault_of;
use crate::locking::{How, Locked, lock_folder};
use crate::mark;
use crate::root::Root;
use std::fs::{self, File};
use std::{io, rt};
use vc_files::Fault;

/// The right to write to a folder, which one process at a time holds. It is the system's lock on the folder itself,
/// so nothing is left of it when the process ends, however it ends.
///
/// The folder is made where it isn't there, with those above it. When the lock is let go, a folder that it made is
/// removed if it is still empty: a command that was refused leaves no empty store.
///
/// Who gets the lock has all names durable that a stopped process left: if the mark of `FolderFiles` stands, the folder, the one
/// above, and all folders in `objects/` and `refs/` are synced; if the folder is empty, the one above. Contents need it not, for
/// they are durable before they have their names.
pub struct FolderLock<R: rt::Files + AllocGlobal + Clone + Drop> {
    rt: R,
    path: String,
    // The folder, open and locked until this is closed.
    held: R::File,
    has_made: bool,
}

impl<R: rt::Files<File = File> + AllocGlobal + Clone + Drop> FolderLock<R> {
    /// Takes the lock at once; none if another process holds it, or a [`FolderShare`](crate::FolderShare).
    pub fn try_take(rt: &R, path: &str) -> Result<Option<Self>, Fault> {
        match lock_alone(rt, path, How::AloneAtOnce) {
            Ok(lock) => Ok(lock),
            Err(e) => Err(fault_of(&e)),
        }
    }

    /// Waits until no other process holds the lock or a share, and takes it.
    pub fn take(rt: &R, path: &str) -> Result<Self, Fault> {
        match lock_alone(rt, path, How::Alone) {
            Ok(Some(lock)) => Ok(lock),
            Ok(None) => Err(Fault::Device),
            Err(e) => Err(fault_of(&e)),
        }
    }
}

fn lock_alone<R: rt::Files<File = File> + AllocGlobal + Clone + Drop>(
    rt: &R,
    path: &str,
    how: How,
) -> io::Result<Option<FolderLock<R>>> {
    match lock_folder(rt, path, how)? {
        Some(Locked { folder, is_new }) => hold(rt, path, folder, is_new).map(Some),
        None => Ok(None),
    }
}

// The right to write to a folder that is locked. All that a stopped process left is made durable first.
fn hold<R: rt::Files<File = File> + AllocGlobal + Clone + Drop>(
    rt: &R,
    path: &str,
    held: File,
    has_made: bool,
) -> io::Result<FolderLock<R>> {
    let root = Root {
        rt: rt.clone()?,
        path: String::from_str(rt.alloc(), path)?,
    };
    if !has_made && is_empty(rt, path)? {
        // Who made it may have been stopped before its name was durable.
        mark::sync_above(rt, path)?;
    }
    mark::settle(&root, rt.alloc())?;
    let Root { rt, path } = root;
    Ok(FolderLock {
        rt,
        path,
        held,
        has_made,
    })
}

fn is_empty<R: rt::Files + AllocGlobal + Clone + Drop>(rt: &R, folder: &str) -> io::Result<bool> {
    Ok(fs::read_dir(rt, folder)?.next().is_none())
}

impl<R: rt::Files + AllocGlobal + Clone + Drop> Drop for FolderLock<R> {
    fn drop(self) {
        let FolderLock {
            rt,
            path,
            held,
            has_made,
        } = self;
        if has_made {
            // It fails where the folder is not empty, which is as it should be.
            let _ = fs::remove_dir(&rt, path.as_str());
        }
        drop(held);
    }
}
