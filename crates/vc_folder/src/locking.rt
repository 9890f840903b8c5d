// Locking a folder: the system's lock on the folder itself.
use crate::mark;
use crate::root::above;
use std::fs::{self, File, OpenFile, TryLockError};
use std::io::{self, ErrorKind};
use std::os::unix::fs::MetadataExt;
use std::rt;

// How often a folder is made and locked anew that others remove meanwhile. Each time another process was served.
const TRIES: u32 = 10_000;

/// How a folder is locked.
#[derive(Clone, Copy)]
pub(crate) enum How {
    /// Alone, after all others.
    Alone,
    /// Alone, unless another process has it locked now.
    AloneAtOnce,
    /// Together with all that share it, after one that has it alone.
    Shared,
}

/// A folder that is open, and locked until it is closed.
#[derive(Drop)]
pub(crate) struct Locked {
    pub folder: File,
    /// Whether it was made for that.
    pub is_new: bool,
}

/// Locks a folder, which is made if it isn't there, with those above it; none if another process has it locked, and this one
/// doesn't wait.
pub(crate) fn lock_folder<R: rt::Files<File = File> + AllocGlobal>(
    rt: &R,
    path: &str,
    how: How,
) -> io::Result<Option<Locked>> {
    // The slash lets nothing but a folder be opened, and a pipe block nobody.
    let place = format!(in rt.alloc(); "{path}/")?;
    let mut is_new = false;
    for _ in 0..TRIES {
        let folder = match File::open(rt, place.as_str()) {
            Ok(folder) => folder,
            Err(e) if e.kind() == ErrorKind::NotFound => {
                is_new |= make(rt, path)?;
                continue;
            }
            Err(e) => return Err(e),
        };
        if !is_locked(&folder, how)? {
            return Ok(None);
        }
        if stands_at(rt, &folder, place.as_str())? {
            return Ok(Some(Locked { folder, is_new }));
        }
    }
    Err(io::Error::from(ErrorKind::ResourceBusy))
}

// Locks an open folder, and says whether it did: not if another process has it locked and this one doesn't wait.
fn is_locked(folder: &File, how: How) -> io::Result<bool> {
    match how {
        How::Alone => folder.lock()?,
        How::Shared => folder.lock_shared()?,
        How::AloneAtOnce => return is_locked_at_once(folder),
    }
    Ok(true)
}

fn is_locked_at_once(folder: &File) -> io::Result<bool> {
    match folder.try_lock() {
        Ok(()) => Ok(true),
        Err(TryLockError::WouldBlock) => Ok(false),
        Err(TryLockError::Error(e)) => Err(e),
    }
}

// Whether the path still leads to the folder that was locked: who held the lock before may have removed it.
fn stands_at<R: rt::Files>(rt: &R, held: &File, folder: &str) -> io::Result<bool> {
    let there = match fs::metadata(rt, folder) {
        Ok(there) => there,
        Err(e) if e.kind() == ErrorKind::NotFound => return Ok(false),
        Err(e) => return Err(e),
    };
    let held = held.metadata()?;
    Ok(there.dev() == held.dev() && there.ino() == held.ino())
}

// Makes a folder and those above it, their names durable, and says whether the folder itself was made.
fn make<R: rt::Files>(rt: &R, path: &str) -> io::Result<bool> {
    for end in 1..path.len() {
        match path.split_at_checked(end) {
            Some((folder, rest)) if rest.starts_with('/') => {
                is_made(rt, folder)?;
            }
            _ => {}
        }
    }
    is_made(rt, path)
}

fn is_made<R: rt::Files>(rt: &R, folder: &str) -> io::Result<bool> {
    match fs::create_dir(rt, folder) {
        Ok(()) => {}
        Err(e) if e.kind() == ErrorKind::AlreadyExists => {
            // Who made it may have been stopped before its name was durable. What is no folder of ours may refuse a sync.
            let _ = mark::sync_above(rt, folder);
            return Ok(false);
        }
        // Another process removed the one above: the next look at the whole path tells.
        Err(e) if e.kind() == ErrorKind::NotFound => return Ok(false),
        // Systems that refuse any new folder say so before they say that it is there.
        Err(e) => {
            return match fs::exists(rt, folder) {
                Ok(true) => Ok(false),
                _ => Err(e),
            };
        }
    }
    File::open(rt, above(folder))?.sync_all()?;
    Ok(true)
}
