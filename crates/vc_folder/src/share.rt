// A share in a folder.
use crate::folder::fault_of;
use crate::locking::{How, lock_folder};
use std::fs::{self, File};
use std::io::{self, ErrorKind};
use std::rt;
use vc_files::Fault;

/// A share in a folder, which any number of processes hold at once. While one is held, nobody gets the folder's
/// [`FolderLock`](crate::FolderLock), which is for one process alone; it gives no right to write. It is the system's lock on the
/// folder itself, so nothing is left of it when the process ends, however it ends.
///
/// The folder is made if it isn't there, with those above it, and stays: others may share it by then. If it may not be made,
/// nothing can be put into it, and the share is of nothing.
#[derive(Drop)]
pub struct FolderShare {
    // The folder, open and locked until this is closed.
    held: Option<File>,
}

impl FolderShare {
    /// Waits until no process holds the folder's lock, and takes a share.
    pub fn take<R: rt::Files<File = File> + AllocGlobal>(
        rt: &R,
        path: &str,
    ) -> Result<FolderShare, Fault> {
        match share(rt, path) {
            Ok(held) => Ok(FolderShare { held }),
            Err(e) => Err(fault_of(&e)),
        }
    }
}

fn share<R: rt::Files<File = File> + AllocGlobal>(rt: &R, path: &str) -> io::Result<Option<File>> {
    match lock_folder(rt, path, How::Shared) {
        Ok(Some(locked)) => Ok(Some(locked.folder)),
        // Who waits gets it.
        Ok(None) => Err(io::Error::from(ErrorKind::ResourceBusy)),
        Err(e) if is_forbidden(&e) => match fs::exists(rt, path) {
            Ok(false) => Ok(None),
            _ => Err(e),
        },
        Err(e) => Err(e),
    }
}

// Whether nothing may be made there.
fn is_forbidden(e: &io::Error) -> bool {
    matches!(
        e.kind(),
        ErrorKind::PermissionDenied | ErrorKind::ReadOnlyFilesystem
    )
}
