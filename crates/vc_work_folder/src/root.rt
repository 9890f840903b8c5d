// The system's calls that look at the files of a folder, none of which follows a link below it.
use crate::listed::Mark;
use crate::own::is_own;
use crate::way::shared_bytes;
use std::alloc::{AllocError, Global};
use std::fs::{self, File, FileType, Metadata, OpenFile};
use std::io::{self, ErrorKind, Read};
use std::rt;

/// A file or a link that a listing found: its path, and by what it is known again.
pub type Found = (String, Mark);

/// The top of a work tree.
#[derive(Drop)]
pub struct Root<R> {
    pub rt: R,
    pub path: String,
    /// The path of the store's folder in this one, where it lies in it; else empty.
    pub own: String,
}

impl<R: rt::Files + AllocGlobal + Clone + Drop> Root<R> {
    /// The same, for a thread of its own.
    pub fn again(&self) -> Result<Root<R>, AllocError> {
        Ok(Root {
            rt: self.rt.clone()?,
            path: self.path.clone()?,
            own: self.own.clone()?,
        })
    }

    /// Where a path lies.
    pub fn place(&self, alloc: Global, path: &str) -> io::Result<String> {
        joined(alloc, self.path.as_str(), "/", path)
    }

    /// Whether the path is that of a store, or lies in it: its first part is `.git`, or it is the store's own.
    pub fn is_store(&self, path: &str) -> bool {
        is_git(path) || is_own(self.own.as_str().as_bytes(), path.as_bytes())
    }

    /// What stands at a place, or none where nothing does. A link is a link.
    pub fn look(&self, place: &str) -> io::Result<Option<Metadata>> {
        match fs::symlink_metadata(&self.rt, place) {
            Ok(found) => Ok(Some(found)),
            Err(e) if is_absence(&e) => Ok(None),
            Err(e) => Err(e),
        }
    }

    /// The kind of what stands at a path, or none where nothing does.
    pub fn kind_at(&self, alloc: Global, path: &str) -> io::Result<Option<FileType>> {
        let place = self.place(alloc, path)?;
        match self.look(place.as_str())? {
            Some(found) => Ok(Some(found.file_type())),
            None => Ok(None),
        }
    }

    /// Whether each folder above the path is one, and none is the store. Those above `known` need no look.
    pub fn is_open(&self, alloc: Global, path: &str, known: &str) -> io::Result<bool> {
        if self.is_store(path) {
            return Ok(false);
        }
        // A folder above both is one up to whose slash they are the same.
        let first = shared_bytes(path, known);
        for (i, byte) in path.as_bytes().iter().enumerate().skip(first) {
            if *byte == b'/' {
                match self.kind_at(alloc, path.split_at(i).0)? {
                    Some(kind) if kind.is_dir() => {}
                    _ => return Ok(false),
                }
            }
        }
        Ok(true)
    }

    /// The bytes of the regular file that a listing found at a path, or none where that isn't what stands there.
    ///
    /// It is opened without a look, which for many small files would take a fifth of the time, and known by its mark behind that. So
    /// a link that came in its place is followed, to be closed again unread.
    pub fn read_marked(
        &self,
        alloc: Global,
        path: &str,
        mark: Mark,
    ) -> io::Result<Option<Vec<u8>>> {
        let place = self.place(alloc, path)?;
        let Ok(file) = File::open(&self.rt, place.as_str()) else {
            return Ok(None);
        };
        let found = file.metadata()?;
        if !mark.is_of(&found) {
            return Ok(None);
        }
        read_whole(alloc, file, found.len()).map(Some)
    }

    /// Adds the files and links of one folder to those that were found, and its folders to those that are left. Each folder's
    /// path ends in a slash, but for the top's, which is empty.
    pub fn names_in(
        &self,
        alloc: Global,
        folder: &str,
        found: &mut Vec<Found>,
        folders: &mut Vec<String>,
    ) -> io::Result<()> {
        let place = self.place(alloc, folder)?;
        let entries = match fs::read_dir(&self.rt, place.as_str()) {
            Ok(entries) => entries,
            Err(e) if is_absence(&e) => return Ok(()),
            Err(e) => return Err(e),
        };
        for entry in entries {
            let entry = match entry {
                Ok(entry) => entry,
                Err(e) if e.kind() == ErrorKind::InvalidFilename => continue,
                Err(e) => return Err(e),
            };
            let metadata = match entry.metadata() {
                Ok(metadata) => metadata,
                // Somebody took it away meanwhile.
                Err(e) if is_absence(&e) => continue,
                Err(e) => return Err(e),
            };
            let kind = metadata.file_type();
            let name = entry.file_name();
            let path = joined(alloc, folder, name, "")?;
            if self.is_store(path.as_str()) {
                continue;
            }
            if kind.is_dir() {
                folders.push(joined(alloc, folder, name, "/")?)?;
            } else if kind.is_file() || kind.is_symlink() {
                found.push((path, Mark::of(&metadata)))?;
            }
        }
        Ok(())
    }
}

/// The bytes of an open regular file that had this size a moment ago.
///
/// A read that brings fewer bytes than there was room for has not always met the end: the system brings 2 GiB at most, and a
/// signal or a bad disk may cut a read short. But where it brings the size that was told, and the room for one byte more stays
/// empty, these are all bytes that the file had then, whatever somebody appends now. After any other count (the file grew, it
/// shrank, or its size was never told) reads go on until one brings none.
pub fn read_whole<T: Read + Drop>(alloc: Global, mut file: T, size: u64) -> io::Result<Vec<u8>> {
    let size = usize::try_from(size).unwrap_or(0);
    let mut bytes = vec![in alloc; 0; size.saturating_add(1)]?;
    match file.read(bytes.as_mut_slice()) {
        Ok(count) => {
            bytes.truncate(count);
            if count == size {
                return Ok(bytes);
            }
        }
        Err(e) if e.kind() == ErrorKind::Interrupted => bytes.clear(),
        Err(e) => return Err(e),
    }
    file.read_to_end(&mut bytes)?;
    Ok(bytes)
}

/// Three texts in a row. A path is made for each call, so it is made with one piece of memory.
pub fn joined(alloc: Global, first: &str, second: &str, third: &str) -> io::Result<String> {
    let length = first.len().saturating_add(second.len());
    let mut whole = String::with_capacity(alloc, length.saturating_add(third.len()))?;
    whole.push_str(first)?;
    whole.push_str(second)?;
    whole.push_str(third)?;
    Ok(whole)
}

// Whether the path's first part is the name of a store of Git.
fn is_git(path: &str) -> bool {
    let first = match path.split_once('/') {
        Some((first, _)) => first,
        None => path,
    };
    first.eq_ignore_ascii_case(".git")
}

/// Whether no file has the path: nothing stands there, a folder does, a file stands where a folder of the path should, or the
/// system takes no such path.
pub fn is_absence(e: &io::Error) -> bool {
    matches!(
        e.kind(),
        ErrorKind::NotFound
            | ErrorKind::NotADirectory
            | ErrorKind::IsADirectory
            | ErrorKind::InvalidFilename
    )
}
