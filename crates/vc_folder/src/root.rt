// The system's calls on files in a folder.
use std::alloc::Global;
use std::fs::{self, File, Metadata, OpenFile};
use std::io::{self, ErrorKind, Read};
use std::rt;

pub(crate) const LOCK: &str = ".lock";

/// A folder, and what its files are reached by.
#[derive(Drop)]
pub(crate) struct Root<R> {
    pub rt: R,
    pub path: String,
}

/// What stands at a place; a file with its length.
#[derive(Clone, Copy, PartialEq, Eq)]
pub(crate) enum Found {
    Nothing,
    Folder,
    File(u64),
}

/// The paths that a walk through folders has met. Those of folders end in a slash.
#[derive(Drop)]
pub(crate) struct Walk {
    pub files: Vec<String>,
    pub locks: Vec<String>,
    pub folders: Vec<String>,
}

/// What a folder holds.
#[derive(Drop)]
pub(crate) enum Held {
    /// Nothing but lock files, at these paths.
    Locks(Vec<String>),
    /// Something else, at this path.
    More(String),
}

impl Walk {
    pub fn new(alloc: Global) -> Self {
        Walk {
            files: Vec::new(alloc),
            locks: Vec::new(alloc),
            folders: Vec::new(alloc),
        }
    }
}

impl<R: rt::Files + AllocGlobal + Clone + Drop> Root<R> {
    /// Where a file stands.
    pub fn place(&self, alloc: Global, path: &str) -> io::Result<String> {
        let root = self.path.as_str();
        Ok(format!(in alloc; "{root}/{path}")?)
    }

    /// Where a file is written before it has its place.
    pub fn lock(&self, alloc: Global, path: &str) -> io::Result<String> {
        let root = self.path.as_str();
        Ok(format!(in alloc; "{root}/{path}{LOCK}")?)
    }

    /// What stands at a place, where no link is followed. What is neither a file nor a folder is an error.
    pub fn find(&self, place: &str) -> io::Result<Found> {
        match fs::symlink_metadata(&self.rt, place) {
            Ok(metadata) => kind_of(&metadata),
            Err(e) if is_absence(&e) => Ok(Found::Nothing),
            Err(e) => Err(e),
        }
    }

    /// The bytes of a file, at most so many, or none where there is no file. Only a file is ever opened.
    pub fn read(&self, alloc: Global, place: &str, most: u64) -> io::Result<Option<Vec<u8>>> {
        let Found::File(length) = self.find(place)? else {
            return Ok(None);
        };
        match self.read_file(alloc, place, length.min(most), most) {
            Ok(bytes) => Ok(Some(bytes)),
            // Another process took it away meanwhile.
            Err(e) if is_absence(&e) => Ok(None),
            Err(e) => Err(e),
        }
    }

    fn read_file(&self, alloc: Global, place: &str, length: u64, most: u64) -> io::Result<Vec<u8>> {
        let file = File::open(&self.rt, place)?;
        let size = usize::try_from(length).unwrap_or(0);
        // Room for one byte more, so that the end is found without a second buffer.
        let mut bytes = Vec::with_capacity(alloc, size.saturating_add(1))?;
        file.take(most).read_to_end(&mut bytes)?;
        Ok(bytes)
    }

    /// Opens a file that wasn't there, or none if a folder above it is missing. What a stopped process left at its
    /// place is removed first: no file that another process holds open is ever cut, and no link followed.
    pub fn create(&self, place: &str) -> io::Result<Option<R::File>> {
        match File::create_new(&self.rt, place) {
            Ok(file) => Ok(Some(file)),
            Err(e) if e.kind() == ErrorKind::AlreadyExists => {
                self.remove(place)?;
                Ok(Some(File::create_new(&self.rt, place)?))
            }
            Err(e) if e.kind() == ErrorKind::NotFound => Ok(None),
            Err(e) => Err(e),
        }
    }

    /// Opens a file that wasn't there, and makes the folders above it.
    pub fn create_below(&self, place: &str) -> io::Result<R::File> {
        if let Some((folder, _)) = place.rsplit_once('/') {
            fs::create_dir_all(&self.rt, folder)?;
        }
        File::create_new(&self.rt, place)
    }

    /// Makes what stands at a place durable: a file's content, or a folder's names.
    pub fn sync(&self, place: &str) -> io::Result<()> {
        File::open(&self.rt, place)?.sync_all()
    }

    /// Gives a file that was written under its lock name its place.
    pub fn rename(&self, alloc: Global, path: &str) -> io::Result<()> {
        let lock = self.lock(alloc, path)?;
        let place = self.place(alloc, path)?;
        fs::rename(&self.rt, lock.as_str(), place.as_str())
    }

    /// Takes a file away, and says whether there was one. A folder stays.
    pub fn remove(&self, place: &str) -> io::Result<bool> {
        match fs::remove_file(&self.rt, place) {
            Ok(()) => Ok(true),
            Err(e) if is_absence(&e) => Ok(false),
            Err(e) => Err(e),
        }
    }

    /// The paths of the files that begin so, in no order. Only folders that such a path may be in are read.
    pub fn list(&self, alloc: Global, prefix: &str) -> io::Result<Vec<String>> {
        let first = match prefix.rsplit_once('/') {
            Some((folder, _)) => format!(in alloc; "{folder}/")?,
            None => String::new(alloc),
        };
        let mut walk = Walk::new(alloc);
        walk.folders.push(first)?;
        for _ in 0..u64::MAX {
            let Some(folder) = walk.folders.pop() else {
                break;
            };
            self.walk_in(alloc, folder.as_str(), prefix, &mut walk)?;
        }
        Ok(walk.files)
    }

    /// Adds to a walk what one folder holds, as far as a path with the prefix may be there. A name that isn't UTF-8
    /// and what is neither a file nor a folder is an error: no path of ours leads there, and passing over it would
    /// hide that something else does.
    pub fn walk_in(
        &self,
        alloc: Global,
        folder: &str,
        prefix: &str,
        walk: &mut Walk,
    ) -> io::Result<()> {
        let place = self.place(alloc, folder)?;
        let entries = match fs::read_dir(&self.rt, place.as_str()) {
            Ok(entries) => entries,
            Err(e) if is_absence(&e) => return Ok(()),
            Err(e) => return Err(e),
        };
        for entry in entries {
            let entry = entry?;
            let name = entry.file_name();
            let path = format!(in alloc; "{folder}{name}")?;
            let metadata = match entry.metadata() {
                Ok(metadata) => metadata,
                // Another process took it away meanwhile.
                Err(e) if is_absence(&e) => continue,
                Err(e) => return Err(e),
            };
            meet(path, prefix, &metadata, walk)?;
        }
        Ok(())
    }

    /// What a folder holds: its lock files, or the first thing that is none.
    pub fn held_in(&self, alloc: Global, folder: &str) -> io::Result<Held> {
        let place = self.place(alloc, folder)?;
        let mut locks = Vec::new(alloc);
        for entry in fs::read_dir(&self.rt, place.as_str())? {
            let entry = entry?;
            let name = entry.file_name();
            let path = format!(in alloc; "{folder}/{name}")?;
            if !name.ends_with(LOCK) || entry.file_type()?.is_dir() {
                return Ok(Held::More(path));
            }
            locks.push(path)?;
        }
        Ok(Held::Locks(locks))
    }
}

// Adds what stands at a path to a walk, unless no path with the prefix may be there.
fn meet(mut path: String, prefix: &str, metadata: &Metadata, walk: &mut Walk) -> io::Result<()> {
    if metadata.is_dir() {
        path.push('/')?;
    }
    if !path.as_str().starts_with(prefix) {
        return Ok(());
    }
    if metadata.is_dir() {
        walk.folders.push(path)?;
    } else if path.as_str().ends_with(LOCK) {
        walk.locks.push(path)?;
    } else {
        kind_of(metadata)?;
        walk.files.push(path)?;
    }
    Ok(())
}

fn kind_of(metadata: &Metadata) -> io::Result<Found> {
    if metadata.is_file() {
        Ok(Found::File(metadata.len()))
    } else if metadata.is_dir() {
        Ok(Found::Folder)
    } else {
        Err(io::Error::from(ErrorKind::InvalidData))
    }
}

/// The folder above a place.
pub(crate) fn above(place: &str) -> &str {
    match place.rsplit_once('/') {
        Some((folder, _)) if !folder.is_empty() => folder,
        Some(_) => "/",
        None => ".",
    }
}

/// Whether no file has the path: nothing stands there, a folder does, or a file stands where a folder of the
/// path should.
pub(crate) fn is_absence(e: &io::Error) -> bool {
    matches!(
        e.kind(),
        ErrorKind::NotFound | ErrorKind::NotADirectory | ErrorKind::IsADirectory
    )
}
