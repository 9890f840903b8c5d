// The folders above a path, each of which is looked at, so that no link is followed.
use crate::root::Root;
use std::alloc::{AllocError, Global};
use std::fs::{self, Metadata};
use std::io::{self, ErrorKind};
use std::os::unix::fs::MetadataExt;
use std::rt;

// A folder that was seen: how long its path is, and by what it is known again.
#[derive(Clone, Copy)]
struct Seen {
    length: usize,
    device: u64,
    number: u64,
}

impl Seen {
    // Whether this is that folder. By a file system that has no numbers none is known.
    fn is(self, found: &Metadata) -> bool {
        let is_known = self.number != 0 && found.file_type().is_dir();
        is_known && (self.device, self.number) == (found.dev(), found.ino())
    }
}

/// The folders above the path that the last call was on. Each was reached through no link.
///
/// The next call looks at the lowest of them that lies above its own path too. As long as that is the same folder, it is the one
/// that was seen in the work tree, whatever came in the place of those above it. So calls on many paths, in their order, look
/// at each folder about once, and at one more a call.
#[derive(Drop)]
pub(crate) struct Way {
    path: String,
    // From the top on.
    seen: Vec<Seen>,
}

impl Way {
    pub fn new(alloc: Global) -> Way {
        Way {
            path: String::new(alloc),
            seen: Vec::new(alloc),
        }
    }

    /// Whether each folder above the path is one, and none is the store.
    pub fn is_open<R: rt::Files + AllocGlobal + Clone + Drop>(
        &mut self,
        alloc: Global,
        root: &Root<R>,
        path: &str,
    ) -> io::Result<bool> {
        if root.is_store(path) {
            return Ok(false);
        }
        let first = self.turn_to(alloc, root, path)?;
        for (i, byte) in path.as_bytes().iter().enumerate().skip(first) {
            if *byte == b'/' {
                let place = root.place(alloc, path.split_at(i).0)?;
                match root.look(place.as_str())? {
                    Some(found) if found.file_type().is_dir() => self.add(i, &found)?,
                    _ => return Ok(false),
                }
            }
        }
        Ok(true)
    }

    /// Makes those folders above the path that are missing.
    pub fn make<R: rt::Files + AllocGlobal + Clone + Drop>(
        &mut self,
        alloc: Global,
        root: &Root<R>,
        path: &str,
    ) -> io::Result<()> {
        if root.is_store(path) {
            return Err(io::Error::from(ErrorKind::PermissionDenied));
        }
        let first = self.turn_to(alloc, root, path)?;
        for (i, byte) in path.as_bytes().iter().enumerate().skip(first) {
            if *byte == b'/' {
                let place = root.place(alloc, path.split_at(i).0)?;
                let found = made(root, place.as_str())?;
                self.add(i, &found)?;
            }
        }
        Ok(())
    }

    // Keeps those that lie above this path, if the lowest of them is still there, and returns where the rest of the path
    // begins.
    fn turn_to<R: rt::Files + AllocGlobal + Clone + Drop>(
        &mut self,
        alloc: Global,
        root: &Root<R>,
        path: &str,
    ) -> io::Result<usize> {
        let shared = shared_bytes(self.path.as_str(), path);
        for _ in 0..self.seen.len() {
            match self.seen.last() {
                Some(lowest) if lowest.length >= shared => {
                    self.seen.pop();
                }
                _ => break,
            }
        }
        self.set_path(path)?;
        let Some(lowest) = self.seen.last().copied() else {
            return Ok(0);
        };
        let Some((above, _)) = path.split_at_checked(lowest.length) else {
            self.seen.clear();
            return Ok(0);
        };
        let place = root.place(alloc, above)?;
        match root.look(place.as_str())? {
            Some(found) if lowest.is(&found) => Ok(lowest.length.saturating_add(1)),
            _ => {
                self.seen.clear();
                Ok(0)
            }
        }
    }

    fn set_path(&mut self, path: &str) -> Result<(), AllocError> {
        self.path.clear();
        self.path.push_str(path)
    }

    fn add(&mut self, length: usize, found: &Metadata) -> Result<(), AllocError> {
        self.seen.push(Seen {
            length,
            device: found.dev(),
            number: found.ino(),
        })?;
        Ok(())
    }
}

/// The folder at a place, which is made if nothing stands there.
pub(crate) fn made<R: rt::Files + AllocGlobal + Clone + Drop>(
    root: &Root<R>,
    place: &str,
) -> io::Result<Metadata> {
    let mut found = root.look(place)?;
    if found.is_none() {
        fs::create_dir(&root.rt, place)?;
        found = root.look(place)?;
    }
    match found {
        Some(found) if found.file_type().is_dir() => Ok(found),
        _ => Err(io::Error::from(ErrorKind::NotADirectory)),
    }
}

/// How many bytes two paths begin with that are the same.
pub(crate) fn shared_bytes(x: &str, y: &str) -> usize {
    let mut count: usize = 0;
    for (a, b) in x.as_bytes().iter().zip(y.as_bytes()) {
        if *a != *b {
            break;
        }
        count = count.saturating_add(1);
    }
    count
}
