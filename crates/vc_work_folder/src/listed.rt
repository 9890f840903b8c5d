// What a listing found, by which a file is known again.
use crate::root::Found;
use std::alloc::{AllocError, Global};
use std::cmp::Ordering;
use std::fs::Metadata;
use std::os::unix::fs::MetadataExt;

/// What tells one file from all others: where it is kept, and when it was changed last, a time that the system gives. A file that
/// is made later and gets the number of one that is gone has another time.
#[derive(Clone, Copy, PartialEq, Eq, PartialOrd, Ord)]
pub struct Mark {
    device: u64,
    number: u64,
    seconds: i64,
    nanos: i64,
    size: u64,
    is_file: bool,
}

impl Mark {
    pub fn of(found: &Metadata) -> Mark {
        Mark {
            device: found.dev(),
            number: found.ino(),
            seconds: found.ctime(),
            nanos: found.ctime_nsec(),
            size: found.len(),
            is_file: found.file_type().is_file(),
        }
    }

    /// Whether it is that of a regular file.
    pub fn is_file(self) -> bool {
        self.is_file
    }

    /// How many bytes it had.
    pub fn size(self) -> u64 {
        self.size
    }

    /// Whether this was found: the same file, and nothing changed in it. A file system that has no numbers tells nothing.
    pub fn is_of(self, found: &Metadata) -> bool {
        self.number != 0 && self == Mark::of(found)
    }
}

/// The files of a listing. Who reads a work tree asks in the order of the paths.
#[derive(Drop)]
pub(crate) struct Listed {
    found: Vec<Found>,
    // The first that isn't passed yet.
    next: usize,
    /// A path of which each folder above was one when it was looked at behind the listing, or none yet.
    pub checked: String,
}

impl Listed {
    /// What a listing found, in the order of the paths.
    pub fn new(alloc: Global, found: Vec<Found>) -> Listed {
        Listed {
            found,
            next: 0,
            checked: String::new(alloc),
        }
    }

    /// Keeps a path of which each folder above was looked at.
    pub fn set_checked(&mut self, path: &str) -> Result<(), AllocError> {
        self.checked.clear();
        self.checked.push_str(path)
    }

    /// Where the file with this path stands, and its mark, or none where it wasn't listed or is passed. All that stand before it
    /// are passed then.
    pub fn find(&mut self, path: &str) -> Option<(usize, Mark)> {
        for _ in 0..u64::MAX {
            let (listed, mark) = self.found.get(self.next)?;
            match listed.as_str().cmp(path) {
                Ordering::Less => self.next = self.next.saturating_add(1),
                Ordering::Equal => return Some((self.next, *mark)),
                Ordering::Greater => return None,
            }
        }
        None
    }

    /// The files from a place on, so many at most.
    pub fn row(&self, alloc: Global, first: usize, most: usize) -> Result<Vec<Found>, AllocError> {
        let mut row = Vec::new(alloc);
        for (path, mark) in self.found.iter().skip(first).take(most) {
            row.push((path.clone()?, *mark))?;
        }
        Ok(row)
    }
}
