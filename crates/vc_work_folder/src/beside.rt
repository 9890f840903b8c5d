// Looking at many folders and files at once.
//
// What the system knows of files it tells several threads side by side, and of each file the digest is computed. So a large work tree
// is looked at in half the time. Each thread has a share of its own.
use crate::root::{Found, Root};
use std::alloc::AllocError;
use std::thread::{JoinHandle, Threads, spawn};
use std::{io, rt};
use vc_object::{Kind, ObjectId, name_of};

/// The name of each file of a share, or none where it is left to be looked at in its turn.
pub type Early = Vec<Option<ObjectId>>;

/// How many threads look at once, beside the caller, at most.
pub const MOST_THREADS: usize = 4;

// How many folders are shared out: fewer are listed before a thread is there.
const ENOUGH: usize = 32;

// Files of more bytes are looked at in their turn alone: each thread holds a file whole.
const MOST_BYTES: u64 = 1024 * 1024;

/// What has begun.
#[derive(Drop)]
pub enum Begun<T> {
    /// A thread is at it.
    Thread(JoinHandle<T>),
    /// It is done already.
    Done(T),
}

/// Looks at folders and files for a caller that goes on meanwhile. `R` is what the files are reached by.
pub trait Beside<R> {
    /// Begins to list all files and links in these folders and below them.
    fn begin_list(&self, root: Root<R>, folders: Vec<String>) -> Begun<io::Result<Vec<Found>>>;

    /// Begins to read files, and to name their bytes as blobs.
    fn begin_names(&self, root: Root<R>, files: Vec<Found>) -> Begun<Result<Early, AllocError>>;

    /// Waits for a list.
    fn end_list(&self, begun: Begun<io::Result<Vec<Found>>>) -> io::Result<Vec<Found>>;

    /// Waits for names.
    fn end_names(&self, begun: Begun<Result<Early, AllocError>>) -> Result<Early, AllocError>;
}

impl<T: Threads> Beside<HostRuntime> for T {
    fn begin_list(
        &self,
        root: Root<HostRuntime>,
        folders: Vec<String>,
    ) -> Begun<io::Result<Vec<Found>>> {
        match spawn(self, move || list_below(root, folders)) {
            Ok(thread) => Begun::Thread(thread),
            // No thread could be had.
            Err(refused) => Begun::Done((refused.value)()),
        }
    }

    fn begin_names(
        &self,
        root: Root<HostRuntime>,
        files: Vec<Found>,
    ) -> Begun<Result<Early, AllocError>> {
        match spawn(self, move || name_all(root, files)) {
            Ok(thread) => Begun::Thread(thread),
            Err(refused) => Begun::Done((refused.value)()),
        }
    }

    fn end_list(&self, begun: Begun<io::Result<Vec<Found>>>) -> io::Result<Vec<Found>> {
        match begun {
            Begun::Thread(thread) => thread.join(self),
            Begun::Done(listed) => listed,
        }
    }

    fn end_names(&self, begun: Begun<Result<Early, AllocError>>) -> Result<Early, AllocError> {
        match begun {
            Begun::Thread(thread) => thread.join(self),
            Begun::Done(named) => named,
        }
    }
}

// All files and links in these folders and below them.
fn list_below<R: rt::Files + AllocGlobal + Clone + Drop>(
    root: Root<R>,
    mut folders: Vec<String>,
) -> io::Result<Vec<Found>> {
    let alloc = root.rt.alloc();
    let mut found = Vec::new(alloc);
    for _ in 0..u64::MAX {
        let Some(folder) = folders.pop() else {
            break;
        };
        root.names_in(alloc, folder.as_str(), &mut found, &mut folders)?;
    }
    Ok(found)
}

// The names of files that are not large. What can't be read is left to be read in its turn, which tells why.
fn name_all<R: rt::Files + AllocGlobal + Clone + Drop>(
    root: Root<R>,
    files: Vec<Found>,
) -> Result<Early, AllocError> {
    let alloc = root.rt.alloc();
    let mut names = Vec::with_capacity(alloc, files.len())?;
    for (path, mark) in &files {
        let mut name = None;
        if mark.is_file()
            && mark.size() <= MOST_BYTES
            && let Ok(Some(bytes)) = root.read_marked(alloc, path.as_str(), *mark)
        {
            name = Some(name_of(Kind::Blob, &bytes));
        }
        names.push(name)?;
    }
    Ok(names)
}

/// All files and links of a work tree, sorted by their paths.
pub fn list_all<R: rt::Files + Beside<R> + AllocGlobal + Clone + Drop>(
    root: &Root<R>,
) -> io::Result<Vec<Found>> {
    let alloc = root.rt.alloc();
    let top = vec![in alloc; String::new(alloc)]?;
    let mut found = match list_by_shares(root, top.clone()?) {
        Ok(found) => found,
        // A thread needs memory of its own, which may be lacking where the caller's is enough. A fault of a folder is told again.
        Err(_) => list_below(root.again()?, top)?,
    };
    found.sort()?;
    Ok(found)
}

// All files and links in these folders and below them, by threads where the folders are many.
fn list_by_shares<R: rt::Files + Beside<R> + AllocGlobal + Clone + Drop>(
    root: &Root<R>,
    mut folders: Vec<String>,
) -> io::Result<Vec<Found>> {
    let alloc = root.rt.alloc();
    let mut found = Vec::new(alloc);
    let mut begun = Vec::new(alloc);
    for _ in 0..u64::MAX {
        if begun.is_empty() && folders.len() >= ENOUGH {
            begun = share_out(root, &mut folders)?;
        }
        let Some(folder) = folders.pop() else {
            break;
        };
        root.names_in(alloc, folder.as_str(), &mut found, &mut folders)?;
    }
    for share in begun {
        let mut more = root.rt.end_list(share)?;
        found.append(&mut more)?;
    }
    Ok(found)
}

// Gives each thread an equal share of the folders, and leaves one to the caller.
fn share_out<R: rt::Files + Beside<R> + AllocGlobal + Clone + Drop>(
    root: &Root<R>,
    folders: &mut Vec<String>,
) -> io::Result<Vec<Begun<io::Result<Vec<Found>>>>> {
    let each = folders.len() / (MOST_THREADS + 1);
    let mut begun = Vec::new(root.rt.alloc());
    for _ in 0..MOST_THREADS {
        let share = folders.split_off(folders.len().saturating_sub(each))?;
        begun.push(root.rt.begin_list(root.again()?, share))?;
    }
    Ok(begun)
}
