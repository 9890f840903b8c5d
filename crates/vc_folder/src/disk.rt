// In which order files of a folder are written and made durable.
use crate::root::{Found, Root, above, is_absence};
use crate::syncing::{Syncing, Syncs};
use crate::{left_over, mark};
use std::alloc::Global;
use std::collections::BTreeSet;
use std::fs::{self, File, OpenFile};
use std::io::{self, ErrorKind, Write};
use std::rt;

// The most bytes that the file of an object has: its body, and the longest header, `commit 16777216` and a NUL. A
// ref's file and HEAD are far shorter. What is longer is read to one byte more, which no reader takes for whole.
const MOST_OF_AN_OBJECT: u64 = 16_777_216 + 16;

// The most bytes that any other file may have. An index of ten million files has room for paths of 370 bytes each in
// it. A text that was cut could be taken for whole there, so a longer file is not read at all.
const MOST_OF_A_FILE: u64 = 4_294_967_296;

// When a file is made durable.
#[derive(Clone, Copy, PartialEq, Eq)]
enum Durable {
    // Before the call returns, and all that was written before it first.
    Now,
    // With the next file that is made durable at once, or at a sync. Until then it waits under its lock name.
    Later,
    // Never: what a stop leaves of it is removed unread.
    Never,
}

fn when_durable(path: &str) -> Durable {
    if path.starts_with("objects/") {
        Durable::Later
    } else if path.starts_with("quarantine/") {
        Durable::Never
    } else {
        Durable::Now
    }
}

// Whether what may stand at a path is no longer than the file of an object.
fn is_short(path: &str) -> bool {
    path.starts_with("objects/")
        || path.starts_with("quarantine/")
        || path.starts_with("refs/")
        || path == "HEAD"
}

/// Files in a folder, some of which wait for the next sync.
pub(crate) struct Disk<R: rt::Files + Syncs<R::File> + AllocGlobal + Clone + Drop> {
    root: Root<R>,
    // The paths of the files that stand under their lock names and wait for their places.
    waiting: BTreeSet<String>,
    // Those of them that may not be durable yet.
    syncing: Syncing<R::File>,
    // The folders that have names which aren't durable yet.
    folders: BTreeSet<String>,
    // Folders of paths that were seen to be folders, and no links.
    seen: BTreeSet<String>,
    // What was seen in the folder of the file that was taken away last, and keeps that folder there. If many files of one
    // folder go, it isn't looked into anew for each.
    beside: Option<String>,
    // Whether the mark was made that names may not be durable.
    is_marked: bool,
    // Whether it has to stay: it isn't known whether all names are durable, or the mark is another's.
    stays_marked: bool,
}

impl<R: rt::Files + Syncs<R::File> + AllocGlobal + Clone + Drop> Disk<R> {
    pub fn new(rt: R, path: String) -> Self {
        let alloc = rt.alloc();
        Disk {
            root: Root { rt, path },
            waiting: BTreeSet::new(alloc),
            syncing: Syncing::new(alloc),
            folders: BTreeSet::new(alloc),
            seen: BTreeSet::new(alloc),
            beside: None,
            is_marked: false,
            stays_marked: false,
        }
    }

    // Makes the mark before a name that is not durable at once. It is made anew also if it was made before: who had the
    // right to write meanwhile took it away.
    fn mark(&mut self, alloc: Global) -> io::Result<()> {
        let is_new = match mark::set(&self.root, alloc) {
            Err(e) if e.kind() == ErrorKind::NotFound => {
                self.make_root(alloc)?;
                mark::set(&self.root, alloc)?
            }
            done => done?,
        };
        if !is_new && !self.is_marked {
            self.stays_marked = true;
        }
        self.is_marked = true;
        Ok(())
    }

    fn make_root(&mut self, alloc: Global) -> io::Result<()> {
        let above = String::from_str(alloc, above(self.root.path.as_str()))?;
        self.folders.insert(above)?;
        fs::create_dir_all(&self.root.rt, self.root.path.as_str())
    }

    // Takes the mark away, now that all names are durable.
    fn unmark(&mut self, alloc: Global) -> io::Result<()> {
        if self.is_marked && !self.stays_marked {
            mark::clear(&self.root, alloc)?;
            self.is_marked = false;
        }
        Ok(())
    }

    // The mark stays if this failed, for it isn't known which names are durable.
    fn keep_mark<T: Drop>(&mut self, done: io::Result<T>) -> io::Result<T> {
        if done.is_err() {
            self.stays_marked = true;
        }
        done
    }

    pub fn get(&mut self, alloc: Global, path: &str) -> io::Result<Option<Vec<u8>>> {
        if self.waiting.contains(path) {
            let lock = self.root.lock(alloc, path)?;
            if let Some(bytes) = self.read(alloc, path, lock.as_str())? {
                return Ok(Some(bytes));
            }
        }
        if !self.has_folders(alloc, path)? {
            return Ok(None);
        }
        let place = self.root.place(alloc, path)?;
        self.read(alloc, path, place.as_str())
    }

    // Reads the file of a path at its place or under its lock name, no further than such a file may be long.
    fn read(&self, alloc: Global, path: &str, place: &str) -> io::Result<Option<Vec<u8>>> {
        if is_short(path) {
            return self.root.read(alloc, place, MOST_OF_AN_OBJECT + 1);
        }
        match self.root.find(place)? {
            Found::File(length) if length > MOST_OF_A_FILE => {
                Err(io::Error::from(ErrorKind::FileTooLarge))
            }
            _ => self.root.read(alloc, place, MOST_OF_A_FILE),
        }
    }

    // What stands at a path. A link, a pipe and the like is an error, there and at a folder of the path.
    fn look(&mut self, alloc: Global, path: &str) -> io::Result<Found> {
        if !self.has_folders(alloc, path)? {
            return Ok(Found::Nothing);
        }
        let place = self.root.place(alloc, path)?;
        self.root.find(place.as_str())
    }

    // Whether the folders of a path are there. Each is looked at once.
    fn has_folders(&mut self, alloc: Global, path: &str) -> io::Result<bool> {
        let Some((lowest, _)) = path.rsplit_once('/') else {
            return Ok(true);
        };
        if self.seen.contains(lowest) {
            return Ok(true);
        }
        for end in 1..path.len() {
            match path.split_at_checked(end) {
                Some((folder, rest)) if rest.starts_with('/') => {
                    if !self.has_folder(alloc, folder)? {
                        return Ok(false);
                    }
                }
                _ => {}
            }
        }
        Ok(true)
    }

    fn has_folder(&mut self, alloc: Global, folder: &str) -> io::Result<bool> {
        if self.seen.contains(folder) {
            return Ok(true);
        }
        let place = self.root.place(alloc, folder)?;
        let is_there = self.root.find(place.as_str())? == Found::Folder;
        if is_there {
            self.seen.insert(String::from_str(alloc, folder)?)?;
        }
        Ok(is_there)
    }

    pub fn put(&mut self, alloc: Global, path: &str, bytes: &[u8]) -> io::Result<()> {
        // Nothing but a file is replaced.
        self.look(alloc, path)?;
        match when_durable(path) {
            Durable::Now => self.put_now(alloc, path, bytes),
            Durable::Later => self.put_later(alloc, path, bytes),
            Durable::Never => {
                self.write_lock(alloc, path, bytes, Durable::Never)?;
                self.put_in_place(alloc, path)
            }
        }
    }

    // All that was put before, then the content, then the name.
    fn put_now(&mut self, alloc: Global, path: &str, bytes: &[u8]) -> io::Result<()> {
        self.mark(alloc)?;
        self.bring_all(alloc)?;
        self.write_lock(alloc, path, bytes, Durable::Now)?;
        self.note_folder(alloc, path)?;
        self.put_in_place(alloc, path)?;
        self.sync_folders(alloc)?;
        self.unmark(alloc)
    }

    /// Puts files in their order, none of them an object, at once durable: all contents first, with those of what was put before; then
    /// the names of what was put before; then these names.
    pub fn put_all(&mut self, alloc: Global, files: &[(String, Vec<u8>)]) -> io::Result<()> {
        self.mark(alloc)?;
        for (path, bytes) in files {
            self.look(alloc, path.as_str())?;
            let file = self.write_lock(alloc, path.as_str(), bytes.as_slice(), Durable::Later)?;
            let added = self.syncing.add(&self.root.rt, alloc, file);
            self.or_give_up(alloc, added)?;
        }
        self.bring_all(alloc)?;
        for (path, _) in files {
            self.note_folder(alloc, path.as_str())?;
            self.put_in_place(alloc, path.as_str())?;
        }
        self.sync_folders(alloc)?;
        self.unmark(alloc)
    }

    fn put_later(&mut self, alloc: Global, path: &str, bytes: &[u8]) -> io::Result<()> {
        if self.waiting.contains(path) {
            // The lock name is taken by what was put before, which an error must not lose.
            self.sync(alloc)?;
        }
        let key = String::from_str(alloc, path)?;
        let file = self.write_lock(alloc, path, bytes, Durable::Later)?;
        if let Err(e) = self.waiting.insert(key) {
            let lock = self.root.lock(alloc, path)?;
            self.root.remove(lock.as_str())?;
            return Err(io::Error::from(e));
        }
        let added = self.syncing.add(&self.root.rt, alloc, file);
        self.or_give_up(alloc, added)
    }

    // Writes a file under its lock name, over what a stopped process left there. It is still open.
    fn write_lock(
        &mut self,
        alloc: Global,
        path: &str,
        bytes: &[u8],
        when: Durable,
    ) -> io::Result<R::File> {
        let lock = self.root.lock(alloc, path)?;
        let mut file = match self.root.create(lock.as_str())? {
            Some(file) => file,
            None => self.create_below(alloc, path, lock.as_str(), when)?,
        };
        let mut written = file.write_all(bytes);
        if written.is_ok() && when == Durable::Now {
            written = file.sync_all();
        }
        match written {
            Ok(()) => Ok(file),
            Err(e) => {
                // The answer is the first error; a lock file that stays blocks nothing.
                let _ = self.root.remove(lock.as_str());
                Err(e)
            }
        }
    }

    // Opens a file in folders that are made for it. Their names wait for the next sync.
    fn create_below(
        &mut self,
        alloc: Global,
        path: &str,
        lock: &str,
        when: Durable,
    ) -> io::Result<R::File> {
        if when != Durable::Never {
            self.mark(alloc)?;
            self.note_folders_above(alloc, path)?;
        }
        self.root.create_below(lock)
    }

    // Renames a lock file into its place, or removes it.
    fn put_in_place(&mut self, alloc: Global, path: &str) -> io::Result<()> {
        let renamed = self.rename(alloc, path);
        if renamed.is_err() {
            let lock = self.root.lock(alloc, path)?;
            // The answer is the first error; a lock file that stays blocks nothing.
            let _ = self.root.remove(lock.as_str());
        }
        renamed
    }

    // Folders in which a stopped process left nothing that counts give way.
    fn rename(&self, alloc: Global, path: &str) -> io::Result<()> {
        match self.root.rename(alloc, path) {
            Err(e) if e.kind() == ErrorKind::IsADirectory => {}
            done => return done,
        }
        left_over::clear(&self.root, &self.waiting, alloc, path)?;
        self.root.rename(alloc, path)
    }

    pub fn remove(&mut self, alloc: Global, path: &str) -> io::Result<()> {
        // Nothing but a file is removed.
        let found = self.look(alloc, path)?;
        if when_durable(path) != Durable::Now {
            self.remove_file(alloc, path)?;
            return Ok(());
        }
        if !matches!(found, Found::File(_)) {
            return self.sync(alloc);
        }
        self.remove_now(alloc, path)
    }

    fn remove_now(&mut self, alloc: Global, path: &str) -> io::Result<()> {
        self.mark(alloc)?;
        self.bring_all(alloc)?;
        let removed = self.remove_noted(alloc, path);
        self.keep_mark(removed)?;
        self.sync_folders(alloc)?;
        self.unmark(alloc)
    }

    fn remove_noted(&mut self, alloc: Global, path: &str) -> io::Result<()> {
        if let Some(folder) = self.remove_file(alloc, path)? {
            self.folders.insert(folder)?;
        }
        Ok(())
    }

    // Takes a file away, with the folders that hold nothing then, and returns where the lowest folder stands that stays, or
    // none if no file was there.
    fn remove_file(&mut self, alloc: Global, path: &str) -> io::Result<Option<String>> {
        let place = self.root.place(alloc, path)?;
        let mut was_there = false;
        if self.waiting.contains(path) {
            let lock = self.root.lock(alloc, path)?;
            was_there = self.root.remove(lock.as_str())?;
            self.waiting.remove(path);
        }
        if !self.root.remove(place.as_str())? && !was_there {
            return Ok(None);
        }
        if self.has_beside(path) {
            return folder_of(alloc, &self.root, path).map(Some);
        }
        self.beside = None;
        let left = left_over::remove_empty(&self.root, &self.waiting, alloc, path)?;
        self.beside = left.beside;
        Ok(Some(left.place))
    }

    // Whether something else was seen in the folder of a path, and was not taken away.
    fn has_beside(&self, path: &str) -> bool {
        match &self.beside {
            Some(other) => other.as_str() != path && are_in_one_folder(other.as_str(), path),
            None => false,
        }
    }

    pub fn list(&mut self, alloc: Global, prefix: &str) -> io::Result<Vec<String>> {
        if !self.has_folders(alloc, prefix)? {
            return Ok(Vec::new(alloc));
        }
        let mut names = self.root.list(alloc, prefix)?;
        for path in &self.waiting {
            if path.as_str().starts_with(prefix) {
                names.push(path.clone()?)?;
            }
        }
        names.sort()?;
        names.dedup();
        Ok(names)
    }

    /// Makes all that was put durable: first the contents of what waits, then its names in place.
    pub fn sync(&mut self, alloc: Global) -> io::Result<()> {
        if !self.waiting.is_empty() {
            self.mark(alloc)?;
        }
        self.bring_all(alloc)?;
        self.unmark(alloc)
    }

    // The mark is there already.
    fn bring_all(&mut self, alloc: Global) -> io::Result<()> {
        self.sync_contents(alloc)?;
        self.note_waiting_folders(alloc)?;
        self.put_all_in_place(alloc)?;
        self.waiting.clear();
        self.sync_folders(alloc)
    }

    // Makes the contents of what waits durable.
    fn sync_contents(&mut self, alloc: Global) -> io::Result<()> {
        let synced = self.syncing.finish(&self.root.rt);
        self.or_give_up(alloc, synced)
    }

    // What could not be made durable never gets its place, and what waits with it neither: once the system has told of a
    // failure, it may take the same file for durable.
    fn or_give_up(&mut self, alloc: Global, done: io::Result<()>) -> io::Result<()> {
        if done.is_err() {
            self.syncing = Syncing::new(alloc);
            self.waiting.clear();
        }
        done
    }

    fn note_waiting_folders(&mut self, alloc: Global) -> io::Result<()> {
        for path in &self.waiting {
            let folder = folder_of(alloc, &self.root, path.as_str())?;
            self.folders.insert(folder)?;
        }
        Ok(())
    }

    fn put_all_in_place(&self, alloc: Global) -> io::Result<()> {
        for path in &self.waiting {
            self.put_waiting_in_place(alloc, path.as_str())?;
        }
        Ok(())
    }

    // Where the lock file is gone, another process has brought the same file into place.
    fn put_waiting_in_place(&self, alloc: Global, path: &str) -> io::Result<()> {
        match self.rename(alloc, path) {
            Err(e) if is_absence(&e) => {
                let place = self.root.place(alloc, path)?;
                self.root.sync(place.as_str())
            }
            done => done,
        }
    }

    fn sync_folders(&mut self, alloc: Global) -> io::Result<()> {
        let synced = self.sync_noted(alloc);
        self.keep_mark(synced)?;
        self.folders.clear();
        Ok(())
    }

    fn sync_noted(&self, alloc: Global) -> io::Result<()> {
        let rt = &self.root.rt;
        let mut syncing = Syncing::new(alloc);
        for folder in &self.folders {
            match File::open(rt, folder.as_str()) {
                Ok(folder) => syncing.add(rt, alloc, folder)?,
                // It was removed when its last file was.
                Err(e) if is_absence(&e) => {}
                Err(e) => return Err(e),
            }
        }
        syncing.finish(rt)
    }

    fn note_folder(&mut self, alloc: Global, path: &str) -> io::Result<()> {
        let folder = folder_of(alloc, &self.root, path)?;
        self.folders.insert(folder)?;
        Ok(())
    }

    // Notes the folders above a path's folder, up to the one that holds the root.
    fn note_folders_above(&mut self, alloc: Global, path: &str) -> io::Result<()> {
        let place = folder_of(alloc, &self.root, path)?;
        let mut below = place.as_str();
        for _ in 0..place.len() {
            if below.len() < self.root.path.len() {
                break;
            }
            below = above(below);
            self.folders.insert(String::from_str(alloc, below)?)?;
        }
        Ok(())
    }
}

// Whether two paths have the same folder.
fn are_in_one_folder(path: &str, other: &str) -> bool {
    match (path.rsplit_once('/'), other.rsplit_once('/')) {
        (Some((folder, _)), Some((same, _))) => folder == same,
        _ => false,
    }
}

// The folder in which a file stands.
fn folder_of<R: rt::Files + AllocGlobal + Clone + Drop>(
    alloc: Global,
    root: &Root<R>,
    path: &str,
) -> io::Result<String> {
    match path.rsplit_once('/') {
        Some((folder, _)) => root.place(alloc, folder),
        None => Ok(root.path.clone()?),
    }
}

impl<R: rt::Files + Syncs<R::File> + AllocGlobal + Clone + Drop> Drop for Disk<R> {
    fn drop(mut self) {
        let alloc = self.root.rt.alloc();
        // Nobody is left to hear of an error: who wants to know it calls `sync` before.
        let _ = self.sync(alloc);
        let Disk {
            root: _,
            waiting: _,
            syncing: _,
            folders: _,
            seen: _,
            beside: _,
            is_marked: _,
            stays_marked: _,
        } = self;
    }
}
