// The calls on the files of a folder, none of which follows a link below it.
use crate::ahead::Ahead;
use crate::beside::{Beside, list_all};
use crate::listed::{Listed, Mark};
use crate::root::{Root, is_absence, joined, read_whole};
use crate::way::{Way, made};
use std::alloc::Global;
use std::fs::{self, File, Metadata};
use std::io::{self, ErrorKind, Write};
use std::rt;
use vc_object::{Kind, ObjectId, name_of};

// What a file is called in the store's folder before it has its place. No file of a store has this name, and none that ends
// so is listed there.
const DRAFT: &str = "checkout.lock";

/// A folder, and what its files are reached by.
#[derive(Drop)]
pub(crate) struct Disk<R> {
    pub root: Root<R>,
    /// Where the store's folder is.
    pub store: String,
    /// What the last listing found.
    pub listed: Listed,
    /// What of it is named before it is asked for.
    pub ahead: Ahead,
    /// The folders above the path of the last call.
    pub way: Way,
}

impl<R: rt::Files + Beside<R> + AllocGlobal + Clone + Drop> Disk<R> {
    // Where a file is written before it has its place.
    fn draft(&self, alloc: Global) -> io::Result<String> {
        joined(alloc, self.store.as_str(), "/", DRAFT)
    }

    // What stands at a path that leads through no link, or none.
    //
    // Above the files that the last listing found each folder is looked at once, behind that listing, and not anew for each file.
    // If all were folders then, the listing went through no link that came in the place of one, and what it found lay in the work
    // tree. As long as the mark is the same this is that file, whatever came in a folder's place since.
    fn find(&mut self, alloc: Global, path: &str, place: &str) -> io::Result<Option<Metadata>> {
        if let Some((_, mark)) = self.listed.find(path) {
            if !self
                .root
                .is_open(alloc, path, self.listed.checked.as_str())?
            {
                return Ok(None);
            }
            self.listed.set_checked(path)?;
            match self.root.look(place) {
                Ok(Some(found)) if mark.is_of(&found) => return Ok(Some(found)),
                // Something changed since the listing, and what came may be a link.
                _ => {}
            }
        }
        if !self.way.is_open(alloc, &self.root, path)? {
            return Ok(None);
        }
        self.root.look(place)
    }

    /// The bytes of a file or the text of a link, or none where neither stands.
    pub fn read(&mut self, alloc: Global, path: &str) -> io::Result<Option<Vec<u8>>> {
        if let Some(bytes) = self.read_listed(alloc, path)? {
            return Ok(Some(bytes));
        }
        let place = self.root.place(alloc, path)?;
        let Some(found) = self.find(alloc, path, place.as_str())? else {
            return Ok(None);
        };
        let kind = found.file_type();
        if kind.is_symlink() {
            let text = self.root.rt.read_link(alloc, place.as_str())?;
            return Ok(Some(text.into_string().into_bytes()));
        }
        if !kind.is_file() {
            return Ok(None);
        }
        let file = File::open(&self.root.rt, place.as_str())?;
        read_whole(alloc, file, found.len()).map(Some)
    }

    // The place in the last listing of a regular file that it found, and its mark, or none where the path leads to none that is
    // known to be one.
    fn listed_file(&mut self, alloc: Global, path: &str) -> io::Result<Option<(usize, Mark)>> {
        let Some((at, mark)) = self.listed.find(path) else {
            return Ok(None);
        };
        let known = self.listed.checked.as_str();
        if !mark.is_file() || !self.root.is_open(alloc, path, known)? {
            return Ok(None);
        }
        Ok(Some((at, mark)))
    }

    // The bytes of a regular file that the last listing found, or none where that isn't what stands there: then it is looked for by
    // [`find`](Disk::find), which tells what went wrong, too.
    fn read_listed(&mut self, alloc: Global, path: &str) -> io::Result<Option<Vec<u8>>> {
        let Some((_, mark)) = self.listed_file(alloc, path)? else {
            return Ok(None);
        };
        let Some(bytes) = self.root.read_marked(alloc, path, mark)? else {
            return Ok(None);
        };
        self.listed.set_checked(path)?;
        Ok(Some(bytes))
    }

    /// The name that the bytes of a file, or the text of a link, have as a blob, or none where neither stands.
    pub fn name(&mut self, alloc: Global, path: &str) -> io::Result<Option<ObjectId>> {
        if let Some((at, _)) = self.listed_file(alloc, path)?
            && let Some(name) = self.ahead.name(&self.root, &self.listed, at)?
        {
            self.listed.set_checked(path)?;
            return Ok(Some(name));
        }
        match self.read(alloc, path)? {
            Some(bytes) => Ok(Some(name_of(Kind::Blob, &bytes))),
            None => Ok(None),
        }
    }

    /// Writes a file in place of a file, a link, or a folder in which no file is. It is whole before it has its place.
    pub fn write(&mut self, alloc: Global, path: &str, bytes: &[u8]) -> io::Result<()> {
        self.ahead.forget(&self.root);
        self.way.make(alloc, &self.root, path)?;
        let draft = self.draft(alloc)?;
        let mut done = self.write_draft(draft.as_str(), bytes);
        if done.is_ok() {
            done = self.put_in_place(alloc, draft.as_str(), path);
        }
        let Err(e) = done else {
            return Ok(());
        };
        // The answer is the first error; a draft that stays blocks nothing.
        let _ = fs::remove_file(&self.root.rt, draft.as_str());
        if e.kind() == ErrorKind::CrossesDevices {
            return self.write_in_place(alloc, path, bytes);
        }
        Err(e)
    }

    // Writes the draft anew. What a stopped process left there is removed, and no link followed.
    fn write_draft(&self, draft: &str, bytes: &[u8]) -> io::Result<()> {
        let mut file = match File::create_new(&self.root.rt, draft) {
            Err(e) if e.kind() == ErrorKind::AlreadyExists => {
                fs::remove_file(&self.root.rt, draft)?;
                File::create_new(&self.root.rt, draft)?
            }
            made => made?,
        };
        file.write_all(bytes)
    }

    // Gives the draft its place. A folder in which no file is gives way.
    fn put_in_place(&self, alloc: Global, draft: &str, path: &str) -> io::Result<()> {
        let place = self.root.place(alloc, path)?;
        match fs::rename(&self.root.rt, draft, place.as_str()) {
            Err(e) if e.kind() == ErrorKind::IsADirectory => {}
            done => return done,
        }
        self.remove_empty(alloc, path)?;
        fs::rename(&self.root.rt, draft, place.as_str())
    }

    // The same where the store lies on another file system: what stood there is removed first.
    fn write_in_place(&self, alloc: Global, path: &str, bytes: &[u8]) -> io::Result<()> {
        match self.root.kind_at(alloc, path)? {
            None => {}
            Some(kind) if kind.is_dir() => self.remove_empty(alloc, path)?,
            Some(_) => fs::remove_file(&self.root.rt, self.root.place(alloc, path)?.as_str())?,
        }
        let place = self.root.place(alloc, path)?;
        // A name that somebody puts there meanwhile is not opened.
        let mut file = File::create_new(&self.root.rt, place.as_str())?;
        file.write_all(bytes)
    }

    /// Makes a folder, and those above it.
    pub fn make_folder(&mut self, alloc: Global, path: &str) -> io::Result<()> {
        self.way.make(alloc, &self.root, path)?;
        made(&self.root, self.root.place(alloc, path)?.as_str())?;
        Ok(())
    }

    /// Takes a file or a link away. A folder stays.
    pub fn remove(&mut self, alloc: Global, path: &str) -> io::Result<()> {
        self.ahead.forget(&self.root);
        if !self.way.is_open(alloc, &self.root, path)? {
            return Ok(());
        }
        let place = self.root.place(alloc, path)?;
        match fs::remove_file(&self.root.rt, place.as_str()) {
            Err(e) if is_absence(&e) => Ok(()),
            done => done,
        }
    }

    /// Takes a folder away if it is empty, and says whether none is there now.
    pub fn remove_folder(&mut self, alloc: Global, path: &str) -> io::Result<bool> {
        if !self.way.is_open(alloc, &self.root, path)? {
            return Ok(true);
        }
        let place = self.root.place(alloc, path)?;
        match fs::remove_dir(&self.root.rt, place.as_str()) {
            Ok(()) => Ok(true),
            Err(e) if is_absence(&e) => Ok(true),
            Err(e) if e.kind() == ErrorKind::DirectoryNotEmpty => Ok(false),
            Err(e) => Err(e),
        }
    }

    // Removes a folder with all folders in it. One that holds anything else stays, and is an error.
    fn remove_empty(&self, alloc: Global, path: &str) -> io::Result<()> {
        let mut found = vec![in alloc; joined(alloc, path, "/", "")?]?;
        let mut next = 0;
        for _ in 0..u64::MAX {
            if next >= found.len() {
                break;
            }
            let folder = found[next].clone()?;
            next += 1;
            let mut files = Vec::new(alloc);
            self.root
                .names_in(alloc, folder.as_str(), &mut files, &mut found)?;
            if !files.is_empty() {
                return Err(io::Error::from(ErrorKind::DirectoryNotEmpty));
            }
        }
        for folder in found.iter().rev() {
            fs::remove_dir(
                &self.root.rt,
                self.root.place(alloc, folder.as_str())?.as_str(),
            )?;
        }
        Ok(())
    }

    /// The paths of all files and links, sorted.
    pub fn list(&mut self, alloc: Global) -> io::Result<Vec<String>> {
        self.ahead.forget(&self.root);
        let found = list_all(&self.root)?;
        let mut names = Vec::with_capacity(alloc, found.len())?;
        for (path, _) in &found {
            names.push(path.clone()?)?;
        }
        self.listed = Listed::new(alloc, found);
        self.ahead = Ahead::new(alloc);
        Ok(names)
    }
}
