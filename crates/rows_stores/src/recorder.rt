//! The host's files, where each call that changes something or makes it durable is printed once it is done: in which
//! order a folder is written and synced is compared so.
use std::alloc::{Allocator, Global};
use std::fs::{File, Metadata, OpenFile, OpenOptions};
use std::io::{self, Print, Read, Seek, SeekFrom, Write};
use std::rt::Files;
use vc_folder::{Begun, Syncs, sync_in_turn};

#[derive(Clone, Drop)]
pub struct Recorder<H> {
    pub host: H,
    /// The path of a ref's file that another process takes away when it is about to be read, if there is such a process.
    pub taken: Option<String>,
}

/// An open file or folder, with its path.
#[derive(Drop)]
pub struct RecordedFile<H> {
    recorder: Recorder<H>,
    file: File,
    path: String,
}

impl<H: Print> Recorder<H> {
    fn tell<T: Drop>(&self, done: io::Result<T>, verb: &str, path: &str) -> io::Result<T> {
        let value = done?;
        println!(self.host; "  {verb} {path}")?;
        Ok(value)
    }
}

impl<H: Files<File = File> + AllocGlobal> Recorder<H> {
    // What the other process does before a file is read: its packed file gets its place, and the ref's own file goes.
    fn meanwhile(&self, path: &str) -> io::Result<()> {
        let Some(taken) = &self.taken else {
            return Ok(());
        };
        let Some(folder) = path.strip_suffix(taken.as_str()) else {
            return Ok(());
        };
        let alloc = self.host.alloc();
        let next = format!(in alloc; "{folder}packed-refs.next")?;
        let packed = format!(in alloc; "{folder}packed-refs")?;
        self.host.rename(next.as_str(), packed.as_str())?;
        self.host.remove_file(path)
    }
}

impl<H: AllocGlobal> Alloc for Recorder<H> {
    type A = Global;

    fn alloc(&self) -> Global {
        self.host.alloc()
    }
}

impl<H: Files<File = File> + Print + AllocGlobal + Clone + Drop> Files for Recorder<H> {
    type File = RecordedFile<H>;

    type Dir = H::Dir;

    fn open_file(&self, how: &OpenOptions, path: &str) -> io::Result<RecordedFile<H>> {
        if !how.asks_write() {
            self.meanwhile(path)?;
        }
        let mut file = self.host.open_file(how, path);
        if how.asks_create_new() {
            file = self.tell(file, "create", path);
        } else if how.asks_write() {
            file = self.tell(file, "overwrite", path);
        }
        Ok(RecordedFile {
            recorder: self.clone()?,
            file: file?,
            path: String::from_str(self.alloc(), path)?,
        })
    }

    fn open_dir(&self, path: &str) -> io::Result<Self::Dir> {
        self.host.open_dir(path)
    }

    fn metadata(&self, path: &str) -> io::Result<Metadata> {
        self.host.metadata(path)
    }

    fn symlink_metadata(&self, path: &str) -> io::Result<Metadata> {
        self.host.symlink_metadata(path)
    }

    fn copy(&self, from: &str, to: &str) -> io::Result<u64> {
        self.tell(self.host.copy(from, to), "copy to", to)
    }

    fn rename(&self, from: &str, to: &str) -> io::Result<()> {
        self.tell(self.host.rename(from, to), "rename to", to)
    }

    fn remove_file(&self, path: &str) -> io::Result<()> {
        self.tell(self.host.remove_file(path), "remove", path)
    }

    fn create_dir(&self, path: &str) -> io::Result<()> {
        self.tell(self.host.create_dir(path), "make folder", path)
    }

    fn remove_dir(&self, path: &str) -> io::Result<()> {
        self.tell(self.host.remove_dir(path), "remove folder", path)
    }

    fn remove_dir_all<B: Allocator>(&self, alloc: B, path: &str) -> io::Result<()> {
        self.tell(self.host.remove_dir_all(alloc, path), "remove all of", path)
    }
}

impl<H: Print> RecordedFile<H> {
    fn tell<T: Drop>(&self, done: io::Result<T>, verb: &str) -> io::Result<T> {
        self.recorder.tell(done, verb, self.path.as_str())
    }
}

impl<H: Print> Read for RecordedFile<H> {
    fn read(&mut self, buf: &mut [u8]) -> io::Result<usize> {
        self.file.read(buf)
    }
}

impl<H: Print> Write for RecordedFile<H> {
    fn write(&mut self, buf: &[u8]) -> io::Result<usize> {
        let written = self.file.write(buf)?;
        self.tell(Ok(()), "write")?;
        Ok(written)
    }

    fn flush(&mut self) -> io::Result<()> {
        self.file.flush()
    }
}

impl<H: Print> Seek for RecordedFile<H> {
    fn seek(&mut self, to: SeekFrom) -> io::Result<u64> {
        self.file.seek(to)
    }
}

impl<H: Print> OpenFile for RecordedFile<H> {
    fn metadata(&self) -> io::Result<Metadata> {
        self.file.metadata()
    }

    fn set_len(&self, size: u64) -> io::Result<()> {
        self.tell(self.file.set_len(size), "cut")
    }

    fn sync_all(&self) -> io::Result<()> {
        self.tell(self.file.sync_all(), "sync")
    }

    fn sync_data(&self) -> io::Result<()> {
        self.tell(self.file.sync_data(), "sync data of")
    }
}

// One after the other, so that what is printed has one order.
impl<H: Print + Drop> Syncs<RecordedFile<H>> for Recorder<H> {
    fn begin_sync(&self, files: Vec<RecordedFile<H>>) -> Begun {
        Begun::Done(sync_in_turn(&files))
    }

    fn end_sync(&self, begun: Begun) -> io::Result<()> {
        match begun {
            Begun::Done(synced) => synced,
            // No thread is ever at it here.
            Begun::Thread(_) => Ok(()),
        }
    }
}
