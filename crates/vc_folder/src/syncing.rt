// Making what was written durable, many files at once.
//
// A disk takes the syncs of many files in little more time than that of one, where they are asked for side by side: one after
// the other, each waits for the disk alone. So files go to threads by shares, while more is written.
use std::alloc::Global;
use std::collections::VecDeque;
use std::fs::{File, OpenFile};
use std::thread::{JoinHandle, Threads, spawn};
use std::{io, mem};

// How many files a thread is given. Fewer are synced by the thread that asks.
const SHARE: usize = 8;

// How many threads sync at once, at most. Each waits for the disk and hardly works. With their shares and one that fills up, some
// 200 files are open at once: a process may be allowed no more than 256.
const MOST_THREADS: usize = 24;

/// What makes files of this type durable.
pub trait Syncs<T> {
    /// Begins to make the contents of open files, and the names in open folders, durable. They are closed then.
    fn begin_sync(&self, files: Vec<T>) -> Begun;

    /// Waits until that is done. The first failure is told.
    fn end_sync(&self, begun: Begun) -> io::Result<()>;
}

/// A sync that has begun.
#[derive(Drop)]
pub enum Begun {
    /// A thread is at it.
    Thread(JoinHandle<io::Result<()>>),
    /// It is done already.
    Done(io::Result<()>),
}

impl<R: Threads> Syncs<File> for R {
    fn begin_sync(&self, files: Vec<File>) -> Begun {
        match spawn(self, move || sync_and_close(files)) {
            Ok(thread) => Begun::Thread(thread),
            // No thread could be had.
            Err(refused) => Begun::Done((refused.value)()),
        }
    }

    fn end_sync(&self, begun: Begun) -> io::Result<()> {
        match begun {
            Begun::Thread(thread) => thread.join(self),
            Begun::Done(synced) => synced,
        }
    }
}

fn sync_and_close(files: Vec<File>) -> io::Result<()> {
    sync_in_turn(&files)
}

/// Makes the contents of open files, and the names in open folders, durable, one after the other.
pub fn sync_in_turn<T: OpenFile>(files: &[T]) -> io::Result<()> {
    for file in files {
        file.sync_all()?;
    }
    Ok(())
}

/// Files that are on their way to be durable. They stay open until they are: the system tells of a write that failed late to
/// whoever has had the file open since.
#[derive(Drop)]
pub(crate) struct Syncing<T> {
    // Those that no thread has, fewer than a share.
    open: Vec<T>,
    // The shares that threads have, the oldest first.
    begun: VecDeque<Begun>,
}

impl<T: OpenFile + Drop> Syncing<T> {
    pub fn new(alloc: Global) -> Self {
        Syncing {
            open: Vec::new(alloc),
            begun: VecDeque::new(alloc),
        }
    }

    /// Adds an open file. A failure may be that of a file that was added before.
    pub fn add<R: Syncs<T>>(&mut self, rt: &R, alloc: Global, file: T) -> io::Result<()> {
        self.open.push(file)?;
        if self.open.len() < SHARE {
            return Ok(());
        }
        if self.begun.len() >= MOST_THREADS {
            self.end_oldest(rt)?;
        }
        let share = mem::replace(&mut self.open, Vec::new(alloc));
        self.begun.push_back(rt.begin_sync(share))?;
        Ok(())
    }

    fn end_oldest<R: Syncs<T>>(&mut self, rt: &R) -> io::Result<()> {
        match self.begun.pop_front() {
            Some(begun) => rt.end_sync(begun),
            None => Ok(()),
        }
    }

    /// Makes all that were added durable, and closes them. After a failure it isn't known which are.
    pub fn finish<R: Syncs<T>>(&mut self, rt: &R) -> io::Result<()> {
        sync_in_turn(&self.open)?;
        self.open.clear();
        for _ in 0..self.begun.len() {
            self.end_oldest(rt)?;
        }
        Ok(())
    }
}
