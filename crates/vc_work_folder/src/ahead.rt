// Files that are named before somebody asks for their names.
//
// Who looks at a whole work tree asks for the name of file after file of a listing. Where many were asked for in a row, threads name
// those behind them. Who picks out some files has none read for nothing.
use crate::beside::{Begun, Beside, Early, MOST_THREADS};
use crate::listed::Listed;
use crate::root::Root;
use std::alloc::{AllocError, Global};
use std::collections::VecDeque;
use std::rt;
use vc_object::ObjectId;

// How many files in a row are asked for before those behind them are named.
const ENOUGH: usize = 64;

// How many files a thread is given.
const SHARE: usize = 128;

// Files that a thread names, which stand in a row in the listing.
#[derive(Drop)]
struct Share {
    first: usize,
    begun: Begun<Result<Early, AllocError>>,
}

/// What was named, and is being named, before it is asked for.
#[derive(Drop)]
pub(crate) struct Ahead {
    // Where in the listing the file stands with which the row goes on, and how long it is so far.
    next: usize,
    in_row: usize,
    // The first file that no thread was given.
    left: usize,
    // The threads, in the order of the listing.
    begun: VecDeque<Share>,
    // The names of the share that is being asked for, and where the first of these files stands.
    names: Early,
    first: usize,
}

impl Ahead {
    pub fn new(alloc: Global) -> Ahead {
        Ahead {
            next: 0,
            in_row: 0,
            left: 0,
            begun: VecDeque::new(alloc),
            names: Vec::new(alloc),
            first: 0,
        }
    }

    /// The name of the file at this place of the listing, if it is there already.
    pub fn name<R: rt::Files + Beside<R> + AllocGlobal + Clone + Drop>(
        &mut self,
        root: &Root<R>,
        listed: &Listed,
        at: usize,
    ) -> Result<Option<ObjectId>, AllocError> {
        self.in_row = if at == self.next {
            self.in_row.saturating_add(1)
        } else {
            0
        };
        self.next = at.saturating_add(1);
        self.wait_for(root, at);
        if self.in_row >= ENOUGH {
            self.go_on(root, listed)?;
        }
        let Some(behind) = at.checked_sub(self.first) else {
            return Ok(None);
        };
        match self.names.get(behind) {
            Some(name) => Ok(*name),
            None => Ok(None),
        }
    }

    // Waits for the threads whose shares begin at the place or before it.
    fn wait_for<R: Beside<R>>(&mut self, root: &Root<R>, at: usize) {
        for _ in 0..self.begun.len() {
            match self.begun.front() {
                Some(share) if share.first <= at => {}
                _ => return,
            }
            let Some(share) = self.begun.pop_front() else {
                return;
            };
            self.first = share.first;
            // A thread that lacked memory named nothing, and each of its files is looked at in its turn.
            match root.rt.end_names(share.begun) {
                Ok(names) => self.names = names,
                Err(_) => self.names.clear(),
            }
        }
    }

    // Gives threads the files behind those that are named already, or are being named.
    fn go_on<R: rt::Files + Beside<R> + AllocGlobal + Clone + Drop>(
        &mut self,
        root: &Root<R>,
        listed: &Listed,
    ) -> Result<(), AllocError> {
        for _ in self.begun.len()..MOST_THREADS {
            let first = self.left.max(self.next);
            let files = listed.row(root.rt.alloc(), first, SHARE)?;
            if files.is_empty() {
                break;
            }
            self.left = first.saturating_add(files.len());
            let begun = root.rt.begin_names(root.again()?, files);
            self.begun.push_back(Share { first, begun })?;
        }
        Ok(())
    }

    /// Forgets the names. The files are about to change.
    pub fn forget<R: Beside<R>>(&mut self, root: &Root<R>) {
        for _ in 0..self.begun.len() {
            if let Some(share) = self.begun.pop_front() {
                // (they are dropped, whatever came of them)
                let _ = root.rt.end_names(share.begun);
            }
        }
        self.names.clear();
        self.in_row = 0;
        self.left = 0;
    }
}
