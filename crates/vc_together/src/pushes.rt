// The pushes that workers have open at a node.
use std::sync::{Condvar, Mutex, Wait};
use vc_desk::Gate;
use vc_serving::talk::kind_of;

// How many pushes a node has open at once.
const MOST_PUSHES: usize = 8;

// The connections whose push is open.
type Open = [Option<u64>; MOST_PUSHES];

/// Lets no more pushes come than a node takes at once: a worker that brings one more waits, and its client with it.
#[derive(Drop)]
pub(crate) struct Pushes<'a, R> {
    rt: &'a R,
    open: Mutex<Open>,
    closed: Condvar,
}

impl<'a, R: Wait> Pushes<'a, R> {
    /// None is open.
    pub(crate) fn new(rt: &'a R) -> Pushes<'a, R> {
        Pushes {
            rt,
            open: Mutex::new([None; MOST_PUSHES]),
            closed: Condvar::new(),
        }
    }

    // Waits until there is a place for one more.
    fn open(&self, connection: u64) {
        let rt = self.rt;
        let mut held = self.closed.wait_while(
            rt,
            self.open.lock(rt),
            |open| place_of(open, None).is_none(),
        );
        replace(&mut *held, None, Some(connection));
    }

    /// The connection has no push open.
    pub(crate) fn close(&self, connection: u64) {
        let is_new = replace(&mut *self.open.lock(self.rt), Some(connection), None);
        if is_new {
            self.closed.notify_all();
        }
    }
}

impl<'a, R: Wait + Sync> Gate for Pushes<'a, R> {
    fn pass(&self, _connection: u64, _entries: u64) {}

    fn enter(&self, connection: u64, bytes: &[u8]) {
        if kind_of(bytes) == "push" {
            self.open(connection);
        }
    }

    fn leave(&self, connection: u64) {
        self.close(connection);
    }
}

// Where this stands among the open pushes.
fn place_of(open: &Open, wanted: Option<u64>) -> Option<usize> {
    open.iter().position(|held| *held == wanted)
}

// Puts one in the place of the other, and returns whether that was there.
fn replace(open: &mut Open, old: Option<u64>, new: Option<u64>) -> bool {
    for held in open.iter_mut() {
        if *held == old {
            *held = new;
            return true;
        }
    }
    false
}
