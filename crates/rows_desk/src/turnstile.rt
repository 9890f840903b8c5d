//! A gate that holds the first two connections until both have come.

use std::sync::atomic::{AtomicBool, AtomicU64, Ordering};
use vc_desk::Gate;

// The turns that a connection waits at most.
const MOST_TURNS: u32 = 100_000_000;

/// Holds each of the first two connections after its second entry until the other has two.
#[derive(Drop)]
pub struct Turnstile {
    first: AtomicU64,
    second: AtomicU64,
    ran_out: AtomicBool,
}

impl Turnstile {
    /// No connection has come.
    pub fn new() -> Turnstile {
        Turnstile {
            first: AtomicU64::new(0),
            second: AtomicU64::new(0),
            ran_out: AtomicBool::new(false),
        }
    }

    /// Whether a connection waited for all turns.
    pub fn ran_out(&self) -> bool {
        self.ran_out.load(Ordering::SeqCst)
    }

    // Waits until this connection has two entries.
    fn wait_for(&self, other: &AtomicU64) {
        for _ in 0..MOST_TURNS {
            if other.load(Ordering::SeqCst) >= 2 {
                return;
            }
        }
        self.ran_out.store(true, Ordering::SeqCst);
    }

    // This connection has so many entries, and is held after its second.
    fn count(&self, own: &AtomicU64, other: &AtomicU64, entries: u64) {
        own.store(entries, Ordering::SeqCst);
        if entries == 2 {
            self.wait_for(other);
        }
    }
}

impl Gate for Turnstile {
    fn pass(&self, connection: u64, entries: u64) {
        match connection {
            0 => self.count(&self.first, &self.second, entries),
            1 => self.count(&self.second, &self.first, entries),
            _ => {}
        }
    }
}
