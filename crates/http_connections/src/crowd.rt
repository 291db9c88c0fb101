//! How many connections stand.
use std::sync::atomic::{AtomicU64, Ordering};

/// How many connections stand, streams not counted, and how many threads give them their turns.
#[derive(Drop)]
pub struct Crowd {
    workers: u64,
    live: AtomicU64,
}

impl Crowd {
    /// No connection stands; so many threads are to give connections their turns. Takes no memory.
    pub fn new(workers: u64) -> Crowd {
        Crowd {
            workers,
            live: AtomicU64::new(0),
        }
    }

    /// A connection has come in.
    pub fn came(&self) {
        self.live.fetch_add(1, Ordering::SeqCst);
    }

    /// A connection has ended, or is looked after elsewhere; says whether none stands any more.
    pub fn went(&self) -> bool {
        self.live.fetch_sub(1, Ordering::SeqCst) == 1
    }

    /// Whether there are no more connections than threads: then a thread may stay with one for some
    /// milliseconds, since no other waits for it so long.
    pub fn are_few(&self) -> bool {
        self.live.load(Ordering::SeqCst) <= self.workers
    }

    /// Whether no connection stands.
    pub fn is_empty(&self) -> bool {
        self.live.load(Ordering::SeqCst) == 0
    }
}
