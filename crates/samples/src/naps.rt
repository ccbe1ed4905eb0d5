//! Waiting for other threads.
use std::sync::atomic::AtomicU64;
use std::sync::atomic::Ordering::SeqCst;
use std::thread::sleep;
use std::time::{Clock, Duration};

/// How long a gate waits for another thread, in naps of a millisecond. Yields would take no time on an idle machine, and too much on a busy
/// one.
#[derive(Drop)]
pub struct Naps<C: Clock> {
    clock: C,
    most: u64,
    taken: AtomicU64,
}

impl<C: Clock> Naps<C> {
    /// At most this many naps.
    pub fn new(clock: C, most: u64) -> Naps<C> {
        Naps {
            clock,
            most,
            taken: AtomicU64::new(0),
        }
    }

    /// Takes a nap, if one is left. It may be called fewer than 2^64 times.
    pub fn nap(&self) {
        if self.taken.fetch_add(1, SeqCst) < self.most {
            sleep(&self.clock, Duration::from_millis(1));
        }
    }
}
