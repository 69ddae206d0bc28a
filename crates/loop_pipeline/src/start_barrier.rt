//! Where threads wait until all that begin together have begun.

use std::sync::atomic::{AtomicBool, Ordering};
use std::sync::{Condvar, Mutex, Wait};

/// Where threads wait until all have begun, or one can't: the fronts of cameras that are filmed together, before their
/// first ticks, and the workers of a recording.
#[derive(Drop)]
pub struct StartBarrier {
    threads: usize,
    begun: Mutex<usize>,
    changed: Condvar,
    /// One of them can't begin, so none does.
    stopped: AtomicBool,
}

impl StartBarrier {
    /// For so many threads, none of which has begun.
    pub fn new(threads: usize) -> StartBarrier {
        StartBarrier {
            threads,
            begun: Mutex::new(0),
            changed: Condvar::new(),
            stopped: AtomicBool::new(false),
        }
    }

    /// One has begun, and waits for the others. Returns whether all do their work.
    pub fn wait<R: Wait>(&self, rt: &R) -> bool {
        let threads = self.threads;
        let mut begun = self.begun.lock(rt);
        *begun = begun.saturating_add(1);
        self.changed.notify_all();
        // The guard, whose count nobody reads any more.
        let _begun = self.changed.wait_while(rt, begun, |begun| *begun < threads);
        !self.stopped.load(Ordering::SeqCst)
    }

    /// One can't begin: the others end at once.
    pub fn stop<R: Wait>(&self, rt: &R) {
        self.stopped.store(true, Ordering::SeqCst);
        *self.begun.lock(rt) = usize::MAX;
        self.changed.notify_all();
    }
}
