//! A list into which any thread puts values, and from which one thread takes them.

use circular_buffer::HeapCircularBuffer;
use std::alloc::{AllocError, Global};
use std::sync::{Condvar, Mutex, Wait};
use std::time::{Clock, Duration};

/// Values on their way to the thread that takes them, first come, first served.
#[derive(Drop)]
pub struct Post<T: Drop> {
    waiting: Mutex<HeapCircularBuffer<T>>,
    changed: Condvar,
}

impl<T: Drop> Post<T> {
    /// An empty list in which so many values may wait.
    pub fn new(alloc: Global, most: usize) -> Result<Post<T>, AllocError> {
        Ok(Post {
            waiting: Mutex::new(HeapCircularBuffer::with_capacity(alloc, most)?),
            changed: Condvar::new(),
        })
    }

    /// Adds a value after the others, once there is room.
    pub fn put<R: Wait>(&self, rt: &R, value: T) {
        let mut waiting = self
            .changed
            .wait_while(rt, self.waiting.lock(rt), |waiting| waiting.is_full());
        waiting.push_back(value);
        self.changed.notify_all();
    }

    /// Whether no value waits.
    pub fn is_empty<R: Wait>(&self, rt: &R) -> bool {
        self.waiting.lock(rt).is_empty()
    }

    /// Waits for a value, and takes the first one.
    pub fn take<R: Wait>(&self, rt: &R) -> Option<T> {
        let mut waiting = self
            .changed
            .wait_while(rt, self.waiting.lock(rt), |waiting| waiting.is_empty());
        let first = waiting.pop_front();
        self.changed.notify_all();
        first
    }

    /// The same, but waits for so long at most.
    pub fn take_within<R: Wait + Clock>(&self, rt: &R, most: Duration) -> Option<T> {
        let (mut waiting, _) = self.changed.wait_timeout_while(
            rt,
            self.waiting.lock(rt),
            most,
            |waiting| waiting.is_empty(),
        );
        let first = waiting.pop_front();
        self.changed.notify_all();
        first
    }
}
