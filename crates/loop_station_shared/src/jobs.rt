//! The orders of a camera, which the thread of its desk does in their order. Which are taken in is decided by
//! loop_station_core.

use crate::answering::{Answering, NotTaken};
use circular_buffer::HeapCircularBuffer;
use loop_station_core::{AddedOrder, Attended, MOST_ORDERS, Orders, SaveKey};
use loop_station_outside::Absent;
use std::alloc::{AllocError, Global};
use std::sync::{Arc, Mutex, Wait};

/// What a camera is asked for.
#[derive(Drop)]
pub enum Request {
    /// Lock the held frames of a time, with a tag.
    Keep(AskedKeep),
    /// Unlock the clip of an id, if its first frame has this number, where one is given.
    Release(u32, Option<u64>),
    /// Unlock a clip that is saved, if it is still the one that has its id.
    ReleaseSaved(SaveKey),
    /// Find the clip of an id, which is to be written to a path; a file that exists is replaced, or isn't.
    Save(u32, String, bool),
    /// Find the clips with a tag, which are to be written to a path as one text, in the same way.
    SaveEvent(u64, String, bool),
    /// End a save of the clip of an id.
    Cancel(u32),
    /// Say what the desk holds.
    List,
}

/// A keep, as its line asks for it.
#[derive(Clone, Copy)]
pub struct AskedKeep {
    /// The number of the event.
    pub event: u64,
    /// The time that is kept, in microseconds since 1970, both ends included.
    pub since: u64,
    pub until: u64,
    /// The tag of its clips.
    pub tag: u64,
    /// When its line was read.
    pub read: u64,
    /// How many frames of the source had come by then, and up to the end of its time.
    pub come: u64,
}

/// An order of a camera, and where its answer belongs.
#[derive(Drop)]
pub struct Job {
    pub request: Request,
    pub answering: Arc<Answering>,
    /// The camera's place among those that the order means.
    pub place: usize,
}

#[derive(Drop)]
struct WaitingJobs {
    jobs: HeapCircularBuffer<Job>,
    decided: Orders,
    // Why nobody does them, where nobody does.
    nobody: Absent,
}

/// The orders that wait for a camera.
#[derive(Drop)]
pub struct Jobs {
    waiting: Mutex<WaitingJobs>,
}

impl Jobs {
    /// No orders. They wait until somebody does them.
    pub fn new(alloc: Global) -> Result<Jobs, AllocError> {
        Ok(Jobs {
            waiting: Mutex::new(WaitingJobs {
                jobs: HeapCircularBuffer::with_capacity(alloc, MOST_ORDERS)?,
                decided: Orders::new(),
                nobody: Absent::Opening,
            }),
        })
    }

    /// Adds an order after the others. It never waits.
    pub fn add<R: Wait>(&self, rt: &R, job: Job) -> Result<(), NotTaken> {
        let mut waiting = self.waiting.lock(rt);
        let (decided, added) = waiting.decided.add();
        waiting.decided = decided;
        match added {
            AddedOrder::Waits => {
                waiting.jobs.push_back(job);
                Ok(())
            }
            AddedOrder::Absent => Err(NotTaken::Absent(waiting.nobody)),
            AddedOrder::TooMany => Err(NotTaken::TooMany),
        }
    }

    /// Takes the first order, if there is one. It has to be said when it is done.
    pub fn take<R: Wait>(&self, rt: &R) -> Option<Job> {
        let mut waiting = self.waiting.lock(rt);
        let (decided, is_there) = waiting.decided.take();
        waiting.decided = decided;
        if is_there {
            waiting.jobs.pop_front()
        } else {
            None
        }
    }

    /// The order that was taken is done. Returns whether further ones wait.
    pub fn done<R: Wait>(&self, rt: &R) -> bool {
        let mut waiting = self.waiting.lock(rt);
        let (decided, has_more) = waiting.decided.done();
        waiting.decided = decided;
        has_more
    }

    /// Whether no order waits, and none is being done.
    pub fn is_idle<R: Wait>(&self, rt: &R) -> bool {
        self.waiting.lock(rt).decided.is_idle()
    }

    /// Whether somebody does orders now, or why nobody does; None where somebody is still to come.
    pub fn attended<R: Wait>(&self, rt: &R) -> Option<Result<(), Absent>> {
        let waiting = self.waiting.lock(rt);
        match waiting.decided.attended {
            Attended::Gone => Some(Err(waiting.nobody)),
            Attended::Now => Some(Ok(())),
            Attended::NotYet => None,
        }
    }

    /// From now on somebody does them.
    pub fn open<R: Wait>(&self, rt: &R) {
        let mut waiting = self.waiting.lock(rt);
        waiting.decided = waiting.decided.open();
    }

    /// Nobody does orders from now on. Those that wait have to be taken, and answered.
    pub fn leave<R: Wait>(&self, rt: &R, why: Absent) {
        let mut waiting = self.waiting.lock(rt);
        waiting.decided = waiting.decided.leave();
        waiting.nobody = why;
    }
}
