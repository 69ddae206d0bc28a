//! What a camera tells, in the order of what was done. While its file of events is written, what was done after that
//! waits. In which order is decided by loop_station_core.

use crate::answering::Announcement;
use crate::post::Post;
use loop_station_core::{MOST_TELLINGS, OpenEvent, Tellings, ToldWhen};
use std::alloc::{AllocError, Global};
use std::sync::{Condvar, Mutex, Wait};
use std::time::{Clock, Duration};

/// What the thread of a camera's file of events is told.
#[derive(Drop)]
pub enum Note {
    /// These events are open, and no others; and what is told once that is on the disk.
    Open(Vec<OpenEvent>, Announcement),
    /// Other events are open than before, for which there was no memory; and what is told once they are on the disk.
    Look(Announcement),
    /// What is told after that.
    Tell(Announcement),
    /// The program ends.
    End,
}

/// What a camera tells, and what waits for its file of events.
#[derive(Drop)]
pub struct Notes {
    post: Post<Note>,
    decided: Mutex<Tellings>,
    // One that waits was told.
    changed: Condvar,
}

impl Notes {
    /// Nothing waits.
    pub fn new(alloc: Global) -> Result<Notes, AllocError> {
        Ok(Notes {
            // Each that may wait has its room, and so has the end.
            post: Post::new(alloc, MOST_TELLINGS + 1)?,
            decided: Mutex::new(Tellings::new()),
            changed: Condvar::new(),
        })
    }

    // When something is told that comes. Where as much waits as may, it waits for room.
    fn come<R: Wait>(&self, rt: &R, noted: bool) -> ToldWhen {
        let mut decided = self.changed.wait_while(
            rt,
            self.decided.lock(rt),
            |decided| decided.come(noted).1 == ToldWhen::Full,
        );
        let (next, when) = decided.come(noted);
        *decided = next;
        when
    }

    /// These events are open, and no others: once the file has them this is told.
    pub fn note<R: Wait>(&self, rt: &R, events: Vec<OpenEvent>, told: Announcement) {
        let _later = self.come(rt, true);
        self.post.put(rt, Note::Open(events, told));
    }

    /// Other events are open than before: once the file has them this is told.
    pub fn look<R: Wait>(&self, rt: &R, told: Announcement) {
        let _later = self.come(rt, true);
        self.post.put(rt, Note::Look(told));
    }

    /// Something is told, after what waits. Returns it where nothing does: then it is to be told at once.
    pub fn tell<R: Wait>(&self, rt: &R, told: Announcement) -> Option<Announcement> {
        match self.come(rt, false) {
            ToldWhen::Now => Some(told),
            ToldWhen::Later | ToldWhen::Full => {
                self.post.put(rt, Note::Tell(told));
                None
            }
        }
    }

    /// The program ends.
    pub fn end<R: Wait>(&self, rt: &R) {
        self.post.put(rt, Note::End);
    }

    /// Waits for what comes next.
    pub fn take<R: Wait>(&self, rt: &R) -> Option<Note> {
        self.post.take(rt)
    }

    /// The same, but waits for so long at most.
    pub fn take_within<R: Wait + Clock>(&self, rt: &R, most: Duration) -> Option<Note> {
        self.post.take_within(rt, most)
    }

    /// The first that waited was told.
    pub fn told<R: Wait>(&self, rt: &R) {
        let mut decided = self.decided.lock(rt);
        *decided = decided.told();
        self.changed.notify_all();
    }

    /// Whether nothing waits.
    pub fn is_idle<R: Wait>(&self, rt: &R) -> bool {
        self.decided.lock(rt).is_idle()
    }

    /// Whether what orders tell has room.
    pub fn has_room<R: Wait>(&self, rt: &R) -> bool {
        self.decided.lock(rt).has_room()
    }
}
