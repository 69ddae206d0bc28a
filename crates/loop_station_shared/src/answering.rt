//! Orders that are being answered, and what the printer's thread is told.

use crate::found::FoundClip;
use crate::post::Post;
use loop_station_core::Replies;
use loop_station_outside::Absent;
use loop_station_words::Lines;
use std::alloc::{AllocError, Global};
use std::sync::{Arc, Mutex, Wait};

/// A clip that a keep made, of the camera at this place.
#[derive(Clone, Copy)]
pub struct KeptClip {
    pub camera: usize,
    pub found: FoundClip,
}

// What has come of an order so far.
#[derive(Drop)]
struct Answers {
    // The lines of each camera that is meant, in the order of the configuration.
    replies: Replies<Lines>,
    // The clips that were made.
    kept: Vec<KeptClip>,
}

/// An order that is being answered, by as many cameras as it means. The lines of all of them stay together: they are
/// printed once the last one has answered. Those of a camera that has more to tell before that are printed early.
#[derive(Drop)]
pub struct Answering {
    /// The label of its line.
    pub label: Option<String>,
    /// The number of the event, of a keep.
    pub event: u64,
    answers: Mutex<Answers>,
}

impl Answering {
    /// An order of so many cameras.
    pub fn new(
        alloc: Global,
        label: Option<String>,
        event: u64,
        cameras: usize,
    ) -> Result<Answering, AllocError> {
        Ok(Answering {
            label,
            event,
            answers: Mutex::new(Answers {
                replies: Replies::new(alloc, cameras)?,
                kept: Vec::new(alloc),
            }),
        })
    }

    /// The camera at a place among those that are meant has answered. Returns whether the order is answered by that.
    pub fn fill<R: Wait>(
        &self,
        rt: &R,
        place: usize,
        lines: Lines,
        kept: Option<Vec<KeptClip>>,
    ) -> bool {
        let mut answers = self.answers.lock(rt);
        if let Some(kept) = kept {
            // Where memory is refused, these clips aren't saved by themselves until the next start.
            let _saved_later = answers.kept.extend_from_slice(&kept);
        }
        answers.replies.give(place, lines)
    }

    /// The lines of the camera at a place, which are printed before the others have answered: `rest` stands for them
    /// from now on. None where it hasn't answered, or all is printed.
    pub fn take_early<R: Wait>(&self, rt: &R, place: usize, rest: Lines) -> Option<Lines> {
        self.answers.lock(rt).replies.take_early(place, rest)
    }

    /// All lines, and the clips that were made. Nothing is left of them.
    pub fn take<R: Wait>(&self, rt: &R, alloc: Global) -> (Vec<Option<Lines>>, Vec<KeptClip>) {
        let mut answers = self.answers.lock(rt);
        let lines = answers.replies.take(alloc);
        let kept = std::mem::replace(&mut answers.kept, Vec::new(alloc));
        (lines, kept)
    }
}

/// An order that saves a clip, and where it is to be written.
#[derive(Drop)]
pub struct SaveOrder {
    pub answering: Arc<Answering>,
    /// The camera's place among those that the order means.
    pub place: usize,
    pub path: String,
    /// A file that exists is replaced.
    pub replace: bool,
}

impl SaveOrder {
    /// A save at a path, which the camera at this place answers.
    pub fn new(answering: Arc<Answering>, place: usize, path: String, replace: bool) -> SaveOrder {
        SaveOrder {
            answering,
            place,
            path,
            replace,
        }
    }
}

/// What the printer's thread is told.
#[derive(Drop)]
pub enum Message {
    /// Lines, and the camera whose clips they may name, by its place in the configuration.
    Told(Option<usize>, Announcement),
    /// The store of a camera was opened: it has these clips.
    Opened(Vec<KeptClip>),
    /// The program ends.
    End,
}

/// What is told.
#[derive(Drop)]
pub enum Announcement {
    /// The answer of the camera at a place among those that an order means, and the clips that it made.
    Answer(Arc<Answering>, usize, Lines, Option<Vec<KeptClip>>),
    /// Lines that answer no order, and clips that an event has made by its end.
    Told(Lines, Vec<KeptClip>),
}

/// The list into which the threads of a camera put what is printed.
#[derive(Drop)]
pub struct Posts {
    pub printer: Post<Message>,
}

// How many messages may wait.
const MOST_MESSAGES: usize = 4_096;

impl Posts {
    /// An empty list.
    pub fn new(alloc: Global) -> Result<Posts, AllocError> {
        Ok(Posts {
            printer: Post::new(alloc, MOST_MESSAGES)?,
        })
    }

    /// Tells lines, which may name clips of the camera at a place in the configuration.
    pub fn announce<R: Wait>(&self, rt: &R, camera: Option<usize>, announcement: Announcement) {
        self.printer.put(rt, Message::Told(camera, announcement));
    }

    /// Answers an order by lines that name no clip.
    pub fn answer<R: Wait>(&self, rt: &R, answering: Arc<Answering>, place: usize, lines: Lines) {
        self.announce(
            rt,
            None,
            Announcement::Answer(answering, place, lines, None),
        );
    }
}

/// Why a job wasn't taken.
#[derive(Clone, Copy)]
pub enum NotTaken {
    /// The camera's store isn't there.
    Absent(Absent),
    /// As many orders wait for the camera as may.
    TooMany,
}
