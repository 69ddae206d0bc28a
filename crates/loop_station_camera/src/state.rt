//! What the threads of one camera share.

ghost use Rattle.std.specs.Prelude.{false};

use crate::answered::Answered;
use crate::growing::Ongoing;
use crate::leave::DeskLeave;
use crate::saves::Saves;
use crate::whole::WholeClips;
use loop_desk::Flushed;
use loop_pipeline::{Link, Noting, Unlocks, Visits};
use loop_station_core::{FilmingEvent, SaveKey, Tally};
use loop_station_outside::{Absent, Maker, Timeline};
use loop_station_shared::{
    Announcement, Answering, Feed, FoundClip, Inbox, Job, Jobs, KeptClip, Life, Member, NotTaken,
    Notes, Posts, Request, Room, Stored,
};
use loop_station_words::{CameraConfig, Lines, duration_of, numbered};
use loop_store::{Clip, StoreFault};
use std::alloc::{AllocError, Global};
use std::sync::atomic::{AtomicBool, Ordering};
use std::sync::{Arc, Wait};

/// What the cameras of a station have in common.
#[derive(Drop)]
pub struct Common {
    /// Answers are wanted as JSON too.
    pub json: bool,
    /// The time that frames get.
    pub timeline: Timeline,
    /// Where answers go.
    pub posts: Arc<Posts>,
    /// The saves of all cameras.
    pub saves: Arc<Saves>,
}

impl Common {
    /// The same, for one more camera.
    pub fn share(&self) -> Result<Common, AllocError> {
        Ok(Common {
            json: self.json,
            timeline: self.timeline,
            posts: Arc::try_clone(&self.posts)?,
            saves: Arc::try_clone(&self.saves)?,
        })
    }
}

/// What the threads of one camera share.
#[derive(Drop)]
pub struct CameraState {
    pub alloc: Global,
    /// Its place in the configuration, from 0.
    pub place: usize,
    /// Answers are wanted as JSON too.
    json: bool,
    /// What the configuration says of it.
    pub config: CameraConfig,
    /// The time that its frames get.
    pub timeline: Timeline,
    /// The queue of its source's frames.
    pub feed: Arc<Feed>,
    /// What is known and counted of it.
    pub life: Life,
    /// What the threads that film it share.
    pub threads: Link,
    /// The orders that wait for it.
    pub jobs: Jobs,
    /// What the thread of its desk goes on with.
    pub(crate) desk: Ongoing,
    /// What it tells, and what of that waits for its file of events.
    pub notes: Notes,
    /// Where its answers go.
    pub posts: Arc<Posts>,
    /// The saves of all cameras.
    pub saves: Arc<Saves>,
    /// The inbox for reads of frames for a save: by the number of a store, and that of a frame.
    pub(crate) reader: Inbox<(u32, u64), Result<Answered, StoreFault>, Absent>,
    /// What its stores held when they were last changed.
    pub stored: Stored,
    /// Which of its clips may go where every block is locked.
    pub(crate) whole: WholeClips,
    // The thread of its source has ended.
    source_ended: AtomicBool,
}

impl CameraState {
    /// A camera that isn't filmed yet.
    pub fn new(
        alloc: Global,
        place: usize,
        config: CameraConfig,
        common: Common,
    ) -> Result<CameraState, AllocError> {
        let Common {
            json,
            timeline,
            posts,
            saves,
        } = common;
        Ok(CameraState {
            alloc,
            place,
            json,
            config,
            timeline,
            feed: Arc::new(alloc, Feed::new(alloc)?)?,
            life: Life::new(),
            threads: Link::new(alloc)?,
            jobs: Jobs::new(alloc)?,
            desk: Ongoing::new(alloc)?,
            notes: Notes::new(alloc)?,
            posts,
            saves,
            reader: Inbox::new(),
            stored: Stored::new(alloc),
            whole: WholeClips::new(alloc),
            source_ended: AtomicBool::new(false),
        })
    }

    /// No lines yet, in the forms that are wanted.
    pub fn lines(&self, alloc: Global) -> Lines {
        Lines::new(alloc, self.json)
    }

    /// What is counted of its frames.
    pub fn tally<R: Wait>(&self, rt: &R) -> Tally {
        let (come, _) = self.feed.counts(rt);
        self.life.tally(rt, come)
    }

    /// How many microseconds a frame lasts, as its store has it; 0 where there is no store.
    pub fn period(&self) -> u64 {
        self.stored.period()
    }

    /// The number of the newest block.
    pub fn newest_block<R: Wait>(&self, rt: &R) -> u64 {
        self.stored.newest_block(rt)
    }

    /// What its stores hold now, and how many keeps of its own seconds have room.
    pub fn room<R: Wait>(&self, rt: &R) -> Room {
        self.stored
            .room(rt, self.config.seconds.saturating_add(self.config.after))
    }

    /// The path of its store of a number, or of the one that it has.
    pub fn path_of(&self, alloc: Global, number: Option<u32>) -> Result<String, AllocError> {
        let path = self.config.store.as_str();
        match number {
            Some(number) => numbered(alloc, path, number.min(999)),
            None => String::from_str(alloc, path),
        }
    }

    /// How many stores it is to have.
    pub fn stores_wanted<R: Wait>(&self, rt: &R) -> u32 {
        self.stored.wanted(rt)
    }

    /// Whether it is to have several.
    pub fn has_several<R: Wait>(&self, rt: &R) -> bool {
        self.stored.wanted(rt) > 1
    }

    /// Clips of the store at a place were locked.
    pub fn add_clips<R: Wait>(&self, rt: &R, place: usize, clips: &[Clip]) {
        self.stored.add(rt, place, clips);
    }

    /// A clip was released.
    pub fn remove_clip<R: Wait>(&self, rt: &R, id: u32) {
        self.stored.remove(rt, id);
        self.whole.remove(rt, id);
    }

    /// Whether a save reads the clip of an id and with a tag, where that is known: by itself, or as one of an event.
    pub(crate) fn is_read<R: Wait>(&self, rt: &R, id: u32, tag: Option<u64>) -> bool {
        self.saves.reads(rt, self.place, id, tag)
    }

    /// The clips of a keep, for the saves that begin by themselves. None where the camera has no folder for them, or
    /// memory is refused.
    pub fn kept_clips(&self, alloc: Global, found: &[FoundClip]) -> Option<Vec<KeptClip>> {
        if self.config.save_to.is_none() {
            return None;
        }
        let mut kept = Vec::new(alloc);
        for clip in found {
            let clip = KeptClip {
                camera: self.place,
                found: *clip,
            };
            if kept.push(clip).is_err() {
                return None;
            }
        }
        Some(kept)
    }

    /// A clip is released, since it is saved. An answer that can't be given is none that anybody waits for.
    pub(crate) fn release_saved<R: Wait>(&self, rt: &R, saved: SaveKey) {
        let Ok(answering) = Answering::new(self.alloc, None, 0, 1) else {
            return;
        };
        let Ok(answering) = Arc::new(self.alloc, answering) else {
            return;
        };
        let job = Job {
            request: Request::ReleaseSaved(saved),
            answering,
            place: 0,
        };
        match self.jobs.add(rt, job) {
            Err(NotTaken::TooMany) => self.desk.put_saved(rt, saved),
            // Where the store isn't there, the next opening of it finds the file of the clip, and releases it.
            Ok(()) | Err(NotTaken::Absent(_)) => {}
        }
        self.threads.wake(rt);
    }

    /// Tells lines that answer no order, and which clips may be saved by themselves.
    pub fn tell<R: Wait>(&self, rt: &R, lines: Lines, kept: Option<Vec<KeptClip>>) {
        let kept = match kept {
            Some(kept) => kept,
            None => Vec::new(self.alloc),
        };
        self.announce(rt, Announcement::Told(lines, kept));
    }

    /// Answers an order, with the clips that it made, if any.
    pub fn answer<R: Wait>(
        &self,
        rt: &R,
        answering: Arc<Answering>,
        place: usize,
        lines: Lines,
        kept: Option<Vec<KeptClip>>,
    ) {
        self.announce(rt, Announcement::Answer(answering, place, lines, kept));
    }

    /// Tells lines that may name its clips, after what it has to tell of what was done before.
    pub(crate) fn announce<R: Wait>(&self, rt: &R, told: Announcement) {
        if let Some(told) = self.notes.tell(rt, told) {
            self.posts.announce(rt, Some(self.place), told);
        }
    }

    /// The clips with a tag, of the store at a place.
    pub fn clips_tagged<R: Wait>(
        &self,
        rt: &R,
        alloc: Global,
        place: usize,
        tag: u64,
    ) -> Vec<Clip> {
        self.stored.tagged_at(rt, alloc, place, tag)
    }

    /// Ends everything that runs for the camera.
    pub fn stop<R: Wait>(&self, rt: &R) {
        self.life.on(rt, FilmingEvent::Stop);
        self.threads.wake(rt);
    }

    /// The thread of its source ends.
    pub fn end_source(&self) {
        self.source_ended.store(true, Ordering::SeqCst);
    }

    /// Whether that thread has ended: until then it may read from the source.
    pub fn has_source_ended(&self) -> bool {
        self.source_ended.load(Ordering::SeqCst)
    }

    /// The store was moved away: the filming ends, and a store is made anew.
    pub fn move_away<R: Wait>(&self, rt: &R) {
        self.life.on(rt, FilmingEvent::Move);
        self.threads.wake(rt);
    }

    /// Whether it is filmed now.
    pub fn is_filmed<R: Wait>(&self, rt: &R) -> bool {
        matches!(self.jobs.attended(rt), Some(Ok(())))
    }

    /// Whether it is to end.
    pub fn is_stopped<R: Wait>(&self, rt: &R) -> bool {
        self.life.camera(rt).stopping
    }

    /// Asks for the frame of a number of the store of a number. The answer has to be taken from the reader.
    pub fn ask_frame<R: Wait>(&self, rt: &R, store: u32, number: u64) {
        self.reader.ask(rt, (store, number));
        self.threads.wake(rt);
    }

    /// Its first store is there, of so many that there are to be, and the camera is filmed from now on. Orders are
    /// taken. Events that went on while the stores were opened again have clips here. `opening`: files of others are
    /// there.
    pub fn begin<R: Wait>(&self, rt: &R, member: Member, wanted: u32, opening: bool) {
        let (_, taken) = self.feed.counts(rt);
        let ready = u64::from(self.feed.is_ready(rt));
        self.stored.count_from(rt, taken.saturating_sub(ready));
        self.stored.begin(rt, member, wanted, opening);
        self.life.on(rt, FilmingEvent::Begin);
        self.jobs.open(rt);
        self.reader.open(rt);
        self.desk.adopt(rt, self.alloc, 0, &self.stored);
    }

    /// Its store was moved away: one is made anew for the frames that come, and events go on there with nothing locked.
    pub fn begin_anew<R: Wait>(&self, rt: &R) {
        self.life.lose_store(rt);
        self.desk.begin_anew(rt);
    }

    /// Whether the events that were open when the program ended last go on.
    pub fn has_gone_on<R: Wait>(&self, rt: &R) -> bool {
        self.desk.has_gone_on(rt)
    }

    /// The same; from now on it is so.
    pub fn go_on<R: Wait>(&self, rt: &R) -> bool {
        self.desk.go_on(rt)
    }

    /// The store isn't there. Orders that wait, and the keep that waits for frames, get that as their answer.
    pub fn leave<R: Wait>(&self, rt: &R, why: Absent) {
        self.jobs.leave(rt, why);
        self.reader.leave(rt, why);
        if let Some(waiting) = self.desk.take_waiting(rt) {
            self.answer_absent(rt, waiting.answering, waiting.place, why);
        }
        for _ in 0..u64::MAX {
            let Some(job) = self.jobs.take(rt) else {
                break;
            };
            self.answer_absent(rt, job.answering, job.place, why);
        }
        self.jobs.done(rt);
    }

    /// Answers an order by that the store isn't there.
    pub fn answer_absent<R: Wait>(
        &self,
        rt: &R,
        answering: Arc<Answering>,
        place: usize,
        why: Absent,
    ) {
        let mut lines = self.lines(self.alloc);
        // Where memory for the line is refused, it isn't printed.
        let _ = lines.absent(self.config.name.as_str(), &why);
        self.posts.answer(rt, answering, place, lines);
    }

    /// An order is done, unless it waits for frames. Where further ones wait, the thread of the desk looks again at
    /// once.
    pub(crate) fn wake_for_more<R: Wait>(&self, rt: &R) {
        if !self.desk.has_waiting(rt) && self.jobs.done(rt) && self.notes.has_room(rt) {
            self.threads.wake(rt);
        }
    }

    /// Where an event goes on, a saved clip waits to be released, or orders wait, the thread of the desk looks at it.
    pub fn wake_to_go_on<R: Wait>(&self, rt: &R) {
        if self.desk.has_more(rt) || !self.jobs.is_idle(rt) {
            self.threads.wake(rt);
        }
    }

    /// Whether all orders that came are done.
    pub fn is_idle<R: Wait>(&self, rt: &R) -> bool {
        self.jobs.is_idle(rt) && !self.desk.has_waiting(rt) && self.notes.is_idle(rt)
    }

    /// Whether frames wait because every block is locked.
    pub fn is_locked<R: Wait>(&self, rt: &R) -> bool {
        self.life.camera(rt).locked
    }

    /// Why frames that came before a keep aren't stored, where the camera has several stores: none of them takes one.
    pub(crate) fn locked_fault<R: Wait>(&self, rt: &R) -> Option<StoreFault> {
        if self.has_several(rt) && self.is_locked(rt) {
            Some(StoreFault::AllLocked)
        } else {
            None
        }
    }

    /// How many frames have come from its source.
    pub(crate) fn come<R: Wait>(&self, rt: &R) -> u64 {
        let (come, _) = self.feed.counts(rt);
        come
    }

    /// A frame was given up on its way to the desk.
    pub(crate) fn give_up<R: Wait>(&self, rt: &R) {
        self.life.give_up(rt, self.come(rt));
    }

    /// A tick came to no frame: one was given up on its way to the desk, or the source had lost it.
    pub(crate) fn lose<R: Wait>(&self, rt: &R) {
        if !self.feed.was_lost(rt) {
            self.give_up(rt);
        }
    }

    /// Desk and queue are given up: what was in them and isn't stored is lost, and counted. The camera's thread calls
    /// this when no thread films the camera.
    pub fn lose_rest<R: Wait>(&self, rt: &R) {
        let (come, taken) = self.feed.counts(rt);
        let ready = u64::from(self.feed.is_ready(rt));
        self.life.lose(rt, come, taken.saturating_sub(ready));
    }

    /// A flush of the desk at a place stored frames.
    pub(crate) fn count_stored<R: Wait>(&self, rt: &R, place: usize, done: Flushed) {
        self.life.store_frames(rt, done.stored);
        self.stored.grow(rt, place, done.stored);
    }

    /// The duration in microseconds of the frames that have come from the source and are neither stored nor given up.
    pub fn behind_micros<R: Wait>(&self, rt: &R) -> u64 {
        match self.life.store(rt) {
            Some(geometry) => duration_of(self.tally(rt).behind(), &geometry),
            None => 0,
        }
    }
}

/// The calls of a station's desks aren't noted.
impl Noting for CameraState {
    ghost NOTED = { false };

    const NOTED: bool = false;
}

/// Orders lock, unlock and read; they store nothing.
impl Visits for CameraState {
    ghost use Rattle.loop_station_camera.specs.Keeping.{IsOrdered};

    ghost asks = { IsOrdered };

    const VISITED: bool = true;
}

/// Orders unlock by leave that loop_station_core has given.
impl Unlocks for CameraState {
    type Leave = DeskLeave;
}

impl Maker for CameraState {
    fn timeline(&self) -> Timeline {
        self.timeline
    }

    fn makes<R: Wait>(&self, rt: &R, percent: u32) -> bool {
        self.life.set_making(rt, Some(percent));
        !self.is_stopped(rt) && !self.stored.is_closing(rt)
    }

    fn is_filmed<R: Wait>(&self, rt: &R) -> bool {
        CameraState::is_filmed(self, rt)
    }
}
