//! The queue in which a source's frames wait for a camera's device.

ghost use Rattle.std.specs.Prelude.{◌≡◌, IfSome, None, Some, length};
ghost use Rattle.loop_capture.specs.declared.source.Next.TheVariants.{More};

use crate::losses::{Losses, Lost, Said};
use circular_buffer::HeapCircularBuffer;
use loop_capture::{FrameSource, Next};
use loop_station_core::{
    Arrival, EVEN, Heard, MEASURED, SourceClock, Stamped, Timing, Verdict, ahead_of, by_source,
    came_late, judged, mark, median,
};
use loop_station_outside::Timeline;
use std::alloc::{AllocError, Global};
use std::mem;
use std::snapshot::Snapshot;
use std::sync::{Arc, Condvar, Mutex, Wait};
use std::time::{Clock, Duration};

// How many frames may wait before it is known how large they are.
const FEWEST: usize = 2;

/// A frame of a source.
#[derive(Drop)]
pub struct Fed {
    /// Its time, in microseconds since 1970: when it came, or what its source says.
    time: u64,
    /// Its mark, for its flags.
    mark: u32,
    /// How many frames the source lost before it.
    lost: u64,
    /// Its bytes.
    bytes: Vec<u8>,
}

/// What is to be told of the times that a source says.
#[derive(Clone, Copy)]
pub struct ToTell {
    /// That they go back.
    pub back: bool,
    /// That there are none.
    pub untimed: bool,
    /// A gap of so many microseconds, before the frame of a time.
    pub gap: Option<(u64, u64)>,
    /// That its numbers began anew.
    pub anew: bool,
    /// One that is none: how many microseconds it is ahead of what the source's clock shows, and the time in its place.
    pub wrong: Option<(i64, u64)>,
    /// That the clock has stepped by so many microseconds, with the frame of a time.
    pub step: Option<(i64, u64)>,
}

// Nothing is to be told.
const NOTHING: ToTell = ToTell {
    back: false,
    untimed: false,
    gap: None,
    anew: false,
    wrong: None,
    step: None,
};

// How far a clock was ahead at the last frames, and what is measured by that.
#[derive(Drop)]
struct Measured {
    values: [u64; MEASURED],
    count: usize,
    measure: Option<u64>,
    newest: u64,
}

#[derive(Drop)]
struct Times {
    timing: Timing,
    tells: ToTell,
    losses: Losses,
    // The source has had to wait for a place since the frame before.
    delayed: bool,
    // The source's clock: what is known of it, what it says, and what frames got.
    clock: SourceClock,
    said: Measured,
    kept: Measured,
    // What it was seen to show last.
    shown: u64,
    // When the program was seen to run last, and until when it was seen to have stood still.
    seen: u64,
    still: Option<u64>,
}

#[derive(Drop)]
struct WaitingFrames {
    frames: HeapCircularBuffer<Fed>,
    spare: HeapCircularBuffer<Vec<u8>>,
    // The time of the frame that waits for a place in the queue, if one does.
    coming: Option<u64>,
    // How many frames were taken for the device.
    taken: u64,
    // How often the frames that waited were dropped, because no store takes them.
    epoch: u64,
    // Since when the source has had to wait for a place, unless that was looked at after it was over.
    waited: Option<u64>,
}

#[derive(Drop)]
struct Ready {
    // The frame of the next tick but those for lost frames.
    frame: Option<Fed>,
    // How many frames were lost before it that no tick has come for yet.
    owed: u64,
    // How many ticks came for lost frames, and how many of these are known as such.
    bad: u64,
    known: u64,
    // The memory of the frame before the one that is lent, to be used again.
    row: Option<Vec<u8>>,
}

/// Frames that wait, and memory for further ones. Memory is allocated when it is first needed, and used again: for as
/// many frames as may wait, and two more on their way.
#[derive(Drop)]
pub struct Feed {
    waiting: Mutex<WaitingFrames>,
    changed: Condvar,
    /// What is known of its source's times. No other lock is taken under this one.
    times: Mutex<Times>,
    /// Only the device's thread takes this lock.
    ready: Mutex<Ready>,
}

impl Feed {
    /// An empty queue.
    pub fn new(alloc: Global) -> Result<Feed, AllocError> {
        Ok(Feed {
            waiting: Mutex::new(WaitingFrames {
                frames: HeapCircularBuffer::with_capacity(alloc, FEWEST)?,
                spare: HeapCircularBuffer::with_capacity(alloc, FEWEST)?,
                coming: None,
                taken: 0,
                epoch: 0,
                waited: None,
            }),
            changed: Condvar::new(),
            times: Mutex::new(Times {
                timing: Timing::new(),
                tells: NOTHING,
                losses: Losses::new(alloc),
                delayed: false,
                clock: SourceClock::new(),
                said: Measured::new(),
                kept: Measured::new(),
                shown: 0,
                seen: u64::MAX,
                still: None,
            }),
            ready: Mutex::new(Ready {
                frame: None,
                owed: 0,
                bad: 0,
                known: 0,
                row: None,
            }),
        })
    }

    /// From now on so many frames may wait, but at least two, and at least as many as wait now. Where memory for their
    /// places is refused, as many may wait as before.
    pub fn reserve<R: Wait>(&self, rt: &R, frames: usize) {
        let mut waiting = self.waiting.lock(rt);
        let places = frames
            .max(FEWEST)
            .max(waiting.frames.len())
            .max(waiting.spare.len());
        if places == waiting.frames.capacity() {
            return;
        }
        if waiting.frames.resize(places).is_ok() {
            // Where memory for this is refused, less memory is kept for later frames, and they get new memory.
            let _fewer_are_kept = waiting.spare.resize(places);
        }
        self.changed.notify_all();
    }

    /// The memory of a frame that was taken, for a later one.
    pub fn memory<R: Wait>(&self, rt: &R) -> Option<Vec<u8>> {
        self.waiting.lock(rt).spare.pop_back()
    }

    /// Another stream of the source begins.
    pub fn begin_stream<R: Wait>(&self, rt: &R) {
        let mut times = self.times.lock(rt);
        times.timing = times.timing.begin();
        times.losses.begin();
    }

    /// A frame was dropped: what lies before the next one isn't lost.
    pub fn pass<R: Wait>(&self, rt: &R) {
        self.times.lock(rt).losses.begin();
    }

    /// The program is seen to run at this time, and to have stood still just before, or not.
    pub fn look<R: Wait>(&self, rt: &R, now: u64, stood: bool) {
        let mut times = self.times.lock(rt);
        times.seen = now;
        if stood {
            times.still = Some(now);
        }
    }

    /// How many gaps its source's times had.
    pub fn gaps<R: Wait>(&self, rt: &R) -> u64 {
        self.times.lock(rt).timing.gaps
    }

    /// How many frames its source lost.
    pub fn losses<R: Wait>(&self, rt: &R) -> Lost {
        self.times.lock(rt).losses.counted()
    }

    /// What is to be told of its source's times, which is told then.
    pub fn tells<R: Wait>(&self, rt: &R) -> ToTell {
        mem::replace(&mut self.times.lock(rt).tells, NOTHING)
    }

    /// How many microseconds the source's clock is ahead of the station's, once it has said a time.
    pub fn clock<R: Wait>(&self, rt: &R) -> Option<i64> {
        let measure = self.times.lock(rt).said.measure?;
        Some(difference(measure, EVEN))
    }

    /// What the clock of frames' times shows at a time, once a frame has come. It never goes back.
    pub fn shown<R: Wait>(&self, rt: &R, now: u64) -> Option<u64> {
        let mut guard = self.times.lock(rt);
        let times = &mut *guard;
        let shown = by_source(now, times.kept.measure?);
        times.shown = times.shown.max(shown).max(times.timing.last.unwrap_or(0));
        Some(times.shown)
    }

    // The time of a frame that came at a time, its mark, and how many frames were lost before it. `waits`: there is no
    // place for it yet.
    fn stamp<R: Wait>(&self, rt: &R, now: u64, said: Said, waits: bool) -> (u64, u32, u64) {
        let mut guard = self.times.lock(rt);
        let times = &mut *guard;
        let was_still = came_late(now, times.seen, times.still);
        let (time, late) = times.stamp(now, said, was_still);
        let delayed = mem::replace(&mut times.delayed, waits);
        let on_time = said.by_source && said.time.is_some() || !was_still && !delayed;
        let (lost, anew) = times.losses.on(&said, time, on_time);
        times.tells.anew = times.tells.anew || anew;
        (time, mark(said.bits, late), lost)
    }

    /// Adds a frame that has come now after the others, once there is room. It is dropped where the frames that waited
    /// were dropped since that epoch began.
    pub fn give<R: Wait + Clock>(
        &self,
        rt: &R,
        timeline: &Timeline,
        bytes: Vec<u8>,
        said: Said,
        epoch: u64,
    ) {
        let mut waiting = self.waiting.lock(rt);
        if waiting.epoch != epoch {
            self.pass(rt);
            return;
        }
        let came = timeline.now(rt);
        let waits = waiting.frames.is_full();
        if waits && waiting.waited.is_none() {
            waiting.waited = Some(came);
        }
        let (time, mark, lost) = self.stamp(rt, came, said, waits);
        waiting.coming = Some(time);
        let mut guard = self
            .changed
            .wait_while(rt, waiting, |waiting| waiting.frames.is_full());
        let waiting = &mut *guard;
        waiting.coming = None;
        if waiting.epoch == epoch {
            waiting.frames.push_back(Fed {
                time,
                mark,
                lost,
                bytes,
            });
        }
        self.changed.notify_all();
    }

    /// How often the frames that waited were dropped.
    pub fn epoch<R: Wait>(&self, rt: &R) -> u64 {
        self.waiting.lock(rt).epoch
    }

    /// Drops the frames that wait, because no store takes them.
    pub fn clear<R: Wait>(&self, rt: &R) {
        let mut guard = self.waiting.lock(rt);
        let waiting = &mut *guard;
        waiting.epoch = waiting.epoch.wrapping_add(1);
        for _ in 0..waiting.frames.len() {
            if let Some(frame) = waiting.frames.pop_front() {
                waiting.taken = waiting.taken.wrapping_add(1);
                waiting.spare.push_back(frame.bytes);
            }
        }
        self.changed.notify_all();
    }

    /// Since when the source has had to wait because memory was full, where it did since the last look or does now. A
    /// camera that doesn't wait has dropped frames meanwhile.
    pub fn waited<R: Wait>(&self, rt: &R) -> Option<u64> {
        let mut waiting = self.waiting.lock(rt);
        let since = waiting.waited;
        if waiting.coming.is_none() || !waiting.frames.is_full() {
            waiting.waited = None;
        }
        since
    }

    /// Takes the first frame that waits as the frame of the next tick, unless there is one already: a tick for each frame
    /// that was lost before it comes first. Returns that frame's time; None where no frame comes for so long.
    pub fn make_ready<R: Wait + Clock>(&self, rt: &R, most: Duration) -> Option<u64> {
        let mut ready = self.ready.lock(rt);
        if let Some(frame) = &ready.frame {
            return Some(frame.time);
        }
        let mut waiting = self.waiting.lock(rt);
        if let Some(row) = ready.row.take() {
            waiting.spare.push_back(row);
        }
        let (mut waiting, _) = self
            .changed
            .wait_timeout_while(rt, waiting, most, |waiting| waiting.frames.is_empty());
        let frame = waiting.frames.pop_front()?;
        waiting.taken = waiting.taken.wrapping_add(1);
        self.changed.notify_all();
        let time = frame.time;
        ready.owed = frame.lost;
        ready.frame = Some(frame);
        Some(time)
    }

    /// Whether a tick that had no frame was that of one which the source lost. Each such tick is told so once.
    pub fn was_lost<R: Wait>(&self, rt: &R) -> bool {
        let mut ready = self.ready.lock(rt);
        if ready.known < ready.bad {
            ready.known = ready.known.saturating_add(1);
            return true;
        }
        false
    }

    /// How many ticks came for frames that the source lost. All are known as such from then on.
    pub fn bad_ticks<R: Wait>(&self, rt: &R) -> u64 {
        let mut ready = self.ready.lock(rt);
        ready.known = ready.bad;
        ready.bad
    }

    /// Whether no further frame may wait.
    pub fn is_full<R: Wait>(&self, rt: &R) -> bool {
        self.waiting.lock(rt).frames.is_full()
    }

    /// Waits until no further frame may wait, for so long at most. Returns whether that is so.
    pub fn wait_full<R: Wait + Clock>(&self, rt: &R, most: Duration) -> bool {
        let waiting = self.waiting.lock(rt);
        let (waiting, _) = self
            .changed
            .wait_timeout_while(rt, waiting, most, |waiting| !waiting.frames.is_full());
        waiting.frames.is_full()
    }

    /// How many frames have come from the source with times up to this one, taken or waiting.
    pub fn come<R: Wait>(&self, rt: &R, time: u64) -> u64 {
        let waiting = self.waiting.lock(rt);
        let mut come = waiting.taken;
        for frame in waiting.frames.iter() {
            if frame.time <= time {
                come = come.wrapping_add(1);
            }
        }
        match waiting.coming {
            Some(coming) if coming <= time => come.wrapping_add(1),
            _ => come,
        }
    }

    /// How many frames have come from the source, and how many of them were taken for the device.
    pub fn counts<R: Wait>(&self, rt: &R) -> (u64, u64) {
        let waiting = self.waiting.lock(rt);
        let coming = u64::from(waiting.coming.is_some());
        let waits = coming.saturating_add(waiting.frames.len() as u64);
        (waiting.taken.wrapping_add(waits), waiting.taken)
    }

    /// Whether a frame was taken and no tick has come for it. Only the device's thread asks.
    pub fn is_ready<R: Wait>(&self, rt: &R) -> bool {
        self.ready.lock(rt).frame.is_some()
    }
}

impl Measured {
    // No frame has come.
    fn new() -> Measured {
        Measured {
            values: [0; MEASURED],
            count: 0,
            measure: None,
            newest: 0,
        }
    }

    // It is measured anew.
    fn begin(&mut self) {
        self.count = 0;
        self.measure = None;
    }

    // Whether it is measured by as many frames as it is to be.
    fn is_full(&self) -> bool {
        self.count >= MEASURED
    }

    // A frame shows a clock that is so far ahead.
    fn put(&mut self, ahead: u64) {
        self.values[self.count % MEASURED] = ahead;
        self.count = self.count.saturating_add(1);
        self.newest = ahead;
        let mut values = [0; MEASURED];
        for place in 0..MEASURED {
            values[place] = self.values[place];
        }
        let (seen, _) = values.split_at_mut(self.count.min(MEASURED));
        self.measure = median(seen);
    }
}

impl Times {
    // The time of a frame that came at a time, late or not, and whether that makes its time a wrong one.
    fn stamp(&mut self, now: u64, said: Said, late: bool) -> (u64, bool) {
        if !said.by_source {
            return (now, late);
        }
        let arrival = Arrival {
            now,
            said: self.hear(now, said.time),
            period: said.period,
        };
        let (timing, stamped) = self.timing.on(arrival);
        self.timing = timing;
        self.kept.put(ahead_of(stamped.time, now));
        note(&mut self.tells, &stamped);
        (stamped.time, late && said.time.is_none())
    }

    // The time of a frame that came at a time: what its source says, or where that is none, what its clock shows.
    fn hear(&mut self, now: u64, said: Option<u64>) -> Option<u64> {
        let said = said?;
        let frame = Heard {
            now,
            said,
            measure: self.said.measure,
            newest: self.said.newest,
        };
        let (clock, verdict) = self.clock.on(frame);
        let time = judged(frame, verdict);
        let ahead = ahead_of(said, now);
        let off = difference(ahead, frame.measure.unwrap_or(EVEN));
        match verdict {
            Verdict::Wrong if !self.clock.told => self.tells.wrong = Some((off, time)),
            Verdict::Wrong => {}
            Verdict::Anew => {
                self.tells.step = Some((off, time));
                self.said.begin();
                self.kept.begin();
                self.said.put(ahead);
            }
            Verdict::Right => self.said.put(ahead),
        }
        self.clock = clock;
        self.settle(now, time);
        Some(time)
    }

    // What is measured is known once it is measured by enough frames; that it has moved since then is told.
    fn settle(&mut self, now: u64, time: u64) {
        let (Some(measure), true) = (self.said.measure, self.said.is_full()) else {
            return;
        };
        let before = self.clock.settled.unwrap_or(measure);
        let (clock, moved) = self.clock.settle(measure, now);
        self.clock = clock;
        if moved {
            self.tells.step = Some((difference(measure, before), time));
        }
    }
}

/// How much one time is ahead of another.
pub fn difference(one: u64, other: u64) -> i64 {
    let apart = i64::try_from(one.abs_diff(other)).unwrap_or(i64::MAX);
    if one < other {
        0i64.saturating_sub(apart)
    } else {
        apart
    }
}

// What is to be told of a frame's time is told later, the newest gap in the place of an earlier one.
fn note(tells: &mut ToTell, stamped: &Stamped) {
    tells.back = tells.back || stamped.back;
    tells.untimed = tells.untimed || stamped.untimed;
    if let Some(gap) = stamped.gap {
        tells.gap = Some((gap, stamped.time));
    }
}

/// The source that a camera's device borrows its frames from. The device asks for one only where one is ready.
#[derive(Drop)]
pub struct FeedSource {
    feed: Arc<Feed>,
    /// The frame that is lent.
    frame: Vec<u8>,
    /// The frame that came last, as it was when it came.
    came: Snapshot<Vec<u8>>,
    /// Its mark.
    mark: u32,
}

impl FeedSource {
    /// A source that lends the frames that are ready there.
    pub fn new(alloc: Global, feed: Arc<Feed>) -> FeedSource {
        let frame = Vec::new(alloc);
        let came = Snapshot::of(&frame);
        FeedSource {
            feed,
            frame,
            came,
            mark: 0,
        }
    }
}

impl FrameSource for FeedSource {
    /// A frame's bytes are those of the one that lay in the feed, as it came.
    ghost next_gives = { λ source answer bytes after. answer ≡ More → bytes ≡ after.came.value.items };

    ghost lends = { λ source. source.frame.items };

    fn next(&mut self, out: &mut [u8]) -> Next {
        match self.make_ready(out.len()) {
            Some(Next::More) => {
                out.copy_from_slice(&self.frame);
                Next::More
            }
            _ => Next::Bad,
        }
    }

    /// Nobody else holds the lock, so it doesn't have to wait for it.
    fn make_ready(&mut self, size: usize) -> Option<Next> {
        let Some(mut ready) = self.feed.ready.try_lock() else {
            return Some(Next::Bad);
        };
        if ready.owed > 0 {
            ready.owed = ready.owed.saturating_sub(1);
            ready.bad = ready.bad.saturating_add(1);
            return Some(Next::Bad);
        }
        let Some(frame) = ready.frame.take() else {
            return Some(Next::Bad);
        };
        let fits = frame.bytes.len() == size;
        self.mark = frame.mark;
        self.came = Snapshot::of(&frame.bytes);
        let row = mem::replace(&mut self.frame, frame.bytes);
        if !row.is_empty() {
            ready.row = Some(row);
        }
        Some(if fits { Next::More } else { Next::Bad })
    }

    fn lent(&self) -> &[u8] {
        &self.frame
    }

    fn give_row(&mut self) -> Option<Vec<u8>> {
        let none = Vec::new(*self.frame.allocator());
        Some(mem::replace(&mut self.frame, none))
    }

    fn return_row(&mut self, row: Vec<u8>) {
        self.frame = row;
    }

    fn mark(&self) -> u32 {
        self.mark
    }
}
