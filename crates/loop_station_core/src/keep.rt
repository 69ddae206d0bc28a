//! A keep of one camera: when it locks, and of which times.

ghost use Rattle.std.specs.Prelude.{◌≡◌, ◌≢◌, IfSome, None, ◌+◌, ◌-◌, ◌^◌, ◌<◌, ◌↔◌, IsTrue, max, nat_le, if◌then◌else◌};
ghost use Rattle.loop_station_core.specs.Keeps.{acts, asked_time, bounds, end_seen, is_clear, is_done, looked, needed, part_is_due, part_locked, progress_seen, step_keep, steps_taken};

use crate::{OpenEvent, Tally};

// How many microseconds a keep waits at most while no frame makes progress.
const STUCK: u64 = 60_000_000;

// How many microseconds after its line a keep may end at most.
const MOST_AFTER: u64 = 3_600_000_000;

/// A keep of one camera that isn't done yet.
#[derive(Clone, Copy)]
pub struct Keep {
    /// The number of its event.
    pub event: u64,
    /// The first microsecond since 1970 that is kept.
    pub since: u64,
    /// The last microsecond since 1970 that is kept. It may lie in the future.
    pub until: u64,
    /// The tag of its clips.
    pub tag: u64,
    // How many frames had come when its line was read, up to its end.
    come: u64,
    // How many frames had come up to its end, once that has passed.
    all: Option<u64>,
    // The count of frames' steps when a frame was last seen to make progress, and when that was.
    steps: u64,
    moved: u64,
    // The newest block when it was last locked, and up to when.
    block: u64,
    part: Option<u64>,
}

/// What is seen when a keep is looked at.
#[derive(Clone, Copy)]
pub struct Look {
    /// Where its camera's frames are.
    pub tally: Tally,
    /// The microsecond since 1970 at which it is looked at.
    pub time: u64,
    /// How many frames have come up to the end of its time, or up to now where that lies ahead.
    pub come: u64,
    /// The number of the newest block.
    pub block: u64,
    /// Each block is locked.
    pub locked: bool,
    /// The program ends, so no further frame comes.
    pub stopping: bool,
}

/// What a keep does now.
#[derive(Clone, Copy)]
pub enum KeepTurn {
    /// It waits on.
    Wait,
    /// It locks what is held from its `since` to here, and goes on.
    Part {
        /// The last microsecond since 1970 that is locked now.
        until: u64,
    },
    /// It locks what is held of its whole time, and is done.
    Whole,
}

impl Keep {
    /// A keep of an event. Its line was read at the time `read`; `come` is how many frames had come by then, and up to
    /// the event's end where that was before.
    pub fn new(event: OpenEvent, read: u64, come: u64, tally: &Tally) -> Keep
        ensures { result ≡ record {
          event = event.event;
          since = event.since;
          until = event.until;
          tag = event.tag;
          come = come;
          all = (if nat_le event.until read then Some come else None);
          steps = steps_taken tally.now;
          moved = read;
          block = 0;
          part = None;
        } }
    {
        Keep {
            event: event.event,
            since: event.since,
            until: event.until,
            tag: event.tag,
            come,
            all: if event.until <= read {
                Some(come)
            } else {
                None
            },
            steps: tally.steps(),
            moved: read,
            block: 0,
            part: None,
        }
    }

    /// The time up to which it has locked what was held, if it has.
    pub fn part(&self) -> Option<u64>
        ensures { result ≡ self.now.part }
    {
        self.part
    }

    /// Its camera's store was moved away, and another one is made: nothing of it is locked there.
    pub fn anew(self) -> Keep
        ensures { result ≡ record self { block = 0; part = None } }
    {
        let mut keep = self;
        keep.block = 0;
        keep.part = None;
        keep
    }

    // A frame made progress, or not, since it was last looked at.
    fn progress_seen(self, steps: u64, now: u64) -> Keep
        ensures { result ≡ progress_seen self steps now }
    {
        if steps == self.steps {
            return self;
        }
        Keep {
            steps,
            moved: now,
            ..self
        }
    }

    // How many frames had come up to its end is known from the first look after that on.
    fn end_seen(self, now: u64, come: u64) -> Keep
        ensures { result ≡ end_seen self now come }
    {
        if self.until <= now && self.all.is_none() {
            return Keep {
                all: Some(come.max(self.come)),
                ..self
            };
        }
        self
    }

    // It looks.
    fn looked(self, look: &Look) -> Keep
        ensures { result ≡ looked self look.now }
    {
        self.progress_seen(look.tally.steps(), look.time)
            .end_seen(look.time, look.come)
    }

    // Whether so many frames are at the desk or lost, or none makes progress.
    fn is_clear(&self, needs: u64, look: &Look) -> bool
        ensures { result ≡ is_clear needs self.now look.now }
    {
        look.tally.has_brought(needs) || look.locked || look.time.saturating_sub(self.moved) > STUCK
    }

    // How many frames have to be at the desk before it is done.
    fn needed(&self, look: &Look) -> u64
        ensures { result ≡ needed self.now look.now }
    {
        match self.all {
            Some(all) => all,
            None => look.come.max(self.come),
        }
    }

    // Whether it is done.
    fn is_done(&self, look: &Look) -> bool
        ensures { result ≡ is_done self.now look.now }
    {
        (self.all.is_some() || look.stopping) && self.is_clear(self.needed(look), look)
    }

    // Whether it locks what is there.
    fn part_is_due(&self, look: &Look) -> bool
        ensures { result ≡ part_is_due self.now look.now }
    {
        self.is_clear(self.come, look) && !(self.part.is_some() && self.block == look.block)
    }

    // It locks what is there.
    fn part_locked(self, look: &Look) -> (Keep, KeepTurn)
        ensures { result ≡ part_locked self look.now }
    {
        let until = look.time.min(self.until);
        let keep = Keep {
            block: look.block,
            part: Some(until),
            ..self
        };
        (keep, KeepTurn::Part { until })
    }

    // What it does once it has looked.
    fn acts(self, look: &Look) -> (Keep, KeepTurn)
        ensures { result ≡ acts self look.now }
    {
        if self.is_done(look) {
            return (self, KeepTurn::Whole);
        }
        if self.part_is_due(look) {
            return self.part_locked(look);
        }
        (self, KeepTurn::Wait)
    }
}

/// What a keep does once it was looked at. It locks only once each frame that had come before its line is at the desk
/// or lost, or each block is locked, or no frame has made progress for a minute.
pub fn next_turn(keep: Keep, look: &Look) -> (Keep, KeepTurn)
    ensures { result ≡ step_keep keep look.now }
{
    keep.looked(look).acts(look)
}

/// The time that the line of a keep asks for.
#[derive(Clone, Copy)]
pub enum KeepPeriod {
    /// So many seconds before its line was read, and so many after; where one isn't said, as the camera's own.
    Around(Option<u32>, Option<u32>),
    /// From one time to another, both included.
    Between(u64, u64),
}

/// The first and the last microsecond that a keep asks a camera for. `before` and `after` are the camera's own seconds.
pub fn asked_time(period: KeepPeriod, read: u64, before: u32, after: u32) -> (u64, u64)
    ensures { result ≡ asked_time period read before after }
{
    match period {
        KeepPeriod::Around(seconds, more) => {
            bounds(read, seconds.unwrap_or(before), more.unwrap_or(after))
        }
        KeepPeriod::Between(since, until) => (since, until),
    }
}

/// The tag of the clips of an event: that which its line says, or else the camera's `own`, or where that is 0 the
/// event's number.
pub fn tag_of(said: Option<u64>, own: u64, event: u64) -> u64
    ensures said { IfSome said (λ tag. result ≡ tag) }
    ensures own { said ≡ None → own ≢ 0 → result ≡ own }
    ensures event { said ≡ None → own ≡ 0 → result ≡ event }
{
    match said {
        Some(tag) => tag,
        None if own == 0 => event,
        None => own,
    }
}

/// The first and the last microsecond of a keep of so many seconds before its line was read, and so many after.
pub fn bounds(read: u64, seconds: u32, after: u32) -> (u64, u64)
    ensures { result ≡ bounds read seconds after }
{
    (
        read.saturating_sub(u64::from(seconds) * 1_000_000),
        read.saturating_add(u64::from(after) * 1_000_000),
    )
}

/// Whether a keep ends more than an hour after its line was read.
pub fn is_too_far(read: u64, until: u64) -> bool
    ensures { IsTrue result ↔ (read + 3600000000 < until) }
{
    until > read.saturating_add(MOST_AFTER)
}

/// Gives events their numbers.
#[derive(Clone, Copy, Drop)]
pub struct Numbers {
    last: u64,
}

impl Numbers {
    /// Each number is greater than this one, which was given last.
    pub fn after(last: u64) -> Numbers
        ensures { result.last ≡ last }
    {
        Numbers { last }
    }

    /// The number of an event whose line was read at this time: the time itself, or one more than the last number
    /// where that isn't less.
    pub fn next(&mut self, read: u64) -> u64
        ensures number { self.old.last < 2 ^ 64 - 1 → result ≡ max read (self.old.last + 1) }
        ensures last { self.new.last ≡ result }
    {
        self.last = read.max(self.last.saturating_add(1));
        self.last
    }
}
