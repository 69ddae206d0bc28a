//! A source's clock: how far it is ahead of the station's, and which of the times that it says are none.

ghost use Rattle.std.specs.Prelude.{◌≡◌, IfSome, None, [], false};
ghost use Rattle.loop_station_core.specs.Clocks.{IsMedian, ahead_of, apart, by_source, clock_judged, clock_settled, is_far, misheard, judged, misled, steps_now};

/// How far ahead a clock is that shows the station's time: one that is behind has a lower number.
pub const EVEN: u64 = 4_611_686_018_427_387_904;

// A time further from what is measured than so many microseconds is none.
const WRONG: u64 = 60_000_000;

// Nor is one so many microseconds ahead where nothing is measured: two hundred years.
const UNHEARD: u64 = 6_311_520_000_000_000;

// Two frames show one clock where they are no further apart than so many microseconds.
const SAME: u64 = 1_000_000;

// A clock is measured anew once so many frames in a row show it, over so many microseconds.
const FRAMES: u32 = 8;

const LASTS: u64 = 2_000_000;

// That a measure has moved is told at most once in so many microseconds.
const TOLD_AGAIN: u64 = 60_000_000;

/// How many of the last frames a clock is measured by.
pub const MEASURED: usize = 64;

/// What is known of a source's clock.
#[derive(Clone, Copy, Debug, PartialEq, Eq, Drop)]
pub struct SourceClock {
    /// How many frames in a row said times that are none, and show one clock.
    pub others: u32,
    /// How far ahead that is, and when the first of them came.
    pub other: u64,
    pub since: u64,
    /// It was told that a time is none, since the clock was measured anew.
    pub told: bool,
    /// The measure that is known to those who are told, and since when.
    pub settled: Option<u64>,
    pub at: u64,
}

/// A frame whose source says a time.
#[derive(Clone, Copy, Debug, PartialEq, Eq, Drop)]
pub struct Heard {
    /// When it came.
    pub now: u64,
    /// The time that its source says.
    pub said: u64,
    /// How far the clock is ahead, as measured by the frames before it, and by the last of them alone.
    pub measure: Option<u64>,
    pub newest: u64,
}

/// What becomes of the time that a source says.
#[derive(Clone, Copy, Debug, PartialEq, Eq, Drop)]
pub enum Verdict {
    /// It is the frame's time, and the clock is measured by it.
    Right,
    /// It is no time: the frame has the one that the measure gives.
    Wrong,
    /// The clock has stepped: it is the frame's time, and the clock is measured by this frame and those that come.
    Anew,
}

/// How far a clock is ahead that shows this time, by the station's.
pub fn ahead_of(said: u64, now: u64) -> u64
    ensures { result ≡ ahead_of said now }
{
    said.saturating_add(EVEN).saturating_sub(now)
}

/// The time that a clock shows that is so far ahead, at one of the station's.
pub fn by_source(now: u64, ahead: u64) -> u64
    ensures { result ≡ by_source now ahead }
{
    now.saturating_add(ahead).saturating_sub(EVEN)
}

/// How far a clock is ahead, by some that were measured: the one in the middle, once they are in order. They are put in
/// order. None where there is none.
pub fn median(values: &mut [u64]) -> Option<u64>
    ensures some { IfSome result (IsMedian values.old) }
    ensures none { result ≡ None → values.old ≡ [] }
{
    values.sort_unstable();
    if values.is_empty() {
        return None;
    }
    Some(values[values.len() / 2])
}

// How far two are apart.
fn apart(one: u64, other: u64) -> u64
    ensures { result ≡ apart one other }
{
    one.abs_diff(other)
}

// Whether the time that a source says is none.
fn is_far(frame: Heard) -> bool
    ensures { result ≡ is_far frame }
{
    match frame.measure {
        Some(measure) => {
            let ahead = ahead_of(frame.said, frame.now);
            apart(ahead, measure) > WRONG && apart(ahead, frame.newest) > WRONG
        }
        None => frame.said.saturating_sub(frame.now) > UNHEARD,
    }
}

impl SourceClock {
    /// No frame has come.
    pub fn new() -> SourceClock
        ensures { result ≡ record { others = 0; other = 0; since = 0; told = false; settled = None; at = 0 } }
    {
        SourceClock {
            others: 0,
            other: 0,
            since: 0,
            told: false,
            settled: None,
            at: 0,
        }
    }

    // A time that is none joins those before it that show the same clock, or is the first of others.
    fn misheard(self, frame: Heard) -> SourceClock
        ensures { result ≡ misheard self frame }
    {
        let ahead = ahead_of(frame.said, frame.now);
        let mut clock = self;
        if self.others > 0 && apart(ahead, self.other) <= SAME {
            clock.others = self.others.saturating_add(1);
        } else {
            clock.others = 1;
            clock.other = ahead;
            clock.since = frame.now;
        }
        clock
    }

    // Whether those that show another clock are enough now.
    fn steps_now(self, now: u64) -> bool
        ensures { result ≡ steps_now self now }
    {
        self.others >= FRAMES && now.saturating_sub(self.since) >= LASTS
    }

    // The same after a time that is none, and whether it is told.
    fn misled(self, frame: Heard) -> (SourceClock, Verdict)
        ensures { result ≡ misled self frame }
    {
        let mut clock = self.misheard(frame);
        if frame.measure.is_some() && clock.steps_now(frame.now) {
            clock.others = 0;
            clock.told = false;
            clock.settled = Some(ahead_of(frame.said, frame.now));
            clock.at = frame.now;
            return (clock, Verdict::Anew);
        }
        clock.told = true;
        (clock, Verdict::Wrong)
    }

    /// A frame has come whose source says a time. What becomes of that. It is to be told where it is the first that is
    /// none (`told` becomes true), and where the clock has stepped.
    pub fn on(self, frame: Heard) -> (SourceClock, Verdict)
        ensures { result ≡ clock_judged self frame }
    {
        if is_far(frame) {
            return self.misled(frame);
        }
        let mut clock = self;
        clock.others = 0;
        (clock, Verdict::Right)
    }

    /// The clock is measured by as many frames as it is to be. Whether it is to be told that it has moved since that was
    /// told last.
    pub fn settle(self, measure: u64, now: u64) -> (SourceClock, bool)
        ensures { result ≡ clock_settled self measure now }
    {
        let mut clock = self;
        let moved = match self.settled {
            None => false,
            Some(settled) => {
                if apart(measure, settled) <= SAME || now.saturating_sub(self.at) < TOLD_AGAIN {
                    return (self, false);
                }
                true
            }
        };
        clock.settled = Some(measure);
        clock.at = now;
        (clock, moved)
    }
}

/// The time of a frame by what became of the one that its source says: that, or what the measure gives, or else when it
/// came.
pub fn judged(frame: Heard, verdict: Verdict) -> u64
    ensures { result ≡ judged frame verdict }
{
    match (verdict, frame.measure) {
        (Verdict::Wrong, Some(measure)) => by_source(frame.now, measure),
        (Verdict::Wrong, None) => frame.now,
        _ => frame.said,
    }
}
