//! The times of frames that their source says, and the gaps between them.

ghost use Rattle.std.specs.Prelude.{◌≡◌, false};
ghost use Rattle.loop_station_core.specs.Timing.{counted, gap_since, is_back, later, said_or_now, step_of, step_timing, tells};

// A gap is told only where the one before was told so many microseconds earlier.
const TOLD_AGAIN: u64 = 1_000_000;

// A clock was set back whose time lies so many microseconds before the last one.
const STEPPED: u64 = 1_000_000;

/// What is known of the times of a source's frames.
#[derive(Clone, Copy, Debug, PartialEq, Eq, Drop)]
pub struct Timing {
    /// The time of the newest frame, and when it came.
    pub last: Option<u64>,
    pub came: u64,
    /// That frame is of the stream that comes now.
    pub streams: bool,
    /// How many gaps were longer than one and a half of a frame's time.
    pub gaps: u64,
    /// When a gap was told last.
    pub told: Option<u64>,
    /// It was told that times go back.
    pub back: bool,
    /// It was told that there are none.
    pub untimed: bool,
}

/// A frame that has come.
#[derive(Clone, Copy, Debug, PartialEq, Eq, Drop)]
pub struct Arrival {
    /// When it came.
    pub now: u64,
    /// The time that its source says.
    pub said: Option<u64>,
    /// How long a frame lasts at the source's rate.
    pub period: u64,
}

/// The time of a frame, and what is told.
#[derive(Clone, Copy, Debug, PartialEq, Eq, Drop)]
pub struct Stamped {
    /// The frame's time.
    pub time: u64,
    /// That times go back.
    pub back: bool,
    /// That frames have no times of their own.
    pub untimed: bool,
    /// A gap of so many microseconds before it.
    pub gap: Option<u64>,
}

impl Timing {
    /// No frame has come.
    pub fn new() -> Timing {
        Timing {
            last: None,
            came: 0,
            streams: false,
            gaps: 0,
            told: None,
            back: false,
            untimed: false,
        }
    }

    /// Another stream begins: what lies before its first frame is no gap.
    pub fn begin(self) -> Timing
        ensures { result ≡ record self { streams = false } }
    {
        let mut timing = self;
        timing.streams = false;
        timing
    }

    /// A frame has come. Its time is what its source says, or else when it came, but always later than that of the
    /// frame before: a microsecond later where it isn't. Where its source says one that lies more than a second back,
    /// times go on half as fast as frames come.
    pub fn on(self, frame: Arrival) -> (Timing, Stamped)
        ensures { result ≡ step_timing self frame }
    {
        let time = later(self.last, step_of(self, frame), said_or_now(frame));
        let gap = gap_of(self, time, frame.period);
        let told = is_told(self, gap, frame.now);
        let stamped = Stamped {
            time,
            back: goes_back(self, frame) && !self.back,
            untimed: frame.said.is_none() && !self.untimed,
            gap: if told { gap } else { None },
        };
        let timing = Timing {
            last: Some(time),
            came: frame.now,
            streams: true,
            gaps: counted(self.gaps, gap),
            told: if told { Some(frame.now) } else { self.told },
            back: self.back || goes_back(self, frame),
            untimed: self.untimed || frame.said.is_none(),
        };
        (timing, stamped)
    }
}

// The time that its source says, or else when it came.
fn said_or_now(frame: Arrival) -> u64
    ensures { result ≡ said_or_now frame }
{
    match frame.said {
        Some(time) => time,
        None => frame.now,
    }
}

// How much later than the last time the next one is at least: half of what has passed since that came, where its source
// says one more than a second before it.
fn step_of(timing: Timing, frame: Arrival) -> u64
    ensures { result ≡ step_of timing frame }
{
    match (timing.last, frame.said) {
        (Some(last), Some(said)) if last.saturating_sub(said) > STEPPED => {
            (frame.now.saturating_sub(timing.came) / 2).max(1)
        }
        _ => 1,
    }
}

// A time, or one so much after the last one where it isn't later.
fn later(last: Option<u64>, step: u64, time: u64) -> u64
    ensures { result ≡ later last step time }
{
    match last {
        Some(last) if time <= last => last.saturating_add(step),
        _ => time,
    }
}

// Whether the time that its source says isn't later than the last one.
fn goes_back(timing: Timing, frame: Arrival) -> bool
    ensures { result ≡ is_back timing.last frame.said }
{
    match (timing.last, frame.said) {
        (Some(last), Some(said)) => said <= last,
        _ => false,
    }
}

// The gap before a time, if it is longer than one and a half of a frame's time.
fn gap_of(timing: Timing, time: u64, period: u64) -> Option<u64>
    ensures { result ≡ gap_since timing.streams timing.last time period }
{
    let Some(last) = timing.last else {
        return None;
    };
    let passed = time.saturating_sub(last);
    if timing.streams && period > 0 && passed > period.saturating_add(period / 2) {
        Some(passed)
    } else {
        None
    }
}

// Whether a gap is told now.
fn is_told(timing: Timing, gap: Option<u64>, now: u64) -> bool
    ensures { result ≡ tells gap timing.told now }
{
    match (gap, timing.told) {
        (None, _) => false,
        (Some(_), None) => true,
        (Some(_), Some(told)) => now.saturating_sub(told) >= TOLD_AGAIN,
    }
}

// One more gap, if there is one.
fn counted(gaps: u64, gap: Option<u64>) -> u64
    ensures { result ≡ counted gaps gap }
{
    match gap {
        Some(_) => gaps.saturating_add(1),
        None => gaps,
    }
}
