//! Gaps in a clip: which of its frames' heads are read to find each place where frames are missing.
//!
//! A clip may have thousands of frames. A frame's sequence counts lost frames too, so none is lost in a stretch whose
//! sequences are as far apart as its numbers. Such a stretch isn't looked into, where it takes no longer than its
//! frames do; any other is halved, until two neighbours have a gap between them.

ghost use Rattle.std.specs.Prelude.{◌≡◌};
ghost use Rattle.loop_station_core.specs.Search.{ahead, has_gap, is_hole, takes_long, is_narrow, lost_counts, middle, most, passed, told, turn};

// Where the next frame comes within so many microseconds, none is missing: it came late.
const LEAST_GAP: u64 = 250_000;

// A sequence that is ahead by more than this began anew.
const MOST_LOST: u32 = 0x7fff_ffff;

/// A frame of a clip: its number, when it came, and its sequence.
#[derive(Clone, Copy)]
pub struct Mark {
    pub number: u64,
    pub time: u64,
    pub sequence: u32,
}

// How far a sequence is ahead of one that came so many frames earlier. It goes round.
fn ahead(from: u32, to: u32, frames: u64) -> u32
    ensures { result ≡ ahead from to frames }
{
    let frames = (frames % (1 << 32)) as u32;
    to.wrapping_sub(from).wrapping_sub(frames)
}

/// How many frames are lost between two, of which one came so many stored frames after the other: by so many more their
/// sequences are apart. None, where the sequence began anew.
pub fn lost_between(from: u32, to: u32, frames: u64) -> u64
    ensures { result ≡ lost_counts from to frames }
{
    let ahead = ahead(from, to, frames);
    if ahead <= MOST_LOST {
        u64::from(ahead)
    } else {
        0
    }
}

/// What a search does next.
#[derive(Clone, Copy)]
pub enum SearchTurn {
    /// It has to be told when the frame of this number came, and its sequence.
    Read(u64),
    /// A gap is found: no frame is held between these two.
    Gap {
        /// The last frame before it.
        from: Mark,
        /// The first frame after it.
        to: Mark,
    },
    /// It goes on with the rest.
    Again,
    /// It is over.
    Over,
}

/// A search for the gaps of a clip, from its first frame to its last.
#[derive(Clone, Copy)]
pub struct Search {
    period: u64,
    // The stretch that is looked at: all before it is searched.
    from: Mark,
    to: Mark,
    end: Mark,
}

impl Search {
    /// A search of a clip, of which a frame comes each `period` microseconds.
    pub fn new(first: Mark, last: Mark, period: u64) -> Search
        ensures { result ≡ record { period = period; from = first; to = last; end = last } }
    {
        Search {
            period,
            from: first,
            to: last,
            end: last,
        }
    }

    // How much longer than its frames a stretch lasts at most without a gap.
    fn most(&self) -> u64
        ensures { result ≡ most self.now.period }
    {
        (self.period / 2).max(LEAST_GAP.saturating_sub(self.period))
    }

    // Whether the stretch from the first frame to this one lasts longer, so that none may have come for a while.
    fn takes_long(&self, to: Mark) -> bool
        ensures { result ≡ takes_long self.now.period self.now.from to }
    {
        let frames = to.number.saturating_sub(self.from.number);
        let takes = frames
            .saturating_mul(self.period)
            .saturating_add(self.most());
        to.time.saturating_sub(self.from.time) > takes
    }

    // Whether the sequences of the first frame and this one are further apart than their numbers, or less far.
    fn is_hole(&self, to: Mark) -> bool
        ensures { result ≡ is_hole self.now.from to }
    {
        let frames = to.number.saturating_sub(self.from.number);
        ahead(self.from.sequence, to.sequence, frames) > 0
    }

    // Whether there is a gap in the stretch from the first frame to this one.
    fn has_gap(&self, to: Mark) -> bool
        ensures { result ≡ has_gap self.now.period self.now.from to }
    {
        self.is_hole(to) || self.takes_long(to)
    }

    // Whether no frame lies between the two.
    fn is_narrow(&self) -> bool
        ensures { result ≡ is_narrow self.now }
    {
        self.to.number.saturating_sub(self.from.number) < 2
    }

    // The frame in the middle.
    fn middle(&self) -> u64
        ensures { result ≡ middle self.now }
    {
        self.from
            .number
            .saturating_add(self.to.number.saturating_sub(self.from.number) / 2)
    }

    // The stretch is searched.
    fn passed(self) -> Search
        ensures { result ≡ passed self }
    {
        Search {
            from: self.to,
            to: self.end,
            ..self
        }
    }

    /// What it does next.
    pub fn turn(self) -> (Search, SearchTurn)
        ensures { result ≡ turn self }
    {
        let (from, to) = (self.from, self.to);
        if self.has_gap(self.to) {
            if self.is_narrow() {
                return (self.passed(), SearchTurn::Gap { from, to });
            }
            return (self, SearchTurn::Read(self.middle()));
        }
        if self.to.number >= self.end.number {
            return (self, SearchTurn::Over);
        }
        (self.passed(), SearchTurn::Again)
    }

    /// The frame that was asked for came at this time, and has this sequence.
    pub fn told(self, time: u64, sequence: u32) -> Search
        ensures { result ≡ told self time sequence }
    {
        let mark = Mark {
            number: self.middle(),
            time,
            sequence,
        };
        if self.has_gap(mark) {
            return Search { to: mark, ..self };
        }
        Search { from: mark, ..self }
    }
}
