//! Which of a camera's stores has the newest frame, and which is opened next: by their frames' sequences, which go round.

ghost use Rattle.std.specs.Prelude.{◌≡◌, ◌<◌, ◌≤◌, ◌↔◌, IsTrue, false, true};
ghost use Rattle.loop_station_core.specs.Newest.{chosen, newest_after, counts_ahead, later_of};

// Newest frames that are so far apart are in no order.
const HALF: u64 = 2_147_483_648;

/// The newest frame of a store.
#[derive(Clone, Copy, Debug, PartialEq, Eq, Drop)]
pub struct StoreNewest {
    /// The store's number.
    pub number: u32,
    /// The frame's sequence, and its time.
    pub sequence: u32,
    pub time: u64,
}

/// What was seen of the newest frames of some stores.
#[derive(Clone, Copy, Debug, PartialEq, Eq, Drop)]
pub struct NewestSeen {
    /// The newest of them by sequence, as long as these are in order.
    pub by_count: Option<StoreNewest>,
    /// How far the others lie behind it at most.
    pub span: u64,
    /// The newest of them by time.
    pub by_time: Option<StoreNewest>,
}

// How far one sequence is ahead of another, going round.
fn ahead(one: u32, other: u32) -> u32
    ensures { result ≡ counts_ahead one other }
{
    if other <= one {
        one - other
    } else {
        u32::MAX - (other - one) + 1
    }
}

// The later of two frames by time, or the first.
fn later_of(one: Option<StoreNewest>, other: StoreNewest) -> StoreNewest
    ensures { result ≡ later_of one other }
{
    match one {
        Some(one) if other.time <= one.time => one,
        _ => other,
    }
}

impl NewestSeen {
    /// No store was seen.
    pub fn new() -> NewestSeen
        ensures { result ≡ record { by_count = None; span = 0; by_time = None } }
    {
        NewestSeen {
            by_count: None,
            span: 0,
            by_time: None,
        }
    }

    /// The newest frame of another store is seen.
    pub fn on(self, seen: StoreNewest) -> NewestSeen
        ensures { result ≡ newest_after self seen }
    {
        let by_time = Some(later_of(self.by_time, seen));
        let Some(newest) = self.by_count else {
            return NewestSeen {
                by_count: Some(seen),
                span: self.span,
                by_time,
            };
        };
        let further = u64::from(ahead(seen.sequence, newest.sequence));
        if further >= HALF {
            let behind = u64::from(ahead(newest.sequence, seen.sequence));
            return NewestSeen {
                by_count: self.by_count,
                span: self.span.max(behind),
                by_time,
            };
        }
        let by_count = if further == 0 {
            later_of(Some(newest), seen)
        } else {
            seen
        };
        NewestSeen {
            by_count: Some(by_count),
            span: self.span.saturating_add(further),
            by_time,
        }
    }

    /// The newest of all that were seen, and whether it is so by their sequences: these lie within half of all. Else it
    /// is by their times. None where none was seen.
    pub fn chosen(self) -> (Option<StoreNewest>, bool)
        ensures { result ≡ chosen self }
    {
        if self.span < HALF {
            (self.by_count, true)
        } else {
            (self.by_time, false)
        }
    }
}

/// Whether the store whose oldest frame has one sequence is opened before one whose oldest has another, where `newest` is
/// the newest of all: that of the oldest frame.
pub fn opens_before(newest: u32, one: u32, other: u32) -> bool
    ensures { IsTrue result ↔ (counts_ahead newest other < counts_ahead newest one) }
{
    ahead(newest, other) < ahead(newest, one)
}

/// Whether frames wait in memory, so that no block goes before it is known to be the oldest of all: the camera's stores
/// are still being opened, so many frames were taken as have room without that, and memory isn't full.
pub fn holds_back(is_opening: bool, taken: u64, room: u64, is_full: bool) -> bool
    ensures { IsTrue result ↔ ((is_opening ≡ true) × (room ≤ taken) × (is_full ≡ false)) }
{
    is_opening && taken >= room && !is_full
}
