//! Which lines about a camera follow from what is seen of it.

ghost use Rattle.std.specs.Prelude.{◌≡◌};
ghost use Rattle.loop_station_core.specs.Telling.{IsLineOfKind, disk_frames, known_after, lines_of, nothing_known, same_source, told_behind, told_locked, told_lost, told_making, told_nearly, told_slow, told_source, told_store, told_syncs, told_unusable, told_waited, wait_goes_on, wait_is_over};

// From this many microseconds after the program began on, a source or a store that isn't there is told.
const COMES_SOON: u64 = 1_000_000;

// The microseconds at least between two lines about frames that were given up.
const GIVEN_UP_AGAIN: u64 = 1_000_000;

// The disk is told as behind from this many microseconds on.
const BEHIND: u64 = 1_000_000;

// Below this many microseconds it has caught up.
const CAUGHT_UP: u64 = 500_000;

// A wait for memory is over once none was seen for so many microseconds.
const NO_WAIT: u64 = 1_000_000;

// A wait for memory is told from so many microseconds on while it lasts, and from so many once it is over.
const LONG_WAIT: u64 = 1_000_000;

const SHORT_WAIT: u64 = 100_000;

// A store that is being made is told anew after so many percent.
const QUARTER: u32 = 25;

// A flush syncs twice: half of the microseconds of a second.
const FLUSHED_A_SECOND: u64 = 500_000;

/// The cause of a store that isn't there because its source hasn't come yet.
pub const NOT_THERE_YET: u32 = 0;

/// How many kinds of changes there are.
pub const KINDS: usize = 11;

/// What is seen of a camera's source.
#[derive(Clone, Copy, PartialEq, Eq)]
pub enum SourceSeen {
    /// It isn't there, or has ended.
    Missing,
    /// It is open, and gives no frames.
    Silent,
    /// Its frames are of another size, format or rate than the store's.
    Other,
    /// No store can have its frames.
    Unusable,
    /// It gives frames.
    On,
}

/// What is seen of a camera's store.
#[derive(Clone, Copy, PartialEq, Eq)]
pub enum StoreSeen {
    /// It hasn't been opened yet.
    Unknown,
    /// It is open.
    Open,
    /// It isn't there; the number is its cause (`NOT_THERE_YET`, or any other).
    Absent(u32),
    /// It is being made; the number is how much of it is there, in percent.
    Making(u32),
    /// The program ends.
    Stopped,
}

/// What is known of a store's disk.
#[derive(Clone, Copy)]
pub struct DiskSeen {
    /// How many microseconds a sync takes.
    pub sync: u64,
    /// How many frames a flush stores at most, by two syncs.
    pub group: u32,
    /// How many frames the store's source gives: so many in so many seconds.
    pub rate_num: u32,
    pub rate_den: u32,
}

/// What is seen of a camera at a time.
#[derive(Clone, Copy)]
pub struct Seen {
    /// The time, in microseconds since 1970.
    pub now: u64,
    pub source: SourceSeen,
    /// The cause for which no store can have the source's frames, as a number; it means nothing where they can.
    pub unusable: u32,
    pub store: StoreSeen,
    /// The store's disk, once it is measured.
    pub disk: Option<DiskSeen>,
    /// How many frames are lost since the program began.
    pub lost: u64,
    /// Each block is locked.
    pub locked: bool,
    /// How many microseconds of frames have come and are neither stored nor lost.
    pub behind: u64,
    /// Since when the source waits for memory, if it does.
    pub waited: Option<u64>,
    /// How many more blocks may be locked.
    pub room: u64,
    /// How many blocks may be locked in all; 0 where the store isn't open.
    pub blocks: u64,
    /// The program ends.
    pub stopping: bool,
}

/// A change that is told.
#[derive(Clone, Copy)]
pub enum Change {
    SourceOn,
    SourceMissing,
    SourceSilent,
    StoreOpen,
    /// The number is its cause.
    StoreAbsent(u32),
    GivenUp {
        /// How many frames were lost.
        frames: u64,
        /// Since when.
        since: u64,
    },
    AllLocked,
    RoomAgain,
    NearlyAllLocked,
    /// So many microseconds of frames wait.
    Behind(u64),
    CaughtUp,
    Waited {
        /// For how long the source had to wait.
        micros: u64,
        /// Since when.
        since: u64,
    },
    /// The number is its cause.
    SourceUnusable(u32),
    /// So much of the store is made, in percent.
    Made(u32),
    /// A sync of the disk takes so many microseconds.
    Syncs(u64),
    TooSlow {
        /// How many microseconds a sync takes.
        micros: u64,
        /// How many frames a second the disk takes at most.
        frames: u64,
    },
}

/// The changes that are told at a time: at most one of each kind.
#[derive(Clone, Copy)]
pub struct Changes {
    pub source: Option<Change>,
    pub store: Option<Change>,
    pub given_up: Option<Change>,
    pub locked: Option<Change>,
    pub nearly: Option<Change>,
    pub behind: Option<Change>,
    pub waited: Option<Change>,
    pub unusable: Option<Change>,
    pub making: Option<Change>,
    pub syncs: Option<Change>,
    pub slow: Option<Change>,
}

impl Changes {
    /// The change of a kind, in the order of the fields; `kind` is below `KINDS`.
    pub fn at(&self, kind: usize) -> Option<Change>
        ensures { IsLineOfKind self.now kind result }
    {
        match kind {
            0 => self.source,
            1 => self.store,
            2 => self.given_up,
            3 => self.locked,
            4 => self.nearly,
            5 => self.behind,
            6 => self.waited,
            7 => self.unusable,
            8 => self.making,
            9 => self.syncs,
            10 => self.slow,
            _ => None,
        }
    }
}

// What was told of frames that were lost.
#[derive(Clone, Copy)]
struct LostTold {
    // How many.
    frames: u64,
    // Since when frames have been lost that aren't told yet.
    since: u64,
    // When they may be told again.
    again: u64,
}

// What was told of a wait for memory.
#[derive(Clone, Copy)]
struct WaitTold {
    // Since when the source waits, if it does.
    since: Option<u64>,
    // When that was last seen.
    last: u64,
    // How long it was when it was last told.
    told: u64,
}

/// What was last told of a camera.
#[derive(Clone, Copy)]
pub struct Reported {
    // From this time on a source or a store that isn't there is told.
    soon: u64,
    source: Option<SourceSeen>,
    store: StoreSeen,
    lost: LostTold,
    locked: bool,
    nearly: bool,
    // How far behind the disk was told to be; 0 where it isn't.
    behind: u64,
    waited: WaitTold,
    // The cause of an unusable source.
    unusable: Option<u32>,
    // How many quarters of the store are made, while it is made.
    making: Option<u32>,
    // How fast the disk is.
    disk: bool,
}

impl Reported {
    /// Nothing is told yet at this time.
    pub fn new(now: u64) -> Reported
        ensures { result ≡ nothing_known now }
    {
        Reported {
            soon: now.saturating_add(COMES_SOON),
            source: None,
            store: StoreSeen::Unknown,
            lost: LostTold {
                frames: 0,
                since: now,
                again: 0,
            },
            locked: false,
            nearly: false,
            behind: 0,
            waited: WaitTold {
                since: None,
                last: 0,
                told: 0,
            },
            unusable: None,
            making: None,
            disk: false,
        }
    }

    /// What is told of what is seen now, after what was told before.
    pub fn next(self, seen: &Seen) -> (Reported, Changes)
        ensures { result ≡ (known_after self seen.entry.now, lines_of self seen.entry.now) }
    {
        let (source, source_change) = next_source(self.source, seen.source, seen.now < self.soon);
        let (store, store_change) = next_store(self.store, seen.store, seen.now < self.soon);
        let (lost, given_up) = next_lost(self.lost, seen.lost, seen.now, seen.stopping);
        let (nearly, nearly_change) = next_nearly(self.nearly, seen.room, seen.blocks);
        let (behind, behind_change) = next_behind(self.behind, seen.behind);
        let (waited, waited_change) = next_waited(
            self.waited,
            seen.waited,
            seen.now,
            seen.stopping,
        );
        let (unusable, unusable_change) = next_unusable(self.unusable, seen.source, seen.unusable);
        let (making, making_change) = next_making(self.making, seen.store);
        let reported = Reported {
            soon: self.soon,
            source,
            store,
            lost,
            locked: seen.locked,
            nearly,
            behind,
            waited,
            unusable,
            making,
            disk: self.disk || seen.disk.is_some(),
        };
        let changes = Changes {
            source: source_change,
            store: store_change,
            given_up,
            locked: next_locked(self.locked, seen.locked),
            nearly: nearly_change,
            behind: behind_change,
            waited: waited_change,
            unusable: unusable_change,
            making: making_change,
            syncs: next_syncs(self.disk, seen.disk),
            slow: next_slow(self.disk, seen.disk),
        };
        (reported, changes)
    }
}

// Whether two states of a source are the same.
fn is_same(a: SourceSeen, b: SourceSeen) -> bool
    ensures { result ≡ same_source a b }
{
    a == b
}

// What is told of a source.
fn next_source(
    told: Option<SourceSeen>,
    seen: SourceSeen,
    is_early: bool,
) -> (Option<SourceSeen>, Option<Change>)
    ensures { result ≡ told_source told seen is_early }
{
    if let Some(known) = told {
        if is_same(known, seen) {
            return (told, None);
        }
    }
    match seen {
        SourceSeen::Missing => {
            if told.is_none() && is_early {
                return (None, None);
            }
            (Some(seen), Some(Change::SourceMissing))
        }
        SourceSeen::On => (Some(seen), Some(Change::SourceOn)),
        SourceSeen::Silent => (Some(seen), Some(Change::SourceSilent)),
        SourceSeen::Other | SourceSeen::Unusable => (Some(seen), None),
    }
}

// What is told of a store.
fn next_store(told: StoreSeen, seen: StoreSeen, is_early: bool) -> (StoreSeen, Option<Change>)
    ensures { result ≡ told_store told seen is_early }
{
    match (told, seen) {
        (_, StoreSeen::Unknown | StoreSeen::Making(_) | StoreSeen::Stopped) => (told, None),
        (StoreSeen::Open, StoreSeen::Open) => (told, None),
        (_, StoreSeen::Open) => (seen, Some(Change::StoreOpen)),
        (StoreSeen::Absent(why), StoreSeen::Absent(cause)) if why == cause => (told, None),
        (_, StoreSeen::Absent(cause)) => {
            if cause == NOT_THERE_YET && is_early {
                return (told, None);
            }
            (seen, Some(Change::StoreAbsent(cause)))
        }
    }
}

// What is told of frames that were lost: at most once a second, but always at the end.
fn next_lost(told: LostTold, lost: u64, now: u64, stopping: bool) -> (LostTold, Option<Change>)
    ensures { result ≡ told_lost told lost now stopping }
{
    if lost <= told.frames {
        return (LostTold { since: now, ..told }, None);
    }
    if now < told.again && !stopping {
        return (told, None);
    }
    let (frames, since) = (lost - told.frames, told.since);
    let next = LostTold {
        frames: lost,
        since: now,
        again: now.saturating_add(GIVEN_UP_AGAIN),
    };
    (next, Some(Change::GivenUp { frames, since }))
}

// Each block is locked, or not any more.
fn next_locked(told: bool, locked: bool) -> Option<Change>
    ensures { result ≡ told_locked told locked }
{
    match (told, locked) {
        (false, true) => Some(Change::AllLocked),
        (true, false) => Some(Change::RoomAgain),
        _ => None,
    }
}

// Four of five blocks are locked: told once, and again only after fewer than seven of ten were.
fn next_nearly(told: bool, room: u64, blocks: u64) -> (bool, Option<Change>)
    ensures { result ≡ told_nearly told room blocks }
{
    if blocks == 0 {
        return (told, None);
    }
    let (room, blocks) = (u128::from(room), u128::from(blocks));
    if !told && room * 5 <= blocks {
        return (true, Some(Change::NearlyAllLocked));
    }
    (told && room * 10 <= blocks * 3, None)
}

// The disk has fallen behind, twice as far as was told, or has caught up.
fn next_behind(told: u64, behind: u64) -> (u64, Option<Change>)
    ensures { result ≡ told_behind told behind }
{
    if told == 0 {
        if behind > BEHIND {
            return (behind, Some(Change::Behind(behind)));
        }
        return (0, None);
    }
    if behind < CAUGHT_UP {
        return (0, Some(Change::CaughtUp));
    }
    if behind / 2 >= told {
        return (behind, Some(Change::Behind(behind)));
    }
    (told, None)
}

// A wait for memory goes on: it is told each time that it has become twice as long.
fn wait_goes_on(told: WaitTold, since: u64, now: u64) -> (WaitTold, Option<Change>)
    ensures { result ≡ wait_goes_on told since now }
{
    let micros = now.saturating_sub(since);
    if micros >= LONG_WAIT && micros / 2 >= told.told {
        let next = WaitTold {
            since: Some(since),
            last: now,
            told: micros,
        };
        return (next, Some(Change::Waited { micros, since }));
    }
    let next = WaitTold {
        since: Some(since),
        last: now,
        told: told.told,
    };
    (next, None)
}

// A wait for memory is over.
fn is_over(told: WaitTold, since: u64) -> (WaitTold, Option<Change>)
    ensures { result ≡ wait_is_over told since }
{
    let micros = told.last.saturating_sub(since);
    let over = WaitTold {
        since: None,
        last: told.last,
        told: 0,
    };
    if micros >= SHORT_WAIT && micros > told.told {
        return (over, Some(Change::Waited { micros, since }));
    }
    (over, None)
}

// The source has had to wait for memory: told while it lasts, and once it is over.
fn next_waited(
    told: WaitTold,
    waited: Option<u64>,
    now: u64,
    stopping: bool,
) -> (WaitTold, Option<Change>)
    ensures { result ≡ told_waited told waited now stopping }
{
    if let Some(waits) = waited {
        return wait_goes_on(told, told.since.unwrap_or(waits), now);
    }
    let Some(since) = told.since else {
        return (told, None);
    };
    if now.saturating_sub(told.last) < NO_WAIT && !stopping {
        return (told, None);
    }
    is_over(told, since)
}

// No store can have the source's frames: told for each other cause, and again once they could be had meanwhile.
fn next_unusable(told: Option<u32>, source: SourceSeen, why: u32) -> (Option<u32>, Option<Change>)
    ensures { result ≡ told_unusable told source why }
{
    match (source, told) {
        (SourceSeen::Unusable, Some(known)) if known == why => (told, None),
        (SourceSeen::Unusable, _) => (Some(why), Some(Change::SourceUnusable(why))),
        (SourceSeen::Missing, _) => (told, None),
        (SourceSeen::On | SourceSeen::Silent | SourceSeen::Other, _) => (None, None),
    }
}

// A store is being made: told for each further quarter.
fn next_making(told: Option<u32>, store: StoreSeen) -> (Option<u32>, Option<Change>)
    ensures { result ≡ told_making told store }
{
    let StoreSeen::Making(percent) = store else {
        return (None, None);
    };
    let quarter = percent / QUARTER;
    match told {
        Some(known) if known == quarter => (told, None),
        _ => (Some(quarter), Some(Change::Made(percent))),
    }
}

// How fast the disk is, once that is known.
fn next_syncs(told: bool, disk: Option<DiskSeen>) -> Option<Change>
    ensures { result ≡ told_syncs told disk }
{
    match disk {
        Some(disk) if !told => Some(Change::Syncs(disk.sync)),
        _ => None,
    }
}

// How many frames a second a disk takes at most.
fn frames_a_second(disk: DiskSeen) -> u64
    ensures { result ≡ disk_frames disk }
{
    u64::from(disk.group) * FLUSHED_A_SECOND / disk.sync.max(1)
}

// The disk is too slow for the source's rate.
fn next_slow(told: bool, disk: Option<DiskSeen>) -> Option<Change>
    ensures { result ≡ told_slow told disk }
{
    let disk = disk?;
    let frames = frames_a_second(disk);
    if told || frames.saturating_mul(u64::from(disk.rate_den)) >= u64::from(disk.rate_num) {
        return None;
    }
    Some(Change::TooSlow {
        micros: disk.sync,
        frames,
    })
}
