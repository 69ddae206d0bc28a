// Cameras whose frames are recorded into stores in files, each by threads of its own.
ghost use Rattle.std.specs.Prelude.{◌≡◌, ◌<◌, ◌≤◌, [], All, IfOk, Some, false, map, vec_len};
ghost use Rattle.std.specs.List.{zip};
ghost use Rattle.std.specs.Vec.{vec_capacity};
ghost use Rattle.loop_script.specs.Pattern.{timestamp_of};
ghost use Rattle.loop_commands.specs.Recorded.{AreRecorded, IsCameraOf, IsRecordingShot, source_and_store, take_of, taken_of};

use crate::source::RecordSource;
use loop_capture::Device;
use loop_desk::Desk;
use loop_disk::Disk;
use loop_file::FileDisk;
use loop_pages::PageFault;
use loop_pipeline::{
    Camera, CameraEnd, Guide, Noting, Outcome, Reports, Shot, Visits, film_all, mapped_start,
    new_queue, start_queue,
};
use loop_plane::{MmapPlane, PlaneMemory};
use loop_record::Geometry;
use loop_script::{LIMITS, pattern_timestamp};
use loop_store::{Store, StoreFault};
use std::alloc::{AllocError, Global};
use std::sync::Wait;
use std::thread::Threads;
use std::time::Clock;

/// Why nothing was recorded, or not all.
#[derive(Clone, Copy, Debug, PartialEq, Eq)]
pub enum Unrecorded {
    /// The buffers of the camera of this number need more pages than a ledger has.
    TooLarge(u32),
    /// A store must be reopened, or memory or a thread was refused.
    Refused(StoreFault),
}

// Memory or a thread was refused.
const NO_MEMORY: Unrecorded = Unrecorded::Refused(StoreFault::NoMemory);

impl From<AllocError> for Unrecorded {
    fn from(_: AllocError) -> Self {
        NO_MEMORY
    }
}

/// What a camera recorded, and which frames were lost.
#[derive(Clone, Copy)]
pub(crate) struct Take {
    /// The number of its store's next frame.
    pub next: u64,
    /// Frames that the desk accepted, and that aren't stored: no flush was made any more.
    pub waiting: u64,
    /// Frames that the desk refused, or that were given up before they came to it.
    pub given_up: u64,
    /// Frames that came from the camera, and that nobody brought to the desk.
    pub left: u64,
    /// Frames for which no buffer was there.
    pub missed: u64,
    /// Frames that couldn't be got from the source.
    pub failed: u64,
}

impl Take {
    // What a camera recorded that was filmed.
    fn of(ended: &RecordEnded) -> Take
        ensures { result ≡ take_of ended.now }
    {
        let status = ended.desk.status();
        Take {
            next: status.next,
            waiting: u64::from(status.pending),
            given_up: ended.given_up,
            left: ended.left,
            missed: ended.missed,
            failed: ended.failed,
        }
    }

    /// Whether a frame was lost.
    pub fn has_lost(&self) -> bool {
        let on_the_way = self.given_up > 0 || self.left > 0;
        self.waiting > 0 || on_the_way || self.missed > 0 || self.failed > 0
    }
}

// A camera with a source to record from and a store in a file.
type RecordCamera = Camera<RecordSource, FileDisk, MmapPlane, Post>;

// What is left of it.
type RecordEnded = CameraEnd<RecordSource, FileDisk, MmapPlane, Post>;

// A camera with its guide.
type RecordShot = Shot<RecordSource, FileDisk, MmapPlane, Post>;

// What came of it.
type RecordOutcome = Outcome<RecordSource, FileDisk, MmapPlane, Post>;

// What guides a camera: so many ticks at the rate of its store, and no flush after one that was refused.
#[derive(Drop)]
struct Post {
    frames: u32,
    geometry: Geometry,
}

// The time of tick `n` of a camera, in microseconds, at the rate of its store.
fn tick_time(n: u64, geometry: &Geometry) -> u64
    ensures { 0 < geometry.now.rate_num
        → result ≡ timestamp_of n geometry.now.rate_num geometry.now.rate_den }
{
    if geometry.rate_num == 0 {
        return 0;
    }
    pattern_timestamp(n, geometry.rate_num, geometry.rate_den)
}

/// No call of a recording's desk is noted.
impl Noting for Post {
    ghost NOTED = { false };

    const NOTED: bool = false;
}

/// Nobody visits the desk of a recording: it makes no call but submits and flushes.
impl Visits for Post {
    ghost use Rattle.loop_commands.specs.Recorded.{AsksNothing};

    ghost asks = { AsksNothing };

    const VISITED: bool = false;
}

impl Reports for Post {
    fn flushes_again<R: Wait>(&self, _rt: &R, _fault: StoreFault) -> bool {
        false
    }
}

impl Guide for Post {
    ghost use Rattle.loop_commands.specs.Recorded.{IsPeriod, MayEnd};

    ghost due = { λ post n now. IsPeriod post.geometry n now };

    ghost ends = { λ post n. MayEnd post.frames n };

    fn next_tick<R: Wait + Clock>(&self, _rt: &R, n: u64) -> Option<u64> {
        if n >= u64::from(self.frames) {
            return None;
        }
        Some(tick_time(n, &self.geometry))
    }
}

// The camera of this number. Its queue streams: four buffers of mapped memory, from pages of its own.
fn camera_before(
    alloc: Global,
    number: u32,
    source: RecordSource,
    store: Store<FileDisk>,
) -> Result<RecordCamera, Unrecorded>
    ensures { IfOk result (IsCameraOf ⟦<MmapPlane as PlaneMemory>⟧.plane source store) }
{
    if store.must_reopen() {
        return Err(Unrecorded::Refused(StoreFault::MustReopen));
    }
    let geometry = store.geometry();
    let Ok(desk) = Desk::new(alloc, store, LIMITS) else {
        return Err(NO_MEMORY);
    };
    let (mut queue, mut table) = new_queue(alloc, &geometry);
    let start = match mapped_start(alloc, &queue) {
        Ok(start) => start,
        Err(PageFault::BadCount | PageFault::NoPages) => return Err(Unrecorded::TooLarge(number)),
        Err(PageFault::NoMemory) => return Err(NO_MEMORY),
    };
    start_queue(&mut queue, &mut table, start)?;
    match Device::new(alloc, source, geometry.frame_bytes()) {
        Ok(device) => Ok(Camera::new(device, queue, table, desk)),
        Err(_) => Err(NO_MEMORY),
    }
}

// The camera of this number, with a guide by which it makes so many ticks.
fn shot_before(
    alloc: Global,
    number: u32,
    source: RecordSource,
    store: Store<FileDisk>,
    frames: u32,
) -> Result<RecordShot, Unrecorded>
    ensures held { IfOk result (λ shot. source_and_store shot ≡ (source, store)) }
    ensures ready { IfOk result (IsRecordingShot ⟦<MmapPlane as PlaneMemory>⟧.plane frames) }
{
    let geometry = store.geometry();
    let camera = camera_before(alloc, number, source, store)?;
    let guide = Post { frames, geometry };
    Ok(Shot { guide, camera })
}

// A camera for each source and the store at its place. They are numbered in their order, from 0.
fn shots_of(
    alloc: Global,
    sources: Vec<RecordSource>,
    stores: Vec<Store<FileDisk>>,
    frames: u32,
) -> Result<Vec<RecordShot>, Unrecorded>
    ensures held { IfOk result (λ shots. map source_and_store shots.items ≡ zip sources.items stores.items) }
    ensures ready { IfOk result (λ shots.
        All (IsRecordingShot ⟦<MmapPlane as PlaneMemory>⟧.plane frames) shots.items) }
{
    let mut shots = Vec::with_capacity(alloc, stores.len())?;
    let mut number = 0u32;
    for (source, store) in sources.into_iter().zip(stores) {
        shots.push_reserved(shot_before(alloc, number, source, store, frames)?);
        number = number.saturating_add(1);
    }
    Ok(shots)
}

// What each camera recorded, in `takes`, which is empty; NoMemory where one wasn't filmed.
fn takes_of(outcomes: Vec<RecordOutcome>, mut takes: Vec<Take>) -> Result<Vec<Take>, Unrecorded>
    requires room { (takes.items ≡ []) × (vec_len outcomes ≤ vec_capacity takes) }
    ensures told { IfOk result (λ told. map (λ take. Some take) told.items ≡ map taken_of outcomes.items) }
{
    for outcome in outcomes {
        let Outcome { shot: _, filmed } = outcome;
        match filmed {
            Ok(ended) => takes.push_reserved(Take::of(&ended)),
            Err(_) => return Err(NO_MEMORY),
        }
    }
    Ok(takes)
}

/// Records from each source into the store at its place, for so many frame periods or until the source has ended, at
/// the script's limits. Returns what each camera recorded: each frame that came is stored or counted there, and no clip
/// is unlocked.
///
/// `TooLarge` where the buffers of a camera need more than 1,024 pages; `NoMemory` where memory or a thread is refused.
/// Then nothing is recorded: no camera ticks before each has begun. What a store refuses is counted by its camera, and
/// doesn't refuse the recording.
pub(crate) fn record_stores<R: Threads + Wait + Clock + Sync>(
    rt: &R,
    alloc: Global,
    sources: Vec<RecordSource>,
    stores: Vec<Store<FileDisk>>,
    frames: u32,
) -> Result<Vec<Take>, Unrecorded>
    ensures { IfOk result (λ takes. AreRecorded ⟦<FileDisk as Disk>⟧.medium ⟦<MmapPlane as PlaneMemory>⟧.plane
        frames sources.items stores.items takes.items) }
{
    let shots = shots_of(alloc, sources, stores, frames)?;
    // Reserved before anything is recorded.
    let takes = Vec::with_capacity(alloc, shots.len())?;
    match film_all(rt, alloc, shots) {
        Ok(outcomes) => takes_of(outcomes, takes),
        Err(_) => Err(NO_MEMORY),
    }
}
