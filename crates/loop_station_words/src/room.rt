// How many and how large a camera's stores have to be by what the configuration says of it, how much of a store is
// free, and how many frames may wait before it.
ghost use Rattle.std.specs.Prelude.{◌≡◌, ◌≤◌, ◌<◌, ◌+◌, ◌*◌, IsTrue, Some, None, if◌then◌else◌};
ghost use Rattle.loop_record.specs.Geometry.{frame_bytes, is_good};
ghost use Rattle.loop_station_words.specs.Rooms.{AreAsked, HoldsLess, IsAskedCount, IsAskedSet, duration_of, frames_before, frames_in_seconds, free_blocks, held_frames, locked_below, lowest_in, lowest_met, most_tenths, nearer, newest_block, ring_size_of, size_in};

use crate::choices::{MemoryLimit, StoreSize};
use crate::ring::{RingSize, frames_in};
use crate::sets::{MAX_STORES, SetSize, set_for, set_within, stores_for, stores_within};
use loop_record::Geometry;
use loop_store::Clip;

// How many frames 256 of the largest stores always hold.
const MOST_FRAMES: u64 = 4_194_049;

// How many frames may wait for the disk where the configuration doesn't say: those of so many seconds,
const SECONDS: u64 = 4;

// but so many bytes at most.
const MOST_BYTES: u64 = 256_000_000;

// The most frames that may wait, whatever the configuration says: their places alone take 50 bytes each.
const MOST_WAITING: u64 = 1_000_000;

/// Why no stores are as large as the configuration asks.
#[derive(Clone, Copy, Debug, PartialEq, Eq)]
pub enum NoRing {
    /// No 256 stores hold as many frames as come in its hours or minutes. So many tenths of a minute fit.
    TooManyFrames(u64),
    /// Its bytes are too few for two blocks of a frame.
    TooFewBytes,
    /// No store may have such frames.
    BadFrames,
}

/// The bytes of a frame of a geometry; `None` where no store may have that geometry.
pub fn size_of(geometry: &Geometry) -> Option<u32>
    ensures { result ≡ (if is_good geometry.now then Some (frame_bytes geometry.now) else None) }
{
    match geometry.check() {
        Ok(()) => Some(geometry.frame_bytes()),
        Err(_) => None,
    }
}

/// The stores that have room for as much as the configuration asks, of frames like these. The geometry's own ring means
/// nothing, but has to be one that a store may have.
pub fn asked_set(frames: &Geometry, room: StoreSize) -> Result<SetSize, NoRing>
    ensures { IsAskedSet frames.now room result }
{
    match room {
        StoreSize::Seconds(seconds) => match set_for(
            frames_in_seconds(frames, seconds),
            size_in(frames),
        ) {
            Some(set) => Ok(set),
            None => Err(NoRing::TooManyFrames(most_tenths(frames))),
        },
        StoreSize::Bytes(bytes) => {
            let Some(size) = size_of(frames) else {
                return Err(NoRing::BadFrames);
            };
            match set_within(size, bytes) {
                Some(set) => Ok(set),
                None => Err(NoRing::TooFewBytes),
            }
        }
    }
}

/// How many stores like this one have room for as much as the configuration asks; 256 where they have too little.
pub fn asked_stores(store: &Geometry, room: StoreSize) -> u32
    ensures { IsTrue (is_good store.now) → IsAskedCount store.now room result }
{
    let Some(size) = size_of(store) else {
        return 1;
    };
    let ring = ring_size_of(store);
    match room {
        StoreSize::Seconds(seconds) => {
            stores_for(frames_in_seconds(store, seconds), ring).unwrap_or(MAX_STORES)
        }
        StoreSize::Bytes(bytes) => stores_within(size, bytes, ring),
    }
}

// The bytes of a frame; 0 where no store may have that geometry.
fn size_in(frames: &Geometry) -> u32
    ensures { result ≡ size_in frames.now }
{
    size_of(frames).unwrap_or(0)
}

// The ring of a store.
fn ring_size_of(store: &Geometry) -> RingSize
    ensures { result ≡ ring_size_of store.now }
{
    RingSize {
        segments: store.segments,
        slots: store.slots,
    }
}

// How many of these frames come in so many seconds.
fn frames_in_seconds(frames: &Geometry, seconds: u64) -> u64
    ensures { result ≡ frames_in_seconds frames.now seconds }
{
    frames_in(seconds, frames.rate_num, frames.rate_den.max(1))
}

// How many tenths of a minute of these frames fit into the most stores.
fn most_tenths(frames: &Geometry) -> u64
    ensures value { result ≡ most_tenths frames.now }
    ensures fits { 1 ≤ frames.now.rate_den → frames_in_seconds frames.now (6 * result) ≤ 4194049 }
    ensures most { 1 ≤ frames.now.rate_num → 1 ≤ frames.now.rate_den
        → 4194049 < frames_in_seconds frames.now (6 * (result + 1)) }
{
    MOST_FRAMES * u64::from(frames.rate_den) / (6 * u64::from(frames.rate_num.max(1)))
}

/// How many microseconds so many stores like this one always hold, and how many the configuration asks for, where that
/// is more.
pub fn held_of_asked(store: &Geometry, stores: u32, room: StoreSize) -> Option<(u64, u64)>
    ensures { HoldsLess store.now stores room result }
{
    let held = held_frames(stores, ring_size_of(store));
    let asked = asked_frames(store, room);
    if asked <= held {
        return None;
    }
    let asked = match room {
        StoreSize::Seconds(seconds) => seconds.saturating_mul(1_000_000),
        StoreSize::Bytes(_) => duration_of(asked, store),
    };
    Some((duration_of(held, store), asked))
}

// How many frames like a store's the configuration asks stores to hold; 0 where none are as it asks.
fn asked_frames(store: &Geometry, room: StoreSize) -> u64
    ensures { AreAsked store.now room result }
{
    match room {
        StoreSize::Seconds(seconds) => frames_in_seconds(store, seconds),
        StoreSize::Bytes(_) => match asked_set(store, room) {
            Ok(set) => held_frames(set.stores, set.ring),
            Err(_) => 0,
        },
    }
}

// How many frames so many stores of a ring always hold, at most the greatest u64.
fn held_frames(stores: u32, ring: RingSize) -> u64
    ensures { result ≡ held_frames stores ring }
{
    (u64::from(stores) * u64::from(ring.segments))
        .saturating_sub(1)
        .saturating_mul(u64::from(ring.slots))
        .saturating_add(1)
}

/// How many microseconds so many frames of a geometry last, at most the greatest u64.
pub fn duration_of(frames: u64, geometry: &Geometry) -> u64
    ensures { result ≡ duration_of frames geometry.now }
{
    let micros = u128::from(frames) * 1_000_000 * u128::from(geometry.rate_den)
        / u128::from(geometry.rate_num.max(1));
    u64::try_from(micros).unwrap_or(u64::MAX)
}

/// How many frames of a geometry may wait in memory for the disk; `memory`: what the configuration says of that.
pub fn frames_before(memory: Option<MemoryLimit>, geometry: &Geometry) -> usize
    ensures { result ≡ frames_before memory geometry.now }
{
    let Some(size) = size_of(geometry) else {
        return 0;
    };
    let size = u64::from(size.max(1));
    let frames = match memory {
        Some(MemoryLimit::Seconds(seconds)) => frames_in_seconds(geometry, seconds),
        Some(MemoryLimit::Bytes(bytes)) => bytes / size,
        None => frames_in_seconds(geometry, SECONDS).min(MOST_BYTES / size),
    };
    frames.min(MOST_WAITING) as usize
}

/// The number of a store's newest block, where its next frame has this number.
pub fn newest_block(store: &Geometry, next: u64) -> u64
    ensures { result ≡ newest_block store.now next }
{
    next.saturating_sub(1) / u64::from(store.slots.max(1))
}

/// How many blocks of a store may still be locked: all blocks of its ring but the newest one and the older ones that
/// clips meet. `next`: the number of its next frame.
pub fn free_blocks(store: &Geometry, next: u64, clips: &[Clip]) -> u64
    ensures { result ≡ free_blocks store.now next clips.now }
{
    let slots = u64::from(store.slots.max(1));
    let locked = locked_below(clips, slots, newest_block(store, next));
    u64::from(store.segments)
        .saturating_sub(1)
        .saturating_sub(locked)
}

// How many of the first blocks clips meet.
fn locked_below(clips: &[Clip], slots: u64, end: u64) -> u64
    requires { 1 ≤ slots }
    ensures { result ≡ locked_below slots clips.now end }
{
    let (mut locked, mut counted) = (0u64, 0u64);
    'blocks: while counted < end {
        match lowest_met(clips, slots, counted) {
            Some(block) if block < end => {
                locked = locked + 1;
                counted = block + 1;
            }
            _ => return locked,
        }
    }
    locked
}

// The lowest block from one on that a clip meets.
fn lowest_met(clips: &[Clip], slots: u64, from: u64) -> Option<u64>
    requires { 1 ≤ slots }
    ensures { result ≡ lowest_met slots from clips.now }
{
    let mut lowest = None;
    'clips: for clip in clips {
        lowest = nearer(lowest, lowest_in(clip, slots, from));
    }
    lowest
}

// The lowest block from one on that a clip meets.
fn lowest_in(clip: &Clip, slots: u64, from: u64) -> Option<u64>
    requires { 1 ≤ slots }
    ensures { result ≡ lowest_in slots from clip.now }
{
    let block = (clip.from / slots).max(from);
    if block <= clip.to / slots {
        Some(block)
    } else {
        None
    }
}

// The lower of two blocks, if they are there.
fn nearer(one: Option<u64>, other: Option<u64>) -> Option<u64>
    ensures { result ≡ nearer one other }
{
    match (one, other) {
        (Some(one), Some(other)) => Some(one.min(other)),
        (None, _) => other,
        (_, None) => one,
    }
}
