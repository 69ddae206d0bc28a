// How many stores a camera has. One store holds 16,129 frames for certain; a camera of which more is asked has several,
// all with one ring, which are recorded into as one long ring.
ghost use Rattle.std.specs.Prelude.{◌≡◌, ◌≤◌, ◌<◌, ◌↔◌, ◌+◌, ◌*◌, ◌-◌, ◌^◌, ℕ, IfSome, IsNone};
ghost use Rattle.loop_station_words.specs.Rings.{IsRing, file_size};
ghost use Rattle.loop_station_words.specs.Sets.{IsLeastCount, IsLeastSetFor, IsSetWithin, IsStoreCount, held_by, long_ring};

use crate::ring::{RingSize, fitting, ring_for, ring_within, slots_within};

/// The most stores of a camera.
pub const MAX_STORES: u32 = 256;

// The largest ring of one store.
const LARGEST: RingSize = RingSize {
    segments: 64,
    slots: 256,
};

// The bytes of a store before its first segment, of a segment before its first slot, and of a slot before its frame.
const HEAD: u64 = 2560;

const SEGMENT_HEAD: u64 = 512;

const SLOT_HEAD: u64 = 32;

/// Several stores, each with a file of its own.
#[derive(Clone, Copy, Debug, PartialEq, Eq)]
pub struct SetSize {
    /// How many there are, 1 to 256.
    pub stores: u32,
    /// The ring of each.
    pub ring: RingSize,
}

/// The least number of stores of a ring that hold so many of the newest frames after each answered append while nothing
/// is locked; a stop within an append may leave one less. `None` where that is more than 256.
pub fn stores_for(frames: u64, ring: RingSize) -> Option<u32>
    requires { IsRing ring }
    ensures least { IfSome result (IsLeastCount frames ring) }
    ensures none { IsNone result ↔ (held_by 256 ring < frames) }
{
    let before = frames.saturating_sub(1);
    let blocks = before.div_ceil(u64::from(ring.slots)) + 1;
    let stores = blocks.div_ceil(u64::from(ring.segments));
    if stores > u64::from(MAX_STORES) {
        return None;
    }
    Some(stores as u32)
}

/// The stores that hold so many frames of `frame_bytes`, as `stores_for` has it. One store has the ring of `ring_for`;
/// of more there are as few as can be, of 64 segments and as few slots as can be. `None` where 256 stores don't hold so
/// many: more than 4,194,049.
pub fn set_for(frames: u64, frame_bytes: u32) -> Option<SetSize>
    ensures least { IfSome result (IsLeastSetFor frame_bytes frames) }
    ensures none { IsNone result ↔ (4194049 < frames) }
{
    if let Some(ring) = ring_for(frames, frame_bytes) {
        return Some(SetSize { stores: 1, ring });
    }
    let stores = stores_for(frames, LARGEST)?;
    Some(SetSize {
        stores,
        ring: least_ring(stores, frames),
    })
}

// The ring of 64 segments and the fewest slots of which so many stores hold so many frames.
fn least_ring(stores: u32, frames: u64) -> RingSize
    requires count { IsStoreCount stores }
    requires some { 2 ≤ frames }
    requires enough { frames ≤ held_by stores (long_ring 256) }
    ensures ring { IsRing result }
    ensures segments { result.segments ≡ 64 }
    ensures enough { frames ≤ held_by stores result }
    ensures least { (slots : ℕ) → frames ≤ held_by stores (long_ring slots) → result.slots ≤ slots }
{
    let blocks = u64::from(stores) * 64 - 1;
    RingSize {
        segments: 64,
        slots: (frames - 1).div_ceil(blocks) as u32,
    }
}

/// The stores whose files have at most so many bytes together, for frames of `frame_bytes`. Within the size of one
/// store it is the one of `ring_within`; beyond that there are as many stores as so many bytes need, 256 at most, of 64
/// segments and as many slots as fit. `None` where not even two segments of one slot fit.
pub fn set_within(frame_bytes: u32, bytes: u64) -> Option<SetSize>
    ensures within { IfSome result (IsSetWithin frame_bytes bytes) }
    ensures none { IsNone result ↔ (bytes < file_size frame_bytes (record { segments = 2; slots = 1 })) }
{
    let slot = SLOT_HEAD + u64::from(frame_bytes);
    let largest = HEAD + 64 * (SEGMENT_HEAD + 256 * slot);
    if bytes <= largest {
        let ring = ring_within(frame_bytes, bytes)?;
        return Some(SetSize { stores: 1, ring });
    }
    let stores = bytes.div_ceil(largest).min(u64::from(MAX_STORES));
    Some(SetSize {
        stores: stores as u32,
        ring: RingSize {
            segments: 64,
            slots: slots_each(stores, bytes, slot),
        },
    })
}

// How many slots each of the 64 segments of so many stores has, at most 256, where so many bytes are there.
fn slots_each(stores: u64, bytes: u64, slot: u64) -> u32
    requires count { (2 ≤ stores) × (stores ≤ 256) }
    requires slot { (32 ≤ slot) × (slot < 2 ^ 33) }
    requires room { (stores - 1) * (2560 + 64 * (512 + 256 * slot)) < bytes }
    ensures few { (1 ≤ result) × (result ≤ 256) }
    ensures fits { stores * (2560 + 64 * (512 + result * slot)) ≤ bytes }
    ensures most { (n : ℕ) → n ≤ 256 → stores * (2560 + 64 * (512 + n * slot)) ≤ bytes → n ≤ result }
{
    let each = fitting(bytes, stores, u64::MAX);
    slots_within(each.saturating_sub(HEAD), 64, slot) as u32
}

/// How many stores of a ring have files of at most so many bytes together, for frames of `frame_bytes`: 1 at least, and
/// 256 at most.
pub fn stores_within(frame_bytes: u32, bytes: u64, ring: RingSize) -> u32
    requires { IsRing ring }
    ensures count { IsStoreCount result }
    ensures fits { 2 ≤ result → result * file_size frame_bytes ring ≤ bytes }
    ensures most { (n : ℕ) → n ≤ 256 → n * file_size frame_bytes ring ≤ bytes → n ≤ result }
{
    let slot = SLOT_HEAD + u64::from(frame_bytes);
    let size = HEAD + u64::from(ring.segments) * (SEGMENT_HEAD + u64::from(ring.slots) * slot);
    fitting(bytes, size, u64::from(MAX_STORES)).max(1) as u32
}
