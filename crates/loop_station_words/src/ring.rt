// How the segments and slots of a store are chosen.
ghost use Rattle.std.specs.Prelude.{◌≡◌, ◌≤◌, ◌<◌, ◌↔◌, ◌+◌, ◌*◌, ◌-◌, ◌^◌, ℕ, IfSome, IsNone, min};
ghost use Rattle.loop_record.specs.Geometry.{divided_up};
ghost use Rattle.loop_station_words.specs.Rings.{IsLargestWithin, IsLeastFor, file_size, usual_for, usual_slots, usual_within};

// The most segments of a store.
const MAX_SEGMENTS: u64 = 64;

// The most slots of a segment.
const MAX_SLOTS: u64 = 256;

// The bytes before the first segment.
const HEAD: u64 = 2560;

// The bytes of a segment before its first slot.
const SEGMENT_HEAD: u64 = 512;

// The bytes of a slot before its frame.
const SLOT_HEAD: u64 = 32;

/// The size of a store's ring.
#[derive(Clone, Copy, Debug, PartialEq, Eq)]
pub struct RingSize {
    /// Its segments, 2 to 64.
    pub segments: u32,
    /// How many frames a segment has room for, 1 to 256.
    pub slots: u32,
}

/// The least ring that holds so many of the newest frames after each answered append while nothing is locked; a stop
/// within an append may leave one less. It has the usual slots a segment while 64 segments of these are enough, and
/// otherwise 64 segments. `None` where no ring holds so many: more than 16,129.
///
/// The usual slots are 64; 128 for frames of at most 65,536 bytes, and 256 for those of at most 16,384, where the ring
/// then has 16 segments or more.
pub fn ring_for(frames: u64, frame_bytes: u32) -> Option<RingSize>
    ensures least { IfSome result (IsLeastFor (usual_for frame_bytes frames) frames) }
    ensures none { IsNone result ↔ (16129 < frames) }
{
    least_ring(usual_for(frame_bytes, frames), frames)
}

// The usual slots where so many frames are to be held: those of which 15 segments don't hold them.
fn usual_for(frame_bytes: u32, frames: u64) -> u64
    ensures same { result ≡ usual_for frame_bytes frames }
    ensures some { (64 ≤ result) × (result ≤ 256) }
{
    usual_slots(frame_bytes, 14 * 256 + 1 < frames, 14 * 128 + 1 < frames)
}

// The usual slots, if a ring of 256 slots a segment has 16 segments or not, and one of 128.
fn usual_slots(frame_bytes: u32, with_256: bool, with_128: bool) -> u64
    ensures same { result ≡ usual_slots frame_bytes with_256 with_128 }
    ensures some { (64 ≤ result) × (result ≤ 256) }
{
    if frame_bytes <= 16384 && with_256 {
        256
    } else if frame_bytes <= 65536 && with_128 {
        128
    } else {
        64
    }
}

// The least ring that holds so many frames, with these usual slots.
fn least_ring(usual: u64, frames: u64) -> Option<RingSize>
    requires { (1 ≤ usual) × (usual ≤ 256) }
    ensures least { IfSome result (IsLeastFor usual frames) }
    ensures none { IsNone result ↔ (16129 < frames) }
{
    let before = frames.saturating_sub(1);
    let segments = before.div_ceil(usual) + 1;
    if segments <= MAX_SEGMENTS {
        return Some(ring(segments.max(2), usual));
    }
    let slots = before.div_ceil(MAX_SEGMENTS - 1);
    if slots > MAX_SLOTS {
        return None;
    }
    Some(ring(MAX_SEGMENTS, slots))
}

// The ring with these numbers.
fn ring(segments: u64, slots: u64) -> RingSize
    requires segments { segments ≤ 64 }
    requires slots { slots ≤ 256 }
    ensures { result ≡ record { segments = segments; slots = slots } }
{
    RingSize {
        segments: segments as u32,
        slots: slots as u32,
    }
}

/// The largest ring whose store has at most so many bytes, for frames of `frame_bytes`. It has two segments while fewer
/// than the usual slots fit into each, then the usual slots a segment, and more slots only with 64 segments. The usual
/// slots are those of `ring_for`. `None` where not even two segments of one slot fit.
pub fn ring_within(frame_bytes: u32, bytes: u64) -> Option<RingSize>
    ensures largest { IfSome result (IsLargestWithin (usual_within frame_bytes bytes) frame_bytes bytes) }
    ensures none { IsNone result ↔ (bytes < file_size frame_bytes (record { segments = 2; slots = 1 })) }
{
    largest_ring(usual_within(frame_bytes, bytes), frame_bytes, bytes)
}

// The usual slots within so many bytes: those of which 16 segments fit.
fn usual_within(frame_bytes: u32, bytes: u64) -> u64
    ensures same { result ≡ usual_within frame_bytes bytes }
    ensures some { (64 ≤ result) × (result ≤ 256) }
{
    let slot = SLOT_HEAD + u64::from(frame_bytes);
    usual_slots(
        frame_bytes,
        HEAD + 16 * (SEGMENT_HEAD + 256 * slot) <= bytes,
        HEAD + 16 * (SEGMENT_HEAD + 128 * slot) <= bytes,
    )
}

// The largest ring within so many bytes, with these usual slots.
fn largest_ring(usual: u64, frame_bytes: u32, bytes: u64) -> Option<RingSize>
    requires { (1 ≤ usual) × (usual ≤ 256) }
    ensures largest { IfSome result (IsLargestWithin usual frame_bytes bytes) }
    ensures none { IsNone result ↔ (bytes < file_size frame_bytes (record { segments = 2; slots = 1 })) }
{
    let slot = SLOT_HEAD + u64::from(frame_bytes);
    let room = bytes.saturating_sub(HEAD);
    let segments = fitting(room, SEGMENT_HEAD + usual * slot, MAX_SEGMENTS);
    if segments == MAX_SEGMENTS {
        return Some(ring(segments, slots_within(room, segments, slot)));
    }
    if segments >= 2 {
        return Some(ring(segments, usual));
    }
    let slots = slots_within(room, 2, slot);
    if slots == 0 {
        return None;
    }
    Some(ring(2, slots))
}

/// How many slots each of so many segments may have in so much room, at most 256; 0 where not even one fits.
pub(crate) fn slots_within(room: u64, segments: u64, slot: u64) -> u64
    requires segments { (2 ≤ segments) × (segments ≤ 64) }
    requires slot { (1 ≤ slot) × (slot < 2 ^ 33) }
    ensures few { result ≤ 256 }
    ensures fits { 1 ≤ result → segments * (512 + result * slot) ≤ room }
    ensures most { (n : ℕ) → n ≤ 256 → segments * (512 + n * slot) ≤ room → n ≤ result }
{
    fitting(
        (room / segments).saturating_sub(SEGMENT_HEAD),
        slot,
        MAX_SLOTS,
    )
}

/// How many things of a size fit into so much room, `most` at most.
pub(crate) fn fitting(room: u64, size: u64, most: u64) -> u64
    requires { 1 ≤ size }
    ensures few { result ≤ most }
    ensures fits { result * size ≤ room }
    ensures most { (n : ℕ) → n ≤ most → n * size ≤ room → n ≤ result }
{
    let fit = room / size;
    if fit < most { fit } else { most }
}

/// How many frames come in so many seconds, at `rate_num` frames in `rate_den` seconds: rounded up, and at most the
/// greatest u64.
pub fn frames_in(seconds: u64, rate_num: u32, rate_den: u32) -> u64
    requires { 1 ≤ rate_den }
    ensures { result ≡ min (divided_up (seconds * rate_num) rate_den) (2 ^ 64 - 1) }
{
    let all = u128::from(seconds) * u128::from(rate_num);
    let den = u128::from(rate_den);
    let frames = (all + (den - 1)) / den;
    u64::try_from(frames).unwrap_or(u64::MAX)
}
