//! What a camera's several stores are together: their clips' ids and what they hold.

ghost use Rattle.std.specs.Prelude.{◌≡◌, ◌≤◌, ◌<◌, ◌+◌, ◌*◌, ◌-◌, ◌/◌, ◌%◌, ◌^◌, min};
ghost use Rattle.loop_station_core.specs.Sets.{clip_id, frames_held_since, store_of};

// How many clips a store has at most.
const CLIPS: u32 = 64;

/// The id by which users know a clip of one of a camera's stores, which has a number below 256 and the id below 64
/// there. With numbers that are too large for that it is the greatest id.
pub fn clip_id(store: u32, id: u32) -> u32
    ensures { result ≡ min (clip_id store id) (2 ^ 32 - 1) }
{
    store.saturating_mul(CLIPS).saturating_add(id)
}

/// The number of the store, and the id there, of the clip that users know by this id.
pub fn id_parts(id: u32) -> (u32, u32)
    ensures whole { clip_id result.0 result.1 ≡ id }
    ensures own { result.1 < 64 }
{
    (id / CLIPS, id % CLIPS)
}

// The number of the store of the clip that users know by this id.
pub(crate) fn store_of(id: u32) -> u32
    ensures { result ≡ store_of id }
{
    id / CLIPS
}

/// How many frames a store holds. It had `held` when its next number was `began`; now that is `next`.
pub fn held_after(segments: u32, slots: u32, held: u64, began: u64, next: u64) -> u64
    ensures { 1 ≤ slots → began + held < 2 ^ 62 → next < 2 ^ 62
        → result ≡ frames_held_since segments slots held began next }
{
    let slots = u64::from(slots.max(1));
    let newest = next.saturating_add(slots - 1) % slots + 1;
    let most = u64::from(segments.saturating_sub(1)) * slots + newest;
    most.min(next.saturating_sub(began).saturating_add(held))
}
