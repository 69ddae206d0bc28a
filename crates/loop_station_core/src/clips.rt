//! Which clips may be released, and how many keeps have room.

ghost use Rattle.std.specs.Prelude.{◌≡◌};
ghost use Rattle.loop_station_core.specs.Clips.{keeps_in, may_release, may_release_saved};

use crate::leave::{MayUnlock, ShownClip};
use crate::saves::SaveKey;

/// Whether a clip may be released.
#[derive(Drop)]
pub enum MayRelease {
    /// It may, now.
    Now(MayUnlock),
    /// A save reads it.
    Saving,
    /// The clip of its id doesn't begin with this frame.
    Other(u64),
    /// No clip has its id.
    NoClip,
}

/// Whether a clip may be released by an order; `is_read`: a save reads it; `asked`: the frame with which it has to
/// begin, if the order says so; `there`: the clip that has its id, if one has.
pub fn may_release(is_read: bool, asked: Option<u64>, there: Option<ShownClip>) -> MayRelease
    ensures { result ≡ may_release is_read asked there }
{
    if is_read {
        return MayRelease::Saving;
    }
    match (asked, there) {
        (None, None) => MayRelease::NoClip,
        (None, Some(clip)) => MayRelease::Now(MayUnlock::of(clip)),
        (Some(asked), Some(clip)) if asked == clip.from => MayRelease::Now(MayUnlock::of(clip)),
        (Some(asked), _) => MayRelease::Other(asked),
    }
}

/// Whether a clip is released now that is saved (`Ended`); `there`: the clip that has its id by now, if one has;
/// `is_read`: a save reads that one.
pub fn may_release_saved(is_read: bool, saved: SaveKey, there: Option<SaveKey>) -> MayRelease
    ensures { result ≡ may_release_saved is_read saved there }
{
    match there {
        Some(clip) if saved.is_same(&clip) => may_release(is_read, None, Some(clip.shown())),
        _ => MayRelease::Other(saved.first),
    }
}

/// How many keeps of so many frames have room where so many blocks may still be locked. A block has so many frames. A
/// keep takes one block more than its frames fill, since it may begin within one.
pub fn keeps_in(blocks: u64, frames: u64, slots: u64) -> u64
    ensures { result ≡ keeps_in blocks frames slots }
{
    let filled = frames.div_ceil(slots.max(1));
    blocks / filled.saturating_add(1)
}
