//! The frames of a save, which the thread of the desks reads for it.

ghost use Rattle.std.specs.Prelude.{◌≡◌, IfOk};
ghost use Rattle.loop_station_core.specs.Sets.{store_of};
ghost use Rattle.loop_station_camera.specs.Saves.{IsFrameOf};

use crate::answered::Answered;
use crate::state::CameraState;
use loop_station_outside::NotSaved;
use loop_station_shared::{FoundClip, store_of};
use std::sync::Wait;

/// Reads a frame of a clip.
pub(super) fn read_one<R: Wait>(
    rt: &R,
    state: &CameraState,
    found: &FoundClip,
    number: u64,
) -> Result<Answered, NotSaved>
    ensures { IfOk result (IsFrameOf found.now number) }
{
    let frame = read_at(rt, state, found.clip.id, number)?;
    if found.fits(number, frame.head().timestamp) {
        Ok(frame)
    } else {
        Err(NotSaved::NoSuchClip)
    }
}

// Reads a frame of the store that has the clip of an id.
fn read_at<R: Wait>(rt: &R, state: &CameraState, id: u32, number: u64) -> Result<Answered, NotSaved>
    ensures { IfOk result (λ a. (a.store ≡ store_of id) × (a.number ≡ number)) }
{
    let store = store_of(id);
    state.ask_frame(rt, store, number);
    match state.reader.answer(rt) {
        Some(Ok(Ok(frame))) => asked_for(frame, store, number),
        Some(Ok(Err(fault))) => Err(NotSaved::Refused(fault)),
        Some(Err(why)) => Err(NotSaved::Absent(why)),
        None => Err(NotSaved::NoMemory),
    }
}

// The frame that came, if it is that of a store for a number: nothing is known of what comes through the inbox.
fn asked_for(frame: Answered, store: u32, number: u64) -> Result<Answered, NotSaved>
    ensures { IfOk result (λ a. (a ≡ frame) × (a.store ≡ store) × (a.number ≡ number)) }
{
    if frame.is_of(store, number) {
        Ok(frame)
    } else {
        Err(NotSaved::NoSuchClip)
    }
}

/// When a frame came of the store that has the clip of an id.
pub(super) fn time_at<R: Wait>(
    rt: &R,
    state: &CameraState,
    id: u32,
    number: u64,
) -> Result<u64, NotSaved> {
    Ok(read_at(rt, state, id, number)?.head().timestamp)
}
