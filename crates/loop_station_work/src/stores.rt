//! What a camera's stores are: their geometry, by its source's header, the limits of their desks, and the clips in them
//! that are told when they are opened.

ghost use Rattle.std.specs.Prelude.{◌≡◌, ◌≤◌};

use loop_desk::DeskLimits;
use loop_file::FileDisk;
use loop_record::Geometry;
use loop_station_camera::CameraState;
use loop_station_core::{OpenEvent, is_saved_at_start};
use loop_station_outside::Absent;
use loop_station_shared::{FoundClip, Message};
use loop_station_words::RingSize;
use loop_store::{Clip, Store};
use std::alloc::AllocGlobal;
use std::sync::Wait;
use std::time::{Clock, Duration};

// How many milliseconds it waits for a header before it looks whether the program ends.
const LOOK_AGAIN: u64 = 100;

// The most frames that a camera's flush stores, and the fewest that it may store where they are large.
const MOST: u32 = 64;

const FEWEST: u32 = 8;

// How many bytes the frames of a flush have together at most, where they are more than the fewest.
const FLUSH_BYTES: u32 = 67_108_864;

/// What the source's header says, once it is there; None where the camera is stopped before that.
pub(crate) fn wait_header<R: Wait + Clock>(rt: &R, state: &CameraState) -> Option<Geometry> {
    for _ in rt.forever() {
        if state.is_stopped(rt) {
            return None;
        }
        if let Some(header) = state.life.header(rt, Duration::from_millis(LOOK_AGAIN)) {
            return Some(header);
        }
    }
    unreachable!()
}

/// The geometry of a store with this ring for a header.
pub(crate) fn geometry_for(header: &Geometry, ring: RingSize) -> Result<Geometry, Absent> {
    let RingSize { segments, slots } = ring;
    let geometry = Geometry {
        segments,
        slots,
        ..*header
    };
    match geometry.check() {
        Ok(()) => Ok(geometry),
        Err(_) => Err(Absent::NoGeometry),
    }
}

/// Tells the printer which clips a store has, by the ids that users know: those that aren't saved yet are saved by
/// themselves, where the camera has a folder for them (`is_saved_at_start`). A clip whose frames can't be read is left
/// out.
pub(crate) fn tell_clips<R: AllocGlobal + Wait>(
    rt: &R,
    state: &CameraState,
    store: &mut Store<FileDisk>,
    clips: &[Clip],
    events: &[OpenEvent],
) {
    if state.config.save_to.is_none() {
        return;
    }
    let mut found = Vec::new(rt.alloc());
    for clip in clips {
        if !is_saved_at_start(clip.tag, events) {
            continue;
        }
        let (Ok(first), Ok(last)) = (store.read_head(clip.from), store.read_head(clip.to)) else {
            continue;
        };
        let clip = FoundClip {
            clip: *clip,
            first: first.timestamp,
            last: last.timestamp,
            from: first.sequence,
            to: last.sequence,
            lost: 0,
        };
        // Where memory is refused, the clip is saved at the next start.
        let _ = found.push(clip);
    }
    if let Some(kept) = state.kept_clips(rt.alloc(), found.as_slice()) {
        state.posts.printer.put(rt, Message::Opened(kept));
    }
}

/// How much the desk of a camera accepts. A flush costs two syncs, however many frames it stores; as many come while it
/// lasts, and wait in memory.
pub(crate) fn limits_for(frame_bytes: u32) -> DeskLimits
    ensures pending { result.pending ≡ 64 }
    ensures group { (1 ≤ result.group) × (result.group ≤ 64) }
{
    DeskLimits {
        pending: MOST,
        group: (FLUSH_BYTES / frame_bytes.max(1)).max(FEWEST).min(MOST),
        calls: 1_000_000,
    }
}
