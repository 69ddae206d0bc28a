//! Which clips may be released, and what is told of it.

ghost use Rattle.std.specs.Prelude.{◌≡◌};

use crate::leave::{clip_of, shown};
use crate::reading::{clip_at, find, head_at, place_in};
use crate::replies::tell_released;
use crate::state::CameraState;
use crate::unlocking::{Unlocked, unlock};
use loop_disk::Disk;
use loop_pipeline::Desks;
use loop_station_core::{MayRelease, MayUnlock, SaveKey, may_release, may_release_saved};
use loop_station_shared::FoundClip;
use loop_station_words::Lines;
use loop_store::{Clip, StoreFault};
use std::alloc::Global;
use std::sync::Wait;

impl CameraState {
    // Whether the clip of an id may be released now: it isn't being saved, and begins with the frame that is given, if
    // one is. `there`: that clip, if there is one.
    fn may_release<R: Wait>(
        &self,
        rt: &R,
        id: u32,
        first: Option<u64>,
        there: Option<Clip>,
    ) -> MayRelease {
        let is_read = self.is_read(rt, id, there.map(|clip| clip.tag));
        may_release(is_read, first, there.map(|clip| shown(&clip)))
    }

    // Whether a clip is released now that is saved; `there`: the clip that has its id by now, if one has.
    fn may_release_saved<R: Wait>(
        &self,
        rt: &R,
        saved: SaveKey,
        there: Option<FoundClip>,
    ) -> MayRelease {
        let is_read = self.is_read(rt, saved.id, Some(saved.tag));
        let there = match there {
            Some(found) => Some(found.key(self.place)),
            None => None,
        };
        may_release_saved(is_read, saved, there)
    }
}

/// Unlocks a clip, unless it is being saved, or begins with another frame than the order says.
pub(crate) fn release<R: Wait, D: Disk + Drop>(
    rt: &R,
    state: &CameraState,
    desks: &mut Desks<D, CameraState>,
    id: u32,
    first: Option<u64>,
    lines: &mut Lines,
)
    ensures { desks.new.lent ≡ desks.old.lent }
{
    let there = clip_at(rt, state, desks, id);
    let name = state.config.name.as_str();
    // Where memory for the line is refused, it isn't printed.
    let _ = match state.may_release(rt, id, first, there) {
        MayRelease::Now(leave) => {
            unlock_and_tell(rt, state, desks, leave, lines);
            Ok(())
        }
        MayRelease::Saving => lines.saving(name),
        MayRelease::Other(first) => lines.not_released(name, id, first),
        MayRelease::NoClip => lines.refused(name, StoreFault::NoSuchClip),
    };
}

// Unlocks a clip, and tells it.
fn unlock_and_tell<R: Wait, D: Disk + Drop>(
    rt: &R,
    state: &CameraState,
    desks: &mut Desks<D, CameraState>,
    leave: MayUnlock,
    lines: &mut Lines,
)
    ensures { desks.new.lent ≡ desks.old.lent }
{
    let released = unlock_part(rt, state, desks, leave);
    // Where memory for the line is refused, it isn't printed.
    let _ = tell_released(state, released, lines);
}

/// Unlocks a clip. Where it is a part of an event that goes on, that part ends; where the time of its last frame can't
/// be read, it stays locked.
pub(crate) fn unlock_part<R: Wait, D: Disk + Drop>(
    rt: &R,
    state: &CameraState,
    desks: &mut Desks<D, CameraState>,
    leave: MayUnlock,
) -> Result<Unlocked, StoreFault>
    ensures { desks.new.lent ≡ desks.old.lent }
{
    let clip = clip_of(leave.clip());
    if !state.desk.owns(rt, &clip) {
        return unlock(rt, state, desks, leave);
    }
    let last = time_of_last(rt, state, desks, &clip)?;
    let released = unlock(rt, state, desks, leave)?;
    state.desk.end_part(rt, &clip, last);
    Ok(released)
}

// When the last frame of a clip came.
fn time_of_last<R: Wait, D: Disk + Drop>(
    rt: &R,
    state: &CameraState,
    desks: &mut Desks<D, CameraState>,
    clip: &Clip,
) -> Result<u64, StoreFault>
    ensures { desks.new.lent ≡ desks.old.lent }
{
    match place_in(rt, state, desks, clip.id) {
        Some(place) => Ok(head_at(desks, place, clip.to)?.timestamp),
        None => Err(StoreFault::NoSuchClip),
    }
}

/// Unlocks a clip that is saved, if it is still there. Where a save that an order has begun since reads it, that waits
/// for the end of that save. Where another clip has its id by now, as after its store was moved away, nothing is told:
/// nobody asked for it.
pub(crate) fn release_saved<R: Wait, D: Disk + Drop>(
    rt: &R,
    alloc: Global,
    state: &CameraState,
    desks: &mut Desks<D, CameraState>,
    saved: SaveKey,
    lines: &mut Lines,
)
    ensures { desks.new.lent ≡ desks.old.lent }
{
    let there = match find(rt, alloc, state, desks, saved.id) {
        Ok(there) => there,
        Err(fault) => {
            // Where memory for the line is refused, it isn't printed.
            let _ = lines.refused(state.config.name.as_str(), fault);
            return;
        }
    };
    match state.may_release_saved(rt, saved, there) {
        MayRelease::Now(leave) => unlock_and_tell(rt, state, desks, leave, lines),
        MayRelease::Saving => state.desk.put_saved(rt, saved),
        MayRelease::Other(_) | MayRelease::NoClip => {}
    }
}

/// Unlocks a clip that is saved, and that had to wait for another save of it, or for other orders.
pub(crate) fn release_later<R: Wait, D: Disk + Drop>(
    rt: &R,
    alloc: Global,
    state: &CameraState,
    desks: &mut Desks<D, CameraState>,
    saved: SaveKey,
)
    ensures { desks.new.lent ≡ desks.old.lent }
{
    // The store isn't looked at as long as it has to wait.
    if state.is_read(rt, saved.id, Some(saved.tag)) {
        state.desk.put_saved(rt, saved);
        return;
    }
    let mut lines = state.lines(alloc);
    release_saved(rt, alloc, state, desks, saved, &mut lines);
    if !lines.is_empty() {
        state.tell(rt, lines, None);
    }
}
