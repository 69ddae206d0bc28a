//! A camera whose blocks are all locked: a clip is released where the configuration lets one go, as loop_station_core
//! decides.

ghost use Rattle.std.specs.Prelude.{◌≡◌};

use crate::leave::shown;
use crate::reading::find;
use crate::releasing::unlock_part;
use crate::state::CameraState;
use loop_disk::Disk;
use loop_pipeline::Desks;
use loop_station_core::{FullRule, LockedClip};
use loop_station_shared::FoundClip;
use loop_station_words::WhenFull;
use loop_store::Clip;
use std::alloc::Global;
use std::sync::Wait;
use std::time::Clock;

// What is decided by, of what the configuration says.
fn rule_for(when_full: Option<WhenFull>) -> FullRule {
    match when_full {
        None | Some(WhenFull::Stop) => FullRule::Waits,
        Some(WhenFull::ReleaseSaved) => FullRule::OldestSaved,
        Some(WhenFull::ReleaseOldest(tag)) => FullRule::Oldest(tag),
    }
}

impl CameraState {
    // Whether it is looked now for a clip that goes.
    fn looks_for_room<R: Wait + Clock>(&self, rt: &R, rule: FullRule) -> bool {
        rule != FullRule::Waits
            && self.whole.looks(self.timeline.now(rt), self.is_locked(rt))
            && !self.stored.is_opening(rt)
            && !self.stored.is_making(rt)
            && rule.releases(self.room(rt).free)
    }

    // A clip, of which it isn't known yet when its first frame came.
    fn locked_clip<R: Wait>(&self, rt: &R, clip: &Clip) -> LockedClip {
        LockedClip {
            clip: shown(clip),
            since: 0,
            saved: self.whole.may_have(rt, clip),
            read: self.is_read(rt, clip.id, Some(clip.tag)),
        }
    }
}

/// Releases a clip, where every block is locked and the configuration lets one go, and tells it. Where the disk refuses
/// that, it is told once: the clip may be unlocked on the disk even so.
pub(crate) fn free_block<R: Wait + Clock, D: Disk + Drop>(
    rt: &R,
    alloc: Global,
    state: &CameraState,
    desks: &mut Desks<D, CameraState>,
)
    ensures { desks.new.lent ≡ desks.old.lent }
{
    let rule = rule_for(state.config.when_full);
    if !state.looks_for_room(rt, rule) {
        return;
    }
    let Some(clips) = state.stored.clips(rt, alloc) else {
        return;
    };
    let oldest = clip_to_go(rt, alloc, state, desks, rule, &clips);
    let Some(leave) = rule.leave(state.room(rt).free, oldest) else {
        return;
    };
    let id = leave.clip().id;
    let released = unlock_part(rt, state, desks, leave);
    if !state.whole.is_told(id, released.is_ok()) {
        return;
    }
    let (mut lines, name) = (state.lines(alloc), state.config.name.as_str());
    // Where memory for the line is refused, it isn't printed.
    let _ = match released {
        Ok(clip) => lines.released_full(name, clip.id()),
        Err(fault) => lines.refused(name, fault),
    };
    state.tell(rt, lines, None);
}

// Of these clips the one that goes. One whose first frame can't be read stays.
fn clip_to_go<R: Wait, D: Disk + Drop>(
    rt: &R,
    alloc: Global,
    state: &CameraState,
    desks: &mut Desks<D, CameraState>,
    rule: FullRule,
    clips: &[Clip],
) -> Option<LockedClip>
    ensures { desks.new.lent ≡ desks.old.lent }
{
    let mut oldest: Option<LockedClip> = None;
    'clips: for clip in clips {
        let seen = state.locked_clip(rt, clip);
        if !rule.lets_go(seen) {
            continue;
        }
        if let Ok(Some(found)) = find(rt, alloc, state, desks, clip.id) {
            oldest = rule.older(oldest, with_time(rt, state, seen, &found));
        }
    }
    oldest
}

// A clip, once it is known when its first frame came.
fn with_time<R: Wait>(
    rt: &R,
    state: &CameraState,
    seen: LockedClip,
    found: &FoundClip,
) -> LockedClip {
    LockedClip {
        since: found.first,
        saved: state.whole.has(rt, found.key(state.place)),
        ..seen
    }
}
