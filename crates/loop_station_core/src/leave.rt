//! Leave to unlock a clip.

ghost use Rattle.std.specs.Prelude.{◌≡◌};
ghost use Rattle.loop_station_core.specs.Clips.{leave_for_part};
ghost use Rattle.loop_station_core.specs.Gaps.{lies_within};

use crate::sets::store_of;
use std::marker::Model;

/// A clip, as a decision is shown it: the id by which users know it, the numbers of its first and last frame, and its
/// tag. Its id may be another clip's once it is free.
#[derive(Clone, Copy)]
pub struct ShownClip {
    pub id: u32,
    pub from: u64,
    pub to: u64,
    pub tag: u64,
}

/// Leave to unlock a clip, once. A decision gives it, for the clip that it was shown; nothing else makes one, and there
/// is no copy. Contracts see the clip.
#[derive(Drop)]
pub struct MayUnlock {
    clip: ShownClip,
}

impl Model for MayUnlock {
    ghost use Rattle.loop_station_core.specs.declared.leave.ShownClip.{ShownClip};

    ghost Value = { ShownClip };

    ghost view = { λ leave. leave.clip };
}

impl MayUnlock {
    // Leave to unlock a clip: what a decision gives.
    pub(crate) fn of(clip: ShownClip) -> MayUnlock
        ensures { result ≡ clip }
    {
        MayUnlock { clip }
    }

    /// The clip that may be unlocked.
    pub fn clip(&self) -> ShownClip
        ensures { result ≡ self.now }
    {
        self.clip
    }
}

impl ShownClip {
    /// Whether it lies wholly within another clip of its store.
    pub fn is_covered_by(self, longer: ShownClip) -> bool
        ensures { result ≡ lies_within self longer }
    {
        self.id != longer.id
            && store_of(self.id) == store_of(longer.id)
            && longer.from <= self.from
            && self.to <= longer.to
    }

    /// Leave to release it, a part of an event, since a longer clip covers it that the event has locked too; not while
    /// a save reads it.
    pub fn leave_for_part(self, is_read: bool, longer: ShownClip) -> Option<MayUnlock>
        ensures { result ≡ leave_for_part is_read self longer }
    {
        if is_read || !self.is_covered_by(longer) {
            return None;
        }
        Some(MayUnlock::of(self))
    }
}
