//! What is done where every block is locked: which clip is released, where the configuration lets one go.

ghost use Rattle.std.specs.Prelude.{◌≡◌, ◌≢◌, ◌↔◌, IsTrue};
ghost use Rattle.loop_station_core.specs.Full.{full_leave, may_go, oldest_so_far};
ghost use Rattle.loop_station_core.specs.declared.full.FullRule.TheVariants.{Waits};

use crate::leave::{MayUnlock, ShownClip};

/// What a camera does where every block is locked.
#[derive(Clone, Copy, PartialEq, Eq)]
pub enum FullRule {
    /// It waits until an order releases a clip.
    Waits,
    /// The oldest clip that was saved whole is released.
    OldestSaved,
    /// The oldest clip is released, or the oldest one with this tag.
    Oldest(Option<u64>),
}

/// A clip that is locked.
#[derive(Clone, Copy)]
pub struct LockedClip {
    pub clip: ShownClip,
    /// When its first frame came, in microseconds since 1970.
    pub since: u64,
    /// A save has written it whole.
    pub saved: bool,
    /// A save reads it.
    pub read: bool,
}

impl FullRule {
    /// Whether a clip is released now, where so many blocks aren't locked but the newest one: before the recording
    /// stands still, since the newest block has its frames to come.
    pub fn releases(self, free: u64) -> bool
        ensures { IsTrue result ↔ ((self ≢ Waits) × (free ≡ 0)) }
    {
        self != FullRule::Waits && free == 0
    }

    /// Whether a clip may be released.
    pub fn lets_go(self, clip: LockedClip) -> bool
        ensures { result ≡ may_go self clip }
    {
        match self {
            FullRule::Waits => false,
            FullRule::OldestSaved => clip.saved && !clip.read,
            FullRule::Oldest(None) => !clip.read,
            FullRule::Oldest(Some(tag)) => clip.clip.tag == tag && !clip.read,
        }
    }

    /// Looks at one more locked clip. Which one of all that were looked at is released: the oldest that may be.
    pub fn older(self, found: Option<LockedClip>, clip: LockedClip) -> Option<LockedClip>
        ensures { result ≡ oldest_so_far self found clip }
    {
        if !self.lets_go(clip) {
            return found;
        }
        match found {
            Some(oldest) if oldest.since <= clip.since => Some(oldest),
            _ => Some(clip),
        }
    }

    /// Leave to release the oldest clip of all that were looked at (`older`), where so many blocks aren't locked but
    /// the newest one.
    pub fn leave(self, free: u64, oldest: Option<LockedClip>) -> Option<MayUnlock>
        ensures { result ≡ full_leave self free oldest }
    {
        let oldest = oldest?;
        if free > 0 || !self.lets_go(oldest) {
            return None;
        }
        Some(MayUnlock::of(oldest.clip))
    }
}
