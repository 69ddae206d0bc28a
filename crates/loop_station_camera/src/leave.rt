//! What a visit gives away where it unlocks a clip: leave that loop_station_core has given.

ghost use Rattle.std.specs.Prelude.{◌≡◌};
ghost use Rattle.loop_station_camera.specs.Leaves.{desk_span};

use loop_pipeline::Leave;
use loop_record::Span;
use loop_station_core::{MayUnlock, ShownClip, id_parts};
use loop_store::Clip;

/// Leave to unlock a clip of a camera's desks. Nothing but a decision's leave makes it.
#[derive(Drop)]
pub struct DeskLeave {
    leave: MayUnlock,
}

impl DeskLeave {
    /// The leave that a decision gave.
    pub(crate) fn of(leave: MayUnlock) -> DeskLeave
        ensures { result ≡ record { leave = leave } }
    {
        DeskLeave { leave }
    }
}

impl Leave for DeskLeave {
    ghost use Rattle.loop_station_camera.specs.Leaves.{own_id, desk_span};

    ghost id = { λ desk. own_id desk.leave };

    ghost clip = { λ desk. desk_span desk.leave };

    fn id(&self) -> u32 {
        id_parts(self.leave.clip().id).1
    }

    fn clip(&self) -> Span {
        desk_span(self.leave.clip())
    }
}

// The frames of a clip, and its tag.
fn desk_span(clip: ShownClip) -> Span
    ensures { result ≡ desk_span clip }
{
    Span {
        from: clip.from,
        to: clip.to,
        tag: clip.tag,
    }
}

/// A clip, as a decision is shown it.
pub(crate) fn shown(clip: &Clip) -> ShownClip {
    ShownClip {
        id: clip.id,
        from: clip.from,
        to: clip.to,
        tag: clip.tag,
    }
}

/// The clip that leave is for.
pub(crate) fn clip_of(shown: ShownClip) -> Clip {
    Clip {
        id: shown.id,
        from: shown.from,
        to: shown.to,
        tag: shown.tag,
    }
}
