//! What follows from the definitions of several crates. The functions do nothing: their contracts are the laws.

ghost use Rattle.std.specs.Prelude.{◌++◌, List};
ghost use Rattle.loop_lane.specs.declared.event.LaneEvent.{LaneEvent};
ghost use Rattle.loop_lane.specs.declared.event.LaneReply.{LaneReply};
ghost use Rattle.loop_lane.specs.Lane.{LaneKeeps, LaneRan, LaneTurnsAreEvents};
ghost use Rattle.loop_lane.specs.RingHolds.{RingsHold};

use crate::Lane;
use loop_disk::Disk;
use loop_plane::PlaneMemory;
use std::alloc::Allocator;

/// Turns of a lane, each as its front has it, are events of the queue's own model, and lead to its state.
pub fn turns_are_events<P: PlaneMemory, A: Allocator>()
    ensures { LaneTurnsAreEvents A P.plane }
{}

/// Two runs of a lane, one after the other, are one run of both lists of events, and it keeps what one run does.
pub fn runs_join<D: Disk + Drop, P: PlaneMemory, A: Allocator + Copy>(
    before: &Lane<D, P, A>,
    between: &Lane<D, P, A>,
    after: &Lane<D, P, A>,
)
    ensures { (es fs : List (LaneEvent P A)) (ps qs : List (LaneReply P A))
        → LaneRan P.plane D.medium before.now between.now es ps
        → LaneRan P.plane D.medium between.now after.now fs qs
        → LaneKeeps P.plane D.medium before.now after.now (es ++ fs) (ps ++ qs) }
{}

/// A ring holds as many of the newest frames as it was chosen for, after each append from the empty recording on, while
/// nothing is locked. Within an append it may be one less.
pub fn rings_hold_what_was_asked()
    ensures { RingsHold }
{}
