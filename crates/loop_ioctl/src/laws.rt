//! What follows from the definitions. Each function does nothing: its contract is the law.

ghost use Rattle.loop_ioctl.specs.Calls.{NewQueuesStand};
ghost use Rattle.loop_ioctl.specs.Events.{RunsJoin};
ghost use Rattle.loop_ioctl.specs.Modelled.{RunsAreInOrder, TurnsAreEvents};

use loop_plane::PlaneMemory;
use std::alloc::Allocator;

/// Two runs of events, one after the other, are the run of the joined list.
pub fn runs_join<P: PlaneMemory, A: Allocator>()
    ensures { RunsJoin A P.plane }
{}

/// A queue without buffers and any table stand for a state: the queue holds no fd.
pub fn new_queues_stand<P: PlaneMemory>()
    ensures { NewQueuesStand P.plane }
{}

/// Turns, each as the model of the ioctls has it, are events of the queue's own model, and lead to its state.
pub fn turns_are_events<P: PlaneMemory, A: Allocator>()
    ensures { TurnsAreEvents A P.plane }
{}

/// The buffers of any run are dequeued in the order in which they were completed or failed: also of two runs, one
/// after the other.
pub fn runs_are_in_order<P: PlaneMemory, A: Allocator>()
    ensures { RunsAreInOrder A P.plane }
{}
