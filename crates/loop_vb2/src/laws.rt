//! What follows from the definitions. Each function does nothing: its contract is the law.

ghost use Rattle.loop_vb2.specs.Laws.{HandedOverByOwners, SetsAreInOnePlace, DequeuedInOrder, NewQueuesAreStill};

use loop_plane::PlaneMemory;

/// An accepted event acts for the buffer's owner: the application's calls name a buffer that it has, or has prepared,
/// the device ends a buffer that it has, and DQBUF hands over one that is done or failed. A table says whose each
/// buffer is after it: no buffer changes hands otherwise.
pub fn buffers_are_handed_over_by_their_owners()
    ensures { HandedOverByOwners }
{}

/// A set of planes is in one place: the sets that the buffers hold after an accepted event and those that it hands out,
/// or drops with the queue's own memory, are those that the buffers held before and those that it brings. So a set that
/// was handed out lies in no buffer.
pub fn sets_are_in_one_place()
    ensures { SetsAreInOnePlace }
{}

/// Between two events that stop the stream, the buffers dequeued are a prefix of those completed or failed, in the
/// order of their ends.
pub fn buffers_are_dequeued_in_order()
    ensures { DequeuedInOrder }
{}

/// A queue without buffers has nothing done: from it on, a run dequeues buffers in order.
pub fn new_queues_are_still<P: PlaneMemory>()
    ensures { NewQueuesAreStill P.plane }
{}
