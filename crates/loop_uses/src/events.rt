//! Events of a queue.
ghost use Rattle.std.specs.Prelude.{◌≡◌, IfSome, length};

use loop_ioctl::{QueueEvent, QueueReply, are_whole, run_events};
use loop_plane::{FdTable, PlaneMemory};
use loop_vb2::Queue;
use std::alloc::Allocator;

/// Events of which each Complete has a whole frame are all replied to, unless memory is refused.
pub fn events_are_replied_to<P: PlaneMemory, A: Allocator + Copy>(
    queue: &mut Queue<P, A>,
    table: &mut FdTable<P, A>,
    events: Vec<QueueEvent<P, A>, A>,
) -> Option<Vec<QueueReply<P, A>, A>>
    ensures { IfSome result (λ replies. length replies.items ≡ length events.items) }
{
    if !are_whole(&queue.shape(), &events) {
        return None;
    }
    match run_events(queue, table, events) {
        Ok(replies) => Some(replies),
        Err(_) => None,
    }
}
