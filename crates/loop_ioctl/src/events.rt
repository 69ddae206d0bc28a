// A list of events: ioctls of the application, and calls of the device.
ghost use Rattle.std.specs.Prelude.{◌≡◌, true, IfOk, IfErr, OnErr};
ghost use Rattle.loop_vb2.specs.Errnos.{errno};
ghost use Rattle.loop_vb2.specs.declared.reason.Reason.TheVariants.{NoMemory};
ghost use Rattle.loop_ioctl.specs.Events.{is_whole, are_whole, Reacts, Runs};
ghost use Rattle.loop_ioctl.specs.Modelled.{RunsInOrder};

use crate::call::{Ioctl, IoctlReply};
use crate::dispatch::apply;
use loop_plane::{FdTable, PlaneMemory};
use loop_vb2::{Errno, Queue, Reason, Refused, Shape, Stamp};
use std::alloc::{Allocator, Global};

/// What happens to a queue.
#[derive(Drop)]
pub enum QueueEvent<P = Box<dyn PlaneMemory + Send>, A: Allocator = Global> {
    /// A call of the application.
    Ioctl(Ioctl<P, A>),
    /// The device has filled an active buffer. `bytes` are one whole frame, its planes one after the other.
    Complete {
        index: u32,
        stamp: Stamp,
        bytes: Vec<u8, A>,
    },
    /// The device gives up an active buffer.
    Fail {
        index: u32,
        stamp: Stamp,
    },
    /// The device can't go on.
    Fatal,
}

/// What the event's own call answers.
#[derive(Drop)]
pub enum QueueReply<P = Box<dyn PlaneMemory + Send>, A: Allocator = Global> {
    /// The answer to an ioctl.
    Ioctl(Result<IoctlReply<P, A>, Refused<P, A>>),
    /// The answer to Complete and Fail: BadIndex, NotActive, in this order.
    Ended(Result<(), Errno>),
    /// Fatal is never refused.
    Fatal,
}

/// Whether the bytes of a Complete are one whole frame of this shape: what `react` asks of its event.
pub fn is_whole<P, A: Allocator>(shape: &Shape, event: &QueueEvent<P, A>) -> bool
    ensures { result ≡ is_whole shape.now event.now }
{
    match event {
        QueueEvent::Complete { bytes, .. } => {
            let [y, cb, cr] = shape.sizes;
            bytes.len() as u64 == u64::from(y) + u64::from(cb) + u64::from(cr)
        }
        QueueEvent::Ioctl(_) => true,
        QueueEvent::Fail { .. } => true,
        QueueEvent::Fatal => true,
    }
}

/// Whether each Complete of a list has one whole frame of this shape: what `run_events` asks of its events.
pub fn are_whole<P, A: Allocator>(shape: &Shape, events: &[QueueEvent<P, A>]) -> bool
    ensures { result ≡ are_whole shape.now events.now }
{
    for event in events {
        if !is_whole(shape, event) {
            return false;
        }
    }
    true
}

/// One event, with its reply; a refused one changes nothing. The bytes of a Complete have to be one whole frame.
pub fn react<P: PlaneMemory, A: Allocator + Copy>(
    queue: &mut Queue<P, A>,
    table: &mut FdTable<P, A>,
    event: QueueEvent<P, A>,
) -> QueueReply<P, A>
    requires whole { is_whole queue.old.body.shape event ≡ true }
    ensures step { Reacts P.plane event result queue.old table.old queue.new table.new }
    ensures shape { queue.new.body.shape ≡ queue.old.body.shape }
{
    match event {
        QueueEvent::Ioctl(call) => QueueReply::Ioctl(apply(queue, table, call)),
        QueueEvent::Complete {
            index,
            stamp,
            bytes,
        } => QueueReply::Ended(queue.complete(index, stamp, &bytes)),
        QueueEvent::Fail { index, stamp } => QueueReply::Ended(queue.fail(index, stamp)),
        QueueEvent::Fatal => {
            queue.fatal();
            QueueReply::Fatal
        }
    }
}

/// Each event in turn, with its reply. A refused event changes nothing, and the next one follows. NoMemory, where there
/// is no room for the replies, comes before the first event: then nothing has changed, and the events come back.
///
/// Buffers are dequeued in the order in which they were completed or failed (`in_order`): from any stop of the stream
/// on, up to the next, those dequeued are a prefix of those that ended; from the start on, if the queue streamed then
/// or nothing was done, they are a prefix of those that were done at the start, followed by those that ended since.
pub fn run_events<P: PlaneMemory, A: Allocator + Copy>(
    queue: &mut Queue<P, A>,
    table: &mut FdTable<P, A>,
    events: Vec<QueueEvent<P, A>, A>,
) -> Result<Vec<QueueReply<P, A>, A>, (Errno, Vec<QueueEvent<P, A>, A>)>
    requires whole { are_whole queue.old.body.shape events.items ≡ true }
    ensures runs { IfOk result (λ replies.
        Runs P.plane events.items replies.items queue.old table.old queue.new table.new) }
    ensures in_order { IfOk result (λ replies.
        RunsInOrder P.plane events.items replies.items queue.old table.old queue.new) }
    ensures memory { IfErr result (λ e. (e.0 ≡ errno NoMemory) × (e.1 ≡ events)) }
    ensures same { OnErr result ((queue.new ≡ queue.old) × (table.new ≡ table.old)) }
    ensures shape { queue.new.body.shape ≡ queue.old.body.shape }
{
    let Ok(mut replies) = Vec::with_capacity(queue.allocator(), events.len()) else {
        return Err((Errno::of(Reason::NoMemory), events));
    };
    for event in events {
        let reply = react(queue, table, event);
        replies.push_reserved(reply);
    }
    Ok(replies)
}
