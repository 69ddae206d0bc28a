//! A lane: a queue with its table of fds, a hand, and a desk, and lists of their events.
//! docs/lane.md says why it is so.

ghost use Rattle.std.specs.Prelude.{◌≡◌, [], ◌∷◌, IfErr, IfOk};
ghost use Rattle.loop_ioctl.specs.Types.{type_of};
ghost use Rattle.loop_desk.specs.Front.{IsSubmit, TurnsBeside, dequeued, hand_given, hand_state};
ghost use Rattle.loop_lane.specs.Lane.{LaneKeeps, LaneRan, is_dequeue, submit_calls};
ghost use Rattle.loop_desk.specs.Seen.{DeskGoes};

use crate::{LaneEvent, LaneReply};
use loop_desk::front::{dequeue, on_queue, requeue};
use loop_desk::{Desk, Hand, LaneFault};
use loop_disk::Disk;
use loop_ioctl::{BufferType, Ioctl, QueueEvent};
use loop_plane::{FdTable, PlaneMemory};
use loop_record::PixelFormat;
use loop_store::StoreFault;
use loop_vb2::Queue;
use std::alloc::{Allocator, Global};
use std::mem;

/// A queue with its table of fds, what was taken from it, and the desk to which its frames go. The queue's format and
/// size should be those of the desk's store; the desk refuses a frame of another size.
#[derive(Drop)]
pub struct Lane<D: Disk + Drop, P = Box<dyn PlaneMemory + Send>, A: Allocator + Copy = Global> {
    /// The queue.
    pub queue: Queue<P, A>,
    /// What fds name.
    pub table: FdTable<P, A>,
    /// What was taken from the queue.
    pub hand: Hand<P, A>,
    /// Where frames go.
    pub desk: Desk<D, A>,
}

// Whether an event is the ioctl DQBUF of a queue of this format.
fn is_dequeue<P, A: Allocator>(format: PixelFormat, event: &QueueEvent<P, A>) -> bool
    ensures { result ≡ is_dequeue format event.now }
{
    match event {
        QueueEvent::Ioctl(Ioctl::DqBuf { buf_type }) => *buf_type == BufferType::of(format),
        _ => false,
    }
}

// Gives the hand's frame to the desk; a refused one stays in the hand. `HandEmpty` if there is none.
fn submit<D: Disk + Drop, P: PlaneMemory, A: Allocator + Copy>(
    hand: &mut Hand<P, A>,
    desk: &mut Desk<D, A>,
) -> Result<u64, StoreFault>
    ensures told { IsSubmit (hand_state P.plane hand.old) result }
    ensures hand { hand_state P.plane hand.new ≡ hand_given (hand_state P.plane hand.old) result }
    ensures goes { DeskGoes D.medium desk.old desk.new (submit_calls (hand_state P.plane hand.old) result) }
{
    desk.opens();
    match mem::replace(hand, Hand::Empty) {
        Hand::Frame {
            index,
            frame,
            planes,
        } => match desk.submit(frame) {
            Ok(number) => {
                *hand = Hand::Spent { index, planes };
                Ok(number)
            }
            Err((fault, frame)) => {
                *hand = Hand::Frame {
                    index,
                    frame,
                    planes,
                };
                Err(fault)
            }
        },
        Hand::Spent { index, planes } => {
            *hand = Hand::Spent { index, planes };
            Err(StoreFault::HandEmpty)
        }
        Hand::Empty => Err(StoreFault::HandEmpty),
    }
}

// DQBUF into the hand, with memory that the desk keeps.
fn dequeues<D: Disk + Drop, P: PlaneMemory, A: Allocator + Copy>(
    alloc: A,
    lane: &mut Lane<D, P, A>,
) -> Result<u32, LaneFault>
    ensures turn { TurnsBeside P.plane lane.old.queue lane.old.hand (dequeued result) lane.new.queue lane.new.hand }
    ensures same { lane.new ≡ record lane.old { queue = lane.new.queue; hand = lane.new.hand } }
{
    let mut spare = lane.desk.spare_memory();
    let answer = dequeue(alloc, &mut lane.queue, &mut lane.hand, &mut spare);
    if let Some(bytes) = spare {
        lane.desk.return_memory(bytes);
    }
    answer
}

// Applies one event.
fn answer<D: Disk + Drop, P: PlaneMemory, A: Allocator + Copy>(
    alloc: A,
    lane: &mut Lane<D, P, A>,
    event: LaneEvent<P, A>,
) -> LaneReply<P, A>
    ensures { LaneRan P.plane D.medium lane.old lane.new (event ∷ []) (result ∷ []) }
{
    lane.desk.opens();
    match event {
        LaneEvent::Queue(event) => {
            if is_dequeue(lane.queue.format(), &event) {
                return LaneReply::Dequeue(dequeues(alloc, lane));
            }
            LaneReply::Queue(on_queue(&mut lane.queue, &mut lane.table, &lane.hand, event))
        }
        LaneEvent::Dequeue => LaneReply::Dequeue(dequeues(alloc, lane)),
        LaneEvent::Submit => LaneReply::Submit(submit(&mut lane.hand, &mut lane.desk)),
        LaneEvent::Requeue => LaneReply::Requeue(requeue(&mut lane.queue, &mut lane.hand)),
        LaneEvent::Flush => LaneReply::Flush(lane.desk.flush()),
        LaneEvent::Lock(span) => LaneReply::Lock(lane.desk.lock_clip(span.from, span.to, span.tag)),
        LaneEvent::Unlock(id) => LaneReply::Unlock(lane.desk.unlock_clip(id)),
        LaneEvent::Read(number) => LaneReply::Read(lane.desk.read_frame(alloc, number)),
    }
}

/// Applies events one after the other, and returns the answer of each one's own call. A refused event doesn't end the
/// list. Memory for the replies is taken first: if there is none, the events come back with `NoMemory`, and nothing was
/// done.
///
/// Each reply is the model's at its point, and the desk makes the calls that events and replies show. Of these calls
/// `headline` says: whenever the power fails in the run, before, between or within any writes, the disk reads as the
/// recording after a prefix of the steps of the events that were answered Ok, followed by those of the one that was
/// under way or failed. At the end it has all steps of those answered Ok. Each clip there has all its frames, each the
/// one that was given. Buffers are taken from the queue in the order in which the device ended them, each with the
/// frame that the device completed. Frames keep their order from the queue to the desk.
pub fn lane_run<D: Disk + Drop, P: PlaneMemory, A: Allocator + Copy>(
    alloc: A,
    lane: &mut Lane<D, P, A>,
    events: Vec<LaneEvent<P, A>, A>,
) -> Result<Vec<LaneReply<P, A>, A>, (StoreFault, Vec<LaneEvent<P, A>, A>)>
    ensures headline { IfOk result (λ replies.
        LaneKeeps P.plane D.medium lane.old lane.new events.items replies.items) }
    ensures refused { IfErr result (λ refused. (refused.0 ≡ StoreFault.NoMemory)
        × ((refused.1 ≡ events) × (lane.new ≡ lane.old))) }
{
    lane.desk.opens();
    let mut replies = match Vec::with_capacity(alloc, events.len()) {
        Ok(replies) => replies,
        Err(_) => return Err((StoreFault::NoMemory, events)),
    };
    for event in events {
        replies.push_reserved(answer(alloc, lane, event));
    }
    Ok(replies)
}
