//! What happens to a queue, its table of fds, and the hand.

ghost use Rattle.std.specs.Prelude.{◌≡◌, ◌≤◌, length, true};
ghost use Rattle.loop_vb2.specs.Planes.{frame_size};
ghost use Rattle.loop_desk.specs.Front.{hand_state, index_in, forbids, FrontTurns, IsForbidden, on_queue, dequeued, requeued, TurnsBeside};
ghost use Rattle.loop_desk.specs.Parts.{GetsBuffer, is_ioctl};

use crate::frame::copy_frame;
use crate::hand::{Hand, LaneFault};
use bitflags::Flags;
use loop_ioctl::{Ioctl, QueueEvent, QueueReply, hand_back, is_whole, react};
use loop_plane::{FdTable, PlaneMemory};
use loop_record::Frame;
use loop_store::{StoreFault, frame_memory};
use loop_vb2::{BufferFlags, Dequeued, Queue, Reason};
use std::alloc::Allocator;
use std::mem;

// The index of the buffer in the hand.
fn index_in<P: PlaneMemory, A: Allocator>(hand: &Hand<P, A>) -> Option<u32>
    ensures { result ≡ index_in (hand_state P.plane hand.now) }
{
    match hand {
        Hand::Empty => None,
        Hand::Frame { index, .. } | Hand::Spent { index, .. } => Some(*index),
    }
}

// Whether the hand, with this buffer or none in it, forbids an event.
fn forbids<P, A: Allocator>(held: Option<u32>, event: &QueueEvent<P, A>) -> bool
    ensures { result ≡ forbids held event.now }
{
    let QueueEvent::Ioctl(call) = event else {
        return false;
    };
    match call {
        Ioctl::ReqBufs { .. } => held.is_some(),
        Ioctl::PrepareBuf { index, .. } | Ioctl::QBuf { index, .. } => held == Some(*index),
        _ => false,
    }
}

// The answer to an ioctl that the hand forbids.
fn refuse_held<P: PlaneMemory, A: Allocator + Copy>(
    alloc: A,
    event: QueueEvent<P, A>,
) -> QueueReply<P, A>
    requires { is_ioctl event ≡ true }
    ensures { IsForbidden event result }
{
    match event {
        QueueEvent::Ioctl(call) => {
            QueueReply::Ioctl(Err(hand_back(alloc, Reason::HandHolds, call)))
        }
        QueueEvent::Complete { .. } => unreachable!(),
        QueueEvent::Fail { .. } => unreachable!(),
        QueueEvent::Fatal => unreachable!(),
    }
}

/// One event of the queue. A Complete whose bytes aren't one whole frame is refused as `WrongSize` before any other
/// check. While the hand has a buffer, REQBUFS, and QBUF and PREPARE_BUF of that buffer, are refused as `HandHolds`
/// before any other check, and all planes that they brought come back. A refused event changes nothing. (A lane sends
/// DQBUF to `dequeue` instead.)
pub fn on_queue<P: PlaneMemory, A: Allocator + Copy>(
    queue: &mut Queue<P, A>,
    table: &mut FdTable<P, A>,
    hand: &Hand<P, A>,
    event: QueueEvent<P, A>,
) -> Result<QueueReply<P, A>, LaneFault>
    ensures turn { FrontTurns P.plane queue.old table.old hand.now (on_queue event result)
        queue.new table.new hand.now }
    ensures shape { queue.new.body.shape ≡ queue.old.body.shape }
{
    if !is_whole(&queue.shape(), &event) {
        return Err(LaneFault::Store(StoreFault::WrongSize));
    }
    if forbids(index_in(hand), &event) {
        return Ok(refuse_held(queue.allocator(), event));
    }
    Ok(react(queue, table, event))
}

// What the hand gets of a buffer that was dequeued: with its frame, unless the device gave it up.
fn hold<P: PlaneMemory, A: Allocator + Copy>(
    queue: &Queue<P, A>,
    answer: Dequeued<P>,
    mut bytes: Vec<u8, A>,
) -> Hand<P, A>
    requires { frame_size queue.now.body.shape ≤ length bytes.items }
    ensures { GetsBuffer P.plane queue.now answer result }
{
    let index = answer.index;
    let planes = answer.planes;
    if answer.flags.contains(BufferFlags::ERROR) {
        return Hand::Spent { index, planes };
    }
    let count = copy_frame(queue, index, &answer.used, &planes, &mut bytes);
    bytes.truncate(count);
    let frame = Frame {
        sequence: answer.sequence,
        flags: answer.flags.bits(),
        timestamp: answer.timestamp,
        bytes,
    };
    Hand::Frame {
        index,
        frame,
        planes,
    }
}

/// DQBUF into the hand; returns the buffer's index. `HandFull` unless the hand is empty, `NoMemory` if there is no
/// memory for the bytes of a frame, then the queue's refusals (NotStreaming, FatalError, NothingDone); a refusal leaves
/// queue and hand as they were. The buffer's planes are taken with it, unless they are mapped memory, and their fds
/// stay attached. A buffer that the device gave up has no frame: it is spent at once. The frame's memory is `spare`, if
/// that has its length; memory that isn't needed stays there.
///
/// While the hand has a buffer, the caller sends the queue no REQBUFS, and no QBUF or PREPARE_BUF of that buffer: the
/// contracts here speak of queues whose planes are in their buffers or in the hand.
pub fn dequeue<P: PlaneMemory, A: Allocator + Copy>(
    alloc: A,
    queue: &mut Queue<P, A>,
    hand: &mut Hand<P, A>,
    spare: &mut Option<Vec<u8, A>>,
) -> Result<u32, LaneFault>
    ensures turn { TurnsBeside P.plane queue.old hand.old (dequeued result) queue.new hand.new }
    ensures shape { queue.new.body.shape ≡ queue.old.body.shape }
{
    match hand {
        Hand::Empty => {}
        Hand::Frame { .. } | Hand::Spent { .. } => {
            return Err(LaneFault::Store(StoreFault::HandFull));
        }
    }
    let Ok(bytes) = frame_memory(alloc, spare.take(), queue.frame_bytes() as usize) else {
        return Err(LaneFault::Store(StoreFault::NoMemory));
    };
    match queue.dequeue() {
        Ok(answer) => {
            let index = answer.index;
            *hand = hold(queue, answer, bytes);
            Ok(index)
        }
        Err(errno) => {
            *spare = Some(bytes);
            Err(LaneFault::Queue(errno))
        }
    }
}

/// QBUF of the hand's buffer, whose frame is gone, with its planes; returns its index, and leaves the hand empty.
/// `HandFull` if the hand has a frame, `HandEmpty` if it has nothing, then as `Queue::queue`: then the hand keeps
/// buffer and planes, and the call may be tried again.
pub fn requeue<P: PlaneMemory, A: Allocator + Copy>(
    queue: &mut Queue<P, A>,
    hand: &mut Hand<P, A>,
) -> Result<u32, LaneFault>
    ensures turn { TurnsBeside P.plane queue.old hand.old (requeued result) queue.new hand.new }
    ensures shape { queue.new.body.shape ≡ queue.old.body.shape }
{
    match mem::replace(hand, Hand::Empty) {
        Hand::Empty => Err(LaneFault::Store(StoreFault::HandEmpty)),
        Hand::Frame {
            index,
            frame,
            planes,
        } => {
            *hand = Hand::Frame {
                index,
                frame,
                planes,
            };
            Err(LaneFault::Store(StoreFault::HandFull))
        }
        Hand::Spent { index, planes } => match queue.queue(index, queue.kind(), planes) {
            Ok(()) => Ok(index),
            Err(refused) => {
                *hand = Hand::Spent {
                    index,
                    planes: refused.planes,
                };
                Err(LaneFault::Queue(refused.errno))
            }
        },
    }
}
