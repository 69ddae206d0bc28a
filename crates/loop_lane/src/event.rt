//! What a lane is asked for, and what it answers.

use loop_desk::{Flushed, LaneFault};
use loop_ioctl::{QueueEvent, QueueReply};
use loop_plane::PlaneMemory;
use loop_record::Span;
use loop_store::{ReadFrame, StoreFault};
use std::alloc::{Allocator, Global};

/// An event of a lane.
#[derive(Drop)]
pub enum LaneEvent<P = Box<dyn PlaneMemory + Send>, A: Allocator = Global> {
    /// A call of the queue, by the application or the device. DQBUF of the queue's own type is the event `Dequeue`.
    Queue(QueueEvent<P, A>),
    /// Take the buffer that ended first into the hand.
    Dequeue,
    /// Give the hand's frame to the desk.
    Submit,
    /// Queue the hand's buffer again.
    Requeue,
    /// Flush the desk.
    Flush,
    /// Lock the frames of a span, with its tag.
    Lock(Span),
    /// Unlock the clip of an id.
    Unlock(u32),
    /// Read the frame of a number.
    Read(u64),
}

/// What an event's own call returns. Planes and frames in the hand aren't part of it.
#[derive(Drop)]
pub enum LaneReply<P = Box<dyn PlaneMemory + Send>, A: Allocator = Global> {
    /// The queue's reply, or `WrongSize` for a Complete whose length isn't that of a frame.
    Queue(Result<QueueReply<P, A>, LaneFault>),
    /// The index of the buffer that was taken.
    Dequeue(Result<u32, LaneFault>),
    /// The number that the frame will have.
    Submit(Result<u64, StoreFault>),
    /// The index of the buffer that was queued again.
    Requeue(Result<u32, LaneFault>),
    /// What was stored.
    Flush(Result<Flushed, StoreFault>),
    /// The id of the clip that was locked.
    Lock(Result<u32, StoreFault>),
    /// The clip was unlocked.
    Unlock(Result<(), StoreFault>),
    /// The frame that was read.
    Read(Result<ReadFrame<A>, StoreFault>),
}
