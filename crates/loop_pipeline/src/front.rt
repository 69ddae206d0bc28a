//! A device, its queue, and the end of the ring to which its frames go: owned by one thread.

ghost use Rattle.std.specs.Prelude.{◌≡◌, ◌<◌, ◌≤◌, ◌++◌, [], IfErr, IfOk, get_or, true};
ghost use Rattle.rtrb.specs.Ring.{SameProducer, known_free, sent};
ghost use Rattle.loop_desk.specs.Front.{hand_state};
ghost use Rattle.loop_pipeline.specs.Fronts.{Leaves, emptied, fails, is_last, made_of, marked_frame, misses, StandsPort};

use crate::{Guide, UntoldTick};
use loop_capture::{Device, FrameSource, Tick};
use loop_desk::front::{dequeue, requeue};
use loop_desk::laws::{frames_are_kept, queues_stay_sound};
use loop_desk::{Hand, LaneFault};
use loop_plane::{FdTable, PlaneMemory};
use loop_record::Frame;
use loop_vb2::Queue;
use rtrb::Producer;
use std::alloc::{Allocator, Global};
use std::marker::Model;
use std::mem;
use std::snapshot::Snapshot;
use std::sync::Wait;
use std::time::Clock;

// The most buffers of a queue.
const MAX_BUFFERS: usize = 32;

/// What came of taking the frame that waits first.
#[derive(Drop)]
pub enum TakeOutcome {
    /// It is in the ring.
    Frame,
    /// The buffer that was done first has no frame: the device gave it up.
    NoFrame,
    /// The ring is full, and nothing changed.
    RingFull,
    /// The hand still has a buffer, no buffer is done, or memory was refused.
    Refused(LaneFault),
}

/// A camera's device, its queue with the table of fds, the hand that takes buffers out of the queue, and the end of the
/// ring to which their frames go. Contracts see queue, device and ring as they were when it was made, and the guide.
#[derive(Drop)]
pub struct Front<S: FrameSource + Drop, P: PlaneMemory, G: Guide, A: Allocator + Copy = Global> {
    device: Device<S, A>,
    queue: Queue<P, A>,
    table: FdTable<P, A>,
    hand: Hand<P, A>,
    to: Producer<Frame<A>, A>,
    ticks: u64,
    missed: u64,
    failed: u64,
    /// The mark of the frame that each buffer got last: its source's, for the frame's flags.
    marks: [u32; MAX_BUFFERS],
    /// Its guide or its source has ended it.
    over: bool,
    guide: Snapshot<G>,
    queue_before: Snapshot<Queue<P, A>>,
    device_before: Snapshot<Device<S, A>>,
    to_before: Snapshot<Producer<Frame<A>, A>>,
}

/// What a front was made of, as it was then.
#[derive(Drop)]
pub struct Begun<S: FrameSource + Drop, P: PlaneMemory, G: Guide, A: Allocator + Copy = Global> {
    /// Its queue.
    pub queue: Snapshot<Queue<P, A>>,
    /// Its device.
    pub device: Snapshot<Device<S, A>>,
    /// The end of its ring.
    pub to: Snapshot<Producer<Frame<A>, A>>,
    /// Its guide.
    pub guide: Snapshot<G>,
}

impl<S: FrameSource + Drop, P: PlaneMemory, G: Guide, A: Allocator + Copy> Begun<S, P, G, A> {
    /// The record of these, as they are now.
    pub fn of(
        queue: &Queue<P, A>,
        device: &Device<S, A>,
        to: &Producer<Frame<A>, A>,
        guide: &G,
    ) -> Self
        ensures { made_of result
            ≡ record { queue = queue.now; device = device.now; to = to.now; guide = guide.now } }
    {
        Begun {
            queue: Snapshot::of(queue),
            device: Snapshot::of(device),
            to: Snapshot::of(to),
            guide: Snapshot::of(guide),
        }
    }
}

/// What is left of a front.
#[derive(Drop)]
pub struct FrontParts<S: FrameSource + Drop, P: PlaneMemory, A: Allocator + Copy = Global> {
    /// Its device.
    pub device: Device<S, A>,
    /// Its queue.
    pub queue: Queue<P, A>,
    /// What fds name.
    pub table: FdTable<P, A>,
    /// The buffer that isn't queued again, if there is one.
    pub hand: Hand<P, A>,
    /// The end of its ring.
    pub to: Producer<Frame<A>, A>,
    /// How many ticks lost a frame because no buffer was active.
    pub missed: u64,
    /// How many ticks lost a frame because it couldn't be got.
    pub failed: u64,
    /// Whether its guide or its source has ended it.
    pub over: bool,
}

impl<S: FrameSource + Drop, P: PlaneMemory, G: Guide, A: Allocator + Copy> Model
    for Front<S, P, G, A> {
    ghost use Rattle.loop_pipeline.specs.Fronts.{HasMoved, SeenFront};

    ghost Value = { SeenFront S P G A };

    ghost view = { λ f. record {
      queue = f.queue_before.value;
      device = f.device_before.value;
      to = f.to_before.value;
      guide = f.guide.value;
    } };

    ghost invariant = { λ f. HasMoved S.next_gives P.plane (G.due f.guide.value) (G.ends f.guide.value)
        (record {
          queue = f.queue_before.value;
          device = f.device_before.value;
          to = f.to_before.value;
          guide = f.guide.value;
        })
        f.device f.queue f.table f.hand f.to f.ticks f.missed f.failed f.over };
}

// The mark of the frame that a buffer got last.
fn mark_at(marks: &[u32], index: u32) -> u32
    ensures { result ≡ get_or marks.now index 0 }
{
    let index = index as usize;
    if index < marks.len() { marks[index] } else { 0 }
}

// Keeps the mark of the frame that a tick completed a buffer with.
fn keep_mark(marks: &mut [u32], tick: Tick, mark: u32) {
    if let Tick::Completed(index) = tick {
        let index = index as usize;
        if index < marks.len() {
            marks[index] = mark;
        }
    }
}

// Pushes the hand's frame into a ring that has room, with its buffer's mark in its flags; returns what came of it.
fn give<P: PlaneMemory, A: Allocator + Copy>(
    hand: &mut Hand<P, A>,
    to: &mut Producer<Frame<A>, A>,
    marks: &[u32],
) -> TakeOutcome
    requires { 0 < known_free to.old }
    ensures hand { hand_state P.plane hand.new ≡ emptied (hand_state P.plane hand.old) }
    ensures ring { SameProducer to.old to.new }
    ensures sent { sent to.new ≡ sent to.old ++ marked_frame marks.now hand.old }
{
    match mem::replace(hand, Hand::Empty) {
        Hand::Frame {
            index,
            mut frame,
            planes,
        } => {
            *hand = Hand::Spent { index, planes };
            frame.flags |= mark_at(marks, index);
            to.push_reserved(frame);
            TakeOutcome::Frame
        }
        other => {
            *hand = other;
            TakeOutcome::NoFrame
        }
    }
}

// How many frames a tick lost because no buffer was active: one or none.
fn missed_by(tick: Tick) -> u64
    ensures value { result ≡ misses tick }
    ensures few { result ≤ 1 }
{
    match tick {
        Tick::Missed => 1,
        Tick::Completed(_) | Tick::Failed(_) | Tick::Idle | Tick::Ended | Tick::WrongSize => 0,
    }
}

// How many frames a tick lost because they couldn't be got: one or none.
fn failed_by(tick: Tick) -> u64
    ensures value { result ≡ fails tick }
    ensures few { result ≤ 1 }
{
    match tick {
        Tick::Failed(_) => 1,
        Tick::Completed(_) | Tick::Missed | Tick::Idle | Tick::Ended | Tick::WrongSize => 0,
    }
}

// Whether no tick comes after this one: the source has ended.
fn is_last(tick: Tick) -> bool
    ensures { result ≡ is_last tick }
{
    match tick {
        Tick::Ended => true,
        Tick::Completed(_) | Tick::Failed(_) | Tick::Missed => false,
        Tick::Idle | Tick::WrongSize => false,
    }
}

impl<S: FrameSource + Drop, P: PlaneMemory, G: Guide, A: Allocator + Copy> Front<S, P, G, A> {
    /// A front with this device, this queue with its table, and the end of a ring into which nothing was pushed yet. It
    /// ticks when this guide says so.
    pub fn new(
        device: Device<S, A>,
        queue: Queue<P, A>,
        table: FdTable<P, A>,
        to: Producer<Frame<A>, A>,
        guide: &G,
    ) -> Self
        requires ready { StandsPort P.plane queue table }
        requires ring { sent to ≡ [] }
        ensures { result ≡ record { queue = queue; device = device; to = to; guide = guide.now } }
    {
        let guide = Snapshot::of(guide);
        let queue_before = Snapshot::of(&queue);
        let device_before = Snapshot::of(&device);
        let to_before = Snapshot::of(&to);
        Front {
            device,
            queue,
            table,
            hand: Hand::Empty,
            to,
            ticks: 0,
            missed: 0,
            failed: 0,
            marks: [0; MAX_BUFFERS],
            over: false,
            guide,
            queue_before,
            device_before,
            to_before,
        }
    }

    /// The next tick of the device, as `Device::tick`, when its guide says so; frames that it lost are counted. None:
    /// the guide ends the device, or no more ticks can be counted.
    pub fn tick<R: Wait + Clock>(&mut self, rt: &R, guide: &G) -> Option<UntoldTick>
        requires { guide.now ≡ self.old.guide }
        ensures { self.new ≡ self.old }
    {
        if self.ticks == u64::MAX {
            self.over = true;
            return None;
        }
        let Some(now) = guide.next_tick(rt, self.ticks) else {
            self.over = true;
            return None;
        };
        let untold = UntoldTick::of(&mut self.device, &mut self.queue, now);
        let tick = untold.tick();
        keep_mark(&mut self.marks, tick, self.device.mark());
        self.ticks += 1;
        self.missed += missed_by(tick);
        self.failed += failed_by(tick);
        self.over = is_last(tick);
        Some(untold)
    }

    /// Whether a buffer is done, or its frame was given up, and can be dequeued. It promises nothing.
    pub fn has_done(&self) -> bool {
        self.queue.has_done()
    }

    /// Moves the frame that waits first into the ring, with the mark that its source gave it in its flags. Its memory
    /// is `spare`, or new. The buffer stays in the hand until `put_back`.
    pub fn take(&mut self, alloc: A, spare: &mut Option<Vec<u8, A>>) -> TakeOutcome
        ensures { self.new ≡ self.old }
    {
        if self.to.is_full() {
            return TakeOutcome::RingFull;
        }
        match dequeue(alloc, &mut self.queue, &mut self.hand, spare) {
            Err(fault) => TakeOutcome::Refused(fault),
            Ok(_) => give(&mut self.hand, &mut self.to, &self.marks),
        }
    }

    /// Queues the hand's buffer again; returns its index. A refusal leaves it in the hand.
    pub fn put_back(&mut self) -> Result<u32, LaneFault>
        ensures { self.new ≡ self.old }
    {
        requeue(&mut self.queue, &mut self.hand)
    }

    /// What is left of it, if its guide or its source has ended it; itself, if not.
    pub fn into_ended(self) -> Result<FrontParts<S, P, A>, Self>
        ensures ended { IfOk result (λ parts. (parts.over ≡ true)
            × Leaves S.next_gives P.plane (G.due self.guide) (G.ends self.guide) self parts) }
        ensures before { IfErr result (λ front. front ≡ self) }
    {
        if !self.over {
            return Err(self);
        }
        frames_are_kept::<P>();
        queues_stay_sound::<P>();
        let Front {
            device,
            queue,
            table,
            hand,
            to,
            ticks: _,
            missed,
            failed,
            marks: _,
            over: _,
            guide: _,
            queue_before: _,
            device_before: _,
            to_before: _,
        } = self;
        Ok(FrontParts {
            device,
            queue,
            table,
            hand,
            to,
            missed,
            failed,
            over: true,
        })
    }
}
