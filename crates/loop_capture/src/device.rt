// The device: a source's frames for a queue's buffers. docs/capture.md says why it is so.
ghost use Rattle.std.specs.Prelude.{◌≡◌, IfErr, IfOk, length};
ghost use Rattle.loop_capture.specs.declared.source.Next.TheVariants.{More};
ghost use Rattle.loop_capture.specs.Sources.{StillGave};
ghost use Rattle.loop_capture.specs.Ticks.{Ends, GoesOnFrom, IsLongest, IsNew, SeenDevice, SeenRest, Ticks, sequence_after, sequence_at};
ghost use Rattle.loop_vb2.specs.Planes.{frame_size};

use crate::loan::Loan;
use crate::source::{FrameSource, Next};
use loop_plane::PlaneMemory;
use loop_vb2::{Queue, Stamp};
use std::alloc::{Allocator, Global};
use std::marker::Model;
use std::mem;

/// What a tick did.
#[derive(Clone, Copy, PartialEq, Eq, Debug)]
pub enum Tick {
    /// The device hasn't started. Nothing changed.
    Idle,
    /// The buffer of this index was completed with a frame.
    Completed(u32),
    /// The buffer of this index was given up, since its frame couldn't be got.
    Failed(u32),
    /// A frame was due, and no buffer was active: it is lost.
    Missed,
    /// The source has ended.
    Ended,
    /// The queue's frames have another length than the device's. Nothing changed.
    WrongSize,
}

/// Memory was refused; the source is returned.
#[derive(Drop)]
pub struct NoMemory<S> {
    /// The source that was given.
    pub source: S,
}

/// A capture device: a source, a buffer for the frames that it doesn't lend, the sequence of the next frame, and whether
/// that goes on at a start.
#[derive(Drop)]
pub struct Device<S = Box<dyn FrameSource + Send>, A: Allocator + Copy = Global> {
    source: S,
    frame: Vec<u8, A>,
    next: u32,
    goes_on: bool,
}

/// A device without its source: its buffer, the sequence of the next frame, and whether that goes on at a start.
#[derive(Drop)]
pub struct Rest<A: Allocator + Copy = Global> {
    frame: Vec<u8, A>,
    next: u32,
    goes_on: bool,
}

impl<S, A: Allocator + Copy> Model for Device<S, A> {
    ghost Value = { SeenDevice S };

    ghost view = { λ d. record { source = d.source; size = length d.frame.items; next = d.next; goes_on = d.goes_on } };
}

impl<A: Allocator + Copy> Model for Rest<A> {
    ghost Value = { SeenRest };

    ghost view = { λ r. record { size = length r.frame.items; next = r.next; goes_on = r.goes_on } };
}

impl<S: FrameSource, A: Allocator + Copy> Device<S, A> {
    /// A device for frames of so many bytes, whose sequence is 0 at the first frame after each start. Its buffer is taken
    /// here, and no tick takes memory. NoMemory: the buffer was refused, and the source is returned.
    pub fn new(alloc: A, source: S, frame_bytes: u32) -> Result<Device<S, A>, NoMemory<S>>
        ensures new { IfOk result (IsNew source frame_bytes) }
        ensures back { IfErr result (λ refused. refused.source ≡ source) }
    {
        match vec![in alloc; 0u8; frame_bytes as usize] {
            Ok(frame) => Ok(Device {
                source,
                frame,
                next: 0,
                goes_on: false,
            }),
            Err(_) => Err(NoMemory { source }),
        }
    }

    /// The same, but its first frame has this sequence, and the sequence goes on at each start: it never begins anew.
    pub fn from_number(
        alloc: A,
        source: S,
        frame_bytes: u32,
        first: u32,
    ) -> Result<Device<S, A>, NoMemory<S>>
        ensures new { IfOk result (GoesOnFrom first source frame_bytes) }
        ensures back { IfErr result (λ refused. refused.source ≡ source) }
    {
        match vec![in alloc; 0u8; frame_bytes as usize] {
            Ok(frame) => Ok(Device {
                source,
                frame,
                next: first,
                goes_on: true,
            }),
            Err(_) => Err(NoMemory { source }),
        }
    }

    /// One frame period, at `now` (microseconds). WrongSize, then Idle, change nothing. Otherwise the source is asked
    /// for a frame. More completes the buffer that has been active longest, and Bad fails it; without an active buffer
    /// the frame is Missed. End is Ended. The sequence is 0 at the first frame after a start, or goes on where the device
    /// was made `from_number`. It rises by one with each frame, modulo 2^32, also with one that is Bad or Missed; an End
    /// takes no number.
    pub fn tick<P: PlaneMemory, B: Allocator + Copy>(
        &mut self,
        queue: &mut Queue<P, B>,
        now: u64,
    ) -> Tick
        ensures tick { Ticks S.next_gives P.plane now result self.old self.new queue.old queue.new }
        ensures shape { queue.new.body.shape ≡ queue.old.body.shape }
    {
        if queue.frame_bytes() != self.frame.len() as u64 {
            return Tick::WrongSize;
        }
        if !queue.started() {
            return Tick::Idle;
        }
        let sequence = sequence_at(self.goes_on, queue.take_fresh(), self.next);
        let active = queue.next_active();
        let stamp = Stamp {
            sequence,
            timestamp: now,
        };
        match self.source.make_ready(self.frame.len()) {
            Some(answer) => {
                self.next = sequence_after(answer, sequence);
                end_lent(queue, active, answer, stamp, &mut self.source)
            }
            None => {
                let answer = ask(&mut self.source, &mut self.frame);
                self.next = sequence_after(answer, sequence);
                end_frame(queue, active, answer, stamp, &self.frame)
            }
        }
    }

    /// A device over the source of this one, lent, with this one's buffer and sequence. After the loan this one resumes
    /// with the rest of it. A device that doesn't has no buffer, and its ticks are WrongSize.
    pub fn lend(&mut self) -> Device<Loan<'_, S>, A>
        ensures source { result.source.source.now ≡ self.old.source }
        ensures size { result.size ≡ self.old.size }
        ensures next { result.next ≡ self.old.next }
        ensures goes_on { result.goes_on ≡ self.old.goes_on }
    {
        let none = Vec::new(*self.frame.allocator());
        let frame = mem::replace(&mut self.frame, none);
        Device {
            source: Loan {
                source: &mut self.source,
            },
            frame,
            next: self.next,
            goes_on: self.goes_on,
        }
    }

    /// What a device leaves without its source, as one whose source was lent.
    pub fn into_rest(self) -> Rest<A>
        ensures size { result.size ≡ self.size }
        ensures next { result.next ≡ self.next }
        ensures goes_on { result.goes_on ≡ self.goes_on }
    {
        let Device {
            source: _,
            frame,
            next,
            goes_on,
        } = self;
        Rest {
            frame,
            next,
            goes_on,
        }
    }

    /// Takes the buffer and the sequence that a device left, as one to which its source was lent.
    pub fn resume(&mut self, rest: Rest<A>)
        ensures { self.new ≡ record {
          source = self.old.source;
          size = rest.size;
          next = rest.next;
          goes_on = rest.goes_on;
        } }
    {
        let Rest {
            frame,
            next,
            goes_on,
        } = rest;
        self.frame = frame;
        self.next = next;
        self.goes_on = goes_on;
    }

    /// The sequence of its next frame; after a start this counts only where the sequence goes on.
    pub fn next_sequence(&self) -> u32
        ensures { result ≡ self.now.next }
    {
        self.next
    }

    /// What is to be among the flags of the frame of the last tick that completed a buffer: its source says so.
    pub fn mark(&self) -> u32 {
        self.source.mark()
    }
}

// Asks a source for a frame as long as this buffer.
fn ask<S: FrameSource, A: Allocator + Copy>(source: &mut S, frame: &mut Vec<u8, A>) -> Next
    ensures gives { S.next_gives source.old result frame.new.items source.new }
    ensures size { length frame.new.items ≡ length frame.old.items }
{
    source.next(frame)
}

// The sequence of a frame that is taken now, the first after a start where it is fresh.
fn sequence_at(goes_on: bool, fresh: bool, next: u32) -> u32
    ensures { result ≡ sequence_at goes_on fresh next }
{
    if fresh && !goes_on { 0 } else { next }
}

// The sequence of the next frame.
fn sequence_after(answer: Next, sequence: u32) -> u32
    ensures { result ≡ sequence_after answer sequence }
{
    match answer {
        Next::End => sequence,
        Next::More | Next::Bad => sequence.wrapping_add(1),
    }
}

// Ends the buffer that has been active longest, as the source answered.
fn end_frame<P: PlaneMemory, A: Allocator + Copy>(
    queue: &mut Queue<P, A>,
    active: Option<u32>,
    answer: Next,
    stamp: Stamp,
    bytes: &[u8],
) -> Tick
    requires whole { answer ≡ More → length bytes.now ≡ frame_size queue.old.body.shape }
    requires active { IsLongest P.plane active queue.old }
    ensures ends { Ends P.plane answer stamp bytes.now result queue.old queue.new }
    ensures shape { queue.new.body.shape ≡ queue.old.body.shape }
{
    match (answer, active) {
        (Next::End, _) => Tick::Ended,
        (_, None) => Tick::Missed,
        (Next::More, Some(index)) => match queue.complete(index, stamp, bytes) {
            Ok(()) => Tick::Completed(index),
            Err(_) => Tick::Missed,
        },
        (Next::Bad, Some(index)) => match queue.fail(index, stamp) {
            Ok(()) => Tick::Failed(index),
            Err(_) => Tick::Missed,
        },
    }
}

// The same with the frame that a source lends. Where it gives the row of a frame, a plane may take that for its own.
fn end_lent<S: FrameSource, P: PlaneMemory, A: Allocator + Copy>(
    queue: &mut Queue<P, A>,
    active: Option<u32>,
    answer: Next,
    stamp: Stamp,
    source: &mut S,
) -> Tick
    requires whole { answer ≡ More → length (S.lends source.old) ≡ frame_size queue.old.body.shape }
    requires active { IsLongest P.plane active queue.old }
    ensures ends { Ends P.plane answer stamp (S.lends source.old) result queue.old queue.new }
    ensures shape { queue.new.body.shape ≡ queue.old.body.shape }
    ensures gave { StillGave S.next_gives source.old source.new }
{
    let (Next::More, Some(index)) = (answer, active) else {
        return end_frame(queue, active, answer, stamp, source.lent());
    };
    let Some(mut row) = source.give_row() else {
        return end_frame(queue, active, answer, stamp, source.lent());
    };
    let ended = queue.complete_from(index, stamp, &mut row);
    source.return_row(row);
    match ended {
        Ok(()) => Tick::Completed(index),
        Err(_) => Tick::Missed,
    }
}
