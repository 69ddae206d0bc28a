//! What a camera's threads ask and report.

ghost use Rattle.std.specs.Prelude.{◌≡◌, IfSome, None};
ghost use Rattle.loop_capture.specs.Ticks.{Ticks};
ghost use Rattle.loop_pipeline.specs.Turns.{AllLocked};

use crate::{Back, Desks, Reports};
use loop_capture::{Device, FrameSource, Tick};
use loop_disk::Disk;
use loop_plane::PlaneMemory;
use loop_store::StoreFault;
use loop_vb2::Queue;
use std::alloc::{Allocator, Global};
use std::marker::Model;
use std::sync::Wait;
use std::time::Clock;

/// What a tick did, before the guide is told: it can't be let go, and there is no copy.
pub struct UntoldTick {
    tick: Tick,
}

/// What a tick did. Nothing makes one but telling it to a guide, once a tick.
#[derive(Drop)]
pub struct ToldTick {
    tick: Tick,
}

impl Model for UntoldTick {
    ghost use Rattle.loop_capture.specs.declared.device.Tick.{Tick};

    ghost Value = { Tick };

    ghost view = { λ untold. untold.tick };
}

impl Model for ToldTick {
    ghost use Rattle.loop_capture.specs.declared.device.Tick.{Tick};

    ghost Value = { Tick };

    ghost view = { λ told. told.tick };
}

impl ToldTick {
    /// What the tick did.
    pub fn tick(&self) -> Tick
        ensures { result ≡ self.now }
    {
        self.tick
    }
}

impl UntoldTick {
    /// The next tick of a device, as `Device::tick`. Nothing else makes one.
    pub(crate) fn of<S: FrameSource, P: PlaneMemory, A: Allocator + Copy>(
        device: &mut Device<S, A>,
        queue: &mut Queue<P, A>,
        now: u64,
    ) -> UntoldTick
        ensures tick { Ticks S.next_gives P.plane now result device.old device.new queue.old queue.new }
        ensures shape { queue.new.body.shape ≡ queue.old.body.shape }
    {
        UntoldTick {
            tick: device.tick(queue, now),
        }
    }

    /// What the tick did.
    pub fn tick(&self) -> Tick
        ensures { result ≡ self.now }
    {
        self.tick
    }

    /// Tells the guide. A tick that isn't told can't be let go.
    pub fn tell<R: Wait, G: Guide>(self, rt: &R, guide: &G) {
        let UntoldTick { tick } = self;
        guide.ticked(rt, ToldTick { tick });
    }
}

/// What the two threads of a camera ask and report. Each call may wait. The calls that only report do nothing by
/// default.
pub trait Guide: Reports {
    ghost use Rattle.std.specs.Prelude.{ℕ, ⊤};

    /// Holds of the number of a tick and of each time, in microseconds, at which it may be.
    ghost due: { Self → ℕ → ℕ → Type 0 } = { λ guide n now. ⊤ };

    /// Holds of each number of ticks after which the device may be ended.
    ghost ends: { Self → ℕ → Type 0 } = { λ guide n. ⊤ };

    /// When tick `n` of the camera's device is, in microseconds; None if the device is to end.
    fn next_tick<R: Wait + Clock>(&self, rt: &R, n: u64) -> Option<u64>
        ensures due { IfSome result (due self.now n) }
        ensures ends { result ≡ None → ends self.now n };

    /// A frame was taken from the queue.
    fn dequeued<R: Wait>(&self, rt: &R) {}

    /// What a tick did.
    fn ticked<R: Wait>(&self, rt: &R, tick: ToldTick) {}

    /// A buffer came back without a frame, which its tick couldn't get.
    fn lacked<R: Wait>(&self, rt: &R) {}

    /// A flush begins; the disk isn't written yet.
    fn flushing<R: Wait>(&self, rt: &R) {}

    /// All is locked: the active desk is between two blocks, and no store has a free segment or a block that may go. It
    /// is called each time round in which that is so, but not for one desk that no other joins. Whether frames wait in
    /// the ring meanwhile; if not, they are brought to the active desk, where a flush is refused. By default they wait
    /// if such a flush is tried again.
    fn all_locked<R: Wait, D: Disk + Drop>(&self, rt: &R, back: &Back<D, Self>) -> bool
        requires { AllLocked D.medium back.now.desks back.now.active }
    {
        self.flushes_again(rt, StoreFault::AllLocked)
    }

    /// Serves what others ask of the desks, which are lent to it. It is called between flushes, by the desks' own
    /// thread. Where a visit locks, it stores first what waits at the active desk: no other takes those frames.
    fn visit<R: Wait + Clock, D: Disk + Drop>(
        &self,
        rt: &R,
        alloc: Global,
        desks: &mut Desks<D, Self>,
    )
        ensures { desks.new.lent ≡ desks.old.lent }
    {}
}
