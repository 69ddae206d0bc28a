//! What guides a camera of a recording.

ghost use Rattle.loop_recorder.specs.Recordings.{IsTickTime};

use crate::{Pace, Step};
use loop_desk::Flushed;
use loop_disk::Disk;
use loop_pipeline::{Back, Desks, Guide, Noting, Reports, Told, ToldTick, Visits};
use loop_record::Geometry;
use loop_store::StoreFault;
use std::alloc::Global;
use std::sync::Wait;
use std::sync::atomic::{AtomicU64, Ordering};
use std::time::Clock;

/// What guides a camera: so many ticks at the rate of its store, and no flush after one that was refused. The newest
/// frame that a flush stored is read. Each step is reported, at none of which a lock is held.
#[derive(Drop)]
pub(crate) struct Post<W: Pace> {
    /// What observes the steps.
    pub pace: W,
    /// The camera's number.
    pub camera: u32,
    /// How many ticks its device makes.
    pub frames: u32,
    /// The geometry of its store.
    pub geometry: Geometry,
    /// One more than the number of the newest frame that was stored and isn't read yet; 0 if there is none.
    pub unread: AtomicU64,
}

/// Passes what is reported on to another's pace.
#[derive(Drop)]
pub(crate) struct Watch<'a, Q: Pace>(pub &'a Q);

impl<'a, Q: Pace> Pace for Watch<'a, Q> {
    fn reached(&self, camera: u32, step: Step) {
        self.0.reached(camera, step);
    }
}

// When tick `n` is, in microseconds, at the rate of a store, rounded down; at most 2^64 - 1.
fn tick_time(n: u64, geometry: &Geometry) -> u64
    ensures { IsTickTime geometry.now n result }
{
    let rate_num = u128::from(geometry.rate_num.max(1));
    let micros = u128::from(n) * 1_000_000 * u128::from(geometry.rate_den) / rate_num;
    u64::try_from(micros).unwrap_or(u64::MAX)
}

/// The calls of its desk are noted.
impl<W: Pace> Noting for Post<W> {
    ghost use Rattle.std.specs.Prelude.{true};

    ghost NOTED = { true };

    const NOTED: bool = true;
}

/// Besides submits and flushes it reads.
impl<W: Pace> Visits for Post<W> {
    ghost use Rattle.loop_recorder.specs.Recordings.{IsRead};

    ghost asks = { IsRead };

    const VISITED: bool = true;
}

impl<W: Pace> Reports for Post<W> {
    fn brought<R: Wait, D: Disk + Drop>(&self, _rt: &R, _back: &Back<D, Self>, _number: Told<u64>) {
        self.pace.reached(self.camera, Step::Submitted);
    }

    fn stored<R: Wait, D: Disk + Drop>(&self, _rt: &R, _back: &Back<D, Self>, done: Told<Flushed>) {
        let done = done.what();
        if done.stored > 0 {
            let behind = done.first.saturating_add(u64::from(done.stored));
            self.unread.store(behind, Ordering::SeqCst);
        }
        self.pace.reached(self.camera, Step::Flushed);
    }

    // Only after a flush that was refused.
    fn flushes_again<R: Wait>(&self, _rt: &R, _fault: StoreFault) -> bool {
        self.pace.reached(self.camera, Step::Flushed);
        false
    }
}

impl<W: Pace> Guide for Post<W> {
    ghost use Rattle.std.specs.Prelude.{◌≤◌};
    ghost use Rattle.loop_recorder.specs.Recordings.{IsTickTime};

    ghost due = { λ post n now. IsTickTime post.geometry n now };

    ghost ends = { λ post n. post.frames ≤ n };

    fn next_tick<R: Wait + Clock>(&self, _rt: &R, n: u64) -> Option<u64> {
        if n >= u64::from(self.frames) {
            return None;
        }
        Some(tick_time(n, &self.geometry))
    }

    fn dequeued<R: Wait>(&self, _rt: &R) {
        self.pace.reached(self.camera, Step::Dequeued);
    }

    fn ticked<R: Wait>(&self, _rt: &R, _tick: ToldTick) {
        self.pace.reached(self.camera, Step::Ticked);
    }

    fn flushing<R: Wait>(&self, _rt: &R) {
        self.pace.reached(self.camera, Step::FlushLocked);
    }

    // A camera of a recording has one desk, so this isn't reached.
    fn all_locked<R: Wait, D: Disk + Drop>(&self, _rt: &R, _back: &Back<D, Self>) -> bool {
        false
    }

    fn visit<R: Wait + Clock, D: Disk + Drop>(
        &self,
        _rt: &R,
        alloc: Global,
        desks: &mut Desks<D, Self>,
    ) {
        let behind = self.unread.swap(0, Ordering::SeqCst);
        if behind == 0 {
            return;
        }
        let place = desks.active();
        let Some(answer) = desks.read_noted(alloc, place, behind - 1) else {
            return;
        };
        // The pass has the receipt of a refused read too; the next frame may be read.
        if let Ok(frame) = answer {
            desks.return_memory(frame.bytes);
        }
        self.pace.reached(self.camera, Step::Read);
    }
}
