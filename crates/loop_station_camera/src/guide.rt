//! What guides a camera's filming: its source's frames, its life, and the orders between the flushes.

use crate::clerk::{attend, one_must_reopen, take_joined};
use crate::state::CameraState;
use loop_capture::Tick;
use loop_desk::Flushed;
use loop_disk::Disk;
use loop_pipeline::{Back, Desks, Guide, LostFrame, Reports, Told, ToldTick};
use loop_station_core::{Act, FilmingEvent};
use loop_store::StoreFault;
use std::alloc::Global;
use std::sync::Wait;
use std::time::{Clock, Duration};

// How many milliseconds a device waits for a frame before it looks whether its filming is over.
const LOOK_AGAIN: u64 = 50;

impl Reports for CameraState {
    fn brought<R: Wait, D: Disk + Drop>(
        &self,
        rt: &R,
        _back: &Back<D, CameraState>,
        _number: Told<u64>,
    ) {
        self.life.bring(rt, self.come(rt));
    }

    fn gave_up<R: Wait, D: Disk + Drop>(
        &self,
        rt: &R,
        _back: &Back<D, CameraState>,
        _frame: Told<LostFrame>,
    ) {
        self.give_up(rt);
    }

    fn stored<R: Wait, D: Disk + Drop>(
        &self,
        rt: &R,
        back: &Back<D, CameraState>,
        done: Told<Flushed>,
    ) {
        self.count_stored(rt, back.desks().active(), done.what());
    }

    /// Where each block is locked, the frames wait until the program ends. Where the disk failed, the filming ends, and
    /// the store is opened again.
    fn flushes_again<R: Wait>(&self, rt: &R, fault: StoreFault) -> bool {
        let event = match fault {
            StoreFault::AllLocked => FilmingEvent::AllLocked,
            _ => FilmingEvent::Break,
        };
        self.life.on(rt, event) == Act::FlushAgain
    }
}

impl Guide for CameraState {
    /// A tick for each frame of the source, at the time when it came. While stores are still to be opened, frames wait
    /// in memory where one would take the place of another that may not be the oldest; a stop doesn't wait for that.
    fn next_tick<R: Wait + Clock>(&self, rt: &R, _n: u64) -> Option<u64> {
        for _ in rt.forever() {
            let (come, taken) = self.feed.counts(rt);
            // A frame before which some were lost waits for their ticks.
            let taken = taken.saturating_sub(u64::from(self.feed.is_ready(rt)));
            if !self.life.camera(rt).films(come, taken) {
                return None;
            }
            if self.stored.is_opening(rt) && !self.is_stopped(rt) {
                let is_full = self.feed.is_full(rt);
                if self.stored.holds_back(rt, taken, is_full) {
                    // What it returns is looked at anew.
                    let _full = self.feed.wait_full(rt, Duration::from_millis(LOOK_AGAIN));
                    continue;
                }
            }
            if let Some(time) = self.feed.make_ready(rt, Duration::from_millis(LOOK_AGAIN)) {
                return Some(time);
            }
        }
        unreachable!()
    }

    fn ticked<R: Wait>(&self, rt: &R, tick: ToldTick) {
        match tick.tick() {
            Tick::Completed(_) | Tick::Failed(_) => {}
            Tick::Missed => self.lose(rt),
            Tick::Idle | Tick::Ended | Tick::WrongSize => {
                self.life.on(rt, FilmingEvent::Break);
            }
        }
    }

    fn lacked<R: Wait>(&self, rt: &R) {
        self.lose(rt);
    }

    /// While further stores are opened, one of them may have room: the frames wait for it, and nothing is told.
    fn all_locked<R: Wait, D: Disk + Drop>(&self, rt: &R, _back: &Back<D, CameraState>) -> bool {
        let camera = self.life.camera(rt);
        if self.stored.is_opening(rt) && !camera.over && !camera.stopping {
            return true;
        }
        self.flushes_again(rt, StoreFault::AllLocked)
    }

    /// Orders are done only while the desk works. Once it is broken the filming ends, and the store is opened again.
    fn visit<R: Wait + Clock, D: Disk + Drop>(
        &self,
        rt: &R,
        alloc: Global,
        desks: &mut Desks<D, CameraState>,
    ) {
        take_joined(rt, self, desks.count());
        if !self.life.camera(rt).over {
            attend(rt, alloc, self, desks);
        }
        // A lock or an unlock may have failed on a disk while no frame waits, so no flush would report it.
        if one_must_reopen(desks) {
            self.life.on(rt, FilmingEvent::Break);
        }
    }
}
