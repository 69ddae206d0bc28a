//! What is said of the frames of a camera's source, and what is known of those that it lost.

use loop_record::missing;
use loop_station_core::{MOST_DISTANCES, lost_by_time};
use loop_station_words::LossesFrom;
use std::alloc::Global;
use std::mem;

// How many frames are lost at once at most: where more numbers are left out, these began anew.
const MOST_LOST: u64 = 65_535;

/// What is said of a frame.
#[derive(Clone, Copy)]
pub struct Said {
    /// How many bits a sample has.
    pub bits: u32,
    /// The time that its source says, if it says one.
    pub time: Option<u64>,
    /// Its time is that which its source says, and not when it came.
    pub by_source: bool,
    /// How long a frame lasts at the source's rate.
    pub period: u64,
    /// Its number, if its source numbers frames.
    pub number: Option<u64>,
    /// How lost frames are known.
    pub losses: LossesFrom,
}

/// How many frames a camera's source lost, since the program began.
#[derive(Clone, Copy, Debug, PartialEq, Eq)]
pub struct Lost {
    /// All of them.
    pub lost: u64,
    /// Those of them that were judged by time.
    pub estimated: u64,
}

/// What is known of the frames that a source lost.
#[derive(Drop)]
pub(crate) struct Losses {
    counted: Lost,
    // The number and the time of the newest frame of the stream.
    number: Option<u64>,
    time: Option<u64>,
    // That number began anew.
    anew: bool,
    // How far apart the newest frames of the stream came, in no order, and the place of the next.
    distances: Vec<u64>,
    next: usize,
}

impl Losses {
    /// No frame has come.
    pub(crate) fn new(alloc: Global) -> Losses {
        Losses {
            counted: Lost {
                lost: 0,
                estimated: 0,
            },
            number: None,
            time: None,
            anew: false,
            distances: Vec::new(alloc),
            next: 0,
        }
    }

    /// Another stream begins, or frames were dropped: what lies before the next frame isn't lost.
    pub(crate) fn begin(&mut self) {
        self.number = None;
        self.time = None;
        self.anew = false;
        self.distances.clear();
        self.next = 0;
    }

    /// How many are lost.
    pub(crate) fn counted(&self) -> Lost {
        self.counted
    }

    /// A frame has come, of which this is said, at a time; `on_time`: the station itself let none wait. Returns how many
    /// were lost before it, and whether its number begins anew, after numbers that followed one another.
    pub(crate) fn on(&mut self, said: &Said, time: u64, on_time: bool) -> (u64, bool) {
        let (last, before) = (self.number, self.time);
        self.number = said.number;
        self.time = Some(time);
        let estimated = self.estimated(said, before, time, on_time);
        let number = said.number;
        let lost = match said.losses {
            LossesFrom::Nothing => Some(0),
            LossesFrom::Numbers => match number {
                Some(next) => by_number(last, next),
                None => Some(0),
            },
            LossesFrom::Either => match number {
                Some(next) => by_number(last, next),
                None => self.judged_lost(estimated),
            },
            LossesFrom::Times => self.judged_lost(estimated),
        };
        let was_anew = mem::replace(&mut self.anew, lost.is_none());
        let count = lost.unwrap_or(0);
        self.counted.lost = self.counted.lost.saturating_add(count);
        (count, self.anew && !was_anew)
    }

    // So many were lost, as judged by time.
    fn judged_lost(&mut self, estimated: u64) -> Option<u64> {
        self.counted.estimated = self.counted.estimated.saturating_add(estimated);
        Some(estimated)
    }

    // How many were lost by how far apart two frames came, which is known from then on.
    fn estimated(&mut self, said: &Said, before: Option<u64>, time: u64, on_time: bool) -> u64 {
        let Some(before) = before else {
            return 0;
        };
        if !on_time {
            return 0;
        }
        let distance = time.saturating_sub(before);
        let lost = lost_by_time(self.distances.as_slice(), said.period, distance);
        self.keep(distance);
        lost.min(MOST_LOST)
    }

    // Keeps a distance in the place of the oldest one. Where memory is refused, fewer are known.
    fn keep(&mut self, distance: u64) {
        match self.distances.get_mut(self.next) {
            Some(place) => *place = distance,
            None => {
                let _fewer = self.distances.push(distance);
            }
        }
        self.next = self.next.wrapping_add(1) % MOST_DISTANCES;
    }
}

// How many numbers are left out between two; None where they begin anew.
fn by_number(last: Option<u64>, next: u64) -> Option<u64> {
    match last {
        Some(last) => missing(last, next, 0, MOST_LOST),
        None => Some(0),
    }
}
