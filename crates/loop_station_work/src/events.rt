//! Events: what happens to a camera without an order. Each is told once.
//!
//! A thread looks at the state of each camera ten times a second, and tells what has changed, as loop_station_core
//! decides: its source, its store and how far that is made, frames that were given up, blocks that are all locked, and
//! a disk that is slow. What lasted for less than a tenth of a second isn't told, but frames that were given up always
//! are.

use crate::stores::limits_for;
use loop_station_camera::{CameraState, tell_source_on, tell_times};
use loop_station_core::{Change, DiskSeen, KINDS, NOT_THERE_YET, Reported, Seen, StoreSeen};
use loop_station_outside::Absent;
use loop_station_words::{Lines, held_of_asked, size_of};
use std::io;
use std::sync::Wait;
use std::time::{Clock, Duration};

/// What was last told of a camera.
#[derive(Clone, Copy)]
pub struct LastReported {
    reported: Reported,
    // Why the store wasn't there when that was looked at last, and the number of that cause.
    absent: Option<Absent>,
    cause: u32,
}

impl LastReported {
    /// Nothing is told yet at this time.
    pub fn new(now: u64) -> LastReported {
        LastReported {
            reported: Reported::new(now),
            absent: None,
            cause: NOT_THERE_YET,
        }
    }

    // What is seen of a camera's store.
    fn store_seen<R: Wait>(&mut self, rt: &R, state: &CameraState) -> StoreSeen {
        match state.jobs.attended(rt) {
            None => StoreSeen::Unknown,
            Some(Ok(())) => StoreSeen::Open,
            Some(Err(Absent::Stopped)) => StoreSeen::Stopped,
            Some(Err(Absent::NoStore)) => match state.life.making(rt) {
                Some(percent) => StoreSeen::Making(percent),
                None => {
                    self.absent = Some(Absent::NoStore);
                    StoreSeen::Absent(NOT_THERE_YET)
                }
            },
            Some(Err(why)) => {
                let is_like = match &self.absent {
                    Some(before) => before.is_like(&why),
                    None => false,
                };
                if !is_like {
                    // Another cause has another number.
                    self.cause = self.cause.wrapping_add(1).max(1);
                }
                self.absent = Some(why);
                StoreSeen::Absent(self.cause)
            }
        }
    }

    /// Tells what has changed of a camera since it was last looked at.
    pub fn tell_changes<R: Wait + Clock>(
        &mut self,
        rt: &R,
        state: &CameraState,
        lines: &mut Lines,
    ) -> io::Result<()> {
        let store = self.store_seen(rt, state);
        let seen = seen_of(rt, state, store);
        let (reported, changes) = self.reported.next(&seen);
        self.reported = reported;
        for kind in 0..KINDS {
            if let Some(change) = changes.at(kind) {
                self.tell(rt, state, change, lines)?;
            }
        }
        tell_times(rt, state, lines)
    }

    // Tells one change.
    fn tell<R: Wait + Clock>(
        &self,
        rt: &R,
        state: &CameraState,
        change: Change,
        lines: &mut Lines,
    ) -> io::Result<()> {
        let name = state.config.name.as_str();
        match change {
            Change::SourceOn => match state.life.header(rt, Duration::from_millis(0)) {
                Some(geometry) => tell_source_on(rt, state, &geometry, lines),
                None => Ok(()),
            },
            Change::SourceMissing => lines.source_missing(name),
            Change::SourceSilent => lines.source_silent(name),
            Change::StoreOpen => {
                let less = match state.life.store(rt) {
                    Some(geometry) => {
                        held_of_asked(&geometry, state.stores_wanted(rt), state.config.room)
                    }
                    None => None,
                };
                lines.store_open(name, less)
            }
            Change::StoreAbsent(_) => match &self.absent {
                Some(why) => lines.store_absent(name, why),
                None => Ok(()),
            },
            Change::GivenUp { frames, since } => lines.given_up(name, frames, since),
            Change::AllLocked => lines.all_locked(name),
            Change::RoomAgain => lines.room_again(name),
            Change::NearlyAllLocked => lines.nearly_all_locked(name),
            Change::Behind(micros) => lines.behind(name, micros),
            Change::CaughtUp => lines.caught_up(name),
            Change::Waited { micros, since } => lines.waited(name, micros, since),
            Change::SourceUnusable(_) => lines.source_unusable(name, state.life.unusable(rt).0),
            Change::Made(percent) => match state.path_of(state.alloc, state.life.made_number(rt)) {
                Ok(path) => lines.making(name, path.as_str(), u64::from(percent)),
                Err(_) => Ok(()),
            },
            Change::Syncs(micros) => lines.syncs(name, micros),
            Change::TooSlow { micros, frames } => lines.too_slow(name, micros, frames),
        }
    }
}

// How many syncs a flush costs, and how many more the one that begins a block in the place of another.
const FLUSH_SYNCS: u64 = 2;

const BLOCK_SYNCS: u64 = 3;

// How many frames two syncs store on the mean: a flush ends with its block, of so many slots, and the first one of a
// block costs more.
fn frames_of_flush(slots: u32, group: u32) -> u32 {
    let flushes = u64::from(slots.div_ceil(group.max(1)));
    let syncs = flushes
        .saturating_mul(FLUSH_SYNCS)
        .saturating_add(BLOCK_SYNCS);
    let stored = u64::from(slots).saturating_mul(FLUSH_SYNCS);
    let frames = stored.saturating_add(syncs / 2) / syncs.max(1);
    u32::try_from(frames.max(1)).unwrap_or(u32::MAX)
}

// What is known of the disk of a camera's store.
fn disk_seen<R: Wait>(rt: &R, state: &CameraState) -> Option<DiskSeen> {
    let (sync, geometry) = (state.life.sync(rt)?, state.life.store(rt)?);
    Some(DiskSeen {
        sync,
        group: frames_of_flush(geometry.slots, limits_for(size_of(&geometry)?).group),
        rate_num: geometry.rate_num,
        rate_den: geometry.rate_den,
    })
}

// What is seen of a camera now.
fn seen_of<R: Wait + Clock>(rt: &R, state: &CameraState, store: StoreSeen) -> Seen {
    let camera = state.life.camera(rt);
    let room = state.room(rt);
    let blocks = match store {
        StoreSeen::Open => room.blocks,
        _ => 0,
    };
    Seen {
        now: state.timeline.now(rt),
        source: camera.source_seen(),
        unusable: state.life.unusable(rt).1,
        store,
        disk: disk_seen(rt, state),
        lost: state.tally(rt).lost(),
        locked: camera.locked,
        behind: state.behind_micros(rt),
        waited: state.feed.waited(rt),
        room: room.free,
        blocks,
        stopping: camera.stopping,
    }
}
