//! A thread that looks ten times a second whether the program stood still and whether a source is silent, and once a
//! second whether the computer's clock was set and whether each store is still where it belongs.

use crate::orders::Station;
use loop_station_camera::CameraState;
use loop_station_core::{EVEN, SourceClock, ahead_of, is_moved, stood_still};
use loop_station_outside::Places;
use loop_station_shared::difference;
use std::alloc::AllocGlobal;
use std::io::Write;
use std::sync::Wait;
use std::thread;
use std::time::{Clock, Duration};

// How many milliseconds pass between two looks.
const LOOK_AGAIN: u64 = 100;

// After so many looks it is looked for the stores.
const LOOKS: u32 = 10;

/// Looks at the program, the sources and the stores until the program ends.
pub(crate) fn run_watch<R: AllocGlobal + Places + Wait + Clock, W: Write + Drop>(
    rt: &R,
    station: &Station<W>,
) {
    let timeline = station.timeline;
    let mut looks = 0u32;
    let (mut clock, _) = SourceClock::new().settle(EVEN, 0);
    for _ in rt.forever() {
        if station.is_over() {
            break;
        }
        let (began, up) = (timeline.now(rt), rt.uptime().unwrap_or(0));
        thread::sleep(rt, Duration::from_millis(LOOK_AGAIN));
        let now = timeline.now(rt);
        // The clock of frames stands still while the machine sleeps, and that since its start goes on.
        let slept = rt.uptime().unwrap_or(0).saturating_sub(up);
        let still = stood_still(LOOK_AGAIN * 1_000, now.saturating_sub(began), slept);
        if let (Some(micros), true) = (still, station.events) {
            tell_still(rt, station, micros, began);
        }
        looks = looks.wrapping_add(1);
        if looks % LOOKS == 0 {
            clock = look_at_clock(rt, station, clock);
        }
        // Where memory is refused, it is looked the next time.
        if let Ok(cameras) = station.cameras.all(rt, station.alloc) {
            for state in cameras.as_slice() {
                state.life.look(rt, now);
                state.feed.look(rt, now, still.is_some());
                if looks % LOOKS == 0 {
                    look_for_store(rt, state);
                }
            }
        }
    }
}

// Compares the computer's clock with the one of frames, which began with it. Tells that it was set since it was looked at
// or since that was told, once a minute at most.
fn look_at_clock<R: Wait + Clock, W: Write + Drop>(
    rt: &R,
    station: &Station<W>,
    clock: SourceClock,
) -> SourceClock {
    let Ok(since) = rt.since_1970() else {
        return clock;
    };
    let real = u64::try_from(since.as_micros()).unwrap_or(u64::MAX);
    let now = station.timeline.now(rt);
    let measure = ahead_of(real, now);
    let before = clock.settled.unwrap_or(measure);
    let (clock, moved) = clock.settle(measure, now);
    let mut lines = station.lines();
    // Where memory for the line is refused, it isn't printed.
    if moved
        && station.events
        && lines
            .system_clock_steps(difference(measure, before), now)
            .is_ok()
    {
        station.outlet.put(rt, &lines);
    }
    clock
}

// Prints that the program stood still.
fn tell_still<R: Wait + Clock, W: Write + Drop>(
    rt: &R,
    station: &Station<W>,
    micros: u64,
    since: u64,
) {
    let mut lines = station.lines();
    // Where memory for the line is refused, it isn't printed.
    if lines.stood_still(micros, since).is_ok() {
        station.outlet.put(rt, &lines);
    }
}

// Ends the filming of a camera of whose stores one has a path that names another file by now, or none. Where that can't
// be seen, the store is as it was.
fn look_for_store<R: AllocGlobal + Places + Wait>(rt: &R, state: &CameraState) {
    if let Some(place) = state.life.place(rt) {
        look_at(rt, state, state.config.store.as_str(), place);
    }
    for (number, place) in state.stored.files(rt, rt.alloc()) {
        // Where memory is refused, it is looked at the next time.
        if let Ok(path) = state.path_of(rt.alloc(), Some(number)) {
            look_at(rt, state, path.as_str(), place);
        }
    }
}

// The same of one store.
fn look_at<R: Places + Wait>(rt: &R, state: &CameraState, path: &str, place: (u64, u64)) {
    if let Ok(there) = rt.place_of(path) {
        if is_moved(place, there) {
            state.move_away(rt);
        }
    }
}
