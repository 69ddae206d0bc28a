//! The printer's thread: it prints the answers to orders and what is told without one, each order's lines together, and
//! begins the saves. So a keep's `kept` comes before the `saved` of its clips. It asks no disk.
//!
//! Where a camera has more to tell before the others have answered an order, its answer is printed before that: so the
//! lines of a camera are in the order of what was done, and no camera waits for another.

use crate::orders::Station;
use loop_station_camera::{automatic, begin, tell_ended};
use loop_station_outside::NotSaved;
use loop_station_shared::{Announcement, Answering, KeptClip, Message};
use std::alloc::AllocGlobal;
use std::io::Write;
use std::sync::{Arc, Wait};
use std::time::Clock;

// A camera's answer to an order that others haven't answered yet, by the camera's place among those that it means.
#[derive(Drop)]
struct Unprinted {
    camera: usize,
    answering: Arc<Answering>,
    place: usize,
}

/// Prints what there is to print, until the program ends.
pub(crate) fn run_printer<R: AllocGlobal + Wait + Clock, W: Write + Drop>(
    rt: &R,
    station: &Station<W>,
) {
    // The last answer of each camera, where that isn't printed.
    let mut unprinted = Vec::new(station.alloc);
    for _ in rt.forever() {
        match station.posts.printer.take(rt) {
            Some(Message::Told(camera, told)) => {
                if let Some(camera) = camera {
                    print_early(rt, station, &mut unprinted, camera);
                }
                tell(rt, station, &mut unprinted, camera, told);
            }
            Some(Message::Opened(kept)) => save_all(rt, station, kept.as_slice(), true),
            Some(Message::End) => break,
            None => {}
        }
    }
    for one in unprinted.as_slice() {
        print_part(rt, station, one);
    }
}

// Prints what a camera tells. Its answer to an order that others haven't answered yet stays unprinted.
fn tell<R: AllocGlobal + Wait + Clock, W: Write + Drop>(
    rt: &R,
    station: &Station<W>,
    unprinted: &mut Vec<Unprinted>,
    camera: Option<usize>,
    told: Announcement,
) {
    match told {
        Announcement::Told(lines, kept) => {
            station.outlet.put(rt, &lines);
            save_all(rt, station, kept.as_slice(), false);
        }
        Announcement::Answer(answering, place, lines, kept) => {
            if answering.fill(rt, place, lines, kept) {
                print_answers(rt, station, &answering);
            } else if let Some(camera) = camera {
                let one = Unprinted {
                    camera,
                    answering,
                    place,
                };
                put_off(rt, station, unprinted, one);
            }
        }
    }
}

// An answer stays unprinted. Where memory is refused, it is printed.
fn put_off<R: AllocGlobal + Wait + Clock, W: Write + Drop>(
    rt: &R,
    station: &Station<W>,
    unprinted: &mut Vec<Unprinted>,
    one: Unprinted,
) {
    if unprinted.reserve(1).is_err() {
        print_part(rt, station, &one);
        return;
    }
    // It has its room.
    let _ = unprinted.push(one);
}

// Prints the answer of a camera that isn't printed, if there is one: it has more to tell.
fn print_early<R: AllocGlobal + Wait + Clock, W: Write + Drop>(
    rt: &R,
    station: &Station<W>,
    unprinted: &mut Vec<Unprinted>,
    camera: usize,
) {
    if let Some(at) = unprinted.iter().position(|one| one.camera == camera) {
        let one = unprinted.remove(at);
        print_part(rt, station, &one);
    }
}

// Prints a camera's answer, unless it was printed with those of the others.
fn print_part<R: AllocGlobal + Wait + Clock, W: Write + Drop>(
    rt: &R,
    station: &Station<W>,
    one: &Unprinted,
) {
    if let Some(lines) = one.answering.take_early(rt, one.place, station.lines()) {
        station
            .outlet
            .answer(rt, one.answering.label.as_deref(), &lines);
    }
}

// Prints the answers of all cameras to an order, and begins to save the clips that it made.
fn print_answers<R: AllocGlobal + Wait + Clock, W: Write + Drop>(
    rt: &R,
    station: &Station<W>,
    answering: &Answering,
) {
    let (all, kept) = answering.take(rt, station.alloc);
    let mut lines = station.lines();
    // Where memory for lines is refused, they aren't printed.
    for one in all.as_slice() {
        if let Some(one) = one {
            let _ = lines.add(one);
        }
    }
    let label = answering.label.as_deref();
    if label.is_some() {
        let _ = lines.done();
    }
    station.outlet.answer(rt, label, &lines);
    save_all(rt, station, kept.as_slice(), false);
}

// Begins to save clips by themselves.
fn save_all<R: AllocGlobal + Wait + Clock, W: Write + Drop>(
    rt: &R,
    station: &Station<W>,
    kept: &[KeptClip],
    may_be_saved: bool,
) {
    for clip in kept {
        // Where memory is refused, the clip is saved at the next start.
        if let Ok(save) = automatic(station.alloc, *clip, may_be_saved) {
            if let Some(state) = station.cameras.at(rt, clip.camera) {
                begin(rt, &state, save);
            }
        }
    }
}

/// Ends all saves since the program ends, and tells so.
pub(crate) fn stop_saves<R: AllocGlobal + Wait + Clock, W: Write + Drop>(
    rt: &R,
    station: &Station<W>,
) {
    station.saves.stop(rt);
    for _ in 0..u64::MAX {
        let Some(save) = station.saves.next_stopped(rt) else {
            break;
        };
        if let Some(state) = station.cameras.at(rt, save.camera()) {
            tell_ended(rt, &state, &save, NotSaved::Stopped);
        }
    }
}
