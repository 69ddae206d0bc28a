//! The files of open events. While an event's end lies ahead, STORE.events beside the camera's store has a line for it,
//! `EVENT SINCE UNTIL TAG`, so that the next start goes on with it after a stop or a loss of power. An event is
//! answered once its line is on the disk, and told as over once the file without it is. A file that can't be written is
//! told once, and tried again each second: stores have their room, but a disk may have none for this file. What the
//! camera tells of what was done after that waits until then.

use loop_script::number::number;
use loop_script::print_parts;
use loop_station_camera::CameraState;
use loop_station_core::OpenEvent;
use loop_station_outside::{PathKind, Places};
use loop_station_shared::{Announcement, Note};
use std::alloc::{AllocGlobal, Global};
use std::io::{ErrorKind, Write};
use std::sync::Wait;
use std::thread;
use std::time::{Clock, Duration};

// How many milliseconds pass before a file that couldn't be written is tried again.
const TRY_AGAIN: u64 = 1_000;

// How many milliseconds pass before memory for the events, or for a path, is asked for again.
const MEMORY_AGAIN: u64 = 10;

/// The thread that writes the file of a camera's events, until the camera has ended and all that it told is printed.
pub(crate) fn run_notes<R: AllocGlobal + Places + Wait + Clock>(rt: &R, state: &CameraState) {
    // The events that couldn't be written.
    let (mut unwritten, mut ended) = (None::<Vec<OpenEvent>>, false);
    for _ in rt.forever() {
        let note = if unwritten.is_none() {
            state.notes.take(rt)
        } else {
            state
                .notes
                .take_within(rt, Duration::from_millis(TRY_AGAIN))
        };
        match note {
            Some(Note::Open(events, told)) => {
                unwritten = write_or_keep(rt, state, events, unwritten.is_some());
                tell(rt, state, told);
            }
            Some(Note::Look(told)) => {
                let events = open_now(rt, state);
                unwritten = write_or_keep(rt, state, events, unwritten.is_some());
                tell(rt, state, told);
            }
            Some(Note::Tell(told)) => tell(rt, state, told),
            Some(Note::End) => ended = true,
            None => {
                if let Some(events) = unwritten.take() {
                    unwritten = write_or_keep(rt, state, events, true);
                }
            }
        }
        if ended && state.notes.is_idle(rt) {
            break;
        }
    }
}

// The events that are open now, once there is memory for them.
fn open_now<R: AllocGlobal + Wait + Clock>(rt: &R, state: &CameraState) -> Vec<OpenEvent> {
    for _ in rt.forever() {
        if let Some(events) = state.open_events(rt, rt.alloc()) {
            return events;
        }
        thread::sleep(rt, Duration::from_millis(MEMORY_AGAIN));
    }
    unreachable!()
}

// The path of a camera's file of events, once there is memory for it.
fn path_of_events<R: AllocGlobal + Wait + Clock>(rt: &R, state: &CameraState) -> String {
    let store = state.config.store.as_str();
    for _ in rt.forever() {
        if let Ok(path) = format!(in rt.alloc(); "{store}.events") {
            return path;
        }
        thread::sleep(rt, Duration::from_millis(MEMORY_AGAIN));
    }
    unreachable!()
}

// Tells what waited for the file.
fn tell<R: Wait>(rt: &R, state: &CameraState, told: Announcement) {
    state.posts.announce(rt, Some(state.place), told);
    state.notes.told(rt);
}

// Writes the file of a camera's events. Where that fails, it is told, unless it was, and the answer has the events.
fn write_or_keep<R: AllocGlobal + Places + Wait + Clock>(
    rt: &R,
    state: &CameraState,
    events: Vec<OpenEvent>,
    was_told: bool,
) -> Option<Vec<OpenEvent>> {
    let path = path_of_events(rt, state);
    if write_events(rt, path.as_str(), events.as_slice()) {
        return None;
    }
    if !was_told {
        let mut lines = state.lines(rt.alloc());
        // Where memory for the line is refused, it isn't printed.
        let _ = lines.not_noted(state.config.name.as_str(), path.as_str());
        // It names no clip, and waits for nothing.
        let told = Announcement::Told(lines, Vec::new(rt.alloc()));
        state.posts.announce(rt, None, told);
    }
    Some(events)
}

// Writes a file of events. Without events it is written empty, and then removed: the name of a file that is removed may
// come back after a loss of power. Returns whether it has these events now, on the disk.
fn write_events<R: AllocGlobal + Places>(rt: &R, path: &str, events: &[OpenEvent]) -> bool {
    if events.is_empty() && rt.path_kind(path) == PathKind::Nothing {
        return true;
    }
    let wrote = write_text(rt, path, events);
    if wrote && events.is_empty() {
        // An empty file that stays says the same.
        let _ = rt.remove(path);
    }
    wrote
}

// Writes the text of a file of events, and syncs it and its name.
fn write_text<R: AllocGlobal + Places>(rt: &R, path: &str, events: &[OpenEvent]) -> bool {
    let mut text = Vec::new(rt.alloc());
    for event in events {
        if print_event(&mut text, event).is_err() {
            return false;
        }
    }
    if let Ok(left) = format!(in rt.alloc(); "{path}.part") {
        // What a stop has left; mostly there is none.
        let _none = rt.remove(left.as_str());
    }
    let Ok(mut file) = rt.open_text(path, true) else {
        return false;
    };
    let wrote = file.write_all(&text).is_ok() && rt.finish_text(&file).is_ok();
    if !wrote {
        rt.give_up_text(&file);
    }
    wrote
}

// The line of an event.
fn print_event<W: Write>(out: &mut W, event: &OpenEvent) -> std::io::Result<()> {
    print_parts(
        out,
        "",
        &[
            ("", event.event),
            (" ", event.since),
            (" ", event.until),
            (" ", event.tag),
        ],
    )?;
    out.write_all(b"\n")
}

/// The events that were open when the program ended last, as the file of a store's events has them; None where there is
/// no memory for them. A line that can't be read is left out.
pub(crate) fn read_events<R: AllocGlobal + Places>(
    rt: &R,
    alloc: Global,
    store: &str,
) -> Option<Vec<OpenEvent>> {
    let mut events = Vec::new(alloc);
    let path = format!(in alloc; "{store}.events").ok()?;
    let text = match rt.read_text(path.as_str()) {
        Ok(text) => text,
        Err(fault) if fault.kind() == ErrorKind::OutOfMemory => return None,
        Err(_) => return Some(events),
    };
    for line in text.as_str().lines() {
        if let Some(event) = event_of(line) {
            events.push(event).ok()?;
        }
    }
    Some(events)
}

// The event of a line.
fn event_of(line: &str) -> Option<OpenEvent> {
    let (event, rest) = line.split_once(' ')?;
    let (since, rest) = rest.split_once(' ')?;
    let (until, tag) = rest.split_once(' ')?;
    Some(OpenEvent {
        event: number(event)?,
        since: number(since)?,
        until: number(until)?,
        tag: number(tag)?,
    })
}
