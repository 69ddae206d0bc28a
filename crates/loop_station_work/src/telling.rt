//! What is told of a camera's stores as they are opened.

use loop_station_camera::CameraState;
use loop_station_outside::Absent;
use loop_station_shared::Outlet;
use loop_station_words::Lines;
use std::alloc::AllocGlobal;
use std::io;
use std::io::Write;
use std::sync::Wait;
use std::time::Clock;

// The version of the layout in which clips have tags.
const TAGGED: u32 = 2;

/// Prints lines, once they are written; where memory for them was refused, they aren't printed.
pub(crate) fn print<R: Wait + Clock, W: Write + Drop>(
    rt: &R,
    outlet: &Outlet<W>,
    lines: &Lines,
    written: io::Result<()>,
) {
    if written.is_ok() {
        outlet.put(rt, lines);
    }
}

/// Tells how many frames were removed before it was known that they are the oldest; a block has so many.
pub(crate) fn tell_removed<R: AllocGlobal + Wait + Clock, W: Write + Drop>(
    rt: &R,
    state: &CameraState,
    outlet: &Outlet<W>,
    slots: u32,
) {
    let forced = state.stored.take_forced(rt);
    if forced == 0 {
        return;
    }
    // A block goes with the first frame that takes its place.
    let slots = u64::from(slots.max(1));
    let blocks = forced.saturating_add(slots.saturating_sub(1)) / slots;
    let removed = blocks.saturating_mul(slots);
    let mut lines = state.lines(rt.alloc());
    let written = lines.removed_out_of_order(state.config.name.as_str(), removed);
    print(rt, outlet, &lines, written);
}

/// Tells that the newest frames of a camera's stores are in no order.
pub(crate) fn tell_order<R: AllocGlobal + Wait + Clock, W: Write + Drop>(
    rt: &R,
    state: &CameraState,
    outlet: &Outlet<W>,
) {
    let mut lines = state.lines(rt.alloc());
    let written = lines.not_in_order(state.config.name.as_str());
    print(rt, outlet, &lines, written);
}

/// Tells why one of several stores isn't filmed into.
pub(crate) fn tell_absent<R: AllocGlobal + Wait + Clock, W: Write + Drop>(
    rt: &R,
    state: &CameraState,
    outlet: &Outlet<W>,
    number: u32,
    why: &Absent,
) {
    // Where memory for the path is refused, it isn't printed.
    let Ok(path) = state.path_of(rt.alloc(), Some(number)) else {
        return;
    };
    let mut lines = state.lines(rt.alloc());
    let written = lines.one_absent(state.config.name.as_str(), path.as_str(), why);
    print(rt, outlet, &lines, written);
}

/// Tells that a store's file was gone, and that one is made in its place.
pub(crate) fn tell_missing<R: AllocGlobal + Wait + Clock, W: Write + Drop>(
    rt: &R,
    state: &CameraState,
    outlet: &Outlet<W>,
    path: &str,
) {
    let mut lines = state.lines(rt.alloc());
    let written = lines.store_missing(state.config.name.as_str(), path);
    print(rt, outlet, &lines, written);
}

/// Tells at the start that a store has version 1 of the layout, where clips have no tags: each keep would be refused.
pub(crate) fn tell_layout<R: AllocGlobal + Wait + Clock, W: Write + Drop>(
    rt: &R,
    state: &CameraState,
    outlet: &Outlet<W>,
    number: Option<u32>,
    version: u32,
) {
    if version >= TAGGED {
        return;
    }
    let Ok(path) = state.path_of(rt.alloc(), number) else {
        return;
    };
    let mut lines = state.lines(rt.alloc());
    let written = lines.old_layout(state.config.name.as_str(), path.as_str());
    print(rt, outlet, &lines, written);
}
