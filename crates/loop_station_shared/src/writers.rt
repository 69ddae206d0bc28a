//! The threads that write what is printed: one to the output, and one to the further file or pipe.

use crate::outlet::Outlet;
use crate::tap::{Tap, write_to_file, write_to_pipe};
use loop_station_outside::Places;
use loop_station_words::Lines;
use std::alloc::AllocGlobal;
use std::io::Write;
use std::sync::Wait;
use std::thread;
use std::time::{Clock, Duration};

// How many milliseconds pass before a file that can't be opened or written is tried again.
const TRY_AGAIN: u64 = 1_000;

/// Writes what is printed to the output, as long as the program runs.
pub fn run_outlet<R: AllocGlobal + Wait + Clock, W: Write + Drop>(rt: &R, outlet: &Outlet<W>) {
    let mut lines = Vec::new(rt.alloc());
    for _ in rt.forever() {
        let status = outlet.spool.next(rt, &mut lines);
        outlet.write(rt, &lines, status);
    }
}

/// Writes the lines of a tap, as long as the program runs.
pub fn run_tap<R: AllocGlobal + Places + Wait + Clock, W: Write + Drop>(
    rt: &R,
    tap: &Tap,
    outlet: &Outlet<W>,
) {
    // Held as long as the program runs, so that no reader comes to an end of the pipe. Where it can't be held, a reader
    // may come to one before the next line.
    let _held = if tap.is_pipe {
        rt.hold_answers(tap.path.as_str()).ok()
    } else {
        None
    };
    for _ in rt.forever() {
        if let Ok(file) = rt.open_answers(tap.path.as_str()) {
            tap.spool.set_unread(rt, false);
            if tap.is_pipe {
                write_to_pipe(rt, tap, file);
                tap.spool.set_unread(rt, true);
                continue;
            }
            if write_to_file(rt, tap, file) {
                continue;
            }
        }
        if tap.set_failing(true) {
            tell_lost(rt, tap, outlet);
        }
        thread::sleep(rt, Duration::from_millis(TRY_AGAIN));
    }
}

// Prints that the file or pipe can't be opened, or can't be written.
fn tell_lost<R: AllocGlobal + Wait + Clock, W: Write + Drop>(
    rt: &R,
    tap: &Tap,
    outlet: &Outlet<W>,
) {
    let mut lines = Lines::new(rt.alloc(), false);
    // Where memory for the line is refused, nothing is printed.
    if lines.no_answers(tap.path.as_str()).is_ok() {
        outlet.put(rt, &lines);
    }
}
