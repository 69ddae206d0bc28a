//! The copy of what is printed, for a file or a named pipe.
//!
//! A thread of its own writes there, because a pipe may keep it waiting: until a reader opens it, or for a reader that
//! doesn't read. No other thread ever waits. The newest lines for a pipe that nobody reads are kept for its next
//! reader. A file that takes no more is cut back to its last whole line, and tried again. Where its path names another
//! file by then, or none, as after a rotation of logs, that one is opened, and made where there is none.

use crate::spool::{LineForm, Spool, first_line, whole_lines, write_most};
use loop_station_outside::Places;
use std::alloc::{AllocError, AllocGlobal, Global};
use std::fs::File;
use std::io::Write;
use std::os::unix::fs::MetadataExt;
use std::sync::Wait;
use std::sync::atomic::{AtomicBool, Ordering};
use std::time::Clock;

/// What is printed, on its way to a file or pipe.
#[derive(Drop)]
pub struct Tap {
    pub(crate) path: String,
    pub(crate) is_pipe: bool,
    pub(crate) spool: Spool,
    /// The last try to open or to write it failed.
    failing: AtomicBool,
}

impl Tap {
    /// A tap for the file or pipe of a path, which gets lines of a form.
    pub fn new(
        alloc: Global,
        path: String,
        is_pipe: bool,
        form: LineForm,
    ) -> Result<Tap, AllocError> {
        Ok(Tap {
            path,
            is_pipe,
            spool: Spool::new(alloc, form, is_pipe)?,
            failing: AtomicBool::new(false),
        })
    }

    /// Adds a line, with its end. Returns whether it had room.
    pub fn give<R: Wait + Clock>(&self, rt: &R, line: &[u8]) -> bool {
        self.spool.put(rt, line)
    }

    /// Whether all lines are written or nobody reads them, and how many bytes were written in all.
    pub fn state<R: Wait>(&self, rt: &R) -> (bool, u64) {
        self.spool.state(rt)
    }

    /// Whether its file can't be opened or written now.
    pub fn is_failing(&self) -> bool {
        self.failing.load(Ordering::SeqCst)
    }

    /// The last try failed, or didn't. Returns whether it failed for the first time.
    pub(crate) fn set_failing(&self, failing: bool) -> bool {
        !self.failing.swap(failing, Ordering::SeqCst) && failing
    }
}

/// Writes lines into a pipe until nobody reads it any more. A line that nobody read is for the next reader.
pub(crate) fn write_to_pipe<R: AllocGlobal + Wait + Clock>(rt: &R, tap: &Tap, file: File) {
    let (mut file, mut lines) = (file, Vec::new(rt.alloc()));
    for _ in rt.forever() {
        let _no_status = tap.spool.next(rt, &mut lines);
        if !pass_lines(rt, tap, &mut file, &lines) {
            break;
        }
        let _first = tap.set_failing(false);
    }
}

// Writes lines into a pipe, each by one write, which the pipe takes whole or not at all. Returns whether all are
// written.
fn pass_lines<R: Wait>(rt: &R, tap: &Tap, file: &mut File, lines: &[u8]) -> bool {
    let mut rest = lines;
    for _ in 0..lines.len() {
        if rest.is_empty() {
            break;
        }
        let (line, more) = first_line(rest);
        if file.write_all(line).is_err() {
            return false;
        }
        tap.spool.wrote(rt, line.len());
        rest = more;
    }
    true
}

/// Writes lines into a file until it takes no more, or its path names another file, or none. Returns whether the path
/// does; the lines that aren't written wait for the next file.
pub(crate) fn write_to_file<R: AllocGlobal + Places + Wait + Clock>(
    rt: &R,
    tap: &Tap,
    file: File,
) -> bool {
    let (mut file, mut lines) = (file, Vec::new(rt.alloc()));
    for _ in rt.forever() {
        let _no_status = tap.spool.next(rt, &mut lines);
        if has_moved(rt, tap, &file) {
            return true;
        }
        if !append_lines(rt, tap, &mut file, &lines) {
            break;
        }
        let _first = tap.set_failing(false);
    }
    false
}

// Whether the path of a tap is seen to name another file than this one, or none.
fn has_moved<R: Places>(rt: &R, tap: &Tap, file: &File) -> bool {
    let Ok(here) = file.metadata() else {
        return false;
    };
    match rt.place_of(tap.path.as_str()) {
        Ok(there) => there != Some((here.dev(), here.ino())),
        Err(_) => false,
    }
}

// Appends lines to a file. Where it takes no more, it is cut back to its last whole line, and the other lines wait.
// Returns whether all are written.
fn append_lines<R: Wait>(rt: &R, tap: &Tap, file: &mut File, lines: &[u8]) -> bool {
    let Ok(before) = file.metadata() else {
        return false;
    };
    let count = write_most(file, lines);
    let whole = whole_lines(lines.get(..count).unwrap_or(&[]));
    tap.spool.wrote(rt, whole);
    if count > whole && before.is_file() {
        // Where it can't be cut back either, the rest of the line is missing there, and the whole line follows.
        let _half = file.set_len(before.len().saturating_add(whole as u64));
    }
    count == lines.len()
}
