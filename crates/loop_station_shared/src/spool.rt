//! Lines that wait in memory for a thread that writes them, so that whoever prints never waits for a reader.
//!
//! A spool has room for so many bytes of whole lines. A line that doesn't fit is dropped, and so are those after it
//! until there is room again; then `dropped N lines` stands in their place. Where nobody reads, the newest lines are
//! kept, and the oldest make room for them.

use loop_station_core::{MOST_SPOOLED, drops_oldest, says_dropped, takes_line};
use loop_station_outside::Timeline;
use loop_station_words::Lines;
use std::alloc::{AllocError, Global};
use std::io;
use std::io::Write;
use std::sync::{Condvar, Mutex, Wait};
use std::time::Clock;

// How many bytes of lines are handed out at once, unless the first line alone is longer.
const AT_ONCE: usize = 65_536;

// Room for a line that says how many were dropped.
const MARK: usize = 128;

/// The first line of a text with its end, and what follows it.
pub fn first_line(text: &[u8]) -> (&[u8], &[u8]) {
    let mut length = 0usize;
    for byte in text {
        length = length.saturating_add(1);
        if *byte == b'\n' {
            break;
        }
    }
    let line = text.get(..length).unwrap_or(&[]);
    let more = text.get(length..).unwrap_or(&[]);
    (line, more)
}

/// How many bytes the whole lines take that a text begins with.
pub fn whole_lines(text: &[u8]) -> usize {
    let (mut length, mut whole) = (0usize, 0usize);
    for byte in text {
        length = length.saturating_add(1);
        if *byte == b'\n' {
            whole = length;
        }
    }
    whole
}

// The lines at the front of a text that are handed out at once.
fn first_lines(text: &[u8]) -> &[u8] {
    let front = text.get(..AT_ONCE.min(text.len())).unwrap_or(&[]);
    let whole = whole_lines(front);
    if whole == 0 {
        return first_line(text).0;
    }
    front.get(..whole).unwrap_or(&[])
}

/// Writes a text. Returns how many of its bytes were written: fewer than there are where a write failed.
pub fn write_most<W: Write>(out: &mut W, text: &[u8]) -> usize {
    let mut count = 0usize;
    for _ in 0..text.len() {
        let rest = text.get(count..).unwrap_or(&[]);
        if rest.is_empty() {
            break;
        }
        match out.write(rest) {
            Ok(0) => break,
            Ok(some) => count = count.saturating_add(some),
            Err(fault) if fault.kind() == io::ErrorKind::Interrupted => {}
            Err(_) => break,
        }
    }
    count.min(text.len())
}

/// How the lines of an output are written, and what each begins with.
#[derive(Clone, Copy)]
pub struct LineForm {
    /// They are JSON, not text.
    pub json: bool,
    /// The clock for the time that each line begins with, if lines begin with times.
    pub times: Option<Timeline>,
}

/// Adds the line that says how many lines were dropped, in the form of the others.
pub fn print_dropped<R: Clock>(
    rt: &R,
    alloc: Global,
    form: &LineForm,
    out: &mut Vec<u8>,
    count: u64,
) -> io::Result<()> {
    let time = match &form.times {
        Some(timeline) => Some(timeline.now(rt)),
        None => None,
    };
    let mut lines = Lines::new(alloc, form.json);
    lines.dropped_lines(count)?;
    let line = if form.json {
        Lines::json_head(alloc, out, time, None)?;
        lines.json()
    } else {
        Lines::head(out, time, None)?;
        lines.text()
    };
    out.write_all(line)
}

#[derive(Drop)]
struct WaitingLines {
    // The lines, of which so many bytes are written already.
    lines: Vec<u8>,
    done: usize,
    // How many lines were dropped after those that wait.
    dropped: u64,
    // How many lines were dropped before those that wait.
    gone: u64,
    // Nobody reads, so only the newest lines are kept.
    unread: bool,
    // How many bytes were written in all.
    written: u64,
    // What is to be shown below all lines, where that is new.
    status: Option<Vec<u8>>,
}

impl WaitingLines {
    // The lines that aren't written yet.
    fn rest(&self) -> &[u8] {
        self.lines.get(self.done..).unwrap_or(&[])
    }

    // Nothing is to be done.
    fn is_idle(&self) -> bool {
        self.rest().is_empty() && self.dropped == 0 && self.status.is_none()
    }

    // So many bytes at the front are written, or dropped.
    fn pass(&mut self, count: usize) {
        self.done = self.done.saturating_add(count).min(self.lines.len());
        if self.done == self.lines.len() {
            self.lines.clear();
            self.done = 0;
        } else if self.done > self.lines.len() / 2 {
            let rest = self.lines.len().saturating_sub(self.done);
            let mid = self.done.min(self.lines.len());
            self.lines.rotate_left(mid);
            self.lines.truncate(rest);
            self.done = 0;
        }
    }

    // Drops the oldest lines until so many bytes more have room.
    fn make_room(&mut self, more: usize) {
        for _ in 0..MOST_SPOOLED {
            if !drops_oldest(self.rest().len(), more) {
                break;
            }
            let (line, _) = first_line(self.rest());
            let length = line.len();
            self.pass(length);
            self.gone = self.gone.saturating_add(1);
        }
    }

    // Adds a line, if it has room. Returns whether it is in.
    fn add(&mut self, line: &[u8]) -> bool {
        if self.unread {
            self.make_room(line.len());
        }
        if takes_line(self.rest().len(), self.dropped, line.len())
            && self.lines.extend_from_slice(line).is_ok()
        {
            return true;
        }
        self.dropped = self.dropped.saturating_add(1);
        false
    }

    // Says in the place of lines that were dropped how many they are, where there is room. Where memory for that is
    // refused, it is said later.
    fn mark<R: Clock>(&mut self, rt: &R, alloc: Global, form: &LineForm) {
        let mut mark = Vec::new(alloc);
        if says_dropped(self.rest().len(), self.dropped)
            && print_dropped(rt, alloc, form, &mut mark, self.dropped).is_ok()
            && self.lines.extend_from_slice(&mark).is_ok()
        {
            self.dropped = 0;
        }
    }

    // The same before the lines that wait.
    fn mark_front<R: Clock>(&mut self, rt: &R, alloc: Global, form: &LineForm) {
        let mut lines = Vec::new(alloc);
        if self.gone > 0
            && print_dropped(rt, alloc, form, &mut lines, self.gone).is_ok()
            && lines.extend_from_slice(self.rest()).is_ok()
        {
            self.lines = lines;
            self.done = 0;
            self.gone = 0;
        }
    }
}

/// Lines on their way to the thread that writes them.
#[derive(Drop)]
pub struct Spool {
    alloc: Global,
    form: LineForm,
    waiting: Mutex<WaitingLines>,
    changed: Condvar,
}

impl Spool {
    /// A spool without a line. Its own lines have the form of the others.
    pub fn new(alloc: Global, form: LineForm, unread: bool) -> Result<Spool, AllocError> {
        Ok(Spool {
            alloc,
            form,
            waiting: Mutex::new(WaitingLines {
                lines: Vec::with_capacity(alloc, MARK)?,
                done: 0,
                dropped: 0,
                gone: 0,
                unread,
                written: 0,
                status: None,
            }),
            changed: Condvar::new(),
        })
    }

    /// Adds a line, with its end. Returns whether it had room.
    pub fn put<R: Wait + Clock>(&self, rt: &R, line: &[u8]) -> bool {
        let mut guard = self.waiting.lock(rt);
        let waiting = &mut *guard;
        waiting.mark(rt, self.alloc, &self.form);
        let is_in = waiting.add(line);
        self.changed.notify_all();
        is_in
    }

    /// Shows a status below all lines, in place of the last one.
    pub fn show<R: Wait>(&self, rt: &R, status: Vec<u8>) {
        self.waiting.lock(rt).status = Some(status);
        self.changed.notify_all();
    }

    /// Waits for lines or for a status. Copies the first lines that wait, which stay until `wrote` says that they are
    /// written. Returns the status that is to be shown after them, if it is a new one.
    pub fn next<R: Wait + Clock>(&self, rt: &R, lines: &mut Vec<u8>) -> Option<Vec<u8>> {
        lines.clear();
        let mut guard = self
            .changed
            .wait_while(rt, self.waiting.lock(rt), |waiting| waiting.is_idle());
        let waiting = &mut *guard;
        waiting.mark_front(rt, self.alloc, &self.form);
        waiting.mark(rt, self.alloc, &self.form);
        // Where memory is refused, nothing is handed out now.
        let _later = lines.extend_from_slice(first_lines(waiting.rest()));
        waiting.status.take()
    }

    /// So many bytes of the lines that `next` gave are written, or can't be.
    pub fn wrote<R: Wait>(&self, rt: &R, count: usize) {
        let mut guard = self.waiting.lock(rt);
        let waiting = &mut *guard;
        waiting.written = waiting.written.wrapping_add(count as u64);
        waiting.pass(count);
    }

    /// Whether nobody reads. From then on only the newest lines are kept.
    pub fn set_unread<R: Wait>(&self, rt: &R, unread: bool) {
        let mut guard = self.waiting.lock(rt);
        let waiting = &mut *guard;
        waiting.unread = unread;
        if unread {
            waiting.make_room(0);
        }
    }

    /// Whether all lines are written, or nobody reads them; and how many bytes were written in all, which shows whether
    /// writing makes progress.
    pub fn state<R: Wait>(&self, rt: &R) -> (bool, u64) {
        let waiting = self.waiting.lock(rt);
        let is_done = waiting.unread || waiting.rest().is_empty() && waiting.dropped == 0;
        (is_done, waiting.written)
    }
}
