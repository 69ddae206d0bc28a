//! What the program prints: whole lines at a time, from whichever thread.
//!
//! Whoever prints puts lines into memory and goes on. A thread of its own writes them to the output, and another one to
//! the further file or pipe (`tap`). Each has a list of its own: what becomes of one doesn't concern the other.

use crate::spool::{LineForm, Spool, first_line, print_dropped, write_most};
use crate::tap::Tap;
use loop_station_outside::Timeline;
use loop_station_words::Lines;
use std::alloc::{AllocError, Global};
use std::io::Write;
use std::sync::atomic::{AtomicBool, Ordering};
use std::sync::{Arc, Mutex, Wait};
use std::time::{Clock, Duration};
use std::{io, thread};

// How many milliseconds pass between two looks at what isn't written yet, once the program ends.
const LOOK_AGAIN: u64 = 10;

// After so many looks without progress the program ends nevertheless: after 5 seconds.
const LOOKS: u32 = 500;

// The output, and the lines of the status that a terminal shows below all others.
#[derive(Drop)]
struct Screen<W: Write + Drop> {
    alloc: Global,
    out: W,
    form: LineForm,
    status: Vec<u8>,
    shown: usize,
    // The rest of a line that a failed write has cut.
    torn: Vec<u8>,
    // How many lines couldn't be printed since one was printed last.
    lost: u64,
}

impl<W: Write + Drop> Screen<W> {
    // Removes the status from a terminal.
    fn hide(&mut self) -> io::Result<()> {
        if self.shown > 0 {
            write!(&mut self.out, "\x1b[{}A\x1b[J", self.shown)?;
            self.shown = 0;
        }
        Ok(())
    }

    // Shows the status below all other lines, each on one line of the terminal.
    fn show(&mut self) -> io::Result<()> {
        if !self.status.is_empty() {
            write!(&mut self.out, "\x1b[?7l")?;
            self.out.write_all(&self.status)?;
            write!(&mut self.out, "\x1b[?7h")?;
            self.shown = count_lines(&self.status);
        }
        self.out.flush()
    }

    // Prints a line by one write. Returns whether it is printed. One that a failed write has cut is completed later.
    fn print<R: Clock>(&mut self, rt: &R, line: &[u8]) -> bool {
        if !self.mend(rt) {
            self.lost = self.lost.saturating_add(1);
            return false;
        }
        let count = write_most(&mut self.out, line);
        if count == line.len() {
            return true;
        }
        if count == 0 {
            self.lost = self.lost.saturating_add(1);
        } else {
            self.tear(line.get(count..).unwrap_or(&[]));
        }
        false
    }

    // Completes the line that was cut, and says how many lines are lost. Returns whether the output takes that.
    fn mend<R: Clock>(&mut self, rt: &R) -> bool {
        if self.torn.is_empty() && self.lost == 0 {
            return true;
        }
        let rest = std::mem::replace(&mut self.torn, Vec::new(self.alloc));
        let count = write_most(&mut self.out, &rest);
        if count < rest.len() {
            self.tear(rest.get(count..).unwrap_or(&[]));
            return false;
        }
        let mut mark = Vec::new(self.alloc);
        if self.lost > 0
            && print_dropped(rt, self.alloc, &self.form, &mut mark, self.lost).is_ok()
        {
            let count = write_most(&mut self.out, &mark);
            if count > 0 {
                self.lost = 0;
            }
            if count < mark.len() {
                if count > 0 {
                    self.tear(mark.get(count..).unwrap_or(&[]));
                }
                return false;
            }
        }
        true
    }

    // A line was cut, and has this rest. Where memory for it is refused, the line ends here.
    fn tear(&mut self, rest: &[u8]) {
        self.torn.clear();
        if self.torn.extend_from_slice(rest).is_err() {
            let _none = self.torn.extend_from_slice(b"\n");
        }
    }
}

// How many lines there are.
fn count_lines(text: &[u8]) -> usize {
    let mut count = 0usize;
    for byte in text {
        if *byte == b'\n' {
            count = count.saturating_add(1);
        }
    }
    count
}

/// The place where all lines are printed.
#[derive(Drop)]
pub struct Outlet<W: Write + Drop> {
    /// Only the thread that writes takes this lock.
    screen: Mutex<Screen<W>>,
    /// The lines on their way to the output.
    pub(crate) spool: Spool,
    /// Memory for one line. Whoever has this lock prints: so the lines of an answer stay together.
    line: Mutex<Vec<u8>>,
    /// The clock for the time that each line begins with, if lines begin with times.
    times: Option<Timeline>,
    /// A further file or pipe that gets all lines.
    tap: Option<Arc<Tap>>,
    /// It gets them as JSON.
    json: bool,
    alloc: Global,
    failed: AtomicBool,
}

impl<W: Write + Drop> Outlet<W> {
    /// An outlet that prints to `out`, once a thread runs `run_outlet`. The further file or pipe gets lines as JSON,
    /// or as text.
    pub fn new(
        alloc: Global,
        out: W,
        times: Option<Timeline>,
        tap: Option<Arc<Tap>>,
        json: bool,
    ) -> Result<Self, AllocError> {
        let form = LineForm { json: false, times };
        Ok(Outlet {
            screen: Mutex::new(Screen {
                alloc,
                out,
                form,
                status: Vec::new(alloc),
                shown: 0,
                torn: Vec::new(alloc),
                lost: 0,
            }),
            spool: Spool::new(alloc, form, false)?,
            line: Mutex::new(Vec::new(alloc)),
            times,
            tap,
            json,
            alloc,
            failed: AtomicBool::new(false),
        })
    }

    /// Prints lines that answer no order.
    pub fn put<R: Wait + Clock>(&self, rt: &R, lines: &Lines) {
        self.answer(rt, None, lines);
    }

    /// Prints lines that answer an order with this label, together. It never waits for a reader. A failure is reported
    /// only by the program's status. Where the further file or pipe gets JSON, it has the same lines in that form.
    pub fn answer<R: Wait + Clock>(&self, rt: &R, label: Option<&str>, lines: &Lines) {
        let mut line = self.line.lock(rt);
        // A line has one time in both forms.
        let time = self.time(rt);
        let mut rest = lines.text();
        for _ in 0..lines.text().len() {
            if rest.is_empty() {
                break;
            }
            let (text, more) = first_line(rest);
            self.put_line(rt, &mut line, time, label, text);
            rest = more;
        }
        let mut rest = lines.json();
        for _ in 0..lines.json().len() {
            if rest.is_empty() {
                break;
            }
            let (text, more) = first_line(rest);
            self.tap_json(rt, &mut line, time, label, text);
            rest = more;
        }
    }

    // Puts a line as JSON into the list of the further file or pipe.
    fn tap_json<R: Wait + Clock>(
        &self,
        rt: &R,
        whole: &mut Vec<u8>,
        time: Option<u64>,
        label: Option<&str>,
        text: &[u8],
    ) {
        let Some(tap) = &self.tap else {
            return;
        };
        whole.clear();
        if Lines::json_head(self.alloc, whole, time, label).is_err()
            || whole.extend_from_slice(text).is_err()
            || !tap.give(rt, whole)
        {
            self.fail();
        }
    }

    // Puts a line into the lists of the output and of the further file or pipe.
    fn put_line<R: Wait + Clock>(
        &self,
        rt: &R,
        whole: &mut Vec<u8>,
        time: Option<u64>,
        label: Option<&str>,
        text: &[u8],
    ) {
        whole.clear();
        if text == b"\n".as_slice() {
            return;
        }
        if Lines::head(whole, time, label).is_err() || whole.extend_from_slice(text).is_err() {
            self.fail();
            return;
        }
        if !text.ends_with(b"\n") && whole.extend_from_slice(b"\n").is_err() {
            self.fail();
            return;
        }
        let is_tapped = match &self.tap {
            Some(tap) if !self.json => tap.give(rt, whole),
            _ => true,
        };
        if !self.spool.put(rt, whole) || !is_tapped {
            self.fail();
        }
    }

    // The time that a line begins with, if lines begin with times.
    fn time<R: Clock>(&self, rt: &R) -> Option<u64> {
        match &self.times {
            Some(timeline) => Some(timeline.now(rt)),
            None => None,
        }
    }

    /// Shows the status of the cameras below all other lines of a terminal, in place of the last one.
    pub fn show<R: Wait>(&self, rt: &R, status: Vec<u8>) {
        self.spool.show(rt, status);
    }

    // A line isn't printed.
    fn fail(&self) {
        self.failed.store(true, Ordering::SeqCst);
    }

    /// Whether lines couldn't be printed.
    pub fn has_failed(&self) -> bool {
        self.failed.load(Ordering::SeqCst)
    }

    /// Writes lines to the output, and the status below them where it is a new one.
    pub(crate) fn write<R: Wait + Clock>(&self, rt: &R, lines: &[u8], status: Option<Vec<u8>>) {
        let mut guard = self.screen.lock(rt);
        let screen = &mut *guard;
        let mut printed = screen.hide().is_ok();
        let mut rest = lines;
        for _ in 0..lines.len() {
            if rest.is_empty() {
                break;
            }
            let (line, more) = first_line(rest);
            printed = screen.print(rt, line) && printed;
            self.spool.wrote(rt, line.len());
            rest = more;
        }
        if let Some(status) = status {
            screen.status = status;
        }
        if screen.show().is_err() || !printed {
            self.fail();
        }
    }

    /// Waits for what isn't written yet, since the program ends: as long as someone reads, and 5 seconds at most where
    /// nobody does.
    pub fn end<R: Wait + Clock>(&self, rt: &R) {
        let (mut seen, mut looks) = (0u64, 0u32);
        for _ in rt.forever() {
            let (is_printed, printed) = self.spool.state(rt);
            let (is_tapped, tapped) = self.tap_state(rt);
            if is_printed && is_tapped {
                return;
            }
            let written = printed.wrapping_add(tapped);
            if written != seen {
                seen = written;
                looks = 0;
            } else if looks >= LOOKS {
                self.fail();
                return;
            }
            looks = looks.saturating_add(1);
            thread::sleep(rt, Duration::from_millis(LOOK_AGAIN));
        }
    }

    // The same of the further file or pipe. One that can't be written isn't waited for.
    fn tap_state<R: Wait>(&self, rt: &R) -> (bool, u64) {
        let Some(tap) = &self.tap else {
            return (true, 0);
        };
        let (is_done, written) = tap.state(rt);
        if !is_done && tap.is_failing() {
            self.fail();
            return (true, written);
        }
        (is_done, written)
    }
}
