//! The time that frames get.

use std::io;
use std::time::{Clock, Instant};

/// The time since 1970 in microseconds. The system's clock gave it when the program began, and a clock that never goes
/// back has counted it since then.
#[derive(Clone, Copy)]
pub struct Timeline {
    start: u64,
    began: Instant,
}

impl Timeline {
    /// A timeline that begins now.
    pub fn new<R: Clock>(rt: &R) -> io::Result<Timeline> {
        let since = rt.since_1970()?;
        Ok(Timeline {
            start: u64::try_from(since.as_micros()).unwrap_or(u64::MAX),
            began: Instant::now(rt)?,
        })
    }

    /// The time now; the time when the program began where the clock can't be read.
    pub fn now<R: Clock>(&self, rt: &R) -> u64 {
        match self.began.elapsed(rt) {
            Ok(passed) => {
                let passed = u64::try_from(passed.as_micros()).unwrap_or(u64::MAX);
                self.start.saturating_add(passed)
            }
            Err(_) => self.start,
        }
    }
}
