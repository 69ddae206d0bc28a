//! Spans of time.

ghost use Rattle.std.specs.Prelude.{◌≡◌};
ghost use Rattle.loop_record.specs.Times.{is_in};

/// The time from one moment to another, both included, in microseconds.
#[derive(Clone, Copy, Debug, PartialEq, Eq)]
pub struct Times {
    /// The first moment.
    pub since: u64,
    /// The last moment.
    pub until: u64,
}

impl Times {
    /// Whether a moment lies in it.
    pub fn has(&self, moment: u64) -> bool
        ensures { result ≡ is_in self.now moment }
    {
        self.since <= moment && moment <= self.until
    }
}
