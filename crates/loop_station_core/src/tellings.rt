//! What a camera tells, in the order of what was done: at once, or after what waits for its file of events.

ghost use Rattle.std.specs.Prelude.{◌≡◌};
ghost use Rattle.loop_station_core.specs.Tellings.{first_told, no_tellings, none_waits, orders_have_room, told_when};

/// How much of what a camera tells may wait.
pub const MOST_TELLINGS: usize = 1_024;

// While so much waits, no order is done: what comes of those that were done has room.
const MOST_FOR_ORDERS: usize = 512;

/// When something is told that comes.
#[derive(Clone, Copy, PartialEq, Eq)]
pub enum ToldWhen {
    /// At once: nothing waits that was done before it.
    Now,
    /// After what waits.
    Later,
    /// As much waits as may: it has to come again.
    Full,
}

/// What a camera tells and what waits for its file of events.
#[derive(Clone, Copy)]
pub struct Tellings {
    /// How much waits.
    pub waiting: usize,
}

impl Tellings {
    /// Nothing waits.
    pub fn new() -> Tellings
        ensures { result ≡ no_tellings }
    {
        Tellings { waiting: 0 }
    }

    /// Something is to be told; `noted`: once the file of events is written.
    pub fn come(self, noted: bool) -> (Tellings, ToldWhen)
        ensures { result ≡ told_when self noted }
    {
        let mut tellings = self;
        if tellings.waiting == 0 && !noted {
            return (tellings, ToldWhen::Now);
        }
        if tellings.waiting >= MOST_TELLINGS {
            return (tellings, ToldWhen::Full);
        }
        tellings.waiting = tellings.waiting + 1;
        (tellings, ToldWhen::Later)
    }

    /// The first that waits is told.
    pub fn told(self) -> Tellings
        ensures { result ≡ first_told self }
    {
        Tellings {
            waiting: self.waiting.saturating_sub(1),
        }
    }

    /// Whether nothing waits.
    pub fn is_idle(self) -> bool
        ensures { result ≡ none_waits self }
    {
        self.waiting == 0
    }

    /// Whether orders are done: what they tell has room.
    pub fn has_room(self) -> bool
        ensures { result ≡ orders_have_room self }
    {
        self.waiting < MOST_FOR_ORDERS
    }
}
