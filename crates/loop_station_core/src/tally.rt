//! What is counted of a camera's frames.

ghost use Rattle.std.specs.Prelude.{◌≡◌, ◌+◌, ◌≤◌};

/// What is counted of a camera's frames since the program began. Each frame that came is on its way to the desk, waits
/// at the desk, is stored, or is lost.
#[derive(Clone, Copy, Drop)]
pub struct Tally {
    /// Frames that came from the source.
    pub come: u64,
    /// Frames that came to the desk or were lost before that, in the order in which they came.
    pub brought: u64,
    /// Frames that came to the desk and weren't lost there.
    pub submitted: u64,
    /// Frames that left the desk because they are stored.
    pub left: u64,
    /// Frames that are lost.
    pub lost: u64,
    pub ghost before: { brought ≤ come },
    pub ghost split: { submitted + lost ≡ brought },
    pub ghost stored: { left ≤ submitted },
}

impl Tally {
    ghost use Rattle.std.specs.Prelude.{◌%◌, ◌^◌, ◌↔◌, IsTrue};
    ghost use Rattle.loop_station_core.specs.Frames.{brings, comes, frames, gives_up, loses, no_frames, step_flow, stores};

    /// Nothing has come.
    pub fn new() -> Tally
        ensures { frames result ≡ no_frames }
    {
        Tally {
            come: 0,
            brought: 0,
            submitted: 0,
            left: 0,
            lost: 0,
        }
    }

    /// A frame has come from the source. No more are counted than a u64 holds.
    pub fn comes(self) -> Tally
        ensures { frames result ≡ step_flow (frames self) comes }
    {
        let Tally {
            come,
            brought,
            submitted,
            left,
            lost,
        } = self;
        Tally {
            come: come.saturating_add(1),
            brought,
            submitted,
            left,
            lost,
        }
    }

    /// The desk has accepted the first frame that was on its way.
    pub fn bring(self) -> Tally
        ensures { frames result ≡ step_flow (frames self) brings }
    {
        let Tally {
            come,
            brought,
            submitted,
            left,
            lost,
        } = self;
        if come <= brought {
            return self;
        }
        Tally {
            come,
            brought: brought + 1,
            submitted: submitted + 1,
            left,
            lost,
        }
    }

    /// The first frame that was on its way was given up: no memory was there for it, or no room at the desk.
    pub fn give_up(self) -> Tally
        ensures { frames result ≡ step_flow (frames self) gives_up }
    {
        let Tally {
            come,
            brought,
            submitted,
            left,
            lost,
        } = self;
        if come <= brought {
            return self;
        }
        Tally {
            come,
            brought: brought + 1,
            submitted,
            left,
            lost: lost + 1,
        }
    }

    /// So many frames that waited at the desk are stored.
    pub fn store(self, count: u32) -> Tally
        ensures { frames result ≡ step_flow (frames self) (stores count) }
    {
        let Tally {
            come,
            brought,
            submitted,
            left,
            lost,
        } = self;
        let stored = u64::from(count).min(submitted - left);
        Tally {
            come,
            brought,
            submitted,
            left: left + stored,
            lost,
        }
    }

    /// Desk and queue are given up. Of the first `taken` frames that came, each that isn't stored is lost.
    pub fn lose(self, taken: u64) -> Tally
        ensures { frames result ≡ step_flow (frames self) (loses taken) }
    {
        let Tally {
            come,
            brought,
            submitted,
            left,
            lost,
        } = self;
        let gone = taken.min(come).max(brought);
        Tally {
            come,
            brought: gone,
            submitted: left,
            left,
            lost: lost + (submitted - left) + (gone - brought),
        }
    }

    /// How many frames have come and are neither stored nor lost.
    pub fn behind(&self) -> u64
        ensures { let f = frames self.now in result ≡ f.coming + f.waiting }
    {
        self.come - self.brought + (self.submitted - self.left)
    }

    /// Whether the first `come` frames of the source have come to the desk or are lost.
    pub fn has_brought(&self, come: u64) -> bool
        ensures { IsTrue result ↔ (come ≤ self.now.brought) }
    {
        come <= self.brought
    }

    /// How many steps frames have taken: the number changes whenever one is brought, given up or stored.
    pub fn steps(&self) -> u64
        ensures { result ≡ (self.now.brought + self.now.left) % 2 ^ 64 }
    {
        self.brought.wrapping_add(self.left)
    }

    /// How many frames are lost.
    pub fn lost(&self) -> u64
        ensures { result ≡ self.now.lost }
    {
        self.lost
    }
}
