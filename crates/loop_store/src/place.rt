//! Where an append goes.

ghost use Rattle.std.specs.Prelude.{◌≡◌};
ghost use Rattle.loop_store.specs.AppendPlace.{place_segment};

/// Where the next frames go.
#[derive(Clone, Copy, Debug)]
pub(crate) enum AppendPlace {
    /// Into this segment, after the frames of the block of the next number.
    Newest(u32),
    /// Into this closed segment, where that block has to be begun.
    Closed(u32),
    /// Into this segment, whose block has to go first.
    Victim(u32),
}

impl AppendPlace {
    /// The segment.
    pub(crate) fn segment(self) -> u32
        ensures { result ≡ place_segment self }
    {
        match self {
            AppendPlace::Newest(segment)
            | AppendPlace::Closed(segment)
            | AppendPlace::Victim(segment) => segment,
        }
    }
}
