// What a value of the configuration file chooses.

/// The form of lines.
#[derive(Clone, Copy, Debug, PartialEq, Eq)]
pub enum AnswersForm {
    /// As they are printed.
    Text,
    /// A JSON object each.
    Json,
}

/// Where the times of a camera's frames come from.
#[derive(Clone, Copy, Debug, PartialEq, Eq)]
pub enum TimesFrom {
    /// A frame has the time at which it came.
    Arrival,
    /// It has the time that its source says.
    Source,
}

/// How it is known which frames a camera's source lost.
#[derive(Clone, Copy, Debug, PartialEq, Eq)]
pub enum LossesFrom {
    /// By the numbers of its frames, and where they have none, by their times.
    Either,
    /// By their numbers alone.
    Numbers,
    /// By their times alone.
    Times,
    /// It isn't: none counts as lost.
    Nothing,
}

/// How large the stores of a camera are.
#[derive(Clone, Copy, Debug, PartialEq, Eq)]
pub enum StoreSize {
    /// Enough for this many seconds.
    Seconds(u64),
    /// At most this many bytes.
    Bytes(u64),
}

/// How much memory frames may take.
#[derive(Clone, Copy, Debug, PartialEq, Eq)]
pub enum MemoryLimit {
    /// Enough for this many seconds, at the rate of the source.
    Seconds(u64),
    /// This many bytes.
    Bytes(u64),
}

/// What is done where every block is locked.
#[derive(Clone, Copy, Debug, PartialEq, Eq)]
pub enum WhenFull {
    /// The recording stands still until a clip is released.
    Stop,
    /// The oldest clip that was saved whole is released.
    ReleaseSaved,
    /// The oldest clip is released, or the oldest one with this tag.
    ReleaseOldest(Option<u64>),
}
