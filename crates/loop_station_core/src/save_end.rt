//! What follows from the end of a save: what is told of it, and whether and when it is tried again. `saves` has what
//! follows for the clip.

ghost use Rattle.std.specs.Prelude.{◌≡◌};
ghost use Rattle.loop_station_core.specs.SaveEnds.{after_save, is_saved};

// After how many microseconds a save that began by itself and failed is tried again.
const AGAIN: u64 = 60_000_000;

/// How a save has ended.
#[derive(Clone, Copy, PartialEq, Eq)]
pub enum SaveEnd {
    /// Its text is whole.
    Whole,
    /// The clip was saved already.
    Already,
    /// There is no text, and the same save may succeed later.
    MayPass,
    /// There is no text, for good.
    Final,
}

/// A line about the end of a save.
#[derive(Clone, Copy, PartialEq, Eq)]
pub enum SaveLine {
    /// The clip is saved.
    Saved,
    /// It isn't yet, and that is tried again.
    Waits,
    /// It isn't.
    NotSaved,
}

/// What follows from the end of a save.
#[derive(Clone, Copy)]
pub struct AfterSave {
    /// The line that tells it, if one does.
    pub line: Option<SaveLine>,
    /// When it is tried again, if it is.
    pub again: Option<u64>,
}

/// Whether the text of the clip is there.
pub fn is_saved(end: SaveEnd) -> bool
    ensures { result ≡ is_saved end }
{
    matches!(end, SaveEnd::Whole | SaveEnd::Already)
}

/// What follows from the end of a save at a time. One that began by itself and may succeed later is tried again, and
/// told as such once; `told`: that was told already.
pub fn after_save(end: SaveEnd, automatic: bool, told: bool, now: u64) -> AfterSave
    ensures { result ≡ after_save end automatic told now }
{
    let (line, again) = match end {
        SaveEnd::Whole => (Some(SaveLine::Saved), None),
        SaveEnd::Already => (None, None),
        SaveEnd::MayPass if automatic && told => (None, Some(now.saturating_add(AGAIN))),
        SaveEnd::MayPass if automatic => (Some(SaveLine::Waits), Some(now.saturating_add(AGAIN))),
        SaveEnd::MayPass | SaveEnd::Final => (Some(SaveLine::NotSaved), None),
    };
    AfterSave { line, again }
}
