//! The steps by which a text gets its name, so that whatever has the name is whole, and on the disk once that is told.

ghost use Rattle.std.specs.Prelude.{◌≡◌};
ghost use Rattle.loop_station_core.specs.Texts.{next_step, refused_step};

/// What is done next of the file of a text that is written to its end, under its unfinished name.
#[derive(Clone, Copy, PartialEq, Eq)]
pub enum TextStep {
    /// Its bytes are synced.
    SyncText,
    /// It gets its name.
    Name,
    /// Its folder is synced.
    SyncName,
    /// The name that the disk wasn't asked to keep is removed.
    Unname,
    /// It is there, and on the disk.
    Saved,
    /// It isn't. What is left has the unfinished name, or replaced an earlier text.
    NotSaved,
}

// What follows a step that failed. A text that replaced another keeps its name: the earlier one is gone.
fn refused(step: TextStep, replaces: bool) -> TextStep
    ensures { result ≡ refused_step step replaces }
{
    match step {
        TextStep::SyncName if !replaces => TextStep::Unname,
        _ => TextStep::NotSaved,
    }
}

/// What follows a step that came through, or failed; `replaces`: the text replaces what has its name. The first step is
/// `SyncText`. After `Saved` and `NotSaved` nothing follows.
pub fn next_text_step(step: TextStep, is_done: bool, replaces: bool) -> TextStep
    ensures { result ≡ next_step step is_done replaces }
{
    match step {
        TextStep::Saved | TextStep::NotSaved => step,
        _ if !is_done => refused(step, replaces),
        TextStep::SyncText => TextStep::Name,
        TextStep::Name => TextStep::SyncName,
        TextStep::SyncName => TextStep::Saved,
        TextStep::Unname => TextStep::NotSaved,
    }
}
