//! What becomes of each camera where the configuration is read anew while cameras record.

ghost use Rattle.std.specs.Prelude.{◌≡◌};
ghost use Rattle.loop_station_core.specs.Reloads.{fate_of};

/// What becomes of the camera of a name.
#[derive(Clone, Copy, PartialEq, Eq)]
pub enum Fate {
    /// There is none, and none begins.
    Nothing,
    /// It goes on, and nothing of it changes.
    GoesOn,
    /// It ends.
    Ends,
    /// One begins.
    Starts,
    /// It ends, and one with other words begins.
    Changes,
}

/// What becomes of the camera of a name; `refused`: the new configuration is wrong, or isn't there; `runs`: a number for
/// the words by which a camera of that name records, if one does; `said`: one for those that the new configuration has,
/// if it has such a camera, which is the same where the words are.
pub fn fate_of(refused: bool, runs: Option<u64>, said: Option<u64>) -> Fate
    ensures { result ≡ fate_of refused runs said }
{
    match (runs, said) {
        (None, _) if refused => Fate::Nothing,
        (Some(_), _) if refused => Fate::GoesOn,
        (None, None) => Fate::Nothing,
        (None, Some(_)) => Fate::Starts,
        (Some(_), None) => Fate::Ends,
        (Some(old), Some(new)) if old == new => Fate::GoesOn,
        (Some(_), Some(_)) => Fate::Changes,
    }
}
