//! What becomes of the file of a store that is looked at: it is the one that is recorded into, or goes on.

ghost use Rattle.std.specs.Prelude.{◌≡◌, ◌≢◌, ◌≤◌, ◌↔◌, ◌⊎◌, IsTrue, Some, true};

/// Whether the store that is recorded into was moved away. `recorded`: the device and the inode of its file; `there`:
/// those of the file that its path names now, if it names one.
pub fn is_moved(recorded: (u64, u64), there: Option<(u64, u64)>) -> bool
    ensures { IsTrue result ↔ (there ≢ Some recorded) }
{
    let (device, inode) = recorded;
    match there {
        Some((on, at)) => on != device || at != inode,
        None => true,
    }
}

/// Whether an unfinished store that an earlier run left goes on, and isn't made anew: it has frames, or `is_alike`: it
/// is for frames like those that come.
pub fn goes_on(frames: u64, is_alike: bool) -> bool
    ensures { IsTrue result ↔ ((1 ≤ frames) ⊎ (is_alike ≡ true)) }
{
    frames > 0 || is_alike
}
