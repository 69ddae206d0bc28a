//! Which lines on their way to a reader are dropped.

ghost use Rattle.std.specs.Prelude.{◌≡◌, ◌≤◌, ◌<◌, ◌+◌, ◌↔◌, IsTrue};

/// How many bytes of lines wait at most.
pub const MOST_SPOOLED: usize = 1_048_576;

// At so many bytes or fewer there is room again, after lines were dropped.
const ROOM_AGAIN: usize = 786_432;

// How many bytes of lines are kept while nobody reads.
const UNREAD: usize = 65_536;

/// Whether a line of so many bytes is taken in, and not dropped, where so many bytes wait, and so many lines were
/// dropped after those.
pub fn takes_line(waiting: usize, dropped: u64, line: usize) -> bool
    ensures { IsTrue result ↔ ((dropped ≡ 0) × (waiting + line ≤ 1048576)) }
{
    dropped == 0 && line <= MOST_SPOOLED && waiting <= MOST_SPOOLED - line
}

/// Whether it is said now that so many lines were dropped, after so many bytes that wait.
pub fn says_dropped(waiting: usize, dropped: u64) -> bool
    ensures { IsTrue result ↔ ((1 ≤ dropped) × (waiting + 262144 ≤ 1048576)) }
{
    dropped > 0 && waiting <= ROOM_AGAIN
}

/// Whether the oldest line is dropped for so many bytes more, where so many wait and nobody reads.
pub fn drops_oldest(waiting: usize, more: usize) -> bool
    ensures { IsTrue result ↔ ((1 ≤ waiting) × (65536 < waiting + more)) }
{
    waiting > 0 && (more > UNREAD || waiting > UNREAD - more)
}
