//! Whether the program stood still.

ghost use Rattle.std.specs.Prelude.{◌≡◌, ◌≤◌, ◌+◌, ◌↔◌, IfSome, IsNone, max};

// It did if so many microseconds more passed than it waited.
const STILL: u64 = 1_000_000;

/// For how many microseconds the program stood still, of the time in which it waited for `waits`: `passed` by the clock
/// of frames, which stands still while the machine sleeps, and `up` by one that goes on then.
pub fn stood_still(waits: u64, passed: u64, up: u64) -> Option<u64>
    ensures none { IsNone result ↔ ((passed ≤ waits + 1000000) × (up ≤ waits + 1000000)) }
    ensures some { IfSome result (λ micros. micros ≡ max passed up) }
{
    let micros = passed.max(up);
    if micros > waits.saturating_add(STILL) {
        return Some(micros);
    }
    None
}
