//! The mark of a frame, which stands in its flags: how many bits its samples have, and whether it came late.

ghost use Rattle.std.specs.Prelude.{◌≡◌, ◌<◌, ◌+◌, ◌⊎◌, ◌↔◌, IsTrue};
ghost use Rattle.loop_station_core.specs.Marks.{IsJustAfter, bits_of, mark};

// What the bits of a sample are multiplied by in a mark.
const BITS: u32 = 16_777_216;

// What is added where a frame came late.
const LATE: u32 = 536_870_912;

// The program stands still if it wasn't seen to run for so many microseconds,
const STILL: u64 = 1_100_000;

// and frames that waited meanwhile are read for so many microseconds after that.
const AFTER: u64 = 100_000;

/// The mark of a frame whose samples have so many bits, below 32: they are bits 24 to 28 of its flags, and 0 there
/// means 8. Bit 29 is set where its time is late, since it came while the program stood still.
pub fn mark(bits: u32, late: bool) -> u32
    ensures { result ≡ mark bits late }
{
    let deep = if bits == 8 { 0 } else { bits % 32 };
    deep * BITS + if late { LATE } else { 0 }
}

/// How many bits a sample has, by the flags of its frame.
pub fn bits_of(flags: u32) -> u32
    ensures { result ≡ bits_of flags }
{
    let bits = flags / BITS % 32;
    if bits == 0 { 8 } else { bits }
}

/// Whether a frame that came at `now` came while the program stood still: it was seen to run last too long before, or
/// was seen shortly before to have stood still.
pub fn came_late(now: u64, seen: u64, still: Option<u64>) -> bool
    ensures { IsTrue result ↔ ((seen + 1100000 < now) ⊎ IsJustAfter now still) }
{
    if now.saturating_sub(seen) > STILL {
        return true;
    }
    match still {
        Some(until) => now.saturating_sub(until) <= AFTER,
        None => false,
    }
}
