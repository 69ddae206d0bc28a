//! The camera's count: how many frames are missing before one, and which of two sequences is older.

ghost use Rattle.std.specs.Prelude.{◌≡◌, ◌<◌, ◌≤◌, ◌↔◌, IfSome, None, true};
ghost use Rattle.loop_record.specs.Counts.{BeganAnew, IsMissing, cyclic_place};

// So many frames are missing, if these aren't too many.
fn at_most(missing: u64, most: u64) -> Option<u64>
    ensures some { IfSome result (λ n. (n ≡ missing) × (n ≤ most)) }
    ensures none { result ≡ None → most < missing }
{
    if missing <= most { Some(missing) } else { None }
}

/// How many frames a source lost between two that came one after the other, by its own numbers. These rise by one, and
/// where there is a cycle (0: none) 1 comes after it: GenICam's numbers of 16 bits skip 0, so theirs is 65,535. None: the
/// numbers began anew, since one went back, came again, or left out more than these.
pub fn missing(last: u64, next: u64, cycle: u64, most: u64) -> Option<u64>
    ensures some { IfSome result (IsMissing last next cycle most) }
    ensures none { result ≡ None → BeganAnew last next cycle most }
{
    if next > last {
        return at_most(next - last - 1, most);
    }
    if next == 0 || last > cycle {
        return None;
    }
    at_most(cycle - last + (next - 1), most)
}

/// The place of a sequence in the order that ends before this one, which is one past the newest.
pub fn cyclic_place(end: u32, sequence: u32) -> u32
    ensures { result ≡ cyclic_place end sequence }
{
    sequence.wrapping_sub(end)
}

/// Whether one sequence is older than another, where `end` is one past the newest.
pub fn is_older(end: u32, sequence: u32, other: u32) -> bool
    ensures { (result ≡ true) ↔ (cyclic_place end sequence < cyclic_place end other) }
{
    cyclic_place(end, sequence) < cyclic_place(end, other)
}
