// Runs of numbers that follow one another.
ghost use Rattle.std.specs.Prelude.{◌≡◌, ◌≢◌, ◌<◌, ◌≤◌, ◌+◌, ℕ, length, slice_index};

/// The length of the longest run at the front, in which each number is one more than the one before it.
pub fn run_length(numbers: &[u64]) -> usize
    requires { 0 < length numbers.now }
    ensures some { 0 < result }
    ensures within { result ≤ length numbers.now }
    ensures follow { (i : ℕ) → i < result → slice_index numbers.now i ≡ slice_index numbers.now 0 + i }
    ensures longest { result < length numbers.now
        → slice_index numbers.now result ≢ slice_index numbers.now 0 + result }
{
    let first = numbers[0];
    for (i, number) in numbers.iter().enumerate() {
        if number.checked_sub(first) != Some(i as u64) {
            return i;
        }
    }
    numbers.len()
}
