// Frames of the pattern, whose bytes identify them.
ghost use Rattle.std.specs.Prelude.{◌≡◌, ◌<◌, ◌%◌, ◌^◌, IfOk, IsTrue, length};
ghost use Rattle.loop_record.specs.Geometry.{frame_bytes, is_good};
ghost use Rattle.loop_record.specs.Recording.{picture};
ghost use Rattle.loop_script.specs.Pattern.{pattern_picture, timestamp_of};

use loop_desk::frame_memory;
use loop_record::{Frame, Geometry, fill_pattern};
use std::alloc::{AllocError, Allocator};

/// The flags of each frame of the pattern: a monotonic timestamp, taken at the end of the frame, as the V4L2 userspace
/// API has it.
pub const PATTERN_FLAGS: u32 = 0x2000;

/// The sequence of frame `n`, modulo 2^32.
pub fn pattern_sequence(n: u64) -> u32
    ensures { result ≡ n % 2 ^ 32 }
{
    (n % (1 << 32)) as u32
}

/// When frame `n` was taken, in microseconds, at `num / den` frames a second, rounded down; at most 2^64 - 1.
pub fn pattern_timestamp(n: u64, num: u32, den: u32) -> u64
    requires { 0 < num }
    ensures { result ≡ timestamp_of n num den }
{
    let micros = u128::from(n) * 1_000_000 * u128::from(den) / u128::from(num);
    u64::try_from(micros).unwrap_or(u64::MAX)
}

/// Frame `n`, of this geometry, in spare memory if that has its length, otherwise in new memory.
pub fn pattern_frame<A: Allocator>(
    alloc: A,
    spare: Option<Vec<u8, A>>,
    geometry: &Geometry,
    n: u64,
) -> Result<Frame<A>, AllocError>
    requires { IsTrue (is_good geometry.now) }
    ensures picture { IfOk result (λ frame. picture frame ≡ pattern_picture geometry.now n) }
    ensures size { IfOk result (λ frame. length frame.bytes.items ≡ frame_bytes geometry.now) }
{
    let mut bytes = frame_memory(alloc, spare, geometry.frame_bytes() as usize)?;
    fill_pattern(&mut bytes, n);
    Ok(Frame {
        sequence: pattern_sequence(n),
        flags: PATTERN_FLAGS,
        timestamp: pattern_timestamp(n, geometry.rate_num, geometry.rate_den),
        bytes,
    })
}
