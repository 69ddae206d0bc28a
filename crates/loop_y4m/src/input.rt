//! Bytes and lines from a reader.

ghost use Rattle.std.specs.Prelude.{◌≡◌, ◌≤◌, ◌<◌, ◌++◌, IfErr, IfOk, IfSome, IsNone, length, option_to_list, take};
ghost use Rattle.std.specs.Io.{ReadsAtMost};
ghost use Rattle.std.specs.Io.KnownBytes.{Consumes, IsAtEnd, ReadConsumes};
ghost use Rattle.std.specs.List.{position_or_len};
ghost use Rattle.loop_y4m.specs.Steps.{LineIs};
ghost use Rattle.loop_y4m.specs.Stream.{is_newline, line};

use crate::Y4mFault;
use std::io::{ErrorKind, Read};

/// The most bytes of a line, its 0x0A among them.
pub(crate) const MAX_LINE: usize = 4096;

/// One read, tried again where it was interrupted. The tries are limited, to 2^64 - 1, since each call has to end.
#[tactic(auto, using(crate::proofs::Retry::still_there, crate::proofs::Retry::still_read))]
pub(crate) fn read_some<R: Read>(reader: &mut R, buf: &mut [u8]) -> Result<usize, Y4mFault>
    ensures bound { ReadsAtMost result buf.new }
    ensures bytes { ReadConsumes (R.remaining reader.old) (R.remaining reader.new) result buf.new }
    ensures fault { IfErr result (λ f. f ≡ Y4mFault.Read) }
{
    for _ in 0..u64::MAX {
        match reader.read(buf) {
            Ok(n) => return Ok(n),
            Err(error) if error.kind() == ErrorKind::Interrupted => {}
            Err(_) => return Err(Y4mFault::Read),
        }
    }
    Err(Y4mFault::Read)
}

/// The next byte; none at the end.
pub(crate) fn next_byte<R: Read>(reader: &mut R) -> Result<Option<u8>, Y4mFault>
    ensures byte { IfOk result
        (λ b. Consumes (R.remaining reader.old) (R.remaining reader.new) (option_to_list b)) }
    ensures end { IfOk result (λ b. IsNone b → IsAtEnd (R.remaining reader.new)) }
    ensures fault { IfErr result (λ f. f ≡ Y4mFault.Read) }
{
    let mut byte = [0u8];
    if read_some(reader, &mut byte)? == 0 {
        return Ok(None);
    }
    Ok(Some(byte[0]))
}

/// Continues a line in `buf`, after its first `from` bytes, byte by byte up to its 0x0A, and returns how many bytes
/// come before that.
#[tactic(auto, using(crate::proofs::Lines::reading))]
pub(crate) fn next_line<R: Read>(
    reader: &mut R,
    buf: &mut [u8],
    from: usize,
) -> Result<usize, Y4mFault>
    requires size { length buf.old ≡ MAX_LINE }
    requires room { from ≤ MAX_LINE }
    requires begun { position_or_len is_newline (take from buf.old) ≡ length (take from buf.old) }
    ensures bound { IfOk result (λ n. n < MAX_LINE) }
    ensures line { IfSome (R.remaining reader.old)
        (λ xs. LineIs (line (take from buf.old ++ xs)) result buf.new (R.remaining reader.new)) }
{
    let mut n = from;
    while n < MAX_LINE {
        match next_byte(reader)? {
            None => return Err(Y4mFault::Truncated),
            Some(b'\n') => return Ok(n),
            Some(byte) => buf[n] = byte,
        }
        n += 1;
    }
    Err(Y4mFault::BadHeader)
}
