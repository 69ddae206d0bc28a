// Lines of a script, read in bounded memory.
ghost use Rattle.std.specs.Prelude.{◌≡◌, ◌≤◌, IfOk, IfSome, OnOk, length, nat_lt, vec_len};
ghost use Rattle.std.specs.Io.BufRead.{first_piece, strip_last};

use std::alloc::Allocator;
use std::io::{BufRead, Read};

/// The most bytes of a line, without its 0x0A.
pub const MAX_LINE: usize = 4096;

/// A line that is too long, or a read that failed.
#[derive(Clone, Copy, Debug, PartialEq, Eq)]
pub struct BadLine;

/// Reads the next line into `line`, in place of what is there, and removes its 0x0A; false where no line is left. A
/// 0x0D before the 0x0A is a byte of the line, so that the line can't be read as a command. It reads no byte after the
/// line, and of a line that is too long only the first 4,097. Where `line` has room for 4,097 bytes it takes no memory;
/// otherwise want of memory is a failed read.
pub fn next_line<R: BufRead, A: Allocator>(
    input: &mut R,
    line: &mut Vec<u8, A>,
) -> Result<bool, BadLine>
    ensures most { OnOk result (vec_len line.new ≤ 4096) }
    ensures line { OnOk result (IfSome (R.remaining input.old)
        (λ left. line.new.items ≡ first_piece 10 left)) }
    ensures more { IfOk result (λ more. IfSome (R.remaining input.old)
        (λ left. more ≡ nat_lt 0 (length left))) }
{
    line.clear();
    let mut limited = input.take(MAX_LINE as u64 + 1);
    match limited.read_until(b'\n', line) {
        Err(_) => return Err(BadLine),
        Ok(0) => return Ok(false),
        Ok(_) => (),
    }
    strip_newline(line);
    if line.len() > MAX_LINE {
        return Err(BadLine);
    }
    Ok(true)
}

// Removes the 0x0A that ends a line, if one does.
fn strip_newline<A: Allocator>(line: &mut Vec<u8, A>)
    ensures { line.new.items ≡ strip_last 10 line.old.items }
{
    if line.last() == Some(&b'\n') {
        // Dropped: the byte is known, it is the 0x0A.
        let _ = line.pop();
    }
}
