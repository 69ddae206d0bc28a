//! Memory for frames.

ghost use Rattle.std.specs.Prelude.{◌≡◌, IfOk, length};

use std::alloc::{AllocError, Allocator};

/// Memory for a frame of this many bytes, whose values don't matter: the spare memory where it has that length,
/// otherwise new memory.
pub fn frame_memory<A: Allocator>(
    alloc: A,
    spare: Option<Vec<u8, A>>,
    size: usize,
) -> Result<Vec<u8, A>, AllocError>
    ensures { IfOk result (λ bytes. length bytes.items ≡ size) }
{
    if let Some(bytes) = spare
        && bytes.len() == size
    {
        return Ok(bytes);
    }
    vec![in alloc; 0u8; size]
}
