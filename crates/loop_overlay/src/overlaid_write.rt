// The writes that an overlay holds in memory.
ghost use Rattle.std.specs.Prelude.{◌≡◌, ◌≤◌, ◌+◌, ◌++◌, [], ◌∷◌, List, OnErr, OnOk, length, ℕ};
ghost use Rattle.loop_disk.specs.Medium.{with_bytes_at};
ghost use Rattle.loop_overlay.specs.Layers.{laid, laid_on};
ghost use Rattle.loop_overlay.specs.Parts.{IsBufferOf};

use std::alloc::{AllocError, Allocator};
use std::marker::Model;

/// A write that lies over the disk beneath: where it begins, and its bytes.
#[derive(Drop)]
pub(crate) struct OverlaidWrite<A: Allocator> {
    at: u64,
    bytes: Vec<u8, A>,
}

impl<A: Allocator> Model for OverlaidWrite<A> {
    ghost use Rattle.loop_overlay.specs.Layers.{LaidWrite};

    ghost Value = { LaidWrite };

    ghost view = { λ write. record { at = write.at; bytes = write.bytes.items } };
}

impl<A: Allocator> OverlaidWrite<A> {
    // Lays the write over a buffer that holds a disk's bytes from `at` on.
    fn lay_over(&self, at: u64, buf: &mut [u8])
        ensures { (image : List ℕ) → IsBufferOf at image buf.old → IsBufferOf at (laid_on image self.now) buf.new }
    {
        lay(self.at, &self.bytes, at, buf);
    }
}

/// Lays bytes that were written at `from` over a buffer that holds a disk's bytes from `at` on.
pub(crate) fn lay(from: u64, bytes: &[u8], at: u64, buf: &mut [u8])
    ensures { (image : List ℕ) → IsBufferOf at image buf.old
        → IsBufferOf at (laid_on image (record { at = from; bytes = bytes.now })) buf.new }
{
    let to = from.saturating_sub(at) as usize;
    let skipped = at.saturating_sub(from) as usize;
    if to >= buf.len() || skipped >= bytes.len() {
        return;
    }
    let count = (buf.len() - to).min(bytes.len() - skipped);
    put(buf, to, &bytes[skipped..skipped + count]);
}

// Puts bytes in their place.
fn put(buf: &mut [u8], at: usize, bytes: &[u8])
    requires { at + length bytes.now ≤ length buf.old }
    ensures { buf.new ≡ with_bytes_at at bytes.now buf.old }
{
    buf[at..at + bytes.len()].copy_from_slice(bytes);
}

/// Lays the writes over a buffer that holds a disk's bytes from `at` on, the first one first.
pub(crate) fn lay_all<A: Allocator>(writes: &[OverlaidWrite<A>], at: u64, buf: &mut [u8])
    ensures { (image : List ℕ) → IsBufferOf at image buf.old → IsBufferOf at (laid writes.now image) buf.new }
{
    for write in writes {
        write.lay_over(at, buf);
    }
}

/// Adds a write after the others, or changes nothing where memory is refused.
pub(crate) fn add_write<A: Allocator + Copy>(
    alloc: A,
    writes: &mut Vec<OverlaidWrite<A>, A>,
    at: u64,
    bytes: &[u8],
) -> Result<(), AllocError>
    ensures added { OnOk result (writes.new.items
        ≡ writes.old.items ++ record { at = at; bytes = bytes.now } ∷ []) }
    ensures same { OnErr result (writes.new.items ≡ writes.old.items) }
{
    let bytes = Vec::from_slice(alloc, bytes)?;
    writes.reserve(1)?;
    writes.push_reserved(OverlaidWrite { at, bytes });
    Ok(())
}
