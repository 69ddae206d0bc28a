//! Slots: a frame's number and head, and its bytes. docs/layout.md says why it is so.

ghost use Rattle.std.specs.Prelude.{◌≡◌, ◌++◌, ◌+◌, ◌-◌, ◌<◌, ◌≤◌, ◌^◌, IfErr, length};
ghost use Rattle.loop_record.specs.declared.damage.Damage.TheVariants.{SlotHead};
ghost use Rattle.loop_record.specs.Recording.{picture};
ghost use Rattle.loop_record.specs.Layout.{slot_bytes, slot_in, slot_head};

use crate::numbers::{put_u32, put_u64, u32_at, u64_at};
use crate::{Damage, Frame, FrameHead};
use std::alloc::Allocator;

/// The bytes of a slot before the frame's own.
pub const HEAD_SIZE: usize = 32;

/// Writes a slot: the number, the head, the count of bytes, a zero, and the frame's bytes. `out` has the size of a
/// slot.
pub fn encode_slot<A: Allocator>(number: u64, frame: &Frame<A>, out: &mut [u8])
    requires size { length out.old ≡ 32 + length frame.now.bytes.items }
    requires fits { length frame.now.bytes.items < 2 ^ 32 }
    ensures { out.new ≡ slot_bytes number (picture frame.now) }
{
    put_u64(out, 0, number);
    put_u32(out, 8, frame.sequence);
    put_u32(out, 12, frame.flags);
    put_u64(out, 16, frame.timestamp);
    put_u32(out, 24, frame.bytes.len() as u32);
    put_u32(out, 28, 0);
    out[HEAD_SIZE..].copy_from_slice(&frame.bytes);
}

/// Writes the head of a slot: the number, the frame's head, the count of its bytes, and a zero. `out` has `HEAD_SIZE`
/// bytes; with the frame's own bytes after it, it is the frame's slot.
pub fn encode_head<A: Allocator>(number: u64, frame: &Frame<A>, out: &mut [u8])
    requires size { length out.old ≡ 32 }
    requires fits { length frame.now.bytes.items < 2 ^ 32 }
    ensures { out.new ++ frame.now.bytes.items ≡ slot_bytes number (picture frame.now) }
{
    put_u64(out, 0, number);
    put_u32(out, 8, frame.sequence);
    put_u32(out, 12, frame.flags);
    put_u64(out, 16, frame.timestamp);
    put_u32(out, 24, frame.bytes.len() as u32);
    put_u32(out, 28, 0);
}

/// The head in a slot that should hold frame `number`, or `SlotHead` where the slot names another number, or another
/// count of bytes than the slot has after its first 32.
pub fn decode_slot(bytes: &[u8], number: u64) -> Result<FrameHead, Damage>
    requires { 32 ≤ length bytes.now }
    ensures { result ≡ slot_head (length bytes.now - 32) number (slot_in (length bytes.now - 32) bytes.now 0) }
{
    if u64_at(bytes, 0) != number || u32_at(bytes, 24) as usize != bytes.len() - HEAD_SIZE {
        return Err(Damage::SlotHead);
    }
    Ok(FrameHead {
        number,
        sequence: u32_at(bytes, 8),
        flags: u32_at(bytes, 12),
        timestamp: u64_at(bytes, 16),
    })
}

/// The head of a slot that should hold frame `number`, of `size` bytes, read from the slot's first 32 bytes;
/// `SlotHead` where the slot names another number or another count of bytes.
pub fn decode_head(bytes: &[u8], number: u64, size: u32) -> Result<FrameHead, Damage>
    requires { 32 ≤ length bytes.now }
    ensures head { result ≡ slot_head size number (slot_in size bytes.now 0) }
    ensures damage { IfErr result (λ damage. damage ≡ SlotHead) }
{
    if u64_at(bytes, 0) != number || u32_at(bytes, 24) != size {
        return Err(Damage::SlotHead);
    }
    Ok(FrameHead {
        number,
        sequence: u32_at(bytes, 8),
        flags: u32_at(bytes, 12),
        timestamp: u64_at(bytes, 16),
    })
}
