//! The header of a segment: its gate, its block and its frame gates. docs/layout.md says why it is so.

ghost use Rattle.std.specs.Prelude.{◌≡◌, ◌+◌, ◌≤◌, IsTrue, length};
ghost use Rattle.loop_record.specs.Geometry.{is_good};
ghost use Rattle.loop_record.specs.Layout.{header_at, header_bytes, checked_header, open_gates};

use crate::numbers::{OPEN, put, put_u64, u64_at};
use crate::{Damage, Geometry};

/// The bytes of a segment before its first slot.
pub const HEADER_SIZE: usize = 512;

// Where the frame gates begin in a header.
const GATES: usize = 256;

/// No frame has this number or one above it.
pub const NUMBERS_END: u64 = 1 << 62;

/// What the header of an open segment says.
#[derive(Clone, Copy, Debug, PartialEq, Eq)]
pub struct SegmentHead {
    /// The block that the segment holds: frames from `block * slots` on.
    pub block: u64,
    /// How many frames are whole: the open frame gates before the first closed one.
    pub frames: u32,
}

/// Writes into 512 bytes the open header of a segment that holds this block, without a frame yet.
pub fn encode_header(block: u64, out: &mut [u8])
    requires { length out.old ≡ 512 }
    ensures { out.new ≡ header_bytes block }
{
    put(out, 0, &[OPEN]);
    put(out, 1, &[0; 7]);
    put_u64(out, 8, block);
    put(out, 16, &[0; 496]);
}

/// What the header of a segment says, read from its first 512 bytes: nothing where its gate is closed, `BlockTooHigh`
/// where a frame of its block would have a number from 2^62 on.
pub fn decode_header(geometry: &Geometry, bytes: &[u8]) -> Result<Option<SegmentHead>, Damage>
    requires good { IsTrue (is_good geometry.now) }
    requires size { 512 ≤ length bytes.now }
    ensures { result ≡ checked_header geometry.now (header_at geometry.now bytes.now 0) }
{
    if bytes[0] != OPEN {
        return Ok(None);
    }
    let block = u64_at(bytes, 8);
    if block >= NUMBERS_END / u64::from(geometry.slots) {
        return Err(Damage::BlockTooHigh);
    }
    Ok(Some(SegmentHead {
        block,
        frames: open_gates(bytes, geometry.slots),
    }))
}

// How many frame gates are open before the first closed one.
fn open_gates(bytes: &[u8], slots: u32) -> u32
    requires { 256 + slots ≤ length bytes.now }
    ensures { result ≡ open_gates slots bytes.now 256 }
{
    for slot in 0..slots {
        if bytes[GATES + slot as usize] != OPEN {
            return slot;
        }
    }
    slots
}
