//! Gates, and the layout's numbers, which are little-endian.

ghost use Rattle.std.specs.Prelude.{◌≡◌, ◌+◌, ◌≤◌, ◌++◌, length, take, drop};
ghost use Rattle.byteorder.specs.Endian.{little_bytes, little_from};
ghost use Rattle.loop_record.specs.Layout.{has_bytes};

use byteorder::{ByteOrder, LittleEndian};

/// An open gate. Any other byte is a closed gate.
pub const OPEN: u8 = 0xA5;

/// The number of 32 bits at a place.
pub fn u32_at(bytes: &[u8], at: usize) -> u32
    requires { at + 4 ≤ length bytes.now }
    ensures { result ≡ little_from at 4 bytes.now }
{
    LittleEndian::read_u32(&bytes[at..])
}

/// The number of 64 bits at a place.
pub fn u64_at(bytes: &[u8], at: usize) -> u64
    requires { at + 8 ≤ length bytes.now }
    ensures { result ≡ little_from at 8 bytes.now }
{
    LittleEndian::read_u64(&bytes[at..])
}

/// Writes a number of 32 bits at a place.
pub fn put_u32(out: &mut [u8], at: usize, number: u32)
    requires { at + 4 ≤ length out.old }
    ensures { out.new ≡ take at out.old ++ little_bytes 4 number ++ drop (at + 4) out.old }
{
    LittleEndian::write_u32(&mut out[at..], number);
}

/// Writes a number of 64 bits at a place.
pub fn put_u64(out: &mut [u8], at: usize, number: u64)
    requires { at + 8 ≤ length out.old }
    ensures { out.new ≡ take at out.old ++ little_bytes 8 number ++ drop (at + 8) out.old }
{
    LittleEndian::write_u64(&mut out[at..], number);
}

/// Writes bytes at a place.
pub(crate) fn put(out: &mut [u8], at: usize, bytes: &[u8])
    requires { at + length bytes.now ≤ length out.old }
    ensures { out.new ≡ take at out.old ++ bytes.now ++ drop (at + length bytes.now) out.old }
{
    out[at..at + bytes.len()].copy_from_slice(bytes);
}

/// Whether these bytes are at a place.
pub(crate) fn has_bytes(bytes: &[u8], at: usize, expected: &[u8]) -> bool
    requires { at + length expected.now ≤ length bytes.now }
    ensures { result ≡ has_bytes bytes.now at expected.now }
{
    for (i, byte) in expected.iter().enumerate() {
        if bytes[at + i] != *byte {
            return false;
        }
    }
    true
}
