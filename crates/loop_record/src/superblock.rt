//! The superblock: whether a disk is formatted, and its geometry. docs/layout.md says why it is so.

ghost use Rattle.std.specs.Prelude.{◌==◌, ◌≡◌, ◌≤◌, IsTrue, length};
ghost use Rattle.std.specs.List.{list_all};
ghost use Rattle.loop_record.specs.Geometry.{is_good};
ghost use Rattle.loop_record.specs.Layout.{super_bytes, super_in, version_gate, version_in, geometry_fields, is_super_of};

use crate::numbers::{OPEN, has_bytes, put, put_u32, u32_at};
use crate::{Damage, Geometry, LayoutFault, PixelFormat};

/// The bytes of the superblock.
pub const SUPER_SIZE: usize = 512;

// The number after the magic, in each version of the layout.
const MARK: u32 = 1;

/// Where the gate of the version lies.
pub const VERSION_GATE: usize = 44;

/// The version of the layout whose version gate is open: its clips have tags. Any other image has version 1.
pub const TAGGED: u32 = 2;

// The bytes after the superblock's gate.
const MAGIC: [u8; 7] = *b"LOOPREC";

/// What an open superblock says.
#[derive(Clone, Copy, Debug, PartialEq, Eq)]
pub struct SuperHead {
    /// The geometry.
    pub geometry: Geometry,
    /// The version of the layout, 1 or 2.
    pub version: u32,
}

/// Writes an open superblock into 512 bytes.
pub fn encode_super(head: &SuperHead, out: &mut [u8])
    requires good { IsTrue (is_good head.now.geometry) }
    requires size { length out.old ≡ 512 }
    ensures { out.new ≡ super_bytes head.now }
{
    let geometry = &head.geometry;
    put(out, 0, &[OPEN]);
    put(out, 1, &MAGIC);
    put_u32(out, 8, MARK);
    put_u32(out, 12, geometry.width);
    put_u32(out, 16, geometry.height);
    put(out, 20, &geometry.format.name());
    put_u32(out, 24, geometry.rate_num);
    put_u32(out, 28, geometry.rate_den);
    put_u32(out, 32, geometry.segments);
    put_u32(out, 36, geometry.slots);
    put_u32(out, 40, geometry.frame_bytes());
    put(out, VERSION_GATE, &[version_gate(head.version)]);
    put(out, 45, &[0; 467]);
}

// The gate of a version.
fn version_gate(version: u32) -> u8
    ensures { result ≡ version_gate version }
{
    if version == TAGGED { OPEN } else { 0 }
}

/// What a superblock says, read from its first 512 bytes.
///
/// `NotFormatted` for fewer than 512 bytes, a closed gate or another magic; `Damaged(Superblock)` for another number
/// than 1 after the magic, a geometry that isn't good, frame bytes that aren't the sum of its planes, or a byte from
/// 45 on that isn't zero.
pub fn decode_super(bytes: &[u8]) -> Result<SuperHead, LayoutFault>
    ensures { result ≡ super_in bytes.now }
{
    if bytes.len() < SUPER_SIZE || bytes[0] != OPEN || !has_bytes(bytes, 1, &MAGIC) {
        return Err(LayoutFault::NotFormatted);
    }
    let Some(format) = PixelFormat::named(&bytes[20..24]) else {
        return Err(LayoutFault::Damaged(Damage::Superblock));
    };
    let geometry = geometry_fields(bytes, format);
    if is_super_of(bytes, &geometry) {
        Ok(SuperHead {
            geometry,
            version: version_in(bytes),
        })
    } else {
        Err(LayoutFault::Damaged(Damage::Superblock))
    }
}

// The version, by its gate.
fn version_in(bytes: &[u8]) -> u32
    requires { 512 ≤ length bytes.now }
    ensures { result ≡ version_in bytes.now }
{
    if bytes[VERSION_GATE] == OPEN {
        TAGGED
    } else {
        1
    }
}

// The geometry that the fields name.
fn geometry_fields(bytes: &[u8], format: PixelFormat) -> Geometry
    requires { 512 ≤ length bytes.now }
    ensures { result ≡ geometry_fields bytes.now format }
{
    Geometry {
        width: u32_at(bytes, 12),
        height: u32_at(bytes, 16),
        format,
        rate_num: u32_at(bytes, 24),
        rate_den: u32_at(bytes, 28),
        segments: u32_at(bytes, 32),
        slots: u32_at(bytes, 36),
    }
}

// Whether a 1 follows the magic, the geometry is good, the frame bytes are the geometry's, and the rest are zeros.
fn is_super_of(bytes: &[u8], geometry: &Geometry) -> bool
    requires { 512 ≤ length bytes.now }
    ensures { result ≡ is_super_of bytes.now geometry.now }
{
    if u32_at(bytes, 8) != MARK || geometry.check().is_err() {
        return false;
    }
    u32_at(bytes, 40) == geometry.frame_bytes() && is_zero(&bytes[45..SUPER_SIZE])
}

// Whether each byte is zero.
fn is_zero(bytes: &[u8]) -> bool
    ensures { result ≡ list_all (λ b. b == 0) bytes.now }
{
    bytes.iter().all(|byte| *byte == 0)
}
