//! Clips, and the entries of the clip table. docs/layout.md says why it is so.

ghost use Rattle.std.specs.Prelude.{◌==◌, ◌≡◌, ◌≤◌, IfOk, if◌then◌else◌, length};
ghost use Rattle.byteorder.specs.Endian.{little_from};
ghost use Rattle.loop_record.specs.Layout.{entry_at, entry_bytes, checked_clip};
ghost use Rattle.loop_record.specs.Plain.{IsTagFit};

use crate::Damage;
use crate::numbers::{OPEN, put, put_u64, u64_at};
use crate::superblock::TAGGED;

/// The bytes of an entry of the clip table.
pub const CLIP_SIZE: usize = 32;

/// The bytes of the clip table: an entry for each of the 64 ids.
pub const TABLE_SIZE: usize = 64 * CLIP_SIZE;

/// The frames of a clip: those whose numbers are from `from` to `to`, both included.
#[derive(Clone, Copy, Debug, PartialEq, Eq)]
pub struct Span {
    /// The first number.
    pub from: u64,
    /// The last number.
    pub to: u64,
    /// The name that its maker gave it, in version 2 of the layout; in version 1 it is 0.
    pub tag: u64,
}

/// Writes the open entry of a clip into 32 bytes. In version 1 of the layout the tag is 0, so zeros are written for
/// it.
pub fn encode_clip(span: Span, out: &mut [u8])
    requires { length out.old ≡ 32 }
    ensures { out.new ≡ entry_bytes span }
{
    put(out, 0, &[OPEN]);
    put(out, 1, &[0; 7]);
    put_u64(out, 8, span.from);
    put_u64(out, 16, span.to);
    put_u64(out, 24, span.tag);
}

/// The clip in an entry of this version, read from its first 32 bytes: nothing where its gate is closed, `ClipRange`
/// where `from` is above `to`.
pub fn decode_clip(version: u32, bytes: &[u8]) -> Result<Option<Span>, Damage>
    requires { 32 ≤ length bytes.now }
    ensures clip { result ≡ checked_clip (entry_at version bytes.now 0) }
    ensures tag { IfOk result IsTagFit }
{
    if bytes[0] != OPEN {
        return Ok(None);
    }
    let span = Span {
        from: u64_at(bytes, 8),
        to: u64_at(bytes, 16),
        tag: tag_in(version, bytes),
    };
    if span.to < span.from {
        return Err(Damage::ClipRange);
    }
    Ok(Some(span))
}

// The tag in an entry of this version.
fn tag_in(version: u32, bytes: &[u8]) -> u64
    requires { 32 ≤ length bytes.now }
    ensures { result ≡ (if version == 2 then little_from 24 8 bytes.now else 0) }
{
    if version == TAGGED {
        u64_at(bytes, 24)
    } else {
        0
    }
}
