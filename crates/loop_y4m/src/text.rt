//! The text that is written: a header, and then frames. After a fault, which is the writer's own, a prefix of what the
//! call writes was written. Nothing is flushed.

ghost use Rattle.std.specs.Prelude.{◌≡◌, ◌++◌, ◌∷◌, [], codes};
ghost use Rattle.loop_y4m.specs.Depths.{digits, stem};
ghost use Rattle.loop_y4m.specs.Text.{Wrote, colour_name, deep_header, frame, header, header_with, may_have};

use crate::Depth;
use arrayvec::ArrayVec;
use loop_record::{Geometry, PixelFormat};
use std::io::{Error, ErrorKind, Result, Write};

// More bytes than a header has.
const MAX_HEADER: usize = 80;

// The name of a format's colour.
fn colour_name(format: PixelFormat) -> &'static str
    ensures { result.now ≡ colour_name format }
{
    match format {
        PixelFormat::Grey => "mono",
        PixelFormat::Ym12 => "420jpeg",
        PixelFormat::Ym16 => "422",
        PixelFormat::Ym24 => "444",
    }
}

// What the colours of more than 8 bits a sample begin with.
fn stem(format: PixelFormat) -> &'static str
    ensures { result.now ≡ stem format }
{
    match format {
        PixelFormat::Grey => "mono",
        PixelFormat::Ym12 => "420p",
        PixelFormat::Ym16 => "422p",
        PixelFormat::Ym24 => "444p",
    }
}

// The bits of a sample, as the colours have them.
fn digits(depth: Depth) -> &'static str
    ensures { result.now ≡ digits depth }
{
    match depth {
        Depth::Bits8 => "8",
        Depth::Bits9 => "9",
        Depth::Bits10 => "10",
        Depth::Bits12 => "12",
        Depth::Bits14 => "14",
        Depth::Bits16 => "16",
    }
}

/// Whether frames of a geometry may have samples of so many bits: in two bytes, each row of each plane has whole ones.
pub fn may_have(geometry: &Geometry, depth: Depth) -> bool
    ensures { result ≡ may_have geometry.now depth }
{
    let whole = match geometry.format {
        PixelFormat::Grey | PixelFormat::Ym24 => 2,
        PixelFormat::Ym12 | PixelFormat::Ym16 => 4,
    };
    !depth.is_deep() || geometry.width % whole == 0
}

/// Writes the header of a geometry's frames: their size, rate and format, progressive and with an unknown aspect. After
/// a fault a prefix of it was written.
pub fn write_header<W: Write>(geometry: &Geometry, out: &mut W) -> Result<()>
    ensures { Wrote (W.contents out.old) (W.contents out.new) result (header geometry.now) }
{
    let width = geometry.width;
    put_header(width, colour_name(geometry.format), "", geometry, out)
}

/// Writes the header of a geometry's frames whose samples have so many bits. The width is their count in a row. It is
/// read back where the frames [may have](may_have) such samples.
pub fn write_deep_header<W: Write>(geometry: &Geometry, depth: Depth, out: &mut W) -> Result<()>
    ensures { Wrote (W.contents out.old) (W.contents out.new) result (deep_header geometry.now depth) }
{
    if !depth.is_deep() {
        return write_header(geometry, out);
    }
    let width = geometry.width / 2;
    put_header(width, stem(geometry.format), digits(depth), geometry, out)
}

// Writes a header with this width, and a colour's name in two parts.
fn put_header<W: Write>(
    width: u32,
    name: &str,
    rest: &str,
    geometry: &Geometry,
    out: &mut W,
) -> Result<()>
    ensures { Wrote (W.contents out.old) (W.contents out.new) result
        (header_with width (name.now ++ rest.now) geometry.now) }
{
    let mut line = ArrayVec::<u8, MAX_HEADER>::new();
    let Geometry {
        height,
        rate_num,
        rate_den,
        ..
    } = *geometry;
    write!(
        line,
        "YUV4MPEG2 W{width} H{height} F{rate_num}:{rate_den} Ip A0:0 C{name}{rest}\n"
    )?;
    put(line.as_slice(), out)
}

/// Writes the line before a frame's bytes. After a fault a prefix of it was written.
pub fn write_frame_line<W: Write>(out: &mut W) -> Result<()>
    ensures { Wrote (W.contents out.old) (W.contents out.new) result (codes "FRAME" ++ 10 ∷ []) }
{
    put(b"FRAME\n", out)
}

/// Writes a frame's bytes, or a part of them, as they are. After a fault a prefix of them was written.
pub fn write_pixels<W: Write>(bytes: &[u8], out: &mut W) -> Result<()>
    ensures { Wrote (W.contents out.old) (W.contents out.new) result bytes.now }
{
    put(bytes, out)
}

/// Writes a frame: its line and its bytes, as many as the header's format and size need. Their count isn't checked.
/// After a fault a prefix of both was written.
pub fn write_frame<W: Write>(bytes: &[u8], out: &mut W) -> Result<()>
    ensures { Wrote (W.contents out.old) (W.contents out.new) result (frame bytes.now) }
{
    write_frame_line(out)?;
    write_pixels(bytes, out)
}

// Writes all of these bytes, and tries again where a write was interrupted. `write_all` does so too, but its contract
// doesn't say how much was written before a fault.
#[tactic(auto, using(crate::proofs::PartWrites::writing))]
fn put<W: Write>(bytes: &[u8], out: &mut W) -> Result<()>
    ensures { Wrote (W.contents out.old) (W.contents out.new) result bytes.now }
{
    let mut rest = bytes;
    for _ in 0..u64::MAX {
        if rest.is_empty() {
            return Ok(());
        }
        match out.write(rest) {
            Ok(0) => return Err(Error::from(ErrorKind::WriteZero)),
            Ok(n) => rest = &rest[n..],
            Err(error) if error.kind() == ErrorKind::Interrupted => {}
            Err(error) => return Err(error),
        }
    }
    Err(Error::from(ErrorKind::TimedOut))
}
