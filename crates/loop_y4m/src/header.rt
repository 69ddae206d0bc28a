//! What a stream's header line says. docs/y4m.md says why it is so.

ghost use Rattle.std.specs.Prelude.{◌≡◌, ◌≤◌, IfSome, IfOk, IsTrue};
ghost use Rattle.loop_record.specs.Geometry.{is_good};
ghost use Rattle.loop_y4m.specs.Depths.{deep_colour, deep_of, format_of};
ghost use Rattle.loop_y4m.specs.Header.{side, rate, colour, colour_by, interlace, with_parameter, complete, geometry_for, header_of, is_halved, row_of, size_of_frame};
ghost use Rattle.loop_y4m.specs.Steps.{HasSmallSides, IsSmall};

use crate::depth::{Colours, Depth};
use crate::number::{find, number};
use crate::{GeometryFault, Y4mFault};
use loop_record::{Geometry, PixelFormat};

// The most bytes of a frame.
const MAX_FRAME: u32 = 16_777_216;

// The most samples of two bytes in a row.
const MAX_DEEP: u32 = 8192;

/// What a header says.
#[derive(Clone, Copy, Debug, PartialEq, Eq)]
pub struct Header {
    /// How the pixels of a frame lie.
    pub format: PixelFormat,
    /// The width of a frame in pixels, 1 to 16,384; of samples of two bytes twice that.
    pub width: u32,
    /// The height of a frame in pixels, 1 to 16,384.
    pub height: u32,
    /// The rate's numerator, in frames a second; 0 where the header has no rate.
    pub rate_num: u32,
    /// The rate's denominator; 0 where the header has no rate.
    pub rate_den: u32,
}

impl Header {
    /// The bytes of a frame.
    pub(crate) fn frame_bytes(&self) -> u32
        requires width { self.now.width ≤ 16384 }
        requires height { self.now.height ≤ 16384 }
        ensures { result ≡ size_of_frame self.now }
    {
        let luma = self.format.plane_bytes(self.width, self.height, 0);
        if self.format.planes() == 1 {
            return luma;
        }
        let chroma = self.format.plane_bytes(self.width, self.height, 1);
        luma + chroma + chroma
    }

    /// The geometry of a store for the frames, with so many segments, and so many slots in each.
    pub(crate) fn geometry(&self, segments: u32, slots: u32) -> Result<Geometry, GeometryFault>
        ensures geometry { result ≡ geometry_for self.now segments slots }
        ensures good { IfOk result (λ geometry. IsTrue (is_good geometry)) }
    {
        let Header {
            format,
            width,
            height,
            rate_num,
            rate_den,
        } = *self;
        if rate_num == 0 || rate_den == 0 {
            return Err(GeometryFault::RateUnknown);
        }
        let geometry = Geometry {
            width,
            height,
            format,
            rate_num,
            rate_den,
            segments,
            slots,
        };
        match geometry.check() {
            Ok(()) => Ok(geometry),
            Err(_) => Err(GeometryFault::BadGeometry),
        }
    }
}

// The parameters so far.
#[derive(Clone, Copy)]
struct Parameters {
    width: Option<u32>,
    height: Option<u32>,
    rate_num: u32,
    rate_den: u32,
    format: PixelFormat,
    depth: Depth,
}

fn side(text: &[u8]) -> Option<u32>
    ensures value { result ≡ side text.now }
    ensures bound { IfSome result (λ n. n ≤ 16384) }
{
    match number(16_384, text) {
        Some(0) | None => None,
        Some(n) => Some(n),
    }
}

fn rate(text: &[u8]) -> Option<(u32, u32)>
    ensures { result ≡ rate text.now }
{
    let colon = find(text, b':');
    if colon == text.len() {
        return None;
    }
    let num = number(u32::MAX, &text[..colon])?;
    let den = number(u32::MAX, &text[colon + 1..])?;
    Some((num, den))
}

fn colour(text: &[u8]) -> Option<PixelFormat>
    ensures { result ≡ colour text.now }
{
    if text == b"mono".as_slice() {
        Some(PixelFormat::Grey)
    } else if text == b"420".as_slice()
        || text == b"420jpeg".as_slice()
        || text == b"420mpeg2".as_slice()
        || text == b"420paldv".as_slice()
    {
        Some(PixelFormat::Ym12)
    } else if text == b"422".as_slice() {
        Some(PixelFormat::Ym16)
    } else if text == b"444".as_slice() {
        Some(PixelFormat::Ym24)
    } else {
        None
    }
}

// Of samples of two bytes.
fn format_of(text: &[u8]) -> Option<PixelFormat>
    ensures { result ≡ format_of text.now }
{
    if text == b"mono".as_slice() {
        Some(PixelFormat::Grey)
    } else if text == b"420p".as_slice() {
        Some(PixelFormat::Ym12)
    } else if text == b"422p".as_slice() {
        Some(PixelFormat::Ym16)
    } else if text == b"444p".as_slice() {
        Some(PixelFormat::Ym24)
    } else {
        None
    }
}

fn deep_of(text: &[u8]) -> Option<Depth>
    ensures { result ≡ deep_of text.now }
{
    if text == b"9".as_slice() {
        Some(Depth::Bits9)
    } else if text == b"10".as_slice() {
        Some(Depth::Bits10)
    } else if text == b"12".as_slice() {
        Some(Depth::Bits12)
    } else if text == b"14".as_slice() {
        Some(Depth::Bits14)
    } else if text == b"16".as_slice() {
        Some(Depth::Bits16)
    } else {
        None
    }
}

fn deep_colour(text: &[u8]) -> Option<(PixelFormat, Depth)>
    ensures { result ≡ deep_colour text.now }
{
    let four = text.len().min(4);
    let format = format_of(&text[..four])?;
    let depth = deep_of(&text[four..])?;
    Some((format, depth))
}

fn colour_by(colours: Colours, text: &[u8]) -> Option<(PixelFormat, Depth)>
    ensures { result ≡ colour_by colours text.now }
{
    match (colour(text), colours) {
        (Some(format), _) => Some((format, Depth::Bits8)),
        (None, Colours::Eight) => None,
        (None, Colours::All) => deep_colour(text),
    }
}

// Progressive frames, or unknown ones.
fn interlace(text: &[u8]) -> Result<(), Y4mFault>
    ensures { result ≡ interlace text.now }
{
    match text {
        [b'p' | b'?'] => Ok(()),
        [b't' | b'b' | b'm'] => Err(Y4mFault::UnsupportedInterlace),
        _ => Err(Y4mFault::BadHeader),
    }
}

// Adds one parameter.
fn with_parameter(
    colours: Colours,
    mut given: Parameters,
    word: &[u8],
) -> Result<Parameters, Y4mFault>
    ensures value { result ≡ with_parameter colours given word.now }
    ensures bound { HasSmallSides given → IfOk result HasSmallSides }
{
    let Some((&letter, text)) = word.split_first() else {
        return Ok(given);
    };
    match letter {
        b'W' => given.width = Some(side(text).ok_or(Y4mFault::BadHeader)?),
        b'H' => given.height = Some(side(text).ok_or(Y4mFault::BadHeader)?),
        b'F' => (given.rate_num, given.rate_den) = rate(text).ok_or(Y4mFault::BadHeader)?,
        b'I' => interlace(text)?,
        b'C' => {
            (given.format, given.depth) = colour_by(colours, text).ok_or(
                Y4mFault::UnsupportedColour,
            )?
        }
        _ => {}
    }
    Ok(given)
}

// Whether chroma is halved in a row's direction.
fn is_halved(format: PixelFormat) -> bool
    ensures { result ≡ is_halved format }
{
    match format {
        PixelFormat::Grey | PixelFormat::Ym24 => false,
        PixelFormat::Ym12 | PixelFormat::Ym16 => true,
    }
}

// The width that a frame is recorded with: of samples of two bytes twice their count in a row.
fn row_of(width: u32, format: PixelFormat, depth: Depth) -> Result<u32, Y4mFault>
    requires { width ≤ 16384 }
    ensures value { result ≡ row_of width format depth }
    ensures bound { IfOk result (λ n. n ≤ 16384) }
{
    if !depth.is_deep() {
        return Ok(width);
    }
    if width > MAX_DEEP {
        return Err(Y4mFault::BadHeader);
    }
    if is_halved(format) && width % 2 == 1 {
        return Err(Y4mFault::OddWidth);
    }
    Ok(2 * width)
}

// The header that all parameters give, and how many bits a sample has: its width and height are given, and its frames
// aren't too large.
fn complete(given: Parameters) -> Result<(Header, Depth), Y4mFault>
    requires { HasSmallSides given }
    ensures value { result ≡ complete given.width given.height given }
    ensures bound { IfOk result (λ h. IsSmall h.0) }
{
    let (Some(width), Some(height)) = (given.width, given.height) else {
        return Err(Y4mFault::BadHeader);
    };
    let width = row_of(width, given.format, given.depth)?;
    let header = Header {
        format: given.format,
        width,
        height,
        rate_num: given.rate_num,
        rate_den: given.rate_den,
    };
    if header.frame_bytes() <= MAX_FRAME {
        Ok((header, given.depth))
    } else {
        Err(Y4mFault::BadHeader)
    }
}

/// Reads what follows `YUV4MPEG2` and a space in a header line, with a list of colours. The first parameter from the
/// left that can't be read decides which fault it is.
#[tactic(auto, using(crate::proofs::Words::last_parameter, crate::proofs::Words::more_parameters))]
pub(crate) fn parse_header(colours: Colours, text: &[u8]) -> Result<(Header, Depth), Y4mFault>
    ensures value { result ≡ header_of colours text.now }
    ensures bound { IfOk result (λ h. IsSmall h.0) }
{
    let mut given = Parameters {
        width: None,
        height: None,
        rate_num: 0,
        rate_den: 0,
        format: PixelFormat::Ym12,
        depth: Depth::Bits8,
    };
    let mut rest = text;
    loop {
        let end = find(rest, b' ');
        given = with_parameter(colours, given, &rest[..end])?;
        if end == rest.len() {
            return complete(given);
        }
        rest = &rest[end + 1..];
    }
}
