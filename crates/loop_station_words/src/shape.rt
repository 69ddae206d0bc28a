// The frames of the pattern.
ghost use Rattle.std.specs.Prelude.{◌≡◌, IfSome};
ghost use Rattle.loop_station_words.specs.Shapes.{IsShape, shape_geometry, shape_in, shape_said};

use crate::cut::cut;
use crate::ring::RingSize;
use loop_record::{Geometry, PixelFormat};
use loop_script::geometry_in;

/// What frames look like, and how fast they come.
#[derive(Clone, Copy, Debug, PartialEq, Eq)]
pub struct FrameShape {
    /// Luma samples in a row.
    pub width: u32,
    /// Rows of luma.
    pub height: u32,
    /// The order of the planes of a frame.
    pub format: PixelFormat,
    /// Frames in `rate_den` seconds.
    pub rate_num: u32,
    /// Seconds in which there are `rate_num` frames.
    pub rate_den: u32,
}

impl FrameShape {
    /// The geometry of a store for such frames, with this ring.
    pub fn geometry(&self, ring: RingSize) -> Geometry
        ensures { result ≡ shape_geometry self.now ring }
    {
        Geometry {
            width: self.width,
            height: self.height,
            format: self.format,
            rate_num: self.rate_num,
            rate_den: self.rate_den,
            segments: ring.segments,
            slots: ring.slots,
        }
    }
}

/// The shape that a text names, `WxH FORMAT N:D`, such as `640x480 YM12 25:1`; `None` where it can't be read, or no
/// store may have such frames.
pub fn read_shape(text: &str) -> Option<FrameShape>
    ensures shape { IfSome result IsShape }
    ensures said { result ≡ shape_said text.now }
{
    let (size, rest) = cut(text, ' ')?;
    let (width, height) = cut(size, 'x')?;
    let (format, rate) = cut(rest, ' ')?;
    shape_in(width, height, format, rate)
}

// The shape that four words name.
fn shape_in(width: &str, height: &str, format: &str, rate: &str) -> Option<FrameShape>
    ensures shape { IfSome result IsShape }
    ensures said { result ≡ shape_in width.now height.now format.now rate.now }
{
    let geometry = geometry_in(width, height, format, rate, "2", "1")?;
    if geometry.check().is_err() {
        return None;
    }
    Some(FrameShape {
        width: geometry.width,
        height: geometry.height,
        format: geometry.format,
        rate_num: geometry.rate_num,
        rate_den: geometry.rate_den,
    })
}
