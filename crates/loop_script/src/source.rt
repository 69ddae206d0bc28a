// What is printed of a source whose frames aren't like those of a store.

use loop_record::Geometry;
use std::io::Write;
use std::{io, str};

/// How far the frames of a source and those of a store are alike.
#[derive(Clone, Copy, Debug, PartialEq, Eq)]
pub enum Likeness {
    /// They have one size, format and rate.
    Alike,
    /// They have one size and format, and come at another rate.
    OtherRate,
    /// They have another size or format.
    OtherGeometry,
}

/// How far the frames of two geometries are alike, whatever their rings. Rates are compared as fractions.
pub fn compare_frames(one: &Geometry, other: &Geometry) -> Likeness {
    if one.width != other.width || one.height != other.height || one.format != other.format {
        return Likeness::OtherGeometry;
    }
    let (left, right) = (
        u64::from(one.rate_num) * u64::from(other.rate_den),
        u64::from(other.rate_num) * u64::from(one.rate_den),
    );
    if left == right {
        Likeness::Alike
    } else {
        Likeness::OtherRate
    }
}

/// `other geometry NAME WxH FORMAT N:D`: the frames of a source, where its store has frames of another size or format.
pub fn print_other_geometry<W: Write>(
    out: &mut W,
    name: &str,
    geometry: &Geometry,
) -> io::Result<()> {
    let Geometry {
        width,
        height,
        format,
        rate_num,
        rate_den,
        segments: _,
        slots: _,
    } = geometry;
    let letters = format.name();
    let format = str::from_utf8(&letters).unwrap_or("");
    writeln!(
        out,
        "other geometry {name} {width}x{height} {format} {rate_num}:{rate_den}"
    )
}

/// `other rate NAME N:D`: the rate of a source's frames, where its store has another one.
pub fn print_other_rate<W: Write>(out: &mut W, name: &str, geometry: &Geometry) -> io::Result<()> {
    let Geometry {
        rate_num,
        rate_den,
        ..
    } = geometry;
    writeln!(out, "other rate {name} {rate_num}:{rate_den}")
}
