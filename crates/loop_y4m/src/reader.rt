//! A reader of an input's frames.

ghost use Rattle.std.specs.Prelude.{◌≡◌, ◌<◌, ◌≤◌, IfErr, IfOk, IfSome, IsTrue, None, OnOk, Some, length};
ghost use Rattle.loop_record.specs.Geometry.{is_good};
ghost use Rattle.loop_y4m.specs.Header.{geometry_for, size_of_frame};
ghost use Rattle.loop_y4m.specs.Reader.{GivesNext, OpenReader, OpensAs, OpensDeepAs, SaysLine, gave_frame, opened_with};
ghost use Rattle.loop_y4m.specs.Steps.{HeaderIs, IsSmall, LineIs};
ghost use Rattle.loop_y4m.specs.Stream.{ends, header_line};

use crate::depth::{Colours, Depth};
use crate::frame::{FrameLine, fill, next_frame, next_timed};
use crate::header::parse_header;
use crate::input::{MAX_LINE, next_line};
use crate::{GeometryFault, Header, Y4mFault};
use loop_record::{Geometry, PixelFormat};
use std::io::Read;
use std::marker::Model;

/// An input whose header was read, and whose frames come one after another. Where the bytes that the reader has are
/// known, they are the frames that `parse` finds in the input. Lines are read byte by byte, a call for each, and the
/// bytes of a frame at once: so to read a file, lend it a `BufReader`. A read that was interrupted is tried again.
#[derive(Drop)]
pub struct Y4mReader<R: Read + Drop> {
    reader: R,
    header: Header,
    fault: Option<Y4mFault>,
}

impl<R: Read + Drop> Model for Y4mReader<R> {
    ghost Value = { OpenReader };

    ghost view = { λ r. opened_with r.header r.fault (R.remaining r.reader) };

    ghost invariant = { λ r. IsSmall r.header };
}

impl<R: Read + Drop> Y4mReader<R> {
    /// Reads the header of an input, and nothing after its line. NotY4m: the input doesn't begin as YUV4MPEG2.
    /// Truncated: it ends within the line. BadHeader, UnsupportedColour, UnsupportedInterlace: what the line says can't
    /// be read. Read: the reader failed. After each of them the reader is dropped; one that was lent has given an
    /// unknown count of bytes.
    pub fn open(mut reader: R) -> Result<Self, Y4mFault>
        ensures opened { IfSome (R.remaining reader) (λ bytes. OpensAs bytes result) }
        ensures fresh { IfOk result (λ r. r.fault ≡ None) }
    {
        let (header, _) = read_header(Colours::Eight, &mut reader)?;
        Ok(Y4mReader {
            reader,
            header,
            fault: None,
        })
    }

    /// The same of an input whose samples have 8 to 16 bits; returns also how many. A frame of samples of two bytes
    /// comes as it is recorded: as one of 8 bits whose rows have twice the bytes. `open` refuses those as
    /// UnsupportedColour. BadHeader also where a row has more than 8,192 of them. OddWidth: a row has an odd count of
    /// them, and chroma is halved.
    pub fn open_deep(mut reader: R) -> Result<(Self, Depth), Y4mFault>
        ensures opened { IfSome (R.remaining reader) (λ bytes. OpensDeepAs bytes result) }
        ensures fresh { IfOk result (λ r. r.0.fault ≡ None) }
    {
        let (header, depth) = read_header(Colours::All, &mut reader)?;
        let opened = Y4mReader {
            reader,
            header,
            fault: None,
        };
        Ok((opened, depth))
    }

    /// How the pixels of a frame lie.
    pub fn format(&self) -> PixelFormat
        ensures { result ≡ self.now.header.format }
    {
        self.header.format
    }

    /// The width of a frame in pixels; of samples of two bytes twice that.
    pub fn width(&self) -> u32
        ensures value { result ≡ self.now.header.width }
        ensures bound { result ≤ 16384 }
    {
        self.header.width
    }

    /// The height of a frame in pixels.
    pub fn height(&self) -> u32
        ensures value { result ≡ self.now.header.height }
        ensures bound { result ≤ 16384 }
    {
        self.header.height
    }

    /// The rate in frames a second, as a numerator and a denominator; 0 and 0 where the header has none.
    pub fn rate(&self) -> (u32, u32)
        ensures { result ≡ (self.now.header.rate_num, self.now.header.rate_den) }
    {
        (self.header.rate_num, self.header.rate_den)
    }

    /// The geometry of a store for these frames: their format, size and rate, with so many segments, 2 to 64, and so
    /// many slots in each, 1 to 256. RateUnknown: the header has no rate, or one with a part of 0, and a store needs
    /// a rate. BadGeometry: the segments or the slots are beyond their limits.
    pub fn geometry(&self, segments: u32, slots: u32) -> Result<Geometry, GeometryFault>
        ensures geometry { result ≡ geometry_for self.now.header segments slots }
        ensures good { IfOk result (λ geometry. IsTrue (is_good geometry)) }
    {
        self.header.geometry(segments, slots)
    }

    /// The bytes of a frame, 16,777,216 at most.
    pub fn frame_bytes(&self) -> u32
        ensures value { result ≡ size_of_frame self.now.header }
        ensures bound { result ≤ 16777216 }
    {
        self.header.frame_bytes()
    }

    /// Reads the next frame's bytes into `out`, which has a frame's length: the planes Y, Cb and Cr without
    /// padding, or Y alone. It returns false at the end, and at each later call. Truncated: the input ends within a
    /// frame or its line. BadHeader: a line isn't a frame's. Read: the reader failed. After a fault `out` may
    /// hold any bytes, and each later call answers that fault.
    pub fn next_frame(&mut self, out: &mut [u8]) -> Result<bool, Y4mFault>
        requires size { length out.old ≡ size_of_frame self.old.header }
        ensures frame { IfSome self.old.rest
            (λ frames. GivesNext frames result out.new self.new.rest) }
        ensures kept { OnOk result (self.new ≡ record self.old { rest = self.new.rest; left = self.new.left }) }
        ensures failed { IfErr result
            (λ f. self.new ≡ record self.old { fault = Some f; rest = Some (ends (Some f)); left = None }) }
        ensures stays { IfSome self.old.fault (λ f. result ≡ Err f) }
    {
        if let Some(fault) = self.fault {
            return Err(fault);
        }
        let result = next_frame(&mut self.reader, out);
        self.fault = result.err();
        result
    }

    /// Reads the next frame as `next_frame` does, and returns what its line says; None at the end.
    pub fn next_timed(&mut self, out: &mut [u8]) -> Result<Option<FrameLine>, Y4mFault>
        requires size { length out.old ≡ size_of_frame self.old.header }
        ensures frame { IfSome self.old.rest
            (λ frames. GivesNext frames (gave_frame result) out.new self.new.rest) }
        ensures line { IfSome self.old.left (λ bytes. SaysLine bytes result) }
        ensures kept { OnOk result (self.new ≡ record self.old { rest = self.new.rest; left = self.new.left }) }
        ensures failed { IfErr result
            (λ f. self.new ≡ record self.old { fault = Some f; rest = Some (ends (Some f)); left = None }) }
        ensures stays { IfSome self.old.fault (λ f. result ≡ Err f) }
    {
        if let Some(fault) = self.fault {
            return Err(fault);
        }
        let result = next_timed(&mut self.reader, out);
        self.fault = result.err();
        result
    }
}

// Reads the header's line, and what it says where these colours are read.
fn read_header<R: Read>(colours: Colours, reader: &mut R) -> Result<(Header, Depth), Y4mFault>
    ensures header { IfSome (R.remaining reader.old)
        (λ bytes. HeaderIs colours bytes result (R.remaining reader.new)) }
    ensures bound { IfOk result (λ h. IsSmall h.0) }
{
    let mut line = [0u8; MAX_LINE];
    let n = read_header_line(reader, &mut line)?;
    parse_header(colours, &line[n.min(10)..n])
}

// Reads the header's line into `line`, and returns how many bytes it has before its 0x0A.
fn read_header_line<R: Read>(reader: &mut R, line: &mut [u8]) -> Result<usize, Y4mFault>
    requires { length line.old ≡ MAX_LINE }
    ensures bound { IfOk result (λ n. n < MAX_LINE) }
    ensures line { IfSome (R.remaining reader.old)
        (λ bytes. LineIs (header_line bytes) result line.new (R.remaining reader.new)) }
{
    fill(reader, &mut line[..10], Y4mFault::NotY4m)?;
    if &line[..10] == b"YUV4MPEG2\n".as_slice() {
        return Ok(9);
    }
    if &line[..10] != b"YUV4MPEG2 ".as_slice() {
        return Err(Y4mFault::NotY4m);
    }
    next_line(reader, line, 10)
}
