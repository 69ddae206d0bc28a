//! What a source's file or pipe brings, of which bytes can be given back, and how the next header in it is found.
//!
//! Writers of a pipe may follow each other without an end in between: one ends amid a frame, and the next one's header
//! stands where the rest of that frame was to come. So a header is looked for in each frame, all of it: also a frame
//! that is followed by the line of one may have broken off, where the next writer's frames are smaller.

ghost use Rattle.std.specs.Prelude.{IsNone};
ghost use Rattle.loop_station_outside.specs.Headers.{HasNoHeader};

use memchr::memmem;
use std::alloc::Global;
use std::io;
use std::io::{BufRead, BufReader, Read};

// How many bytes of a source are read at once: as many as a pipe holds.
const AT_ONCE: usize = 65_536;

// How a header begins, and how many bytes that are.
const MAGIC: [u8; LENGTH] = *b"YUV4MPEG2 ";

const LENGTH: usize = 10;

// How the line of a frame begins, and how many bytes that are with the one after it.
const FRAME: [u8; 5] = *b"FRAME";

const FRAME_LENGTH: usize = 6;

// How many bytes the line of a frame has at most, and how many of its bytes are read ahead at once.
const LINE_MOST: u32 = 4_096;

const PIECE: usize = 4_096;

// Reads of at most so many bytes are of lines, and others of frames.
const OF_LINES: usize = 16;

/// Where a header begins among bytes, or where their end has at least so many bytes of its beginning.
pub fn find_header(bytes: &[u8], least: usize) -> Option<usize>
    ensures { IsNone result → HasNoHeader bytes.now }
{
    match memmem::find(bytes, MAGIC.as_slice()) {
        Some(at) => Some(at),
        None => find_beginning(bytes, least),
    }
}

// Where the end of bytes has at least so many bytes of a header's beginning.
fn find_beginning(bytes: &[u8], least: usize) -> Option<usize> {
    let mut at = bytes.len().saturating_sub(LENGTH - 1);
    for _ in 0..LENGTH {
        let end = bytes.get(at..).unwrap_or(&[]);
        if end.len() < least.max(1) {
            return None;
        }
        if MAGIC.as_slice().starts_with(end) {
            return Some(at);
        }
        at = at.saturating_add(1);
    }
    None
}

// Where a header or the line of a frame may begin among bytes.
fn may_begin(bytes: &[u8]) -> Option<usize> {
    bytes.iter().position(|byte| *byte == b'F' || *byte == b'Y')
}

/// What comes first in an input that is read from amid a writer's text on.
#[derive(Clone, Copy, PartialEq, Eq)]
pub enum Joined {
    /// A header.
    Header,
    /// The line of a frame.
    Frame,
    /// The end.
    End,
    /// None of these, in as many bytes as were looked at.
    Other,
}

// What bytes begin as: a header or the line of a frame. None where nothing can be said yet.
fn beginning_of(bytes: &[u8]) -> Option<Joined> {
    if bytes == MAGIC.as_slice() {
        return Some(Joined::Header);
    }
    if bytes.starts_with(FRAME.as_slice()) {
        return match bytes.get(FRAME_LENGTH - 1) {
            Some(b' ' | b'\n') => Some(Joined::Frame),
            Some(_) => Some(Joined::Other),
            None => None,
        };
    }
    if MAGIC.as_slice().starts_with(bytes) || FRAME.as_slice().starts_with(bytes) {
        return None;
    }
    Some(Joined::Other)
}

/// Whether the line of a frame stands among bytes.
pub fn has_frame_line(bytes: &[u8]) -> bool {
    let mut at = 0usize;
    for byte in bytes {
        if *byte == b'F' && beginning_of(bytes.get(at..).unwrap_or(&[])) == Some(Joined::Frame) {
            return true;
        }
        at = at.saturating_add(1);
    }
    false
}

/// A source's file or pipe.
#[derive(Drop)]
pub struct Input<I: Read + Drop> {
    alloc: Global,
    inner: BufReader<I>,
    // Bytes that were given back, of which so many were read again.
    back: Vec<u8>,
    at: usize,
    // The line that was read last.
    line: Vec<u8>,
}

impl<I: Read + Drop> Input<I> {
    /// What a file or pipe brings; None where memory is refused.
    pub fn new(alloc: Global, inner: I) -> Option<Self> {
        Some(Input {
            alloc,
            inner: BufReader::with_capacity(alloc, AT_ONCE, inner).ok()?,
            back: Vec::new(alloc),
            at: 0,
            line: Vec::new(alloc),
        })
    }

    // The bytes that were given back and aren't read again yet.
    fn rest(&self) -> &[u8] {
        self.back.get(self.at..).unwrap_or(&[])
    }

    /// Gives bytes back, to be read before all that follows. Returns whether there was memory for that.
    pub fn give_back(&mut self, bytes: &[u8]) -> bool {
        let mut back = Vec::new(self.alloc);
        let kept = back.extend_from_slice(bytes).is_ok()
            && back.extend_from_slice(self.rest()).is_ok();
        if kept {
            self.back = back;
            self.at = 0;
        }
        kept
    }

    /// A line begins.
    pub fn begin_line(&mut self) {
        self.line.clear();
    }

    /// Drops the first byte of the line that was read last, and gives back the rest.
    pub fn return_rest_of_line(&mut self) {
        self.return_line();
        self.drop_bytes(1);
    }

    /// Gives back the line that was read last.
    pub fn return_line(&mut self) {
        let line = std::mem::replace(&mut self.line, Vec::new(self.alloc));
        // Where memory is refused, the line is lost, and a header in it with it.
        let _kept = self.give_back(&line);
    }

    /// Whether more is there. It waits until more comes, or until no writer is left.
    pub fn has_more(&mut self) -> io::Result<bool> {
        if !self.rest().is_empty() {
            return Ok(true);
        }
        Ok(!self.inner.fill_buf()?.is_empty())
    }

    /// Drops all that comes before the next header. Returns whether there is one before the end.
    pub fn seek_header(&mut self) -> io::Result<bool> {
        for _ in 0..u64::MAX {
            let (found, length) = if self.rest().is_empty() {
                let bytes = self.inner.fill_buf()?;
                (find_header(bytes, 1), bytes.len())
            } else {
                (find_header(self.rest(), 1), self.rest().len())
            };
            if length == 0 {
                return Ok(false);
            }
            self.drop_bytes(found.unwrap_or(length));
            if found.is_some() {
                match self.begins_here()? {
                    Some(begins) => return Ok(begins),
                    None => self.drop_bytes(1),
                }
            }
        }
        Ok(false)
    }

    /// Drops all that comes before the next header or the next line of a frame, but so many bytes at most. Returns also
    /// how many were dropped.
    pub fn join(&mut self, most: u64) -> io::Result<(Joined, u64)> {
        let mut passed = 0u64;
        for _ in 0..u64::MAX {
            let (found, length) = if self.rest().is_empty() {
                let bytes = self.inner.fill_buf()?;
                (may_begin(bytes), bytes.len())
            } else {
                (may_begin(self.rest()), self.rest().len())
            };
            if length == 0 {
                return Ok((Joined::End, passed));
            }
            let count = found.unwrap_or(length);
            self.drop_bytes(count);
            passed = passed.saturating_add(count as u64);
            if found.is_some() {
                match self.begins_with()? {
                    Joined::Other => {
                        self.drop_bytes(1);
                        passed = passed.saturating_add(1);
                    }
                    joined => return Ok((joined, passed)),
                }
            }
            if passed > most {
                break;
            }
        }
        Ok((Joined::Other, passed))
    }

    /// Whether the line of a frame, so many bytes, and then the line of another frame, a header or the end follow. They
    /// stay to be read. Where they don't follow, the first byte is dropped.
    pub fn is_frame(&mut self, size: u64) -> io::Result<bool> {
        let mut ahead = Vec::new(self.alloc);
        for _ in 0..LINE_MOST {
            if !self.read_ahead(1, &mut ahead)? || ahead.ends_with(b"\n") {
                break;
            }
        }
        // Where there is no memory for its line, or for what follows, some of these bytes are lost.
        let is_frame = ahead.ends_with(b"\n")
            && self.read_ahead(size, &mut ahead)?
            && self
                .begins_next()?
                .is_some_and(|next: Joined| next != Joined::Other);
        self.begin_line();
        let kept = if is_frame { 0 } else { 1 };
        Ok(self.give_back(ahead.get(kept..).unwrap_or(&[])) && is_frame)
    }

    // Reads so many bytes, and adds them to others. Returns whether they are there, and memory for them.
    fn read_ahead(&mut self, count: u64, ahead: &mut Vec<u8>) -> io::Result<bool> {
        let mut piece = [0u8; PIECE];
        let mut left = count;
        for _ in 0..u64::MAX {
            if left == 0 {
                return Ok(true);
            }
            let most = PIECE.min(usize::try_from(left).unwrap_or(PIECE));
            let Some(place) = piece.get_mut(..most) else {
                return Ok(false);
            };
            let came = self.read(place)?;
            let bytes = piece.get(..came).unwrap_or(&[]);
            if came == 0 || ahead.extend_from_slice(bytes).is_err() {
                return Ok(false);
            }
            left = left.saturating_sub(came as u64);
        }
        Ok(false)
    }

    /// What begins with the next byte. It waits until that is known. Where memory is refused, the next bytes are lost.
    pub fn begins_with(&mut self) -> io::Result<Joined> {
        Ok(self.begins_next()?.unwrap_or(Joined::End))
    }

    // The same; None where memory is refused, and the bytes that were looked at are lost.
    fn begins_next(&mut self) -> io::Result<Option<Joined>> {
        let mut first = [0u8; LENGTH];
        let mut count = 0usize;
        let mut joined = None;
        for _ in 0..LENGTH {
            let end = count.saturating_add(1);
            let Some(place) = first.get_mut(count..end) else {
                break;
            };
            if self.read(place)? == 0 {
                return Ok(Some(Joined::End));
            }
            count = end;
            joined = beginning_of(first.get(..count).unwrap_or(&[]));
            if joined.is_some() {
                break;
            }
        }
        self.begin_line();
        if !self.give_back(first.get(..count).unwrap_or(&[])) {
            return Ok(None);
        }
        Ok(Some(joined.unwrap_or(Joined::Other)))
    }

    // Drops so many of the bytes that are there.
    fn drop_bytes(&mut self, count: usize) {
        if self.rest().is_empty() {
            self.inner.consume(count);
        } else {
            self.at = self.at.saturating_add(count).min(self.back.len());
        }
    }

    // Whether a header begins with the next byte: Some(false) where the end comes before that is known, None where
    // another byte comes.
    fn begins_here(&mut self) -> io::Result<Option<bool>> {
        let mut first = [0u8; LENGTH];
        let mut count = 0usize;
        for _ in 0..LENGTH {
            let Some(place) = first.get_mut(count..count.saturating_add(1)) else {
                break;
            };
            if self.read(place)? == 0 {
                return Ok(Some(false));
            }
            count = count.saturating_add(1);
        }
        if !self.give_back(&first) {
            return Ok(Some(false));
        }
        Ok(if first == MAGIC { Some(true) } else { None })
    }
}

impl<I: Read + Drop> Read for Input<I> {
    fn read(&mut self, buf: &mut [u8]) -> io::Result<usize> {
        let rest = self.back.get(self.at..).unwrap_or(&[]);
        let count = rest.len().min(buf.len());
        let count = if count > 0 {
            for (to, from) in buf.iter_mut().zip(rest) {
                *to = *from;
            }
            self.at = self.at.saturating_add(count).min(self.back.len());
            count
        } else {
            self.inner.read(buf)?
        };
        if buf.len() > OF_LINES || self.line.ends_with(b"\n") {
            self.line.clear();
        }
        if buf.len() <= OF_LINES {
            // Where memory is refused, less of the line can be given back.
            let _kept = self.line.extend_from_slice(buf.get(..count).unwrap_or(&[]));
        }
        Ok(count)
    }
}
