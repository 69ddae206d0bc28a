//! A frame's line, and its bytes.

ghost use Rattle.std.specs.Prelude.{◌≡◌, IfSome};
ghost use Rattle.loop_y4m.specs.Steps.{FrameIs, FillsWith, StartIs, TimedIs};
ghost use Rattle.loop_y4m.specs.Stream.{is_frame_line, line_says, word_says};

use crate::Y4mFault;
use crate::input::{MAX_LINE, next_byte, next_line, read_some};
use crate::number::{find, wide_number};
use std::io::Read;

/// What the line of a frame says.
#[derive(Clone, Copy, Debug, PartialEq, Eq)]
pub struct FrameLine {
    /// The microseconds of its first word `Xt=MICROSECONDS`, if it has one.
    pub time: Option<u64>,
    /// The source's own number of the frame, of its first word `Xn=NUMBER`, if it has one.
    pub number: Option<u64>,
}

// Whether a line is a frame's.
fn is_frame_line(line: &[u8]) -> bool
    ensures { result ≡ is_frame_line line.now }
{
    if line.len() < 5 || &line[..5] != b"FRAME".as_slice() {
        return false;
    }
    line.len() == 5 || line[5] == b' '
}

/// Fills `out`. Where the input ends before it is full, the error is `cut`.
pub(crate) fn fill<R: Read>(reader: &mut R, out: &mut [u8], cut: Y4mFault) -> Result<(), Y4mFault>
    ensures { IfSome (R.remaining reader.old)
        (λ bytes. FillsWith cut bytes result out.new (R.remaining reader.new)) }
{
    let mut at = 0;
    while at < out.len() {
        let n = read_some(reader, &mut out[at..])?;
        if n == 0 {
            return Err(cut);
        }
        at += n;
    }
    Ok(())
}

// The number that a word says after a name of three bytes.
fn word_says(name: &[u8], word: &[u8]) -> Option<u64>
    ensures { result ≡ word_says name.now word.now }
{
    let three = word.len().min(3);
    if &word[..three] != name {
        return None;
    }
    wide_number(u64::MAX, &word[three..])
}

// The number that a frame's line says after a name: that of its first word that says one.
fn line_says(name: &[u8], line: &[u8]) -> Option<u64>
    ensures { result ≡ line_says name.now line.now }
{
    let mut rest = line;
    loop {
        let end = find(rest, b' ');
        if let Some(number) = word_says(name, &rest[..end]) {
            return Some(number);
        }
        if end == rest.len() {
            return None;
        }
        rest = &rest[end + 1..];
    }
}

/// Reads the next frame's line, and then its bytes into `out`, which they fill; false at the end.
pub(crate) fn next_frame<R: Read>(reader: &mut R, out: &mut [u8]) -> Result<bool, Y4mFault>
    ensures { IfSome (R.remaining reader.old)
        (λ bytes. FrameIs bytes result out.new (R.remaining reader.new)) }
{
    match next_timed(reader, out) {
        Ok(None) => Ok(false),
        Ok(Some(_)) => Ok(true),
        Err(fault) => Err(fault),
    }
}

/// The same, with what the line says; None at the end.
#[tactic(auto, using(crate::proofs::Starts::start_ended))]
pub(crate) fn next_timed<R: Read>(
    reader: &mut R,
    out: &mut [u8],
) -> Result<Option<FrameLine>, Y4mFault>
    ensures { IfSome (R.remaining reader.old)
        (λ bytes. TimedIs bytes result out.new (R.remaining reader.new)) }
{
    match frame_start(reader) {
        Err(fault) => Err(fault),
        Ok(None) => Ok(None),
        Ok(Some(line)) => match fill(reader, out, Y4mFault::Truncated) {
            Err(fault) => Err(fault),
            Ok(()) => Ok(Some(line)),
        },
    }
}

// Reads the next frame's line; None at the end.
fn frame_start<R: Read>(reader: &mut R) -> Result<Option<FrameLine>, Y4mFault>
    ensures { IfSome (R.remaining reader.old)
        (λ bytes. StartIs bytes result (R.remaining reader.new)) }
{
    let mut line = [0u8; MAX_LINE];
    match next_byte(reader)? {
        None => return Ok(None),
        Some(b'\n') => return Err(Y4mFault::BadHeader),
        Some(byte) => line[0] = byte,
    }
    let n = next_line(reader, &mut line, 1)?;
    if !is_frame_line(&line[..n]) {
        return Err(Y4mFault::BadHeader);
    }
    let time = line_says(b"Xt=".as_slice(), &line[..n]);
    let number = line_says(b"Xn=".as_slice(), &line[..n]);
    Ok(Some(FrameLine { time, number }))
}
