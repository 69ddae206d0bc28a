// The status of a camera, what a line begins with, and how the file of a clip is called.

use crate::calendar::civil_time_of;
use crate::choices::WhenFull;
use std::io;
use std::io::Write;

/// The status of a camera.
#[derive(Clone, Copy, Debug, PartialEq, Eq)]
pub struct CameraStatus<'a> {
    /// How many frames were stored since its store was made.
    pub stored: u64,
    /// How many came and were given up, since the program began.
    pub given_up: u64,
    /// How many wait at the desk.
    pub waiting: u64,
    /// The duration of the frames that came and aren't stored, in microseconds.
    pub behind: u64,
    /// How many blocks may still be locked.
    pub room: u64,
    /// How many may be locked in all.
    pub blocks: u64,
    /// How many more keeps of the camera's own seconds have room, if that is known.
    pub keeps: Option<u64>,
    /// How often its store was opened again, or couldn't be.
    pub faults: u64,
    /// The state of its source, in words.
    pub source: &'a str,
    /// How many gaps its source's times had, if it says times.
    pub gaps: Option<u64>,
    /// How many frames its source lost, since the program began.
    pub lost: u64,
    /// How many of these were judged by time.
    pub estimated: u64,
    /// How many microseconds its source's clock is ahead, if that is known.
    pub clock: Option<i64>,
    /// What is done once no further block may be locked.
    pub when_full: WhenFull,
}

/// How far a camera's stores are open, where it has several.
#[derive(Clone, Copy, Debug, PartialEq, Eq)]
pub struct StoresStatus {
    /// How many are open.
    pub open: u64,
    /// How many there are to be.
    pub wanted: u64,
    /// The duration of the frames that those that are open hold, in microseconds.
    pub held: u64,
}

/// What each line begins with: the time of day, in UTC with milliseconds, and a label, if there are any.
pub(crate) fn print_head<W: Write>(
    out: &mut W,
    time: Option<u64>,
    label: Option<&str>,
) -> io::Result<()> {
    if let Some(micros) = time {
        print_time(out, micros)?;
        write!(out, " ")?;
    }
    match label {
        Some(label) => write!(out, "@{label} "),
        None => Ok(()),
    }
}

// A time in microseconds since 1970, as `2026-11-22T15:38:00.123Z`.
fn print_time<W: Write>(out: &mut W, micros: u64) -> io::Result<()> {
    let at = civil_time_of(micros);
    let (year, month, day) = (at.year, at.month, at.day);
    let (hour, minute, second) = (at.hour, at.minute, at.second);
    let milli = at.micro / 1_000;
    write!(
        out,
        "{year:04}-{month:02}-{day:02}T{hour:02}:{minute:02}:{second:02}.{milli:03}Z"
    )
}

/// The path of the file that a clip is saved to by itself, `FOLDER/NAME_2026-11-22T15-38-00Z_ID.y4m`. The time is that
/// of its first frame. A further clip of that name has `ID-2` and so on in place of `ID`.
pub fn print_clip_path<W: Write>(
    out: &mut W,
    folder: &str,
    camera: &str,
    micros: u64,
    id: u32,
    place: u32,
) -> io::Result<()> {
    let at = civil_time_of(micros);
    let (year, month, day) = (at.year, at.month, at.day);
    let (hour, minute, second) = (at.hour, at.minute, at.second);
    write!(
        out,
        "{folder}/{camera}_{year:04}-{month:02}-{day:02}T{hour:02}-{minute:02}-{second:02}Z_{id}"
    )?;
    if place > 1 {
        write!(out, "-{place}")?;
    }
    write!(out, ".y4m")
}
