//! Why a camera's store isn't there.

use loop_file::FileFault;
use loop_station_words::NoRing;
use loop_store::StoreFault;
use std::fmt;
use std::fmt::{Display, Formatter};

// The most bytes of a file's name.
const MOST_OF_NAME: usize = 255;

// The most bytes of a path.
const MOST_OF_PATH: usize = 4_095;

// How many bytes are added to the name of a store while it is made: `.new`.
const UNFINISHED: usize = 4;

/// Why a camera's store isn't there, so that it can't answer.
#[derive(Clone, Copy)]
pub enum Absent {
    /// It is being opened.
    Opening,
    /// There is none yet, and the source that it is made for hasn't come.
    NoStore,
    /// Its file can't be opened or made.
    File(FileFault),
    /// It can't be opened.
    Store(StoreFault),
    /// The file with the name of an unfinished store can't be opened as a store.
    Unfinished,
    /// Its path, or the name of its file, is too long.
    TooLong,
    /// No store holds as many frames as come in its minutes. This many tenths of a minute would fit.
    TooManyFrames(u64),
    /// Its bytes are too few for two blocks of a frame.
    TooFewBytes,
    /// Its source gives no rate, or something else that no store may have.
    NoGeometry,
    /// There is no memory for the buffers of its frames.
    NoBuffers,
    /// It is one of several, and has another geometry than the one that is filmed into.
    OtherGeometry,
    /// Its path names another file by now, or none.
    Moved,
    /// The program ends.
    Stopped,
}

impl From<FileFault> for Absent {
    fn from(fault: FileFault) -> Self {
        Absent::File(fault)
    }
}

impl From<NoRing> for Absent {
    fn from(why: NoRing) -> Self {
        match why {
            NoRing::TooManyFrames(tenths) => Absent::TooManyFrames(tenths),
            NoRing::TooFewBytes => Absent::TooFewBytes,
            NoRing::BadFrames => Absent::NoGeometry,
        }
    }
}

impl Absent {
    /// Why the file of a path can't be opened or made.
    pub fn of(path: &str, fault: FileFault) -> Absent {
        let name = match path.rsplit_once('/') {
            Some((_, name)) => name,
            None => path,
        };
        let long = path.len().saturating_add(UNFINISHED) > MOST_OF_PATH
            || name.len().saturating_add(UNFINISHED) > MOST_OF_NAME;
        match fault {
            FileFault::Failed if long => Absent::TooLong,
            _ => Absent::File(fault),
        }
    }

    // Its name.
    fn name(&self) -> &'static str {
        match self {
            Absent::Opening => "Opening",
            Absent::NoStore => "NoStore",
            Absent::File(fault) => file_name(*fault),
            Absent::Store(fault) => fault.name(),
            Absent::Unfinished => "Unfinished",
            Absent::TooLong => "TooLong",
            Absent::TooManyFrames(_) => "TooManyFrames",
            Absent::TooFewBytes => "TooFewBytes",
            Absent::NoGeometry => "NoGeometry",
            Absent::NoBuffers => "NoBuffers",
            Absent::OtherGeometry => "OtherGeometry",
            Absent::Moved => "Moved",
            Absent::Stopped => "Stopped",
        }
    }

    /// Whether its file may have clips all the same.
    pub fn may_have_clips(&self) -> bool {
        match self {
            Absent::Store(fault) => *fault != StoreFault::NotFormatted,
            Absent::File(fault) => !matches!(fault, FileFault::Folder | FileFault::NotRegular),
            Absent::Unfinished => false,
            _ => true,
        }
    }

    /// Whether it has the same cause as another one.
    pub fn is_like(&self, other: &Absent) -> bool {
        self.name() == other.name()
    }
}

/// The printed name of a fault of a file.
pub fn file_name(fault: FileFault) -> &'static str {
    match fault {
        FileFault::Busy => "Busy",
        FileFault::Folder => "Folder",
        FileFault::Missing => "MissingFolder",
        FileFault::Denied => "Denied",
        FileFault::NotRegular => "NotRegular",
        FileFault::NoRoom => "NoRoom",
        FileFault::NoMemory => "NoMemory",
        FileFault::Failed => "CannotOpen",
    }
}

// Its name, followed by the minutes that fit where there are too many frames.
impl Display for Absent {
    fn fmt<W: fmt::Write>(&self, f: &mut Formatter<W>) -> fmt::Result {
        f.write_str(self.name())?;
        match self {
            Absent::TooManyFrames(tenths) => write!(f, " {}.{}", tenths / 10, tenths % 10),
            _ => Ok(()),
        }
    }
}
