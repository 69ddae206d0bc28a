//! Why a clip isn't saved.

use crate::absent::{Absent, file_name};
use loop_file::FileFault;
use loop_station_core::SaveEnd;
use loop_store::StoreFault;
use std::alloc::AllocError;
use std::fmt;
use std::fmt::{Display, Formatter};

/// Why a clip wasn't written, or not to its end.
#[derive(Clone, Copy)]
pub enum NotSaved {
    /// There is no clip of that id.
    NoSuchClip,
    /// The camera's store isn't there.
    Absent(Absent),
    /// The store refused a read.
    Refused(StoreFault),
    /// A file exists, and may not be replaced.
    Exists,
    /// The file begins as a store does: it is never replaced.
    IsStore,
    /// The file or pipe is one that the station has open, or another program has locked.
    InUse,
    /// It isn't in the folder in which orders may write.
    OtherFolder,
    /// The file can't be opened.
    File(FileFault),
    /// The path leads to nothing through a link, or it can't be determined what is there.
    CannotOpen,
    /// The file can't be written completely, or the disk can't be asked to keep it.
    CannotWrite,
    /// The samples of its frames have different counts of bits, or one that no text has.
    MixedBits,
    /// Memory or a thread was refused.
    NoMemory,
    /// An order ended it.
    Cancelled,
    /// The program ends.
    Stopped,
}

// Its name, as it is printed.
impl Display for NotSaved {
    fn fmt<W: fmt::Write>(&self, f: &mut Formatter<W>) -> fmt::Result {
        f.write_str(match self {
            NotSaved::NoSuchClip => "NoSuchClip",
            NotSaved::Absent(why) => return why.fmt(f),
            NotSaved::Refused(fault) => fault.name(),
            NotSaved::Exists => "Exists",
            NotSaved::IsStore => "IsStore",
            NotSaved::InUse => "InUse",
            NotSaved::OtherFolder => "OtherFolder",
            NotSaved::File(fault) => file_name(*fault),
            NotSaved::CannotOpen => "CannotOpen",
            NotSaved::CannotWrite => "CannotWrite",
            NotSaved::MixedBits => "MixedBits",
            NotSaved::NoMemory => "NoMemory",
            NotSaved::Cancelled => "Cancelled",
            NotSaved::Stopped => "Stopped",
        })
    }
}

impl NotSaved {
    /// How it ends a save: the same one may succeed later where the folder works again, the disk has room, or the
    /// camera has its store.
    pub fn end(&self) -> SaveEnd {
        match self {
            NotSaved::Absent(_)
            | NotSaved::File(_)
            | NotSaved::CannotOpen
            | NotSaved::CannotWrite
            | NotSaved::NoMemory
            | NotSaved::InUse
            | NotSaved::Refused(_) => SaveEnd::MayPass,
            NotSaved::NoSuchClip
            | NotSaved::Exists
            | NotSaved::IsStore
            | NotSaved::OtherFolder
            | NotSaved::MixedBits
            | NotSaved::Cancelled
            | NotSaved::Stopped => SaveEnd::Final,
        }
    }
}

impl From<AllocError> for NotSaved {
    fn from(_: AllocError) -> Self {
        NotSaved::NoMemory
    }
}
