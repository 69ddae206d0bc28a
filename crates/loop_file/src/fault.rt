// Why a file can't be opened or made.

use std::alloc::AllocError;
use std::io;
use std::io::ErrorKind;
use thiserror::Error;

/// Why a file can't be opened as a disk, or made.
#[derive(Clone, Copy, Debug, PartialEq, Eq, Error)]
pub enum FileFault {
    /// Another program, or another part of this one, holds the file's lock or is making the file.
    #[error("the file is in use")]
    Busy,
    /// The path names a folder.
    #[error("this is a folder")]
    Folder,
    /// There is no such file, or no such folder for it.
    #[error("there is no such file")]
    Missing,
    /// The permissions of the file or of its folder don't allow it.
    #[error("the rights for the file are missing")]
    Denied,
    /// The path names a device or a pipe.
    #[error("this is not a regular file")]
    NotRegular,
    /// The file system is full, or the owner's quota is used up.
    #[error("there is no room for the file")]
    NoRoom,
    /// Memory for the path that a link names was refused.
    #[error("out of memory")]
    NoMemory,
    /// The system refused for another reason: a size that no file may have, for example.
    #[error("the file can't be opened")]
    Failed,
}

impl From<io::Error> for FileFault {
    fn from(error: io::Error) -> FileFault {
        match error.kind() {
            ErrorKind::NotFound => FileFault::Missing,
            ErrorKind::AlreadyExists => FileFault::Busy,
            ErrorKind::PermissionDenied | ErrorKind::ReadOnlyFilesystem => FileFault::Denied,
            ErrorKind::IsADirectory => FileFault::Folder,
            ErrorKind::StorageFull | ErrorKind::QuotaExceeded => FileFault::NoRoom,
            ErrorKind::OutOfMemory => FileFault::NoMemory,
            _ => FileFault::Failed,
        }
    }
}

impl From<AllocError> for FileFault {
    fn from(_error: AllocError) -> FileFault {
        FileFault::NoMemory
    }
}
