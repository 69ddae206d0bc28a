//! What a path leads to.

use std::fs;
use std::io::ErrorKind;
use std::os::unix::fs::FileTypeExt;
use std::rt::Files;

/// What a path leads to.
#[derive(Clone, Copy, Debug, PartialEq, Eq)]
pub enum PathKind {
    /// Nothing is there, and a file may be made.
    Nothing,
    /// A regular file.
    File,
    /// A named pipe.
    Pipe,
    /// A device, a folder or the like.
    Other,
    /// A link to nothing, or something that can't be determined.
    Unknown,
}

/// What a path leads to now.
pub fn path_kind_at<R: Files>(rt: &R, path: &str) -> PathKind {
    let metadata = match fs::metadata(rt, path) {
        Ok(metadata) => metadata,
        Err(fault) if fault.kind() == ErrorKind::NotFound => {
            return match fs::symlink_metadata(rt, path) {
                Err(_) => PathKind::Nothing,
                Ok(_) => PathKind::Unknown,
            };
        }
        Err(_) => return PathKind::Unknown,
    };
    let kind = metadata.file_type();
    if kind.is_file() {
        PathKind::File
    } else if kind.is_fifo() {
        PathKind::Pipe
    } else {
        PathKind::Other
    }
}
