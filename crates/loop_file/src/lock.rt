// The lock of a file.
use crate::fault::FileFault;
use std::fs::{File, TryLockError};

/// Takes the lock of a regular file, and never waits for it.
pub(crate) fn take(file: &File) -> Result<(), FileFault> {
    let data = file.metadata()?;
    if data.is_dir() {
        return Err(FileFault::Folder);
    }
    if !data.is_file() {
        return Err(FileFault::NotRegular);
    }
    lock(file)
}

/// Takes the lock of an open file, and never waits for it.
pub(crate) fn lock(file: &File) -> Result<(), FileFault> {
    match file.try_lock() {
        Ok(()) => Ok(()),
        Err(TryLockError::WouldBlock) => Err(FileFault::Busy),
        Err(TryLockError::Error(error)) => Err(FileFault::from(error)),
    }
}
