//! Why a command wasn't done, and how that is told.

use loop_script::{print_line, print_parts, print_refusal};
use loop_store::StoreFault;
use std::alloc::AllocError;
use std::io;
use std::io::{Error, Write};

/// Why a command wasn't done, or not completely.
#[derive(Drop)]
pub(crate) enum Undone<'a> {
    /// The file or pipe of this path can't be opened or made, or it doesn't begin with the header of a source.
    CannotOpen(&'a str),
    /// The file or pipe of this path can't be opened for the text, or the text can't be written to it completely.
    CannotWrite(&'a str),
    /// The buffers of a camera of the store in this file need more pages than there are.
    CannotRecord(&'a str),
    /// The store refused, or memory was refused.
    Refused(StoreFault),
    /// What was done couldn't be printed.
    Write(Error),
}

impl From<StoreFault> for Undone<'_> {
    fn from(fault: StoreFault) -> Self {
        Undone::Refused(fault)
    }
}

impl From<AllocError> for Undone<'_> {
    fn from(_: AllocError) -> Self {
        Undone::Refused(StoreFault::NoMemory)
    }
}

impl From<Error> for Undone<'_> {
    fn from(error: Error) -> Self {
        Undone::Write(error)
    }
}

/// Prints why a command wasn't done, and returns the program's status.
pub(crate) fn tell<E: Write>(undone: Undone<'_>, err: &mut E) -> u8 {
    // Dropped: the status is the same where this can't be printed.
    let _ = match undone {
        Undone::CannotOpen(path) => print_path(err, "cannot open ", path),
        Undone::CannotWrite(path) => print_path(err, "cannot write ", path),
        Undone::CannotRecord(path) => print_path(err, "cannot record ", path),
        Undone::Refused(fault) => print_refusal(err, fault),
        Undone::Write(_) => Ok(()),
    };
    1
}

// Prints what can't be done with a path.
fn print_path<E: Write>(err: &mut E, what: &str, path: &str) -> io::Result<()> {
    print_parts(err, what, &[])?;
    print_line(err, path, &[])
}
