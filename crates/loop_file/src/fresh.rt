// A file that is made anew, in place: at any moment a stop leaves what it was, or a file that begins with a zero.

use crate::fault::FileFault;
use std::fs::OpenFile;
use std::io;
use std::os::unix::fs::FileExt;

// How much of a fresh file is written at a time.
const PIECE: usize = 1 << 20;

static ZEROS: [u8; PIECE] = [0; PIECE];

/// Gives a file so many bytes of zero, each written, and syncs it. Its folder is synced before anything is changed.
///
/// The first byte is cleared first: it is zero on the disk before any other byte, or the length, is changed. Then the
/// file grows. A refusal up to that point restores what the file was; after it the first byte stays zero.
pub(crate) fn make_fresh<F: OpenFile + FileExt, G: OpenFile>(
    file: &F,
    folder: &G,
    size: u64,
) -> Result<(), FileFault> {
    let kept = file.metadata()?.len();
    folder.sync_all()?;
    let first = first_byte(file, kept)?;
    if let Err(error) = set_first(file, first, 0) {
        // What failed may fail again: only the first refusal is returned.
        let _ = set_first(file, first, first);
        return Err(FileFault::from(error));
    }
    if let Err(error) = grow(file, kept, size) {
        // The want of room is returned, and not what fails while the file is cut back.
        let _ = cut_back(file, kept, first);
        return Err(FileFault::from(error));
    }
    clear(file, kept, size)?;
    Ok(())
}

/// Makes the first byte of a file zero, on the disk.
pub(crate) fn close<F: OpenFile + FileExt>(file: &F) -> io::Result<()> {
    file.write_all_at(&[0], 0)?;
    file.sync_data()
}

// The first byte of a file of that length; zero where it has none.
fn first_byte<F: FileExt>(file: &F, kept: u64) -> io::Result<u8> {
    let mut first = [0];
    if kept > 0 {
        file.read_exact_at(&mut first, 0)?;
    }
    Ok(first[0])
}

// Writes the first byte, and syncs it. A byte that was zero is left alone.
fn set_first<F: OpenFile + FileExt>(file: &F, was: u8, byte: u8) -> io::Result<()> {
    if was == 0 {
        return Ok(());
    }
    file.write_all_at(&[byte], 0)?;
    file.sync_data()
}

// Grows a file, writes its new bytes, so that the file system has to find room for them, and syncs it.
fn grow<F: OpenFile + FileExt>(file: &F, kept: u64, size: u64) -> io::Result<()> {
    if size <= kept {
        return Ok(());
    }
    file.set_len(size)?;
    write_zeros(file, kept, size)?;
    file.sync_all()
}

// Cuts a file back to its old length, and then restores its first byte: so with that byte it has its own length.
fn cut_back<F: OpenFile + FileExt>(file: &F, kept: u64, first: u8) -> io::Result<()> {
    file.set_len(kept)?;
    file.sync_all()?;
    set_first(file, first, first)
}

// Cuts off the bytes that a file has too many, writes zeros over its other old bytes, and syncs it.
fn clear<F: OpenFile + FileExt>(file: &F, kept: u64, size: u64) -> io::Result<()> {
    if kept == 0 {
        return Ok(());
    }
    if size < kept {
        file.set_len(size)?;
    }
    write_zeros(file, 0, kept.min(size))?;
    file.sync_all()
}

// A piece of zeros.
fn zeros() -> &'static [u8; PIECE] {
    &ZEROS
}

// Writes zeros from one place of a file up to another.
fn write_zeros<F: FileExt>(file: &F, from: u64, to: u64) -> io::Result<()> {
    let zeros = zeros();
    let mut at = from;
    while at < to {
        let count = (to - at).min(PIECE as u64);
        file.write_all_at(&zeros[..count as usize], at)?;
        at += count;
    }
    Ok(())
}
