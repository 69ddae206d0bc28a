// How files are opened: none gets the number of a standard stream.
ghost use Rattle.std.specs.Prelude.{◌≤ℤ◌, IfOk, pos};
ghost use Rattle.std.specs.Fd.{file_raw_fd};

use std::fs::{File, OpenOptions};
use std::io;
use std::io::ErrorKind;
use std::os::fd::{AsRawFd, IntoRawFd};
use std::path::AsPath;
use std::rt::Files;

// How many standard streams there are: their descriptors are 0, 1 and 2.
const STREAMS: i32 = 3;

// A folder that every process sees.
const ROOT: &str = "/";

/// Opens a file, pipe or device with these options. Its descriptor is never 0, 1 or 2, even where the program was
/// started with one of these closed: what the program prints would go into that file.
///
/// Each of the three that is closed is taken first, for as long as the program runs, by a folder that is open only for
/// reading. So a write to a standard output that was closed fails, as it did before.
pub fn open_file<R: Files<File = File>, P: AsPath>(
    rt: &R,
    how: &OpenOptions,
    path: P,
) -> io::Result<File>
    ensures { IfOk result (λ file. pos 3 ≤ℤ file_raw_fd file) }
{
    take_streams(rt)?;
    let file = how.open(rt, path)?;
    // It is so only where a standard stream was closed meanwhile.
    if file.as_raw_fd() < STREAMS {
        return Err(io::Error::from(ErrorKind::Other));
    }
    Ok(file)
}

/// Opens a file, pipe, device or folder to be read, as `open_file` does.
pub fn open_to_read<R: Files<File = File>, P: AsPath>(rt: &R, path: P) -> io::Result<File>
    ensures { IfOk result (λ file. pos 3 ≤ℤ file_raw_fd file) }
{
    open_file(rt, OpenOptions::new().read(true), path)
}

// Takes the descriptors of the standard streams that are closed. The system gives the lowest one that is free.
fn take_streams<R: Files<File = File>>(rt: &R) -> io::Result<()> {
    for _ in 0..STREAMS {
        let folder = File::open(rt, ROOT)?;
        if folder.as_raw_fd() >= STREAMS {
            break;
        }
        // It stays open as long as the program runs, since it has the stream's descriptor.
        let _taken = folder.into_raw_fd();
    }
    Ok(())
}
