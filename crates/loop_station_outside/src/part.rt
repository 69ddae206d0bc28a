//! The file, pipe or device that the text of a clip is written to.
//!
//! A file is written as OUT.part, in the same folder, and gets its name once its bytes are on the disk: so whatever has
//! the name OUT is whole. OUT.part is made anew by each save: what a stop or a loss of power has left of one is
//! removed, and no other file.

use crate::not_saved::NotSaved;
use crate::path_kind::PathKind;
use loop_file::{FileFault, TextFile, open_file, open_to_read};
use loop_station_core::{TextStep, next_text_step};
use std::alloc::AllocGlobal;
use std::fs::{File, OpenOptions, TryLockError};
use std::io::{ErrorKind, Read, Write};
use std::os::unix::fs::MetadataExt;
use std::path::{Path, PathBuf};
use std::rt::Files;
use std::{fs, io};

// What is added to a file's name, after a dot, while it is being written.
const UNFINISHED: &str = "part";

// A text gets its name in so many steps at most, and one that says the result.
const TEXT_STEPS: u32 = 5;

// How each text begins.
const BEGINNING: &[u8] = b"YUV4MPEG2 ";

const BEGINNING_LENGTH: usize = 10;

// What a store has after its first byte.
const STORE_MARK: &[u8] = b"LOOPREC";

// Where the file of a text is written.
#[derive(Drop)]
struct Part {
    file: File,
    // The folder of both names, in which they are synced.
    folder: File,
    path: PathBuf,
    whole: PathBuf,
    replace: bool,
}

/// What the text of a clip is written to.
#[derive(Drop)]
pub struct PartFile {
    // A file, under its unfinished name.
    part: Option<Part>,
    // A pipe or a device.
    other: Option<TextFile>,
    // It is a pipe.
    is_pipe: bool,
    // How many bytes of the text a pipe's reader has before it is written.
    ahead: usize,
}

impl PartFile {
    /// Opens a pipe or a device, or makes the unfinished file of a path, which nobody else may be writing. A file that
    /// exists is left as it is: it has to be there only where it may be replaced, and not begin as a store does.
    pub fn open<R: AllocGlobal + Files<File = File>>(
        rt: &R,
        path: &str,
        kind: PathKind,
        replace: bool,
    ) -> Result<PartFile, NotSaved> {
        match kind {
            PathKind::Unknown => Err(NotSaved::CannotOpen),
            PathKind::File if !replace => Err(NotSaved::Exists),
            PathKind::Pipe => {
                // While this end is read, the other one is opened at once. It alone is held.
                let _read = open_file(rt, OpenOptions::new().read(true).write(true), path);
                PartFile::over(rt, path, true)
            }
            PathKind::Other => PartFile::over(rt, path, false),
            PathKind::File => {
                check_old(rt, path)?;
                let whole = canonical(rt, path)?;
                PartFile::begin(rt, whole, true)
            }
            PathKind::Nothing => {
                let whole = in_folder(rt, path)?;
                PartFile::begin(rt, whole, replace)
            }
        }
    }

    // Opens a pipe or a device.
    fn over<R: AllocGlobal + Files<File = File>>(
        rt: &R,
        path: &str,
        is_pipe: bool,
    ) -> Result<PartFile, NotSaved> {
        match TextFile::open(rt, path) {
            Ok(file) => Ok(PartFile {
                part: None,
                other: Some(file),
                is_pipe,
                ahead: 0,
            }),
            Err(FileFault::Busy) => Err(NotSaved::InUse),
            Err(fault) => Err(NotSaved::File(fault)),
        }
    }

    /// Whether somebody reads the pipe, who has the first bytes of the text by that. A file or a device needs nobody.
    pub fn has_reader(&mut self) -> bool {
        if !self.is_pipe || self.ahead > 0 {
            return true;
        }
        let Some(pipe) = &mut self.other else {
            return true;
        };
        match pipe.write(BEGINNING) {
            Ok(count) => {
                self.ahead = count;
                true
            }
            Err(error) => error.kind() != ErrorKind::BrokenPipe,
        }
    }

    // Makes the unfinished file of a path.
    fn begin<R: AllocGlobal + Files<File = File>>(
        rt: &R,
        whole: PathBuf,
        replace: bool,
    ) -> Result<PartFile, NotSaved> {
        let Ok(path) = whole.as_path().with_added_extension(rt.alloc(), UNFINISHED) else {
            return Err(NotSaved::NoMemory);
        };
        let folder = opened(open_to_read(rt, folder_of(whole.as_path())))?;
        let file = made_anew(rt, path.as_path())?;
        take(rt, &file, path.as_path())?;
        Ok(PartFile {
            part: Some(Part {
                file,
                folder,
                path,
                whole,
                replace,
            }),
            other: None,
            is_pipe: false,
            ahead: 0,
        })
    }

    /// Gives a file whose text is whole its name. At Ok both are on the disk. A pipe or a device has nothing to sync.
    pub fn finish<R: Files<File = File>>(&self, rt: &R) -> Result<(), NotSaved> {
        let Some(part) = &self.part else {
            return Ok(());
        };
        let mut step = TextStep::SyncText;
        let mut fault = NotSaved::CannotWrite;
        for _ in 0..TEXT_STEPS {
            let is_done = match step {
                TextStep::SyncText => part.file.sync_all().is_ok(),
                TextStep::Name => match name_whole(rt, part) {
                    Ok(()) => true,
                    Err(why) => {
                        fault = why;
                        false
                    }
                },
                TextStep::SyncName => part.folder.sync_all().is_ok(),
                // A file that can't be removed stays, as after a stop: the save's own fault is told.
                TextStep::Unname => fs::remove_file(rt, part.whole.as_path()).is_ok(),
                TextStep::Saved => return Ok(()),
                TextStep::NotSaved => break,
            };
            step = next_text_step(step, is_done, part.replace);
        }
        Err(fault)
    }

    /// Removes what was written of a file that isn't whole.
    pub fn give_up<R: Files<File = File>>(&self, rt: &R) {
        if let Some(part) = &self.part {
            if names(rt, part.path.as_path(), &part.file).unwrap_or(false) {
                // A file that can't be removed stays, as after a stop: the save's own fault is told.
                let _ = fs::remove_file(rt, part.path.as_path());
            }
        }
    }
}

impl Write for PartFile {
    fn write(&mut self, buf: &[u8]) -> io::Result<usize> {
        let count = self.ahead.min(buf.len());
        if count > 0 {
            self.ahead = self.ahead.saturating_sub(count);
            return Ok(count);
        }
        match (&mut self.part, &mut self.other) {
            (Some(part), _) => part.file.write(buf),
            (None, Some(other)) => other.write(buf),
            (None, None) => Ok(buf.len()),
        }
    }

    fn flush(&mut self) -> io::Result<()> {
        match (&mut self.part, &mut self.other) {
            (Some(part), _) => part.file.flush(),
            (None, Some(other)) => other.flush(),
            (None, None) => Ok(()),
        }
    }
}

// Gives a file its whole name: over what is there, or only where nothing is.
fn name_whole<R: Files<File = File>>(rt: &R, part: &Part) -> Result<(), NotSaved> {
    let (from, to) = (part.path.as_path(), part.whole.as_path());
    if part.replace {
        return match fs::rename(rt, from, to) {
            Ok(()) => Ok(()),
            Err(_) => Err(NotSaved::CannotWrite),
        };
    }
    match fs::hard_link(rt, from, to) {
        Ok(()) => {
            // A file whose unfinished name can't be removed has both names.
            let _ = fs::remove_file(rt, from);
            Ok(())
        }
        Err(error) if error.kind() == ErrorKind::AlreadyExists => Err(NotSaved::Exists),
        // A file system without links: whoever makes a file of this name between the look and the renaming loses it.
        Err(_) => match fs::symlink_metadata(rt, to) {
            Ok(_) => Err(NotSaved::Exists),
            Err(_) => match fs::rename(rt, from, to) {
                Ok(()) => Ok(()),
                Err(_) => Err(NotSaved::CannotWrite),
            },
        },
    }
}

// Makes an unfinished file anew, where none is there but what a stop has left of one.
fn made_anew<R: Files<File = File>>(rt: &R, path: Path<'_>) -> Result<File, NotSaved> {
    match open_file(rt, OpenOptions::new().write(true).create_new(true), path) {
        Ok(file) => return Ok(file),
        Err(error) if error.kind() == ErrorKind::AlreadyExists => remove_left(rt, path)?,
        Err(error) => return Err(NotSaved::File(FileFault::from(error))),
    }
    match open_file(rt, OpenOptions::new().write(true).create_new(true), path) {
        Ok(file) => Ok(file),
        Err(error) if error.kind() == ErrorKind::AlreadyExists => Err(NotSaved::InUse),
        Err(error) => Err(NotSaved::File(FileFault::from(error))),
    }
}

// Removes what a stop has left of an unfinished file: a file, and no link to one, that nobody writes and that is empty
// or begins as a text does.
fn remove_left<R: Files<File = File>>(rt: &R, path: Path<'_>) -> Result<(), NotSaved> {
    match fs::symlink_metadata(rt, path) {
        Ok(metadata) if metadata.is_file() => {}
        _ => return Err(NotSaved::InUse),
    }
    let mut file = opened(open_to_read(rt, path))?;
    take(rt, &file, path)?;
    let mut first = [0u8; BEGINNING_LENGTH];
    match file.read(&mut first) {
        Ok(count) if BEGINNING.starts_with(first.get(..count).unwrap_or(&[])) => {}
        _ => return Err(NotSaved::InUse),
    }
    match fs::remove_file(rt, path) {
        Ok(()) => Ok(()),
        Err(_) => Err(NotSaved::CannotOpen),
    }
}

// Takes the lock of an unfinished file, whose path has to name it still.
fn take<R: Files<File = File>>(rt: &R, file: &File, path: Path<'_>) -> Result<(), NotSaved> {
    let is_file = match file.metadata() {
        Ok(metadata) => metadata.is_file(),
        Err(_) => false,
    };
    if !is_file {
        return Err(NotSaved::CannotOpen);
    }
    match file.try_lock() {
        Ok(()) => {}
        Err(TryLockError::WouldBlock) => return Err(NotSaved::InUse),
        Err(TryLockError::Error(_)) => return Err(NotSaved::CannotOpen),
    }
    match names(rt, path, file) {
        Ok(true) => Ok(()),
        Ok(false) => Err(NotSaved::InUse),
        Err(_) => Err(NotSaved::CannotOpen),
    }
}

// A file that may be replaced: nobody has its lock, and it doesn't begin as a store does.
fn check_old<R: Files<File = File>>(rt: &R, path: &str) -> Result<(), NotSaved> {
    let mut file = opened(open_to_read(rt, path))?;
    match file.try_lock() {
        Ok(()) => {}
        Err(TryLockError::WouldBlock) => return Err(NotSaved::InUse),
        Err(TryLockError::Error(_)) => return Err(NotSaved::CannotOpen),
    }
    let mut first = [0u8; 8];
    match file.read(&mut first) {
        Ok(count) if count == 8 && first.get(1..) == Some(STORE_MARK) => Err(NotSaved::IsStore),
        Ok(_) => Ok(()),
        Err(_) => Err(NotSaved::CannotOpen),
    }
}

// An open file, or why there is none.
fn opened(came: io::Result<File>) -> Result<File, NotSaved> {
    match came {
        Ok(file) => Ok(file),
        Err(error) => Err(NotSaved::File(FileFault::from(error))),
    }
}

// The path of a file, without links.
fn canonical<R: AllocGlobal + Files<File = File>>(rt: &R, path: &str) -> Result<PathBuf, NotSaved> {
    match fs::canonicalize(rt, path) {
        Ok(path) => Ok(path),
        Err(error) => Err(NotSaved::File(FileFault::from(error))),
    }
}

// The path of a file that isn't there yet: its folder's, without links, and its name.
fn in_folder<R: AllocGlobal + Files<File = File>>(rt: &R, path: &str) -> Result<PathBuf, NotSaved> {
    let (folder, name) = match path.rsplit_once('/') {
        Some(("", name)) => ("/", name),
        Some(parts) => parts,
        None => (".", path),
    };
    let folder = canonical(rt, folder)?;
    match folder.as_path().join(rt.alloc(), name) {
        Ok(path) => Ok(path),
        Err(_) => Err(NotSaved::NoMemory),
    }
}

/// Whether the file of a path lies in a folder, or in one below it, whatever links there are.
pub fn lies_in<R: AllocGlobal + Files<File = File>>(rt: &R, path: &str, folder: &str) -> bool {
    let folder = match path.rsplit_once('/') {
        Some(("", _)) => fs::canonicalize(rt, "/"),
        Some((parent, _)) => fs::canonicalize(rt, parent),
        None => fs::canonicalize(rt, "."),
    }
    .and_then(|parent| Ok((parent, fs::canonicalize(rt, folder)?)));
    match folder {
        Ok((parent, folder)) => {
            parent.as_path().starts_with(folder.as_path()) && leads_into(rt, path, folder.as_path())
        }
        Err(_) => false,
    }
}

// Whether what a path leads to lies in a folder, where something is there: its last name may be a link elsewhere.
fn leads_into<R: AllocGlobal + Files<File = File>>(rt: &R, path: &str, folder: Path<'_>) -> bool {
    match fs::canonicalize(rt, path) {
        Ok(whole) => whole.as_path().starts_with(folder),
        Err(_) => true,
    }
}

// The folder of a path's file.
fn folder_of(path: Path<'_>) -> Path<'_> {
    match path.parent() {
        Some(folder) if !folder.as_os_str().is_empty() => folder,
        _ => Path::new("."),
    }
}

// Whether a path names this open file.
fn names<R: Files<File = File>>(rt: &R, path: Path<'_>, file: &File) -> io::Result<bool> {
    let here = file.metadata()?;
    match fs::metadata(rt, path) {
        Ok(there) => Ok(there.dev() == here.dev() && there.ino() == here.ino()),
        Err(error) if error.kind() == ErrorKind::NotFound => Ok(false),
        Err(error) => Err(error),
    }
}
