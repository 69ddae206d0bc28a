// Where a file is, and how it is made anew there.
ghost use Rattle.std.specs.Prelude.{◌≡◌, IfOk};
ghost use Rattle.loop_file.specs.Outcomes.{IsUnused};

use crate::fault::FileFault;
use crate::file::FileDisk;
use crate::fresh::{close, make_fresh};
use crate::lock::take;
use crate::opened::{open_file, open_to_read};
use loop_disk::Disk;
use std::alloc::AllocGlobal;
use std::fs::{File, OpenOptions};
use std::io::ErrorKind;
use std::os::unix::fs::MetadataExt;
use std::path::{Path, PathBuf};
use std::rt::Files;
use std::{fs, io};

// The most links that are followed, one after the other, from a path to a file.
const MAX_LINKS: u32 = 40;

// What is added to a file's name, after a dot, while the file is being made.
const UNFINISHED: &str = "new";

/// Where the file of a path is, or will be: where the path ends in a link, what the link names, and not the link. Its
/// folder is held open.
#[derive(Drop)]
pub struct FilePlace {
    path: PathBuf,
    folder: File,
    /// Whether the file was made by `create`.
    is_new: bool,
}

impl FilePlace {
    /// Looks for the place of a path's file, and changes nothing. It takes memory for the paths that links name.
    pub fn of<R: AllocGlobal + Files<File = File>>(rt: &R, path: &str) -> Result<Self, FileFault> {
        let mut path = PathBuf::from_str(rt.alloc(), path)?;
        for _ in 0..MAX_LINKS {
            match target_of(rt, path.as_path())? {
                Some(target) => path = target,
                None => {
                    let folder = open_to_read(rt, folder_of(path.as_path()))?;
                    return Ok(FilePlace {
                        path,
                        folder,
                        is_new: false,
                    });
                }
            }
        }
        Err(FileFault::Failed)
    }

    /// Makes the file, or makes an old one anew, with so many bytes of zero. At Ok its name is on the disk, and each of
    /// its bytes has its place there: later writes find room even on a full file system. It takes as long as writing so
    /// many bytes, and as much room as the larger of the old size and the new one.
    ///
    /// A new file that is refused is removed. An old file that is in use, can't have that size or has no room to grow
    /// to it keeps each byte and its length; one that can't be written over is left with a zero as its first byte. A
    /// stop leaves what was there, or a file that begins with a zero.
    pub fn create<R: Files<File = File>>(
        &mut self,
        rt: &R,
        size: u64,
    ) -> Result<FileDisk, FileFault>
        ensures size { IfOk result (λ disk. (⟦<FileDisk<File> as Disk>⟧.medium disk).size ≡ size) }
        ensures unused { IfOk result (λ disk. IsUnused (⟦<FileDisk<File> as Disk>⟧.medium disk)) }
    {
        let (file, is_new) = open_or_make(rt, self.path.as_path())?;
        self.is_new = is_new;
        match self.make(rt, &file, size) {
            Ok(()) => Ok(FileDisk::of_size(file, size)),
            Err(fault) => {
                // Whoever holds the lock of a file that was just made continues with it.
                if fault != FileFault::Busy {
                    self.remove(rt, &file);
                }
                Err(fault)
            }
        }
    }

    /// Gives up what `create` made, for a caller that has no use for the disk: a new file is removed, and an old one,
    /// whose bytes are gone, is left with a zero as its first byte. A step of this that fails is not tried again.
    pub fn give_up<R: Files<File = File>>(self, rt: &R, disk: FileDisk) {
        let file = disk.into_file();
        if self.is_new {
            self.remove(rt, &file);
        } else {
            // Dropped: a caller that gives up has a refusal of its own to report.
            let _ = close(&file);
        }
    }

    /// The place of a file that gets this place's name once it is finished: NAME.new, in the same folder. What an
    /// earlier try left may still be there.
    pub fn unfinished<R: AllocGlobal + Files<File = File>>(
        &self,
        rt: &R,
    ) -> Result<Self, FileFault> {
        let path = self.path.as_path();
        Ok(FilePlace {
            path: path.with_added_extension(rt.alloc(), UNFINISHED)?,
            folder: self.folder.try_clone()?,
            is_new: false,
        })
    }

    /// Opens the file of this place, for reading and writing, as `FileDisk::open` does.
    pub fn open<R: Files<File = File>>(&self, rt: &R) -> Result<FileDisk, FileFault>
        ensures { IfOk result (λ disk. IsUnused (⟦<FileDisk<File> as Disk>⟧.medium disk)) }
    {
        FileDisk::open(rt, self.path.as_path())
    }

    /// Gives a finished file of another place this place's name. At Ok that name is on the disk. `Busy` where this
    /// place has a file: nothing is changed then.
    pub fn finish<R: Files<File = File>>(&self, rt: &R, made: &FilePlace) -> Result<(), FileFault> {
        match fs::symlink_metadata(rt, self.path.as_path()) {
            Ok(_) => return Err(FileFault::Busy),
            Err(error) if error.kind() == ErrorKind::NotFound => {}
            Err(error) => return Err(FileFault::from(error)),
        }
        fs::rename(rt, made.path.as_path(), self.path.as_path())?;
        self.folder.sync_all()?;
        Ok(())
    }

    // Takes the lock of an open file, and gives it so many bytes of zero. Two programs may make the file of one path at
    // the same time, and the one that is refused removes its file. So the path has to name this file once it is locked.
    fn make<R: Files<File = File>>(&self, rt: &R, file: &File, size: u64) -> Result<(), FileFault> {
        take(file)?;
        if !names(rt, self.path.as_path(), file)? {
            return Err(FileFault::Busy);
        }
        make_fresh(file, &self.folder, size)
    }

    // Removes a file that is new, unless the path names another one by now. Where that can't be seen, it is removed.
    fn remove<R: Files<File = File>>(&self, rt: &R, file: &File) {
        let path = self.path.as_path();
        if self.is_new && names(rt, path, file).unwrap_or(true) {
            // Both answers are dropped: the caller reports the refusal that led here, and not what fails now.
            let _ = fs::remove_file(rt, path);
            let _ = self.folder.sync_all();
        }
    }
}

impl FileDisk {
    /// Makes the file anew, with so many bytes of zero, or makes an old one so, as `FilePlace::create` does.
    pub fn create<R: AllocGlobal + Files<File = File>>(
        rt: &R,
        path: &str,
        size: u64,
    ) -> Result<Self, FileFault>
        ensures size { IfOk result (λ disk. (⟦<FileDisk<File> as Disk>⟧.medium disk).size ≡ size) }
        ensures unused { IfOk result (λ disk. IsUnused (⟦<FileDisk<File> as Disk>⟧.medium disk)) }
    {
        let mut place = FilePlace::of(rt, path)?;
        place.create(rt, size)
    }
}

// Opens an existing file, or makes one; returns also whether it was made.
fn open_or_make<R: Files<File = File>>(rt: &R, path: Path<'_>) -> Result<(File, bool), FileFault> {
    let mut options = OpenOptions::new();
    options.read(true).write(true);
    match open_file(rt, &options, path) {
        Ok(file) => Ok((file, false)),
        Err(error) if error.kind() == ErrorKind::NotFound => {
            options.create_new(true);
            Ok((open_file(rt, &options, path)?, true))
        }
        Err(error) => Err(FileFault::from(error)),
    }
}

// What a link names, seen from the link's folder; `None` where the path names no link, or nothing at all.
fn target_of<R: AllocGlobal + Files<File = File>>(
    rt: &R,
    path: Path<'_>,
) -> Result<Option<PathBuf>, FileFault> {
    match fs::symlink_metadata(rt, path) {
        Ok(data) if data.is_symlink() => {
            let target = fs::read_link(rt, path)?;
            Ok(Some(folder_of(path).join(rt.alloc(), target.as_path())?))
        }
        Ok(_) => Ok(None),
        Err(error) if error.kind() == ErrorKind::NotFound => Ok(None),
        Err(error) => Err(FileFault::from(error)),
    }
}

/// The folder of a path's file.
pub(crate) fn folder_of(path: Path<'_>) -> Path<'_> {
    match path.parent() {
        Some(folder) if !folder.as_os_str().is_empty() => folder,
        _ => Path::new("."),
    }
}

// Whether a path names this open file.
fn names<R: Files<File = File>>(rt: &R, path: Path<'_>, file: &File) -> io::Result<bool> {
    let here = file.metadata()?;
    match fs::metadata(rt, path) {
        Ok(there) => Ok(there.dev() == here.dev() && there.ino() == here.ino()),
        Err(error) if error.kind() == ErrorKind::NotFound => Ok(false),
        Err(error) => Err(error),
    }
}
