// What a text is written to.

use crate::fault::FileFault;
use crate::file::sync_through;
use crate::lock::lock;
use crate::opened::{open_file, open_to_read};
use crate::place::folder_of;
use std::alloc::AllocGlobal;
use std::fs::{File, OpenOptions};
use std::io::{ErrorKind, Write};
use std::rt::Files;
use std::{fs, io};

/// A file, pipe or device that a text is written to. A file's lock is held until this is dropped.
#[derive(Drop)]
pub struct TextFile {
    file: File,
    /// Whether it is a regular file: one that can be emptied, and whose bytes can be kept on a disk.
    is_file: bool,
    /// The folder of a file that was made, in which its name isn't on the disk yet.
    folder: Option<File>,
}

impl TextFile {
    /// Opens what a path leads to, or makes a file there. Its contents stay as they are. `Busy` where another program,
    /// or another part of this one, has the file: a store that is being recorded into, for example.
    pub fn open<R: AllocGlobal + Files<File = File>>(
        rt: &R,
        path: &str,
    ) -> Result<Self, FileFault> {
        match open_file(rt, OpenOptions::new().write(true), path) {
            Ok(file) => TextFile::over(file, None),
            Err(error) if error.kind() == ErrorKind::NotFound => {
                let file = open_file(rt, OpenOptions::new().write(true).create(true), path)?;
                let made = fs::canonicalize(rt, path)?;
                let folder = open_to_read(rt, folder_of(made.as_path()))?;
                TextFile::over(file, Some(folder))
            }
            Err(error) => Err(FileFault::from(error)),
        }
    }

    // An open file, whose lock is taken if it is a regular one.
    fn over(file: File, folder: Option<File>) -> Result<Self, FileFault> {
        let is_file = file.metadata()?.is_file();
        if is_file {
            lock(&file)?;
        }
        Ok(TextFile {
            file,
            is_file,
            folder,
        })
    }

    /// Empties a file. A pipe or a device is left as it is.
    pub fn empty(&mut self) -> io::Result<()> {
        // An empty file is left alone, since some file systems flush a file that was cut to length 0 to the disk when
        // it is closed.
        if self.is_file && self.file.metadata()?.len() > 0 {
            self.file.set_len(0)?;
        }
        Ok(())
    }

    /// Returns once a file's bytes, and its name if it was made here, are synced to the disk. A pipe or a device has
    /// nothing to sync.
    pub fn settle(&self) -> io::Result<()> {
        if self.is_file {
            sync_through(&self.file)?;
        }
        match &self.folder {
            Some(folder) => folder.sync_all(),
            None => Ok(()),
        }
    }
}

impl Write for TextFile {
    fn write(&mut self, buf: &[u8]) -> io::Result<usize> {
        self.file.write(buf)
    }

    fn flush(&mut self) -> io::Result<()> {
        self.file.flush()
    }
}
