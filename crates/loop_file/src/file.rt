// A disk over a file. No contract says what the file holds: its disk is never called honest. What its reads gave is
// known.
ghost use Rattle.std.specs.Prelude.{◌≡◌, ◌+◌, ◌↔◌, ◌≤◌, ℕ, List, length, IfOk, IfErr, OnOk};
ghost use Rattle.loop_disk.specs.declared.fault.DiskFault.TheVariants.{Read};
ghost use Rattle.loop_disk.specs.Calls.{Called, Stays, failed_call, with_failed};
ghost use Rattle.loop_disk.specs.History.{unknown};
ghost use Rattle.loop_disk.specs.Medium.{LeavesEach, MayBe, piece};
ghost use Rattle.loop_file.specs.Outcomes.{IsUnused, failing_as};

use crate::fault::FileFault;
use crate::fresh::make_fresh;
use crate::lock::take;
use crate::opened::open_file;
use crate::rows::write_rows;
use loop_disk::{Disk, DiskEvent, DiskFault, Failures, Past};
use std::fs::{File, OpenFile, OpenOptions};
use std::io;
use std::io::ErrorKind;
use std::os::unix::fs::FileExt;
use std::path::AsPath;
use std::rt::Files;

/// A disk over a file: as many bytes as the file had when it was opened.
///
/// Reads and writes are positioned, and continue after a short count or an interruption. A sync is the file's
/// `sync_data`. The file's lock (advisory, as `flock` gives it) is held until the disk is dropped.
#[derive(Drop)]
pub struct FileDisk<F = File> {
    file: F,
    size: u64,
    failures: Failures,
    /// What its reads gave since its last write. It takes no memory: only proofs read it.
    past: Past,
}

impl FileDisk {
    /// Opens an existing file, for reading and writing. Its length is the disk's size.
    pub fn open<R: Files<File = File>, P: AsPath>(rt: &R, path: P) -> Result<Self, FileFault>
        ensures { IfOk result (λ disk. IsUnused (⟦<FileDisk<File> as Disk>⟧.medium disk)) }
    {
        let file = open_file(rt, OpenOptions::new().read(true).write(true), path)?;
        take(&file)?;
        Ok(FileDisk::over(file)?)
    }

    /// The file, with its lock.
    pub(crate) fn into_file(self) -> File {
        self.file
    }
}

impl<F: OpenFile + FileExt + Drop> FileDisk<F> {
    /// A disk over an open file, which nobody else may use. It takes no lock.
    pub fn over(file: F) -> io::Result<Self>
        ensures { IfOk result (λ disk. IsUnused (⟦<FileDisk<F> as Disk>⟧.medium disk)) }
    {
        let size = file.metadata()?.len();
        Ok(FileDisk::of_size(file, size))
    }

    /// Makes an open file, which nobody else may use, a disk of so many bytes of zero, each written, and syncs the
    /// file's folder, and then the file. It takes no lock. A file that can't have that size or has no room to grow to
    /// it keeps its bytes; one that can't be written over begins with a zero.
    pub fn fresh_over<G: OpenFile>(file: F, folder: &G, size: u64) -> Result<Self, FileFault>
        ensures size { IfOk result (λ disk. (⟦<FileDisk<F> as Disk>⟧.medium disk).size ≡ size) }
        ensures unused { IfOk result (λ disk. IsUnused (⟦<FileDisk<F> as Disk>⟧.medium disk)) }
    {
        make_fresh(&file, folder, size)?;
        Ok(FileDisk::of_size(file, size))
    }

    /// A disk of that size, of which no call has failed.
    pub(crate) fn of_size(file: F, size: u64) -> Self
        ensures { (result.size ≡ size) × IsUnused (⟦<FileDisk<F> as Disk>⟧.medium result) }
    {
        FileDisk {
            file,
            size,
            failures: Failures::none(),
            past: Past::none(),
        }
    }

    // What a call of the disk answers. It is counted if the file's call failed.
    fn answer(&mut self, outcome: io::Result<()>, fault: DiskFault) -> Result<(), DiskFault>
        ensures answer { result ≡ failing_as fault outcome }
        ensures counted { self.new.failures ≡ with_failed (failed_call result) self.old.failures }
        ensures same { (self.new.size ≡ self.old.size) × (self.new.past ≡ self.old.past) }
    {
        match outcome {
            Ok(()) => Ok(()),
            Err(_) => self.failures.note(Err(fault)),
        }
    }
}

impl<F: OpenFile + FileExt + Drop> Disk for FileDisk<F> {
    ghost medium = { λ disk. unknown disk.size disk.failures disk.past.behind.reads };

    ghost harsh = { λ disk. ⊥ };

    ghost sound = { λ disk honest. absurd honest };

    fn size(&self) -> u64 {
        self.size
    }

    /// An image agrees afterwards exactly if it did before and has these bytes there.
    fn read(&mut self, at: u64, buf: &mut [u8]) -> Result<(), DiskFault>
        requires { at + length buf.old ≤ (⟦<FileDisk<F> as Disk>⟧.medium self.old).size }
        ensures gives { (image : List ℕ) → MayBe (⟦<FileDisk<F> as Disk>⟧.medium self.new) image
            ↔ (MayBe (⟦<FileDisk<F> as Disk>⟧.medium self.old) image
            × OnOk result (buf.new ≡ piece at (length buf.old) image)) }
        ensures disk { (⟦<FileDisk<F> as Disk>⟧.medium self.old).honest
            → Stays (⟦<FileDisk<F> as Disk>⟧.medium self.old) (⟦<FileDisk<F> as Disk>⟧.medium self.new) }
        ensures each { ⊥ → ⊥
            × LeavesEach (⟦<FileDisk<F> as Disk>⟧.medium self.old) (⟦<FileDisk<F> as Disk>⟧.medium self.new) }
        ensures fault { IfErr result (λ fault. fault ≡ Read) }
        ensures called { Called (⟦<FileDisk<F> as Disk>⟧.medium self.old) (⟦<FileDisk<F> as Disk>⟧.medium self.new)
            (failed_call result) }
    {
        match self.file.read_exact_at(buf, at) {
            Ok(()) => {
                self.past = self.past.after(&DiskEvent::Gave(at, buf));
                Ok(())
            }
            Err(_) => self.failures.note(Err(DiskFault::Read)),
        }
    }

    fn write_rows(&mut self, at: u64, rows: &[&[u8]]) -> Result<(), DiskFault> {
        // The rows end on the disk, so their places are u64s, as its size is.
        let _size = self.size;
        self.past = Past::none();
        let outcome = write_rows(&self.file, at, rows);
        self.answer(outcome, DiskFault::Write)
    }

    fn sync(&mut self) -> Result<(), DiskFault> {
        let outcome = sync_through(&self.file);
        self.answer(outcome, DiskFault::Sync)
    }
}

/// Syncs a file's bytes, and tries again where a signal interrupts it.
pub(crate) fn sync_through<F: OpenFile>(file: &F) -> io::Result<()> {
    for _ in 0..u64::MAX {
        match file.sync_data() {
            Err(error) if error.kind() == ErrorKind::Interrupted => (),
            outcome => return outcome,
        }
    }
    Err(io::Error::from(ErrorKind::TimedOut))
}
