// A disk that reads ahead, over another disk.
ghost use Rattle.std.specs.Prelude.{◌≡◌, IfErr, IfOk};
ghost use Rattle.loop_disk.specs.Calls.{no_failures};
ghost use Rattle.loop_disk.specs.Sound.{sound_recounted};
ghost use Rattle.loop_file.specs.Windows.{IsAhead, Recounted};

use crate::window::{Window, read_by};
use loop_disk::{Disk, DiskFault, Failures};
use std::alloc::{Allocator, Global};
use std::marker::Model;

/// Passes each write and each sync to the disk beneath it, and answers reads from a window of bytes that it fetches
/// from there. A read of at most half the window is made through it. Where the read continues what the window holds,
/// the window is filled by one read; otherwise, and where that read fails, it gets just the bytes that are asked for. A
/// longer read bypasses the window, except for the first bytes where the window holds them. A write empties the window,
/// as a failed fetch does. In contracts it is the disk beneath with its own count of the calls that failed. A failed
/// read of bytes that no caller asked for isn't counted.
#[derive(Drop)]
pub struct AheadDisk<D: Disk + Drop, A: Allocator = Global> {
    inner: D,
    window: Window<A>,
    failures: Failures,
}

impl<D: Disk + Drop, A: Allocator> Model for AheadDisk<D, A> {
    ghost Value = { Recounted D };

    ghost view = { λ ahead. record { disk = ahead.inner; failures = ahead.failures } };

    ghost invariant = { λ ahead.
        IsAhead ahead.window.bytes.items ahead.window.start ahead.window.held (D.medium ahead.inner) };
}

impl<D: Disk + Drop, A: Allocator> AheadDisk<D, A> {
    /// A disk over this one, whose window has room for so many bytes. It takes their memory, and no later call takes
    /// any. Its only error is want of memory, and then the disk is returned.
    pub fn new(alloc: A, inner: D, bytes: usize) -> Result<Self, D>
        ensures ahead { IfOk result (λ ahead. ahead ≡ record { disk = inner; failures = no_failures }) }
        ensures back { IfErr result (λ disk. disk ≡ inner) }
    {
        let Ok(bytes) = vec![in alloc; 0; bytes] else {
            return Err(inner);
        };
        let window = Window {
            bytes,
            start: 0,
            held: 0,
        };
        Ok(AheadDisk {
            inner,
            window,
            failures: Failures::none(),
        })
    }

    /// The disk beneath, as the calls left it.
    pub fn into_inner(self) -> D
        ensures { result ≡ self.disk }
    {
        let AheadDisk {
            inner,
            window: _,
            failures: _,
        } = self;
        inner
    }
}

impl<D: Disk + Drop, A: Allocator> Disk for AheadDisk<D, A> {
    ghost medium = { λ ahead. record (D.medium ahead.disk) { failures = ahead.failures } };

    ghost harsh = { λ ahead. D.harsh ahead.disk };

    ghost sound = { λ ahead honest. sound_recounted (D.medium ahead.disk) ahead.failures (D.sound ahead.disk honest) };

    fn size(&self) -> u64 {
        self.inner.size()
    }

    fn read(&mut self, at: u64, buf: &mut [u8]) -> Result<(), DiskFault> {
        // The bytes end on the disk, so their places are u64s, as its size is.
        let _size = self.inner.size();
        let known = self.window.give(at, buf);
        if known == buf.len() {
            return Ok(());
        }
        let rest = at + known as u64;
        let outcome = read_by(&mut self.inner, &mut self.window, rest, &mut buf[known..]);
        self.failures.note(outcome)
    }

    fn write_rows(&mut self, at: u64, rows: &[&[u8]]) -> Result<(), DiskFault> {
        self.window.held = 0;
        let outcome = self.inner.write_rows(at, rows);
        self.failures.note(outcome)
    }

    fn sync(&mut self) -> Result<(), DiskFault> {
        let outcome = self.inner.sync();
        self.failures.note(outcome)
    }
}
