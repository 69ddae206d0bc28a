// The bytes of a disk that were read before they are asked for.
ghost use Rattle.std.specs.Prelude.{◌≡◌, ◌+◌, ◌≤◌, ℕ, List, IfOk, OnOk, length};
ghost use Rattle.loop_disk.specs.Medium.{MayBe, piece};
ghost use Rattle.loop_file.specs.Windows.{IsAhead, IsCopy, OnlyReads};

use loop_disk::{Disk, DiskFault};
use std::alloc::Allocator;

/// Consecutive bytes of a disk, and room for more.
#[derive(Drop)]
pub(crate) struct Window<A: Allocator> {
    pub(crate) bytes: Vec<u8, A>,
    pub(crate) start: u64,
    pub(crate) held: usize,
}

impl<A: Allocator> Window<A> {
    /// Copies the bytes that it holds from `at` on to the start of a buffer, and returns how many they are.
    pub(crate) fn give(&self, at: u64, buf: &mut [u8]) -> usize
        requires { self.now.held ≤ length self.now.bytes.items }
        ensures few { result ≤ length buf.old }
        ensures all { self.now.start ≤ at → at + length buf.old ≤ self.now.start + self.now.held
            → result ≡ length buf.old }
        ensures bytes { (image : List ℕ) → IsCopy self.now.start self.now.held image self.now.bytes.items
            → IsCopy at result image buf.new }
    {
        if at < self.start || at - self.start >= self.held as u64 {
            return 0;
        }
        let from = (at - self.start) as usize;
        let count = buf.len().min(self.held - from);
        buf[..count].copy_from_slice(&self.bytes[from..from + count]);
        count
    }

    // How many bytes to fetch from `at` on, of a disk of this size, where at least so many are asked for. It is as many
    // as there is room for if they continue those that it holds.
    fn reach(&self, at: u64, least: usize, size: u64) -> usize
        requires inside { at + least ≤ size }
        requires room { least ≤ length self.now.bytes.items }
        ensures enough { least ≤ result }
        ensures inside { at + result ≤ size }
        ensures room { result ≤ length self.now.bytes.items }
    {
        if at < self.start || at - self.start != self.held as u64 {
            return least;
        }
        let behind = size - at;
        if behind < self.bytes.len() as u64 {
            behind as usize
        } else {
            self.bytes.len()
        }
    }
}

// Fetches the bytes from `at` on into the window: as many as `reach` returns, or, where these can't be read at once,
// just those that are asked for. After a failure it holds none.
fn fetch<D: Disk, A: Allocator>(
    disk: &mut D,
    window: &mut Window<A>,
    at: u64,
    least: usize,
) -> Result<(), DiskFault>
    requires inside { at + least ≤ (D.medium disk.old).size }
    requires room { least ≤ length window.old.bytes.items }
    ensures ahead { IsAhead window.new.bytes.items window.new.start window.new.held (D.medium disk.new) }
    ensures got { OnOk result ((window.new.start ≡ at) × (least ≤ window.new.held)) }
    ensures reads { OnlyReads D.medium D.harsh disk.old disk.new result }
{
    let most = window.reach(at, least, disk.size());
    window.held = 0;
    let count = fill_most(disk, &mut window.bytes, at, least, most)?;
    window.start = at;
    window.held = count;
    Ok(())
}

// Reads the bytes from `at` on to the start of a buffer: as many as wanted, or, where these can't be read at once, just
// as many as are asked for. Returns how many it read.
fn fill_most<D: Disk>(
    disk: &mut D,
    buf: &mut [u8],
    at: u64,
    least: usize,
    most: usize,
) -> Result<usize, DiskFault>
    requires inside { at + most ≤ (D.medium disk.old).size }
    requires room { (least ≤ most) × (most ≤ length buf.old) }
    ensures count { IfOk result (λ count. (least ≤ count) × (count ≤ most)) }
    ensures read { (image : List ℕ) → MayBe (D.medium disk.new) image
        → IfOk result (λ count. IsCopy at count image buf.new) }
    ensures reads { OnlyReads D.medium D.harsh disk.old disk.new result }
{
    if least < most {
        match fill(disk, buf, at, most) {
            Ok(()) => return Ok(most),
            // The place that can't be read may lie after the bytes that are asked for.
            Err(_) => (),
        }
    }
    fill(disk, buf, at, least)?;
    Ok(least)
}

// Reads so many bytes of the disk from `at` on to the start of a buffer.
fn fill<D: Disk>(disk: &mut D, buf: &mut [u8], at: u64, count: usize) -> Result<(), DiskFault>
    requires inside { at + count ≤ (D.medium disk.old).size }
    requires room { count ≤ length buf.old }
    ensures read { (image : List ℕ) → MayBe (D.medium disk.new) image → OnOk result (IsCopy at count image buf.new) }
    ensures reads { OnlyReads D.medium D.harsh disk.old disk.new result }
{
    disk.read(at, &mut buf[..count])
}

/// Reads the bytes from `at` on: through the window where they are at most half of it.
pub(crate) fn read_by<D: Disk, A: Allocator>(
    disk: &mut D,
    window: &mut Window<A>,
    at: u64,
    buf: &mut [u8],
) -> Result<(), DiskFault>
    requires inside { at + length buf.old ≤ (D.medium disk.old).size }
    requires ahead { IsAhead window.old.bytes.items window.old.start window.old.held (D.medium disk.old) }
    ensures ahead { IsAhead window.new.bytes.items window.new.start window.new.held (D.medium disk.new) }
    ensures read { (image : List ℕ) → MayBe (D.medium disk.new) image
        → OnOk result (buf.new ≡ piece at (length buf.old) image) }
    ensures reads { OnlyReads D.medium D.harsh disk.old disk.new result }
{
    if buf.len() > window.bytes.len() / 2 {
        return disk.read(at, buf);
    }
    fetch(disk, window, at, buf.len())?;
    // The window holds all of these bytes now, so their count is known.
    window.give(at, buf);
    Ok(())
}
