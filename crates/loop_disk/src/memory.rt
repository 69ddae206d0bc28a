// A disk in memory. A crash may leave any bytes in each range that was written since the last sync.
ghost use Rattle.std.specs.Prelude.{⊤, ◌≡◌, ◌≤◌, ◌+◌, ℕ, List, length, IfOk, OnOk, IsOk, replicate, IfErr};
ghost use Rattle.loop_disk.specs.declared.fault.DiskFault.TheVariants.{Read, Write, Sync};
ghost use Rattle.loop_disk.specs.Rows.{joined};
ghost use Rattle.loop_disk.specs.Medium.{MayBe, with_bytes_at, piece, IsFresh, IsSame, LeavesEach, LeavesEachTorn};
ghost use Rattle.loop_disk.specs.Calls.{Called, Stays, Writes, Syncs, failed_call, no_failures};
ghost use Rattle.loop_disk.specs.History.{medium_of};
ghost use Rattle.loop_disk.specs.Behind.{moment_now};
ghost use Rattle.loop_disk.specs.Sound.{sound_of};

use crate::past::{DiskEvent, Past};
use crate::rows::{length_of, put_rows};
use crate::{Disk, DiskFault};
use std::alloc::{AllocError, Allocator, Global};

/// A disk in memory, honest, whose crashes are as bad as the model allows. None of its calls fails or takes memory.
#[derive(Drop)]
pub struct MemDisk<A: Allocator = Global> {
    bytes: Vec<u8, A>,
    /// Its writes and syncs. It takes no memory: only proofs read it.
    past: Past,
}

impl<A: Allocator> MemDisk<A> {
    /// A disk of so many bytes of zero. Its only error is want of memory, also for a size that no memory can have.
    pub fn new(alloc: A, size: u64) -> Result<Self, AllocError>
        ensures fresh { IfOk result (λ disk. IsFresh (replicate size 0) (⟦<MemDisk<A> as Disk>⟧.medium disk)) }
        ensures size { IfOk result (λ disk. (⟦<MemDisk<A> as Disk>⟧.medium disk).size ≡ size) }
        ensures honest { IfOk result (λ disk. (⟦<MemDisk<A> as Disk>⟧.medium disk).honest) }
        ensures counted { IfOk result (λ disk. (⟦<MemDisk<A> as Disk>⟧.medium disk).failures ≡ no_failures) }
    {
        Ok(MemDisk::of(vec![in alloc; 0; size as usize]?))
    }

    /// A disk that holds an image, all of it synced.
    pub fn of(bytes: Vec<u8, A>) -> Self
        ensures fresh { IsFresh bytes.items (⟦<MemDisk<A> as Disk>⟧.medium result) }
        ensures size { (⟦<MemDisk<A> as Disk>⟧.medium result).size ≡ length bytes.items }
        ensures honest { (⟦<MemDisk<A> as Disk>⟧.medium result).honest }
        ensures counted { (⟦<MemDisk<A> as Disk>⟧.medium result).failures ≡ no_failures }
    {
        let past = Past::none().after(&DiskEvent::Began(&bytes));
        MemDisk { bytes, past }
    }

    /// What a read gives now, all of it.
    pub fn bytes(&self) -> &[u8]
        ensures { result.now ≡ (⟦<MemDisk<A> as Disk>⟧.medium self.now).bytes }
    {
        &self.bytes
    }
}

impl<A: Allocator> Disk for MemDisk<A> {
    ghost medium = { λ disk.
        medium_of no_failures (moment_now disk.past.behind disk.bytes.items) disk.past.behind.moments };

    ghost harsh = { λ disk. ⊤ };

    ghost sound = { λ disk honest.
        sound_of no_failures (moment_now disk.past.behind disk.bytes.items) disk.past.behind.moments };

    fn size(&self) -> u64 {
        self.bytes.len() as u64
    }

    /// It never fails.
    fn read(&mut self, at: u64, buf: &mut [u8]) -> Result<(), DiskFault>
        requires { at + length buf.old ≤ (⟦<MemDisk<A> as Disk>⟧.medium self.old).size }
        ensures always { IsOk result }
        ensures gives { (image : List ℕ) → MayBe (⟦<MemDisk<A> as Disk>⟧.medium self.new) image
            → MayBe (⟦<MemDisk<A> as Disk>⟧.medium self.old) image
            × OnOk result (buf.new ≡ piece at (length buf.old) image) }
        ensures disk { (⟦<MemDisk<A> as Disk>⟧.medium self.old).honest
            → Stays (⟦<MemDisk<A> as Disk>⟧.medium self.old) (⟦<MemDisk<A> as Disk>⟧.medium self.new) }
        ensures same { IsSame (⟦<MemDisk<A> as Disk>⟧.medium self.old) (⟦<MemDisk<A> as Disk>⟧.medium self.new) }
        ensures each { ⟦<MemDisk<A> as Disk>⟧.harsh self.old → ⟦<MemDisk<A> as Disk>⟧.harsh self.new
            × LeavesEach (⟦<MemDisk<A> as Disk>⟧.medium self.old) (⟦<MemDisk<A> as Disk>⟧.medium self.new) }
        ensures fault { IfErr result (λ fault. fault ≡ Read) }
        ensures called { Called (⟦<MemDisk<A> as Disk>⟧.medium self.old) (⟦<MemDisk<A> as Disk>⟧.medium self.new)
            (failed_call result) }
    {
        let at = at as usize;
        let end = at + buf.len();
        buf.copy_from_slice(&self.bytes[at..end]);
        Ok(())
    }

    /// It never fails. A crash may then leave any bytes in the range.
    fn write_rows(&mut self, at: u64, rows: &[&[u8]]) -> Result<(), DiskFault>
        requires { at + length (joined rows.now) ≤ (⟦<MemDisk<A> as Disk>⟧.medium self.old).size }
        ensures always { IsOk result }
        ensures disk { (⟦<MemDisk<A> as Disk>⟧.medium self.old).honest
            → Writes at (joined rows.now) (⟦<MemDisk<A> as Disk>⟧.medium self.old)
            (⟦<MemDisk<A> as Disk>⟧.medium self.new) result }
        ensures each { ⟦<MemDisk<A> as Disk>⟧.harsh self.old
            → ⟦<MemDisk<A> as Disk>⟧.harsh self.new
            × OnOk result (LeavesEachTorn at (length (joined rows.now)) (⟦<MemDisk<A> as Disk>⟧.medium self.old)
            (⟦<MemDisk<A> as Disk>⟧.medium self.new)) }
        ensures fault { IfErr result (λ fault. fault ≡ Write) }
        ensures called { Called (⟦<MemDisk<A> as Disk>⟧.medium self.old) (⟦<MemDisk<A> as Disk>⟧.medium self.new)
            (failed_call result) }
    {
        let event = DiskEvent::Wrote(&self.bytes, at, length_of(rows));
        self.past = self.past.after(&event);
        put_rows(&mut self.bytes, at, rows);
        Ok(())
    }

    /// It never fails.
    fn sync(&mut self) -> Result<(), DiskFault>
        ensures always { IsOk result }
        ensures disk { (⟦<MemDisk<A> as Disk>⟧.medium self.old).honest
            → Syncs (⟦<MemDisk<A> as Disk>⟧.medium self.old) (⟦<MemDisk<A> as Disk>⟧.medium self.new) result }
        ensures gives { (image : List ℕ) → MayBe (⟦<MemDisk<A> as Disk>⟧.medium self.new) image
            → MayBe (⟦<MemDisk<A> as Disk>⟧.medium self.old) image }
        ensures each { ⟦<MemDisk<A> as Disk>⟧.harsh self.old → ⟦<MemDisk<A> as Disk>⟧.harsh self.new }
        ensures fault { IfErr result (λ fault. fault ≡ Sync) }
        ensures called { Called (⟦<MemDisk<A> as Disk>⟧.medium self.old) (⟦<MemDisk<A> as Disk>⟧.medium self.new)
            (failed_call result) }
    {
        self.past = self.past.after(&DiskEvent::Synced(&self.bytes));
        Ok(())
    }
}
