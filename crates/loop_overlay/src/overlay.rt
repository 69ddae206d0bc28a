// A disk over another that is never written to.
ghost use Rattle.std.specs.Prelude.{◌≡◌, ◌+◌, ◌≤◌, ℕ, List, [], IfErr, IsOk, OnErr, OnOk, length};
ghost use Rattle.loop_disk.specs.declared.fault.DiskFault.TheVariants.{Read, Write, Sync};
ghost use Rattle.loop_disk.specs.Medium.{LeavesEach, LeavesEachTorn, MayBe, piece};
ghost use Rattle.loop_disk.specs.Rows.{joined};
ghost use Rattle.loop_disk.specs.Calls.{Called, Stays, Syncs, Writes, failed_call, no_failures, with_failed};
ghost use Rattle.loop_overlay.specs.Layers.{Layered, above};
ghost use Rattle.loop_overlay.specs.Sound.{sound_overlaid};

use crate::overlaid_write::{OverlaidWrite, add_write, lay_all};
use loop_disk::{Disk, DiskFault, Failures, join_rows};
use std::alloc::{Allocator, Global};
use std::marker::Model;

/// A disk over another that is never written to or synced: its writes stay in memory, and a read gives the bytes of
/// the disk beneath with these over them, the later over the earlier. Nothing is merged. So each write takes the memory
/// of its bytes until the overlay is dropped, and a read passes over all of them: it is for looks and trials of few
/// writes.
///
/// It models a disk held in memory, and no loss of power: by its contracts a crash leaves what a read gives, without a
/// sync too. In truth a stop of the program leaves the disk beneath, as it was. So it says nothing about what a loss of
/// power would leave of that disk.
#[derive(Drop)]
pub struct OverlayDisk<D, A: Allocator = Global> {
    alloc: A,
    inner: D,
    writes: Vec<OverlaidWrite<A>, A>,
    failures: Failures,
}

impl<D, A: Allocator> Model for OverlayDisk<D, A> {
    ghost Value = { Layered D };

    ghost view = { λ overlay.
        record { disk = overlay.inner; writes = overlay.writes.items; failures = overlay.failures } };
}

impl<D, A: Allocator + Copy> OverlayDisk<D, A> {
    /// A disk over this one, with nothing written. It takes no memory; each write takes some.
    pub fn new(alloc: A, inner: D) -> Self
        ensures { result ≡ record { disk = inner; writes = []; failures = no_failures } }
    {
        OverlayDisk {
            alloc,
            inner,
            writes: Vec::new(alloc),
            failures: Failures::none(),
        }
    }

    /// How many writes it holds.
    pub fn written(&self) -> usize
        ensures { result ≡ length self.now.writes }
    {
        self.writes.len()
    }

    /// The disk beneath, as it was but for the reads. The writes are gone.
    pub fn into_inner(self) -> D
        ensures { result ≡ self.disk }
    {
        let OverlayDisk {
            alloc: _,
            inner,
            writes: _,
            failures: _,
        } = self;
        inner
    }
}

impl<D: Disk, A: Allocator + Copy> Disk for OverlayDisk<D, A> {
    ghost medium = { above D.medium };

    ghost harsh = { λ overlay. ⊥ };

    ghost sound = { λ overlay honest.
        sound_overlaid (D.medium overlay.disk) overlay.writes overlay.failures (D.sound overlay.disk honest) };

    fn size(&self) -> u64 {
        self.inner.size()
    }

    /// It fails where the read of the disk beneath does.
    fn read(&mut self, at: u64, buf: &mut [u8]) -> Result<(), DiskFault>
        requires { at + length buf.old ≤ (D.medium self.old.disk).size }
        ensures gives { (image : List ℕ) → MayBe (above D.medium self.new) image
            → MayBe (above D.medium self.old) image
            × OnOk result (buf.new ≡ piece at (length buf.old) image) }
        ensures disk { (D.medium self.old.disk).honest → Stays (above D.medium self.old) (above D.medium self.new) }
        ensures each { ⊥ → ⊥ × LeavesEach (above D.medium self.old) (above D.medium self.new) }
        ensures fault { IfErr result (λ fault. fault ≡ Read) }
        ensures called { Called (above D.medium self.old) (above D.medium self.new) (failed_call result) }
        ensures beneath { (D.medium self.old.disk).honest → Stays (D.medium self.old.disk) (D.medium self.new.disk) }
        ensures passes { Called (D.medium self.old.disk) (D.medium self.new.disk) (failed_call result) }
    {
        let outcome = self.inner.read(at, buf);
        self.failures.note(outcome)?;
        lay_all(&self.writes, at, buf);
        Ok(())
    }

    /// It fails where memory for the write is refused. Then nothing has changed but the count of failed calls.
    fn write_at(&mut self, at: u64, bytes: &[u8]) -> Result<(), DiskFault>
        requires { at + length bytes.now ≤ (D.medium self.old.disk).size }
        ensures disk { (D.medium self.old.disk).honest
            → Writes at bytes.now (above D.medium self.old) (above D.medium self.new) result }
        ensures each { ⊥ → ⊥
            × OnOk result (LeavesEachTorn at (length bytes.now) (above D.medium self.old) (above D.medium self.new)) }
        ensures fault { IfErr result (λ fault. fault ≡ Write) }
        ensures called { Called (above D.medium self.old) (above D.medium self.new) (failed_call result) }
        ensures beneath { self.new.disk ≡ self.old.disk }
        ensures refused { OnErr result (self.new
            ≡ record self.old { failures = with_failed (failed_call result) self.old.failures }) }
    {
        match add_write(self.alloc, &mut self.writes, at, bytes) {
            Ok(()) => Ok(()),
            Err(_) => self.failures.note(Err(DiskFault::Write)),
        }
    }

    /// It holds the joined bytes as one write. It fails where memory for them is refused.
    fn write_rows(&mut self, at: u64, rows: &[&[u8]]) -> Result<(), DiskFault>
        requires { at + length (joined rows.now) ≤ (D.medium self.old.disk).size }
        ensures disk { (D.medium self.old.disk).honest
            → Writes at (joined rows.now) (above D.medium self.old) (above D.medium self.new) result }
        ensures each { ⊥ → ⊥ × OnOk result
            (LeavesEachTorn at (length (joined rows.now)) (above D.medium self.old) (above D.medium self.new)) }
        ensures fault { IfErr result (λ fault. fault ≡ Write) }
        ensures called { Called (above D.medium self.old) (above D.medium self.new) (failed_call result) }
        ensures beneath { self.new.disk ≡ self.old.disk }
        ensures refused { OnErr result (self.new
            ≡ record self.old { failures = with_failed (failed_call result) self.old.failures }) }
    {
        match join_rows(self.alloc, rows) {
            Ok(bytes) => self.write_at(at, &bytes),
            Err(_) => self.failures.note(Err(DiskFault::Write)),
        }
    }

    /// It never fails, changes nothing, and doesn't sync the disk beneath.
    fn sync(&mut self) -> Result<(), DiskFault>
        ensures disk { (D.medium self.old.disk).honest
            → Syncs (above D.medium self.old) (above D.medium self.new) result }
        ensures gives { (image : List ℕ) → MayBe (above D.medium self.new) image
            → MayBe (above D.medium self.old) image }
        ensures each { ⊥ → ⊥ }
        ensures fault { IfErr result (λ fault. fault ≡ Sync) }
        ensures called { Called (above D.medium self.old) (above D.medium self.new) (failed_call result) }
        ensures always { IsOk result }
        ensures beneath { self.new ≡ self.old }
    {
        Ok(())
    }
}
