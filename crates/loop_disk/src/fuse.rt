// A disk that fails from some call on, over another disk.
ghost use Rattle.std.specs.Prelude.{◌≡◌, ◌+◌, ◌-◌, ◌≤◌, ◌==◌, ◌↔◌, ℕ, List, length, OnOk, IfErr, IsErr};
ghost use Rattle.loop_disk.specs.declared.fault.DiskFault.TheVariants.{Read, Write, Sync};
ghost use Rattle.loop_disk.specs.Rows.{joined};
ghost use Rattle.loop_disk.specs.Medium.{MayBe, piece, LeavesEach, LeavesEachTorn};
ghost use Rattle.loop_disk.specs.Calls.{Called, Stays, Writes, Syncs, failed_call, no_failures, with_failed};
ghost use Rattle.loop_disk.specs.Sound.{sound_recounted};
ghost use Rattle.loop_disk.specs.Failing.{FailsOrPasses};

use crate::{Disk, DiskFault, Failures};

/// Passes a count of calls to the disk beneath it, and fails every later one in its place. `size` isn't counted
/// as a call.
#[derive(Drop)]
pub struct FuseDisk<D> {
    /// The disk beneath.
    pub inner: D,
    /// How many calls it will still pass.
    pub left: u64,
    /// The calls that failed, here or in the disk beneath.
    pub failures: Failures,
}

impl<D> FuseDisk<D> {
    /// A disk that passes so many calls.
    pub fn new(inner: D, calls: u64) -> Self
        ensures inner { result.inner ≡ inner }
        ensures left { result.left ≡ calls }
        ensures failures { result.failures ≡ no_failures }
    {
        FuseDisk {
            inner,
            left: calls,
            failures: Failures::none(),
        }
    }

    /// The disk beneath, as the calls that passed left it.
    pub fn into_inner(self) -> D
        ensures { result ≡ self.inner }
    {
        let FuseDisk {
            inner,
            left: _,
            failures: _,
        } = self;
        inner
    }

    // Lets a call pass, or fails it.
    fn admit(&mut self, fault: DiskFault) -> Result<(), DiskFault>
        ensures answer { IfErr result (λ e. e ≡ fault) }
        ensures counted { self.new.failures ≡ with_failed (failed_call result) self.old.failures }
        ensures inner { self.new.inner ≡ self.old.inner }
        ensures spent { IsErr result ↔ (self.old.left ≡ 0) }
        ensures left { self.new.left ≡ self.old.left - 1 }
    {
        if self.left == 0 {
            self.failures.count(fault);
            return Err(fault);
        }
        self.left -= 1;
        Ok(())
    }
}

impl<D: Disk> Disk for FuseDisk<D> {
    ghost medium = { λ fuse. record (D.medium fuse.inner) { failures = fuse.failures } };

    ghost harsh = { λ disk. D.harsh disk.inner };

    ghost sound = { λ fuse honest. sound_recounted (D.medium fuse.inner) fuse.failures (D.sound fuse.inner honest) };

    fn size(&self) -> u64 {
        self.inner.size()
    }

    fn read(&mut self, at: u64, buf: &mut [u8]) -> Result<(), DiskFault>
        requires { at + length buf.old ≤ (D.medium self.old.inner).size }
        ensures gives { (image : List ℕ) → MayBe (⟦<FuseDisk<D> as Disk>⟧.medium self.new) image
            → MayBe (⟦<FuseDisk<D> as Disk>⟧.medium self.old) image
            × OnOk result (buf.new ≡ piece at (length buf.old) image) }
        ensures disk { (D.medium self.old.inner).honest
            → Stays (⟦<FuseDisk<D> as Disk>⟧.medium self.old) (⟦<FuseDisk<D> as Disk>⟧.medium self.new) }
        ensures which { FailsOrPasses D.medium (self.old.left == 0) self.old.inner self.new.inner result }
        ensures left { self.new.left ≡ self.old.left - 1 }
        ensures each { D.harsh self.old.inner
            → D.harsh self.new.inner
            × LeavesEach (⟦<FuseDisk<D> as Disk>⟧.medium self.old) (⟦<FuseDisk<D> as Disk>⟧.medium self.new) }
        ensures fault { IfErr result (λ fault. fault ≡ Read) }
        ensures called { Called (⟦<FuseDisk<D> as Disk>⟧.medium self.old) (⟦<FuseDisk<D> as Disk>⟧.medium self.new)
            (failed_call result) }
    {
        self.admit(DiskFault::Read)?;
        let outcome = self.inner.read(at, buf);
        self.failures.note(outcome)
    }

    fn write_rows(&mut self, at: u64, rows: &[&[u8]]) -> Result<(), DiskFault>
        requires { at + length (joined rows.now) ≤ (D.medium self.old.inner).size }
        ensures disk { (D.medium self.old.inner).honest
            → Writes at (joined rows.now) (⟦<FuseDisk<D> as Disk>⟧.medium self.old)
            (⟦<FuseDisk<D> as Disk>⟧.medium self.new) result }
        ensures which { FailsOrPasses D.medium (self.old.left == 0) self.old.inner self.new.inner result }
        ensures left { self.new.left ≡ self.old.left - 1 }
        ensures each { D.harsh self.old.inner
            → D.harsh self.new.inner
            × OnOk result (LeavesEachTorn at (length (joined rows.now)) (⟦<FuseDisk<D> as Disk>⟧.medium self.old)
            (⟦<FuseDisk<D> as Disk>⟧.medium self.new)) }
        ensures fault { IfErr result (λ fault. fault ≡ Write) }
        ensures called { Called (⟦<FuseDisk<D> as Disk>⟧.medium self.old) (⟦<FuseDisk<D> as Disk>⟧.medium self.new)
            (failed_call result) }
    {
        self.admit(DiskFault::Write)?;
        let outcome = self.inner.write_rows(at, rows);
        self.failures.note(outcome)
    }

    fn sync(&mut self) -> Result<(), DiskFault>
        ensures disk { (D.medium self.old.inner).honest
            → Syncs (⟦<FuseDisk<D> as Disk>⟧.medium self.old) (⟦<FuseDisk<D> as Disk>⟧.medium self.new) result }
        ensures gives { (image : List ℕ) → MayBe (⟦<FuseDisk<D> as Disk>⟧.medium self.new) image
            → MayBe (⟦<FuseDisk<D> as Disk>⟧.medium self.old) image }
        ensures which { FailsOrPasses D.medium (self.old.left == 0) self.old.inner self.new.inner result }
        ensures left { self.new.left ≡ self.old.left - 1 }
        ensures each { D.harsh self.old.inner → D.harsh self.new.inner }
        ensures fault { IfErr result (λ fault. fault ≡ Sync) }
        ensures called { Called (⟦<FuseDisk<D> as Disk>⟧.medium self.old) (⟦<FuseDisk<D> as Disk>⟧.medium self.new)
            (failed_call result) }
    {
        self.admit(DiskFault::Sync)?;
        let outcome = self.inner.sync();
        self.failures.note(outcome)
    }
}
