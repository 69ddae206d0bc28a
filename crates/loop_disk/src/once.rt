// A disk that fails one call, over another disk.
ghost use Rattle.std.specs.Prelude.{◌≡◌, ◌+◌, ◌-◌, ◌≤◌, ℕ, List, length, take, true, false, OnOk, Err, IsErr, Some, None, IfErr};
ghost use Rattle.loop_disk.specs.declared.fault.DiskFault.TheVariants.{Read, Write, Sync};
ghost use Rattle.loop_disk.specs.Rows.{joined};
ghost use Rattle.loop_disk.specs.Medium.{MayBe, piece, with_bytes_at, LeavesEach, LeavesEachTorn};
ghost use Rattle.loop_disk.specs.Calls.{Called, Stays, Writes, Syncs, failed_call, no_failures, with_failed};
ghost use Rattle.loop_disk.specs.Sound.{sound_recounted};
ghost use Rattle.loop_disk.specs.Failing.{FailsOrPasses, IsTorn, Tears, is_due, left_after};

use crate::{Disk, DiskFault, Failures};

/// Fails one call in the place of the disk beneath it, and passes all others. `size` isn't counted as a call.
#[derive(Drop)]
pub struct OnceDisk<D> {
    /// The disk beneath.
    pub inner: D,
    /// How many calls pass before the one that fails, if it is still to come.
    pub left: Option<u64>,
    /// How many bytes of a write that fails take effect, where it is to be torn.
    pub torn: Option<usize>,
    /// The calls that failed, here or in the disk beneath.
    pub failures: Failures,
}

impl<D> OnceDisk<D> {
    /// Fails the call of this number, counted from 0. That call doesn't reach the disk beneath.
    pub fn new(inner: D, call: u64) -> Self
        ensures inner { result.inner ≡ inner }
        ensures left { result.left ≡ Some call }
        ensures torn { result.torn ≡ None }
        ensures failures { result.failures ≡ no_failures }
    {
        OnceDisk {
            inner,
            left: Some(call),
            torn: None,
            failures: Failures::none(),
        }
    }

    /// As `new`, but if that call is a write, it is torn: its first `keep` bytes, all if it is shorter, take effect
    /// before it fails, and its whole range counts as written.
    pub fn torn(inner: D, call: u64, keep: usize) -> Self
        ensures inner { result.inner ≡ inner }
        ensures left { result.left ≡ Some call }
        ensures torn { result.torn ≡ Some keep }
        ensures failures { result.failures ≡ no_failures }
    {
        OnceDisk {
            inner,
            left: Some(call),
            torn: Some(keep),
            failures: Failures::none(),
        }
    }

    /// The disk beneath, as the calls left it.
    pub fn into_inner(self) -> D
        ensures { result ≡ self.inner }
    {
        let OnceDisk {
            inner,
            left: _,
            torn: _,
            failures: _,
        } = self;
        inner
    }

    // Counts a call. Returns whether it is the one that fails; later calls then pass.
    fn counts_down(&mut self) -> bool
        ensures due { result ≡ is_due self.old.left }
        ensures left { self.new.left ≡ left_after self.old.left }
        ensures inner { self.new.inner ≡ self.old.inner }
        ensures torn { self.new.torn ≡ self.old.torn }
        ensures failures { self.new.failures ≡ self.old.failures }
    {
        let due = self.left == Some(0);
        self.left = match self.left {
            None | Some(0) => None,
            Some(calls) => Some(calls - 1),
        };
        due
    }

    // Fails a call in the inner disk's place.
    fn fail(&mut self, fault: DiskFault) -> Result<(), DiskFault>
        ensures failed { result ≡ Err fault }
        ensures rest { self.new ≡ record self.old { failures = with_failed (Some fault) self.old.failures } }
    {
        self.failures.count(fault);
        Err(fault)
    }
}

impl<D: Disk> Disk for OnceDisk<D> {
    ghost medium = { λ once. record (D.medium once.inner) { failures = once.failures } };

    ghost harsh = { λ disk. D.harsh disk.inner };

    ghost sound = { λ once honest. sound_recounted (D.medium once.inner) once.failures (D.sound once.inner honest) };

    fn size(&self) -> u64 {
        self.inner.size()
    }

    fn read(&mut self, at: u64, buf: &mut [u8]) -> Result<(), DiskFault>
        requires { at + length buf.old ≤ (D.medium self.old.inner).size }
        ensures gives { (image : List ℕ) → MayBe (⟦<OnceDisk<D> as Disk>⟧.medium self.new) image
            → MayBe (⟦<OnceDisk<D> as Disk>⟧.medium self.old) image
            × OnOk result (buf.new ≡ piece at (length buf.old) image) }
        ensures disk { (D.medium self.old.inner).honest
            → Stays (⟦<OnceDisk<D> as Disk>⟧.medium self.old) (⟦<OnceDisk<D> as Disk>⟧.medium self.new) }
        ensures which { FailsOrPasses D.medium (is_due self.old.left) self.old.inner self.new.inner result }
        ensures next { (self.new.left ≡ left_after self.old.left) × (self.new.torn ≡ self.old.torn) }
        ensures each { D.harsh self.old.inner
            → D.harsh self.new.inner
            × LeavesEach (⟦<OnceDisk<D> as Disk>⟧.medium self.old) (⟦<OnceDisk<D> as Disk>⟧.medium self.new) }
        ensures fault { IfErr result (λ fault. fault ≡ Read) }
        ensures called { Called (⟦<OnceDisk<D> as Disk>⟧.medium self.old) (⟦<OnceDisk<D> as Disk>⟧.medium self.new)
            (failed_call result) }
    {
        if self.counts_down() {
            return self.fail(DiskFault::Read);
        }
        let outcome = self.inner.read(at, buf);
        self.failures.note(outcome)
    }

    fn write_rows(&mut self, at: u64, rows: &[&[u8]]) -> Result<(), DiskFault>
        requires { at + length (joined rows.now) ≤ (D.medium self.old.inner).size }
        ensures disk { (D.medium self.old.inner).honest
            → Writes at (joined rows.now) (⟦<OnceDisk<D> as Disk>⟧.medium self.old)
            (⟦<OnceDisk<D> as Disk>⟧.medium self.new) result }
        ensures which { (is_due self.old.left ≡ false
            → Called (D.medium self.old.inner) (D.medium self.new.inner) (failed_call result))
            × (is_due self.old.left ≡ true
            → IsErr result × (self.old.torn ≡ None → self.new.inner ≡ self.old.inner)) }
        ensures kept { (D.medium self.old.inner).honest → is_due self.old.left ≡ true → (keep : ℕ)
            → self.old.torn ≡ Some keep
            → IsTorn (D.harsh self.old.inner) at (joined rows.now) keep (D.medium self.old.inner)
            (D.medium self.new.inner) result }
        ensures next { (self.new.left ≡ left_after self.old.left) × (self.new.torn ≡ self.old.torn) }
        ensures each { D.harsh self.old.inner
            → D.harsh self.new.inner
            × OnOk result (LeavesEachTorn at (length (joined rows.now)) (⟦<OnceDisk<D> as Disk>⟧.medium self.old)
            (⟦<OnceDisk<D> as Disk>⟧.medium self.new)) }
        ensures fault { IfErr result (λ fault. fault ≡ Write) }
        ensures called { Called (⟦<OnceDisk<D> as Disk>⟧.medium self.old) (⟦<OnceDisk<D> as Disk>⟧.medium self.new)
            (failed_call result) }
    {
        if !self.counts_down() {
            let outcome = self.inner.write_rows(at, rows);
            return self.failures.note(outcome);
        }
        if let Some(keep) = self.torn {
            // Dropped: this write fails in any case, and that is what it answers.
            match tear_rows(&mut self.inner, at, rows, keep) {
                Ok(()) | Err(_) => (),
            }
        }
        self.fail(DiskFault::Write)
    }

    fn sync(&mut self) -> Result<(), DiskFault>
        ensures disk { (D.medium self.old.inner).honest
            → Syncs (⟦<OnceDisk<D> as Disk>⟧.medium self.old) (⟦<OnceDisk<D> as Disk>⟧.medium self.new) result }
        ensures gives { (image : List ℕ) → MayBe (⟦<OnceDisk<D> as Disk>⟧.medium self.new) image
            → MayBe (⟦<OnceDisk<D> as Disk>⟧.medium self.old) image }
        ensures which { FailsOrPasses D.medium (is_due self.old.left) self.old.inner self.new.inner result }
        ensures next { (self.new.left ≡ left_after self.old.left) × (self.new.torn ≡ self.old.torn) }
        ensures each { D.harsh self.old.inner → D.harsh self.new.inner }
        ensures fault { IfErr result (λ fault. fault ≡ Sync) }
        ensures called { Called (⟦<OnceDisk<D> as Disk>⟧.medium self.old) (⟦<OnceDisk<D> as Disk>⟧.medium self.new)
            (failed_call result) }
    {
        if self.counts_down() {
            return self.fail(DiskFault::Sync);
        }
        let outcome = self.inner.sync();
        self.failures.note(outcome)
    }
}

// Writes the first bytes of a write, and the present bytes again in the places of the others. So all of them count as
// written.
fn tear<D: Disk>(disk: &mut D, at: u64, bytes: &[u8], keep: usize) -> Result<(), DiskFault>
    requires { at + length bytes.now ≤ (D.medium disk.old).size }
    ensures disk { (D.medium disk.old).honest
        → Tears at (length bytes.now) (with_bytes_at at (take keep bytes.now) (D.medium disk.old).bytes)
        (D.medium disk.old) (D.medium disk.new) result }
    ensures harsh { D.harsh disk.old → D.harsh disk.new }
    ensures each { (D.medium disk.old).honest → D.harsh disk.old
        → OnOk result (LeavesEachTorn at (length bytes.now) (D.medium disk.old) (D.medium disk.new)) }
    ensures called { Called (D.medium disk.old) (D.medium disk.new) (failed_call result) }
{
    let keep = keep.min(bytes.len());
    disk.write_at(at, &bytes[..keep])?;
    rewrite(disk, at, keep, bytes.len())
}

// Writes the first bytes of rows, and the present bytes again in the places of the others.
fn tear_rows<D: Disk>(disk: &mut D, at: u64, rows: &[&[u8]], keep: usize) -> Result<(), DiskFault>
    requires { at + length (joined rows.now) ≤ (D.medium disk.old).size }
    ensures disk { (D.medium disk.old).honest
        → Tears at (length (joined rows.now)) (with_bytes_at at (take keep (joined rows.now)) (D.medium disk.old).bytes)
        (D.medium disk.old) (D.medium disk.new) result }
    ensures harsh { D.harsh disk.old → D.harsh disk.new }
    ensures each { (D.medium disk.old).honest → D.harsh disk.old
        → OnOk result (LeavesEachTorn at (length (joined rows.now)) (D.medium disk.old) (D.medium disk.new)) }
    ensures called { Called (D.medium disk.old) (D.medium disk.new) (failed_call result) }
{
    // The range ends on the disk, so its places are u64s, as the disk's size is.
    let _size = disk.size();
    let Some((first, others)) = rows.split_first() else {
        return Ok(());
    };
    tear(disk, at, first, keep)?;
    let left = keep.saturating_sub(first.len());
    tear_rows(disk, at + first.len() as u64, others, left)
}

// Writes the present bytes again in the places from `at + from` to `at + count`.
fn rewrite<D: Disk>(disk: &mut D, at: u64, from: usize, count: usize) -> Result<(), DiskFault>
    requires inside { at + count ≤ (D.medium disk.old).size }
    requires within { from ≤ count }
    ensures disk { (D.medium disk.old).honest
        → Tears at count (D.medium disk.old).bytes (D.medium disk.old) (D.medium disk.new) result }
    ensures harsh { D.harsh disk.old → D.harsh disk.new }
    ensures each { (D.medium disk.old).honest → D.harsh disk.old
        → OnOk result (LeavesEachTorn (at + from) (count - from) (D.medium disk.old) (D.medium disk.new)) }
    ensures called { Called (D.medium disk.old) (D.medium disk.new) (failed_call result) }
{
    // The range ends on the disk, so its places are u64s, as the disk's size is.
    let _size = disk.size();
    let mut chunk = [0; 512];
    let mut done = from;
    while done < count {
        let step = (count - done).min(512);
        rewrite_chunk(disk, at + done as u64, &mut chunk[..step])?;
        done += step;
    }
    Ok(())
}

// Writes the present bytes again, as many as the buffer holds.
fn rewrite_chunk<D: Disk>(disk: &mut D, at: u64, chunk: &mut [u8]) -> Result<(), DiskFault>
    requires { at + length chunk.old ≤ (D.medium disk.old).size }
    ensures disk { (D.medium disk.old).honest
        → Tears at (length chunk.old) (D.medium disk.old).bytes (D.medium disk.old) (D.medium disk.new) result }
    ensures each { D.harsh disk.old → D.harsh disk.new
        × OnOk result (LeavesEachTorn at (length chunk.old) (D.medium disk.old) (D.medium disk.new)) }
    ensures called { Called (D.medium disk.old) (D.medium disk.new) (failed_call result) }
{
    disk.read(at, chunk)?;
    disk.write_at(at, chunk)
}
