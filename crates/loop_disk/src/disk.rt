// A disk of fixed size: what its calls do, and what a crash may leave. docs/disk-model.md says why it is so.
ghost use Rattle.std.specs.Prelude.{◌≡◌, ◌+◌, ◌≤◌, ℕ, List, length, OnOk, IfErr};
ghost use Rattle.loop_disk.specs.declared.fault.DiskFault.TheVariants.{Read, Write, Sync};
ghost use Rattle.loop_disk.specs.Medium.{Medium, MayBe, piece, IsSound, LeavesEach, LeavesEachTorn};
ghost use Rattle.loop_disk.specs.Rows.{joined};
ghost use Rattle.loop_disk.specs.Calls.{Called, Stays, Writes, Syncs, failed_call};

use crate::DiskFault;

/// A disk of fixed size, in bytes. The model is this project's own.
///
/// What is written may be lost in part until a sync has answered Ok: a crash leaves any bytes in each range written
/// since the last such sync, and the present bytes elsewhere. A crash may come before, within or after a call.
///
/// What `read`, `write_at` and `sync` say of bytes and images holds of an honest disk. `called` holds of every disk: it
/// keeps its size, honesty is neither gained nor lost, and each failed call is counted. `gives` holds of every disk
/// too: until the next write, an image that agrees with what was read has those bytes there.
pub trait Disk {
    /// What it is: its size, whether it is honest, which calls have failed, what is stored on it, which images agree
    /// with what was read, and what a crash may leave.
    ghost medium: { Self → Medium };

    /// Whether it is as bad as the rules allow: a crash may leave every image that they name, and not only some.
    ghost harsh: { Self → Type 0 };

    /// How many bytes it has. This isn't counted as a call, and can't fail.
    fn size(&self) -> u64
        ensures { result ≡ (medium self.now).size };

    /// Fills the buffer with the bytes from `at` on. After a failure it may hold any bytes, and the disk is as it was.
    fn read(&mut self, at: u64, buf: &mut [u8]) -> Result<(), DiskFault>
        requires { at + length buf.old ≤ (medium self.old).size }
        ensures gives { (image : List ℕ) → MayBe (medium self.new) image → MayBe (medium self.old) image
            × OnOk result (buf.new ≡ piece at (length buf.old) image) }
        ensures disk { (medium self.old).honest → Stays (medium self.old) (medium self.new) }
        ensures each { harsh self.old → harsh self.new × LeavesEach (medium self.old) (medium self.new) }
        ensures fault { IfErr result (λ fault. fault ≡ Read) }
        ensures called { Called (medium self.old) (medium self.new) (failed_call result) };

    /// Writes rows of bytes from `at` on, one after the other: one write of all their bytes.
    fn write_rows(&mut self, at: u64, rows: &[&[u8]]) -> Result<(), DiskFault>
        requires { at + length (joined rows.now) ≤ (medium self.old).size }
        ensures disk { (medium self.old).honest
            → Writes at (joined rows.now) (medium self.old) (medium self.new) result }
        ensures each { harsh self.old → harsh self.new
            × OnOk result (LeavesEachTorn at (length (joined rows.now)) (medium self.old) (medium self.new)) }
        ensures fault { IfErr result (λ fault. fault ≡ Write) }
        ensures called { Called (medium self.old) (medium self.new) (failed_call result) };

    /// Writes the bytes from `at` on. Until a sync, a crash may leave any bytes in their place.
    /// After a failure their place may hold any bytes.
    fn write_at(&mut self, at: u64, bytes: &[u8]) -> Result<(), DiskFault>
        requires { at + length bytes.now ≤ (medium self.old).size }
        ensures disk { (medium self.old).honest → Writes at bytes.now (medium self.old) (medium self.new) result }
        ensures each { harsh self.old
            → harsh self.new × OnOk result (LeavesEachTorn at (length bytes.now) (medium self.old) (medium self.new)) }
        ensures fault { IfErr result (λ fault. fault ≡ Write) }
        ensures called { Called (medium self.old) (medium self.new) (failed_call result) }
    {
        self.write_rows(at, &[bytes])
    }

    /// After it, a crash leaves what a read gives. After a failure nothing is settled.
    fn sync(&mut self) -> Result<(), DiskFault>
        ensures disk { (medium self.old).honest → Syncs (medium self.old) (medium self.new) result }
        ensures gives { (image : List ℕ) → MayBe (medium self.new) image → MayBe (medium self.old) image }
        ensures each { harsh self.old → harsh self.new }
        ensures fault { IfErr result (λ fault. fault ≡ Sync) }
        ensures called { Called (medium self.old) (medium self.new) (failed_call result) };

    ghost sound: { (disk : Self) → (medium disk).honest → IsSound (medium disk) };
}
