// What was written down of a disk, made on another.
ghost use Rattle.std.specs.Prelude.{◌≡◌, ◌+◌, ℕ, List, All, length, map};
ghost use Rattle.loop_disk.specs.Calls.{Called, failed_call, no_failures};
ghost use Rattle.loop_disk.specs.Crashing.{IsWithin, call_of, medium_after};
ghost use Rattle.loop_disk.specs.History.{Moment};
ghost use Rattle.loop_disk.specs.Medium.{IsFresh};
ghost use Rattle.loop_overlay.specs.Log.{Carries, CarriesOut, StandsAt};

use loop_disk::{DeviceCall, Disk, DiskFault};
use std::alloc::Allocator;

// Makes a call on a disk.
fn carry_out_call<D: Disk, A: Allocator>(
    disk: &mut D,
    call: &DeviceCall<Vec<u8, A>>,
) -> Result<(), DiskFault>
    requires { IsWithin (D.medium disk.old).size (call_of (λ v. v.items) call.now) }
    ensures carries { (D.medium disk.old).honest → (m : Moment) → StandsAt m (D.medium disk.old)
        → IsWithin (length m.bytes) (call_of (λ v. v.items) call.now)
        → Carries m (call_of (λ v. v.items) call.now) (D.medium disk.old) (D.medium disk.new) result }
    ensures called { Called (D.medium disk.old) (D.medium disk.new) (failed_call result) }
{
    match call {
        DeviceCall::Read => Ok(()),
        DeviceCall::Write(at, bytes) => disk.write_at(*at, bytes),
        DeviceCall::Sync => disk.sync(),
    }
}

/// Makes the writes and syncs of a log on another disk, one after the other, until one fails. Reads are left out.
///
/// The disk has to hold what the log's disk began with, all of it synced, and nobody else may write to it. Then a crash
/// at any moment leaves what one of the log's disk might have left: so what is proved of the calls of that disk holds
/// of this one.
pub fn carry_out<D: Disk, A: Allocator>(
    disk: &mut D,
    calls: &[DeviceCall<Vec<u8, A>>],
) -> Result<(), DiskFault>
    requires { All (IsWithin (D.medium disk.old).size) (map (call_of (λ v. v.items)) calls.now) }
    ensures carried { (D.medium disk.old).honest → (start : List ℕ) → IsFresh start (D.medium disk.old)
        → CarriesOut (medium_after (record {
          start = start;
          calls = map (call_of (λ v. v.items)) calls.now;
          failures = no_failures;
        })) (D.medium disk.old) (D.medium disk.new) result }
    ensures called { Called (D.medium disk.old) (D.medium disk.new) (failed_call result) }
{
    for call in calls {
        carry_out_call(disk, call)?;
    }
    Ok(())
}
