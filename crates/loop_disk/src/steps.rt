// Writes that are on the disk when they answer Ok.
ghost use Rattle.std.specs.Prelude.{◌≡◌, ◌+◌, ◌≤◌, IfErr, length, true};
ghost use Rattle.loop_disk.specs.Medium.{IsSettled};
ghost use Rattle.loop_disk.specs.Calls.{Called, failed_call, is_write_or_sync};
ghost use Rattle.loop_disk.specs.Rows.{joined};
ghost use Rattle.loop_disk.specs.Steps.{Stores, StoresInTurn};

use crate::{Disk, DiskFault};

/// Writes the bytes from `at` on, and syncs: two device calls. At Ok the bytes are on the disk. After a failure, as at
/// each moment during the call, their place may hold any bytes, and everything else is as it was.
pub fn store<D: Disk>(disk: &mut D, at: u64, bytes: &[u8]) -> Result<(), DiskFault>
    requires { at + length bytes.now ≤ (D.medium disk.old).size }
    ensures disk { (D.medium disk.old).honest → Stores at bytes.now (D.medium disk.old) (D.medium disk.new) result }
    ensures fault { IfErr result (λ fault. is_write_or_sync fault ≡ true) }
    ensures called { Called (D.medium disk.old) (D.medium disk.new) (failed_call result) }
{
    disk.write_at(at, bytes)?;
    disk.sync()
}

// Does the same with rows of bytes, one after the other.
fn store_rows<D: Disk>(disk: &mut D, at: u64, rows: &[&[u8]]) -> Result<(), DiskFault>
    requires { at + length (joined rows.now) ≤ (D.medium disk.old).size }
    ensures disk { (D.medium disk.old).honest
        → Stores at (joined rows.now) (D.medium disk.old) (D.medium disk.new) result }
    ensures fault { IfErr result (λ fault. is_write_or_sync fault ≡ true) }
    ensures called { Called (D.medium disk.old) (D.medium disk.new) (failed_call result) }
{
    disk.write_rows(at, rows)?;
    disk.sync()
}

/// Stores bytes and then, once they are on the disk, others, such as the gates that say that the first are there: four
/// device calls. Before it a crash must leave the present bytes and nothing else; at Ok it does so again. The two
/// places may overlap.
pub fn store_in_turn<D: Disk>(
    disk: &mut D,
    at: u64,
    bytes: &[u8],
    gate: u64,
    gates: &[u8],
) -> Result<(), DiskFault>
    requires inside { at + length bytes.now ≤ (D.medium disk.old).size }
    requires gate { gate + length gates.now ≤ (D.medium disk.old).size }
    requires settled { (D.medium disk.old).honest → IsSettled (D.medium disk.old) }
    ensures disk { (D.medium disk.old).honest
        → StoresInTurn at bytes.now gate gates.now (D.medium disk.old) (D.medium disk.new) result }
    ensures fault { IfErr result (λ fault. is_write_or_sync fault ≡ true) }
    ensures called { Called (D.medium disk.old) (D.medium disk.new) (failed_call result) }
{
    store(disk, at, bytes)?;
    store(disk, gate, gates)
}

/// Does the same with rows of bytes as the first.
pub fn store_rows_in_turn<D: Disk>(
    disk: &mut D,
    at: u64,
    rows: &[&[u8]],
    gate: u64,
    gates: &[u8],
) -> Result<(), DiskFault>
    requires inside { at + length (joined rows.now) ≤ (D.medium disk.old).size }
    requires gate { gate + length gates.now ≤ (D.medium disk.old).size }
    requires settled { (D.medium disk.old).honest → IsSettled (D.medium disk.old) }
    ensures disk { (D.medium disk.old).honest
        → StoresInTurn at (joined rows.now) gate gates.now (D.medium disk.old) (D.medium disk.new) result }
    ensures fault { IfErr result (λ fault. is_write_or_sync fault ≡ true) }
    ensures called { Called (D.medium disk.old) (D.medium disk.new) (failed_call result) }
{
    store_rows(disk, at, rows)?;
    store(disk, gate, gates)
}
