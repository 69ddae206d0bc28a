//! Disks: a crash keeps what was synced, and stores in turn.
ghost use Rattle.std.specs.Prelude.{◌≡◌, ◌≤◌, ◌<◌, ◌+◌, ◌^◌, ◌∷◌, [], IfSome, OnOk, get_or};
ghost use Rattle.loop_disk.specs.Medium.{IsSettled, LeavesOnly};
ghost use Rattle.loop_disk.specs.Calls.{Called, failed_call};
ghost use Rattle.loop_uses.specs.Disk.{TornOfThree, three_bytes};

use loop_disk::{
    CrashDisk, Disk, DiskFault, MemDisk, Spoil, length_of, store, store_in_turn, store_rows_in_turn,
};
use std::alloc::Allocator;

/// Two bytes are written and synced, and a third is written after them: a crash keeps the two.
pub fn a_crash_keeps_what_was_synced<A: Allocator + Copy>(alloc: A) -> Option<MemDisk<A>>
    ensures { IfSome result (λ disk. let bytes = (⟦<MemDisk<A> as Disk>⟧.medium disk).bytes in
        (get_or bytes 1 0 ≡ 7) × (get_or bytes 2 0 ≡ 8) × (get_or bytes 4 0 ≡ 0)) }
{
    let Ok(mut disk) = CrashDisk::new(alloc, 6) else {
        return None;
    };
    let Ok(()) = disk.write_at(1, &[7, 8]) else {
        return None;
    };
    let Ok(()) = disk.sync() else {
        return None;
    };
    let Ok(()) = disk.write_at(3, &[9]) else {
        return None;
    };
    match disk.crash(3, Spoil::Zero) {
        Ok(crashed) => Some(crashed),
        Err(_) => None,
    }
}

// A caller like those in the layers above: it knows nothing of the disk but the trait.
fn store_three<D: Disk>(disk: &mut D, at: u64, x: u8, y: u8, z: u8) -> Result<(), DiskFault>
    requires inside { at + 3 ≤ (D.medium disk.old).size }
    requires fits { at + 3 < 2 ^ 64 }
    requires settled { (D.medium disk.old).honest → IsSettled (D.medium disk.old) }
    ensures moments { (D.medium disk.old).honest
        → LeavesOnly (D.medium disk.old) (D.medium disk.new) (TornOfThree at x y (D.medium disk.old).bytes) }
    ensures stored { (D.medium disk.old).honest
        → OnOk result ((D.medium disk.new).bytes ≡ three_bytes at x y z (D.medium disk.old).bytes) }
    ensures settled { (D.medium disk.old).honest → OnOk result (IsSettled (D.medium disk.new)) }
    ensures called { Called (D.medium disk.old) (D.medium disk.new) (failed_call result) }
{
    store_in_turn(disk, at, &[x], at + 1, &[y])?;
    store(disk, at + 2, &[z])
}

/// Three bytes are stored one after the other on a new disk of five.
pub fn three_are_stored_in_turn<A: Allocator>(alloc: A) -> Option<MemDisk<A>>
    ensures { IfSome result (λ disk. (⟦<MemDisk<A> as Disk>⟧.medium disk).bytes ≡ 0 ∷ 0 ∷ 7 ∷ 8 ∷ 9 ∷ []) }
{
    let Ok(mut disk) = MemDisk::new(alloc, 5) else {
        return None;
    };
    match store_three(&mut disk, 2, 7, 8, 9) {
        Ok(()) => Some(disk),
        Err(_) => None,
    }
}

/// Rows are stored before their gate, which lies behind all their bytes.
pub fn rows_are_stored_before_their_gate<A: Allocator>(alloc: A) -> Option<MemDisk<A>>
    ensures { IfSome result (λ disk. (⟦<MemDisk<A> as Disk>⟧.medium disk).bytes ≡ 7 ∷ 8 ∷ 9 ∷ 165 ∷ []) }
{
    let Ok(mut disk) = MemDisk::new(alloc, 4) else {
        return None;
    };
    let (first, second) = ([7, 8], [9]);
    let rows = [first.as_slice(), second.as_slice()];
    let gate = length_of(&rows) as u64;
    match store_rows_in_turn(&mut disk, 0, &rows, gate, &[0xA5]) {
        Ok(()) => Some(disk),
        Err(_) => None,
    }
}
