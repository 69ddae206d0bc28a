//! A log that is carried out.
ghost use Rattle.std.specs.Prelude.{◌≡◌, ◌∷◌, [], IfSome};

use loop_disk::{DeviceCall, Disk, MemDisk};
use loop_overlay::carry_out;
use std::alloc::Global;

/// A write and a sync that were noted, made on a new disk of four bytes.
pub fn a_log_is_carried_out(alloc: Global) -> Option<MemDisk>
    ensures { IfSome result (λ disk. (⟦<MemDisk as Disk>⟧.medium disk).bytes ≡ 0 ∷ 7 ∷ 8 ∷ 0 ∷ []) }
{
    let Ok(mut disk) = MemDisk::new(alloc, 4) else {
        return None;
    };
    let Ok(bytes) = Vec::from_slice(alloc, &[7, 8]) else {
        return None;
    };
    let calls = [DeviceCall::Write(1, bytes), DeviceCall::Sync];
    match carry_out(&mut disk, &calls) {
        Ok(()) => Some(disk),
        Err(_) => None,
    }
}
