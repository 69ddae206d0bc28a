//! What a disk's image reads as, found with few reads and without pixels. docs/recovery.md says why it is so.

ghost use Rattle.std.specs.Prelude.{◌≡◌, Ok, Err, IfOk};
ghost use Rattle.loop_record.specs.Layout.{super_in};
ghost use Rattle.loop_record.specs.Reading.{reading};
ghost use Rattle.loop_store.specs.Fresh.{FitsDisk};
ghost use Rattle.loop_store.specs.Found.{Finds};
ghost use Rattle.loop_store.specs.Index.{IsFitting, IsRecoveredIn, SaysRecording};

use crate::StoreFault;
use crate::found::{check_slots, read_heads, read_super, read_table};
use crate::index::{Index, index_of, stamps_for};
use loop_disk::Disk;
use loop_record::{Damage, SuperHead, lacks_frame, next_after, repeats};
use loop_ring::SegmentIndex;
use std::alloc::Allocator;

// The index of what the image of a disk with this superblock reads as.
fn recover_parts<D: Disk, A: Allocator + Copy>(
    alloc: A,
    disk: &mut D,
    head: SuperHead,
) -> Result<Index<A>, StoreFault>
    requires fits { FitsDisk head.geometry (D.medium disk.old).size }
    ensures known { IfOk result (λ index. IsFitting index (D.medium disk.old).size × SaysRecording index) }
    ensures finds { Finds (λ image index. super_in image ≡ Ok head → IsRecoveredIn index image)
        (λ image fault. super_in image ≡ Ok head → reading image ≡ Err fault)
        (D.medium disk.old) (D.medium disk.new) result }
{
    let geometry = head.geometry;
    let heads = read_heads(alloc, disk, &geometry)?;
    let table = SegmentIndex::of(alloc, heads)?;
    let open = table.in_order();
    if repeats(open) {
        return Err(StoreFault::Damaged(Damage::RepeatedBlock));
    }
    if lacks_frame(&geometry, open) {
        return Err(StoreFault::Damaged(Damage::ClosedGate));
    }
    let mut stamps = stamps_for(alloc, &geometry)?;
    check_slots(disk, &geometry, open, stamps.as_mut_slice())?;
    let clips = read_table(disk, &geometry, head.version, open)?;
    let next = next_after(&geometry, open);
    Ok(index_of(head, table, clips, next, stamps))
}

/// The index of what a disk's image reads as: the geometry, the header of each segment, the clips and the next number.
///
/// It reads the superblock, each header, the first `HEAD_SIZE` bytes of each slot before the first closed gate of an
/// open segment, and the clip table. It writes nothing. It takes memory four times: for the headers, for the counts of
/// clips, for the open segments by block, which it sorts once, and for the stamps.
///
/// `NotFormatted` where the disk has no open superblock; `Damaged` with the first damage in the layout's order; `Disk`
/// where a read failed; `NoMemory`. After each of these the disk is as it was.
pub(crate) fn recover<D: Disk, A: Allocator + Copy>(
    alloc: A,
    disk: &mut D,
) -> Result<Index<A>, StoreFault>
    ensures known { IfOk result (λ index. IsFitting index (D.medium disk.old).size × SaysRecording index) }
    ensures finds { Finds (λ image index. IsRecoveredIn index image) (λ image fault. reading image ≡ Err fault)
        (D.medium disk.old) (D.medium disk.new) result }
{
    let head = read_super(disk)?;
    recover_parts(alloc, disk, head)
}
