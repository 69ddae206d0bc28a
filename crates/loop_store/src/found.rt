//! The parts of a recording on a disk, each read by itself: the superblock, the headers, the heads of the slots, the
//! clip table. docs/recovery.md says why it is so.
//!
//! Each call reads and never writes. After a refusal the disk is as it was.

ghost use Rattle.std.specs.Prelude.{◌≡◌, ◌+◌, ◌*◌, ◌<◌, ◌≤◌, ℕ, List, Ok, Err, IfOk, None, All, true, false, length, slice_index_or};
ghost use Rattle.std.specs.List.{list_any};
ghost use Rattle.loop_record.specs.declared.damage.Damage.{Damage};
ghost use Rattle.loop_record.specs.declared.damage.LayoutFault.{LayoutFault};
ghost use Rattle.loop_record.specs.declared.geometry.Geometry.{Geometry};
ghost use Rattle.loop_record.specs.declared.image.Found.{Found};
ghost use Rattle.loop_record.specs.Geometry.{frame_bytes, segment_at, slot_at};
ghost use Rattle.loop_record.specs.Layout.{header_at, is_slot_of, is_too_high, segment_in, slot_in, super_in, version_in};
ghost use Rattle.loop_record.specs.Plain.{AreIn, IsSomeHigh, IsTagFit, lacks_number, segment_of, segments_of};
ghost use Rattle.loop_record.specs.Reading.{by_block, is_bad_slot, open_segments, reading};
ghost use Rattle.loop_record.specs.Parts.{is_high, parts_of};
ghost use Rattle.loop_ring.specs.Groups.{slot_stamp};
ghost use Rattle.loop_ring.specs.Heads.{heads_of};
ghost use Rattle.loop_store.specs.Fresh.{FitsDisk};
ghost use Rattle.loop_store.specs.Found.{Finds, IsHeadIn, clips_of, refusal, some_bad_clip};
ghost use Rattle.loop_store.specs.Times.{AllStamped, AreStamped, KeepsStamps};

use crate::StoreFault;
use loop_disk::Disk;
use loop_record::{
    Damage, Found, Geometry, HEAD_SIZE, HEADER_SIZE, LayoutFault, SUPER_SIZE, SegmentHead, Span,
    SuperHead, TABLE_SIZE, decode_head, decode_header, decode_super, read_clips,
};
use loop_ring::SlotStamp;
use std::alloc::Allocator;

impl From<LayoutFault> for StoreFault {
    ghost from_gives = { λ fault made. made ≡ refusal fault };

    fn from(fault: LayoutFault) -> StoreFault {
        match fault {
            LayoutFault::NotFormatted => StoreFault::NotFormatted,
            LayoutFault::Damaged(damage) => StoreFault::Damaged(damage),
        }
    }
}

/// What the superblock says, where the disk has the size of its geometry: one read, or none where the disk is too
/// small for a superblock.
pub(crate) fn read_super<D: Disk>(disk: &mut D) -> Result<SuperHead, StoreFault>
    ensures fits { IfOk result (λ head. FitsDisk head.geometry (D.medium disk.old).size) }
    ensures finds { Finds (λ image head. super_in image ≡ Ok head) (λ image fault. reading image ≡ Err fault)
        (D.medium disk.old) (D.medium disk.new) result }
{
    let size = disk.size();
    if size < SUPER_SIZE as u64 {
        return Err(StoreFault::NotFormatted);
    }
    let mut superblock = [0; SUPER_SIZE];
    disk.read(0, &mut superblock)?;
    let head = decode_super(&superblock)?;
    if size != head.geometry.disk_size() {
        return Err(StoreFault::Damaged(Damage::DiskSize));
    }
    Ok(head)
}

// What the header of a segment says: one read.
fn read_head<D: Disk>(
    disk: &mut D,
    geometry: &Geometry,
    segment: u32,
) -> Result<Option<SegmentHead>, StoreFault>
    requires fits { FitsDisk geometry.now (D.medium disk.old).size }
    requires segment { segment < geometry.now.segments }
    ensures within { IfOk result (IsHeadIn geometry.now) }
    ensures finds { let g = geometry.now in
        Finds (λ image head. head ≡ header_at g image (segment_at g segment)) (λ image fault.
        (fault ≡ LayoutFault.Damaged Damage.BlockTooHigh) × IsSomeHigh g (segment_in g image segment))
        (D.medium disk.old) (D.medium disk.new) result }
{
    let mut header = [0; HEADER_SIZE];
    disk.read(geometry.segment_at(segment), &mut header)?;
    let head = decode_header(geometry, &header)?;
    Ok(head)
}

/// What the header of each segment says, in the order of the segments: one read each. `BlockTooHigh` where a segment
/// has such a block.
pub(crate) fn read_heads<D: Disk, A: Allocator>(
    alloc: A,
    disk: &mut D,
    geometry: &Geometry,
) -> Result<Vec<Option<SegmentHead>, A>, StoreFault>
    requires fits { FitsDisk geometry.now (D.medium disk.old).size }
    ensures count { IfOk result (λ heads. length heads.items ≡ geometry.now.segments) }
    ensures within { IfOk result (λ heads. All (IsHeadIn geometry.now) heads.items) }
    ensures finds { let g = geometry.now in Finds (λ image heads. heads.items ≡ heads_of g image)
        (λ image fault. (fault ≡ LayoutFault.Damaged Damage.BlockTooHigh)
        × (list_any (is_high g) (by_block (open_segments (parts_of g image).segments)) ≡ true))
        (D.medium disk.old) (D.medium disk.new) result }
{
    let mut heads = Vec::with_capacity(alloc, geometry.segments as usize)?;
    for segment in 0..geometry.segments {
        let head = read_head(disk, geometry, segment)?;
        heads.push_reserved(head);
    }
    Ok(heads)
}

// The stamp of frame `number` where the slot holds it, otherwise `SlotHead`: one read of the slot's first `HEAD_SIZE`
// bytes.
fn check_slot<D: Disk>(
    disk: &mut D,
    geometry: &Geometry,
    segment: u32,
    slot: u32,
    number: u64,
) -> Result<SlotStamp, StoreFault>
    requires fits { FitsDisk geometry.now (D.medium disk.old).size }
    requires segment { segment < geometry.now.segments }
    requires slot { slot < geometry.now.slots }
    ensures { let n = frame_bytes geometry.now in
        let there = λ (image : List ℕ). slot_in n image (slot_at geometry.now segment slot) in
        let said = λ (image : List ℕ). is_slot_of n number (there image) in
        Finds (λ image stamp. (said image ≡ true) × (stamp ≡ slot_stamp (there image).picture))
        (λ image fault. (fault ≡ LayoutFault.Damaged Damage.SlotHead) × (said image ≡ false))
        (D.medium disk.old) (D.medium disk.new) result }
{
    let mut head = [0; HEAD_SIZE];
    disk.read(geometry.slot_at(segment, slot), &mut head)?;
    let head = decode_head(&head, number, geometry.frame_bytes())?;
    Ok(SlotStamp {
        time: head.timestamp,
        sequence: head.sequence,
    })
}

// Checks that the slots of a segment's whole frames hold these frames, otherwise `SlotHead`: one read each. Notes
// their stamps.
fn check_segment<D: Disk>(
    disk: &mut D,
    geometry: &Geometry,
    found: Found,
    stamps: &mut [SlotStamp],
) -> Result<(), StoreFault>
    requires room { length stamps.old ≡ geometry.now.segments * geometry.now.slots }
    requires fits { FitsDisk geometry.now (D.medium disk.old).size }
    requires segment { found.segment < geometry.now.segments }
    requires few { found.frames ≤ geometry.now.slots }
    requires low { is_too_high geometry.now found.block ≡ false }
    ensures finds { let g = geometry.now in let bad = λ (image : List ℕ). is_bad_slot g (segment_of g image found) in
        Finds (λ image _. (bad image ≡ false) × (AreStamped g image stamps.new found.segment found.frames
        × KeepsStamps g image stamps.old stamps.new))
        (λ image fault. (fault ≡ LayoutFault.Damaged Damage.SlotHead) × (bad image ≡ true))
        (D.medium disk.old) (D.medium disk.new) result }
    ensures room { length stamps.new ≡ length stamps.old }
{
    let first = found.block * u64::from(geometry.slots);
    let at = found.segment as usize * geometry.slots as usize;
    for slot in 0..found.frames {
        let number = first + u64::from(slot);
        let stamp = check_slot(disk, geometry, found.segment, slot, number)?;
        stamps[at + slot as usize] = stamp;
    }
    Ok(())
}

/// Checks that the slots of all segments' whole frames hold these frames, otherwise `SlotHead`: one read each. Notes
/// their stamps.
pub(crate) fn check_slots<D: Disk>(
    disk: &mut D,
    geometry: &Geometry,
    open: &[Found],
    stamps: &mut [SlotStamp],
) -> Result<(), StoreFault>
    requires room { length stamps.old ≡ geometry.now.segments * geometry.now.slots }
    requires fits { FitsDisk geometry.now (D.medium disk.old).size }
    requires within { AreIn geometry.now open.now }
    ensures finds { let g = geometry.now in
        let bad = λ (image : List ℕ). list_any (is_bad_slot g) (segments_of g image open.now) in
        Finds (λ image _. (bad image ≡ false) × (AllStamped g image stamps.new open.now
        × KeepsStamps g image stamps.old stamps.new))
        (λ image fault. (fault ≡ LayoutFault.Damaged Damage.SlotHead) × (bad image ≡ true))
        (D.medium disk.old) (D.medium disk.new) result }
    ensures room { length stamps.new ≡ length stamps.old }
{
    let Some((first, others)) = open.split_first() else {
        return Ok(());
    };
    check_segment(disk, geometry, *first, stamps)?;
    check_slots(disk, geometry, others, stamps)
}

/// The clip of each id, in this version of the layout. `ClipRange` where a clip is empty or has a number whose frame
/// no segment has. One read.
pub(crate) fn read_table<D: Disk>(
    disk: &mut D,
    geometry: &Geometry,
    version: u32,
    open: &[Found],
) -> Result<[Option<Span>; 64], StoreFault>
    requires fits { FitsDisk geometry.now (D.medium disk.old).size }
    requires within { AreIn geometry.now open.now }
    ensures finds { let bad = λ (image : List ℕ). some_bad_clip geometry.now image open.now in
        Finds (λ image clips. version_in image ≡ version → (clips ≡ clips_of image) × (bad image ≡ false))
        (λ image fault. version_in image ≡ version
        → (fault ≡ LayoutFault.Damaged Damage.ClipRange) × (bad image ≡ true))
        (D.medium disk.old) (D.medium disk.new) result }
    ensures held { IfOk result (λ clips. (length clips ≡ 64)
        × (list_any (lacks_number geometry.now open.now) clips ≡ false)) }
    ensures tags { IfOk result (λ clips. (id : ℕ) → IsTagFit (slice_index_or clips id None)) }
{
    let mut table = [0; TABLE_SIZE];
    disk.read(SUPER_SIZE as u64, &mut table)?;
    let clips = read_clips(geometry, version, &table, open)?;
    Ok(clips)
}
