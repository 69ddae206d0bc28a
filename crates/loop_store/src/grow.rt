//! What an append writes: the block that it begins, and the frames. `Makes` says what each of these does to a
//! recording. docs/order-of-writes.md says why it is so.

ghost use Rattle.std.specs.Prelude.{◌≡◌, ◌+◌, ◌<◌, ◌≤◌, ◌/◌, ◌%◌, ◌++◌, [], Some, length, map};
ghost use Rattle.loop_disk.specs.Medium.{IsSettled};
ghost use Rattle.loop_record.specs.Geometry.{disk_size, frame_bytes};
ghost use Rattle.loop_record.specs.Change.{ShowsSegment};
ghost use Rattle.loop_record.specs.Reading.{empty_segment};
ghost use Rattle.loop_record.specs.Recording.{store};
ghost use Rattle.loop_ring.specs.Writes.{HasNoStray, ShowsFrames};
ghost use Rattle.loop_store.specs.declared.place.AppendPlace.TheVariants.{Victim};
ghost use Rattle.loop_store.specs.Grow.{HasNext, IsFreeFor, IsNewestSegment, Makes};
ghost use Rattle.loop_store.specs.AppendPlace.{IsBegunAt, IsGrownAt, IsKnown, place_segment, steps_before};

use crate::index::Index;
use crate::place::AppendPlace;
use loop_disk::{Disk, DiskFault};
use loop_ring::{Group, Ring};
use std::alloc::Allocator;

// Begins the block of the next number, which is its first, in a closed segment. The recording stays as it is.
fn begin<D: Disk>(disk: &mut D, ring: &Ring, segment: u32, next: u64) -> Result<(), DiskFault>
    requires extent { (D.medium disk.old).size ≡ disk_size ring.now.geometry }
    requires segment { segment < ring.now.geometry.segments }
    requires first { (D.medium disk.old).honest → next % ring.now.geometry.slots ≡ 0 }
    requires settled { (D.medium disk.old).honest → IsSettled (D.medium disk.old) }
    requires free { (D.medium disk.old).honest → IsFreeFor ring.now.geometry next segment (D.medium disk.old).bytes }
    ensures { let g = ring.now.geometry in let old = D.medium disk.old in
        Makes g (HasNext next) (λ r. []) (λ image. IsNewestSegment g next segment image
        × ShowsSegment g segment (Some (empty_segment (next / g.slots))) old.bytes image) old
        (D.medium disk.new) result }
{
    ring.begin_block(disk, segment, next / u64::from(ring.geometry.slots))
}

// Stores a group of frames in the block that has begun, after the frames that it has.
fn store_group<D: Disk>(
    disk: &mut D,
    ring: &Ring,
    segment: u32,
    group: &Group<'_>,
) -> Result<(), DiskFault>
    requires extent { (D.medium disk.old).size ≡ disk_size ring.now.geometry }
    requires segment { segment < ring.now.geometry.segments }
    requires some { 1 ≤ length group.now.frames }
    requires room { group.now.first % ring.now.geometry.slots + length group.now.frames ≤ ring.now.geometry.slots }
    requires size { group.now.size ≡ frame_bytes ring.now.geometry }
    requires settled { (D.medium disk.old).honest → IsSettled (D.medium disk.old) }
    requires newest { (D.medium disk.old).honest
        → IsNewestSegment ring.now.geometry group.now.first segment (D.medium disk.old).bytes }
    ensures { let g = ring.now.geometry in let old = D.medium disk.old in
        Makes g (HasNext group.now.first) (λ r. map store group.now.frames)
        (λ image. ShowsFrames g segment group.now.first group.now.frames old.bytes image × HasNoStray g segment image)
        old (D.medium disk.new) result }
{
    let slot = (group.first() % u64::from(ring.geometry.slots)) as u32;
    ring.commit(disk, segment, slot, group)
}

// Retires the victim's segment, and begins the block of the next number in it.
fn replace<D: Disk, A: Allocator>(
    disk: &mut D,
    index: &Index<A>,
    segment: u32,
    next: u64,
) -> Result<(), DiskFault>
    requires extent { (D.medium disk.old).size ≡ disk_size index.now.ring.geometry }
    requires segment { segment < index.now.ring.geometry.segments }
    requires settled { (D.medium disk.old).honest → IsSettled (D.medium disk.old) }
    requires known { (D.medium disk.old).honest
        → IsKnown index.now.ring.geometry index.now.table.keep next (Victim segment) (D.medium disk.old).bytes }
    ensures { let g = index.now.ring.geometry in let old = D.medium disk.old in
        Makes g (HasNext next) (steps_before g index.now.table.keep) (λ image. IsNewestSegment g next segment image
        × IsBegunAt g next segment old.bytes image)
        old (D.medium disk.new) result }
{
    index.ring.retire(disk, segment)?;
    begin(disk, &index.ring, segment, next)
}

// Makes room for the next frames at a place: recycles a block and begins another, or begins one, or does nothing.
fn make_room<D: Disk, A: Allocator>(
    disk: &mut D,
    index: &Index<A>,
    place: AppendPlace,
    next: u64,
) -> Result<(), DiskFault>
    requires extent { (D.medium disk.old).size ≡ disk_size index.now.ring.geometry }
    requires segment { place_segment place < index.now.ring.geometry.segments }
    requires settled { (D.medium disk.old).honest → IsSettled (D.medium disk.old) }
    requires known { (D.medium disk.old).honest
        → IsKnown index.now.ring.geometry index.now.table.keep next place (D.medium disk.old).bytes }
    ensures { let g = index.now.ring.geometry in let old = D.medium disk.old in let j = place_segment place in
        Makes g (HasNext next) (steps_before g index.now.table.keep) (λ image. IsNewestSegment g next j image
        × IsBegunAt g next j old.bytes image)
        old (D.medium disk.new) result }
{
    match place {
        AppendPlace::Newest(_) => Ok(()),
        AppendPlace::Closed(segment) => begin(disk, &index.ring, segment, next),
        AppendPlace::Victim(segment) => replace(disk, index, segment, next),
    }
}

/// Makes room at a place, and stores a group of frames there.
pub(crate) fn append_group<D: Disk, A: Allocator>(
    disk: &mut D,
    index: &Index<A>,
    place: AppendPlace,
    group: &Group<'_>,
) -> Result<(), DiskFault>
    requires extent { (D.medium disk.old).size ≡ disk_size index.now.ring.geometry }
    requires segment { place_segment place < index.now.ring.geometry.segments }
    requires some { 1 ≤ length group.now.frames }
    requires room { group.now.first % index.now.ring.geometry.slots + length group.now.frames
        ≤ index.now.ring.geometry.slots }
    requires size { group.now.size ≡ frame_bytes index.now.ring.geometry }
    requires settled { (D.medium disk.old).honest → IsSettled (D.medium disk.old) }
    requires known { (D.medium disk.old).honest
        → IsKnown index.now.ring.geometry index.now.table.keep group.now.first place (D.medium disk.old).bytes }
    ensures { let g = index.now.ring.geometry in let old = D.medium disk.old in
        Makes g (HasNext group.now.first) (λ r. steps_before g index.now.table.keep r ++ map store group.now.frames)
        (IsGrownAt g group.now.first (length group.now.frames) (place_segment place) old.bytes)
        old (D.medium disk.new) result }
{
    make_room(disk, index, place, group.first())?;
    store_group(disk, &index.ring, place.segment(), group)
}
