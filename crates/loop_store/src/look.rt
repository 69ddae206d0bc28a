//! Reads of frames, from memory and from the disk.

ghost use Rattle.std.specs.Prelude.{◌≡◌, ◌∷◌, [], ◌<◌, ◌≤◌, ◌+◌, ◌*◌, ◌++◌, ◌||◌, Bool, ℕ, List, IfNone, IfOk, IfSome, IsTrue, None, false, length, map, slice_index_or, true, vec_capacity};
ghost use Rattle.std.specs.List.{list_any, range_with_len};
ghost use Rattle.loop_record.specs.Geometry.{disk_size, frame_bytes, is_good};
ghost use Rattle.loop_record.specs.Layout.{is_too_high};
ghost use Rattle.loop_record.specs.Plain.{AreIn};
ghost use Rattle.loop_record.specs.Recording.{Recording, holds};
ghost use Rattle.loop_ring.specs.Heads.{has_number};
ghost use Rattle.loop_store.specs.Numbers.{IsLeastFrom, numbers_in, numbers_under};
ghost use Rattle.loop_store.specs.Look.{AnswersFrame, AnswersFramePart, ReadsHeld, bytes_under};
ghost use Rattle.loop_store.specs.Found.{IsHeadIn};
ghost use Rattle.loop_store.specs.Index.{IsIndex, IsIndexOf};

use crate::StoreFault;
use crate::index::Index;
use loop_disk::Disk;
use loop_record::{Found, FrameHead, Geometry, SegmentHead};
use loop_ring::Ring;
use std::alloc::{AllocError, Allocator};

/// The segment that has the frame of a number, if one has it.
pub(crate) fn segment_with<A: Allocator>(index: &Index<A>, number: u64) -> Option<u32>
    requires { IsIndex index.now }
    ensures within { IfSome result (λ segment. segment < index.now.ring.geometry.segments) }
    ensures there { IfSome result (λ segment.
        has_number index.now.ring.geometry.slots number (slice_index_or index.now.table.heads segment None) ≡ true) }
    ensures missing { (r : Recording) (image : List ℕ) → IsIndexOf index.now r image
        → IfNone result (holds r number ≡ false) }
{
    let slots = u64::from(index.ring.geometry.slots);
    let segment = index.find(number / slots)?;
    let head = index.table.get(segment)?;
    if number % slots < u64::from(head.frames) {
        Some(segment)
    } else {
        None
    }
}

// The smaller of two numbers, or the only one of them.
fn lesser(first: Option<u64>, second: Option<u64>) -> Option<u64>
    ensures { (p q : ℕ → Bool) (n : ℕ) → IsLeastFrom p n first → IsLeastFrom q n second
        → IsLeastFrom (λ k. p k || q k) n result }
{
    match (first, second) {
        (Some(first), Some(second)) => Some(first.min(second)),
        (None, least) | (least, None) => least,
    }
}

// The least number from this one on whose frame a segment has, by its header.
fn least_in(geometry: &Geometry, head: Option<SegmentHead>, number: u64) -> Option<u64>
    requires good { IsTrue (is_good geometry.now) }
    requires within { IsHeadIn geometry.now head }
    ensures { IsLeastFrom (λ n. has_number geometry.now.slots n head) number result }
{
    let head = head?;
    let first = head.block * u64::from(geometry.slots);
    let end = first + u64::from(head.frames);
    let least = first.max(number);
    if least < end { Some(least) } else { None }
}

/// The least number from this one on whose frame some segment has. It looks at all segments only where that isn't the
/// number itself.
pub(crate) fn next_held<A: Allocator>(index: &Index<A>, number: u64) -> Option<u64>
    requires { IsIndex index.now }
    ensures { IsLeastFrom (λ n. list_any (has_number index.now.ring.geometry.slots n) index.now.table.heads)
        number result }
{
    if segment_with(index, number).is_some() {
        return Some(number);
    }
    let mut least = None;
    for head in index.table.heads() {
        least = lesser(least, least_in(&index.ring.geometry, *head, number));
    }
    least
}

/// Reads the frame of a number from the segment that has it.
pub(crate) fn read_held<D: Disk>(
    disk: &mut D,
    ring: &Ring,
    segment: u32,
    number: u64,
    out: &mut [u8],
) -> Result<FrameHead, StoreFault>
    requires extent { (D.medium disk.old).size ≡ disk_size ring.now.geometry }
    requires segment { segment < ring.now.geometry.segments }
    requires size { length out.old ≡ frame_bytes ring.now.geometry }
    ensures { let g = ring.now.geometry in let old = D.medium disk.old in
        ReadsHeld g segment number (λ r. AnswersFrame r number result out.new) old (D.medium disk.new) result }
{
    let slot = (number % u64::from(ring.geometry.slots)) as u32;
    Ok(ring.read_slot(disk, segment, slot, number, out)?)
}

/// Reads the head of the frame of a number from the segment that has it, and none of its bytes. In contracts the bytes
/// are those on the disk.
pub(crate) fn read_held_head<D: Disk>(
    disk: &mut D,
    ring: &Ring,
    segment: u32,
    number: u64,
) -> Result<FrameHead, StoreFault>
    requires extent { (D.medium disk.old).size ≡ disk_size ring.now.geometry }
    requires segment { segment < ring.now.geometry.segments }
    ensures { let g = ring.now.geometry in let old = D.medium disk.old in
        ReadsHeld g segment number (λ r. AnswersFrame r number result (bytes_under g old.bytes segment number)) old
        (D.medium disk.new) result }
{
    let slot = (number % u64::from(ring.geometry.slots)) as u32;
    Ok(ring.read_head(disk, segment, slot, number)?)
}

/// Reads a part of the frame of a number from the segment that has it, from byte `at` on.
pub(crate) fn read_held_part<D: Disk>(
    disk: &mut D,
    ring: &Ring,
    segment: u32,
    number: u64,
    at: u32,
    out: &mut [u8],
) -> Result<(), StoreFault>
    requires extent { (D.medium disk.old).size ≡ disk_size ring.now.geometry }
    requires segment { segment < ring.now.geometry.segments }
    requires part { at + length out.old ≤ frame_bytes ring.now.geometry }
    ensures { let g = ring.now.geometry in let old = D.medium disk.old in
        ReadsHeld g segment number (λ r. AnswersFramePart r number at result out.new) old (D.medium disk.new) result }
{
    let slot = (number % u64::from(ring.geometry.slots)) as u32;
    ring.read_part(disk, segment, slot, number, at, out)?;
    Ok(())
}

// How many frames a header names.
fn frames_under(head: Option<SegmentHead>) -> u32
    ensures { (slots : ℕ) → result ≡ length (numbers_under slots (head ∷ [])) }
{
    match head {
        Some(head) => head.frames,
        None => 0,
    }
}

/// How many frames are held.
pub(crate) fn count_held<A: Allocator>(index: &Index<A>) -> u64
    requires { IsIndex index.now }
    ensures { result ≡ length (numbers_under index.now.ring.geometry.slots index.now.table.heads) }
{
    let mut count = 0;
    for head in index.table.heads() {
        count += u64::from(frames_under(*head));
    }
    count
}

// Appends the numbers of a segment's frames to others, in memory that was taken before.
fn add_numbers<A: Allocator>(geometry: &Geometry, found: Found, numbers: &mut Vec<u64, A>)
    requires few { found.frames ≤ geometry.now.slots }
    requires low { is_too_high geometry.now found.block ≡ false }
    requires room { length numbers.old.items + found.frames ≤ vec_capacity numbers.old }
    ensures items { numbers.new.items
        ≡ numbers.old.items ++ range_with_len (found.block * geometry.now.slots) found.frames }
    ensures room { vec_capacity numbers.new ≡ vec_capacity numbers.old }
{
    let first = found.block * u64::from(geometry.slots);
    for slot in 0..found.frames {
        numbers.push_reserved(first + u64::from(slot));
    }
}

/// The numbers of the frames of found segments, one segment after the other. It takes all memory at once.
pub(crate) fn numbers_of<A: Allocator>(
    alloc: A,
    geometry: &Geometry,
    segments: &[Found],
) -> Result<Vec<u64, A>, AllocError>
    requires good { IsTrue (is_good geometry.now) }
    requires count { length segments.now ≤ geometry.now.segments }
    requires within { AreIn geometry.now segments.now }
    ensures { IfOk result (λ numbers. numbers.items ≡ numbers_in geometry.now segments.now) }
{
    let mut numbers = Vec::with_capacity(alloc, segments.len() * geometry.slots as usize)?;
    for found in segments {
        add_numbers(geometry, *found, &mut numbers);
    }
    Ok(numbers)
}

/// The numbers of the held frames, in rising order. It takes all memory at once.
pub(crate) fn held_numbers<A: Allocator, B: Allocator>(
    alloc: B,
    index: &Index<A>,
) -> Result<Vec<u64, B>, AllocError>
    requires { IsIndex index.now }
    ensures { (r : Recording) (image : List ℕ) → IsIndexOf index.now r image
        → IfOk result (λ numbers. numbers.items ≡ map (λ f. f.0) r.frames) }
{
    numbers_of(alloc, &index.ring.geometry, index.table.in_order())
}
