//! Locks and unlocks of clips: which are refused, what they write, and what is noted of them.

ghost use Rattle.std.specs.Prelude.{◌≡◌, ◌≢◌, ◌<◌, ◌≤◌, ◌∷◌, ℕ, [], Err, IfErr, IfOk, IsTrue, List, None, Ok, OnErr, OnOk, Some, false, slice_index_or};
ghost use Rattle.loop_record.specs.Geometry.{disk_size};
ghost use Rattle.loop_record.specs.Layout.{has_tag_place};
ghost use Rattle.loop_record.specs.Recording.{Recording, clip_of, first_free, holds, lock, ring_of, unlock};
ghost use Rattle.loop_store.specs.Calls.{locked, missing, unlocked};
ghost use Rattle.loop_store.specs.Goes.{Goes};
ghost use Rattle.loop_store.specs.Grow.{Makes};
ghost use Rattle.loop_store.specs.Lock.{AnswersSpan, AreHeld, CanRefuseSpan, CanTake, EndsRun, IsInSpan, KeepsSegments};
ghost use Rattle.loop_store.specs.Index.{IsClipNoted, IsIndex, IsIndexOf};
ghost use Rattle.loop_store.specs.Store.{IsKept, IsPresent};
ghost use Rattle.loop_store.specs.Seen.{Refused, seen_with};

use crate::StoreFault;
use crate::index::Index;
use crate::look::segment_with;
use loop_disk::{Disk, DiskFault};
use loop_record::{Span, TAGGED};
use std::alloc::Allocator;

// The first number from this one on that isn't held, if it lies in the same block; otherwise the first number after
// the block.
fn run_end<A: Allocator>(index: &Index<A>, number: u64) -> u64
    requires { IsIndex index.now }
    ensures from { number ≤ result }
    ensures held { (r : Recording) (image : List ℕ) → IsIndexOf index.now r image → AreHeld r number result }
    ensures missing { (r : Recording) (image : List ℕ) → IsIndexOf index.now r image → result ≡ number
        → holds r number ≡ false }
    ensures whole { (r : Recording) (image : List ℕ) → IsIndexOf index.now r image
        → EndsRun (ring_of index.now.ring.geometry) r number result }
{
    match segment_with(index, number) {
        Some(segment) => match index.table.get(segment) {
            Some(head) => {
                head.block * u64::from(index.ring.geometry.slots) + u64::from(head.frames)
            }
            None => number,
        },
        None => number,
    }
}

// The least number of a span that isn't held. It looks once at each held block of the span, and at no single number.
fn first_missing<A: Allocator>(index: &Index<A>, span: Span) -> Option<u64>
    requires index { IsIndex index.now }
    requires some { span.from ≤ span.to }
    ensures within { IsInSpan span result }
    ensures missing { (r : Recording) (image : List ℕ) → IsIndexOf index.now r image → result ≡ missing r span }
{
    let mut next = span.from;
    while next <= span.to {
        let end = run_end(index, next);
        if end == next {
            return Some(next);
        }
        next = end;
    }
    None
}

// Whether a version of the layout has a place for the clip's tag.
fn has_place(version: u32, span: Span) -> bool
    ensures { result ≡ has_tag_place version span }
{
    version == TAGGED || span.tag == 0
}

// The id that a new clip of a span gets. `ClipEmpty`, then `ClipNotHeld`, then `ClipTableFull`, then `OldLayout`.
fn id_for<A: Allocator>(index: &Index<A>, span: Span) -> Result<u32, StoreFault>
    requires { IsIndex index.now }
    ensures id { IfOk result (λ id. ((id < 64) × (id ≡ first_free index.now.clips)) × (span.from ≤ span.to)) }
    ensures tag { IfOk result (λ id. IsTrue (has_tag_place index.now.version span)) }
    ensures refusals { IfErr result (CanRefuseSpan index.now.version span index.now.clips) }
    ensures answers { (r : Recording) (image : List ℕ) → IsIndexOf index.now r image
        → AnswersSpan index.now.version r span result }
{
    if span.to < span.from {
        return Err(StoreFault::ClipEmpty);
    }
    if let Some(number) = first_missing(index, span) {
        return Err(StoreFault::ClipNotHeld(number));
    }
    let Some(id) = index.clips.free_id() else {
        return Err(StoreFault::ClipTableFull);
    };
    if !has_place(index.version, span) {
        return Err(StoreFault::OldLayout);
    }
    Ok(id)
}

// Writes a clip under the least free id, and notes it.
fn add_clip<D: Disk, A: Allocator>(
    disk: &mut D,
    index: &mut Index<A>,
    id: u32,
    span: Span,
) -> Result<(), DiskFault>
    requires extent { (D.medium disk.old).size ≡ disk_size index.old.ring.geometry }
    requires index { IsIndex index.old }
    requires id { (id < 64) × (id ≡ first_free index.old.clips) }
    requires tag { IsTrue (has_tag_place index.old.version span) }
    requires present { (D.medium disk.old).honest → IsPresent index.old (D.medium disk.old) }
    ensures makes { let g = index.old.ring.geometry in let old = D.medium disk.old in
        Makes g (CanTake index.old.version g span id) (λ r. lock span ∷ []) (KeepsSegments g old.bytes) old
        (D.medium disk.new) result }
    ensures noted { OnOk result (IsClipNoted index.old index.new id (Some span)) }
    ensures same { OnErr result (index.new ≡ index.old) }
{
    let written = index.clips.lock(disk, id, span);
    if written.is_ok() {
        index.note_clip(id, Some(span));
    }
    written
}

// Removes the clip of an id, and notes that.
fn remove_clip<D: Disk, A: Allocator>(
    disk: &mut D,
    index: &mut Index<A>,
    id: u32,
) -> Result<(), DiskFault>
    requires extent { (D.medium disk.old).size ≡ disk_size index.old.ring.geometry }
    requires index { IsIndex index.old }
    requires id { (id < 64) × (slice_index_or index.old.clips id None ≢ None) }
    requires present { (D.medium disk.old).honest → IsPresent index.old (D.medium disk.old) }
    ensures makes { let g = index.old.ring.geometry in let old = D.medium disk.old in
        Makes g (λ r. clip_of r id ≢ None) (λ r. unlock id ∷ []) (KeepsSegments g old.bytes) old
        (D.medium disk.new) result }
    ensures noted { OnOk result (IsClipNoted index.old index.new id None) }
    ensures same { OnErr result (index.new ≡ index.old) }
{
    let written = index.clips.unlock(disk, id);
    if written.is_ok() {
        index.note_clip(id, None);
    }
    written
}

/// Adds a clip of a span, and returns its id. `MustReopen`, then `ClipEmpty`, `ClipNotHeld`, `ClipTableFull`,
/// `OldLayout`, as in `Store::lock`. After `Disk` the store must be reopened.
pub(crate) fn lock_clip<D: Disk, A: Allocator>(
    disk: &mut D,
    index: &mut Index<A>,
    must_reopen: &mut bool,
    span: Span,
) -> Result<u32, StoreFault>
    requires { IsKept D.medium disk.old index.old must_reopen.old }
    ensures kept { IsKept D.medium disk.new index.new must_reopen.new × (index.new.ring ≡ index.old.ring) }
    ensures goes { Goes D.medium (seen_with disk.old index.old must_reopen.old)
        (seen_with disk.new index.new must_reopen.new)
        (locked span result ∷ []) }
    ensures refused { Refused (seen_with disk.old index.old must_reopen.old)
        (seen_with disk.new index.new must_reopen.new) result }
{
    if *must_reopen {
        return Err(StoreFault::MustReopen);
    }
    let id = id_for(index, span)?;
    match add_clip(disk, index, id, span) {
        Ok(()) => Ok(id),
        Err(fault) => {
            *must_reopen = true;
            Err(StoreFault::Disk(fault))
        }
    }
}

/// Removes the clip of an id. `MustReopen`, then `NoSuchClip`, as in `Store::unlock`. After `Disk` the store must be
/// reopened.
pub(crate) fn unlock_clip<D: Disk, A: Allocator>(
    disk: &mut D,
    index: &mut Index<A>,
    must_reopen: &mut bool,
    id: u32,
) -> Result<(), StoreFault>
    requires { IsKept D.medium disk.old index.old must_reopen.old }
    ensures kept { IsKept D.medium disk.new index.new must_reopen.new × (index.new.ring ≡ index.old.ring) }
    ensures goes { Goes D.medium (seen_with disk.old index.old must_reopen.old)
        (seen_with disk.new index.new must_reopen.new)
        (unlocked id result ∷ []) }
    ensures refused { Refused (seen_with disk.old index.old must_reopen.old)
        (seen_with disk.new index.new must_reopen.new) result }
{
    if *must_reopen {
        return Err(StoreFault::MustReopen);
    }
    let Some(_) = index.clips.get(id) else {
        return Err(StoreFault::NoSuchClip);
    };
    match remove_clip(disk, index, id) {
        Ok(()) => Ok(()),
        Err(fault) => {
            *must_reopen = true;
            Err(StoreFault::Disk(fault))
        }
    }
}
